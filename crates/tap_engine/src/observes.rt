ghost use Rattle.std.specs.Prelude.{◌≡◌, ◌≢◌, true, false, [], is_some, None, Some, IfOk};
ghost use Rattle.std.specs.Option.{option_map};
ghost use Rattle.tap_name.specs.Name.{IsName};
ghost use Rattle.tap_name.specs.Root.{AreNames, root};
ghost use Rattle.tap_scenario.specs.Step.{IsStep};
ghost use Rattle.tap_log.specs.declared.record.Record.TheVariants.{RootOf};
ghost use Rattle.tap_history.specs.Core.{core_of};
ghost use Rattle.tap_history.specs.Refusals.{first_refusal};
ghost use Rattle.tap_runs.specs.Course.{system_of};
ghost use Rattle.tap_runs.specs.Observed.{observed};
ghost use Rattle.tap_overlay.specs.Overlay.{node_at};
ghost use Rattle.tap_engine.specs.Kinds.{observes};

use crate::engine::Engine;
use crate::observed::{pointers_record, table_record};
use crate::stop::{NoMemory, Stop};
use tap_log::Record;
use tap_name::{List, Name};
use tap_node::Node;
use tap_scenario::Step;
use tap_surrogate::{root_of, walk_path};

// The observations.
impl Engine {
    ghost use Rattle.tap_engine.specs.KeptEngine.{AreReady, LeadsTo, world_value};
    ghost use Rattle.tap_engine.specs.Outcome.{IsNextIndex, unless_refused};

    /// A step observes: its group is the step, and what it sees. No node changes.
    ///
    /// What the step names are names of the settings. Its index is above that of the last step, from 1 on, and 1,000,000 at most. No refusal is
    /// left to be noted, and the log hasn't its end.
    ///
    /// `Refused` comes exactly if the step is refused, with the first refusal whose cause holds: the step is added alone. `NoMemory`
    /// adds nothing, and the engine takes no further call. No other answer comes.
    ///
    /// Rule: docs/FORMATS.md, "The course of a run".
    pub fn observe(&mut self, index: u32, step: &Step) -> Result<(), Stop>
        requires ready { AreReady self.old }
        requires next { IsNextIndex (world_value self.old None false) index }
        requires kind { observes step.now ≡ true }
        requires names { IsStep self.old.settings false step.now }
        ensures leads { LeadsTo (unless_refused (world_value self.old None false) index step.now (first_refusal self.old.ledger.records step.now))
            self.old result self.new }
        ensures alone { self.new ≡ record self.old { ledger = self.new.ledger } }
        ensures added { self.new.ledger.added ≡ self.old.ledger.added }
    {
        if let Some(refusal) = self.refusal_of(step)? {
            self.add_step(index, step);
            return Err(Stop::Refused(refusal));
        }
        let item = self.observed(step)?;
        self.add_step_with(index, step, item)?;
        Ok(())
    }

    // What a step sees that observes, and isn't refused.
    #[tactic(auto, unfolding(tap_runs::specs::Observed::observed, crate::specs::Kinds::observes))]
    fn observed(&self, step: &Step) -> Result<Record, NoMemory>
        requires ready { AreReady self.now }
        requires accepted { first_refusal self.now.ledger.records step.now ≡ None }
        requires kind { observes step.now ≡ true }
        requires names { IsStep self.now.settings false step.now }
        ensures { IfOk result (λ item. Some item
            ≡ observed self.now.settings self.now.ledger.records (system_of self.now.ledger.records) step.now) }
    {
        match step {
            Step::Walk { object, asker } => Ok(Record::Walked {
                object: *object,
                path: walk_path(self.alloc, &self.overlay, *asker, *object)?,
            }),
            Step::Root { object } => self.root(object),
            Step::Table { name } => Ok(table_record(self.alloc, *name, self.asked(name))?),
            Step::Pointers { name } => Ok(pointers_record(self.alloc, *name, self.asked(name))?),
            _ => unreachable!(),
        }
    }

    // The node of a name that is asked, which is there.
    fn asked(&self, name: &Name) -> &Node
        requires { is_some (node_at self.now.overlay name.now) ≡ true }
        ensures { node_at self.now.overlay name.now ≡ Some result.now }
    {
        match self.overlay.node(name) {
            Some(node) => node,
            None => unreachable!(),
        }
    }

    // The root of an object over the core nodes, of which there is one.
    fn root(&self, object: &Name) -> Result<Record, NoMemory>
        requires core { AreNames self.now.settings (core_of self.now.ledger.records) }
        requires some { core_of self.now.ledger.records ≢ [] }
        requires object { IsName self.now.settings object.now }
        ensures { IfOk result (λ item. Some item
            ≡ option_map (RootOf object.now) (root self.now.settings.base (core_of self.now.ledger.records) object.now)) }
    {
        let core = List::from_vec(Vec::from_slice(self.alloc, self.ledger.core())?);
        match root_of(&core, &self.settings, object) {
            Some(root) => Ok(Record::RootOf {
                object: *object,
                root,
            }),
            None => unreachable!(),
        }
    }
}
