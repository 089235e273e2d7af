ghost use Rattle.std.specs.Prelude.{◌≡◌, true, IsTrue};
ghost use Rattle.tap_engine.specs.Kinds.{observes};
ghost use Rattle.tap_history.specs.StepAsks.{is_start};
ghost use Rattle.tap_runs.specs.Course.{is_choice};
ghost use Rattle.tap_scenario.specs.Step.{asks_no_roots};
ghost use Rattle.tap_carried_world.specs.Adds.{AddsNext};
ghost use Rattle.tap_carried_world.specs.Comes.{BeginsNext};
ghost use Rattle.tap_carried_world.specs.Value.{CarriesRun};

use crate::carried::CarriedWorld;
use tap_scenario::{Scenario, Step};
use tap_world::Stop;

// The steps, which are begun if nothing is due.
impl CarriedWorld {
    /// A step has a node start something. Its group is added: the step, what comes of it, and a data packet for each frame that the node
    /// sends; or the step and its refusal.
    ///
    /// `Spent` comes exactly if more frames would then have been sent in all than may be: the step is added alone, and then `Spent`.
    /// `NoMemory` may leave some first records of the group. No other refusal comes.
    ///
    /// Condition: the world runs this scenario, nothing is due, and this step, of this index, begins next.
    ///
    /// Rule: docs/FORMATS.md, "What comes next".
    pub fn start(&mut self, scenario: &Scenario, index: u32, step: &Step) -> Result<(), Stop>
        requires carries { CarriesRun scenario.now self.old.world self.old.carrier }
        requires next { BeginsNext scenario.now self.old.world index step.now }
        requires kind { is_start step.now ≡ true }
        ensures { AddsNext scenario.now self.old.world result self.new.world self.new.carrier }
    {
        let from = self.world.log().len();
        self.carrier.begin(step);
        match self.world.start(index, step) {
            Ok(()) => self
                .carrier
                .carry_since(&mut self.world, &scenario.settings(), from),
            Err(Stop::Refused(refusal)) => self.world.note(index, refusal),
            Err(Stop::Spent) => Err(Stop::Spent),
            Err(Stop::NoMemory) => Err(Stop::NoMemory),
            Err(Stop::Ended) => Err(Stop::Ended),
        }
    }

    /// A step observes. Its group is added: the step, and what it sees or its refusal.
    ///
    /// `NoMemory` adds nothing. No other refusal comes.
    ///
    /// Condition: the world runs this scenario, nothing is due, and this step, of this index, begins next.
    ///
    /// Rule: docs/FORMATS.md, "What comes next".
    pub fn observe(&mut self, scenario: &Scenario, index: u32, step: &Step) -> Result<(), Stop>
        requires carries { CarriesRun scenario.now self.old.world self.old.carrier }
        requires next { BeginsNext scenario.now self.old.world index step.now }
        requires kind { observes step.now ≡ true }
        ensures { AddsNext scenario.now self.old.world result self.new.world self.new.carrier }
    {
        // No effect at run time. The proof reads from this call that the log of plain records is the reduced one.
        let _ = self.world.log();
        self.carrier.begin(step);
        match self.world.observe(index, step) {
            Ok(()) => Ok(()),
            Err(Stop::Refused(refusal)) => self.world.note(index, refusal),
            Err(Stop::Spent) => Err(Stop::Spent),
            Err(Stop::NoMemory) => Err(Stop::NoMemory),
            Err(Stop::Ended) => Err(Stop::Ended),
        }
    }

    /// A step chooses what arrives next, ticks, loses a packet or repeats one. Its group is added: the step, and its refusal, or that the
    /// packet is lost, or the packet that is made. What it has arrive, and the packets of a tick, are groups that come after it.
    ///
    /// It is refused exactly if no packet is at its place, or else if with its packets more than 100,000 would have been made once more.
    /// `NoMemory` may leave the step alone, or nothing. No other refusal comes.
    ///
    /// Condition: the world runs this scenario, nothing is due, and this step, of this index, begins next.
    ///
    /// Rule: docs/FORMATS.md, "What comes next".
    pub fn choose(&mut self, scenario: &Scenario, index: u32, step: &Step) -> Result<(), Stop>
        requires carries { CarriesRun scenario.now self.old.world self.old.carrier }
        requires next { BeginsNext scenario.now self.old.world index step.now }
        requires kind { is_choice step.now ≡ true }
        requires played { IsTrue (asks_no_roots step.now) }
        ensures { AddsNext scenario.now self.old.world result self.new.world self.new.carrier }
    {
        // No effect at run time. The proof reads from this call that the log of plain records is the reduced one.
        let _ = self.world.log();
        self.world.mark(index, step)?;
        let refusal = self.carrier.refusal(step);
        self.carrier.begin(step);
        if let Some(refusal) = refusal {
            return self.world.note(index, refusal);
        }
        match step {
            Step::Lose { place } => self.carrier.lose(&mut self.world, *place),
            Step::Repeat { place } => self.carrier.repeat(&mut self.world, *place),
            _ => Ok(()),
        }
    }
}
