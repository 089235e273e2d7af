ghost use Rattle.std.specs.Prelude.{◌≡◌, ◌≢◌, ◌≤◌, ◌↔◌, ℕ, [], true, false, nat_eq, length, position, option_copied, IfOk, IfSome, IsNone, Err, Some};
ghost use Rattle.tap_name.specs.Names.{has_name};
ghost use Rattle.tap_log.specs.Counts.{ticket_count};
ghost use Rattle.tap_log.specs.Log.{begun_steps};
ghost use Rattle.tap_log.specs.Reduced.{is_added, reduced};
ghost use Rattle.tap_ledger.specs.Woven.{RemarksWithin};
ghost use Rattle.tap_scenario.specs.Step.{IsStep};
ghost use Rattle.tap_history.specs.GroupLaws.{IsNumbered};
ghost use Rattle.tap_history.specs.Moments.{has_number, is_still, outstanding};
ghost use Rattle.tap_history.specs.Names.{names_of};
ghost use Rattle.tap_history.specs.StepAsks.{is_start};
ghost use Rattle.tap_node.specs.Node.{has_room_left};
ghost use Rattle.tap_runs.specs.Course.{is_choice, system_of};
ghost use Rattle.tap_readable.specs.Range.{IsInRange};
ghost use Rattle.tap_overlay.specs.Overlay.{HasNameAndSettings};
ghost use Rattle.tap_engine.specs.WorldHeadline.{WorldHasHeadline};
ghost use Rattle.tap_engine.specs.Holders.{HoldersAreExactAtRest};
ghost use Rattle.tap_engine.specs.Kinds.{awaits_roots, damages, most_index, observes, tells_roots};
ghost use Rattle.tap_engine.specs.Outcome.{refusal_in, stops};
ghost use Rattle.tap_engine.specs.Places.{last_place};

use std::alloc::Global;
use std::marker::Model;
use tap_engine::{Engine, NoMemory, Stop};
use tap_ledger::Ledger;
use tap_log::{Log, Record, Refusal};
use tap_name::{List, Name, Settings};
use tap_node::{Node, NodeStatus};
use tap_overlay::Overlay;
use tap_scenario::Step;
use tap_surrogate::Tables;
use tap_table::Table;

/// The world of a run: its nodes, each found by its name, the frames that are outstanding, and the log. Each call adds one group
/// to the log, or says why it adds none.
///
/// A carrier adds remarks to the log: records that it alone tells. Contracts see with what the log begins; the log of plain records, which
/// are all others; the remarks, each with how many plain records stand before it; the refusal that isn't noted yet; whether an earlier
/// call answered `Spent` or `NoMemory`; and the nodes with their names, ascending by name.
///
/// Until it was stopped so, its nodes are those of the system that its log has come to, so its log says what they have done; and
/// there is room in the log for its last record, after a step for a refusal, and after a step that asks for roots for these.
///
/// Rule: docs/FORMATS.md, "The course of a run".
#[derive(Drop)]
pub struct World {
    engine: Engine,
    refused: Option<Refusal>,
    stopped: bool,
}

impl Model for World {
    ghost use Rattle.tap_engine.specs.KeptEngine.{AreKept, world_value};
    ghost use Rattle.tap_engine.specs.World.{WorldValue};

    ghost Value = { WorldValue };

    ghost view = { λ w. world_value w.engine w.refused w.stopped };

    ghost invariant = { λ w. AreKept w.engine w.refused w.stopped };
}

impl World {
    ghost use Rattle.tap_runs.specs.Named.{HaveNames};
    ghost use Rattle.tap_runs.specs.Beginning.{IsWithinLimits};
    ghost use Rattle.tap_engine.specs.Outcome.{IsNextIndex, MayGoOn, MayNote, Remarks, WorldAnswersAs, deliver_outcome, finish_outcome, mark_outcome, note_outcome, step_outcome};
    ghost use Rattle.tap_engine.specs.WorldLog.{IsWorldLog};
    ghost use Rattle.tap_engine.specs.World.{HasBegun, HasNodesOfLog, node_of, nodes_running, whole_log};

    /// The world of members that are core nodes at rest. Its log has the record `Begin` alone, and nothing is outstanding.
    ///
    /// There are 1 to 64 distinct members, and the most frames that may be sent are within the limit of a scenario.
    ///
    /// Later calls take memory of `alloc`.
    ///
    /// Rule: docs/FORMATS.md, "The course of a run".
    pub fn new(
        alloc: Global,
        settings: &Settings,
        frames: u32,
        members: &List<Name>,
    ) -> Result<World, NoMemory>
        requires { IsWithinLimits (record { settings = settings.now; frames = frames; members = members.now }) }
        ensures begun { IfOk result (HasBegun (record { settings = settings.now; frames = frames; members = members.now })) }
        ensures headline { IfOk result WorldHasHeadline }
    {
        let overlay = Overlay::at_rest(alloc, settings, members)?;
        let mut ledger = Ledger::new(alloc, settings, frames, members)?;
        ledger.reserve(1)?;
        let engine = Engine {
            alloc,
            settings: *settings,
            frames,
            ledger,
            overlay,
        };
        Ok(World {
            engine,
            refused: None,
            stopped: false,
        })
    }

    /// A step has a node start something: a join, a departure, a publication, a withdrawal, a lookup, a cast, or that a join is
    /// given up. Its group is added, the step first.
    ///
    /// `Refused` comes exactly if the step is refused, with the first refusal whose cause holds: the step is added alone, and its
    /// refusal is still to be noted. `Spent` comes exactly if more frames would then have been sent in all than may be: the step is
    /// added alone, and then `Spent`. `NoMemory` adds nothing. `Ended` comes exactly if an earlier call answered `Spent` or
    /// `NoMemory`, and changes nothing.
    ///
    /// Condition: the index is above those of all earlier steps, at least 1 and at most 1,000,000.
    ///
    /// Rule: docs/FORMATS.md, "The course of a run".
    pub fn start(&mut self, index: u32, step: &Step) -> Result<(), Stop>
        requires goes_on { MayGoOn self.old }
        requires next { IsNextIndex self.old index }
        requires kind { is_start step.now ≡ true }
        requires names { IsStep self.old.beginning.settings false step.now }
        ensures answers { WorldAnswersAs (step_outcome self.old index step.now) self.old result self.new }
        ensures unchanged { (refusal : Refusal) → result ≡ Err (Stop.Refused refusal) → self.new.nodes ≡ self.old.nodes }
        ensures ended { result ≡ Err Stop.Ended → self.new ≡ self.old }
        ensures headline { WorldHasHeadline self.new }
    {
        if self.stopped {
            return Err(Stop::Ended);
        }
        let answer = self.engine.start(index, step);
        self.refused = refusal_in(&answer);
        self.stopped = stops(&answer);
        answer
    }

    /// A step observes: a walk, a root, a table, or the pairs that a node holds. Its group is the step, and what it sees.
    ///
    /// The answers are those of `start`, but that `Spent` never comes. No node changes.
    ///
    /// Condition: the index is above those of all earlier steps, at least 1 and at most 1,000,000.
    ///
    /// Rule: docs/FORMATS.md, "The course of a run".
    pub fn observe(&mut self, index: u32, step: &Step) -> Result<(), Stop>
        requires goes_on { MayGoOn self.old }
        requires next { IsNextIndex self.old index }
        requires kind { observes step.now ≡ true }
        requires names { IsStep self.old.beginning.settings false step.now }
        ensures answers { WorldAnswersAs (step_outcome self.old index step.now) self.old result self.new }
        ensures unspent { result ≢ Err Stop.Spent }
        ensures unchanged { (refusal : Refusal) → result ≡ Err (Stop.Refused refusal) → self.new.nodes ≡ self.old.nodes }
        ensures nodes { self.new.nodes ≡ self.old.nodes }
        ensures ended { result ≡ Err Stop.Ended → self.new ≡ self.old }
        ensures headline { WorldHasHeadline self.new }
    {
        if self.stopped {
            return Err(Stop::Ended);
        }
        let answer = self.engine.observe(index, step);
        self.refused = refusal_in(&answer);
        self.stopped = stops(&answer);
        answer
    }

    /// A step offers a damaged copy of an outstanding frame to the frame's receiver, by `Node::take`: one byte is another, or only
    /// so many first bytes are there. Its group is the step, and why the copy is no frame.
    ///
    /// The frame stays outstanding. The answers are those of `start`, but that `Spent` never comes. No node changes.
    ///
    /// Condition: the index is above those of all earlier steps, at least 1 and at most 1,000,000.
    ///
    /// Rule: docs/FORMATS.md, "The course of a run".
    pub fn garble(&mut self, index: u32, step: &Step) -> Result<(), Stop>
        requires goes_on { MayGoOn self.old }
        requires next { IsNextIndex self.old index }
        requires kind { damages step.now ≡ true }
        ensures answers { WorldAnswersAs (step_outcome self.old index step.now) self.old result self.new }
        ensures unspent { result ≢ Err Stop.Spent }
        ensures unchanged { (refusal : Refusal) → result ≡ Err (Stop.Refused refusal) → self.new.nodes ≡ self.old.nodes }
        ensures nodes { self.new.nodes ≡ self.old.nodes }
        ensures ended { result ≡ Err Stop.Ended → self.new ≡ self.old }
        ensures headline { WorldHasHeadline self.new }
    {
        if self.stopped {
            return Err(Stop::Ended);
        }
        let answer = self.engine.garble(index, step);
        self.refused = refusal_in(&answer);
        self.stopped = stops(&answer);
        answer
    }

    /// The outstanding frame at a place, from 0, in the order in which they were sent, is taken by its receiver: that is there, and the
    /// frame isn't strange to it.
    ///
    /// `Refused` comes exactly if no frame is at the place, with the number of those outstanding, and leaves the world as it was.
    /// `Spent` comes exactly if more frames would then have been sent in all than may be: `Spent` alone is added. `NoMemory` adds
    /// nothing. `Ended` comes exactly if an earlier call answered `Spent` or `NoMemory`, and changes nothing.
    ///
    /// Rule: docs/FORMATS.md, "The course of a run".
    pub fn deliver(&mut self, place: u32) -> Result<(), Stop>
        requires { MayGoOn self.old }
        ensures answers { WorldAnswersAs (deliver_outcome self.old place) self.old result self.new }
        ensures unchanged { (refusal : Refusal) → result ≡ Err (Stop.Refused refusal) → self.new.nodes ≡ self.old.nodes }
        ensures ended { result ≡ Err Stop.Ended → self.new ≡ self.old }
        ensures headline { WorldHasHeadline self.new }
        ensures holders { HoldersAreExactAtRest self.new.log }
    {
        if self.stopped {
            return Err(Stop::Ended);
        }
        let answer = self.engine.deliver(place);
        self.stopped = stops(&answer);
        answer
    }

    /// The outstanding frame of this number is taken by its receiver, as `deliver` has it taken at the frame's place.
    ///
    /// The answers are those of `deliver`, but that `Refused` never comes.
    ///
    /// Condition: the frame is outstanding.
    ///
    /// Rule: docs/FORMATS.md, "The course of a run".
    pub fn deliver_number(&mut self, number: u32) -> Result<(), Stop>
        requires goes_on { MayGoOn self.old }
        requires waits { has_number (outstanding self.old.log) number ≡ true }
        ensures answers { (place : ℕ) → position (nat_eq number) (outstanding self.old.log) ≡ Some place →
            WorldAnswersAs (deliver_outcome self.old place) self.old result self.new }
        ensures ended { result ≡ Err Stop.Ended → self.new ≡ self.old }
        ensures headline { WorldHasHeadline self.new }
        ensures holders { HoldersAreExactAtRest self.new.log }
    {
        if self.stopped {
            return Err(Stop::Ended);
        }
        let answer = self.engine.deliver_number(number);
        self.stopped = stops(&answer);
        answer
    }

    /// A step only chooses what is taken next, what becomes of packets, or whose roots are asked for: it is added alone.
    ///
    /// `NoMemory` adds nothing. `Ended` comes exactly if an earlier call answered `Spent` or `NoMemory`, and changes nothing.
    ///
    /// Condition: the index is above those of all earlier steps, at least 1 and at most 1,000,000.
    ///
    /// Rule: docs/FORMATS.md, "The course of a run".
    pub fn mark(&mut self, index: u32, step: &Step) -> Result<(), Stop>
        requires goes_on { MayGoOn self.old }
        requires next { IsNextIndex self.old index }
        requires kind { is_choice step.now ≡ true }
        ensures answers { WorldAnswersAs (mark_outcome self.old index step.now) self.old result self.new }
        ensures nodes { self.new.nodes ≡ self.old.nodes }
        ensures ended { result ≡ Err Stop.Ended → self.new ≡ self.old }
        ensures headline { WorldHasHeadline self.new }
    {
        if self.stopped {
            return Err(Stop::Ended);
        }
        if let Err(refused) = self.engine.mark(index, step) {
            self.stopped = true;
            return Err(Stop::from(refused));
        }
        Ok(())
    }

    /// Notes the refusal of the step with this index, which is the last record. The refusal is that which a call has answered and
    /// which isn't noted yet; or the step is a `deliver`, `tick`, `lose`, `repeat` or `rootset`.
    ///
    /// It takes no memory. `Ended` comes exactly if an earlier call answered `Spent` or `NoMemory`, and changes nothing.
    ///
    /// Rule: docs/FORMATS.md, "The course of a run".
    pub fn note(&mut self, index: u32, refusal: Refusal) -> Result<(), Stop>
        requires { MayNote self.old index refusal }
        ensures answers { WorldAnswersAs (note_outcome self.old index refusal) self.old result self.new }
        ensures memory { result ≢ Err Stop.NoMemory }
        ensures nodes { self.new.nodes ≡ self.old.nodes }
        ensures ended { result ≡ Err Stop.Ended → self.new ≡ self.old }
        ensures headline { WorldHasHeadline self.new }
    {
        if self.stopped {
            return Err(Stop::Ended);
        }
        self.engine.note(index, refusal);
        self.refused = None;
        Ok(())
    }

    /// All steps were run, which are as many as the log has: `Finished` is added. No call changes the world any more. Its nodes are those
    /// of the system that the log has come to.
    ///
    /// It takes no memory. `Ended` comes exactly if an earlier call answered `Spent` or `NoMemory`, and changes nothing.
    ///
    /// Rule: docs/FORMATS.md, "The ways a run ends".
    pub fn finish(&mut self, steps: u32) -> Result<(), Stop>
        requires goes_on { MayGoOn self.old }
        requires all { steps ≡ length (begun_steps self.old.log) }
        ensures answers { WorldAnswersAs (finish_outcome self.old steps) self.old result self.new }
        ensures memory { result ≢ Err Stop.NoMemory }
        ensures nodes { self.new.nodes ≡ self.old.nodes }
        ensures state { self.new.stopped ≡ false → HasNodesOfLog self.new }
        ensures ended { result ≡ Err Stop.Ended → self.new ≡ self.old }
        ensures headline { WorldHasHeadline self.new }
    {
        if self.stopped {
            return Err(Stop::Ended);
        }
        self.engine.finish(steps);
        Ok(())
    }

    /// A remark is added at the end of the whole log: a record that only a carrier tells. The log of plain records stays, and so do the nodes.
    ///
    /// `NoMemory` adds nothing. It doesn't come for roots right after the step that asks for them: their room was made with the step.
    /// `Ended` comes exactly if an earlier call answered `Spent` or `NoMemory`, and changes nothing. No other refusal comes.
    ///
    /// Rule: docs/FORMATS.md, "Groups and moments".
    #[inline(always)]
    pub fn remark(&mut self, item: Record) -> Result<(), Stop>
        requires goes_on { MayGoOn self.old }
        requires kind { is_added item ≡ true }
        ensures remarks { Remarks item self.old result self.new }
        ensures roots { tells_roots item ≡ true → awaits_roots self.old.log self.old.added ≡ true → result ≢ Err Stop.NoMemory }
        ensures headline { WorldHasHeadline self.new }
    {
        if self.stopped {
            return Err(Stop::Ended);
        }
        if let Err(refused) = self.engine.remark(item) {
            self.stopped = true;
            return Err(Stop::from(refused));
        }
        Ok(())
    }

    /// The refusal that a `start`, `observe` or `garble` has answered and that isn't noted yet. Until it is, the last group isn't
    /// whole.
    ///
    /// Rule: docs/FORMATS.md, "The course of a run".
    pub fn refused(&self) -> Option<Refusal>
        ensures { result ≡ self.now.refused }
    {
        self.refused
    }

    /// The whole log: the plain records, and each remark after as many of them as it says.
    ///
    /// Up to its last moment the log of plain records is the course of a run, and what stands after that is a step whose refusal isn't noted
    /// yet, or how the run has ended. What its steps start or observe is named by names of the settings. Lookups are numbered from 1, in
    /// their order, up to 1,000,000 at most. While the world isn't stopped, its nodes are those that the log tells.
    ///
    /// Rule: docs/FORMATS.md, "The course of a run".
    pub fn log(&self) -> &Log
        ensures records { result.now.records ≡ whole_log self.now }
        ensures within { RemarksWithin self.now.log self.now.added }
        ensures reduced { reduced result.now.records ≡ self.now.log }
        ensures unremarked { self.now.added ≡ [] → result.now.records ≡ self.now.log }
        ensures course { IsWorldLog self.now }
        ensures named { HaveNames self.now.beginning.settings self.now.log }
        ensures numbered { IsNumbered self.now.log }
        ensures tickets { ticket_count self.now.log ≤ most_index }
        ensures headline { WorldHasHeadline self.now }
        ensures nodes { self.now.stopped ≡ false → HasNodesOfLog self.now }
    {
        self.engine.ledger.log()
    }

    /// How many frames are outstanding.
    ///
    /// Rule: docs/FORMATS.md, "Groups and moments".
    pub fn outstanding(&self) -> u32
        ensures { result ≡ length (outstanding self.now.log) }
    {
        self.engine.ledger.outstanding()
    }

    /// Whether no frame is outstanding.
    ///
    /// Rule: docs/FORMATS.md, "Groups and moments".
    pub fn is_rest(&self) -> bool
        ensures { result ≡ is_still self.now.log }
    {
        self.outstanding() == 0
    }

    /// The place of the outstanding frame that was sent last, `None` exactly if no frame is outstanding.
    ///
    /// Rule: docs/FORMATS.md, "Groups and moments".
    pub fn newest(&self) -> Option<u32>
        ensures { result ≡ last_place (outstanding self.now.log) }
    {
        self.engine.ledger.newest()
    }

    /// The place of the frame of a number among those outstanding, `None` exactly if it isn't one of them.
    ///
    /// Rule: docs/FORMATS.md, "Groups and moments".
    pub fn place_of(&self, number: u32) -> Option<u32>
        ensures { result ≡ position (nat_eq number) (outstanding self.now.log) }
    {
        self.engine.ledger.place_of(number)
    }

    /// The node of a name, `None` exactly if the name is no member's and never joined. It has this name and the settings. Until a call
    /// has answered `Spent` or `NoMemory` it is the node of the system that the log has come to, has room for a further step, and its
    /// numbers are in range: it has opened at most 500,000 sessions of joins and 500,001 of casts, and its stamp is below 3,000,000.
    ///
    /// Rule: docs/FORMATS.md, "The course of a run".
    pub fn node(&self, name: Name) -> Option<&Node>
        ensures node { option_copied result ≡ node_of self.now name }
        ensures never { IsNone result ↔ (has_name (names_of self.now.log) name ≡ false) }
        ensures own { IfSome result (λ node. HasNameAndSettings self.now.beginning.settings name node.now) }
        ensures state { self.now.stopped ≡ false → option_copied result ≡ nodes_running (system_of self.now.log) name }
        ensures room { self.now.stopped ≡ false → IfSome result (λ node. has_room_left node.now ≡ true) }
        ensures range { self.now.stopped ≡ false → IfSome result (λ node. IsInRange node.now.state) }
    {
        if self.engine.ledger.was_present(&name) {
            self.engine.overlay.node(&name)
        } else {
            None
        }
    }
}

// The refusal of an answer, if it is one.
fn refusal_in(answer: &Result<(), Stop>) -> Option<Refusal>
    ensures { result ≡ refusal_in answer.now }
{
    match answer {
        Err(Stop::Refused(refusal)) => Some(*refusal),
        Ok(()) | Err(Stop::Spent | Stop::NoMemory | Stop::Ended) => None,
    }
}

// Whether a world is stopped by an answer.
fn stops(answer: &Result<(), Stop>) -> bool
    ensures { result ≡ stops answer.now }
{
    match answer {
        Err(Stop::Spent | Stop::NoMemory) => true,
        Ok(()) | Err(Stop::Refused(_) | Stop::Ended) => false,
    }
}

impl Tables for World {
    ghost use Rattle.tap_engine.specs.KeptEngine.{world_nodes_lent};

    ghost parameters = { λ w. w.beginning.settings };

    ghost nodes = { world_nodes_lent };

    fn settings(&self) -> Settings {
        self.engine.settings
    }

    fn table_of(&self, name: Name) -> Option<&Table> {
        self.node(name)?.table()
    }

    fn is_core(&self, name: Name) -> bool {
        match self.node(name) {
            Some(node) => matches!(node.status(), NodeStatus::Core | NodeStatus::Leaving),
            None => false,
        }
    }
}
