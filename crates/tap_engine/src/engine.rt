ghost use Rattle.std.specs.Prelude.{◌≡◌, ◌≤◌, ◌+◌, ◌-◌, ◌⊎◌, true, ◌&&◌, nat_le, nat_lt, [], ◌∷◌, ◌++◌, length, IfOk, IsOk, OnOk, OnErr, Err};
ghost use Rattle.tap_log.specs.Counts.{sent_count};
ghost use Rattle.tap_log.specs.Log.{last_of};
ghost use Rattle.tap_log.specs.Reduced.{is_added};
ghost use Rattle.tap_history.specs.Refusals.{first_refusal};
ghost use Rattle.tap_ledger.specs.Woven.{remark_after};
ghost use Rattle.tap_engine.specs.Kinds.{tells_roots};
ghost use Rattle.tap_engine.specs.KeptEngine.{room_kept};
ghost use Rattle.tap_engine.specs.Working.{IsActed};

use crate::stop::{NoMemory, Stop, only_memory};
use std::alloc::Global;
use tap_ledger::Ledger;
use tap_log::{Record, Refusal};
use tap_name::{Name, Settings};
use tap_node::{NodeFault, Turn};
use tap_node_common::FrameList;
use tap_overlay::{Overlay, OverlayFault};
use tap_scenario::Step;

// The room for a step and one record after it, with the room that is kept after these.
const ROOM_FOR_STEP: usize = 5;

// The room for a step that is added alone, with the room that is kept after it.
const ROOM_FOR_STEP_ALONE: usize = 4;

// The room that is kept after a group: for a refusal, for the roots that a step asks for, and for the last record.
const ROOM_KEPT: usize = 3;

/// What a world works on. Between its calls the nodes are those that the log has come to; in the midst of one they are ahead of it.
///
/// Rule: docs/FORMATS.md, "The course of a run".
#[derive(Drop)]
pub struct Engine {
    /// Of which calls take memory.
    pub alloc: Global,
    /// The settings of the run.
    pub settings: Settings,
    /// How many frames may be sent in all: 1 to 500,000.
    pub frames: u32,
    /// The log, with what it says of the run at hand.
    pub ledger: Ledger,
    /// The nodes.
    pub overlay: Overlay,
}

// A node, by its name, and what it did.
#[derive(Drop)]
pub(crate) struct Acted {
    pub(crate) name: Name,
    pub(crate) turn: Turn,
}

impl Engine {
    ghost use Rattle.tap_ledger.specs.Added.{CanAdd};

    // Why a step is refused, if it is. Room is taken for the step, or for it and `Spent`, with the room that is kept after it.
    pub(crate) fn refusal_of(&mut self, step: &Step) -> Result<Option<Refusal>, NoMemory>
        ensures refusal { IfOk result (λ refusal. refusal ≡ first_refusal self.old.ledger.records step.now) }
        ensures room { OnOk result (4 ≤ self.new.ledger.spare) }
        ensures same { self.new ≡ record self.old { ledger = self.new.ledger } }
        ensures log { self.new.ledger.records ≡ self.old.ledger.records }
        ensures added { self.new.ledger.added ≡ self.old.ledger.added }
    {
        self.ledger.reserve(ROOM_FOR_STEP_ALONE)?;
        Ok(self.ledger.refusal(self.alloc, step)?)
    }

    // Whether with the frames of a turn more are sent in all than may be.
    pub(crate) fn is_too_many(&self, sent: &FrameList) -> bool
        requires { sent_count self.now.ledger.records ≤ self.now.frames }
        ensures { result ≡ nat_lt (self.now.frames - sent_count self.now.ledger.records) (length sent.now) }
    {
        let left = self.frames - self.ledger.sent();
        (left as usize) < sent.len()
    }

    /// A step that only chooses is added alone, with room for its refusal, the roots that it asks for, and the last record. `NoMemory` adds
    /// nothing, and doesn't come if there is room for all of these.
    ///
    /// Rule: docs/FORMATS.md, "The course of a run".
    pub fn mark(&mut self, index: u32, step: &Step) -> Result<(), NoMemory>
        requires { CanAdd self.old.ledger.records (Record.Step index step.now ∷ []) }
        ensures same { self.new ≡ record self.old { ledger = self.new.ledger } }
        ensures added { self.new.ledger.added ≡ self.old.ledger.added }
        ensures ok { OnOk result (self.new.ledger.records ≡ self.old.ledger.records ++ Record.Step index step.now ∷ []) }
        ensures room { OnOk result (3 ≤ self.new.ledger.spare) }
        ensures at_hand { 4 ≤ self.old.ledger.spare → IsOk result }
        ensures err { OnErr result (self.new.ledger.records ≡ self.old.ledger.records) }
    {
        self.ledger.reserve(ROOM_FOR_STEP_ALONE)?;
        self.add_step(index, step);
        Ok(())
    }

    /// The refusal of a step is added, for which there is room. It takes no memory.
    ///
    /// Rule: docs/FORMATS.md, "The course of a run".
    pub fn note(&mut self, index: u32, refusal: Refusal)
        requires room { 1 ≤ self.old.ledger.spare }
        requires can_add { CanAdd self.old.ledger.records (Record.Refused index refusal ∷ []) }
        ensures same { self.new ≡ record self.old { ledger = self.new.ledger } }
        ensures added { self.new.ledger.added ≡ self.old.ledger.added }
        ensures log { self.new.ledger.records ≡ self.old.ledger.records ++ Record.Refused index refusal ∷ [] }
        ensures spare { self.new.ledger.spare + 1 ≡ self.old.ledger.spare }
    {
        self.ledger
            .push_reserved(Record::Refused { index, refusal });
    }

    /// That all steps were run is added, for which there is room. It takes no memory.
    ///
    /// Rule: docs/FORMATS.md, "The ways a run ends".
    pub fn finish(&mut self, steps: u32)
        requires room { 1 ≤ self.old.ledger.spare }
        requires can_add { CanAdd self.old.ledger.records (Record.Finished steps ∷ []) }
        ensures same { self.new ≡ record self.old { ledger = self.new.ledger } }
        ensures added { self.new.ledger.added ≡ self.old.ledger.added }
        ensures log { self.new.ledger.records ≡ self.old.ledger.records ++ Record.Finished steps ∷ [] }
    {
        self.ledger.push_reserved(Record::Finished { steps });
    }

    /// A remark is added: a record that only a carrier tells. The room that is kept stays, and `NoMemory` adds nothing.
    ///
    /// Roots take the room that was made for them with the step that asks for them, and no memory.
    ///
    /// Rule: docs/FORMATS.md, "Groups and moments".
    #[inline(always)]
    pub fn remark(&mut self, item: Record) -> Result<(), NoMemory>
        requires { is_added item ≡ true }
        ensures same { self.new ≡ record self.old { ledger = self.new.ledger } }
        ensures log { self.new.ledger.records ≡ self.old.ledger.records }
        ensures ok { OnOk result (self.new.ledger.added ≡ self.old.ledger.added ++ remark_after self.old.ledger.records item ∷ []) }
        ensures roots { tells_roots item ≡ true → 3 ≤ self.old.ledger.spare → IsOk result }
        ensures room { room_kept (last_of self.old.ledger.records) ≤ self.old.ledger.spare
            → room_kept (last_of self.old.ledger.records) ≤ self.new.ledger.spare }
        ensures err { OnErr result (self.new ≡ self.old) }
    {
        if self.has_room_for(&item) {
            self.ledger.remark_reserved(item);
            return Ok(());
        }
        self.ledger.remark(item)?;
        Ok(())
    }

    // Whether the remark tells roots, and there is room for them beside what is always kept.
    #[inline(always)]
    fn has_room_for(&self, item: &Record) -> bool
        ensures { result ≡ (tells_roots item.now && nat_le 3 self.now.ledger.spare) }
    {
        tells_roots(item) && ROOM_KEPT <= self.ledger.spare()
    }

    // Adds a step alone, for which there is room. It takes no memory.
    pub(crate) fn add_step(&mut self, index: u32, step: &Step)
        requires room { 1 ≤ self.old.ledger.spare }
        requires can_add { CanAdd self.old.ledger.records (Record.Step index step.now ∷ []) }
        ensures same { self.new ≡ record self.old { ledger = self.new.ledger } }
        ensures added { self.new.ledger.added ≡ self.old.ledger.added }
        ensures log { self.new.ledger.records ≡ self.old.ledger.records ++ Record.Step index step.now ∷ [] }
        ensures spare { self.new.ledger.spare + 1 ≡ self.old.ledger.spare }
    {
        self.ledger
            .push_reserved(Record::Step { index, step: *step });
    }

    // Adds that too many frames would be sent, for which there is room.
    pub(crate) fn spend(&mut self) -> Result<(), Stop>
        requires room { 1 ≤ self.old.ledger.spare }
        requires can_add { CanAdd self.old.ledger.records (Record.Spent self.old.frames ∷ []) }
        ensures answer { result ≡ Err Stop.Spent }
        ensures same { self.new ≡ record self.old { ledger = self.new.ledger } }
        ensures added { self.new.ledger.added ≡ self.old.ledger.added }
        ensures log { self.new.ledger.records ≡ self.old.ledger.records ++ Record.Spent self.old.frames ∷ [] }
    {
        self.ledger
            .push_reserved(Record::Spent { limit: self.frames });
        Err(Stop::Spent)
    }

    // Adds a step and the record that follows it, with the room that is kept after these. A refused call changes nothing.
    pub(crate) fn add_step_with(
        &mut self,
        index: u32,
        step: &Step,
        item: Record,
    ) -> Result<(), NoMemory>
        requires { CanAdd self.old.ledger.records (Record.Step index step.now ∷ item ∷ []) }
        ensures ok { OnOk result (self.new.ledger.records ≡ self.old.ledger.records ++ Record.Step index step.now ∷ item ∷ []) }
        ensures room { OnOk result (3 ≤ self.new.ledger.spare) }
        ensures same { self.new ≡ record self.old { ledger = self.new.ledger } }
        ensures added { self.new.ledger.added ≡ self.old.ledger.added }
        ensures err { OnErr result (self.new ≡ self.old) }
    {
        self.ledger.reserve(ROOM_FOR_STEP)?;
        self.add_step(index, step);
        self.ledger.push_reserved(item);
        Ok(())
    }
}

// What the node of a name has done, by the answer of the nodes: it acts, or memory was refused.
pub(crate) fn acted_by(name: Name, answer: Result<Turn, OverlayFault>) -> Result<Acted, NoMemory>
    requires { answer ≡ Err (OverlayFault.Node NodeFault.NoMemory) ⊎ IsOk answer }
    ensures { IfOk result (IsActed name answer) }
{
    match answer {
        Ok(turn) => Ok(Acted { name, turn }),
        Err(fault) => Err(only_memory(fault)),
    }
}

// Whether the record tells roots.
#[tactic(auto, unfolding(crate::specs::Kinds::tells_roots))]
fn tells_roots(item: &Record) -> bool
    ensures { result ≡ tells_roots item.now }
{
    matches!(item, Record::RootsOf { .. })
}
