ghost use Rattle.std.specs.Prelude.{◌≡◌, ℕ, ◌<◌, ◌≤◌, ◌∷◌, [], true, false, nat_eq, position, slice_get, None, Some};
ghost use Rattle.tap_log.specs.Counts.{sent_count};
ghost use Rattle.tap_history.specs.Moments.{has_number, outstanding};
ghost use Rattle.tap_engine.specs.SeenTurns.{turn_records};

use crate::engine::Engine;
use crate::pushes::push_turn;
use crate::stop::{NoMemory, Stop};
use tap_log::{Record, Refusal};
use tap_name::Name;
use tap_node::{News, Turn};
use tap_node_common::FrameList;

// The room for a group beside that for its frames, with the room that is kept after it: the record of the frame that is taken, and one of
// news before and one after the frames.
const ROOM_BESIDE_FRAMES: usize = 6;

// The frames that are taken.
impl Engine {
    ghost use Rattle.tap_engine.specs.KeptEngine.{AreReady, LeadsTo, world_value};
    ghost use Rattle.tap_engine.specs.Outcome.{adds_within, takes_number};
    ghost use Rattle.tap_engine.specs.Working.{CanAddTurn, LogsAs};

    /// The outstanding frame at a place, from 0, in the order in which they were sent, is taken by its receiver: its group is added.
    ///
    /// No refusal is left to be noted, and the log hasn't its end.
    ///
    /// `Refused` comes exactly if no frame is at the place, with the number of those outstanding, and changes nothing. `Spent` comes
    /// exactly if a frame is there and more frames would then have been sent in all than may be: `Spent` alone is added. `NoMemory`
    /// adds nothing. After `Spent` and `NoMemory` the nodes may be ahead of the log, and the engine takes no further call. `Ended`
    /// never comes.
    ///
    /// Rule: docs/FORMATS.md, "The course of a run".
    pub fn deliver(&mut self, place: u32) -> Result<(), Stop>
        requires { AreReady self.old }
        ensures leads { LeadsTo (takes_number (world_value self.old None false) (slice_get (outstanding self.old.ledger.records) place))
            self.old result self.new }
        ensures added { self.new.ledger.added ≡ self.old.ledger.added }
    {
        let Some(flight) = self.ledger.flight_at(place) else {
            return Err(Stop::Refused(Refusal::NoSuchFlight(self.ledger.outstanding())));
        };
        let number = flight.number;
        let mut turn = Turn::empty(self.alloc);
        match self.overlay.deliver(&mut turn, flight.bytes) {
            Ok(name) => self.add_taken(number, &name, turn.sent, &turn.news),
            Err(refused) => Err(Stop::from(NoMemory::from(refused))),
        }
    }

    /// The outstanding frame of this number is taken by its receiver: its group is added, as `deliver` adds it at the frame's place.
    ///
    /// `Spent` and `NoMemory` come as there, and `Refused` never comes.
    ///
    /// Condition: the frame is outstanding, no refusal is left to be noted, and the log hasn't its end.
    ///
    /// Rule: docs/FORMATS.md, "The course of a run".
    pub fn deliver_number(&mut self, number: u32) -> Result<(), Stop>
        requires ready { AreReady self.old }
        requires waits { has_number (outstanding self.old.ledger.records) number ≡ true }
        ensures leads { (place : ℕ) → position (nat_eq number) (outstanding self.old.ledger.records) ≡ Some place →
            LeadsTo (takes_number (world_value self.old None false) (slice_get (outstanding self.old.ledger.records) place))
            self.old result self.new }
        ensures added { self.new.ledger.added ≡ self.old.ledger.added }
    {
        let Some(flight) = self.ledger.flight_of(number) else {
            unreachable!()
        };
        let mut turn = Turn::empty(self.alloc);
        match self.overlay.deliver(&mut turn, flight.bytes) {
            Ok(name) => self.add_taken(number, &name, turn.sent, &turn.news),
            Err(refused) => Err(Stop::from(NoMemory::from(refused))),
        }
    }

    // Adds the group of a frame that its receiver has taken: what it sends, and its news.
    #[inline(always)]
    fn add_taken(
        &mut self,
        number: u32,
        name: &Name,
        sent: FrameList,
        news: &News,
    ) -> Result<(), Stop>
        requires room { 1 ≤ self.old.ledger.spare }
        requires sent { sent_count self.old.ledger.records ≤ self.old.frames }
        requires can_add { CanAddTurn self.old (Record.Taken number ∷ [])
            (record { name = name.now; turn = record { sent = sent; news = news.now } }) }
        ensures logs { let w = world_value self.old None false in
            let group = Record.Taken number ∷ turn_records (sent_count self.old.ledger.records) name.now
            (record { sent = sent; news = news.now }) in
            LogsAs (adds_within w [] group) self.old result self.new }
        ensures added { self.new.ledger.added ≡ self.old.ledger.added }
    {
        if self.is_too_many(&sent) {
            return self.spend();
        }
        self.ledger.reserve(sent.len() + ROOM_BESIDE_FRAMES)?;
        self.ledger.push_reserved(Record::Taken { number });
        self.overlay
            .give_back(push_turn(&mut self.ledger, name, sent, news));
        Ok(())
    }
}
