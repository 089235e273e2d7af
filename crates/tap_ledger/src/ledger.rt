ghost use Rattle.std.specs.Prelude.{◌≡◌, ℕ, ◌==◌, ◌≤◌, ◌+◌, ◌-◌, max, [], ◌∷◌, ◌++◌, true, false, if◌then◌else◌, length, nat_eq, option_copied, option_map, position, slice_get, IfOk, IfSome, IsOk, OnOk, OnErr, None, Some};
ghost use Rattle.tap_name.specs.Names.{has_name};
ghost use Rattle.tap_log.specs.declared.record.Record.TheVariants.{Begin, Sent};
ghost use Rattle.tap_log.specs.Counts.{cast_count, resent_count, sent_count, ticket_count};
ghost use Rattle.tap_log.specs.Kinds.{is_carried};
ghost use Rattle.tap_log.specs.Log.{last_of};
ghost use Rattle.tap_log.specs.Reduced.{is_added, reduced};
ghost use Rattle.tap_history.specs.Core.{abandoned_of, core_of, present_of};
ghost use Rattle.tap_history.specs.Departing.{departing_of};
ghost use Rattle.tap_history.specs.Flights.{bytes_at, flight_count};
ghost use Rattle.tap_history.specs.GroupLaws.{IsNumbered};
ghost use Rattle.tap_history.specs.Moments.{awaiting, is_rest, outstanding};
ghost use Rattle.tap_history.specs.Names.{name_count, names_of};
ghost use Rattle.tap_history.specs.Published.{has_pair, published_of};
ghost use Rattle.tap_history.specs.Refusals.{begin_settings};
ghost use Rattle.tap_ledger.specs.Added.{CanAdd};
ghost use Rattle.tap_ledger.specs.KeptLedger.{leaver_next};
ghost use Rattle.tap_ledger.specs.NameLists.{accepted_after};
ghost use Rattle.tap_ledger.specs.Quiet.{is_moving_step, is_quiet, is_request};
ghost use Rattle.tap_ledger.specs.Woven.{RemarksWithin, remark_after, woven};

use crate::counts::{counted_cast, counted_ticket};
use crate::flights::{OutstandingFrame, follow, frame_of, payload};
use crate::memory::{of_frames, past_numbers};
use crate::pairs::{Pairs, stays_published};
use crate::quiet::{moves_node, tells_more, tells_of_request};
use crate::roll::Roll;
use crate::steps::{accepted_step, departs};
use std::alloc::Global;
use std::marker::Model;
use tap_log::{Log, NoMemory, Pair, Record, begins_group};
use tap_name::{List, Name, Settings};
use tap_outstanding::Outstanding;
use tap_scenario::Step;
use tap_wire::Bytes;

// For how many records room is made at once, at least.
const MADE_AT_ONCE: usize = 256;

/// The log of a run, together with what it says of the run, kept at hand: who takes part, what is published, which frames are
/// outstanding, and how much there was of each.
///
/// A carrier adds remarks: records that it alone tells. Contracts see the plain records, which are all others and make the log of a run
/// that isn't carried; the remarks, each with how many plain records stand before it; and for how many more records there is room.
///
/// A look-up of a frame takes at most logarithmic time. A pair and a name are found by their hash, and a count stands ready. All of it
/// holds after each record that is added.
///
/// Rule: docs/FORMATS.md, "Groups and moments".
#[derive(Drop)]
pub struct Ledger {
    log: Log,
    settings: Settings,
    frames: Outstanding,
    roll: Roll,
    pairs: Pairs,
    tickets: usize,
    casts: usize,
    leaver: Option<Name>,
    // Where the last plain record stands.
    last: usize,
    room: usize,
    // For so many more records there is room in each part.
    made: usize,
}

impl Model for Ledger {
    ghost use Rattle.std.specs.Prelude.{◌≤◌};
    ghost use Rattle.tap_ledger.specs.KeptLedger.{Kept, LedgerHasRoom};
    ghost use Rattle.tap_ledger.specs.Ledger.{LedgerValue};
    ghost use Rattle.tap_ledger.specs.Woven.{remarks_of};
    ghost use Rattle.tap_log.specs.Reduced.{reduced};

    ghost Value = { LedgerValue };

    ghost view = { λ l. record { records = reduced l.log.records; added = remarks_of l.log.records; spare = l.room } };

    ghost invariant = { λ l. record {
      kept : Kept (reduced l.log.records) l.log.records l.settings l.frames l.roll.lists l.pairs.keys l.tickets l.casts l.leaver l.last;
      within : l.room ≤ l.made;
      most : l.made ≤ 4294967295;
      room : LedgerHasRoom l.made l.log.spare l.frames.room l.roll.room l.pairs.room;
    } };
}

impl Ledger {
    /// The ledger of a log that has its beginning alone: these members, as core nodes, and so many frames that may be sent. Later
    /// calls take memory of `alloc`.
    ///
    /// Rule: docs/FORMATS.md, "Groups and moments".
    pub fn new(
        alloc: Global,
        settings: &Settings,
        frames: u32,
        members: &List<Name>,
    ) -> Result<Ledger, NoMemory>
        ensures { IfOk result (λ l. l ≡ record { records = Begin settings.now frames members.now ∷ []; added = []; spare = 0 }) }
    {
        let roll = Roll::of(alloc, members.as_slice())?;
        let mut log = Log::new(alloc);
        log.push(Record::Begin {
            settings: *settings,
            frames,
            members: List::from_vec(Vec::from_slice(alloc, members.as_slice())?),
        })?;
        Ok(Ledger {
            log,
            settings: *settings,
            frames: Outstanding::new(alloc),
            roll,
            pairs: Pairs::new(alloc),
            tickets: 0,
            casts: 0,
            leaver: None,
            last: 0,
            room: 0,
            made: 0,
        })
    }

    /// Makes room for so many more records, of any kind, so that adding them takes no memory. A refused call changes nothing. It isn't
    /// refused if there is room for so many.
    ///
    /// Rule: docs/DECISIONS.md, "The logs of a run".
    #[inline(always)]
    pub fn reserve(&mut self, more: usize) -> Result<(), NoMemory>
        ensures records { self.new.records ≡ self.old.records }
        ensures added { self.new.added ≡ self.old.added }
        ensures ok { OnOk result (self.new.spare ≡ max self.old.spare more) }
        ensures at_hand { more ≤ self.old.spare → IsOk result }
        ensures err { OnErr result (self.new ≡ self.old) }
    {
        if more <= self.made {
            self.room = self.room.max(more);
            return Ok(());
        }
        self.make_room(more)
    }

    // Makes room for so many more records, which are more than there is room for in each part.
    #[inline(never)]
    fn make_room(&mut self, more: usize) -> Result<(), NoMemory>
        requires { self.old.spare ≤ more }
        ensures records { self.new.records ≡ self.old.records }
        ensures added { self.new.added ≡ self.old.added }
        ensures ok { OnOk result (self.new.spare ≡ more) }
        ensures err { OnErr result (self.new ≡ self.old) }
    {
        let all = more.max(MADE_AT_ONCE);
        self.log.reserve(all)?;
        self.roll.reserve(all)?;
        self.pairs.reserve(all)?;
        reserve_frames(&mut self.frames, all)?;
        self.made = all;
        self.room = more;
        Ok(())
    }

    /// Adds a record for which there is room. It takes no memory.
    ///
    /// Rule: docs/DECISIONS.md, "The logs of a run".
    #[inline(always)]
    pub fn push_reserved(&mut self, item: Record)
        requires room { 1 ≤ self.old.spare }
        requires can_add { CanAdd self.old.records (item ∷ []) }
        ensures records { self.new.records ≡ self.old.records ++ item ∷ [] }
        ensures added { self.new.added ≡ self.old.added }
        ensures spare { self.new.spare + 1 ≡ self.old.spare }
    {
        if self.is_quiet(&item) {
            self.push_quiet(item);
        } else if self.is_request(&item) {
            self.push_request(item);
        } else {
            self.push_any(item);
        }
    }

    // Whether the record tells of a request, and accepts no step by which a node is to join or to depart.
    #[inline(always)]
    fn is_request(&self, item: &Record) -> bool
        ensures { result ≡ is_request (last_of self.now.records) item.now }
    {
        tells_of_request(item) && !self.has_moving_step()
    }

    // Adds a record that tells of a request.
    #[inline(never)]
    fn push_request(&mut self, item: Record)
        requires room { 1 ≤ self.old.spare }
        requires can_add { CanAdd self.old.records (item ∷ []) }
        requires request { is_request (last_of self.old.records) item ≡ true }
        ensures records { self.new.records ≡ self.old.records ++ item ∷ [] }
        ensures added { self.new.added ≡ self.old.added }
        ensures spare { self.new.spare + 1 ≡ self.old.spare }
    {
        self.pairs.change(&item);
        let place = self.log.len();
        follow(&mut self.frames, &item, place);
        self.tickets += counted_ticket(&item);
        self.casts += counted_cast(&item);
        self.log.push_reserved(item);
        self.last = place;
        self.room -= 1;
        self.made -= 1;
    }

    /// Adds that a frame is sent, with the next number, for which there is room. It takes no memory.
    ///
    /// Rule: docs/FORMATS.md, "Groups and moments".
    #[inline(always)]
    pub fn push_sent(&mut self, bytes: Bytes)
        requires room { 1 ≤ self.old.spare }
        requires can_add { CanAdd self.old.records (Sent (sent_count self.old.records) bytes ∷ []) }
        ensures records { self.new.records ≡ self.old.records ++ Sent (sent_count self.old.records) bytes ∷ [] }
        ensures added { self.new.added ≡ self.old.added }
        ensures spare { self.new.spare + 1 ≡ self.old.spare }
    {
        if self.has_moving_step() {
            return self.push_first_sent(bytes);
        }
        // No effect at run time. The proof reads from this call that the outstanding numbers ascend.
        let _ = self.frames.len();
        let place = self.log.len();
        let number = self.frames.send_reserved(place);
        self.log.push_reserved(Record::Sent { number, bytes });
        self.last = place;
        self.room -= 1;
        self.made -= 1;
    }

    // Adds that a frame is sent after a step by which a node is to join or to depart.
    #[inline(never)]
    fn push_first_sent(&mut self, bytes: Bytes)
        requires room { 1 ≤ self.old.spare }
        requires can_add { CanAdd self.old.records (Sent (sent_count self.old.records) bytes ∷ []) }
        ensures records { self.new.records ≡ self.old.records ++ Sent (sent_count self.old.records) bytes ∷ [] }
        ensures added { self.new.added ≡ self.old.added }
        ensures spare { self.new.spare + 1 ≡ self.old.spare }
    {
        let number = self.sent();
        self.push_any(Record::Sent { number, bytes });
    }

    // Whether the last plain record begins a step by which a node is to join or to depart.
    #[inline(always)]
    fn has_moving_step(&self) -> bool
        ensures { result ≡ is_moving_step (last_of self.now.records) }
    {
        moves_node(self.last_record())
    }

    // The last plain record. There is one, since each log has its beginning.
    #[inline(always)]
    fn last_record(&self) -> &Record
        ensures { Some result.now ≡ last_of self.now.records }
    {
        &self.log.as_slice()[self.last]
    }

    // Whether the record is quiet after the last one.
    #[inline(always)]
    fn is_quiet(&self, item: &Record) -> bool
        ensures { result ≡ is_quiet (last_of self.now.records) item.now }
    {
        !tells_more(item) && !self.has_moving_step()
    }

    // Adds a record that is quiet after the last one.
    #[inline(always)]
    fn push_quiet(&mut self, item: Record)
        requires room { 1 ≤ self.old.spare }
        requires can_add { CanAdd self.old.records (item ∷ []) }
        requires quiet { is_quiet (last_of self.old.records) item ≡ true }
        ensures records { self.new.records ≡ self.old.records ++ item ∷ [] }
        ensures added { self.new.added ≡ self.old.added }
        ensures spare { self.new.spare + 1 ≡ self.old.spare }
    {
        let rest = self.frames.is_empty();
        settle_leaver(&mut self.leaver, begins_group(false, &item), rest);
        let place = self.log.len();
        follow(&mut self.frames, &item, place);
        self.log.push_reserved(item);
        self.last = place;
        self.room -= 1;
        self.made -= 1;
    }

    // Adds a record of any kind.
    fn push_any(&mut self, item: Record)
        requires room { 1 ≤ self.old.spare }
        requires can_add { CanAdd self.old.records (item ∷ []) }
        ensures records { self.new.records ≡ self.old.records ++ item ∷ [] }
        ensures added { self.new.added ≡ self.old.added }
        ensures spare { self.new.spare + 1 ≡ self.old.spare }
    {
        let accepted = self.accepted_by(&item);
        let begins = begins_group(false, &item);
        self.leaver = leaver_next(begins, self.departing(), departs(&accepted), self.leaver);
        self.pairs.change(&item);
        self.roll.change(&accepted, &item);
        let place = self.log.len();
        follow(&mut self.frames, &item, place);
        self.tickets += counted_ticket(&item);
        self.casts += counted_cast(&item);
        self.log.push_reserved(item);
        self.last = place;
        self.room -= 1;
        self.made -= 1;
    }

    // The step of the last plain record, if this next one accepts it.
    fn accepted_by(&self, item: &Record) -> Option<Step>
        ensures { result ≡ accepted_after (last_of self.now.records) item.now }
    {
        accepted_step(self.last_record(), item)
    }

    /// For how many more records there is room.
    ///
    /// Rule: docs/DECISIONS.md, "The logs of a run".
    pub fn spare(&self) -> usize
        ensures { result ≡ self.now.spare }
    {
        self.room
    }

    /// Adds a remark: a record that only a carrier tells. The room for further records stays. A refused call changes nothing.
    ///
    /// Rule: docs/FORMATS.md, "Groups and moments".
    #[inline(always)]
    pub fn remark(&mut self, item: Record) -> Result<(), NoMemory>
        requires { is_added item ≡ true }
        ensures records { self.new.records ≡ self.old.records }
        ensures ok { OnOk result (self.new.added ≡ self.old.added ++ remark_after self.old.records item ∷ []) }
        ensures spare { self.new.spare ≡ self.old.spare }
        ensures err { OnErr result (self.new ≡ self.old) }
    {
        if self.made <= self.room {
            return self.remark_past_room(item);
        }
        self.log.push_reserved(item);
        self.made -= 1;
        Ok(())
    }

    // Adds a remark, for which room is made first.
    #[inline(never)]
    fn remark_past_room(&mut self, item: Record) -> Result<(), NoMemory>
        requires { is_added item ≡ true }
        ensures records { self.new.records ≡ self.old.records }
        ensures ok { OnOk result (self.new.added ≡ self.old.added ++ remark_after self.old.records item ∷ []) }
        ensures spare { self.new.spare ≡ self.old.spare }
        ensures err { OnErr result (self.new ≡ self.old) }
    {
        self.make_room(self.room + 1)?;
        self.remark_reserved(item);
        Ok(())
    }

    /// Adds a remark for which there is room. It takes no memory.
    ///
    /// Rule: docs/DECISIONS.md, "The logs of a run".
    pub fn remark_reserved(&mut self, item: Record)
        requires room { 1 ≤ self.old.spare }
        requires added { is_added item ≡ true }
        ensures records { self.new.records ≡ self.old.records }
        ensures added { self.new.added ≡ self.old.added ++ remark_after self.old.records item ∷ [] }
        ensures spare { self.new.spare + 1 ≡ self.old.spare }
    {
        self.log.push_reserved(item);
        self.room -= 1;
        self.made -= 1;
    }

    /// The whole log: the plain records, and each remark after as many of them as it says. No remark says more of them than there are, so
    /// what is added comes last.
    ///
    /// Rule: docs/FORMATS.md, "Groups and moments".
    pub fn log(&self) -> &Log
        ensures records { result.now.records ≡ woven self.now.records self.now.added }
        ensures within { RemarksWithin self.now.records self.now.added }
        ensures reduced { reduced result.now.records ≡ self.now.records }
        ensures begun { 1 ≤ length self.now.records }
        ensures uncarried { is_carried self.now.records ≡ false }
        ensures numbered { IsNumbered self.now.records }
    {
        &self.log
    }

    /// The settings of the beginning.
    ///
    /// Rule: docs/FORMATS.md, "Groups and moments".
    pub fn settings(&self) -> Settings
        ensures { begin_settings self.now.records ≡ Some result }
    {
        self.settings
    }

    /// The core nodes, the members first, then in the order in which they became core. A node that departs is core until it is
    /// gone.
    ///
    /// Rule: docs/FORMATS.md, "Groups and moments".
    pub fn core(&self) -> &[Name]
        ensures { result.now ≡ core_of self.now.records }
    {
        self.roll.core().as_slice()
    }

    /// Whether the node is core. A node that departs is core until it is gone.
    ///
    /// Rule: docs/FORMATS.md, "Groups and moments".
    pub fn is_core(&self, name: &Name) -> bool
        ensures { result ≡ has_name (core_of self.now.records) name.now }
    {
        self.roll.core().has(name)
    }

    /// How many nodes are core.
    ///
    /// Rule: docs/FORMATS.md, "Groups and moments".
    pub fn core_count(&self) -> usize
        ensures { result ≡ length (core_of self.now.records) }
    {
        self.roll.core().len()
    }

    /// Whether the node is present: it is a member or its join was accepted, and it isn't gone.
    ///
    /// Rule: docs/FORMATS.md, "Groups and moments".
    pub fn is_present(&self, name: &Name) -> bool
        ensures { result ≡ has_name (present_of self.now.records) name.now }
    {
        self.roll.present().has(name)
    }

    /// Whether a node of this name was ever present.
    ///
    /// Rule: docs/FORMATS.md, "Groups and moments".
    pub fn was_present(&self, name: &Name) -> bool
        ensures { result ≡ has_name (names_of self.now.records) name.now }
    {
        self.roll.names().has(name)
    }

    /// How many names were ever present.
    ///
    /// Rule: docs/FORMATS.md, "Groups and moments".
    pub fn name_count(&self) -> usize
        ensures { result ≡ name_count self.now.records }
    {
        self.roll.names().len()
    }

    /// Whether the node is to give up joining, or has.
    ///
    /// Rule: docs/FORMATS.md, "Groups and moments".
    pub fn is_abandoned(&self, name: &Name) -> bool
        ensures { result ≡ has_name (abandoned_of self.now.records) name.now }
    {
        self.roll.abandoned().has(name)
    }

    /// The node that is departing: the last one whose departure was accepted since the last moment at which no frame was
    /// outstanding.
    ///
    /// Rule: docs/FORMATS.md, "Groups and moments".
    pub fn departing(&self) -> Option<Name>
        ensures { result ≡ departing_of self.now.records }
    {
        if self.frames.is_empty() {
            None
        } else {
            self.leaver
        }
    }

    /// Whether the pair is published.
    ///
    /// Rule: docs/FORMATS.md, "Groups and moments".
    pub fn is_published(&self, pair: &Pair) -> bool
        ensures { result ≡ has_pair (published_of self.now.records) pair.now }
    {
        stays_published(&self.pairs, self.roll.departed(), pair)
    }

    /// How many lookups were asked.
    ///
    /// Rule: docs/FORMATS.md, "Groups and moments".
    pub fn tickets(&self) -> usize
        ensures { result ≡ ticket_count self.now.records }
    {
        self.tickets
    }

    /// How many casts began.
    ///
    /// Rule: docs/FORMATS.md, "Groups and moments".
    pub fn casts(&self) -> usize
        ensures { result ≡ cast_count self.now.records }
    {
        self.casts
    }

    /// How many frames were sent, which is the number of the next one.
    ///
    /// Rule: docs/FORMATS.md, "Groups and moments".
    #[inline(always)]
    pub fn sent(&self) -> u32
        ensures { result ≡ sent_count self.now.records }
    {
        self.frames.sent()
    }

    /// How many frames are outstanding.
    ///
    /// Rule: docs/FORMATS.md, "Groups and moments".
    pub fn outstanding(&self) -> u32
        ensures { result ≡ length (outstanding self.now.records) }
    {
        self.frames.len()
    }

    /// Whether the log is at rest: no frame is outstanding.
    ///
    /// Rule: docs/FORMATS.md, "Groups and moments".
    pub fn is_rest(&self) -> bool
        ensures { result ≡ is_rest self.now.records }
    {
        self.frames.is_empty()
    }

    /// The bytes of the frame at this place of the outstanding ones, from 0, as the log has them; `None` exactly if there are not so many.
    ///
    /// Rule: docs/FORMATS.md, "Groups and moments".
    pub fn bytes_at(&self, place: u32) -> Option<&[u8]>
        ensures { option_copied result ≡ bytes_at self.now.records place }
    {
        let flight = self.frames.frame_at(place)?;
        payload(self.log.as_slice(), flight.record_place)
    }

    /// The frame at this place of the outstanding ones, from 0; `None` exactly if there are not so many.
    ///
    /// Rule: docs/FORMATS.md, "Groups and moments".
    pub fn flight_at(&self, place: u32) -> Option<OutstandingFrame<'_>>
        ensures number { option_map (λ f. f.number) result ≡ slice_get (outstanding self.now.records) place }
        ensures bytes { option_map (λ f. f.bytes.now) result ≡ bytes_at self.now.records place }
        ensures at { IfSome result (λ f. slice_get (woven self.now.records self.now.added) f.record_place ≡ Some (Sent f.number f.bytes.now)) }
    {
        let flight = self.frames.frame_at(place)?;
        frame_of(self.log.as_slice(), flight)
    }

    /// The outstanding frame of this number, as `flight_at` gives it at its place; `None` exactly if that frame isn't outstanding.
    ///
    /// Rule: docs/FORMATS.md, "Groups and moments".
    pub fn flight_of(&self, number: u32) -> Option<OutstandingFrame<'_>>
        ensures number { (place : ℕ) → position (nat_eq number) (outstanding self.now.records) ≡ Some place →
            option_map (λ f. f.number) result ≡ slice_get (outstanding self.now.records) place }
        ensures bytes { (place : ℕ) → position (nat_eq number) (outstanding self.now.records) ≡ Some place →
            option_map (λ f. f.bytes.now) result ≡ bytes_at self.now.records place }
        ensures none { position (nat_eq number) (outstanding self.now.records) ≡ None → result ≡ None }
    {
        let flight = self.frames.frame_of(number)?;
        frame_of(self.log.as_slice(), flight)
    }

    /// The place of this frame among the outstanding ones; `None` exactly if it isn't outstanding.
    ///
    /// Rule: docs/FORMATS.md, "Groups and moments".
    pub fn place_of(&self, number: u32) -> Option<u32>
        ensures { result ≡ position (nat_eq number) (outstanding self.now.records) }
    {
        self.frames.place_of(number)
    }

    /// The place of the outstanding frame that was sent last; `None` exactly if none is outstanding.
    ///
    /// Rule: docs/FORMATS.md, "Groups and moments".
    pub fn newest(&self) -> Option<u32>
        ensures { result ≡ (if length (outstanding self.now.records) == 0
            then None else Some (length (outstanding self.now.records) - 1)) }
    {
        self.frames.newest()
    }

    // How many frames are outstanding. Packets are of carried logs alone.
    pub(crate) fn flight_count(&self) -> u32
        ensures { result ≡ flight_count self.now.records }
    {
        self.frames.len()
    }

    // How many packets ticks and repeats made: none, since plain records are of no packet.
    pub(crate) fn resent(&self) -> u32
        ensures { result ≡ resent_count self.now.records }
    {
        // No plain record is of a packet.
        let _ = &self.log;
        0
    }

    // How many frames await their acknowledgement: all that were sent, since plain records are of no packet.
    pub(crate) fn awaiting(&self) -> u32
        ensures { result ≡ length (awaiting self.now.records) }
    {
        self.frames.sent()
    }
}

// Makes room for so many more frames.
fn reserve_frames(frames: &mut Outstanding, more: usize) -> Result<(), NoMemory>
    ensures sent { frames.new.sent ≡ frames.old.sent }
    ensures frames { frames.new.frames ≡ frames.old.frames }
    ensures ok { OnOk result (frames.new.room ≡ max frames.old.room more) }
    ensures most { IsOk result → more ≤ 4294967295 }
    ensures err { OnErr result (frames.new.room ≡ frames.old.room) }
{
    let more = u32::try_from(more).map_err(past_numbers)?;
    frames.reserve(more).map_err(of_frames)?;
    Ok(())
}

// Who departs after one more record, unless no frame is outstanding then: before a group begins, who departs then.
fn leaver_next(
    begins: bool,
    departing: Option<Name>,
    departs: Option<Name>,
    leaver: Option<Name>,
) -> Option<Name>
    ensures { result ≡ leaver_next begins departing departs leaver }
{
    if begins {
        return departing;
    }
    match departs {
        Some(name) => Some(name),
        None => leaver,
    }
}

// Forgets who departs once a group begins at rest; else nothing changes.
fn settle_leaver(leaver: &mut Option<Name>, begins: bool, rest: bool)
    ensures { leaver.new ≡ leaver_next begins (if rest then None else leaver.old) None leaver.old }
{
    if begins {
        if rest {
            *leaver = None;
        }
    }
}
