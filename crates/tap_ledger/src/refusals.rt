ghost use Rattle.std.specs.Prelude.{◌≡◌, ◌+◌, [], ◌∷◌, nat_lt, slice_set, take, option_copied, option_map, is_ok, IfOk, List};
ghost use Rattle.tap_wire.specs.Reading.{frame_of};
ghost use Rattle.tap_log.specs.declared.record.Record.{Record};
ghost use Rattle.tap_history.specs.Refusals.{begin_settings, damaged, first_refusal, first_some, is_only_core, is_readable, packets_of_step, refused_if, refuses_already_abandoned, refuses_already_published, refuses_departing, refuses_last_node, refuses_name_taken, refuses_no_such_byte, refuses_no_such_flight, refuses_no_such_node, refuses_not_at_rest, refuses_not_core, refuses_not_in_prefix, refuses_not_joining, refuses_not_published, refuses_readable, refuses_too_many_nodes, refuses_too_many_packets, unless_within};

use crate::ledger::Ledger;
use crate::memory::is_unread;
use crate::steps::{
    abandon_name, asked_node, flight_place, join_name, publish_pair, suits_departure,
    suits_joining, withdraw_pair,
};
use std::alloc::Global;
use tap_history::depart_name;
use tap_log::{NoMemory, Refusal};
use tap_name::{Name, Settings};
use tap_scenario::Step;
use tap_wire::decode;

// The refusal, if its cause holds.
fn refused_if(cause: bool, refusal: Refusal) -> Option<Refusal>
    ensures { result ≡ refused_if cause refusal }
{
    if cause { Some(refusal) } else { None }
}

// The refusal, if this place isn't in the frame.
fn unless_within(at: u32, bytes: Option<&[u8]>) -> Option<Refusal>
    ensures { result ≡ unless_within at (option_copied bytes.entry) }
{
    let len = bytes?.len();
    if len <= at as usize {
        Some(Refusal::NoSuchByte(len as u32))
    } else {
        None
    }
}

// A copy of the bytes with this one at this place.
fn garbled_copy(alloc: Global, bytes: &[u8], at: u32, byte: u8) -> Result<Vec<u8>, NoMemory>
    ensures { IfOk result (λ copy. copy.items ≡ slice_set bytes.now at byte) }
{
    let mut copy = Vec::from_slice(alloc, bytes)?;
    if (at as usize) < bytes.len() {
        copy[at as usize] = byte;
    }
    Ok(copy)
}

// A copy of the first bytes.
fn cut_copy(alloc: Global, bytes: &[u8], len: u32) -> Result<Vec<u8>, NoMemory>
    ensures { IfOk result (λ copy. copy.items ≡ take len bytes.now) }
{
    let end = bytes.len().min(len as usize);
    Ok(Vec::from_slice(alloc, &bytes[..end])?)
}

// Whether the bytes spell a frame of these settings.
fn is_frame(alloc: Global, settings: &Settings, bytes: &[u8]) -> Result<bool, NoMemory>
    ensures { IfOk result (λ is. is ≡ is_ok (frame_of settings.now bytes.now)) }
{
    match decode(alloc, settings, bytes) {
        Ok(_) => Ok(true),
        Err(fault) => is_unread(fault),
    }
}

// 16: the name of the node that casts doesn't begin with the prefix.
#[tactic(auto, unfolding(tap_history::specs::Refusals::refuses_not_in_prefix))]
fn not_in_prefix(step: &Step) -> Option<Refusal>
    ensures { (log : List Record) → result ≡ refuses_not_in_prefix log step.now }
{
    match step {
        Step::Cast { prefix, asker, .. } => {
            let fits = asker
                .digits()
                .as_slice()
                .starts_with(prefix.digits().as_slice());
            refused_if(!fits, Refusal::NotInPrefix)
        }
        _ => None,
    }
}

// Whether these are more packets than ticks and repeats may make.
fn is_too_many(made: u32, more: u32) -> bool
    ensures { result ≡ nat_lt 100000 (made + more) }
{
    match made.checked_add(more) {
        Some(all) => 100_000 < all,
        None => true,
    }
}

impl Ledger {
    // The first one of 1 and 2: no node of this name is present, or the node is joining.
    #[tactic(auto, unfolding(tap_history::specs::Refusals::refuses_no_such_node, tap_history::specs::Refusals::refuses_not_core))]
    fn not_there(&self, step: &Step) -> Option<Refusal>
        ensures { result ≡ first_some (refuses_no_such_node self.now.records step.now ∷ refuses_not_core self.now.records step.now ∷ []) }
    {
        let name = asked_node(step)?;
        if !self.is_present(name) {
            return Some(Refusal::NoSuchNode);
        }
        if suits_joining(step) {
            return None;
        }
        refused_if(!self.is_core(name), Refusal::NotCore)
    }

    // 3: a node is departing.
    #[tactic(auto, unfolding(tap_history::specs::Refusals::refuses_departing))]
    fn while_departing(&self, step: &Step) -> Option<Refusal>
        ensures { result ≡ refuses_departing self.now.records step.now }
    {
        let leaver = self.departing()?;
        refused_if(!suits_departure(step), Refusal::Departing(leaver))
    }

    // 4: frames are outstanding, when a node is to depart.
    #[tactic(auto, unfolding(tap_history::specs::Refusals::refuses_not_at_rest))]
    fn not_at_rest(&self, step: &Step) -> Option<Refusal>
        ensures { result ≡ refuses_not_at_rest self.now.records step.now }
    {
        depart_name(step)?;
        let frames = self.outstanding();
        refused_if(0 < frames, Refusal::NotAtRest(frames))
    }

    // 5: a node of the new name was ever present.
    #[tactic(auto, unfolding(tap_history::specs::Refusals::refuses_name_taken))]
    fn name_taken(&self, step: &Step) -> Option<Refusal>
        ensures { result ≡ refuses_name_taken self.now.records step.now }
    {
        let name = join_name(step)?;
        refused_if(self.was_present(&name), Refusal::NameTaken)
    }

    // 6: 256 names were ever present.
    #[tactic(auto, unfolding(tap_history::specs::Refusals::refuses_too_many_nodes))]
    fn too_many_nodes(&self, step: &Step) -> Option<Refusal>
        ensures { result ≡ refuses_too_many_nodes self.now.records step.now }
    {
        join_name(step)?;
        refused_if(256 <= self.name_count(), Refusal::TooManyNodes)
    }

    // Whether a node is the one core node.
    fn is_only_core(&self, name: &Name) -> bool
        ensures { result ≡ is_only_core self.now.records name.now }
    {
        self.is_core(name) && self.core_count() == 1
    }

    // 7: the node that is to depart is the one core node.
    #[tactic(auto, unfolding(tap_history::specs::Refusals::refuses_last_node))]
    fn last_node(&self, step: &Step) -> Option<Refusal>
        ensures { result ≡ refuses_last_node self.now.records step.now }
    {
        let name = depart_name(step)?;
        refused_if(self.is_only_core(&name), Refusal::LastNode)
    }

    // 8: the pair is published.
    #[tactic(auto, unfolding(tap_history::specs::Refusals::refuses_already_published))]
    fn already_published(&self, step: &Step) -> Option<Refusal>
        ensures { result ≡ refuses_already_published self.now.records step.now }
    {
        let pair = publish_pair(step)?;
        refused_if(self.is_published(&pair), Refusal::AlreadyPublished)
    }

    // 9: the pair isn't published.
    #[tactic(auto, unfolding(tap_history::specs::Refusals::refuses_not_published))]
    fn not_published(&self, step: &Step) -> Option<Refusal>
        ensures { result ≡ refuses_not_published self.now.records step.now }
    {
        let pair = withdraw_pair(step)?;
        refused_if(!self.is_published(&pair), Refusal::NotPublished)
    }

    // 10: nothing is at the place.
    #[tactic(auto, unfolding(tap_history::specs::Refusals::refuses_no_such_flight))]
    fn no_such_flight(&self, step: &Step) -> Option<Refusal>
        ensures { result ≡ refuses_no_such_flight self.now.records step.now }
    {
        let place = flight_place(step)?;
        let flights = self.flight_count();
        refused_if(flights <= place, Refusal::NoSuchFlight(flights))
    }

    // 11: the byte that is to be changed, or the first one that is to be cut off, isn't in the frame.
    #[tactic(auto, unfolding(tap_history::specs::Refusals::refuses_no_such_byte))]
    fn no_such_byte(&self, step: &Step) -> Option<Refusal>
        ensures { result ≡ refuses_no_such_byte self.now.records step.now }
    {
        match step {
            Step::Garble { place, at, .. } => unless_within(*at, self.bytes_at(*place)),
            Step::Cut { place, bytes } => unless_within(*bytes, self.bytes_at(*place)),
            _ => None,
        }
    }

    // The copy of a frame, if the step damages one.
    #[tactic(auto, unfolding(tap_history::specs::Refusals::damaged))]
    fn damaged(&self, alloc: Global, step: &Step) -> Result<Option<Vec<u8>>, NoMemory>
        ensures { IfOk result (λ copy. option_map (λ bytes. bytes.items) copy ≡ damaged self.now.records step.now) }
    {
        match step {
            Step::Garble { place, at, byte } => match self.bytes_at(*place) {
                Some(bytes) => Ok(Some(garbled_copy(alloc, bytes, *at, *byte)?)),
                None => Ok(None),
            },
            Step::Cut { place, bytes: len } => match self.bytes_at(*place) {
                Some(bytes) => Ok(Some(cut_copy(alloc, bytes, *len)?)),
                None => Ok(None),
            },
            _ => Ok(None),
        }
    }

    // Whether the bytes spell a frame of the log's settings.
    fn is_readable(&self, alloc: Global, bytes: &[u8]) -> Result<bool, NoMemory>
        ensures { IfOk result (λ is. is ≡ is_readable (begin_settings self.now.records) bytes.now) }
    {
        is_frame(alloc, &self.settings(), bytes)
    }

    // 12: the damaged copy is the spelling of a frame.
    #[tactic(auto, unfolding(tap_history::specs::Refusals::refuses_readable))]
    fn readable(&self, alloc: Global, step: &Step) -> Result<Option<Refusal>, NoMemory>
        ensures { IfOk result (λ refusal. refusal ≡ refuses_readable self.now.records step.now) }
    {
        match self.damaged(alloc, step)? {
            Some(copy) => Ok(refused_if(
                self.is_readable(alloc, copy.as_slice())?,
                Refusal::Readable,
            )),
            None => Ok(None),
        }
    }

    // 13: the node is core, or leaving.
    #[tactic(auto, unfolding(tap_history::specs::Refusals::refuses_not_joining))]
    fn not_joining(&self, step: &Step) -> Option<Refusal>
        ensures { result ≡ refuses_not_joining self.now.records step.now }
    {
        let name = abandon_name(step)?;
        refused_if(self.is_core(&name), Refusal::NotJoining)
    }

    // 14: the node was abandoned before.
    #[tactic(auto, unfolding(tap_history::specs::Refusals::refuses_already_abandoned))]
    fn already_abandoned(&self, step: &Step) -> Option<Refusal>
        ensures { result ≡ refuses_already_abandoned self.now.records step.now }
    {
        let name = abandon_name(step)?;
        refused_if(self.is_abandoned(&name), Refusal::AlreadyAbandoned)
    }

    // The packets that a step would make once more.
    #[tactic(auto, unfolding(tap_history::specs::Refusals::packets_of_step))]
    fn packets_of_step(&self, step: &Step) -> Option<u32>
        ensures { result ≡ packets_of_step self.now.records step.now }
    {
        match step {
            Step::Tick => Some(self.awaiting()),
            Step::Repeat { .. } => Some(1),
            _ => None,
        }
    }

    // 15: with those of this step, ticks and repeats would have made more than 100,000 packets.
    #[tactic(auto, unfolding(tap_history::specs::Refusals::refuses_too_many_packets))]
    fn too_many_packets(&self, step: &Step) -> Option<Refusal>
        ensures { result ≡ refuses_too_many_packets self.now.records step.now }
    {
        let more = self.packets_of_step(step)?;
        let made = self.resent();
        refused_if(is_too_many(made, more), Refusal::TooManyPackets(made))
    }

    // The first one of 1 to 4.
    fn of_the_node(&self, step: &Step) -> Option<Refusal>
        ensures { result ≡ first_some (refuses_no_such_node self.now.records step.now
            ∷ refuses_not_core self.now.records step.now
            ∷ refuses_departing self.now.records step.now
            ∷ refuses_not_at_rest self.now.records step.now ∷ []) }
    {
        if let Some(refusal) = self.not_there(step) {
            return Some(refusal);
        }
        if let Some(refusal) = self.while_departing(step) {
            return Some(refusal);
        }
        self.not_at_rest(step)
    }

    // The first one of 5 to 9.
    fn of_the_name(&self, step: &Step) -> Option<Refusal>
        ensures { result ≡ first_some (refuses_name_taken self.now.records step.now
            ∷ refuses_too_many_nodes self.now.records step.now
            ∷ refuses_last_node self.now.records step.now
            ∷ refuses_already_published self.now.records step.now
            ∷ refuses_not_published self.now.records step.now ∷ []) }
    {
        if let Some(refusal) = self.name_taken(step) {
            return Some(refusal);
        }
        if let Some(refusal) = self.too_many_nodes(step) {
            return Some(refusal);
        }
        if let Some(refusal) = self.last_node(step) {
            return Some(refusal);
        }
        if let Some(refusal) = self.already_published(step) {
            return Some(refusal);
        }
        self.not_published(step)
    }

    // The first one of 10 to 12.
    fn of_the_frame(&self, alloc: Global, step: &Step) -> Result<Option<Refusal>, NoMemory>
        ensures { IfOk result (λ refusal. refusal ≡ first_some (refuses_no_such_flight self.now.records step.now
            ∷ refuses_no_such_byte self.now.records step.now ∷ refuses_readable self.now.records step.now ∷ [])) }
    {
        if let Some(refusal) = self.no_such_flight(step) {
            return Ok(Some(refusal));
        }
        if let Some(refusal) = self.no_such_byte(step) {
            return Ok(Some(refusal));
        }
        self.readable(alloc, step)
    }

    // The first one of 13 to 16.
    fn of_the_rest(&self, step: &Step) -> Option<Refusal>
        ensures { result ≡ first_some (refuses_not_joining self.now.records step.now
            ∷ refuses_already_abandoned self.now.records step.now
            ∷ refuses_too_many_packets self.now.records step.now
            ∷ refuses_not_in_prefix self.now.records step.now ∷ []) }
    {
        if let Some(refusal) = self.not_joining(step) {
            return Some(refusal);
        }
        if let Some(refusal) = self.already_abandoned(step) {
            return Some(refusal);
        }
        if let Some(refusal) = self.too_many_packets(step) {
            return Some(refusal);
        }
        not_in_prefix(step)
    }

    /// Why a step is refused at the end of the log, which is a moment: the first refusal whose cause holds; `None` exactly if none
    /// does. It takes memory, of `alloc`, only to try whether a damaged copy is the spelling of a frame.
    ///
    /// Rule: docs/FORMATS.md, "The printed text".
    pub fn refusal(&self, alloc: Global, step: &Step) -> Result<Option<Refusal>, NoMemory>
        ensures { IfOk result (λ refusal. refusal ≡ first_refusal self.now.records step.now) }
    {
        if let Some(refusal) = self.of_the_node(step) {
            return Ok(Some(refusal));
        }
        if let Some(refusal) = self.of_the_name(step) {
            return Ok(Some(refusal));
        }
        if let Some(refusal) = self.of_the_frame(alloc, step)? {
            return Ok(Some(refusal));
        }
        Ok(self.of_the_rest(step))
    }
}
