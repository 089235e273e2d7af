ghost use Rattle.std.specs.Prelude.{◌≡◌, ◌+◌, ◌<◌, ◌≤◌, ◌&&◌, ◌||◌, [], ◌++◌, List, ℕ, length, not, slice_get, IfOk, OnOk, OnErr};
ghost use Rattle.std.specs.Bool.{OnFalse};
ghost use Rattle.tap_carry.specs.Names.{is_same};
ghost use Rattle.tap_carry.specs.Outbox.{AreAwaiting, SendsTo, acked_by, awaits_one, last_to, most_frames};
ghost use Rattle.tap_carry.specs.OutboxKept.{LeavesOut, awaits_of, is_among};

use crate::memory::NoMemory;
use crate::numbers::next_number;
use indexmap::{IndexMap, IndexSet};
use std::alloc::Global;
use std::marker::Model;
use tap_name::Name;

/// The number that each frame is below.
///
/// Rule: docs/PROTOCOL.md, "Limits".
pub const MOST_FRAMES: u32 = 4_000_000_000;

/// A frame that awaits its acknowledgement.
///
/// Rule: docs/PROTOCOL.md, "Packets".
#[derive(Clone, Copy, Debug, PartialEq, Eq)]
pub struct Await {
    /// The receiver of the frame.
    pub to: Name,
    /// Its sequence number, from 1: how many frames its sender had sent to this receiver by then, with this one.
    pub seq: u32,
    /// The number of the frame among all frames of the run, below 4,000,000,000.
    pub frame: u32,
}

/// The outbox of a node: the frames that it sent and that aren't acknowledged yet.
///
/// Contracts see what awaits, ascending by frame, the last number for each receiver, and the least frame that may be
/// sent.
///
/// What was sent lies in a list, by frame, and the receivers and numbers of what awaits in a hash set. What no longer awaits is left out of
/// the list once it is most of it, so the list has at most twice what awaits, and three more. Over all calls, to send or to acknowledge takes
/// constant time; to look at what awaits takes a pass over the list.
///
/// Rule: docs/PROTOCOL.md, "Packets".
#[derive(Drop)]
pub struct Outbox {
    // Frames that were sent, ascending. Those await whose receiver and number are among `ways`.
    sent: Vec<Await>,
    // The receiver and the number of each frame that awaits.
    ways: IndexSet<(Name, u32)>,
    // The last number for each receiver.
    last: IndexMap<Name, u32>,
    next: u32,
}

impl Model for Outbox {
    ghost use Rattle.tap_carry.specs.Outbox.{OutboxValue};

    ghost Value = { OutboxValue };

    ghost use Rattle.tap_carry.specs.OutboxKept.{IsOutbox, awaits_of};

    ghost view = { λ o. record { awaits = awaits_of o.sent.items o.ways.keys; last = o.last.entries; next = o.next } };

    ghost invariant = { λ o. IsOutbox o.sent.items o.ways.keys o.last.entries o.next };
}

impl Outbox {
    /// None sent. This takes no memory; later calls take it of `alloc`.
    pub fn new(alloc: Global) -> Outbox
        ensures { result ≡ record { awaits = []; last = []; next = 0 } }
    {
        Outbox {
            sent: Vec::new(alloc),
            ways: IndexSet::new(alloc),
            last: IndexMap::new(alloc),
            next: 0,
        }
    }

    /// The least frame that may be sent: one above the last that was sent, or 0.
    pub fn next(&self) -> u32
        ensures next { result ≡ self.now.next }
        ensures most { result ≤ most_frames }
    {
        self.next
    }

    /// Sends a frame to a receiver, above the last that was sent: it awaits its acknowledgement from now on. The
    /// answer is its sequence number, the next one for this receiver, from 1. A refused call changes nothing.
    pub fn send(&mut self, to: Name, frame: u32) -> Result<u32, NoMemory>
        requires above { self.old.next ≤ frame }
        requires few { frame < most_frames }
        ensures number { IfOk result (λ seq. seq ≡ last_to self.old to + 1) }
        ensures after { OnOk result (SendsTo self.old self.new to frame) }
        ensures look_up { OnOk result ((x : List ℕ) (k : ℕ) →
            awaits_one self.new x k ≡
            (awaits_one self.old x k || is_same to (last_to self.old to + 1) x k)) }
        ensures err { OnErr result (self.new ≡ self.old) }
    {
        self.sent.reserve(1)?;
        self.ways.reserve(1)?;
        let seq = next_number(&mut self.last, to)?;
        let _ = self.ways.insert((to, seq))?;
        self.sent.push_reserved(Await { to, seq, frame });
        self.next = frame + 1;
        Ok(seq)
    }

    /// Takes the acknowledgement of a number from its receiver, and answers whether that frame awaited it. It no
    /// longer does, and if it didn't, nothing changes. This takes no memory.
    pub fn acked(&mut self, from: Name, seq: u32) -> bool
        ensures awaited { result ≡ awaits_one self.old from seq }
        ensures after { self.new ≡ acked_by self.old from seq }
        ensures look_up { (x : List ℕ) (k : ℕ) →
            awaits_one self.new x k ≡ (awaits_one self.old x k && not (is_same from seq x k)) }
        ensures same { OnFalse result (self.new ≡ self.old) }
    {
        let awaited = self.ways.swap_remove(&(from, seq));
        leave_out(&mut self.sent, &self.ways);
        awaited
    }

    /// How many frames await their acknowledgement.
    pub fn awaiting(&self) -> usize
        ensures count { result ≡ length self.now.awaits }
        ensures valid { AreAwaiting self.now }
    {
        self.ways.len()
    }

    /// The frame at a place among those that await, from 0 for the least. It passes over those before it; `gather`
    /// gives all of them at once.
    pub fn await_at(&self, i: usize) -> Await
        requires { i < length self.now.awaits }
        ensures { slice_get self.now.awaits i ≡ Some result }
    {
        await_in(&self.sent, &self.ways, i)
    }

    /// Adds all that await to the end of a list, ascending by frame. A refused call adds nothing.
    pub fn gather(&self, list: &mut Vec<Await>) -> Result<(), NoMemory>
        ensures all { OnOk result (list.new.items ≡ list.old.items ++ self.now.awaits) }
        ensures err { OnErr result (list.new.items ≡ list.old.items) }
    {
        if self.ways.len() == self.sent.len() {
            list.extend_from_slice(&self.sent)?;
            return Ok(());
        }
        list.reserve(self.ways.len())?;
        for item in &self.sent {
            if is_among(&self.ways, item) {
                list.push_reserved(*item);
            }
        }
        Ok(())
    }
}

// Whether a frame that was sent still awaits.
fn is_among(ways: &IndexSet<(Name, u32)>, item: &Await) -> bool
    ensures { result ≡ is_among ways.now.keys item.now }
{
    ways.contains(&(item.to, item.seq))
}

// What awaits at a place.
fn await_in(sent: &[Await], ways: &IndexSet<(Name, u32)>, i: usize) -> Await
    requires { i < length (awaits_of sent.now ways.now.keys) }
    ensures { slice_get (awaits_of sent.now ways.now.keys) i ≡ Some result }
{
    let mut left = i;
    for item in sent {
        if is_among(ways, item) {
            if left == 0 {
                return *item;
            }
            left -= 1;
        }
    }
    unreachable!()
}

// Leaves out what no longer awaits, if that is most of what was sent or all of it.
fn leave_out(sent: &mut Vec<Await>, ways: &IndexSet<(Name, u32)>)
    ensures { LeavesOut ways.now.keys sent.old.items sent.new.items }
{
    if ways.is_empty() {
        sent.clear();
        return;
    }
    if sent.len() / 2 > ways.len() + 1 {
        sent.retain(|item| is_among(ways, item));
    }
}
