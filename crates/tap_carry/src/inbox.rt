ghost use Rattle.std.specs.Prelude.{◌≡◌, ◌+◌, ◌^◌, ◌<◌, ◌≤◌, true, false, not, if◌then◌else◌, [], List, ℕ, IfOk, OnOk, OnErr, Some};
ghost use Rattle.std.specs.Bool.{OnFalse};
ghost use Rattle.indexmap.specs.IndexMap.{get};
ghost use Rattle.std.specs.Result.{result_ok};
ghost use Rattle.tap_carry.specs.Arrivals.{IsAnswered};
ghost use Rattle.tap_carry.specs.Inbox.{ArrivesIn, has_arrived, has_pair};
ghost use Rattle.tap_carry.specs.InboxKept.{ArePassed};
ghost use Rattle.tap_carry.specs.Names.{is_name, number_of};

use crate::memory::NoMemory;
use crate::numbers::{keep, kept_in};
use indexmap::{IndexMap, IndexSet};
use std::alloc::Global;
use std::marker::Model;
use tap_name::Name;

/// The inbox of a node: which sequence numbers of which senders have arrived.
///
/// Contracts see a test of a sender and a number, `has_arrived`.
///
/// For each sender it keeps the number up to which all have arrived, and beyond that those that have, which is memory
/// for gaps alone. Both are found by hashes, so a call takes constant time; one that fills a gap passes over the numbers
/// after it, each once in all.
///
/// Rule: docs/PROTOCOL.md, "Packets".
#[derive(Drop)]
pub struct Inbox {
    // The number of each sender up to which all have arrived.
    reached: IndexMap<Name, u32>,
    // Senders and numbers that have arrived beyond.
    beyond: IndexSet<(Name, u32)>,
}

impl Model for Inbox {
    ghost use Rattle.tap_carry.specs.Inbox.{InboxValue};

    ghost Value = { InboxValue };

    ghost use Rattle.tap_carry.specs.InboxKept.{IsInbox};

    ghost view = { λ b. record { reached = b.reached.entries; beyond = b.beyond.keys } };

    ghost invariant = { λ b. IsInbox b.reached.entries b.beyond.keys };
}

impl Inbox {
    /// Nothing has arrived. This takes no memory; later calls take it of `alloc`.
    pub fn new(alloc: Global) -> Inbox
        ensures value { result ≡ record { reached = []; beyond = [] } }
        ensures none { (from : List ℕ) (seq : ℕ) → has_arrived result from seq ≡ false }
    {
        Inbox {
            reached: IndexMap::new(alloc),
            beyond: IndexSet::new(alloc),
        }
    }

    /// Takes a number of a sender, from 1, and answers whether it arrives for the first time. A refused call changes
    /// nothing.
    pub fn arrived(&mut self, from: Name, seq: u32) -> Result<bool, NoMemory>
        requires { 1 ≤ seq }
        ensures first { IfOk result (λ first. first ≡ not (has_arrived self.old from seq)) }
        ensures after { OnOk result (ArrivesIn self.old self.new from seq) }
        ensures again { IfOk result (λ first. OnFalse first (self.new ≡ self.old)) }
        ensures err { OnErr result (self.new ≡ self.old) }
        ensures answered { IsAnswered (result_ok result) self.old self.new from seq }
    {
        let kept = kept_in(&self.reached, &from);
        let reached = kept.number;
        if seq <= reached {
            return Ok(false);
        }
        if seq > reached + 1 {
            return Ok(self.beyond.insert((from, seq))?);
        }
        keep(&mut self.reached, kept.at, from, seq)?;
        let end = pass(&mut self.beyond, from, seq);
        raise(&mut self.reached, from, seq, end);
        Ok(true)
    }
}

// Takes the numbers of a sender out that come right after this one, each after the other, and gives the last of them.
fn pass(beyond: &mut IndexSet<(Name, u32)>, from: Name, seq: u32) -> u32
    requires few { (x : List ℕ) (k : ℕ) → has_pair beyond.old.keys x k ≡ true → k < 2 ^ 32 }
    ensures passed { ArePassed beyond.old.keys beyond.new.keys from seq result }
    ensures gap { has_pair beyond.new.keys from (result + 1) ≡ false }
{
    if beyond.is_empty() {
        return seq;
    }
    for end in seq..u32::MAX {
        if !beyond.swap_remove(&(from, end + 1)) {
            return end;
        }
    }
    u32::MAX
}

// Raises the number of a sender from this one to the end.
fn raise(reached: &mut IndexMap<Name, u32>, from: Name, seq: u32, end: u32)
    requires { get is_name reached.old from ≡ Some seq }
    ensures { (x : List ℕ) →
        number_of reached.new.entries x ≡ (if is_name from x then end else number_of reached.old.entries x) }
{
    if end == seq {
        return;
    }
    if let Some(number) = reached.get_mut(&from) {
        *number = end;
    }
}
