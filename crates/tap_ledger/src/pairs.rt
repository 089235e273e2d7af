ghost use Rattle.std.specs.Prelude.{◌≡◌, ◌≤◌, ◌+◌, max, false, not, ◌&&◌, ◌||◌, OnOk, OnErr};
ghost use Rattle.tap_log.specs.declared.record.Pair.{Pair};
ghost use Rattle.tap_log.specs.Kinds.{published_pair, withdrawn_pair};
ghost use Rattle.tap_history.specs.Published.{same_pair};
ghost use Rattle.tap_ledger.specs.Pairs.{has_key, key_after, stays_published};

use crate::names::Names;
use std::alloc::Global;
use std::collections::HashSet;
use std::marker::Model;
use tap_log::{NoMemory, Pair, Record};
use tap_name::Name;

// Pairs, each once, with room that was made for more. A pair goes once it is withdrawn, and not when its server departs. Contracts see
// which pairs are there, and the room.
#[derive(Drop)]
pub(crate) struct Pairs {
    items: HashSet<(Name, Name)>,
    room: usize,
}

impl Model for Pairs {
    ghost use Rattle.std.specs.Prelude.{◌≤◌};
    ghost use Rattle.std.specs.HashSet.{spare};
    ghost use Rattle.tap_ledger.specs.Pairs.{PairsValue};

    ghost Value = { PairsValue };

    ghost view = { λ p. record { keys = p.items.keys; room = p.room } };

    ghost invariant = { λ p. p.room ≤ spare p.items };
}

impl Pairs {
    // No pair. It takes no memory yet.
    pub(crate) fn new(alloc: Global) -> Pairs
        ensures none { (q : Pair) → has_key result.keys q ≡ false }
    {
        Pairs {
            items: HashSet::new(alloc),
            room: 0,
        }
    }

    pub(crate) fn has(&self, pair: &Pair) -> bool
        ensures { result ≡ has_key self.now.keys pair.now }
    {
        self.items.contains(&(pair.object, pair.server))
    }

    // Makes room for so many more pairs. A refused call changes nothing.
    pub(crate) fn reserve(&mut self, more: usize) -> Result<(), NoMemory>
        ensures pairs { (q : Pair) → has_key self.new.keys q ≡ has_key self.old.keys q }
        ensures ok { OnOk result (self.new.room ≡ max self.old.room more) }
        ensures err { OnErr result (self.new.room ≡ self.old.room) }
    {
        if self.room < more {
            self.items.reserve(more)?;
            self.room = more;
        }
        Ok(())
    }

    // Adds a pair for which there is room.
    fn insert(&mut self, pair: Pair)
        requires { 1 ≤ self.old.room }
        ensures pairs { (q : Pair) → has_key self.new.keys q ≡ (same_pair pair q || has_key self.old.keys q) }
        ensures room { self.new.room + 1 ≡ self.old.room }
    {
        self.room -= 1;
        self.items.insert((pair.object, pair.server)).unwrap();
    }

    // Takes a pair away.
    fn remove(&mut self, pair: Pair)
        ensures pairs { (q : Pair) → has_key self.new.keys q ≡ (not (same_pair pair q) && has_key self.old.keys q) }
        ensures room { self.new.room ≡ self.old.room }
    {
        self.items.remove(&(pair.object, pair.server));
    }

    // Follows one more record: takes the pair away that it withdraws, or adds the one that it publishes.
    #[tactic(auto, unfolding(tap_log::specs::Kinds::withdrawn_pair, tap_log::specs::Kinds::published_pair))]
    pub(crate) fn change(&mut self, item: &Record)
        requires { 1 ≤ self.old.room }
        ensures pairs { (q : Pair) → has_key self.new.keys q
            ≡ key_after (has_key self.old.keys) (withdrawn_pair item.now) (published_pair item.now) q }
        ensures room { self.old.room ≤ self.new.room + 1 }
    {
        match item {
            Record::Withdrawn { object, server } => self.remove(Pair {
                object: *object,
                server: *server,
            }),
            Record::Published { object, server } => self.insert(Pair {
                object: *object,
                server: *server,
            }),
            _ => {}
        }
    }
}

// Whether the pair is among these, and its server isn't among those that departed.
pub(crate) fn stays_published(pairs: &Pairs, departed: &Names, pair: &Pair) -> bool
    ensures { result ≡ stays_published pairs.now.keys departed.now.names pair.now }
{
    pairs.has(pair) && !departed.has(&pair.server)
}
