ghost use Rattle.std.specs.Prelude.{◌≡◌, length};
ghost use Rattle.tap_pointer.specs.Pointers.{held_among};
ghost use Rattle.std.specs.Iterator.{at_most};
ghost use Rattle.std.specs.Map.Iter.{TakesFirst};

use crate::pair::Pair;
use crate::state::PairState;
use std::collections::btree_map;
use std::marker::Model;

/// Steps through the pairs that a node holds, ascending. Contracts see the pairs that are left.
///
/// Rule: docs/PROTOCOL.md, "Pointers".
#[derive(Drop)]
pub struct Held<'a> {
    entries: btree_map::Iter<'a, Pair, PairState>,
}

impl<'a> Model for Held<'a> {
    ghost use Rattle.std.specs.Prelude.{List};
    ghost use Rattle.tap_pointer.specs.declared.pair.Pair.{Pair};
    ghost use Rattle.tap_pointer.specs.Pointers.{held_among};

    ghost Value = { List Pair };

    ghost view = { λ h. held_among h.entries };
}

impl<'a> Held<'a> {
    // Steps through the pairs that are held among these.
    pub(crate) fn new(entries: btree_map::Iter<'a, Pair, PairState>) -> Held<'a>
        ensures { result ≡ held_among entries.entry }
    {
        Held { entries }
    }
}

impl<'a> Iterator for Held<'a> {
    type Item = Pair;

    ghost next_gives = { TakesFirst (λ p. p) };

    ghost remaining = { λ h. at_most (length h) };

    fn next(&mut self) -> Option<Pair> {
        while let Some((pair, state)) = self.entries.next() {
            if state.is_held() {
                return Some(*pair);
            }
        }
        None
    }
}
