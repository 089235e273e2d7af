ghost use Rattle.std.specs.Prelude.{◌≡◌, ◌<◌, ◌↔◌, length, slice_index, Some, IsNone, IfSome};
ghost use Rattle.std.specs.Cmp.{po};
ghost use Rattle.std.specs.declared.cmp.Ordering.TheVariants.{Less};
ghost use Rattle.std.proofs.Common.{rules};
ghost use Rattle.tap_name.specs.Cyclic.{next_digit};
ghost use Rattle.tap_name.specs.Name.{IsName};
ghost use Rattle.tap_name.specs.Settings.{SettingsValue};
ghost use Rattle.tap_name.specs.Slot.{Precedes, slot_at, slot_cmp, slot_cmp-ties, slot_cmp-total};

use crate::name::Name;
use std::cmp::Ordering;

/// A place in a node's table, ordered by level, then digit.
///
/// It holds links to names that share the first `level` digits with the owner and have `digit` next.
///
/// Rule: docs/PROTOCOL.md, "Slots and tables".
#[derive(Clone, Copy, Debug, PartialEq, Eq, Hash)]
pub struct Slot {
    /// How many digits are shared, from 0.
    pub level: u8,
    /// The digit after them.
    pub digit: u8,
}

impl PartialOrd for Slot {
    ghost partial_cmp = { λ a b. Some (slot_cmp a b) };

    ghost laws = { po slot_cmp-total slot_cmp-ties };

    fn partial_cmp(&self, other: &Slot) -> Option<Ordering> {
        Some(self.cmp(other))
    }
}

impl Ord for Slot {
    ghost cmp = { slot_cmp };

    ghost total = { slot_cmp-total };

    ghost matches_partial_cmp = { Prim.search rules };

    ghost matches_eq = { slot_cmp-ties };

    fn cmp(&self, other: &Slot) -> Ordering
        ensures value { result ≡ slot_cmp self.now other.now }
        ensures precedes { (result ≡ Less) ↔ Precedes self.now other.now }
    {
        self.level
            .cmp(&other.level)
            .then(self.digit.cmp(&other.digit))
    }
}

/// A name that one node offers another as a link.
///
/// Rule: docs/FORMATS.md, "Frames".
#[derive(Clone, Copy, Debug, PartialEq, Eq)]
pub struct Offered {
    /// The name.
    pub name: Name,
    /// Whether it is known to be a core node's; else it may still be joining.
    pub settled: bool,
}

/// The place of `b` in the table of `a`: the length of their longest common prefix, and the digit of `b` after it.
/// `None` exactly if the names are equal.
///
/// Rule: docs/PROTOCOL.md, "Slots and tables".
pub fn slot_of(a: &Name, b: &Name) -> Option<Slot>
    requires { length a.now ≡ length b.now }
    ensures value { result ≡ slot_at a.now b.now }
    ensures none { IsNone result ↔ (a.now ≡ b.now) }
    ensures level { IfSome result (λ slot. slot.level < length a.now) }
    ensures digit { IfSome result (λ slot. slot.digit ≡ slice_index b.now slot.level) }
    ensures below { (p : SettingsValue) → IsName p b.now → IfSome result (λ slot. slot.digit < p.base) }
{
    let level = a.lcp(b);
    if level == a.len() {
        return None;
    }
    Some(Slot {
        level: level as u8,
        digit: b.digit(level),
    })
}

/// The next digit below the base, and 0 after the last: the order in which a walk tries the digits of a level.
///
/// Rule: docs/PROTOCOL.md, "Walks".
pub fn next_cyclic(base: u8, digit: u8) -> u8
    requires { digit < base }
    ensures value { result ≡ next_digit base digit }
    ensures below { result < base }
{
    if digit + 1 == base { 0 } else { digit + 1 }
}
