ghost use Rattle.std.specs.Prelude.{◌≡◌, Some};
ghost use Rattle.std.specs.Cmp.{po};
ghost use Rattle.std.proofs.Common.{rules};
ghost use Rattle.tap_pointer.specs.Pair.{pair_cmp, pair_cmp-ties, pair_cmp-total};

use std::cmp::Ordering;
use tap_name::Name;

/// An object and one of its servers, ordered by object, then server.
///
/// Rule: docs/PROTOCOL.md, "Pointers".
#[derive(Clone, Copy, Debug, PartialEq, Eq)]
pub struct Pair {
    /// The object.
    pub object: Name,
    /// The server.
    pub server: Name,
}

impl PartialOrd for Pair {
    ghost partial_cmp = { λ a b. Some (pair_cmp a b) };

    ghost laws = { po pair_cmp-total pair_cmp-ties };

    fn partial_cmp(&self, other: &Pair) -> Option<Ordering> {
        Some(self.cmp(other))
    }
}

impl Ord for Pair {
    ghost cmp = { pair_cmp };

    ghost total = { pair_cmp-total };

    ghost matches_partial_cmp = { Prim.search rules };

    ghost matches_eq = { pair_cmp-ties };

    fn cmp(&self, other: &Pair) -> Ordering {
        match self.object.cmp(&other.object) {
            Ordering::Less => Ordering::Less,
            Ordering::Equal => self.server.cmp(&other.server),
            Ordering::Greater => Ordering::Greater,
        }
    }
}
