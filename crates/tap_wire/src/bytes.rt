ghost use Rattle.std.specs.Prelude.{◌≡◌, ◌≤◌, IsOk, IfOk, length, take};

use crate::memory::NoMemory;
use smallvec::SmallVec;
use std::alloc::Global;
use std::marker::Model;

// The most bytes that stand in the value itself: those of nearly all frames.
pub(crate) const MOST_IN_PLACE: usize = 56;

/// A list of bytes, as of a frame's spelling or the word of a cast. A few stand in the value itself. Contracts see the list of their
/// numbers.
///
/// Rule: docs/FORMATS.md, "Frames".
#[derive(Debug, Drop)]
pub struct Bytes {
    bytes: SmallVec<u8, MOST_IN_PLACE>,
}

impl Model for Bytes {
    ghost use Rattle.std.specs.Prelude.{List, ℕ};

    ghost Value = { List ℕ };

    ghost view = { λ b. b.bytes.items };
}

impl Bytes {
    /// A list with the same bytes. It wants memory only for more of them than stand in the value itself, which are 56.
    ///
    /// Rule: docs/FORMATS.md, "Frames".
    pub fn copy_of(alloc: Global, bytes: &[u8]) -> Result<Bytes, NoMemory>
        ensures value { IfOk result (λ b. b ≡ bytes.now) }
        ensures few { length bytes.now ≤ MOST_IN_PLACE → IsOk result }
    {
        Ok(Bytes {
            bytes: SmallVec::from_slice(alloc, bytes)?,
        })
    }

    /// The bytes, lent.
    ///
    /// Rule: docs/FORMATS.md, "Frames".
    pub fn as_slice(&self) -> &[u8]
        ensures { result.now ≡ self.now }
    {
        self.bytes.as_slice()
    }

    // The list of the first of these bytes.
    pub(crate) fn in_place(alloc: Global, places: [u8; MOST_IN_PLACE], len: usize) -> Bytes
        requires { len ≤ MOST_IN_PLACE }
        ensures { result ≡ take len places }
    {
        Bytes {
            bytes: SmallVec::from_buf_and_len(alloc, places, len),
        }
    }

    // The list of a vector's bytes.
    pub(crate) fn of_vec(bytes: Vec<u8>) -> Bytes
        ensures { result ≡ bytes.items }
    {
        Bytes {
            bytes: SmallVec::from_vec(bytes),
        }
    }
}

impl PartialEq for Bytes {
    ghost use Rattle.std.specs.Prelude.{nat_eq};
    ghost use Rattle.std.specs.Cmp.{partial_equiv_from_equiv};
    ghost use Rattle.std.specs.Cmp.Lexicographic.{pointwise};
    ghost use Rattle.std.proofs.lemmas.Cmp.{nat_list_eq_equiv};

    ghost eq = { pointwise nat_eq };

    ghost laws = { partial_equiv_from_equiv nat_list_eq_equiv };

    fn eq(&self, other: &Bytes) -> bool {
        self.as_slice() == other.as_slice()
    }
}

impl Eq for Bytes {
    ghost use Rattle.std.proofs.lemmas.Cmp.{nat_list_eq_equiv};

    ghost laws = { nat_list_eq_equiv };
}
