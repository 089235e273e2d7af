ghost use Rattle.std.specs.Prelude.{◌≡◌};
ghost use Rattle.tap_table.specs.declared.memory.Refused.TheVariants as refused;

use std::alloc::{AllocError, AllocFailed};
use std::error::Error;
use std::fmt;

/// Memory was refused.
///
/// Rule: docs/MAP.md, "How the sources are written".
#[derive(Clone, Copy, Debug, PartialEq, Eq)]
pub struct NoMemory;

impl fmt::Display for NoMemory {
    fn fmt<W: fmt::Write>(&self, f: &mut fmt::Formatter<W>) -> fmt::Result {
        f.write_str("no memory")
    }
}

impl Error for NoMemory {}

impl From<AllocError> for NoMemory {
    fn from(_: AllocError) -> NoMemory {
        NoMemory
    }
}

impl<T: Drop> From<AllocFailed<T>> for NoMemory {
    fn from(_: AllocFailed<T>) -> NoMemory {
        NoMemory
    }
}

impl From<tap_link::NoMemory> for NoMemory {
    fn from(_: tap_link::NoMemory) -> NoMemory {
        NoMemory
    }
}

impl From<tap_register::NoMemory> for NoMemory {
    fn from(_: tap_register::NoMemory) -> NoMemory {
        NoMemory
    }
}

// Why a slot takes no further link.
#[derive(Clone, Copy)]
pub(crate) enum Refused {
    // It has as many as a slot may have.
    TooMany,
    // Its link set was refused memory.
    NoMemory,
}

impl From<tap_link::NoMemory> for Refused {
    ghost from_gives = { λ _ e. e ≡ refused.NoMemory };

    fn from(_: tap_link::NoMemory) -> Refused {
        Refused::NoMemory
    }
}

impl From<Refused> for NoMemory {
    fn from(_: Refused) -> NoMemory {
        NoMemory
    }
}
