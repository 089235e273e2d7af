ghost use Rattle.std.specs.Prelude.{◌≡◌};
ghost use Rattle.tap_line.specs.declared.fault.LineFault.TheVariants.{NoMemory};

use std::alloc::{AllocError, AllocFailed};
use std::error::Error;
use std::fmt;

/// Why a line isn't read.
///
/// Rule: docs/FORMATS.md, "The printed text".
#[derive(Clone, Copy, Debug, PartialEq, Eq)]
pub enum LineFault {
    /// It is the text of no line.
    NoLine,
    /// Memory was refused.
    NoMemory,
}

impl fmt::Display for LineFault {
    fn fmt<W: fmt::Write>(&self, f: &mut fmt::Formatter<W>) -> fmt::Result {
        match self {
            LineFault::NoLine => f.write_str("no line of a log"),
            LineFault::NoMemory => f.write_str("no memory"),
        }
    }
}

impl Error for LineFault {}

impl From<AllocError> for LineFault {
    ghost from_gives = { λ _ fault. fault ≡ NoMemory };

    fn from(_: AllocError) -> LineFault {
        LineFault::NoMemory
    }
}

impl<T: Drop> From<AllocFailed<T>> for LineFault {
    ghost from_gives = { λ _ fault. fault ≡ NoMemory };

    fn from(_: AllocFailed<T>) -> LineFault {
        LineFault::NoMemory
    }
}

impl From<tap_name::NoMemory> for LineFault {
    ghost from_gives = { λ _ fault. fault ≡ NoMemory };

    fn from(_: tap_name::NoMemory) -> LineFault {
        LineFault::NoMemory
    }
}

impl From<tap_wire::NoMemory> for LineFault {
    ghost from_gives = { λ _ fault. fault ≡ NoMemory };

    fn from(_: tap_wire::NoMemory) -> LineFault {
        LineFault::NoMemory
    }
}
