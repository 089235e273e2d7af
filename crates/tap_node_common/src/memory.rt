use std::alloc::{AllocError, AllocFailed};
use std::error::Error;
use std::fmt;
use tap_table::Ties;

/// Memory was refused.
///
/// Rule: docs/MAP.md, "How the sources are written".
#[derive(Clone, Copy, Debug, PartialEq, Eq)]
pub struct NoMemory;

impl fmt::Display for NoMemory {
    fn fmt<W: fmt::Write>(&self, f: &mut fmt::Formatter<W>) -> fmt::Result {
        f.write_str("no memory")
    }
}

impl Error for NoMemory {}

impl From<AllocError> for NoMemory {
    fn from(_: AllocError) -> NoMemory {
        NoMemory
    }
}

impl<T: Drop> From<AllocFailed<T>> for NoMemory {
    fn from(_: AllocFailed<T>) -> NoMemory {
        NoMemory
    }
}

impl From<tap_session::NoMemory> for NoMemory {
    fn from(_: tap_session::NoMemory) -> NoMemory {
        NoMemory
    }
}

impl From<tap_table::NoMemory> for NoMemory {
    fn from(_: tap_table::NoMemory) -> NoMemory {
        NoMemory
    }
}

// The ties of a node that leaves: whoever is refused the memory for its notices gives them back.
impl From<Ties> for NoMemory {
    fn from(_: Ties) -> NoMemory {
        NoMemory
    }
}

impl From<tap_wire::NoMemory> for NoMemory {
    fn from(_: tap_wire::NoMemory) -> NoMemory {
        NoMemory
    }
}

impl From<tap_watch::NoMemory> for NoMemory {
    fn from(_: tap_watch::NoMemory) -> NoMemory {
        NoMemory
    }
}
