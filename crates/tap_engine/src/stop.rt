ghost use Rattle.std.specs.Prelude.{◌≡◌};
ghost use Rattle.tap_engine.specs.declared.stop.Stop.TheVariants as stop;

use std::alloc::{AllocError, AllocFailed};
use std::error::Error;
use std::fmt;
use tap_log::Refusal;
use tap_node::NodeFault;
use tap_overlay::OverlayFault;

/// Why a call added no group to the log of a world.
///
/// Rule: docs/FORMATS.md, "The course of a run".
#[derive(Clone, Copy, Debug, PartialEq, Eq)]
pub enum Stop {
    /// The step, or the place of a frame, is refused for this cause.
    Refused(Refusal),
    /// More frames would have been sent than may be. The log ends with `Spent`.
    Spent,
    /// Memory was refused. The log ends with its last whole group.
    NoMemory,
    /// An earlier call answered `Spent` or `NoMemory`. No call of an engine answers it: it is a world's that was stopped.
    Ended,
}

impl fmt::Display for Stop {
    fn fmt<W: fmt::Write>(&self, f: &mut fmt::Formatter<W>) -> fmt::Result {
        match self {
            Stop::Refused(refusal) => write!(f, "refused: {refusal}"),
            Stop::Spent => f.write_str("spent"),
            Stop::NoMemory => f.write_str("no memory"),
            Stop::Ended => f.write_str("ended"),
        }
    }
}

impl Error for Stop {}

/// Memory was refused.
///
/// Rule: docs/MAP.md, "How the sources are written".
#[derive(Clone, Copy, Debug, PartialEq, Eq)]
pub struct NoMemory;

impl fmt::Display for NoMemory {
    fn fmt<W: fmt::Write>(&self, f: &mut fmt::Formatter<W>) -> fmt::Result {
        f.write_str("no memory")
    }
}

impl Error for NoMemory {}

impl From<AllocError> for NoMemory {
    fn from(_: AllocError) -> NoMemory {
        NoMemory
    }
}

impl<T: Drop> From<AllocFailed<T>> for NoMemory {
    fn from(_: AllocFailed<T>) -> NoMemory {
        NoMemory
    }
}

impl From<tap_name::NoMemory> for NoMemory {
    fn from(_: tap_name::NoMemory) -> NoMemory {
        NoMemory
    }
}

impl From<tap_wire::NoMemory> for NoMemory {
    fn from(_: tap_wire::NoMemory) -> NoMemory {
        NoMemory
    }
}

impl From<tap_log::NoMemory> for NoMemory {
    fn from(_: tap_log::NoMemory) -> NoMemory {
        NoMemory
    }
}

impl From<tap_surrogate::NoMemory> for NoMemory {
    fn from(_: tap_surrogate::NoMemory) -> NoMemory {
        NoMemory
    }
}

impl From<tap_overlay::NoMemory> for NoMemory {
    fn from(_: tap_overlay::NoMemory) -> NoMemory {
        NoMemory
    }
}

impl From<NoMemory> for Stop {
    ghost from_gives = { λ _ s. s ≡ stop.NoMemory };

    fn from(_: NoMemory) -> Stop {
        Stop::NoMemory
    }
}

impl From<tap_log::NoMemory> for Stop {
    ghost from_gives = { λ _ s. s ≡ stop.NoMemory };

    fn from(_: tap_log::NoMemory) -> Stop {
        Stop::NoMemory
    }
}

// The fault of nodes that have no other: memory was refused to one.
pub(crate) fn only_memory(fault: OverlayFault) -> NoMemory
    requires { fault ≡ OverlayFault.Node NodeFault.NoMemory }
{
    match fault {
        OverlayFault::Node(fault) => match fault {
            NodeFault::NoMemory => NoMemory,
            NodeFault::Wire(_) | NodeFault::NotMine(_) | NodeFault::Strange | NodeFault::Ended => {
                unreachable!()
            }
        },
        OverlayFault::NoNode | OverlayFault::NoRoom => unreachable!(),
    }
}
