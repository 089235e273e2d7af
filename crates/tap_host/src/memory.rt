ghost use Rattle.std.specs.Prelude.{◌≡◌};
ghost use Rattle.tap_host.specs.declared.status.HostStatus.TheVariants as status;

use crate::status::HostStatus;
use std::alloc::{AllocError, AllocFailed};
use std::error::Error;
use std::fmt;
use tap_node::NodeFault;

/// Memory was refused.
///
/// Rule: docs/MAP.md, "How the sources are written".
#[derive(Clone, Copy, Debug, PartialEq, Eq)]
pub struct NoMemory;

impl fmt::Display for NoMemory {
    fn fmt<W: fmt::Write>(&self, f: &mut fmt::Formatter<W>) -> fmt::Result {
        f.write_str("no memory")
    }
}

impl Error for NoMemory {}

impl From<AllocError> for NoMemory {
    fn from(_: AllocError) -> NoMemory {
        NoMemory
    }
}

impl<T: Drop> From<AllocFailed<T>> for NoMemory {
    fn from(_: AllocFailed<T>) -> NoMemory {
        NoMemory
    }
}

impl From<tap_carry::NoMemory> for NoMemory {
    fn from(_: tap_carry::NoMemory) -> NoMemory {
        NoMemory
    }
}

impl From<tap_host_line::NoMemory> for NoMemory {
    fn from(_: tap_host_line::NoMemory) -> NoMemory {
        NoMemory
    }
}

impl From<tap_node::NoMemory> for NoMemory {
    fn from(_: tap_node::NoMemory) -> NoMemory {
        NoMemory
    }
}

impl From<tap_wire::NoMemory> for NoMemory {
    fn from(_: tap_wire::NoMemory) -> NoMemory {
        NoMemory
    }
}

impl From<NoMemory> for HostStatus {
    ghost from_gives = { λ _ given. given ≡ status.NoMemory };

    fn from(_: NoMemory) -> HostStatus {
        HostStatus::NoMemory
    }
}

// The fault of a node that has no other: memory was refused to it.
pub(crate) fn only_memory(fault: NodeFault) -> NoMemory
    requires { fault ≡ NodeFault.NoMemory }
{
    match fault {
        NodeFault::NoMemory => NoMemory,
        NodeFault::Wire(_) | NodeFault::NotMine(_) | NodeFault::Strange | NodeFault::Ended => {
            unreachable!()
        }
    }
}
