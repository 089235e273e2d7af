ghost use Rattle.std.specs.Prelude.{◌≡◌};

use tap_node::{NoMemory, NodeFault};

// The fault of a node that has no other: memory was refused to it.
pub(crate) fn only_memory(fault: NodeFault) -> NoMemory
    requires { fault ≡ NodeFault.NoMemory }
{
    match fault {
        NodeFault::NoMemory => NoMemory,
        NodeFault::Wire(_) | NodeFault::NotMine(_) | NodeFault::Strange | NodeFault::Ended => {
            unreachable!()
        }
    }
}
