ghost use Rattle.std.specs.Prelude.{◌≡◌, false, Err};
ghost use Rattle.tap_node.specs.declared.fault.NodeFault.TheVariants as fault;
ghost use Rattle.tap_node.specs.Outcome.{AnswersAs, IsFaultOf, refused_by};

use crate::fault::NodeFault;
use crate::node::Node;
use crate::state::State;
use crate::turn::Turn;
use tap_node_common::NoMemory;
use tap_wire::WireFault;

// A step was refused memory.
impl From<NoMemory> for NodeFault {
    ghost from_gives = { λ _ e. e ≡ fault.NoMemory };

    fn from(_: NoMemory) -> NodeFault {
        NodeFault::NoMemory
    }
}

// Bytes weren't read as a frame.
impl From<WireFault> for NodeFault {
    ghost from_gives = { IsFaultOf };

    fn from(cause: WireFault) -> NodeFault {
        match cause {
            WireFault::NoMemory => NodeFault::NoMemory,
            _ => NodeFault::Wire(cause),
        }
    }
}

impl Node {
    // It takes no step, for this cause. Want of memory ends it.
    pub(crate) fn refuse(&mut self, cause: NodeFault) -> Result<Turn, NodeFault>
        requires { self.old.ended ≡ false }
        ensures refusal { result ≡ Err cause }
        ensures outcome { AnswersAs (refused_by self.old cause) self.old result self.new }
    {
        match cause {
            NodeFault::NoMemory => {
                self.state = State::ended(self.alloc);
                Err(cause)
            }
            _ => Err(cause),
        }
    }
}
