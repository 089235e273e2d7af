use std::error::Error;
use std::fmt;
use tap_name::Name;
use tap_wire::WireFault;

/// Why a node took no step. `Ended` goes before all others, and of `Wire`, `NotMine` and `Strange` the first that is so is the answer.
/// `NoMemory` may come in place of a step. In place of `NotMine` or `Strange` it may come of a frame with slots or links alone, which is a
/// Tell or a Hello: to read it takes memory. All but `NoMemory` leave the node as it was.
///
/// Rule: docs/PROTOCOL.md, "Refused frames".
#[derive(Clone, Copy, Debug, PartialEq, Eq)]
pub enum NodeFault {
    /// The bytes are no frame. The cause is never want of memory.
    Wire(WireFault),
    /// The frame is for this other node.
    NotMine(Name),
    /// The frame is strange to the node.
    Strange,
    /// Memory was refused. The node has ended.
    NoMemory,
    /// The node has ended: memory was refused in an earlier step.
    Ended,
}

impl fmt::Display for NodeFault {
    fn fmt<W: fmt::Write>(&self, f: &mut fmt::Formatter<W>) -> fmt::Result {
        match self {
            NodeFault::Wire(fault) => write!(f, "no frame: {fault}"),
            NodeFault::NotMine(name) => write!(f, "frame for {name}"),
            NodeFault::Strange => f.write_str("strange frame"),
            NodeFault::NoMemory => f.write_str("no memory"),
            NodeFault::Ended => f.write_str("ended"),
        }
    }
}

impl Error for NodeFault {}
