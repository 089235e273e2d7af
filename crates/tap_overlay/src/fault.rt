use std::error::Error;
use std::fmt;
use tap_node::NodeFault;

/// Why no node of an overlay took a step.
///
/// Rule: docs/PROTOCOL.md, "Refused frames".
#[derive(Clone, Copy, Debug, PartialEq, Eq)]
pub enum OverlayFault {
    /// There is no node of the name. Nothing has changed.
    NoNode,
    /// The node has no room for a further step (`Node::room`). Nothing has changed.
    NoRoom,
    /// The node answered this.
    Node(NodeFault),
}

impl fmt::Display for OverlayFault {
    fn fmt<W: fmt::Write>(&self, f: &mut fmt::Formatter<W>) -> fmt::Result {
        match self {
            OverlayFault::NoNode => f.write_str("no such node"),
            OverlayFault::NoRoom => f.write_str("no room"),
            OverlayFault::Node(fault) => fault.fmt(f),
        }
    }
}

impl Error for OverlayFault {}
