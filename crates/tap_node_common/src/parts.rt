ghost use Rattle.std.specs.Prelude.{◌≡◌};
ghost use Rattle.tap_table.specs.Ties.{TiesValue};
ghost use Rattle.tap_node_common.specs.States.{core_state_of, newly_core};

use std::alloc::Global;
use tap_cast::Casts;
use tap_multicast::Covers;
use tap_pointer::Pointers;
use tap_register::Stamp;
use tap_session::Sessions;

/// What a core or leaving node keeps beside its ties.
///
/// Its fields are open, to the layers of a node alone: what they come to is the state of the node.
///
/// Rule: docs/PROTOCOL.md, "Nodes".
#[derive(Drop)]
pub struct NodeParts {
    /// The stamp, which gives the numbers of its words and Lays.
    pub stamp: Stamp,
    /// The sessions of joins.
    pub sessions: Sessions,
    /// The joiners that it covers.
    pub covers: Covers,
    /// What it knows of pairs.
    pub pointers: Pointers,
    /// The casts that it has met.
    pub casts: Casts,
    /// The sessions of casts.
    pub cast_sessions: Sessions,
    /// The cast of each session of casts that was opened, in the order of their numbers.
    pub cast_numbers: Vec<u32>,
}

impl NodeParts {
    /// The parts of a node that covers nobody and has met no cast. This takes no memory; later calls take it of `alloc`.
    pub fn new(alloc: Global, stamp: Stamp, sessions: Sessions, pointers: Pointers) -> NodeParts
        ensures { (ties : TiesValue) → core_state_of ties result ≡ newly_core ties stamp sessions pointers }
    {
        NodeParts {
            stamp,
            sessions,
            covers: Covers::new(alloc),
            pointers,
            casts: Casts::new(alloc),
            cast_sessions: Sessions::new(alloc),
            cast_numbers: Vec::new(alloc),
        }
    }
}
