use tap_link::Kind;
use tap_node::NodeStatus;

// The word of a kind of link.
pub(crate) fn kind_word(kind: Kind) -> &'static str {
    match kind {
        Kind::Pin => "pin",
        Kind::Settled => "settled",
        Kind::Leaving => "leaving",
    }
}

// The word of a status.
pub(crate) fn status_word(status: NodeStatus) -> &'static str {
    match status {
        NodeStatus::Joining => "joining",
        NodeStatus::Core => "core",
        NodeStatus::Leaving => "leaving",
        NodeStatus::Gone => "gone",
        NodeStatus::Ceased => "ceased",
        NodeStatus::Ended => "ended",
    }
}
