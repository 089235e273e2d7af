use tap_link::Kind;
use tap_name::{Name, Slot};

/// A link of a table, with its slot.
///
/// Rule: docs/PROTOCOL.md, "Slots and tables".
#[derive(Clone, Copy, Debug, PartialEq, Eq)]
pub struct Row {
    /// The slot in which the link stands.
    pub slot: Slot,
    /// The node that the link names.
    pub target: Name,
    /// What the link is.
    pub kind: Kind,
}
