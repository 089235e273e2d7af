use tap_name::Name;

/// A Lay that is to be sent: that a node has laid a pointer at another, or has laid it there no more.
///
/// Rule: docs/PROTOCOL.md, "Pointers".
#[derive(Clone, Copy, Debug, PartialEq, Eq)]
pub struct Lay {
    /// The node to which it is sent.
    pub to: Name,
    /// The object.
    pub object: Name,
    /// The server of the object.
    pub server: Name,
    /// The level from which the receiver looks for its next hop, from 1 to the number of digits.
    pub level: u8,
    /// The number that the sender's stamp gave it.
    pub version: u32,
    /// Whether the pointer is laid there.
    pub on: bool,
}
