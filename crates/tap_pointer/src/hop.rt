use tap_name::Name;

/// Where a node lays a pointer on to.
///
/// Rule: docs/PROTOCOL.md, "Pointers".
#[derive(Clone, Copy, Debug, PartialEq, Eq)]
pub struct Hop {
    /// The node.
    pub to: Name,
    /// The level from which that node goes on, from 1 to the number of digits.
    pub level: u8,
}
