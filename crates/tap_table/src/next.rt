use tap_name::Name;

/// Where a message towards an object goes next.
///
/// Rule: docs/PROTOCOL.md, "Next hops".
#[derive(Clone, Copy, Debug, PartialEq, Eq)]
pub enum Next {
    /// It stays: the owner of the table is the object's root.
    Root,
    /// It goes to another node.
    Hop {
        /// The node.
        to: Name,
        /// The level from which that node goes on, from 1 to the number of digits.
        level: u8,
    },
}
