use tap_name::Name;

/// A node to which a cast is sent on.
///
/// Rule: docs/PROTOCOL.md, "Casts".
#[derive(Clone, Copy, Debug, PartialEq, Eq)]
pub struct CastTarget {
    /// The node.
    pub to: Name,
    /// The level at which it is to cast: one more than the number of digits that it shares with the
    /// sender.
    pub level: u8,
}
