use tap_name::Name;

/// A node that is told of a joiner.
///
/// Rule: docs/PROTOCOL.md, "Covers".
#[derive(Clone, Copy, Debug, PartialEq, Eq)]
pub struct Target {
    /// The node.
    pub to: Name,
    /// The level at which it is to cover the joiner: one more than the number of digits that it shares
    /// with the sender.
    pub level: u8,
}
