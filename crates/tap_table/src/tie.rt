use tap_name::Name;

/// A word for another node: that the sender has a link to it, or has it no more.
///
/// Rule: docs/PROTOCOL.md, "Links in both directions".
#[derive(Clone, Copy, Debug, PartialEq, Eq)]
pub struct Tie {
    /// The node that is told.
    pub to: Name,
    /// The number that the sender gave this word. Of two words the one with the greater number is
    /// newer.
    pub version: u32,
    /// Whether there is a link to the node.
    pub on: bool,
}
