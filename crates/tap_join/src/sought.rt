use tap_name::Name;

/// What a core node does with a joining node that seeks its place.
///
/// Rule: docs/PROTOCOL.md, "Joining".
#[derive(Clone, Copy, Debug, PartialEq, Eq)]
pub enum Sought {
    /// It sends the seeker on to this node.
    Forward(Name),
    /// It is the seeker's surrogate, and shares this many digits with it.
    Surrogate(u8),
}
