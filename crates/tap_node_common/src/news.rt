use tap_name::Name;

/// What a step is noted for, beside the frames that it sends.
///
/// Rule: docs/PROTOCOL.md, "Steps of a node".
#[derive(Clone, Copy, Debug, PartialEq, Eq)]
pub enum News {
    /// Nothing.
    Nothing,
    /// The node is core now.
    Core,
    /// The node is gone: it has left, or has ceased.
    Gone,
    /// A lookup is answered.
    Answered {
        /// The lookup's number.
        ticket: u32,
        /// A server of the object, if one is known.
        server: Option<Name>,
    },
    /// A cast has reached the node, or is closed, or both.
    Cast {
        /// The cast's number.
        cast: u32,
        /// Whether this is the first copy that the node has met.
        reached: bool,
        /// Whether the cast ended at the node that began it: the last answer came, or nobody was to be
        /// asked.
        closed: bool,
    },
}
