use tap_name::Name;

/// What a node of an overlay starts. A join is started by `Overlay::join`, which adds the node.
///
/// Rule: docs/PROTOCOL.md, "Steps of a node".
#[derive(Clone, Copy, Debug)]
pub enum Start<'a> {
    /// A joining node gives its join up.
    Abandon,
    /// A core node publishes an object.
    Publish {
        /// The object.
        object: Name,
    },
    /// A core node withdraws an object.
    Withdraw {
        /// The object.
        object: Name,
    },
    /// A core node looks an object up.
    Find {
        /// The lookup's number.
        ticket: u32,
        /// The object.
        object: Name,
    },
    /// A core node leaves.
    Leave,
    /// A core node sends a word to the nodes that share so many digits with it.
    Cast {
        /// The cast's number, of which the node has met no cast.
        cast: u32,
        /// So many digits, as many as names have at most.
        level: u8,
        /// The word.
        word: &'a [u8],
    },
}
