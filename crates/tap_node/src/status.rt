/// What a node is.
///
/// Rule: docs/PROTOCOL.md, "Nodes".
#[derive(Clone, Copy, Debug, PartialEq, Eq)]
pub enum NodeStatus {
    /// It joins.
    Joining,
    /// It has joined, and takes full part.
    Core,
    /// It has told its holders that it will go.
    Leaving,
    /// It has left.
    Gone,
    /// It has given up its join.
    Ceased,
    /// Memory was refused in a step, and it takes none any more.
    Ended,
}
