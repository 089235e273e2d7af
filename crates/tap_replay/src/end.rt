/// How a run has ended.
///
/// Rule: docs/FORMATS.md, "The ways a run ends".
#[derive(Clone, Copy, Debug, PartialEq, Eq)]
pub enum End {
    /// Every step was run. The log ends with `Finished`.
    Done,
    /// The next group would have sent more frames than may be sent. The log ends with `Spent`.
    Spent,
    /// Memory was refused. The log ends with its beginning or a whole group, or in a carried run within one.
    NoMemory,
}

/// What a turn of a player answers.
///
/// Rule: docs/FORMATS.md, "What comes next".
#[derive(Clone, Copy, Debug, PartialEq, Eq)]
pub enum Turned {
    /// One whole group was added, and a further one comes next.
    More,
    /// The run is over, and has ended so.
    Over(End),
}
