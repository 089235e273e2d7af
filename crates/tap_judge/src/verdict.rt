/// What a log is.
///
/// Rule: docs/FORMATS.md, "The judge".
#[derive(Clone, Copy, Debug, PartialEq, Eq)]
pub enum Verdict {
    /// It is lawful: that of a run of a scenario.
    Lawful,
    /// It isn't lawful. So many records, counted from 1, are the fewest of its first ones that begin no lawful log; or the log has one fewer, and
    /// stops within a group.
    Unlawful(u32),
    /// Memory was refused.
    NoMemory,
}
