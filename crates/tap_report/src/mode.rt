/// What is printed of a log.
///
/// Rule: docs/FORMATS.md, "The printed text".
#[derive(Clone, Copy, Debug, PartialEq, Eq)]
pub enum Mode {
    /// All lines.
    Long,
    /// All but those of members, steps, frames that are sent or taken, packets that are made, arrive or are lost, and
    /// ticks.
    Brief,
    /// Four numbers alone.
    Summary,
}
