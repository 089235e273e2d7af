/// Some slots of one level: those of the digits from one on, and before another.
///
/// Rule: docs/PROTOCOL.md, "Slots and tables".
#[derive(Clone, Copy, Debug, PartialEq, Eq)]
pub struct SlotRange {
    /// The level.
    pub level: u8,
    /// The first digit.
    pub from: u8,
    /// The digit before which the range ends, at most the base.
    pub to: u8,
}
