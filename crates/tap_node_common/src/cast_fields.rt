use tap_wire::Bytes;

/// What the Casts that a node sends for one copy of a cast say, but for their levels: so one word serves the Casts to many
/// receivers.
///
/// Rule: docs/PROTOCOL.md, "Cast".
#[derive(Debug, Drop)]
pub struct CastFields {
    /// The cast's number, any number.
    pub cast: u32,
    /// The sender's session, from 1.
    pub session: u32,
    /// How many Casts led from the first node to the receiver.
    pub depth: u16,
    /// The word: 1 to 32 lower-case letters and digits.
    pub word: Bytes,
}
