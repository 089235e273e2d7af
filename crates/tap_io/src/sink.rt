ghost use Rattle.std.specs.Prelude.{◌<◌, length};
ghost use Rattle.tap_io.specs.Sink.{SinkState, Writes};

/// What a write answers.
///
/// Rule: docs/DECISIONS.md, "Sources and sinks".
#[derive(Clone, Copy, Debug, PartialEq, Eq)]
pub enum Took {
    /// So many bytes were taken from the front of what was given, at least 1.
    Took(usize),

    /// The write failed, and no byte was taken. It may be tried again.
    Failed,
}

/// A taker of bytes, in pieces.
///
/// Rule: docs/DECISIONS.md, "Sources and sinks".
pub trait Sink {
    /// The bytes that are held, or `None` if the sink doesn't tell them; how many faults there were, a count that never
    /// falls and stands still at the greatest `u64`; and, if the sink writes to others, these and what they hold.
    ghost state: { Self → SinkState };

    /// Takes at least one of the bytes, which aren't empty, from their front.
    ///
    /// If the sink tells its bytes, those that it took are appended to them, and the count of faults stays. A write
    /// fails only if that count rises in this call, and then nothing is appended.
    fn write(&mut self, bytes: &[u8]) -> Took
        requires { 0 < length bytes.now }
        ensures { Writes (state self.old) (state self.new) bytes.now result };
}
