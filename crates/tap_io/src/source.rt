ghost use Rattle.std.specs.Prelude.{◌<◌, length};
ghost use Rattle.tap_io.specs.Source.{Reads, SourceState};

/// What a read answers.
///
/// Rule: docs/DECISIONS.md, "Sources and sinks".
#[derive(Clone, Copy, Debug, PartialEq, Eq)]
pub enum Got {
    /// So many bytes came, at least 1. They stand at the front of the buffer.
    Got(usize),

    /// No byte is left.
    End,

    /// The read failed, and the bytes stay. It may be tried again.
    Failed,
}

/// Bytes that come in pieces.
///
/// Rule: docs/DECISIONS.md, "Sources and sinks".
pub trait Source {
    /// The bytes that are left, or `None` if the source doesn't tell them, and how many faults there were. That
    /// count never falls, and stands still at the greatest `u64`.
    ghost state: { Self → SourceState };

    /// Reads at least one byte, and no more than the buffer holds, into the front of the buffer,
    /// which isn't empty.
    ///
    /// If the source tells its bytes, those that come are the next ones, and the answer is `End`
    /// exactly if none are left and the call doesn't fail. A read that fails adds one to the count of
    /// faults, and then the bytes stay; else that count stays. What the buffer holds
    /// after the bytes that came is left open.
    fn read(&mut self, into: &mut [u8]) -> Got
        requires { 0 < length into.old }
        ensures { Reads (state self.old) (state self.new) into.new result };
}
