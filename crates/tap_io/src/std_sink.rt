ghost use Rattle.std.specs.Prelude.{◌≡◌, ◌<◌, length};
ghost use Rattle.tap_io.specs.Adapter.{sink_state};
ghost use Rattle.tap_io.specs.Sink.{Writes, faults_after};

use crate::sink::{Sink, Took};
use std::io::Write;
use std::marker::Model;

/// A sink over a writer, as standard output. It tells the bytes that its writer tells.
///
/// Each write makes one call of the writer. Every error of the writer is a fault, `Interrupted` too,
/// and so is a write that takes no byte: nothing is tried again within a write, and the caller may
/// write again. The writer is never flushed, so hand in one that holds nothing back.
///
/// Rule: docs/DECISIONS.md, "Sources and sinks".
#[derive(Debug, Drop)]
pub struct StdSink<W: Write> {
    inner: W,
    faults: u64,
}

impl<W: Write> Model for StdSink<W> {
    ghost use Rattle.tap_io.specs.Adapter.{Adapter};

    ghost Value = { Adapter W };

    ghost view = { λ s. record { inner = s.inner; faults = s.faults } };
}

impl<W: Write> StdSink<W> {
    /// A sink over this writer, with no faults. Hand in a `&mut` to keep the writer.
    ///
    /// Rule: docs/DECISIONS.md, "Sources and sinks".
    pub fn new(inner: W) -> StdSink<W>
        ensures { result ≡ record { inner = inner; faults = 0 } }
    {
        StdSink { inner, faults: 0 }
    }
}

impl<W: Write> Sink for StdSink<W> {
    ghost state = { λ s. sink_state W.contents s };

    /// Counts each error of the writer and each write that takes no byte as a fault, and nothing else.
    fn write(&mut self, bytes: &[u8]) -> Took
        requires { 0 < length bytes.now }
        ensures writes { Writes (sink_state W.contents self.old) (sink_state W.contents self.new) bytes.now result }
        ensures counts { self.new.faults ≡ faults_after self.old.faults result }
    {
        match self.inner.write(bytes) {
            Ok(n) if n > 0 => Took::Took(n),
            _ => {
                self.faults = self.faults.saturating_add(1);
                Took::Failed
            }
        }
    }
}
