ghost use Rattle.std.specs.Prelude.{◌≡◌, ◌<◌, length};
ghost use Rattle.tap_io.specs.Adapter.{source_state};
ghost use Rattle.tap_io.specs.Source.{Reads, faults_after};

use crate::source::{Got, Source};
use std::io::Read;
use std::marker::Model;

/// A source over a reader, as standard input. It tells the bytes that its reader tells.
///
/// Each read makes one call of the reader. Every error of the reader is a fault, `Interrupted` too:
/// nothing is tried again within a read, and the caller may read again.
///
/// Rule: docs/DECISIONS.md, "Sources and sinks".
#[derive(Debug, Drop)]
pub struct StdSource<R: Read> {
    inner: R,
    faults: u64,
}

impl<R: Read> Model for StdSource<R> {
    ghost use Rattle.tap_io.specs.Adapter.{Adapter};

    ghost Value = { Adapter R };

    ghost view = { λ s. record { inner = s.inner; faults = s.faults } };
}

impl<R: Read> StdSource<R> {
    /// A source over this reader, with no faults. Hand in a `&mut` to keep the reader.
    ///
    /// Rule: docs/DECISIONS.md, "Sources and sinks".
    pub fn new(inner: R) -> StdSource<R>
        ensures { result ≡ record { inner = inner; faults = 0 } }
    {
        StdSource { inner, faults: 0 }
    }
}

impl<R: Read> Source for StdSource<R> {
    ghost state = { λ s. source_state R.remaining s };

    /// Counts each error of the reader as a fault, and nothing else. A read of no byte is the end.
    fn read(&mut self, into: &mut [u8]) -> Got
        requires { 0 < length into.old }
        ensures reads { Reads (source_state R.remaining self.old) (source_state R.remaining self.new) into.new result }
        ensures counts { self.new.faults ≡ faults_after self.old.faults result }
    {
        match self.inner.read(into) {
            Ok(0) => Got::End,
            Ok(n) => Got::Got(n),
            Err(_) => {
                self.faults = self.faults.saturating_add(1);
                Got::Failed
            }
        }
    }
}
