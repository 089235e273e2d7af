ghost use Rattle.std.specs.Prelude.{◌≡◌, ◌≤◌, ◌<◌, IfOk, length};
ghost use Rattle.tap_io.specs.Source.{Reads};
ghost use Rattle.tap_io.specs.MemorySource.{new_source, source_state, read_answer, after_read};

use crate::calls::Calls;
use crate::no_memory::NoMemory;
use crate::source::{Got, Source};
use std::alloc::Global;
use std::marker::Model;

/// Bytes in memory that come in pieces. The reads that are named fail.
///
/// Rule: docs/DECISIONS.md, "Sources and sinks".
#[derive(Debug, Drop)]
pub struct MemorySource {
    bytes: Vec<u8>,
    at: usize,
    piece: usize,
    calls: Calls,
}

impl Model for MemorySource {
    ghost use Rattle.std.specs.Prelude.{◌≤◌, drop, length};
    ghost use Rattle.tap_io.specs.MemorySource.{MemorySourceValue};

    ghost Value = { MemorySourceValue };

    ghost view = { λ s.
        record { left = drop s.at s.bytes.items; piece = s.piece; calls = s.calls } };

    ghost invariant = { λ s. record {
      within : s.at ≤ length s.bytes.items;
      at_least_one : 1 ≤ s.piece;
    } };
}

impl MemorySource {
    /// A source of a copy of these bytes. A read gives at most `piece` of them, which is at least 1.
    /// The reads whose numbers, counted from 1, are in `fails` are to fail.
    ///
    /// Answers `NoMemory` only if memory for the copies was refused.
    ///
    /// Rule: docs/DECISIONS.md, "Sources and sinks".
    pub fn new(
        alloc: Global,
        bytes: &[u8],
        piece: usize,
        fails: &[u32],
    ) -> Result<MemorySource, NoMemory>
        requires { 1 ≤ piece }
        ensures { IfOk result (λ s. s ≡ new_source bytes.now piece fails.now) }
    {
        Ok(MemorySource {
            bytes: bytes.to_vec(alloc)?,
            at: 0,
            piece,
            calls: Calls::new(fails.to_vec(alloc)?),
        })
    }
}

impl Source for MemorySource {
    ghost state = { source_state };

    /// Fails exactly if the number of this call, counted from 1, is among those that are to fail.
    /// Else it gives as many bytes as the least of the piece, the length of the buffer and the number
    /// of bytes left, or answers the end if none are left.
    fn read(&mut self, into: &mut [u8]) -> Got
        requires { 0 < length into.old }
        ensures answer { result ≡ read_answer self.old (length into.old) }
        ensures after { self.new ≡ after_read self.old result }
        ensures reads { Reads (source_state self.old) (source_state self.new) into.new result }
    {
        let fails = self.calls.is_next_to_fail();
        self.calls.count(fails);
        if fails {
            return Got::Failed;
        }
        let left = self.bytes.len() - self.at;
        if left == 0 {
            return Got::End;
        }
        let n = self.piece.min(into.len()).min(left);
        into[..n].copy_from_slice(&self.bytes[self.at..self.at + n]);
        self.at += n;
        Got::Got(n)
    }
}
