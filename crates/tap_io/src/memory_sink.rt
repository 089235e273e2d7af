ghost use Rattle.std.specs.Prelude.{◌≡◌, ◌≤◌, ◌<◌, IfOk, length};
ghost use Rattle.tap_io.specs.Sink.{Writes};
ghost use Rattle.tap_io.specs.MemorySink.{new_sink, sink_state, write_answer, after_write};

use crate::calls::Calls;
use crate::no_memory::NoMemory;
use crate::sink::{Sink, Took};
use std::alloc::Global;
use std::marker::Model;

/// A sink in memory, which takes bytes in pieces, fails at the calls that are named, and fails if it is
/// full.
///
/// Rule: docs/DECISIONS.md, "Sources and sinks".
#[derive(Debug, Drop)]
pub struct MemorySink {
    bytes: Vec<u8>,
    piece: usize,
    room: usize,
    calls: Calls,
}

impl Model for MemorySink {
    ghost use Rattle.std.specs.Prelude.{◌≤◌, vec_len, vec_capacity};
    ghost use Rattle.tap_io.specs.MemorySink.{MemorySinkValue};

    ghost Value = { MemorySinkValue };

    ghost view = { λ s.
        record { held = s.bytes.items; piece = s.piece; room = s.room; calls = s.calls } };

    ghost invariant = { λ s. record {
      within : vec_len s.bytes ≤ s.room;
      reserved : s.room ≤ vec_capacity s.bytes;
      at_least_one : 1 ≤ s.piece;
    } };
}

impl MemorySink {
    /// An empty sink with memory for `room` bytes. A write takes at most `piece` of them, which is at
    /// least 1. The writes whose numbers, counted from 1, are in `fails` are to fail.
    ///
    /// Answers `NoMemory` only if that memory was refused.
    ///
    /// Rule: docs/DECISIONS.md, "Sources and sinks".
    pub fn new(
        alloc: Global,
        piece: usize,
        room: usize,
        fails: &[u32],
    ) -> Result<MemorySink, NoMemory>
        requires { 1 ≤ piece }
        ensures { IfOk result (λ s. s ≡ new_sink piece room fails.now) }
    {
        Ok(MemorySink {
            bytes: Vec::with_capacity(alloc, room)?,
            piece,
            room,
            calls: Calls::new(fails.to_vec(alloc)?),
        })
    }

    /// The bytes that are held.
    ///
    /// Rule: docs/DECISIONS.md, "Sources and sinks".
    pub fn bytes(&self) -> &[u8]
        ensures { result.now ≡ self.now.held }
    {
        &self.bytes
    }
}

impl Sink for MemorySink {
    ghost state = { sink_state };

    /// Fails exactly if the number of this call, counted from 1, is among those that are to fail,
    /// or if the sink is full. Else it takes as many bytes as the least of the piece, the number of
    /// bytes given and the room that is left. It takes no memory.
    fn write(&mut self, bytes: &[u8]) -> Took
        requires { 0 < length bytes.now }
        ensures answer { result ≡ write_answer self.old (length bytes.now) }
        ensures after { self.new ≡ after_write self.old bytes.now result }
        ensures writes { Writes (sink_state self.old) (sink_state self.new) bytes.now result }
    {
        let left = self.room - self.bytes.len();
        let fails = self.calls.is_next_to_fail() || left == 0;
        self.calls.count(fails);
        if fails {
            return Took::Failed;
        }
        let n = self.piece.min(bytes.len()).min(left);
        self.bytes.extend_from_slice(&bytes[..n]).unwrap();
        Took::Took(n)
    }
}
