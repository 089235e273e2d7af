ghost use Rattle.std.specs.Prelude.{◌≡◌, ◌≤◌, ◌<◌, ◌-◌, [], drop, length, vec_len, vec_capacity};
ghost use Rattle.tap_io.specs.BufferedSink.{Flushes, WritesFirst, buffered_state};
ghost use Rattle.tap_io.specs.Sink.{Writes};

use crate::sink::{Sink, Took};

/// What a flush answers.
///
/// Rule: docs/DECISIONS.md, "Sources and sinks".
#[derive(Clone, Copy, Debug, PartialEq, Eq)]
pub enum Flushed {
    /// No byte waits.
    All,

    /// A write failed. The bytes that it didn't take wait, and the flush may be tried again.
    Failed,
}

/// A sink over a borrowed one, which gathers what it is given and passes it on in large pieces.
///
/// Bytes wait until there is no room for the next ones, or until [`flush`](BufferedSink::flush). It tells that it holds
/// what the sink behind it does, and after that the bytes that wait. Its faults are those of the sink behind it. It takes
/// no memory. **Dropping it doesn't flush**: bytes that still wait are then lost.
///
/// Rule: docs/DECISIONS.md, "Sources and sinks".
#[derive(Drop)]
pub struct BufferedSink<'a, K> {
    inner: &'a mut K,
    waiting: Vec<u8>,
}

impl<'a, K: Sink> BufferedSink<'a, K> {
    /// Nothing waits. The room is the capacity of this vector, whose items are dropped.
    ///
    /// Rule: docs/DECISIONS.md, "Sources and sinks".
    pub fn new(inner: &'a mut K, mut room: Vec<u8>) -> BufferedSink<'a, K>
        ensures same_reference { result.inner.ghost_name ≡ inner.entry.ghost_name }
        ensures value { result.inner.now ≡ inner.old }
        ensures empty { result.waiting.items ≡ [] }
    {
        room.clear();
        BufferedSink {
            inner,
            waiting: room,
        }
    }

    /// Passes on the bytes that wait. After `All` none waits; after `Failed` the sink behind it holds a first part of them,
    /// and the rest waits. Nothing is written after a failure.
    ///
    /// Rule: docs/DECISIONS.md, "Sources and sinks".
    pub fn flush(&mut self) -> Flushed
        ensures same_reference { self.new.inner.ghost_name ≡ self.old.inner.ghost_name }
        ensures flushes { Flushes (K.state self.old.inner.now) (K.state self.new.inner.now)
            self.old.waiting.items self.new.waiting.items result }
        ensures room { vec_capacity self.new.waiting ≡ vec_capacity self.old.waiting }
    {
        let count = write_first(self.inner, &self.waiting);
        if count == self.waiting.len() {
            self.waiting.clear();
            Flushed::All
        } else {
            remove_first(&mut self.waiting, count);
            Flushed::Failed
        }
    }

    /// The sink behind it. Bytes that still wait are lost.
    ///
    /// Rule: docs/DECISIONS.md, "Sources and sinks".
    pub fn into_inner(self) -> &'a mut K
        ensures same_reference { result.ghost_name ≡ self.entry.inner.ghost_name }
        ensures value { result.now ≡ self.entry.inner.now }
    {
        self.inner
    }

    // Takes bytes for which there is no room before a flush. More than all room are handed on at once.
    #[inline(never)]
    fn write_after_flush(&mut self, bytes: &[u8]) -> Took
        requires { 0 < length bytes.now }
        ensures { Writes (buffered_state K.state self.old) (buffered_state K.state self.new) bytes.now result }
    {
        match self.flush() {
            Flushed::Failed => return Took::Failed,
            Flushed::All => {}
        }
        if bytes.len() > self.waiting.capacity() {
            return self.inner.write(bytes);
        }
        self.waiting.extend_from_slice(bytes).unwrap();
        Took::Took(bytes.len())
    }
}

impl<K: Sink> Sink for BufferedSink<'_, K> {
    ghost state = { buffered_state K.state };

    /// Takes all bytes, if they are no more than the room, and fails only if a flush does.
    fn write(&mut self, bytes: &[u8]) -> Took {
        if bytes.len() > self.waiting.capacity() - self.waiting.len() {
            return self.write_after_flush(bytes);
        }
        self.waiting.extend_from_slice(bytes).unwrap();
        Took::Took(bytes.len())
    }
}

// Writes bytes until all are written or a write fails, and answers how many were.
fn write_first<K: Sink>(sink: &mut K, bytes: &[u8]) -> usize
    ensures { WritesFirst (K.state sink.old) (K.state sink.new) bytes.now result }
{
    let mut count = 0;
    while count < bytes.len() {
        match sink.write(&bytes[count..]) {
            Took::Took(n) => count += n,
            Took::Failed => return count,
        }
    }
    count
}

// Removes the first bytes of a vector.
fn remove_first(bytes: &mut Vec<u8>, count: usize)
    requires { count ≤ vec_len bytes.old }
    ensures items { bytes.new.items ≡ drop count bytes.old.items }
    ensures room { vec_capacity bytes.new ≡ vec_capacity bytes.old }
{
    let len = bytes.len();
    bytes.as_mut_slice().copy_within(count..len, 0);
    bytes.truncate(len - count);
}
