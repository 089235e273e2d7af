use crate::texts::{LINE, WHOLE};
use std::alloc::Global;
use std::process::Abort;
use tap_io::{Got, MemorySink, MemorySource, Sink, Source, Took};
use tap_judge::{JudgeStatus, judge_run};

// A source that always has more bytes.
#[derive(Drop)]
struct Endless {}

impl Source for Endless {
    ghost use Rattle.std.specs.Prelude.{None};

    ghost state = { λ endless. record { left = None; faults = 0 } };

    fn read(&mut self, into: &mut [u8]) -> Got {
        Got::Got(into.len())
    }
}

// The next read doesn't fail, and the one after it does.
fn check_next_read(rt: &impl Abort, source: &mut MemorySource) {
    let mut into = [0u8; 1];
    assert!(rt; source.read(&mut into) != Got::Failed);
    assert!(rt; source.read(&mut into) == Got::Failed);
}

// The next write doesn't fail, and the one after it does.
fn check_next_write(rt: &impl Abort, sink: &mut MemorySink) {
    assert!(rt; sink.write(b"!") != Took::Failed);
    assert!(rt; sink.write(b"!") == Took::Failed);
}

// A read that fails ends the reading: the read that comes after it is the test's own. The one after that fails, too.
fn check_failed_read(rt: &impl Abort, alloc: Global, call: u32) {
    let fails = [call, call.saturating_add(2)];
    let mut source = MemorySource::new(alloc, WHOLE.as_bytes(), 16, &fails).expect(rt, "memory");
    let mut sink = MemorySink::new(alloc, 10, 64, &[]).expect(rt, "memory");
    let judged = judge_run(alloc, &Vec::new(alloc), &mut source, &mut sink);
    assert!(rt; judged.status == JudgeStatus::ReadFault, "read {call}");
    assert!(rt;
        sink.bytes() == b"judge: read fault\n".as_slice(),
        "read {call}"
    );
    check_next_read(rt, &mut source);
}

#[test]
fn a_read_that_fails_is_the_last(rt: HostRuntime) {
    // The bytes come in ten pieces, and one more read finds the end.
    for call in 1..=11u32 {
        check_failed_read(&rt, rt.alloc(), call);
    }
}

// A write that fails ends the writing, and so many bytes of the line are written before it.
fn check_failed_write(rt: &impl Abort, alloc: Global, call: u32, count: usize) {
    let fails = [call, call.saturating_add(2)];
    let mut source = MemorySource::new(alloc, WHOLE.as_bytes(), 16, &[]).expect(rt, "memory");
    let mut sink = MemorySink::new(alloc, 4, 64, &fails).expect(rt, "memory");
    let judged = judge_run(alloc, &Vec::new(alloc), &mut source, &mut sink);
    assert!(rt; judged.status == JudgeStatus::WriteFault, "write {call}");
    assert!(rt; judged.before == JudgeStatus::Lawful(4), "write {call}");
    assert!(rt; LINE.as_bytes().starts_with(sink.bytes()), "write {call}");
    assert!(rt; sink.bytes().len() == count, "write {call}");
    check_next_write(rt, &mut sink);
}

#[test]
fn a_write_that_fails_is_the_last(rt: HostRuntime) {
    // The words before the number, the number, and what stands after it come one after the other, in pieces of four.
    let writes = [(1u32, 0usize), (2, 4), (3, 7), (4, 8), (5, 12), (6, 16)];
    for (call, count) in writes.iter() {
        check_failed_write(&rt, rt.alloc(), *call, *count);
    }
}

// A text that never ends is read up to the limit.
fn check_endless(rt: &impl Abort, alloc: Global) {
    let mut source = Endless {};
    let mut sink = MemorySink::new(alloc, 10, 64, &[]).expect(rt, "memory");
    let judged = judge_run(alloc, &Vec::new(alloc), &mut source, &mut sink);
    assert!(rt; judged.status == JudgeStatus::TooLong);
    assert!(rt; sink.bytes() == b"judge: text too long\n".as_slice());
}

// A word is refused, and no byte is read: the first read is the test's own.
fn check_word(rt: &impl Abort, alloc: Global) {
    let mut words = Vec::new(alloc);
    words.push(String::new(alloc)).expect(rt, "memory");
    let mut source = MemorySource::new(alloc, WHOLE.as_bytes(), 16, &[2]).expect(rt, "memory");
    let mut sink = MemorySink::new(alloc, 10, 64, &[]).expect(rt, "memory");
    let judged = judge_run(alloc, &words, &mut source, &mut sink);
    assert!(rt; judged.status == JudgeStatus::Usage);
    assert!(rt; sink.bytes() == b"judge: usage: tapestry_judge\n".as_slice());
    check_next_read(rt, &mut source);
}

#[test]
fn a_text_without_end_and_a_word_are_refused(rt: HostRuntime) {
    check_endless(&rt, rt.alloc());
    check_word(&rt, rt.alloc());
}
