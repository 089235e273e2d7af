use crate::counted::{CountedSink, CountedSource};
use crate::outcome::{
    Ending, FIRST_READ, Failing, NONE, PRINTED, check_run, end_of, ended_by, push_line, with_line,
};
use std::alloc::Global;
use std::process::Abort;
use tap_io::{MemorySink, MemorySource};
use tap_log::Log;
use tap_scenario::Fault;
use tap_top::{Ended, Status};

// Words that are refused.
const REFUSED: [&[&str]; 7] = [
    &["--nope"],
    &["--help"],
    &["--brief", "--brief"],
    &["--make"],
    &["--make", "0"],
    &["--make", "101"],
    &["--seed", "-1"],
];

const EXIT_CODES: [(Status, u8); 8] = [
    (Status::Done, 0),
    (Status::ReadFault, 1),
    (Status::Usage, 2),
    (Status::TooLong, 3),
    (Status::NotScenario(Fault::BadStep(7)), 3),
    (Status::WriteFault, 4),
    (Status::Spent, 5),
    (Status::NoMemory, 6),
];

// The text of the walk over five members.
fn walk(rt: &impl Abort, alloc: Global) -> String {
    with_line(rt, alloc, 5, "")
}

// The read with this number fails, of the walk's text.
fn check_read(rt: &impl Abort, alloc: Global, text: &[u8], read: u32) {
    let failing = Failing { read, write: 0 };
    // The bytes come in pieces of 16, and one more read finds the end.
    if read as usize <= text.len().div_ceil(16) + 1 {
        let ending = ended_by(Status::ReadFault, 0);
        check_run(
            rt,
            alloc,
            &[],
            text,
            failing,
            ending,
            b"tapestry: read fault\n",
        );
    } else {
        let ending = ended_by(Status::Done, 4);
        check_run(rt, alloc, &[], text, failing, ending, PRINTED.as_bytes());
    }
}

#[test]
fn each_read_fails_once(rt: HostRuntime) {
    let text = walk(&rt, rt.alloc());
    for read in 1..=20 {
        check_read(&rt, rt.alloc(), text.as_bytes(), read);
    }
}

// The write with this number fails, of the walk's text: all text goes out at the end, in pieces of 10. The first write that fails is
// the last one, and what stands is what the writes before it took. The log doesn't depend on the sink.
fn check_write(rt: &impl Abort, alloc: Global, text: &[u8], write: u32) {
    let took = 10 * (write as usize).saturating_sub(1);
    let status = if took < PRINTED.len() {
        Status::WriteFault
    } else {
        Status::Done
    };
    let ending = Ending {
        status,
        before: Status::Done,
        records: 4,
    };
    let written = PRINTED.as_bytes().get(..took).unwrap_or(PRINTED.as_bytes());
    check_run(
        rt,
        alloc,
        &[],
        text,
        Failing { read: 0, write },
        ending,
        written,
    );
}

#[test]
fn each_write_fails_once(rt: HostRuntime) {
    let text = walk(&rt, rt.alloc());
    for write in 1..=20 {
        check_write(&rt, rt.alloc(), text.as_bytes(), write);
    }
}

// The read with this number fails, and the source is called no more.
fn check_last_read(rt: &impl Abort, alloc: Global, text: &[u8], read: u32) {
    let memory = MemorySource::new(alloc, text, 16, &[read]).expect(rt, "memory");
    let mut source = CountedSource::new(memory);
    let mut sink = MemorySink::new(alloc, 10, 65536, &[]).expect(rt, "memory");
    let ended = end_of(rt, alloc, &[], &mut source, &mut sink);
    assert!(rt; ended.before == Status::ReadFault);
    assert!(rt; source.calls() == read);
}

// No read follows one that fails. The bytes come in seven pieces of at most 16, and one more read finds the end.
#[test]
fn a_read_that_fails_is_the_last(rt: HostRuntime) {
    let text = walk(&rt, rt.alloc());
    for read in 1..=8 {
        check_last_read(&rt, rt.alloc(), text.as_bytes(), read);
    }
}

// A scenario of a thousand walks, whose text comes in some 70 bytes for each.
fn walks(rt: &impl Abort, alloc: Global) -> String {
    let mut text = with_line(rt, alloc, 4, "steps = [");
    for _ in 0..1000 {
        push_line(rt, &mut text, "\"walk 123 from 000\",");
    }
    push_line(rt, &mut text, "]");
    text
}

// The write with this number fails, and the sink is called no more, though the run goes on to its end and much text comes after that.
fn check_last_write(rt: &impl Abort, alloc: Global, text: &[u8], write: u32) {
    let mut source = MemorySource::new(alloc, text, 4096, &[]).expect(rt, "memory");
    let memory = MemorySink::new(alloc, 8192, 131_072, &[write]).expect(rt, "memory");
    let mut sink = CountedSink::new(memory);
    let ended = end_of(rt, alloc, &[], &mut source, &mut sink);
    assert!(rt; ended.status == Status::WriteFault);
    assert!(rt; ended.before == Status::Done);
    assert!(rt; sink.calls() == write);
}

// No write follows one that fails.
#[test]
fn a_write_that_fails_is_the_last(rt: HostRuntime) {
    let text = walks(&rt, rt.alloc());
    for write in 1..=5 {
        check_last_write(&rt, rt.alloc(), text.as_bytes(), write);
    }
}

// Whether both have a world, with one log.
fn have_one_log(one: &Ended, other: &Ended) -> bool {
    match (&one.world, &other.world) {
        (Some(one), Some(other)) => is_one_log(one.log(), other.log()),
        _ => false,
    }
}

// Whether both logs have the same records.
fn is_one_log(one: &Log, other: &Log) -> bool {
    one.as_slice() == other.as_slice()
}

// What a run of this text leaves, if so many bytes are written and the write with this number fails.
fn end_after(rt: &impl Abort, alloc: Global, text: &[u8], write: u32, written: usize) -> Ended {
    let mut source = MemorySource::new(alloc, text, 16, &[]).expect(rt, "memory");
    let mut sink = MemorySink::new(alloc, 10, 65536, &[write]).expect(rt, "memory");
    let ended = end_of(rt, alloc, &[], &mut source, &mut sink);
    assert!(rt; sink.bytes().len() == written);
    ended
}

// A sink whose second write fails leaves the log that another one does.
#[test]
fn the_log_does_not_depend_on_the_sink(rt: HostRuntime) {
    let text = walk(&rt, rt.alloc());
    let one = end_after(&rt, rt.alloc(), text.as_bytes(), 0, PRINTED.len());
    let other = end_after(&rt, rt.alloc(), text.as_bytes(), 2, 10);
    assert!(rt; have_one_log(&one, &other));
}

// The source isn't touched: its first read would fail.
fn check_words(rt: &impl Abort, alloc: Global, words: &[&str]) {
    let ending = ended_by(Status::Usage, 0);
    let printed = b"tapestry: usage: tapestry [--brief] [--make N] [--seed S]\n";
    check_run(rt, alloc, words, b"", FIRST_READ, ending, printed);
}

#[test]
fn words_are_refused(rt: HostRuntime) {
    for words in REFUSED.iter() {
        check_words(&rt, rt.alloc(), words);
    }
}

#[test]
fn each_status_has_its_exit_code(rt: HostRuntime) {
    for (status, code) in EXIT_CODES.iter() {
        assert!(rt; status.exit_code() == *code);
    }
}

#[test]
fn a_text_is_refused_and_no_line_is_written(rt: HostRuntime) {
    let failing = Failing { read: 0, write: 1 };
    let ending = Ending {
        status: Status::WriteFault,
        before: Status::NotScenario(Fault::NotToml),
        records: 0,
    };
    check_run(&rt, rt.alloc(), &[], b"base = ", failing, ending, b"");
}
