use std::alloc::Global;
use std::process::Abort;
use tap_io::{MemorySink, MemorySource, Sink, Source};
use tap_top::{Ended, Status, run};

/// A scenario of one walk over five members, line by line.
pub(crate) const LINES: [&str; 5] = [
    "base = 4",
    "digits = 3",
    "width = 2",
    "members = [\"000\", \"012\", \"230\", \"233\", \"301\"]",
    "steps = [\"walk 123 from 000\"]",
];

/// What its run prints.
pub(crate) const PRINTED: &str = "begin base 4 digits 3 width 2 frames 200000
member 000
member 012
member 230
member 233
member 301
step 1 walk 123 from 000
walked 123 from 000 path 000 230 233 root 233 hops 2
done 1
";

/// The calls of a source and of a sink that fail, by their numbers, from 1.
#[derive(Clone, Copy)]
pub(crate) struct Failing {
    pub(crate) read: u32,
    pub(crate) write: u32,
}

/// No call fails.
pub(crate) const NONE: Failing = Failing { read: 0, write: 0 };

/// The first read fails.
pub(crate) const FIRST_READ: Failing = Failing { read: 1, write: 0 };

/// How a run ends, with regard to writing and without, and how many records the log of its world has, none if no world is left.
#[derive(Clone, Copy)]
pub(crate) struct Ending {
    pub(crate) status: Status,
    pub(crate) before: Status,
    pub(crate) records: usize,
}

/// A run ends so whose writing doesn't fail.
pub(crate) fn ended_by(status: Status, records: usize) -> Ending {
    Ending {
        status,
        before: status,
        records,
    }
}

/// Adds a line.
pub(crate) fn push_line(rt: &impl Abort, text: &mut String, line: &str) {
    text.push_str(line).expect(rt, "memory");
    text.push_str("\n").expect(rt, "memory");
}

/// The text of that scenario with another line at a place, or as it is if the place is after the last line.
pub(crate) fn with_line(rt: &impl Abort, alloc: Global, place: usize, line: &str) -> String {
    let mut text = String::new(alloc);
    for (i, own) in LINES.iter().enumerate() {
        push_line(rt, &mut text, if i == place { line } else { own });
    }
    text
}

// These words, as a command line has them.
fn owned(rt: &impl Abort, alloc: Global, words: &[&str]) -> Vec<String> {
    let mut texts = Vec::new(alloc);
    for word in words {
        let text = String::from_str(alloc, word).expect(rt, "memory");
        texts.push(text).expect(rt, "memory");
    }
    texts
}

/// What a run with these words leaves.
pub(crate) fn end_of<S: Source, K: Sink>(
    rt: &impl Abort,
    alloc: Global,
    words: &[&str],
    source: &mut S,
    sink: &mut K,
) -> Ended {
    let words = owned(rt, alloc, words);
    run(alloc, &words, source, sink)
}

// How many records the log of the world that is left has; none if no world is.
fn record_count(ended: &Ended) -> usize {
    match &ended.world {
        Some(world) => world.log().len(),
        None => 0,
    }
}

// Checks how a run has ended.
fn check_ending(rt: &impl Abort, ended: &Ended, ending: Ending) {
    assert!(rt; ended.status == ending.status);
    assert!(rt; ended.before == ending.before);
    assert!(rt; record_count(ended) == ending.records);
}

/// A run with these words over this text ends so, and writes this. It is read in pieces of 16 bytes and written in pieces of 10.
pub(crate) fn check_run(
    rt: &impl Abort,
    alloc: Global,
    words: &[&str],
    text: &[u8],
    failing: Failing,
    ending: Ending,
    written: &[u8],
) {
    let mut source = MemorySource::new(alloc, text, 16, &[failing.read]).expect(rt, "memory");
    let mut sink = MemorySink::new(alloc, 10, 65536, &[failing.write]).expect(rt, "memory");
    let ended = end_of(rt, alloc, words, &mut source, &mut sink);
    check_ending(rt, &ended, ending);
    assert!(rt; sink.bytes() == written);
}
