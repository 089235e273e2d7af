use std::alloc::Global;
use std::process::Abort;
use tap_host::{HostStatus, run_node};
use tap_io::{MemorySink, MemorySource};

/// The words of the node 00.
pub(crate) const WORDS: [&str; 8] = [
    "--base", "2", "--digits", "2", "--width", "1", "--name", "00",
];

/// The calls of a source and of a sink that fail, by their numbers, from 1.
#[derive(Clone, Copy)]
pub(crate) struct Failing {
    pub(crate) read: u32,
    pub(crate) write: u32,
}

/// No call fails.
pub(crate) const NONE: Failing = Failing { read: 0, write: 0 };

/// How a run ends, and what is then written.
#[derive(Clone, Copy)]
pub(crate) struct Ending {
    pub(crate) status: HostStatus,
    pub(crate) output: &'static str,
}

// These words, as a command line has them.
fn owned(rt: &impl Abort, alloc: Global, words: &[&str]) -> Vec<String> {
    let mut texts = Vec::new(alloc);
    for word in words {
        let text = String::from_str(alloc, word).expect(rt, "memory");
        texts.push(text).expect(rt, "memory");
    }
    texts
}

/// A run with these words over this input ends so. It is read in pieces of 16 bytes and written in pieces of 10.
pub(crate) fn check_run(
    rt: &impl Abort,
    alloc: Global,
    words: &[&str],
    input: &[u8],
    failing: Failing,
    ending: Ending,
) {
    let words = owned(rt, alloc, words);
    let mut source = MemorySource::new(alloc, input, 16, &[failing.read]).expect(rt, "memory");
    let mut sink = MemorySink::new(alloc, 10, 256, &[failing.write]).expect(rt, "memory");
    let status = run_node(alloc, &words, &mut source, &mut sink);
    assert!(rt; status == ending.status);
    assert!(rt; sink.bytes() == ending.output.as_bytes());
}
