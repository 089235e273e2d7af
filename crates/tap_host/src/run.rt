ghost use Rattle.std.specs.Prelude.{◌≡◌, [], drop, map, take, None, ◌+◌};
ghost use Rattle.std.specs.String.{string_bytes};
ghost use Rattle.tap_host_line.specs.Words.{node_asked_by};
ghost use Rattle.tap_host.specs.Host.{host_line, host_seen};
ghost use Rattle.tap_host.specs.Run.{HasRunAsked, HasServed};
ghost use Rattle.tap_host.specs.Taking.{IsFirstLine, TakesLine};

use crate::host::{Going, Host};
use crate::lines::Lines;
use crate::memory::NoMemory;
use crate::status::HostStatus;
use std::alloc::Global;
use tap_host_line::{WordsRefusal, read_words};
use tap_io::{Sink, Source};
use tap_report::{Written, write_text};

/// Runs one node: reads the words, then line after line of a source, and writes the lines that each brings to a sink before it takes the next.
/// A line has at most 32,768 bytes before its end. The status says why it ends; if the words are refused, nothing is read or written.
///
/// Rule: docs/NETWORK.md, "The process of a node".
pub fn run_node<S: Source, K: Sink>(
    alloc: Global,
    words: &Vec<String>,
    source: &mut S,
    sink: &mut K,
) -> HostStatus
    ensures { HasRunAsked (node_asked_by (map string_bytes words.now.items)) (S.state source.old) (S.state source.new)
        (K.state sink.old) (K.state sink.new) result }
{
    let asked = match read_words(alloc, words.as_slice()) {
        Ok(asked) => asked,
        Err(WordsRefusal::Usage) => return HostStatus::Usage,
        Err(WordsRefusal::NoMemory) => return HostStatus::NoMemory,
    };
    match Host::joiner(alloc, &asked.settings, asked.name) {
        Ok(host) => run_host(alloc, host, source, sink),
        Err(NoMemory) => HostStatus::NoMemory,
    }
}

// Runs a node that has taken no line.
fn run_host<S: Source, K: Sink>(
    alloc: Global,
    host: Host,
    source: &mut S,
    sink: &mut K,
) -> HostStatus
    ensures { HasServed (host_seen host) (S.state source.old) (S.state source.new) (K.state sink.old) (K.state sink.new) result }
{
    let mut run = Run {
        host,
        lines: Lines::new(alloc),
        out: Vec::new(alloc),
    };
    let status = run.to_end(source, sink);
    // The memory of the node ends with the process, so nothing of it is given back piece by piece.
    std::mem::forget(run);
    status
}

// A node, what was read of its lines, and the lines that the last one brought.
#[derive(Drop)]
pub(crate) struct Run {
    host: Host,
    lines: Lines,
    out: Vec<u8>,
}

impl Run {
    // Takes lines to the end. Lines are numbered in 64 bits, so it ends after 2^64 - 1 of them.
    fn to_end<S: Source, K: Sink>(&mut self, source: &mut S, sink: &mut K) -> HostStatus
        requires { self.old.lines ≡ [] }
        ensures { HasServed (host_seen self.old.host) (S.state source.old) (S.state source.new) (K.state sink.old) (K.state sink.new) result }
    {
        for before in 0..u64::MAX {
            let len = match self.lines.find(source) {
                Ok(len) => len,
                Err(status) => return status,
            };
            if let Some(status) = self.take(len, before + 1, sink) {
                return status;
            }
        }
        HostStatus::NoRoom
    }

    // Takes the first line, of this length, by its number; the status if the run ends.
    fn take<K: Sink>(&mut self, len: usize, number: u64, sink: &mut K) -> Option<HostStatus>
        requires { IsFirstLine self.old.lines len }
        ensures takes { TakesLine (host_line (host_seen self.old.host) number (take len self.old.lines))
            (host_seen self.new.host) (K.state sink.old) (K.state sink.new) result }
        ensures rest { result ≡ None → self.new.lines ≡ drop (len + 1) self.old.lines }
    {
        self.out.clear();
        let line = &self.lines.bytes()[..len];
        let going = match self.host.line(&mut self.out, number, line) {
            Ok(going) => going,
            Err(NoMemory) => return Some(HostStatus::NoMemory),
        };
        self.lines.skip(len + 1);
        match write_text(sink, Written::All, self.out.as_slice()) {
            Written::Failed => Some(HostStatus::WriteFault),
            Written::All => match going {
                Going::On => None,
                Going::Full => Some(HostStatus::NoRoom),
            },
        }
    }
}
