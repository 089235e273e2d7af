ghost use Rattle.std.specs.Prelude.{◌<◌, ◌≡◌, ◌++◌, ◌∷◌, [], All, IsTrue, Some, length};
ghost use Rattle.tap_report.specs.Reporter.{most_records};
ghost use Rattle.tap_report.specs.Text.{IsBegin, IsPrintable, IsPrintableLog, text_of_log};
ghost use Rattle.tap_report.specs.Written.{WritesText};

use std::alloc::Global;
use std::process::Abort;
use tap_io::{MemorySink, Sink};
use tap_log::{LinkLine, Log, Record};
use tap_name::{List, Name, Settings, read_name};
use tap_report::{Mode, Reporter, Written, write_log};
use tap_scenario::Step;
use tap_wire::{WireFault, decode_head};

pub(crate) fn name(rt: &impl Abort, settings: &Settings, text: &str) -> Name {
    read_name(settings, text.as_bytes()).expect(rt, "a name")
}

// The names of these texts.
pub(crate) fn names(
    rt: &impl Abort,
    alloc: Global,
    settings: &Settings,
    texts: &[&str],
) -> List<Name> {
    let mut names = List::new(alloc);
    for text in texts {
        names.push(name(rt, settings, text)).expect(rt, "memory");
    }
    names
}

pub(crate) fn settings(rt: &impl Abort) -> Settings {
    Settings::new(4, 3, 2).expect(rt, "settings")
}

// Whether the digit of each slot is below the base.
fn are_below(base: u8, links: &[LinkLine]) -> bool
    ensures { IsTrue result → All (λ link. link.slot.digit < base) links.now }
{
    for link in links {
        if link.slot.digit >= base {
            return false;
        }
    }
    true
}

// Sees that a record may follow a beginning with these settings.
fn check_follows(rt: &impl Abort, settings: &Settings, item: &Record)
    ensures other { ¬ IsBegin item.now }
    ensures printable { IsPrintable (Some settings.now) item.now }
{
    match item {
        Record::Begin { .. } => rt.abort(),
        Record::Walked { path, .. } => {
            assert!(rt; !path.is_empty());
        }
        Record::Sent { bytes, .. } => {
            assert!(rt; decode_head(settings, bytes.as_slice()).is_ok());
        }
        Record::TableOf { links, .. } => {
            assert!(rt; are_below(settings.base(), links.as_slice()));
        }
        Record::Garbled { fault, .. } => match fault {
            WireFault::NoMemory => rt.abort(),
            _ => {}
        },
        _ => {}
    }
}

// Adds a record to a log, for which there is memory.
fn add(rt: &impl Abort, log: &mut Log, item: Record)
    ensures { log.new.records ≡ log.old.records ++ item ∷ [] }
{
    match log.push(item) {
        Ok(()) => {}
        Err(_) => rt.abort(),
    }
}

// The log of a run: a beginning with these members, and then these records.
pub(crate) fn log_of(
    rt: &impl Abort,
    alloc: Global,
    settings: &Settings,
    members: &[&str],
    rest: Vec<Record>,
) -> Log
    ensures { IsPrintableLog result.records }
{
    let mut log = Log::new(alloc);
    let begin = Record::Begin {
        settings: *settings,
        frames: 200_000,
        members: names(rt, alloc, settings, members),
    };
    add(rt, &mut log, begin);
    for item in rest {
        check_follows(rt, settings, &item);
        add(rt, &mut log, item);
    }
    log
}

// Puts each record of a log, as a run does that is printed while it goes on.
fn put_each<K: Sink>(mode: Mode, log: &Log, sink: &mut K) -> Written
    requires printable { IsPrintableLog log.now.records }
    requires few { length log.now.records < most_records }
    ensures { WritesText (K.state sink.old) (K.state sink.new)
        (text_of_log mode log.now.records) Written.All result }
{
    let mut reporter = Reporter::new(mode);
    let records = log.as_slice();
    for item in records {
        let _ = reporter.put(item, sink);
    }
    reporter.finish(sink)
}

// Puts the records of a log together.
fn put_together<K: Sink>(mode: Mode, log: &Log, sink: &mut K) -> Written
    requires printable { IsPrintableLog log.now.records }
    requires few { length log.now.records < most_records }
    ensures { WritesText (K.state sink.old) (K.state sink.new)
        (text_of_log mode log.now.records) Written.All result }
{
    let mut reporter = Reporter::new(mode);
    let _ = reporter.put_all(log.as_slice(), sink);
    reporter.finish(sink)
}

// Prints a log at once, to a sink whose writes of these numbers fail.
fn check_at_once(
    rt: &impl Abort,
    alloc: Global,
    mode: Mode,
    log: &Log,
    fails: &[u32],
    answer: Written,
    text: &str,
)
    requires printable { IsPrintableLog log.now.records }
    requires few { length log.now.records < most_records }
{
    let mut sink = MemorySink::new(alloc, 10, 2000, fails).expect(rt, "memory");
    assert!(rt; write_log(mode, log, &mut sink) == answer, "{text}");
    assert!(rt; sink.bytes() == text.as_bytes(), "{text}");
}

// Prints a log record by record.
fn check_each(
    rt: &impl Abort,
    alloc: Global,
    mode: Mode,
    log: &Log,
    fails: &[u32],
    answer: Written,
    text: &str,
)
    requires printable { IsPrintableLog log.now.records }
    requires few { length log.now.records < most_records }
{
    let mut sink = MemorySink::new(alloc, 10, 2000, fails).expect(rt, "memory");
    assert!(rt; put_each(mode, log, &mut sink) == answer, "{text}");
    assert!(rt; sink.bytes() == text.as_bytes(), "{text}");
}

// Prints all records of a log together.
fn check_together(
    rt: &impl Abort,
    alloc: Global,
    mode: Mode,
    log: &Log,
    fails: &[u32],
    answer: Written,
    text: &str,
)
    requires printable { IsPrintableLog log.now.records }
    requires few { length log.now.records < most_records }
{
    let mut sink = MemorySink::new(alloc, 10, 2000, fails).expect(rt, "memory");
    assert!(rt; put_together(mode, log, &mut sink) == answer, "{text}");
    assert!(rt; sink.bytes() == text.as_bytes(), "{text}");
}

// Prints a log at once, record by record, and all records together, to sinks whose writes of these numbers fail.
pub(crate) fn check_text(
    rt: &impl Abort,
    alloc: Global,
    mode: Mode,
    log: &Log,
    fails: &[u32],
    answer: Written,
    text: &str,
)
    requires { IsPrintableLog log.now.records }
{
    assert!(rt; log.len() < 100);
    check_at_once(rt, alloc, mode, log, fails, answer, text);
    check_each(rt, alloc, mode, log, fails, answer, text);
    check_together(rt, alloc, mode, log, fails, answer, text);
}

// Prints a log in each mode: these are its long text, its brief one and its summary.
pub(crate) fn check_modes(rt: &impl Abort, alloc: Global, log: &Log, texts: [&str; 3])
    requires { IsPrintableLog log.now.records }
{
    let [long, brief, summary] = texts;
    check_text(rt, alloc, Mode::Long, log, &[], Written::All, long);
    check_text(rt, alloc, Mode::Brief, log, &[], Written::All, brief);
    check_text(rt, alloc, Mode::Summary, log, &[], Written::All, summary);
}

// Prints these records after a beginning with no member, in each mode. The texts are the lines that the brief text leaves
// out, which stand first, those that it has, and the summary.
pub(crate) fn check_records(
    rt: &impl Abort,
    alloc: Global,
    settings: &Settings,
    rest: Vec<Record>,
    texts: [&str; 3],
) {
    let log = log_of(rt, alloc, settings, &[], rest);
    let [detail, lines, summary] = texts;
    let begin = "begin base 4 digits 3 width 2 frames 200000\n";
    let long = format!(in alloc; "{begin}{detail}{lines}").expect(rt, "memory");
    let brief = format!(in alloc; "{begin}{lines}").expect(rt, "memory");
    check_modes(rt, alloc, &log, [long.as_str(), brief.as_str(), summary]);
}

// Prints one record after a beginning.
pub(crate) fn check_line(
    rt: &impl Abort,
    alloc: Global,
    settings: &Settings,
    item: Record,
    line: &str,
) {
    let rest = vec![in alloc; item].expect(rt, "memory");
    let log = log_of(rt, alloc, settings, &[], rest);
    let text = format!(in alloc; "begin base 4 digits 3 width 2 frames 200000\n{line}\n").expect(
        rt, "memory",
    );
    check_text(
        rt,
        alloc,
        Mode::Long,
        &log,
        &[],
        Written::All,
        text.as_str(),
    );
}

pub(crate) fn step(index: u32, step: Step) -> Record {
    Record::Step { index, step }
}

pub(crate) fn taken(number: u32) -> Record {
    Record::Taken { number }
}

pub(crate) fn arrived(packet: u32) -> Record {
    Record::Arrived { packet }
}

// A packet with this frame.
pub(crate) fn data(number: u32, frame: u32) -> Record {
    Record::Packet {
        number,
        frame,
        ack: false,
    }
}

// A packet with the acknowledgement of this frame.
pub(crate) fn ack(number: u32, frame: u32) -> Record {
    Record::Packet {
        number,
        frame,
        ack: true,
    }
}
