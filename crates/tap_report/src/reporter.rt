ghost use Rattle.std.specs.Prelude.{◌≡◌, ◌<◌, ◌≤◌, ◌+◌, ◌-◌, ◌↔◌, IsNone, IsTrue, fold, length};
ghost use Rattle.tap_report.specs.Printer.{Prints};
ghost use Rattle.tap_report.specs.declared.mode.Mode.TheVariants.{Long};
ghost use Rattle.tap_report.specs.Reporter.{Finishes, PutsAll, PutsRecord, PutsWriteTheText, kept_after, most_records, new_reporter, settings_after};
ghost use Rattle.tap_report.specs.Tally.{CountsWithin};
ghost use Rattle.tap_report.specs.Text.{ArePrintable, BeginsAfter, IsBegin, IsPrintable, IsPrintableLog, text_of_log, texts_after};
ghost use Rattle.tap_report.specs.Written.{WritesText};

use crate::mode::Mode;
use crate::printer::Printer;
use crate::tally::Tally;
use crate::written::Written;
use std::marker::Model;
use tap_io::Sink;
use tap_log::{Log, Record};
use tap_name::Settings;

/// How many records may be put to one reporter, which counts them.
///
/// Rule: docs/PROTOCOL.md, "Limits".
pub const MOST_RECORDS: u32 = 4_000_000_000;

/// Writes the text of a run, record by record.
///
/// Contracts see what it keeps: the mode, the settings of the `Begin` that was put, how many records were put, what the
/// summary is made from, if the mode has one, and whether all was written. It takes no memory.
///
/// Rule: docs/FORMATS.md, "The printed text".
#[derive(Debug, Drop)]
pub struct Reporter {
    mode: Mode,
    settings: Option<Settings>,
    records: u32,
    tally: Tally,
    printer: Printer,
}

impl Model for Reporter {
    ghost use Rattle.std.specs.Prelude.{◌≤◌};
    ghost use Rattle.tap_report.specs.Reporter.{ReporterIsKept, ReporterValue};

    ghost Value = { ReporterValue };

    ghost view = { λ r. record { mode = r.mode; settings = r.settings; records = r.records; tally = r.tally; so_far = r.printer.so_far } };

    ghost invariant = { λ r. ReporterIsKept r.records r.tally r.printer };
}

impl Reporter {
    /// A reporter to which nothing was put.
    pub fn new(mode: Mode) -> Reporter
        ensures { result ≡ new_reporter mode }
    {
        Reporter {
            mode,
            settings: None,
            records: 0,
            tally: Tally::new(),
            printer: Printer::new(),
        }
    }

    /// Whether as many records were put as may be, which are [`MOST_RECORDS`].
    pub fn is_full(&self) -> bool
        ensures { IsTrue result ↔ (most_records ≤ self.now.records) }
    {
        self.records >= MOST_RECORDS
    }

    /// Writes the text of one record. The first record, and no other one, is a `Begin`, and fewer than [`MOST_RECORDS`]
    /// were put. The path of a walk isn't empty, the digit of each slot is below the base, the head of a frame is read
    /// with the settings of the `Begin`, and want of memory isn't the fault of a damaged copy.
    ///
    /// The first `Failed` comes only if the sink counted a fault in this call, and some first bytes of the text are
    /// then written. After it each call answers `Failed` and writes nothing. A record that isn't written counts as put.
    pub fn put<K: Sink>(&mut self, item: &Record, sink: &mut K) -> Written
        requires begins { IsBegin item.now ↔ IsNone self.old.settings }
        requires printable { IsPrintable self.old.settings item.now }
        requires few { self.old.records < most_records }
        ensures { PutsRecord self.old self.new item.now (K.state sink.old) (K.state sink.new) result }
    {
        self.printer
            .add_record(sink, self.mode, &self.settings, item);
        let written = self.printer.flush(sink);
        keep_settings(&mut self.settings, item);
        keep_for_summary(&mut self.tally, self.mode, item);
        self.records += 1;
        written
    }

    /// Writes the texts of several records together, as the puts of them would one after another. The first record of all, and no
    /// other one, is a `Begin`; each record is as [`Reporter::put`] wants it; and no more than [`MOST_RECORDS`] are put in all.
    ///
    /// The first `Failed` comes only if the sink counted a fault in this call, and some first bytes of the texts are then
    /// written. A record that isn't written counts as put.
    ///
    /// Rule: docs/FORMATS.md, "The printed text".
    pub fn put_all<K: Sink>(&mut self, items: &[Record], sink: &mut K) -> Written
        requires begins { BeginsAfter self.old.settings items.now }
        requires printable { ArePrintable self.old.settings items.now }
        requires few { self.old.records + length items.now ≤ most_records }
        ensures { PutsAll self.old self.new items.now (K.state sink.old) (K.state sink.new) result }
    {
        print_each(
            &mut self.printer,
            &mut self.settings,
            &mut self.tally,
            self.mode,
            items,
            sink,
        );
        self.records += items.len() as u32;
        self.printer.flush(sink)
    }

    /// Ends the text. In the mode Summary the summary follows the last record, if a `Begin` was put, and in the
    /// other modes nothing does. The answer says whether all was written.
    pub fn finish<K: Sink>(&mut self, sink: &mut K) -> Written
        ensures { Finishes self.old self.new (K.state sink.old) (K.state sink.new) result }
    {
        self.printer
            .add_ending(sink, self.mode, &self.settings, &self.tally);
        self.printer.flush(sink)
    }
}

// Keeps the settings of a record, if it is a `Begin`.
fn keep_settings(kept: &mut Option<Settings>, item: &Record)
    ensures { kept.new ≡ settings_after kept.old item.now }
{
    match item {
        Record::Begin { settings, .. } => *kept = Some(*settings),
        _ => {}
    }
}

// Prints records, one after another, and keeps what is kept of them.
fn print_each<K: Sink>(
    printer: &mut Printer,
    settings: &mut Option<Settings>,
    tally: &mut Tally,
    mode: Mode,
    items: &[Record],
    sink: &mut K,
)
    requires printable { ArePrintable settings.old items.now }
    requires counts { CountsWithin (u64.MAX - length items.now) tally.old }
    ensures text { Prints (K.state sink.old) (K.state sink.new) (texts_after mode settings.old items.now) printer.old printer.new }
    ensures settings { settings.new ≡ fold settings_after settings.old items.now }
    ensures tally { tally.new ≡ fold (kept_after mode) tally.old items.now }
{
    if let Mode::Long = mode {
        print_lines(printer, settings, items, sink);
        return;
    }
    for item in items {
        printer.add_record(sink, mode, settings, item);
        keep_settings(settings, item);
        keep_for_summary(tally, mode, item);
    }
}

// Prints the lines of records in the long mode, of which nothing is kept for the summary.
fn print_lines<K: Sink>(
    printer: &mut Printer,
    settings: &mut Option<Settings>,
    items: &[Record],
    sink: &mut K,
)
    requires { ArePrintable settings.old items.now }
    ensures text { Prints (K.state sink.old) (K.state sink.new) (texts_after Long settings.old items.now) printer.old printer.new }
    ensures settings { settings.new ≡ fold settings_after settings.old items.now }
{
    for item in items {
        printer.add_lines(sink, settings, item);
        keep_settings(settings, item);
    }
}

// Keeps one record more for the summary, if the mode has one.
fn keep_for_summary(tally: &mut Tally, mode: Mode, item: &Record)
    requires { CountsWithin (u64.MAX - 1) tally.old }
    ensures { tally.new ≡ kept_after mode tally.old item.now }
{
    match mode {
        Mode::Long | Mode::Brief => {}
        Mode::Summary => tally.add(item),
    }
}

/// Writes the text of a log, as the puts of its records and a finish do. Takes no memory.
///
/// The log is empty, or its first record is its only `Begin`. Each record is as [`Reporter::put`] wants it. `Failed`
/// comes only if the sink counted a fault in this call, and some first bytes of the text are then written.
///
/// Rule: docs/FORMATS.md, "The printed text".
pub fn write_log<K: Sink>(mode: Mode, log: &Log, sink: &mut K) -> Written
    requires { IsPrintableLog log.now.records }
    ensures { WritesText (K.state sink.old) (K.state sink.new)
        (text_of_log mode log.now.records) Written.All result }
{
    let mut printer = Printer::new();
    let mut settings = None;
    let mut tally = Tally::new();
    print_each(
        &mut printer,
        &mut settings,
        &mut tally,
        mode,
        log.as_slice(),
        sink,
    );
    printer.add_ending(sink, mode, &settings, &tally);
    printer.flush(sink)
}

/// A law that runs nothing: the puts of a log's records to a new reporter, and then a finish, write the text of the log.
///
/// Rule: docs/FORMATS.md, "The printed text".
pub fn puts_write_the_text()
    ensures { PutsWriteTheText }
{}
