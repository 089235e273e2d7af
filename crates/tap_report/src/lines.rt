ghost use Rattle.std.specs.Prelude.{◌≡◌, ◌++◌, true, false};
ghost use Rattle.tap_report.specs.Lookups.{is_lookup};
ghost use Rattle.tap_report.specs.Printer.{Prints};
ghost use Rattle.tap_report.specs.declared.mode.Mode.TheVariants.{Brief, Long, Summary};
ghost use Rattle.tap_report.specs.Shapes.{line};
ghost use Rattle.tap_report.specs.Summary.{ending, summary_text};
ghost use Rattle.tap_report.specs.Tally.{numbers_in};
ghost use Rattle.tap_report.specs.Text.{IsPrintable, further_lines, is_in_brief, line_of, text_of_record};

use crate::lookups::is_lookup;
use crate::mode::Mode;
use crate::printer::Printer;
use crate::tally::Tally;
use itoa::Integer;
use tap_io::Sink;
use tap_log::Record;
use tap_name::Settings;

// The lines of records, and the summary.
impl Printer {
    // Adds the text of a record, after a `Begin` with these settings.
    pub(crate) fn add_record<K: Sink>(
        &mut self,
        sink: &mut K,
        mode: Mode,
        settings: &Option<Settings>,
        item: &Record,
    )
        requires { IsPrintable settings.now item.now }
        ensures { Prints (K.state sink.old) (K.state sink.new)
            (text_of_record mode settings.now item.now) self.old self.new }
    {
        match mode {
            Mode::Long => self.add_lines(sink, settings, item),
            Mode::Brief => self.add_in_brief(sink, settings, item),
            Mode::Summary => {}
        }
    }

    // Adds the lines of a record. One that the brief text leaves out has one line alone.
    pub(crate) fn add_lines<K: Sink>(
        &mut self,
        sink: &mut K,
        settings: &Option<Settings>,
        item: &Record,
    )
        requires { IsPrintable settings.now item.now }
        ensures { Prints (K.state sink.old) (K.state sink.new)
            (text_of_record Long settings.now item.now) self.old self.new }
    {
        match item {
            Record::Step { index, step } => self.add_step(sink, *index, step),
            Record::Sent { number, bytes } => self.add_sent(
                sink,
                settings,
                *number,
                bytes.as_slice(),
            ),
            Record::Taken { number } => self.add_taken(sink, *number),
            Record::Packet { number, frame, ack } => self.add_packet(sink, *number, *frame, *ack),
            Record::Arrived { packet } => self.add_arrived(sink, *packet),
            Record::Ticked => self.add_ticked(sink),
            Record::Lost { packet } => self.add_lost(sink, *packet),
            _ => self.add_brief_lines(sink, Mode::Long, settings, item),
        }
    }

    // Adds the lines of a record in the brief text, if it has them.
    fn add_in_brief<K: Sink>(&mut self, sink: &mut K, settings: &Option<Settings>, item: &Record)
        requires { IsPrintable settings.now item.now }
        ensures { Prints (K.state sink.old) (K.state sink.new)
            (text_of_record Brief settings.now item.now) self.old self.new }
    {
        if is_in_brief(item) {
            self.add_brief_lines(sink, Mode::Brief, settings, item);
        }
    }

    // Adds the lines of a record that the brief text has too.
    #[inline(never)]
    fn add_brief_lines<K: Sink>(
        &mut self,
        sink: &mut K,
        mode: Mode,
        settings: &Option<Settings>,
        item: &Record,
    )
        requires printable { IsPrintable settings.now item.now }
        requires brief { is_in_brief item.now ≡ true }
        ensures { Prints (K.state sink.old) (K.state sink.new)
            (line (line_of settings.now item.now) ++ further_lines mode item.now) self.old self.new }
    {
        self.add_brief_line(sink, settings, item);
        self.end_line(sink);
        self.add_further_lines(sink, mode, settings, item);
    }

    // Adds the first line of a record that the brief text has too.
    fn add_brief_line<K: Sink>(&mut self, sink: &mut K, settings: &Option<Settings>, item: &Record)
        requires printable { IsPrintable settings.now item.now }
        requires brief { is_in_brief item.now ≡ true }
        ensures { Prints (K.state sink.old) (K.state sink.new)
            (line_of settings.now item.now) self.old self.new }
    {
        if is_lookup(item) {
            self.add_lookup(sink, settings, item);
        } else {
            self.add_event(sink, settings, item);
        }
    }

    // Adds the first line of another record that the brief text has.
    fn add_event<K: Sink>(&mut self, sink: &mut K, settings: &Option<Settings>, item: &Record)
        requires printable { IsPrintable settings.now item.now }
        requires brief { is_in_brief item.now ≡ true }
        requires event { is_lookup item.now ≡ false }
        ensures { Prints (K.state sink.old) (K.state sink.new)
            (line_of settings.now item.now) self.old self.new }
    {
        match item {
            Record::Begin {
                settings,
                frames,
                ..
            } => self.add_begin(sink, settings, *frames),
            Record::Core { name } => self.add_name_after(sink, b"core ", name),
            Record::Gone { name } => self.add_name_after(sink, b"gone ", name),
            Record::TableOf {
                name,
                status,
                links,
            } => self.add_table(sink, name, *status, links.len()),
            Record::PointersOf { name, pairs } => self.add_pointers(sink, name, pairs.len()),
            Record::Refused { index, refusal } => self.add_refused(sink, *index, refusal),
            Record::Spent { limit } => self.add_number_after(sink, b"spent ", *limit),
            Record::Finished { steps } => self.add_number_after(sink, b"done ", *steps),
            Record::Garbled { number, fault } => self.add_garbled(sink, *number, *fault),
            Record::Abandoned { name } => self.add_name_after(sink, b"abandoned ", name),
            Record::Carrier => self.add(sink, b"carrier"),
            Record::CastFrom {
                cast,
                word,
                level,
                name,
            } => self.add_cast(sink, *cast, word.as_slice(), *level, name),
            Record::Reached { cast, name } => self.add_reached(sink, *cast, name),
            Record::Closed { cast } => self.add_number_after(sink, b"closed ", *cast),
            _ => unreachable!(),
        }
    }

    // Adds the further lines of a beginning, a table and pointers.
    fn add_further_lines<K: Sink>(
        &mut self,
        sink: &mut K,
        mode: Mode,
        settings: &Option<Settings>,
        item: &Record,
    )
        requires { IsPrintable settings.now item.now }
        ensures { Prints (K.state sink.old) (K.state sink.new)
            (further_lines mode item.now) self.old self.new }
    {
        match item {
            Record::Begin { members, .. } => self.add_members_in(sink, mode, members.as_slice()),
            Record::TableOf { links, .. } => self.add_links_in(sink, settings, links.as_slice()),
            Record::PointersOf { pairs, .. } => self.add_pairs(sink, pairs.as_slice()),
            _ => {}
        }
    }

    // Adds what stands after the last record.
    pub(crate) fn add_ending<K: Sink>(
        &mut self,
        sink: &mut K,
        mode: Mode,
        settings: &Option<Settings>,
        tally: &Tally,
    )
        ensures { Prints (K.state sink.old) (K.state sink.new)
            (ending mode settings.now (numbers_in tally.now)) self.old self.new }
    {
        match mode {
            Mode::Summary => self.add_summary(sink, settings, tally),
            Mode::Long | Mode::Brief => {}
        }
    }

    fn add_summary<K: Sink>(&mut self, sink: &mut K, settings: &Option<Settings>, tally: &Tally)
        ensures { Prints (K.state sink.old) (K.state sink.new)
            (ending Summary settings.now (numbers_in tally.now)) self.old self.new }
    {
        if settings.is_some() {
            self.add_numbers(sink, tally);
        }
    }

    fn add_numbers<K: Sink>(&mut self, sink: &mut K, tally: &Tally)
        ensures { Prints (K.state sink.old) (K.state sink.new)
            (summary_text (numbers_in tally.now)) self.old self.new }
    {
        self.add_count(sink, b"nodes ", tally.nodes_left());
        self.add_count(sink, b"frames ", tally.frames);
        self.add_count(sink, b"hops ", tally.hops);
        self.add_count(sink, b"answered ", tally.answered);
    }

    // Adds a line with one number.
    fn add_count<K: Sink, I: Integer>(&mut self, sink: &mut K, word: &[u8], count: I)
        ensures { Prints (K.state sink.old) (K.state sink.new)
            (line (word.now ++ I.text count)) self.old self.new }
    {
        self.add_number_after(sink, word, count);
        self.end_line(sink);
    }
}

// Whether the brief text has the lines of a record.
fn is_in_brief(item: &Record) -> bool
    ensures { result ≡ is_in_brief item.now }
{
    match item {
        Record::Step { .. } => false,
        Record::Sent { .. } => false,
        Record::Taken { .. } => false,
        Record::Packet { .. } => false,
        Record::Arrived { .. } => false,
        Record::Ticked => false,
        Record::Lost { .. } => false,
        _ => true,
    }
}
