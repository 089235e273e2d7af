ghost use Rattle.std.specs.Prelude.{◌≡◌};
ghost use Rattle.tap_report.specs.Printer.{Prints};
ghost use Rattle.tap_report.specs.Refusal.{code_of_refusal, refused_line, words_of_refusal};

use crate::printer::Printer;
use tap_io::Sink;
use tap_log::Refusal;

// The lines of refused steps.
impl Printer {
    pub(crate) fn add_refused<K: Sink>(&mut self, sink: &mut K, index: u32, refusal: &Refusal)
        ensures { Prints (K.state sink.old) (K.state sink.new)
            (refused_line index refusal.now) self.old self.new }
    {
        self.add_number_after(sink, b"refused ", index);
        self.add_number_after(sink, b" ", code_of(refusal));
        self.add(sink, b" ");
        self.add_words(sink, refusal);
    }

    // Adds the words of a refusal.
    fn add_words<K: Sink>(&mut self, sink: &mut K, refusal: &Refusal)
        ensures { Prints (K.state sink.old) (K.state sink.new)
            (words_of_refusal refusal.now) self.old self.new }
    {
        match refusal {
            Refusal::NoSuchNode => self.add(sink, b"no such node"),
            Refusal::NotCore => self.add(sink, b"not core"),
            Refusal::Departing(leaver) => self.add_name_after(sink, b"departing ", leaver),
            Refusal::NotAtRest(count) => self.add_number_after(sink, b"not at rest ", *count),
            Refusal::NameTaken => self.add(sink, b"name taken"),
            Refusal::TooManyNodes => self.add(sink, b"too many nodes"),
            Refusal::LastNode => self.add(sink, b"last node"),
            Refusal::AlreadyPublished => self.add(sink, b"already published"),
            Refusal::NotPublished => self.add(sink, b"not published"),
            Refusal::NoSuchFlight(count) => self.add_number_after(sink, b"no such flight ", *count),
            Refusal::NoSuchByte(len) => self.add_number_after(sink, b"no such byte ", *len),
            Refusal::Readable => self.add(sink, b"readable"),
            Refusal::NotJoining => self.add(sink, b"not joining"),
            Refusal::AlreadyAbandoned => self.add(sink, b"already abandoned"),
            Refusal::TooManyPackets(made) => self.add_number_after(
                sink,
                b"too many packets ",
                *made,
            ),
            Refusal::NotInPrefix => self.add(sink, b"not in prefix"),
        }
    }
}

// The number by which a refusal is known.
fn code_of(refusal: &Refusal) -> u32
    ensures { result ≡ code_of_refusal refusal.now }
{
    match refusal {
        Refusal::NoSuchNode => 1,
        Refusal::NotCore => 2,
        Refusal::Departing(_) => 3,
        Refusal::NotAtRest(_) => 4,
        Refusal::NameTaken => 5,
        Refusal::TooManyNodes => 6,
        Refusal::LastNode => 7,
        Refusal::AlreadyPublished => 8,
        Refusal::NotPublished => 9,
        Refusal::NoSuchFlight(_) => 10,
        Refusal::NoSuchByte(_) => 11,
        Refusal::Readable => 12,
        Refusal::NotJoining => 13,
        Refusal::AlreadyAbandoned => 14,
        Refusal::TooManyPackets(_) => 15,
        Refusal::NotInPrefix => 16,
    }
}
