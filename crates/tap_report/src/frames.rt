ghost use Rattle.std.specs.Prelude.{◌≡◌, ◌≢◌, ◌+◌, ◌*◌, ◌≤◌, ◌<◌, ◌++◌, All, codes, drop, length, take, IsOk, IsSomeAnd};
ghost use Rattle.hex.specs.Hex.{encode_lower};
ghost use Rattle.tap_report.specs.Printer.{Prints, Waits, most_waiting};
ghost use Rattle.tap_report.specs.Frames.{garbled_line, heading, packet_line, packet_word, sent_line, text_of_head, word_of_kind, words_of_fault};
ghost use Rattle.tap_report.specs.Shapes.{line, number_after, spaced_name};
ghost use Rattle.tap_wire.specs.declared.fault.WireFault.TheVariants.{NoMemory};
ghost use Rattle.tap_wire.specs.Layout.{head_len};
ghost use Rattle.tap_wire.specs.Reading.{head_of};

use crate::printer::{Printer, usual_text};
use tap_io::Sink;
use tap_name::{Settings, USUAL_DIGITS};
use tap_wire::WireFault;

// The most bytes of the line of a frame before its own ones: a word, a number, the word of a kind, two names, and five spaces.
const MOST_BEFORE_BYTES: usize = 106;

// The most bytes of the line of a frame that is taken: a word, a number, and the end of the line.
const MOST_OF_TAKEN: usize = 17;

// The same of the line of a packet that is made, which has two words and two numbers.
const MOST_OF_PACKET: usize = 34;

// And of the line of a packet that arrives or is lost.
const MOST_OF_ARRIVED: usize = 19;

// How many bytes are encoded at once.
const PIECE: usize = 64;

// The lines of frames and of packets.
impl Printer {
    #[inline(never)]
    pub(crate) fn add_sent<K: Sink>(
        &mut self,
        sink: &mut K,
        settings: &Option<Settings>,
        number: u32,
        bytes: &[u8],
    )
        requires { IsSomeAnd settings.now (λ p. IsOk (head_of p bytes.now)) }
        ensures { Prints (K.state sink.old) (K.state sink.new)
            (line (sent_line settings.now number bytes.now)) self.old self.new }
    {
        self.make_room(sink, MOST_BEFORE_BYTES);
        self.push(b"sent ");
        self.push_u32(number);
        self.push(b" ");
        self.push_heading(settings, bytes);
        self.push(b" ");
        self.add_hex(sink, bytes);
        self.end_line(sink);
    }

    // Adds what the head of a frame says, which is read with these settings, if there is room for the most that it may say.
    fn push_heading(&mut self, settings: &Option<Settings>, bytes: &[u8])
        requires read { IsSomeAnd settings.now (λ p. IsOk (head_of p bytes.now)) }
        requires room { length self.old.waiting + 89 ≤ most_waiting }
        ensures text { Waits (heading settings.now bytes.now) self.old self.new }
        ensures len { length self.new.waiting ≤ length self.old.waiting + 89 }
    {
        match settings {
            Some(settings) => self.push_head(settings, bytes),
            None => unreachable!(),
        }
    }

    // The head is known to be read, so of its bytes only those are looked at that are printed.
    fn push_head(&mut self, settings: &Settings, bytes: &[u8])
        requires read { IsOk (head_of settings.now bytes.now) }
        requires room { length self.old.waiting + 89 ≤ most_waiting }
        ensures text { Waits (text_of_head (head_of settings.now bytes.now)) self.old self.new }
        ensures len { length self.new.waiting ≤ length self.old.waiting + 89 }
    {
        let digits = settings.digits() as usize;
        let from = head_len(settings);
        let to = from + 2 * digits;
        self.push_kind(bytes[1]);
        self.push_names(digits, &bytes[from..to]);
    }

    // Adds two names of so many digits each, with a space before each of them.
    #[inline(always)]
    fn push_names(&mut self, digits: usize, names: &[u8])
        requires both { length names.now ≡ 2 * digits }
        requires below { All (λ digit. digit < 16) names.now }
        requires room { length self.old.waiting + length names.now + 2 ≤ most_waiting }
        ensures text { Waits (spaced_name (take digits names.now) ++ spaced_name (drop digits names.now)) self.old self.new }
        ensures len { length self.new.waiting ≡ length self.old.waiting + length names.now + 2 }
    {
        if digits == USUAL_DIGITS {
            self.push_usual_names(names);
        } else {
            self.push_two_names(&names[..digits], &names[digits..]);
        }
    }

    // Adds two names of the usual length, whose digits are printed all at once.
    #[inline(always)]
    fn push_usual_names(&mut self, names: &[u8])
        requires both { length names.now ≡ 16 }
        requires below { All (λ digit. digit < 16) names.now }
        requires room { length self.old.waiting + 18 ≤ most_waiting }
        ensures text { Waits (spaced_name (take 8 names.now) ++ spaced_name (drop 8 names.now)) self.old self.new }
        ensures len { length self.new.waiting ≡ length self.old.waiting + 18 }
    {
        let text = usual_text(names);
        self.push(b" ");
        self.push(&text[..USUAL_DIGITS]);
        self.push(b" ");
        self.push(&text[USUAL_DIGITS..]);
    }

    // Adds the digits of two names, with a space before each of them.
    fn push_two_names(&mut self, first: &[u8], second: &[u8])
        requires room { length self.old.waiting + length first.now + length second.now + 2 ≤ most_waiting }
        requires first { All (λ digit. digit < 16) first.now }
        requires second { All (λ digit. digit < 16) second.now }
        ensures text { Waits (spaced_name first.now ++ spaced_name second.now) self.old self.new }
        ensures len { length self.new.waiting ≡ length self.old.waiting + length first.now + length second.now + 2 }
    {
        self.push(b" ");
        self.push_digits(first);
        self.push(b" ");
        self.push_digits(second);
    }

    // Adds the word of the kind with this code, if there is one.
    fn push_kind(&mut self, code: u8)
        requires room { length self.old.waiting + 7 ≤ most_waiting }
        ensures text { Waits (word_of_kind code) self.old self.new }
        ensures len { length self.new.waiting ≤ length self.old.waiting + 7 }
    {
        match code {
            1 => self.push(b"seek"),
            2 => self.push(b"tell"),
            3 => self.push(b"hello"),
            4 => self.push(b"heard"),
            5 => self.push(b"ack"),
            6 => self.push(b"done"),
            7 => self.push(b"release"),
            8 => self.push(b"link"),
            9 => self.push(b"lay"),
            10 => self.push(b"find"),
            11 => self.push(b"answer"),
            12 => self.push(b"leave"),
            13 => self.push(b"left"),
            14 => self.push(b"gone"),
            15 => self.push(b"forget"),
            16 => self.push(b"cast"),
            17 => self.push(b"castack"),
            _ => {}
        }
    }

    // Adds bytes in hexadecimal, at once if they are few.
    fn add_hex<K: Sink>(&mut self, sink: &mut K, bytes: &[u8])
        ensures { Prints (K.state sink.old) (K.state sink.new)
            (encode_lower bytes.now) self.old self.new }
    {
        if bytes.len() <= PIECE {
            self.add_hex_piece(sink, bytes);
        } else {
            self.add_long_hex(sink, bytes);
        }
    }

    // Adds bytes in hexadecimal, a piece at a time.
    #[inline(never)]
    fn add_long_hex<K: Sink>(&mut self, sink: &mut K, bytes: &[u8])
        ensures { Prints (K.state sink.old) (K.state sink.new)
            (encode_lower bytes.now) self.old self.new }
    {
        let mut done = 0;
        while done < bytes.len() {
            let end = bytes.len().min(done + PIECE);
            self.add_hex_piece(sink, &bytes[done..end]);
            done = end;
        }
    }

    pub(crate) fn add_garbled<K: Sink>(&mut self, sink: &mut K, number: u32, fault: WireFault)
        requires { fault ≢ NoMemory }
        ensures { Prints (K.state sink.old) (K.state sink.new)
            (garbled_line number fault) self.old self.new }
    {
        self.add_number_after(sink, b"garbled ", number);
        self.add(sink, b" ");
        self.add_fault(sink, fault);
    }

    fn add_fault<K: Sink>(&mut self, sink: &mut K, fault: WireFault)
        requires { fault ≢ NoMemory }
        ensures { Prints (K.state sink.old) (K.state sink.new)
            (words_of_fault fault) self.old self.new }
    {
        match fault {
            WireFault::Short(missing) => self.add_number_after(sink, b"short ", missing),
            WireFault::BadVersion(version) => self.add_number_after(sink, b"bad version ", version),
            WireFault::BadKind(kind) => self.add_number_after(sink, b"bad kind ", kind),
            WireFault::BadLength(len) => self.add_number_after(sink, b"bad length ", len),
            WireFault::BadCount(count) => self.add_number_after(sink, b"bad count ", count),
            WireFault::Trailing(more) => self.add_number_after(sink, b"trailing ", more),
            WireFault::BadDigit(place) => self.add_number_after(sink, b"bad digit ", place),
            WireFault::BadBody(place) => self.add_number_after(sink, b"bad body ", place),
            WireFault::NoMemory => unreachable!(),
        }
    }

    #[inline(always)]
    pub(crate) fn add_packet<K: Sink>(&mut self, sink: &mut K, packet: u32, frame: u32, ack: bool)
        ensures { Prints (K.state sink.old) (K.state sink.new)
            (line (packet_line packet frame ack)) self.old self.new }
    {
        self.make_room(sink, MOST_OF_PACKET);
        self.push(b"packet ");
        self.push_u32(packet);
        self.push_packet_word(ack);
        self.push_u32(frame);
        self.push(b"\n");
    }

    // Adds what a packet carries.
    #[inline(always)]
    fn push_packet_word(&mut self, ack: bool)
        requires room { length self.old.waiting + 6 ≤ most_waiting }
        ensures text { Waits (packet_word ack) self.old self.new }
        ensures len { length self.new.waiting ≤ length self.old.waiting + 6 }
    {
        if ack {
            self.push(b" ack ");
        } else {
            self.push(b" data ");
        }
    }

    pub(crate) fn add_taken<K: Sink>(&mut self, sink: &mut K, number: u32)
        ensures { Prints (K.state sink.old) (K.state sink.new)
            (line (number_after (codes "taken ") number)) self.old self.new }
    {
        self.make_room(sink, MOST_OF_TAKEN);
        self.push(b"taken ");
        self.push_u32(number);
        self.push(b"\n");
    }

    #[inline(always)]
    pub(crate) fn add_arrived<K: Sink>(&mut self, sink: &mut K, packet: u32)
        ensures { Prints (K.state sink.old) (K.state sink.new)
            (line (number_after (codes "arrived ") packet)) self.old self.new }
    {
        self.make_room(sink, MOST_OF_ARRIVED);
        self.push(b"arrived ");
        self.push_u32(packet);
        self.push(b"\n");
    }

    pub(crate) fn add_ticked<K: Sink>(&mut self, sink: &mut K)
        ensures { Prints (K.state sink.old) (K.state sink.new) (line (codes "ticked")) self.old self.new }
    {
        self.add(sink, b"ticked");
        self.end_line(sink);
    }

    #[inline(never)]
    pub(crate) fn add_lost<K: Sink>(&mut self, sink: &mut K, packet: u32)
        ensures { Prints (K.state sink.old) (K.state sink.new)
            (line (number_after (codes "lost ") packet)) self.old self.new }
    {
        self.make_room(sink, MOST_OF_ARRIVED);
        self.push(b"lost ");
        self.push_u32(packet);
        self.push(b"\n");
    }
}

// How many bytes of a frame stand before its names.
fn head_len(settings: &Settings) -> usize
    ensures { result ≡ head_len settings.now }
{
    if settings.digits() > 8 { 5 } else { 4 }
}
