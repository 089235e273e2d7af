ghost use Rattle.std.specs.Prelude.{◌≡◌, ◌≤◌, ◌<◌, ◌+◌, ◌*◌, ◌↔◌, [], All, IsTrue, decimal, length};
ghost use Rattle.hex.specs.Hex.{encode_lower};
ghost use Rattle.tap_name.specs.Name.{text_of_name};
ghost use Rattle.tap_report.specs.Printer.{Prints, Waits, emptied, most_waiting, new_printer};

use crate::pairs::print_usual;
use crate::written::{Written, write_text};
use std::marker::Model;
use tap_io::Sink;
use tap_name::{Name, USUAL_DIGITS, print_digits, text_of_digit};

// How many bytes may wait.
const ROOM: usize = 2048;

// The most digits of a `u32`, in decimal.
pub(crate) const MOST_DIGITS: usize = 10;

// Prints a text to a sink, piece by piece. Pieces wait in a room of its own, so that many are written at once.
#[derive(Debug, Drop)]
pub(crate) struct Printer {
    // Whether all that doesn't wait was written.
    so_far: Written,
    // How many bytes wait.
    len: usize,
    // They stand in the first places.
    room: [u8; ROOM],
}

impl Model for Printer {
    ghost use Rattle.std.specs.Prelude.{◌≤◌, take};
    ghost use Rattle.tap_report.specs.Printer.{PrinterValue, most_waiting};

    ghost Value = { PrinterValue };

    ghost view = { λ p. record { so_far = p.so_far; waiting = take p.len p.room } };

    ghost invariant = { λ p. p.len ≤ most_waiting };
}

impl Printer {
    // Nothing was printed.
    pub(crate) fn new() -> Printer
        ensures { result ≡ new_printer }
    {
        Printer {
            so_far: Written::All,
            len: 0,
            room: [0; ROOM],
        }
    }

    // Adds a piece of the text.
    #[inline(always)]
    pub(crate) fn add<K: Sink>(&mut self, sink: &mut K, piece: &[u8])
        ensures { Prints (K.state sink.old) (K.state sink.new) piece.now self.old self.new }
    {
        if self.has_room(piece.len()) {
            self.push(piece);
        } else {
            self.add_past_room(sink, piece);
        }
    }

    // Adds digits as they are printed.
    #[inline(always)]
    pub(crate) fn add_digits<K: Sink>(&mut self, sink: &mut K, digits: &[u8])
        requires few { length digits.now ≤ 40 }
        requires below { All (λ digit. digit < 16) digits.now }
        ensures { Prints (K.state sink.old) (K.state sink.new) (text_of_name digits.now) self.old self.new }
    {
        self.make_room(sink, digits.len());
        self.push_digits(digits);
    }

    // Adds a few bytes in hexadecimal.
    #[inline(always)]
    pub(crate) fn add_hex_piece<K: Sink>(&mut self, sink: &mut K, bytes: &[u8])
        requires { 2 * length bytes.now ≤ most_waiting }
        ensures { Prints (K.state sink.old) (K.state sink.new) (encode_lower bytes.now) self.old self.new }
    {
        self.make_room(sink, 2 * bytes.len());
        self.push_hex(bytes);
    }

    // Writes what waits, and says whether all was written.
    pub(crate) fn flush<K: Sink>(&mut self, sink: &mut K) -> Written
        ensures prints { Prints (K.state sink.old) (K.state sink.new) [] self.old self.new }
        ensures emptied { self.new ≡ emptied result }
    {
        let written = write_text(sink, self.so_far, &self.room[..self.len]);
        self.so_far = written;
        self.len = 0;
        written
    }

    // Adds a piece for which there is no room.
    #[inline(never)]
    fn add_past_room<K: Sink>(&mut self, sink: &mut K, piece: &[u8])
        ensures { Prints (K.state sink.old) (K.state sink.new) piece.now self.old self.new }
    {
        let before = self.flush(sink);
        self.so_far = write_text(sink, before, piece);
    }

    // Makes room for so many bytes.
    #[inline(always)]
    pub(crate) fn make_room<K: Sink>(&mut self, sink: &mut K, count: usize)
        requires { count ≤ most_waiting }
        ensures prints { Prints (K.state sink.old) (K.state sink.new) [] self.old self.new }
        ensures room { length self.new.waiting + count ≤ most_waiting }
    {
        if !self.has_room(count) {
            self.empty(sink);
        }
    }

    // Writes what waits, to make room.
    #[cold]
    #[inline(never)]
    fn empty<K: Sink>(&mut self, sink: &mut K)
        ensures prints { Prints (K.state sink.old) (K.state sink.new) [] self.old self.new }
        ensures emptied { self.new.waiting ≡ [] }
    {
        self.flush(sink);
    }

    // Whether there is room for so many bytes.
    #[inline(always)]
    fn has_room(&self, count: usize) -> bool
        ensures { IsTrue result ↔ (length self.now.waiting + count ≤ most_waiting) }
    {
        count <= ROOM - self.len
    }

    // Adds bytes for which there is room.
    #[inline(always)]
    pub(crate) fn push(&mut self, bytes: &[u8])
        requires { length self.old.waiting + length bytes.now ≤ most_waiting }
        ensures text { Waits bytes.now self.old self.new }
        ensures len { length self.new.waiting ≡ length self.old.waiting + length bytes.now }
    {
        let end = self.len + bytes.len();
        self.room[self.len..end].copy_from_slice(bytes);
        self.len = end;
    }

    // Adds digits for which there is room, as they are printed.
    #[inline(always)]
    pub(crate) fn push_digits(&mut self, digits: &[u8])
        requires room { length self.old.waiting + length digits.now ≤ most_waiting }
        requires below { All (λ digit. digit < 16) digits.now }
        ensures text { Waits (text_of_name digits.now) self.old self.new }
        ensures len { length self.new.waiting ≡ length self.old.waiting + length digits.now }
    {
        let end = self.len + digits.len();
        print_digits(digits, &mut self.room[self.len..end]);
        self.len = end;
    }

    // Adds a name of the usual length, for which there is room.
    #[inline(always)]
    pub(crate) fn push_usual_name(&mut self, name: &Name)
        requires usual { length name.now ≡ 8 }
        requires room { length self.old.waiting + 8 ≤ most_waiting }
        ensures text { Waits (text_of_name name.now) self.old self.new }
        ensures len { length self.new.waiting ≡ length self.old.waiting + 8 }
    {
        let end = self.len + USUAL_DIGITS;
        print_usual(name, &mut self.room[self.len..end]);
        self.len = end;
    }

    // Adds a number, in decimal, if there is room for all digits that it may have.
    #[inline(always)]
    pub(crate) fn push_u32(&mut self, number: u32)
        requires { length self.old.waiting + 10 ≤ most_waiting }
        ensures text { Waits (decimal number) self.old self.new }
        ensures len { length self.new.waiting ≤ length self.old.waiting + 10 }
    {
        let end = self.len + decimal_len(number);
        itoa::write_digits(number as u64, &mut self.room, end);
        self.len = end;
    }

    // Adds bytes in hexadecimal, for which there is room.
    #[inline(always)]
    fn push_hex(&mut self, bytes: &[u8])
        requires { length self.old.waiting + 2 * length bytes.now ≤ most_waiting }
        ensures { Waits (encode_lower bytes.now) self.old self.new }
    {
        let end = self.len + 2 * bytes.len();
        print_hex(bytes, &mut self.room[self.len..end]);
        self.len = end;
    }
}

// The text of the digits of two names of the usual length. All are printed at once.
#[inline(never)]
pub(crate) fn usual_text(digits: &[u8]) -> [u8; 2 * USUAL_DIGITS]
    requires few { length digits.now ≡ 16 }
    requires below { All (λ digit. digit < 16) digits.now }
    ensures { result ≡ text_of_name digits.now }
{
    let mut text = [0; 2 * USUAL_DIGITS];
    print_digits(&digits[..2 * USUAL_DIGITS], &mut text);
    text
}

// Prints bytes in hexadecimal, each in two places.
fn print_hex(bytes: &[u8], text: &mut [u8])
    requires { length text.old ≡ 2 * length bytes.now }
    ensures { text.new ≡ encode_lower bytes.now }
{
    for at in 0..bytes.len() {
        text[2 * at] = text_of_digit(bytes[at] / 16);
        text[2 * at + 1] = text_of_digit(bytes[at] % 16);
    }
}

// How many decimal digits a number has.
#[inline(always)]
fn decimal_len(number: u32) -> usize
    ensures value { result ≡ length (decimal number) }
    ensures most { result ≤ 10 }
{
    if number < 100_000 {
        few_digits(number)
    } else {
        many_digits(number)
    }
}

// How many decimal digits a number has, if they are five at most.
#[inline(always)]
#[tactic(auto, using(crate::proofs::DecimalLemmas::one_digit, crate::proofs::DecimalLemmas::two_digits, crate::proofs::DecimalLemmas::three_digits, crate::proofs::DecimalLemmas::four_digits, crate::proofs::DecimalLemmas::five_digits))]
fn few_digits(number: u32) -> usize
    requires { number < 100000 }
    ensures value { result ≡ length (decimal number) }
    ensures most { result ≤ 5 }
{
    // The numbers of a run are large most of the time, so the greatest come first.
    if number >= 10_000 {
        5
    } else if number >= 1_000 {
        4
    } else if number >= 100 {
        3
    } else if number >= 10 {
        2
    } else {
        1
    }
}

// How many decimal digits a number has, if they are six at least.
#[tactic(auto, using(crate::proofs::DecimalLemmas::six_digits, crate::proofs::DecimalLemmas::seven_digits, crate::proofs::DecimalLemmas::eight_digits, crate::proofs::DecimalLemmas::nine_digits, crate::proofs::DecimalLemmas::ten_digits))]
fn many_digits(number: u32) -> usize
    requires { 100000 ≤ number }
    ensures value { result ≡ length (decimal number) }
    ensures most { result ≤ 10 }
{
    match number {
        0..=999_999 => 6,
        1_000_000..=9_999_999 => 7,
        10_000_000..=99_999_999 => 8,
        100_000_000..=999_999_999 => 9,
        _ => 10,
    }
}
