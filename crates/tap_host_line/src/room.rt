ghost use Rattle.std.specs.Prelude.{◌≡◌, ◌<◌, ◌≤◌, ◌+◌, ◌*◌, ◌++◌, length, take, decimal, All};
ghost use Rattle.hex.specs.Hex.{encode_lower};
ghost use Rattle.tap_name.specs.Name.{text_of_name};
ghost use Rattle.tap_host_line.specs.Room.{most_name_digits, most_number_digits};

use itoa::Buffer;
use tap_name::{Name, print_digits, text_of_digit};

// Nearly all frames have at most so many bytes; these are read and printed at once, without a list of their own.
pub(crate) const FEW_BYTES: usize = 256;

// So many bytes have room for a word, a name, a number, three spaces and the end of a line.
pub(crate) const SHORT: usize = 64;

// A name has at most so many digits.
const MOST_NAME_DIGITS: usize = 40;

// Prints bytes at a place of a room, and answers the place after them.
#[inline(always)]
pub(crate) fn print_bytes(room: &mut [u8], at: usize, bytes: &[u8]) -> usize
    requires { at + length bytes.now ≤ length room.old }
    ensures text { take result room.new ≡ take at room.old ++ bytes.now }
    ensures end { result ≡ at + length bytes.now }
    ensures room { length room.new ≡ length room.old }
{
    let end = at + bytes.len();
    room[at..end].copy_from_slice(bytes);
    end
}

// Prints a name there, a byte for each digit. All places that a name can have are printed at once, and the first of them taken.
#[inline(always)]
pub(crate) fn print_name(room: &mut [u8], at: usize, name: &Name) -> usize
    requires { at + most_name_digits ≤ length room.old }
    ensures text { take result room.new ≡ take at room.old ++ text_of_name name.now }
    ensures end { result ≤ at + most_name_digits }
    ensures room { length room.new ≡ length room.old }
{
    let digits = name.digits();
    let digits = digits.as_slice();
    let end = at + MOST_NAME_DIGITS;
    if digits.len() == MOST_NAME_DIGITS {
        print_digits(digits, &mut room[at..end]);
        return end;
    }
    print_few_digits(digits, &mut room[at..end]);
    at + digits.len()
}

// Prints digits into the first of so many places.
fn print_few_digits(digits: &[u8], text: &mut [u8])
    requires few { length digits.now ≤ most_name_digits }
    requires digits { All (λ digit. digit < 16) digits.now }
    requires places { length text.old ≡ most_name_digits }
    ensures { take (length digits.now) text.new ≡ text_of_name digits.now }
{
    let mut places = [0; MOST_NAME_DIGITS];
    places[..digits.len()].copy_from_slice(digits);
    print_digits(&places, text);
}

// Prints a number there in decimal.
#[inline(always)]
pub(crate) fn print_number(room: &mut [u8], at: usize, number: u32) -> usize
    requires { at + most_number_digits ≤ length room.old }
    ensures text { take result room.new ≡ take at room.old ++ decimal number }
    ensures end { result ≤ at + most_number_digits }
    ensures room { length room.new ≡ length room.old }
{
    let mut buffer = Buffer::new();
    print_bytes(room, at, buffer.format(number).as_bytes())
}

// Prints bytes there in hexadecimal.
#[inline(always)]
pub(crate) fn print_hex(room: &mut [u8], at: usize, bytes: &[u8]) -> usize
    requires { at + 2 * length bytes.now ≤ length room.old }
    ensures text { take result room.new ≡ take at room.old ++ encode_lower bytes.now }
    ensures end { result ≡ at + 2 * length bytes.now }
    ensures room { length room.new ≡ length room.old }
{
    let end = at + 2 * bytes.len();
    put_digits(bytes, &mut room[at..end]);
    end
}

// Prints bytes in hexadecimal, each in two places. The digits are made by numbers alone, so that many bytes are printed at once.
#[inline(always)]
fn put_digits(bytes: &[u8], text: &mut [u8])
    requires { length text.old ≡ 2 * length bytes.now }
    ensures { text.new ≡ encode_lower bytes.now }
{
    for at in 0..bytes.len() {
        text[2 * at] = text_of_digit(bytes[at] / 16);
        text[2 * at + 1] = text_of_digit(bytes[at] % 16);
    }
}
