ghost use Rattle.std.specs.Prelude.{◌≡◌, ◌↔◌, ℕ, ◌≤◌, ◌&&◌, nat_le, nat_lt, List, length, map, position, Ok, Err, IfOk};
ghost use Rattle.std.specs.List.{list_all};
ghost use Rattle.tap_name.specs.Digits.{digit_of_text};
ghost use Rattle.tap_name.specs.Name.{IsName, name_of_digits, name_of_text, text_of_name};

use crate::name::{Name, NameFault, USUAL_DIGITS, text_of_digit};
use crate::settings::Settings;

// The value of a printed digit, and 16 if the byte is none. It is made by numbers alone, without a branch, since many are made at once.
#[inline(always)]
fn digit_value(byte: u8) -> u8
    ensures { result ≡ digit_of_text byte }
{
    let value = (byte % 16 + 9 * u8::from(byte > 64)) % 16;
    value + (16 - value) * u8::from(text_of_digit(value) != byte)
}

// Writes the values of printed digits.
#[inline(always)]
fn put_values(text: &[u8], values: &mut [u8])
    requires { length values.old ≡ length text.now }
    ensures { values.new ≡ map digit_of_text text.now }
{
    for at in 0..text.len() {
        values[at] = digit_value(text[at]);
    }
}

// Whether both hold, without a branch.
#[inline(always)]
fn both(one: bool, other: bool) -> bool
    ensures { result ≡ (one && other) }
{
    one & other
}

// Whether all digits are below the base. All are looked at, many at once.
#[inline(always)]
fn are_below(digits: &[u8], base: u8) -> bool
    ensures { result ≡ list_all (λ digit. nat_lt digit base) digits.now }
{
    let mut good = true;
    for at in 0..digits.len() {
        good = both(good, digits[at] < base);
    }
    good
}

// The first place of a digit that isn't below the base.
#[inline(never)]
fn first_bad(digits: &[u8], base: u8) -> Option<usize>
    ensures { result ≡ position (λ digit. nat_le base digit) digits.now }
{
    digits.iter().position(|digit| *digit >= base)
}

// The name of digits that are as many as the settings want. A bad digit is looked for only if there is one.
#[inline(always)]
pub(crate) fn name_of(settings: &Settings, digits: &[u8]) -> Result<Name, NameFault>
    requires { length digits.now ≡ settings.now.digits }
    ensures value { result ≡ name_of_digits settings.now digits.now }
    ensures valid { IfOk result (IsName settings.now) }
{
    let base = settings.base();
    if are_below(digits, base) {
        Ok(Name::of(digits))
    } else {
        Err(NameFault::BadDigit(first_bad(digits, base).unwrap()))
    }
}

// The name that a text spells. The values of all digits are taken before one is looked at; if they are as many as usual, all at once.
fn spelled(settings: &Settings, text: &[u8]) -> Result<Name, NameFault>
    ensures value { result ≡ name_of_text settings.now text.now }
    ensures valid { IfOk result (IsName settings.now) }
{
    if text.len() != settings.digits() as usize {
        return Err(NameFault::BadLength(text.len()));
    }
    if text.len() == USUAL_DIGITS {
        let mut digits = [0; USUAL_DIGITS];
        put_values(text, &mut digits);
        return name_of(settings, &digits);
    }
    let mut digits = [0; 40];
    put_values(text, &mut digits[..text.len()]);
    name_of(settings, &digits[..text.len()])
}

/// The name that a text spells, one byte for each digit: `0` to `9` and `a` to `f`, below the base. Capital letters
/// are no digits. A wrong length is found before a bad digit.
///
/// Rule: docs/PROTOCOL.md, "Names".
pub fn read_name(settings: &Settings, text: &[u8]) -> Result<Name, NameFault>
    ensures value { result ≡ name_of_text settings.now text.now }
    ensures valid { IfOk result (IsName settings.now) }

    // A text is read exactly if it is the text of a name of the settings, as that name.
    ensures exact { (name : List ℕ) → ((result ≡ Ok name) ↔ ((text.now ≡ text_of_name name) × IsName settings.now name)) }
{
    // A digit below this base prints as one byte, which is read as that digit alone.
    let base = settings.base();
    prove!(base <= 16);
    spelled(settings, text)
}
