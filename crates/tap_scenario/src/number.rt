ghost use Rattle.std.specs.Prelude.{◌≡◌, ◌+◌, ◌≤◌, length, None, IfSome};
ghost use Rattle.std.specs.Str.Parse.{AllDigits, digits_value};
ghost use Rattle.tap_scenario.specs.Step.{number_below};

use itoa::Buffer;

// So many decimal digits write a number below 2^64, whichever they are.
const FEW_DIGITS: usize = 19;

// The number that decimal digits write, if all are digits.
fn value_of(digits: &[u8]) -> Option<u64>
    requires { length digits.now ≤ FEW_DIGITS }
    ensures some { IfSome result (λ n. (n ≡ digits_value 10 digits.now) × AllDigits 10 digits.now) }
    ensures none { result ≡ None → AllDigits 10 digits.now → ⊥ }
{
    let mut value = 0u64;
    for at in 0..digits.len() {
        match digits[at] {
            byte @ b'0'..=b'9' => value = value * 10 + (byte - b'0') as u64,
            _ => return None,
        }
    }
    Some(value)
}

// The number that few decimal digits write, if it is at most so much.
fn few_digits(word: &[u8], most: u64) -> Option<u64>
    requires { length word.now ≤ FEW_DIGITS }
    ensures value { result ≡ number_below (most + 1) word.now }
    ensures to { IfSome result (λ number. number ≤ most) }
{
    if word.is_empty() {
        return None;
    }
    if word.len() > 1 && word[0] == b'0' {
        return None;
    }
    let value = value_of(word)?;
    if value <= most { Some(value) } else { None }
}

// The number that a text writes, if it is at most so much. The text is parsed, and has to be what the number prints
// as.
fn number_of_text(text: &str, most: u64) -> Option<u64>
    ensures value { result ≡ number_below (most + 1) text.now }
    ensures to { IfSome result (λ number. number ≤ most) }
{
    match text.parse::<u64>() {
        Ok(number) => {
            let mut buffer = Buffer::new();
            if buffer.format(number) == text {
                if number <= most { Some(number) } else { None }
            } else {
                None
            }
        }
        Err(_) => None,
    }
}

// The number that many decimal digits write, if it is at most so much.
#[inline(never)]
fn many_digits(word: &[u8], most: u64) -> Option<u64>
    ensures value { result ≡ number_below (most + 1) word.now }
    ensures to { IfSome result (λ number. number ≤ most) }
{
    match std::str::from_utf8(word) {
        Ok(text) => number_of_text(text, most),
        Err(_) => None,
    }
}

/// The number that a word writes in decimal, if it is at most `most`. `None` exactly if the word isn't how such a number prints: a
/// sign, a leading zero, anything but digits, a greater number, or nothing.
///
/// Rule: docs/FORMATS.md, "The scenario".
pub fn read_number(word: &[u8], most: u64) -> Option<u64>
    ensures value { result ≡ number_below (most + 1) word.now }
    ensures to { IfSome result (λ number. number ≤ most) }
{
    if word.len() > FEW_DIGITS {
        return many_digits(word, most);
    }
    few_digits(word, most)
}
