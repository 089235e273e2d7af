ghost use Rattle.std.specs.Prelude.{◌≡◌, ◌+◌, ◌≤◌, length, None, IfSome};
ghost use Rattle.std.specs.Str.Parse.{AllDigits, digits_value};
ghost use Rattle.tap_scenario.specs.Step.{number_below};

use tap_scenario::read_number;

// So many decimal digits write a number below 2^64, whichever they are.
const FEW_DIGITS: usize = 19;

// The number that decimal digits write, if all are digits.
fn value_of(digits: &[u8]) -> Option<u64>
    requires { length digits.now ≤ FEW_DIGITS }
    ensures some { IfSome result (λ n. (n ≡ digits_value 10 digits.now) × AllDigits 10 digits.now) }
    ensures none { result ≡ None → AllDigits 10 digits.now → ⊥ }
{
    let mut value = 0u64;
    for at in 0..digits.len() {
        match digits[at] {
            byte @ b'0'..=b'9' => value = value * 10 + (byte - b'0') as u64,
            _ => return None,
        }
    }
    Some(value)
}

// The number that few decimal digits write, if it is at most so much.
fn few_digits(word: &[u8], most: u64) -> Option<u64>
    requires { length word.now ≤ FEW_DIGITS }
    ensures value { result ≡ number_below (most + 1) word.now }
    ensures to { IfSome result (λ n. n ≤ most) }
{
    if word.is_empty() {
        return None;
    }
    if word.len() > 1 && word[0] == b'0' {
        return None;
    }
    let value = value_of(word)?;
    if value <= most { Some(value) } else { None }
}

// The number that a word writes, if it is at most so much. Nearly all have few digits.
pub(crate) fn number_of(word: &[u8], most: u64) -> Option<u64>
    ensures value { result ≡ number_below (most + 1) word.now }
    ensures to { IfSome result (λ n. n ≤ most) }
{
    if word.len() > FEW_DIGITS {
        return read_number(word, most);
    }
    few_digits(word, most)
}
