ghost use Rattle.std.specs.Prelude.{◌≡◌, ◌≤◌};
ghost use Rattle.tap_scenario.specs.Spelling.{is_spelling, name_of_spelling, name_in, salt_number, object_in};

use tap_name::{Name, Settings, are_word_bytes, read_name};
use tap_salt::{name_of, salt};

// Whether bytes are 1 to 64 lower-case letters and digits.
fn is_spelling(bytes: &[u8]) -> bool
    ensures { result ≡ is_spelling bytes.now }
{
    !bytes.is_empty() && bytes.len() <= 64 && are_word_bytes(bytes)
}

// The name that a word writes as `@` and letters and digits, whose digest it is.
fn name_of_spelling(settings: &Settings, word: &[u8]) -> Option<Name>
    ensures { result ≡ name_of_spelling settings.now word.now }
{
    let (mark, bytes) = word.split_first()?;
    if *mark == b'@' && is_spelling(bytes) {
        name_of(settings, bytes)
    } else {
        None
    }
}

// The name that a word writes: digit by digit, or as `@` and a word whose digest it is.
#[inline(never)]
#[tactic(auto, unfolding(crate::specs::Spelling::name_in))]
pub(crate) fn name_in(settings: &Settings, word: &[u8]) -> Option<Name>
    ensures { result ≡ name_in settings.now word.now }
{
    match read_name(settings, word) {
        Ok(name) => Some(name),
        Err(_) => name_of_spelling(settings, word),
    }
}

// The number of a salt that an ending asks for: `#1` to `#4`.
fn salt_number(ending: &[u8]) -> Option<u8>
    ensures { result ≡ salt_number ending.now }
{
    match ending {
        [b'#', digit @ b'1'..=b'4'] => Some(*digit - b'0'),
        _ => None,
    }
}

// The object that a word writes: a salt of an object, if it ends as one, or else a name.
#[inline(never)]
#[tactic(auto, unfolding(crate::specs::Spelling::object_in))]
pub(crate) fn object_in(settings: &Settings, word: &[u8]) -> Option<Name>
    ensures { result ≡ object_in settings.now word.now }
{
    let (object, ending) = word.split_at(word.len().saturating_sub(2));
    match salt_number(ending) {
        Some(number) => salt(settings, &name_in(settings, object)?, number),
        None => name_in(settings, word),
    }
}
