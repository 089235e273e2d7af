ghost use Rattle.std.specs.Prelude.{◌≡◌, ◌+◌, ◌<◌, ◌≤◌, IfSome, option_map};
ghost use Rattle.tap_scenario.specs.Step.{one_number, only};
ghost use Rattle.tap_line.specs.Front.{digit, digit_of_word, is_rest, letters, name, number, told, word};

use crate::numbers::number_of;
use tap_name::{Name, Settings, read_name};
use tap_scenario::{Word, Words, is_same};

// The greatest number that stands for a place, a count, or a number of its own.
pub(crate) const PLACE_MAX: u64 = u32::MAX as u64;

// Takes a number of at most so much.
#[inline(never)]
pub(crate) fn take_number(words: &mut Words<'_>, most: u64) -> Option<u64>
    ensures value { option_map (λ n. (n, words.new)) result ≡ number (most + 1) words.old }
    ensures to { IfSome result (λ n. n ≤ most) }
{
    number_of(words.next()?, most)
}

// Takes a name.
#[inline(never)]
pub(crate) fn take_name(words: &mut Words<'_>, settings: &Settings) -> Option<Name>
    ensures { option_map (λ n. (n, words.new)) result ≡ name settings.now words.old }
{
    read_name(settings, words.next()?).ok()
}

// Takes this very word.
pub(crate) fn take_word(words: &mut Words<'_>, text: &[u8]) -> Option<()>
    ensures { option_map (λ _. (text.now, words.new)) result ≡ word text.now words.old }
{
    if is_same(words.next()?, text) {
        Some(())
    } else {
        None
    }
}

// The digit below the base that a word of one byte is.
fn read_digit(settings: &Settings, text: &[u8]) -> Option<u8>
    ensures { result ≡ digit_of_word settings.now text.now }
{
    let short = Settings::new(settings.base(), 1, settings.width())?;
    let digits = read_name(&short, text).ok()?;
    Some(digits.digit(0))
}

// Takes a digit below the base.
pub(crate) fn take_digit(words: &mut Words<'_>, settings: &Settings) -> Option<u8>
    ensures { option_map (λ d. (d, words.new)) result ≡ digit settings.now words.old }
{
    read_digit(settings, words.next()?)
}

// The number that the words are, if they are one number of at most so much.
pub(crate) fn one_number(mut words: Words<'_>, most: u64) -> Option<u64>
    ensures value { result ≡ one_number (most + 1) words.entry }
    ensures to { IfSome result (λ n. n ≤ most) }
{
    let word = words.next()?;
    if words.next().is_some() {
        return None;
    }
    number_of(word, most)
}

// This, if no word is left.
pub(crate) fn only<T: Drop>(mut words: Words<'_>, value: T) -> Option<T>
    ensures { result ≡ only value words.entry }
{
    if words.next().is_some() {
        return None;
    }
    Some(value)
}

// Whether the words, with a space between them, are this.
fn is_rest(words: Words<'_>, phrase: &[u8]) -> bool
    ensures { result ≡ is_rest phrase.now words.entry }
{
    match words.text() {
        Some(text) => is_same(text, phrase),
        None => false,
    }
}

// This, if the words, with a space between them, are that.
pub(crate) fn told<T: Drop>(words: Words<'_>, phrase: &[u8], value: T) -> Option<T>
    ensures { result ≡ told phrase.now value words.entry }
{
    if is_rest(words, phrase) {
        Some(value)
    } else {
        None
    }
}

// Takes the word of a cast.
pub(crate) fn take_letters(words: &mut Words<'_>) -> Option<Word>
    ensures { option_map (λ w. (w, words.new)) result ≡ letters words.old }
{
    Word::of(words.next()?)
}
