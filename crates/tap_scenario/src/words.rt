ghost use Rattle.std.specs.Prelude.{◌≡◌, ◌==◌, ◌+◌, ◌≤◌, [], ◌∷◌, true, false, length, take, drop, bytes_eq, position, MatchOption, IfSome, option_copied, option_map};
ghost use Rattle.tap_scenario.specs.Step.{one_number, two_numbers, only};
ghost use Rattle.tap_scenario.specs.Words.{words, words_left, words_around};

use crate::number::read_number;
use crate::step::Step;
use std::marker::Model;

/// The words of a text that are left: what stands before, between and after its spaces. One space stands between each two
/// words, so two spaces have an empty word between them, and an empty text is one empty word. Contracts see the list of the words.
///
/// Rule: docs/FORMATS.md, "The scenario".
#[derive(Drop)]
pub struct Words<'a> {
    rest: Option<&'a [u8]>,
}

impl<'a> Model for Words<'a> {
    ghost use Rattle.std.specs.Prelude.{List, ℕ, option_copied};
    ghost use Rattle.tap_scenario.specs.Words.{words_left};

    ghost Value = { List (List ℕ) };

    ghost view = { λ left. words_left (option_copied left.rest) };
}

// The place of the first space.
fn first_space(text: &[u8]) -> Option<usize>
    ensures { result ≡ position (λ byte. byte == 32) text.now }
{
    text.iter().position(|byte| *byte == b' ')
}

/// Whether two short texts are the same: they are compared byte by byte.
///
/// Rule: docs/FORMATS.md, "The scenario".
pub fn is_same(one: &[u8], other: &[u8]) -> bool
    ensures { result ≡ bytes_eq one.now other.now }
{
    if one.len() != other.len() {
        return false;
    }
    for at in 0..one.len() {
        if one[at] != other[at] {
            return false;
        }
    }
    true
}

// What stands after a short text at the beginning of another one, if it stands there.
pub(crate) fn text_after<'a>(text: &'a [u8], short: &[u8]) -> Option<&'a [u8]>
    ensures cases { MatchOption result (bytes_eq (take (length short.now) text.now) short.now ≡ false)
        (λ rest. (bytes_eq (take (length short.now) text.now) short.now ≡ true) × (rest.now ≡ drop (length short.now) text.now)) }
{
    let (front, rest) = text.split_at_checked(short.len())?;
    if is_same(front, short) {
        Some(rest)
    } else {
        None
    }
}

impl<'a> Words<'a> {
    /// All words of a text.
    pub fn of(text: &'a [u8]) -> Words<'a>
        ensures { result ≡ words text.now }
    {
        Words { rest: Some(text) }
    }

    /// The text whose words are left, which no word is taken from yet. `None` if all words were taken.
    pub fn text(self) -> Option<&'a [u8]>
        ensures { words_left (option_copied result) ≡ self.entry }
    {
        self.rest
    }

    /// Takes the next word. `None` if none is left.
    pub fn next(&mut self) -> Option<&'a [u8]>
        ensures { MatchOption result ((self.old ≡ []) × (self.new ≡ [])) (λ word. self.old ≡ word.now ∷ self.new) }
    {
        let text = self.rest?;
        match first_space(text) {
            Some(at) => {
                self.rest = Some(&text[at + 1..]);
                Some(&text[..at])
            }
            None => {
                self.rest = None;
                Some(text)
            }
        }
    }

    // The number that the words are, if they are one number of at most so much.
    pub(crate) fn one_number(mut self, most: u64) -> Option<u64>
        ensures value { result ≡ one_number (most + 1) self.entry }
        ensures to { IfSome result (λ number. number ≤ most) }
    {
        let word = self.next()?;
        if self.next().is_some() {
            return None;
        }
        read_number(word, most)
    }

    // The numbers that the words are, if they are two numbers of at most so much.
    pub(crate) fn two_numbers(mut self, most: u64, more: u64) -> Option<(u64, u64)>
        ensures value { result ≡ two_numbers (most + 1) (more + 1) self.entry }
        ensures to { IfSome result (λ numbers. (numbers.0 ≤ most) × (numbers.1 ≤ more)) }
    {
        let first = read_number(self.next()?, most)?;
        let second = self.one_number(more)?;
        Some((first, second))
    }

    // The words before and after this one, if they are all.
    pub(crate) fn around(mut self, link: &str) -> Option<(&'a [u8], &'a [u8])>
        ensures { option_map (λ pair. (pair.0.now, pair.1.now)) result ≡ words_around link.now self.entry }
    {
        let first = self.next()?;
        let between = self.next()?;
        let second = self.next()?;
        if self.next().is_some() {
            return None;
        }
        if between != link.as_bytes() {
            return None;
        }
        Some((first, second))
    }

    // This step, if no word is left.
    pub(crate) fn only(mut self, step: Step) -> Option<Step>
        ensures { result ≡ only step self.entry }
    {
        if self.next().is_some() {
            return None;
        }
        Some(step)
    }
}
