ghost use Rattle.std.specs.Prelude.{◌≡◌};
ghost use Rattle.tap_scenario.specs.Step.{step_of_name, step_of_pair, step_of_place, text_of_step};
ghost use Rattle.tap_scenario.specs.Wording.{HasFirstWord, text_of_words};

use crate::cast::{Prefix, Word};
use crate::kind::{FROM, Kind, MIXED, NEWEST, NameKind, PairKind, PlaceKind, TO};
use crate::step::Step;
use tap_name::Name;

/// A step as it is written: its first word, and what stands after it, with one space between each two of them.
///
/// Rule: docs/FORMATS.md, "The scenario".
#[derive(Clone, Copy, Debug, PartialEq, Eq)]
pub struct StepWords {
    /// The first word.
    pub first: &'static str,
    /// What stands after it.
    pub after: WordsAfter,
}

/// What stands after the first word of a step. Numbers are decimal, and the empty prefix is written `*`.
///
/// Rule: docs/FORMATS.md, "The scenario".
#[derive(Clone, Copy, Debug, PartialEq, Eq)]
pub enum WordsAfter {
    /// Nothing.
    Nothing,
    /// One more word.
    Word(&'static str),
    /// One more word and a number.
    WordAndNumber(&'static str, u64),
    /// A name.
    Name(Name),
    /// Two names with a word between them.
    Names(Name, &'static str, Name),
    /// A number.
    Number(u32),
    /// Two numbers.
    TwoNumbers(u32, u32),
    /// Three numbers.
    ThreeNumbers(u32, u32, u8),
    /// The word that is spread, the prefix and a name, each of the last two with a word before it.
    Cast(Word, &'static str, Prefix, &'static str, Name),
}

// The words of a step with one name.
fn name_words(kind: NameKind, name: Name) -> StepWords
    ensures value { text_of_words result ≡ text_of_step (step_of_name kind name) }
    ensures first { HasFirstWord result }
{
    StepWords {
        first: Kind::Name(kind).text(),
        after: WordsAfter::Name(name),
    }
}

// The words of a step with two names.
fn pair_words(kind: PairKind, first: Name, second: Name) -> StepWords
    ensures value { text_of_words result ≡ text_of_step (step_of_pair kind first second) }
    ensures first { HasFirstWord result }
{
    StepWords {
        first: Kind::Pair(kind).text(),
        after: WordsAfter::Names(first, kind.link(), second),
    }
}

// The words of a step with one place.
fn place_words(kind: PlaceKind, place: u32) -> StepWords
    ensures value { text_of_words result ≡ text_of_step (step_of_place kind place) }
    ensures first { HasFirstWord result }
{
    StepWords {
        first: Kind::Place(kind).text(),
        after: WordsAfter::Number(place),
    }
}

impl Step {
    /// The words that this step is written with.
    ///
    /// Rule: docs/FORMATS.md, "The scenario".
    pub fn words(&self) -> StepWords
        ensures value { text_of_words result ≡ text_of_step self.now }
        ensures first { HasFirstWord result }
    {
        match self {
            Step::Join { name, via } => pair_words(PairKind::Join, *name, *via),
            Step::Depart { name } => name_words(NameKind::Leave, *name),
            Step::Publish { object, server } => pair_words(PairKind::Publish, *object, *server),
            Step::Withdraw { object, server } => pair_words(PairKind::Withdraw, *object, *server),
            Step::Find { object, asker } => pair_words(PairKind::Find, *object, *asker),
            Step::Walk { object, asker } => pair_words(PairKind::Walk, *object, *asker),
            Step::Root { object } => name_words(NameKind::Root, *object),
            Step::Deliver { place } => place_words(PlaceKind::Deliver, *place),
            Step::Settle => StepWords {
                first: Kind::Settle.text(),
                after: WordsAfter::Nothing,
            },
            Step::SettleNewest => StepWords {
                first: Kind::Settle.text(),
                after: WordsAfter::Word(NEWEST),
            },
            Step::SettleMixed { seed } => {
                StepWords {
                    first: Kind::Settle.text(),
                    after: WordsAfter::WordAndNumber(MIXED, *seed),
                }
            }
            Step::Table { name } => name_words(NameKind::Table, *name),
            Step::Pointers { name } => name_words(NameKind::Pointers, *name),
            Step::Garble { place, at, byte } => {
                StepWords {
                    first: Kind::Garble.text(),
                    after: WordsAfter::ThreeNumbers(*place, *at, *byte),
                }
            }
            Step::Cut { place, bytes } => {
                StepWords {
                    first: Kind::Cut.text(),
                    after: WordsAfter::TwoNumbers(*place, *bytes),
                }
            }
            Step::Abandon { name } => name_words(NameKind::Abandon, *name),
            Step::Tick => StepWords {
                first: Kind::Tick.text(),
                after: WordsAfter::Nothing,
            },
            Step::Lose { place } => place_words(PlaceKind::Lose, *place),
            Step::Repeat { place } => place_words(PlaceKind::Repeat, *place),
            Step::RootSet { object, asker } => pair_words(PairKind::RootSet, *object, *asker),
            Step::Cast {
                word,
                prefix,
                asker,
            } => {
                StepWords {
                    first: Kind::Cast.text(),
                    after: WordsAfter::Cast(*word, TO, *prefix, FROM, *asker),
                }
            }
        }
    }
}
