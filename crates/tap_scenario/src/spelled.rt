ghost use Rattle.std.specs.Prelude.{◌≡◌, ◌≤◌, Bool, None, option_map};
ghost use Rattle.tap_scenario.specs.declared.kind.Kind.TheVariants as shape;
ghost use Rattle.tap_scenario.specs.PlainWords.{one_in, first_in, plain_one, plain_pair, plain_cast, plain_words};
ghost use Rattle.tap_scenario.specs.Spread.{words_for_salts, spread, steps_of_words, steps_in};
ghost use Rattle.tap_scenario.specs.Step.{step_of_kind, step_of_words, step_of_text};
ghost use Rattle.tap_scenario.specs.Words.{words};

use crate::cast::{Prefix, Word};
use crate::kind::{FROM, Kind, NameKind, PairKind, SpreadKind, TO};
use crate::spelling::{name_in, object_in};
use crate::step::Step;
use crate::words::Words;
use tap_name::{Name, Settings};
use tap_salt::salts_of;

// The steps that a text stands for.
#[derive(Clone, Copy)]
pub(crate) enum Spelled {
    One(Step),
    Four([Step; 4]),
}

impl Spelled {
    // The steps, lent.
    pub(crate) fn as_slice(&self) -> &[Step]
        ensures { result.now ≡ steps_in self.now }
    {
        match self {
            Spelled::One(step) => std::slice::from_ref(step),
            Spelled::Four(steps) => steps,
        }
    }
}

// The name that a word writes as the one name of a step of this kind.
fn one_in(settings: &Settings, kind: NameKind, word: &[u8]) -> Option<Name>
    ensures { result ≡ one_in settings.now kind word.now }
{
    match kind {
        NameKind::Root => object_in(settings, word),
        _ => name_in(settings, word),
    }
}

// The name that a word writes as the first name of a step of this kind.
fn first_in(settings: &Settings, kind: PairKind, word: &[u8]) -> Option<Name>
    ensures { result ≡ first_in settings.now kind word.now }
{
    match kind {
        PairKind::Join | PairKind::RootSet => name_in(settings, word),
        _ => object_in(settings, word),
    }
}

// The step of a kind that has one name.
fn spelled_one(settings: &Settings, kind: NameKind, mut words: Words<'_>) -> Option<Step>
    requires { settings.now.base ≤ 16 }
    ensures { result ≡ step_of_kind settings.now (shape.Name kind) (plain_one settings.now kind words.entry) }
{
    let name = words.next()?;
    if words.next().is_some() {
        return None;
    }
    let name = one_in(settings, kind, name)?;
    Some(kind.step(name))
}

// The step of a kind that has two names with a word between them.
fn spelled_pair(settings: &Settings, kind: PairKind, words: Words<'_>) -> Option<Step>
    requires { settings.now.base ≤ 16 }
    ensures { result ≡ step_of_kind settings.now (shape.Pair kind) (plain_pair settings.now kind words.entry) }
{
    let (first, second) = words.around(kind.link())?;
    let first = first_in(settings, kind, first)?;
    let second = name_in(settings, second)?;
    Some(kind.step(first, second))
}

// The step of the words after `cast`.
fn spelled_cast(settings: &Settings, mut words: Words<'_>) -> Option<Step>
    requires { settings.now.base ≤ 16 }
    ensures { result ≡ step_of_kind settings.now shape.Cast (plain_cast settings.now words.entry) }
{
    let word = words.next()?;
    let to = words.next()?;
    let prefix = words.next()?;
    let from = words.next()?;
    let asker = words.next()?;
    if words.next().is_some() || to != TO.as_bytes() || from != FROM.as_bytes() {
        return None;
    }
    let word = Word::of(word)?;
    let prefix = Prefix::read(settings, prefix)?;
    let asker = name_in(settings, asker)?;
    Some(Step::Cast {
        word,
        prefix,
        asker,
    })
}

// The step that these words are once they are written plainly, if they aren't one as they stand.
fn spelled_step(settings: &Settings, carrier: bool, mut words: Words<'_>) -> Option<Step>
    requires base { settings.now.base ≤ 16 }
    requires not_plain { step_of_words settings.now carrier words ≡ None }
    ensures { result ≡ step_of_words settings.now carrier (plain_words settings.now words.entry) }
{
    let kind = Kind::of(words.next()?)?;
    if !kind.is_there(settings, carrier) {
        return None;
    }
    match kind {
        Kind::Name(kind) => spelled_one(settings, kind, words),
        Kind::Pair(kind) => spelled_pair(settings, kind, words),
        Kind::Cast => spelled_cast(settings, words),
        _ => None,
    }
}

// The steps for which the words after this first word stand, one for each salt of the object.
fn steps_for_salts(settings: &Settings, kind: SpreadKind, words: Words<'_>) -> Option<[Step; 4]>
    requires { settings.now.base ≤ 16 }
    ensures { (carrier : Bool) → result ≡ steps_of_words settings.now carrier (words_for_salts kind words.entry) }
{
    let pair = kind.pair();
    let (object, other) = words.around(pair.link())?;
    let object = name_in(settings, object)?;
    let other = name_in(settings, other)?;
    let [first, second, third, fourth] = salts_of(settings, &object)?;
    Some([
        pair.step(first, other),
        pair.step(second, other),
        pair.step(third, other),
        pair.step(fourth, other),
    ])
}

// The steps that a text stands for, if it isn't one as it stands.
#[inline(never)]
pub(crate) fn spelled_steps(settings: &Settings, carrier: bool, text: &[u8]) -> Option<Spelled>
    requires { step_of_text settings.now carrier text.now ≡ None }
    ensures { option_map steps_in result ≡ steps_of_words settings.now carrier (spread (words text.now)) }
{
    // A digit below this base prints as one byte, which is read as that digit alone.
    let base = settings.base();
    prove!(base <= 16);
    let mut words = Words::of(text);
    match SpreadKind::of(words.next()?) {
        Some(kind) => Some(Spelled::Four(steps_for_salts(settings, kind, words)?)),
        None => {
            let step = spelled_step(settings, carrier, Words::of(text))?;
            Some(Spelled::One(step))
        }
    }
}
