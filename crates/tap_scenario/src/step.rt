ghost use Rattle.std.specs.Prelude.{◌≡◌, ◌↔◌, ◌^◌, Some, option_map};
ghost use Rattle.tap_scenario.specs.declared.step.Step.TheVariants.{Cut};
ghost use Rattle.tap_scenario.specs.Kind.{link_of_pair};
ghost use Rattle.tap_scenario.specs.Step.{IsStep, one_name, two_names, one_number, two_numbers, step_of_name, step_of_pair, step_of_place, settle_of_words, garble_of_words, cast_of_words, step_of_words, step_of_text, text_of_step};

use crate::cast::{Prefix, Word};
use crate::kind::{FROM, Kind, MIXED, NEWEST, NameKind, PairKind, PlaceKind, TO};
use crate::number::read_number;
use crate::words::{Words, text_after};
use tap_name::{Name, Settings, read_name};

// The greatest place.
const PLACE_MAX: u64 = u32::MAX as u64;

/// One step of a scenario.
///
/// Rule: docs/FORMATS.md, "The scenario".
#[derive(Clone, Copy, Debug, PartialEq, Eq)]
pub enum Step {
    /// A new node joins by a core node.
    Join {
        /// The new node.
        name: Name,
        /// The core node that it asks.
        via: Name,
    },
    /// A core node departs.
    Depart {
        /// The node.
        name: Name,
    },
    /// A core node publishes that it has an object.
    Publish {
        /// The object.
        object: Name,
        /// The node, which becomes a server of it.
        server: Name,
    },
    /// A server of an object has it no more.
    Withdraw {
        /// The object.
        object: Name,
        /// The server.
        server: Name,
    },
    /// A core node looks up a server of an object.
    Find {
        /// The object.
        object: Name,
        /// The node that asks.
        asker: Name,
    },
    /// Walks from a core node towards the root of an object.
    Walk {
        /// The object whose root is sought.
        object: Name,
        /// The node where the walk starts.
        asker: Name,
    },
    /// Prints the root of an object.
    Root {
        /// The object.
        object: Name,
    },
    /// Has one frame taken; in a carried scenario, one packet arrive.
    Deliver {
        /// The place of the frame among the outstanding ones, or of the packet among those under way, from 0 for the first one.
        place: u32,
    },
    /// Has the frame that was sent first taken, until none is outstanding; in a carried scenario, the packet that was made first arrive,
    /// with a tick whenever none is under way and a frame awaits.
    Settle,
    /// Has the frame that was sent last taken, until none is outstanding; in a carried scenario likewise the packet that was made last.
    SettleNewest,
    /// Has frames taken in a mixed order, until none is outstanding; in a carried scenario packets arrive so.
    SettleMixed {
        /// The number from which the mixing starts.
        seed: u64,
    },
    /// Prints the links of a node's table.
    Table {
        /// The node.
        name: Name,
    },
    /// Prints the object pointers that a node holds.
    Pointers {
        /// The node.
        name: Name,
    },
    /// Offers a copy of a frame with one byte changed.
    Garble {
        /// The place of the frame among the outstanding ones, from 0.
        place: u32,
        /// The place of the byte, from 0.
        at: u32,
        /// What stands there instead.
        byte: u8,
    },
    /// Offers the first bytes of a frame.
    Cut {
        /// The place of the frame among the outstanding ones, from 0.
        place: u32,
        /// How many bytes.
        bytes: u32,
    },
    /// A joining node gives up.
    Abandon {
        /// The node.
        name: Name,
    },
    /// Sends each frame that awaits its acknowledgement once more.
    Tick,
    /// Loses a packet.
    Lose {
        /// The place of the packet among those under way, from 0.
        place: u32,
    },
    /// Repeats a packet.
    Repeat {
        /// The place of the packet among those under way, from 0.
        place: u32,
    },
    /// Prints the roots of the four salted names of an object.
    RootSet {
        /// The object.
        object: Name,
        /// The core node that is asked.
        asker: Name,
    },
    /// A core node spreads a word to all core nodes with a prefix.
    Cast {
        /// The word.
        word: Word,
        /// The prefix.
        prefix: Prefix,
        /// The node, whose own name begins with the prefix.
        asker: Name,
    },
}

// The step of the words after `settle`.
#[inline(never)]
fn read_settle(mut words: Words<'_>) -> Option<Step>
    ensures { result ≡ settle_of_words words.entry }
{
    let Some(word) = words.next() else {
        return Some(Step::Settle);
    };
    if word == MIXED.as_bytes() {
        let seed = words.one_number(u64::MAX)?;
        Some(Step::SettleMixed { seed })
    } else if word == NEWEST.as_bytes() {
        words.only(Step::SettleNewest)
    } else {
        None
    }
}

// The step of the words after `garble`.
#[inline(never)]
fn read_garble(mut words: Words<'_>) -> Option<Step>
    ensures { result ≡ garble_of_words words.entry }
{
    let place = read_number(words.next()?, PLACE_MAX)?;
    let (at, byte) = words.two_numbers(PLACE_MAX, 255)?;
    Some(Step::Garble {
        place: place as u32,
        at: at as u32,
        byte: byte as u8,
    })
}

// The step of the words after `cast`.
#[inline(never)]
fn read_cast(settings: &Settings, mut words: Words<'_>) -> Option<Step>
    ensures { result ≡ cast_of_words settings.now words.entry }
{
    let word = words.next()?;
    let to = words.next()?;
    let prefix = words.next()?;
    let from = words.next()?;
    let asker = words.next()?;
    if words.next().is_some() || to != TO.as_bytes() || from != FROM.as_bytes() {
        return None;
    }
    let word = Word::of(word)?;
    let prefix = Prefix::read(settings, prefix)?;
    let asker = read_name(settings, asker).ok()?;
    Some(Step::Cast {
        word,
        prefix,
        asker,
    })
}

// The step of a kind that has one name.
#[inline(never)]
fn read_named(settings: &Settings, kind: NameKind, mut words: Words<'_>) -> Option<Step>
    ensures { result ≡ option_map (step_of_name kind) (one_name settings.now words.entry) }
{
    let name = words.next()?;
    if words.next().is_some() {
        return None;
    }
    match read_name(settings, name) {
        Ok(name) => Some(kind.step(name)),
        Err(_) => None,
    }
}

// The step of a kind that has two names with a word between them.
#[inline(never)]
fn read_pair(settings: &Settings, kind: PairKind, words: Words<'_>) -> Option<Step>
    ensures { result ≡ option_map (λ names. step_of_pair kind names.0 names.1) (two_names settings.now (link_of_pair kind) words.entry) }
{
    let text = words.text()?;
    let (first, others) = text.split_at_checked(settings.digits() as usize)?;
    let second = text_after(others, kind.between().as_bytes())?;
    let Ok(first) = read_name(settings, first) else {
        return None;
    };
    let Ok(second) = read_name(settings, second) else {
        return None;
    };
    Some(kind.step(first, second))
}

// The step of a kind that has one place.
#[inline(never)]
fn read_place(kind: PlaceKind, words: Words<'_>) -> Option<Step>
    ensures { result ≡ option_map (step_of_place kind) (one_number (2 ^ 32) words.entry) }
{
    let place = words.one_number(PLACE_MAX)?;
    Some(kind.step(place as u32))
}

// The step of the words after `cut`.
#[inline(never)]
fn read_cut(words: Words<'_>) -> Option<Step>
    ensures { result ≡ option_map (λ numbers. Cut numbers.0 numbers.1) (two_numbers (2 ^ 32) (2 ^ 32) words.entry) }
{
    let (place, bytes) = words.two_numbers(PLACE_MAX, PLACE_MAX)?;
    Some(Step::Cut {
        place: place as u32,
        bytes: bytes as u32,
    })
}

// The step that these words are: the first one gives its kind, which has to be there.
fn step_of_words(settings: &Settings, carrier: bool, mut words: Words<'_>) -> Option<Step>
    ensures { result ≡ step_of_words settings.now carrier words.entry }
{
    let kind = Kind::of(words.next()?)?;
    if !kind.is_there(settings, carrier) {
        return None;
    }
    match kind {
        Kind::Name(kind) => read_named(settings, kind, words),
        Kind::Pair(kind) => read_pair(settings, kind, words),
        Kind::Place(kind) => read_place(kind, words),
        Kind::Settle => read_settle(words),
        Kind::Garble => read_garble(words),
        Kind::Cut => read_cut(words),
        Kind::Tick => words.only(Step::Tick),
        Kind::Cast => read_cast(settings, words),
    }
}

/// The step that a text is, if it is one: its words have one space between them and nothing before or after them, its
/// names are names of the settings, written digit by digit, and its numbers are decimal, with no sign and no leading zero. The steps `tick`,
/// `lose` and `repeat` are there in a carried scenario only, `garble` and `cut` in any other only, and `rootset` only
/// if names have 40 digits in base 16.
///
/// Rule: docs/FORMATS.md, "The scenario".
#[inline(always)]
pub fn read_step(settings: &Settings, carrier: bool, text: &[u8]) -> Option<Step>
    ensures value { result ≡ step_of_text settings.now carrier text.now }

    // A text is read as a step exactly if it is that step's one text, and the step is one of these settings.
    ensures exact { (step : Step)
        → ((result ≡ Some step) ↔ ((text.now ≡ text_of_step step) × IsStep settings.now carrier step)) }
{
    // A digit below this base prints as one byte, which is read as that digit alone.
    let base = settings.base();
    prove!(base <= 16);
    step_of_words(settings, carrier, Words::of(text))
}
