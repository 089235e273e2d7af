ghost use Rattle.std.specs.Prelude.{◌≡◌};
ghost use Rattle.tap_line.specs.Reading.{answered_of_words, asked_of_words, pair_line_of_words, reached_of_words, server_of_words};

use crate::kind::PairKind;
use crate::line::Line;
use crate::taking::{PLACE_MAX, only, take_name, take_number, take_word};
use tap_log::Record;
use tap_name::{Name, Settings};
use tap_scenario::{Words, is_same};

// An object and a node that has it, after the first word.
#[inline(never)]
pub(crate) fn pair_of(settings: &Settings, kind: PairKind, mut words: Words<'_>) -> Option<Line>
    ensures { result ≡ pair_line_of_words settings.now kind words.entry }
{
    let object = take_name(&mut words, settings)?;
    take_word(&mut words, b"at")?;
    let node = take_name(&mut words, settings)?;
    only(words, kind.line(object, node))
}

// A lookup that is asked, after the first word.
#[inline(never)]
pub(crate) fn asked_of(settings: &Settings, mut words: Words<'_>) -> Option<Line>
    ensures { result ≡ asked_of_words settings.now words.entry }
{
    let ticket = take_number(&mut words, PLACE_MAX)?;
    let object = take_name(&mut words, settings)?;
    take_word(&mut words, b"from")?;
    let asker = take_name(&mut words, settings)?;
    only(
        words,
        Line::Whole(Record::Asked {
            ticket: ticket as u32,
            object,
            asker,
        }),
    )
}

// The answer of a lookup: a server or none.
fn server_of(settings: &Settings, mut words: Words<'_>) -> Option<Option<Name>>
    ensures { result ≡ server_of_words settings.now words.entry }
{
    let word = words.next()?;
    if is_same(word, b"none") {
        only(words, None)
    } else if is_same(word, b"server") {
        let server = take_name(&mut words, settings)?;
        only(words, Some(server))
    } else {
        None
    }
}

// The answer of a lookup, after the first word.
#[inline(never)]
pub(crate) fn answered_of(settings: &Settings, mut words: Words<'_>) -> Option<Line>
    ensures { result ≡ answered_of_words settings.now words.entry }
{
    let ticket = take_number(&mut words, PLACE_MAX)?;
    let server = server_of(settings, words)?;
    Some(Line::Whole(Record::Answered {
        ticket: ticket as u32,
        server,
    }))
}

// A node that a cast reaches, after the first word.
#[inline(never)]
pub(crate) fn reached_of(settings: &Settings, mut words: Words<'_>) -> Option<Line>
    ensures { result ≡ reached_of_words settings.now words.entry }
{
    let cast = take_number(&mut words, PLACE_MAX)?;
    let name = take_name(&mut words, settings)?;
    only(
        words,
        Line::Whole(Record::Reached {
            cast: cast as u32,
            name,
        }),
    )
}
