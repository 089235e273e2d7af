ghost use Rattle.std.specs.Prelude.{◌≡◌};
ghost use Rattle.tap_line.specs.Reading.{chosen_link, chosen_node, link_of_words, pointer_of_words, pointers_of_words, table_of_words};

use crate::line::Line;
use crate::taking::{only, take_digit, take_name, take_number, take_word};
use tap_log::{LinkLine, LinkWord, NodeWord, Pair};
use tap_name::{Settings, Slot};
use tap_scenario::Words;

// What the word says of a node.
fn node_word(word: &[u8]) -> Option<NodeWord>
    ensures { result ≡ chosen_node word.now }
{
    match word {
        b"joining" => Some(NodeWord::Joining),
        b"core" => Some(NodeWord::Core),
        b"leaving" => Some(NodeWord::Leaving),
        _ => None,
    }
}

// What the word says of a link.
fn link_word(word: &[u8]) -> Option<LinkWord>
    ensures { result ≡ chosen_link word.now }
{
    match word {
        b"pin" => Some(LinkWord::Pin),
        b"settled" => Some(LinkWord::Settled),
        b"leaving" => Some(LinkWord::Leaving),
        _ => None,
    }
}

// The first line of a table, after the first word.
#[inline(never)]
pub(crate) fn table_of(settings: &Settings, mut words: Words<'_>) -> Option<Line>
    ensures { result ≡ table_of_words settings.now words.entry }
{
    let name = take_name(&mut words, settings)?;
    let status = node_word(words.next()?)?;
    take_word(&mut words, b"links")?;
    let links = take_number(&mut words, u64::MAX)?;
    only(
        words,
        Line::Table {
            name,
            status,
            links,
        },
    )
}

// A link of a table, after the first word.
#[inline(never)]
pub(crate) fn link_of(settings: &Settings, mut words: Words<'_>) -> Option<Line>
    ensures { result ≡ link_of_words settings.now words.entry }
{
    let level = take_number(&mut words, 255)?;
    let digit = take_digit(&mut words, settings)?;
    let name = take_name(&mut words, settings)?;
    let kind = link_word(words.next()?)?;
    let slot = Slot {
        level: level as u8,
        digit,
    };
    only(words, Line::Link(LinkLine { slot, name, kind }))
}

// The first line of pointers, after the first word.
#[inline(never)]
pub(crate) fn pointers_of(settings: &Settings, mut words: Words<'_>) -> Option<Line>
    ensures { result ≡ pointers_of_words settings.now words.entry }
{
    let name = take_name(&mut words, settings)?;
    take_word(&mut words, b"count")?;
    let pairs = take_number(&mut words, u64::MAX)?;
    only(words, Line::Pointers { name, pairs })
}

// A pointer, after the first word.
#[inline(never)]
pub(crate) fn pointer_of(settings: &Settings, mut words: Words<'_>) -> Option<Line>
    ensures { result ≡ pointer_of_words settings.now words.entry }
{
    let object = take_name(&mut words, settings)?;
    let server = take_name(&mut words, settings)?;
    only(words, Line::Pointer(Pair { object, server }))
}
