ghost use Rattle.std.specs.Prelude.{◌≡◌, ◌≤◌, [], ◌∷◌, IfOk, IfSome, MatchOption};
ghost use Rattle.tap_name.specs.Name.{IsName, name_of_word};
ghost use Rattle.tap_scenario.specs.Step.{one_name, only};
ghost use Rattle.tap_host_line.specs.Line.{IsNodeLine, IsNodeStart, ack_line_of_words, cast_start_of_words, find_start_of_words, level_of_word, members_line_of_words, node_line_of_text, node_line_of_words, packet_line_of_words, seq_of_word, start_of_words, u32_of_word};

use crate::hexadecimal::bytes_of_hex;
use crate::line::{Line, Start};
use crate::memory::NoMemory;
use crate::verb::Verb;
use memchr::memchr;
use std::alloc::Global;
use tap_name::{List, Name, Settings, read_name};
use tap_scenario::{Word, Words, read_number};

// More members than this have no ties at rest. `tap_node` takes no more.
const MOST_MEMBERS: usize = 256;

// The number of a frame is at most this. It is `MOST_FRAMES` of `tap_carry`.
const MOST_SEQ: u64 = 4_000_000_000;

/// The line that a text is, if it is one: its words have one space between them and nothing before or after them, its names are names of the
/// settings, written digit by digit, and its numbers are decimal, with no sign and no leading zero.
///
/// The list that is lent may be taken for the frame of a packet, so that it mostly needs no memory of its own; it is spare, and what it then has isn't
/// said.
///
/// Rule: docs/NETWORK.md, "Lines".
pub fn read_line(
    alloc: Global,
    spare: &mut Vec<u8>,
    settings: &Settings,
    text: &[u8],
) -> Result<Option<Line>, NoMemory>
    ensures value { IfOk result (λ line. line ≡ node_line_of_text settings.now text.now) }
    ensures valid { IfOk result (λ line. IfSome line (IsNodeLine settings.now)) }
{
    let mut words = Words::of(text);
    let Some(word) = words.next() else {
        return Ok(None);
    };
    match Verb::of(word) {
        Some(verb) => line_of(alloc, spare, settings, verb, words),
        None => Ok(None),
    }
}

// The line with this verb and these words after it.
fn line_of(
    alloc: Global,
    spare: &mut Vec<u8>,
    settings: &Settings,
    verb: Verb,
    words: Words<'_>,
) -> Result<Option<Line>, NoMemory>
    ensures value { IfOk result (λ line. line ≡ node_line_of_words settings.now verb words.entry) }
    ensures valid { IfOk result (λ line. IfSome line (IsNodeLine settings.now)) }
{
    match verb {
        Verb::Packet => read_packet(alloc, spare, settings, words),
        Verb::Ack => Ok(read_ack(settings, words)),
        Verb::Members => read_members(alloc, settings, words),
        Verb::Tick => Ok(only(words, Line::Tick)),
        Verb::Status => Ok(only(words, Line::Status)),
        Verb::Join
        | Verb::Abandon
        | Verb::Publish
        | Verb::Withdraw
        | Verb::Find
        | Verb::Leave
        | Verb::Cast => match start_of(settings, verb, words) {
            Some(start) => Ok(Some(Line::Start { start })),
            None => Ok(None),
        },
    }
}

// The start with this verb and these words after it.
#[inline(never)]
fn start_of(settings: &Settings, verb: Verb, words: Words<'_>) -> Option<Start>
    ensures value { result ≡ start_of_words settings.now verb words.entry }
    ensures valid { IfSome result (IsNodeStart settings.now) }
{
    match verb {
        Verb::Join => {
            let via = one_name(settings, words)?;
            Some(Start::Join { via })
        }
        Verb::Publish => {
            let object = one_name(settings, words)?;
            Some(Start::Publish { object })
        }
        Verb::Withdraw => {
            let object = one_name(settings, words)?;
            Some(Start::Withdraw { object })
        }
        Verb::Abandon => none_left(words, Start::Abandon),
        Verb::Leave => none_left(words, Start::Leave),
        Verb::Find => read_find(settings, words),
        Verb::Cast => read_cast(settings, words),
        Verb::Packet | Verb::Ack | Verb::Members | Verb::Tick | Verb::Status => None,
    }
}

// This line, if no word is left.
fn only(mut words: Words<'_>, line: Line) -> Option<Line>
    ensures { result ≡ only line words.entry }
{
    if words.next().is_some() {
        return None;
    }
    Some(line)
}

// This start, if no word is left.
fn none_left(mut words: Words<'_>, start: Start) -> Option<Start>
    ensures { result ≡ only start words.entry }
{
    if words.next().is_some() {
        return None;
    }
    Some(start)
}

// The name that the words are, if they are one.
fn one_name(settings: &Settings, mut words: Words<'_>) -> Option<Name>
    ensures value { result ≡ one_name settings.now words.entry }
    ensures valid { IfSome result (IsName settings.now) }
{
    let name = words.next()?;
    if words.next().is_some() {
        return None;
    }
    name_of(settings, name)
}

// The first word of these, and those after it. It is mostly a name, so that its end is looked for in many bytes at once.
fn first_word<'a>(words: Words<'a>) -> Option<(&'a [u8], Words<'a>)>
    ensures { MatchOption result (words.entry ≡ []) (λ found. words.entry ≡ found.0.now ∷ found.1) }
{
    let text = words.text()?;
    if let Some(at) = memchr(b' ', text) {
        return Some((&text[..at], Words::of(&text[at + 1..])));
    }
    let mut words = Words::of(text);
    let word = words.next()?;
    Some((word, words))
}

// The name that a word spells.
fn name_of(settings: &Settings, word: &[u8]) -> Option<Name>
    ensures value { result ≡ name_of_word settings.now word.now }
    ensures valid { IfSome result (IsName settings.now) }
{
    read_name(settings, word).ok()
}

// The number below 2^32 that a word writes.
fn number_of(word: &[u8]) -> Option<u32>
    ensures { result ≡ u32_of_word word.now }
{
    match read_number(word, u32::MAX as u64) {
        Some(number) => Some(number as u32),
        None => None,
    }
}

// The number of a frame that a word writes.
fn seq_of(word: &[u8]) -> Option<u32>
    ensures value { result ≡ seq_of_word word.now }
    ensures from { IfSome result (λ seq. 1 ≤ seq) }
{
    let number = read_number(word, MOST_SEQ)?;
    if number == 0 {
        return None;
    }
    Some(number as u32)
}

// The packet that the words are.
#[inline(never)]
fn read_packet(
    alloc: Global,
    spare: &mut Vec<u8>,
    settings: &Settings,
    words: Words<'_>,
) -> Result<Option<Line>, NoMemory>
    ensures value { IfOk result (λ line. line ≡ packet_line_of_words settings.now words.entry) }
    ensures valid { IfOk result (λ line. IfSome line (IsNodeLine settings.now)) }
{
    let Some((from, mut words)) = first_word(words) else {
        return Ok(None);
    };
    let Some(seq) = words.next() else {
        return Ok(None);
    };
    let (Some(from), Some(seq)) = (name_of(settings, from), seq_of(seq)) else {
        return Ok(None);
    };
    // What is left is one word if it spells a frame, so it isn't looked through for a space.
    let Some(frame) = words.text() else {
        return Ok(None);
    };
    match bytes_of_hex(alloc, spare, frame)? {
        Some(bytes) => Ok(Some(Line::Packet {
            from,
            seq,
            frame: List::from_vec(bytes),
        })),
        None => Ok(None),
    }
}

// The acknowledgement that the words are.
#[inline(never)]
fn read_ack(settings: &Settings, words: Words<'_>) -> Option<Line>
    ensures value { result ≡ ack_line_of_words settings.now words.entry }
    ensures valid { IfSome result (IsNodeLine settings.now) }
{
    let (from, mut words) = first_word(words)?;
    let seq = words.next()?;
    if words.next().is_some() {
        return None;
    }
    let from = name_of(settings, from)?;
    let seq = seq_of(seq)?;
    Some(Line::Ack { from, seq })
}

// The members that the words are.
#[inline(never)]
fn read_members(
    alloc: Global,
    settings: &Settings,
    mut words: Words<'_>,
) -> Result<Option<Line>, NoMemory>
    ensures value { IfOk result (λ line. line ≡ members_line_of_words settings.now [] words.entry) }
    ensures valid { IfOk result (λ line. IfSome line (IsNodeLine settings.now)) }
{
    let mut names = List::new(alloc);
    while let Some(word) = words.next() {
        let Some(name) = name_of(settings, word) else {
            return Ok(None);
        };
        if names.len() >= MOST_MEMBERS {
            return Ok(None);
        }
        if names.as_slice().contains(&name) {
            return Ok(None);
        }
        names.push(name)?;
    }
    if names.is_empty() {
        return Ok(None);
    }
    Ok(Some(Line::Members { names }))
}

// The lookup that the words are.
#[inline(never)]
fn read_find(settings: &Settings, mut words: Words<'_>) -> Option<Start>
    ensures value { result ≡ find_start_of_words settings.now words.entry }
    ensures valid { IfSome result (IsNodeStart settings.now) }
{
    let ticket = words.next()?;
    let object = words.next()?;
    if words.next().is_some() {
        return None;
    }
    let ticket = number_of(ticket)?;
    let object = name_of(settings, object)?;
    Some(Start::Find { ticket, object })
}

// The cast that the words are.
#[inline(never)]
fn read_cast(settings: &Settings, mut words: Words<'_>) -> Option<Start>
    ensures value { result ≡ cast_start_of_words settings.now words.entry }
    ensures valid { IfSome result (IsNodeStart settings.now) }
{
    let number = words.next()?;
    let word = words.next()?;
    let level = words.next()?;
    if words.next().is_some() {
        return None;
    }
    let number = number_of(number)?;
    let word = Word::of(word)?;
    let level = level_of(settings, level)?;
    Some(Start::Cast {
        number,
        level,
        word,
    })
}

// How many digits a word says are shared.
fn level_of(settings: &Settings, word: &[u8]) -> Option<u8>
    ensures value { result ≡ level_of_word settings.now word.now }
    ensures to { IfSome result (λ level. level ≤ settings.now.digits) }
{
    match read_number(word, settings.digits() as u64) {
        Some(level) => Some(level as u8),
        None => None,
    }
}
