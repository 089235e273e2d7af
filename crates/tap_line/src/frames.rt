ghost use Rattle.std.specs.Prelude.{◌≡◌, Some, None, Err, IfOk};
ghost use Rattle.tap_scenario.specs.Words.{words};
ghost use Rattle.tap_report.specs.Frames.{word_of_kind};
ghost use Rattle.tap_line.specs.declared.fault.LineFault.TheVariants.{NoLine};
ghost use Rattle.tap_line.specs.Reading.{bytes_of_sent, cast_line_of_words, cast_of_words, chosen_load, is_head, packet_of_words, sent_of_words};

use crate::fault::LineFault;
use crate::hexadecimal::bytes_of_hex;
use crate::line::Line;
use crate::names::is_text;
use crate::taking::{PLACE_MAX, only, take_letters, take_name, take_number, take_word};
use std::alloc::Global;
use tap_log::Record;
use tap_name::{Name, Settings};
use tap_scenario::{Word, Words, is_same};
use tap_wire::{Bytes, decode_head};

// The parts of a cast that begins.
#[derive(Clone, Copy)]
pub(crate) struct CastParts {
    pub(crate) cast: u32,
    pub(crate) word: Word,
    pub(crate) level: u8,
    pub(crate) name: Name,
}

// What a packet carries: an acknowledgement, or a frame.
fn load(word: &[u8]) -> Option<bool>
    ensures { result ≡ chosen_load word.now }
{
    match word {
        b"data" => Some(false),
        b"ack" => Some(true),
        _ => None,
    }
}

// A packet, after the first word.
#[inline(never)]
pub(crate) fn packet_of(mut words: Words<'_>) -> Option<Line>
    ensures { result ≡ packet_of_words words.entry }
{
    let number = take_number(&mut words, PLACE_MAX)?;
    let ack = load(words.next()?)?;
    let frame = take_number(&mut words, PLACE_MAX)?;
    only(
        words,
        Line::Whole(Record::Packet {
            number: number as u32,
            frame: frame as u32,
            ack,
        }),
    )
}

// The word of the kind of frame with this code, if there is one.
fn word_of_kind(code: u8) -> &'static [u8]
    ensures { result.now ≡ word_of_kind code }
{
    match code {
        1 => b"seek",
        2 => b"tell",
        3 => b"hello",
        4 => b"heard",
        5 => b"ack",
        6 => b"done",
        7 => b"release",
        8 => b"link",
        9 => b"lay",
        10 => b"find",
        11 => b"answer",
        12 => b"leave",
        13 => b"left",
        14 => b"gone",
        15 => b"forget",
        16 => b"cast",
        17 => b"castack",
        _ => b"",
    }
}

// Whether the head of these bytes is read, and these are the words of its kind and its names.
fn is_head(settings: &Settings, bytes: &[u8], kind: &[u8], from: &[u8], to: &[u8]) -> bool
    ensures { result ≡ is_head settings.now bytes.now kind.now from.now to.now }
{
    match decode_head(settings, bytes) {
        Ok(head) => {
            is_same(kind, word_of_kind(head.kind))
                && is_text(from, &head.from)
                && is_text(to, &head.to)
        }
        Err(_) => false,
    }
}

// A frame that is sent, from the text of its bytes, whose head has these words. No digit is a space, so a text of more than one word isn't
// read.
#[inline(never)]
fn sent_text(
    alloc: Global,
    settings: &Settings,
    number: u32,
    kind: &[u8],
    from: &[u8],
    to: &[u8],
    text: &[u8],
) -> Result<Line, LineFault>
    ensures ok { IfOk result (λ line. bytes_of_sent settings.now number kind.now from.now to.now (words text.now) ≡ Some line) }
    ensures none { result ≡ Err NoLine → bytes_of_sent settings.now number kind.now from.now to.now (words text.now) ≡ None }
{
    let bytes = bytes_of_hex(alloc, text)?;
    if !is_head(settings, bytes.as_slice(), kind, from, to) {
        return Err(LineFault::NoLine);
    }
    Ok(Line::Whole(Record::Sent { number, bytes }))
}

// A frame that is sent, after the first word.
#[inline(never)]
pub(crate) fn sent_of(
    alloc: Global,
    settings: &Settings,
    mut words: Words<'_>,
) -> Result<Line, LineFault>
    ensures ok { IfOk result (λ line. sent_of_words settings.now words.entry ≡ Some line) }
    ensures none { result ≡ Err NoLine → sent_of_words settings.now words.entry ≡ None }
{
    let number = take_number(&mut words, PLACE_MAX).ok_or(LineFault::NoLine)?;
    let kind = words.next().ok_or(LineFault::NoLine)?;
    let from = words.next().ok_or(LineFault::NoLine)?;
    let to = words.next().ok_or(LineFault::NoLine)?;
    let text = words.text().ok_or(LineFault::NoLine)?;
    sent_text(alloc, settings, number as u32, kind, from, to, text)
}

// A cast that begins, after the first word.
#[inline(never)]
fn cast_of(settings: &Settings, mut words: Words<'_>) -> Option<CastParts>
    ensures { result ≡ cast_of_words settings.now words.entry }
{
    let cast = take_number(&mut words, PLACE_MAX)?;
    let word = take_letters(&mut words)?;
    take_word(&mut words, b"level")?;
    let level = take_number(&mut words, 255)?;
    take_word(&mut words, b"from")?;
    let name = take_name(&mut words, settings)?;
    only(
        words,
        CastParts {
            cast: cast as u32,
            word,
            level: level as u8,
            name,
        },
    )
}

// A cast that begins, as a line.
#[inline(never)]
pub(crate) fn cast_line_of(
    alloc: Global,
    settings: &Settings,
    words: Words<'_>,
) -> Result<Line, LineFault>
    ensures ok { IfOk result (λ line. cast_line_of_words settings.now words.entry ≡ Some line) }
    ensures none { result ≡ Err NoLine → cast_line_of_words settings.now words.entry ≡ None }
{
    let parts = cast_of(settings, words).ok_or(LineFault::NoLine)?;
    let word = Bytes::copy_of(alloc, parts.word.as_slice())?;
    Ok(Line::Whole(Record::CastFrom {
        cast: parts.cast,
        word,
        level: parts.level,
        name: parts.name,
    }))
}
