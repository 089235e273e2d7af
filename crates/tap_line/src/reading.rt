ghost use Rattle.std.specs.Prelude.{◌≡◌, ◌≢◌, ◌↔◌, Some, None, Ok, Err, IfOk};
ghost use Rattle.tap_report.specs.Starts.{begin_line};
ghost use Rattle.tap_line.specs.declared.line.Line.{Line};
ghost use Rattle.tap_line.specs.declared.line.Beginning.{Beginning};
ghost use Rattle.tap_line.specs.declared.fault.LineFault.TheVariants.{NoLine, NoMemory};
ghost use Rattle.tap_line.specs.Line.{IsBeginning, IsLine, text_of_line};
ghost use Rattle.tap_line.specs.Reading.{begin_of_all_words, begin_of_text, line_of_kind, line_of_text, line_of_words, name_line_of_words, number_line_of_words, plain_line_of_kind};

use crate::fault::LineFault;
use crate::frames::{cast_line_of, packet_of, sent_of};
use crate::kind::{Kind, NameKind, NumberKind};
use crate::line::{Beginning, Line};
use crate::lookups::{answered_of, asked_of, pair_of, reached_of};
use crate::openings::{begin_of, step_of};
use crate::paths::{root_set_line_of, walked_of};
use crate::refusals::{garbled_of, refused_of};
use crate::tables::{link_of, pointer_of, pointers_of, table_of};
use crate::taking::{PLACE_MAX, only, take_name, take_number, take_word, told};
use std::alloc::Global;
use tap_log::Record;
use tap_name::Settings;
use tap_scenario::Words;

// A line of a kind with one number, after the first word.
#[inline(never)]
fn number_of(kind: NumberKind, mut words: Words<'_>) -> Option<Line>
    ensures { result ≡ number_line_of_words kind words.entry }
{
    let number = take_number(&mut words, PLACE_MAX)?;
    only(words, kind.line(number as u32))
}

// A line of a kind with one name, after the first word.
#[inline(never)]
fn name_of(settings: &Settings, kind: NameKind, mut words: Words<'_>) -> Option<Line>
    ensures { result ≡ name_line_of_words settings.now kind words.entry }
{
    let name = take_name(&mut words, settings)?;
    only(words, kind.line(name))
}

// The line of a kind that wants no memory, after the first word; no other kind has one.
#[inline(never)]
fn plain_of(settings: &Settings, carrier: bool, kind: Kind, words: Words<'_>) -> Option<Line>
    ensures { result ≡ plain_line_of_kind settings.now carrier kind words.entry }
{
    match kind {
        Kind::Number(kind) => number_of(kind, words),
        Kind::Name(kind) => name_of(settings, kind, words),
        Kind::Pair(kind) => pair_of(settings, kind, words),
        Kind::Begin => Some(Line::Begin(begin_of(words)?)),
        Kind::Step => step_of(settings, carrier, words),
        Kind::Asked => asked_of(settings, words),
        Kind::Answered => answered_of(settings, words),
        Kind::Table => table_of(settings, words),
        Kind::Link => link_of(settings, words),
        Kind::Pointers => pointers_of(settings, words),
        Kind::Pointer => pointer_of(settings, words),
        Kind::Refused => refused_of(settings, words),
        Kind::Garbled => garbled_of(words),
        Kind::Carrier => only(words, Line::Whole(Record::Carrier)),
        Kind::Packet => packet_of(words),
        Kind::Ticked => only(words, Line::Whole(Record::Ticked)),
        Kind::Reached => reached_of(settings, words),
        Kind::End => told(words, b"no memory", Line::End),
        Kind::Sent | Kind::Walked | Kind::RootSet | Kind::Cast => None,
    }
}

// The line of a kind, after the first word.
fn line_of_kind(
    alloc: Global,
    settings: &Settings,
    carrier: bool,
    kind: Kind,
    words: Words<'_>,
) -> Result<Line, LineFault>
    ensures ok { IfOk result (λ line. line_of_kind settings.now carrier kind words.entry ≡ Some line) }
    ensures none { result ≡ Err NoLine → line_of_kind settings.now carrier kind words.entry ≡ None }
{
    match kind {
        Kind::Sent => sent_of(alloc, settings, words),
        Kind::Walked => walked_of(alloc, settings, words),
        Kind::RootSet => root_set_line_of(alloc, settings, words),
        Kind::Cast => cast_line_of(alloc, settings, words),
        _ => plain_of(settings, carrier, kind, words).ok_or(LineFault::NoLine),
    }
}

// The line that the words are.
fn line_of_words(
    alloc: Global,
    settings: &Settings,
    carrier: bool,
    mut words: Words<'_>,
) -> Result<Line, LineFault>
    ensures ok { IfOk result (λ line. line_of_words settings.now carrier words.entry ≡ Some line) }
    ensures none { result ≡ Err NoLine → line_of_words settings.now carrier words.entry ≡ None }
{
    let word = words.next().ok_or(LineFault::NoLine)?;
    let kind = Kind::of(word).ok_or(LineFault::NoLine)?;
    line_of_kind(alloc, settings, carrier, kind, words)
}

/// The line that a text is, in the log of a run with these settings that is carried or not. The text has no line feed. Its words have one
/// space between them and nothing before or after them. Names are names of the settings; numbers are decimal, with no sign and no leading
/// zero, and within their types; bytes are hexadecimal digits without capital letters; the kind and the names of a frame are those of its
/// bytes, and the asker, the root and the hops of a walk those of its nodes.
///
/// `NoLine`: it is the text of no line. `NoMemory`: memory was refused, which only frames of more than 56 bytes, walks and root sets
/// want.
///
/// Rule: docs/FORMATS.md, "The printed text".
pub fn read_line(
    alloc: Global,
    settings: &Settings,
    carrier: bool,
    text: &[u8],
) -> Result<Line, LineFault>
    ensures line { IfOk result (λ line. line_of_text settings.now carrier text.now ≡ Some line) }
    ensures none { result ≡ Err NoLine → line_of_text settings.now carrier text.now ≡ None }

    // Unless memory is refused, a text is read as a line exactly if it is that line's one text, and the line is one of such a log.
    ensures exact { result ≢ Err NoMemory → (line : Line)
        → ((result ≡ Ok line) ↔ ((text.now ≡ text_of_line settings.now line) × IsLine settings.now carrier line)) }
{
    // A digit below this base prints as one byte, which is read as that digit alone.
    let base = settings.base();
    prove!(base <= 16);
    line_of_words(alloc, settings, carrier, Words::of(text))
}

// The beginning that the words are.
fn begin_of_all(mut words: Words<'_>) -> Option<Beginning>
    ensures { result ≡ begin_of_all_words words.entry }
{
    take_word(&mut words, b"begin")?;
    begin_of(words)
}

/// The first line of a beginning that a text is, if it is one: it comes before there are settings to read others with. The text has no line
/// feed.
///
/// Rule: docs/FORMATS.md, "The printed text".
pub fn read_begin(text: &[u8]) -> Option<Beginning>
    ensures value { result ≡ begin_of_text text.now }

    // A text is read as the beginning with these settings and so many frames exactly if it is its one text, and these are within
    // their limits.
    ensures exact { (begun : Beginning)
        → ((result ≡ Some begun) ↔ ((text.now ≡ begin_line begun.settings begun.frames) × IsBeginning begun)) }
{
    begin_of_all(Words::of(text))
}
