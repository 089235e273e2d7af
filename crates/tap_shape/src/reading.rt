ghost use Rattle.std.specs.Prelude.{◌≡◌, ◌==◌, ◌+◌, ◌-◌, ◌^◌, ◌<◌, ◌≤◌, ℕ, length, take, drop, option_map, IfOk, IfSome, Err};
ghost use Rattle.memchr.specs.Find.{IsFirstByte, is_byte};
ghost use Rattle.tap_shape.specs.declared.fault.LogFault.TheVariants.{NotLog};
ghost use Rattle.tap_shape.specs.Reader.{HasBegun, Start, ended, first_line, if_taken, line_at, text_taken};
ghost use Rattle.tap_shape.specs.Text.{IsNotLog, IsTextOf, line_count};

use crate::fault::LogFault;
use crate::reader::Begun;
use crate::records::Records;
use memchr::memchr_iter;
use std::alloc::Global;
use tap_line::{Beginning, Line, LineFault, read_begin, read_line};
use tap_log::{Log, NoMemory};

// So many bytes are looked at at once.
const PIECE: usize = 192;

// How many lines there are in a piece, each with its line feed. So few are counted in a byte, and many bytes are looked at at once.
#[inline(always)]
fn piece_line_count(piece: &[u8]) -> u8
    requires { length piece.now ≤ PIECE }
    ensures { result ≡ line_count piece.now }
{
    let mut count = 0;
    for at in 0..piece.len() {
        count += u8::from(piece[at] == b'\n');
    }
    count
}

// How many lines there are, each with its line feed.
fn line_count(bytes: &[u8]) -> usize
    ensures { result ≡ line_count bytes.now }
{
    let mut count = 0;
    let mut rest = bytes;
    while rest.len() > PIECE {
        count += piece_line_count(&rest[..PIECE]) as usize;
        rest = &rest[PIECE..];
    }
    count + piece_line_count(rest) as usize
}

// The place of the first line feed. The iterator over all of them looks near by first, as most lines are short.
pub(crate) fn first_feed(text: &[u8]) -> Option<usize>
    ensures first { IsFirstByte (is_byte 10) text.now result }
    ensures inside { IfSome result (λ at. at < length text.now) }
{
    memchr_iter(b'\n', text).next()
}

// What stands before this place.
pub(crate) fn before(text: &[u8], at: usize) -> &[u8]
    requires { at < length text.now }
    ensures { result.now ≡ take at text.now }
{
    &text[..at]
}

// What stands after this place.
pub(crate) fn after(text: &[u8], at: usize) -> &[u8]
    requires { at < length text.now }
    ensures { result.now ≡ drop (at + 1) text.now }
{
    &text[at + 1..]
}

// The first line of a log that the text is.
#[tactic(auto, unfolding(crate::specs::Reader::first_line))]
fn first_line(text: &[u8]) -> Option<Beginning>
    ensures { result ≡ first_line text.now }
{
    read_begin(text)
}

// The log that the line begins which the text is.
#[inline(never)]
pub(crate) fn begin(alloc: Global, records: Records, text: &[u8]) -> Option<Begun>
    ensures { option_map HasBegun result ≡ text_taken (Start records) text.now }
{
    let first = first_line(text)?;
    Begun::new(alloc, records, first)
}

// Takes the line that the text is, if it may stand here.
#[inline(always)]
#[tactic(auto, unfolding(crate::specs::Reader::line_at))]
pub(crate) fn go_on(alloc: Global, begun: &mut Begun, text: &[u8]) -> Result<bool, NoMemory>
    ensures { IfOk result (λ taken. option_map HasBegun (if_taken taken begun.new) ≡ text_taken (HasBegun begun.old) text.now) }
{
    match read_line(alloc, &begun.settings, begun.records.is_carried(), text) {
        Ok(Line::Whole(entry)) => begun.whole(entry),
        Ok(line) => begun.take(alloc, line),
        Err(LineFault::NoLine) => Ok(false),
        Err(LineFault::NoMemory) => Err(NoMemory),
    }
}

// The records, if nothing is left of the text and the log may end here.
pub(crate) fn end(begun: Begun, rest: &[u8]) -> Result<Option<Records>, NoMemory>
    ensures { IfOk result (λ found. found ≡ ended (HasBegun begun) rest.now) }
{
    if rest.is_empty() {
        begun.finish()
    } else {
        Ok(None)
    }
}

/// Reads the text of a log. Memory is taken for as many records as there are lines, once, and for what single records have.
///
/// `LogFault::NotLog(k)`: the bytes are no log's text. The first k - 1 lines, each with its line feed, begin one, and the first k begin none; or
/// all lines begin one, and k is one more than theirs.
///
/// Rule: docs/FORMATS.md, "Texts that are read back".
pub fn read_log(alloc: Global, bytes: &[u8]) -> Result<Log, LogFault>
    requires few { length bytes.now < 2 ^ 32 - 1 }
    ensures log { IfOk result (λ log. IsTextOf bytes.now log.records) }
    ensures not_log { (k : ℕ) → result ≡ Err (NotLog k) → IsNotLog bytes.now k }
{
    let records = Records::with_room(alloc, line_count(bytes))?;
    let Some(at) = first_feed(bytes) else {
        return Err(LogFault::NotLog(1));
    };
    let Some(mut begun) = begin(alloc, records, before(bytes, at)) else {
        return Err(LogFault::NotLog(1));
    };
    let mut rest = after(bytes, at);
    let mut lines: u32 = 1;
    while let Some(at) = first_feed(rest) {
        if !go_on(alloc, &mut begun, before(rest, at))? {
            return Err(LogFault::NotLog(lines + 1));
        }
        rest = after(rest, at);
        lines += 1;
    }
    match end(begun, rest)? {
        Some(records) => Ok(records.into_log()),
        None => Err(LogFault::NotLog(lines + 1)),
    }
}
