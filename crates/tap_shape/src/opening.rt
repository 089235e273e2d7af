ghost use Rattle.std.specs.Prelude.{◌≡◌, None, Ok, Some, List as GhostList, IfOk, IfSome, if◌then◌else◌, option_map};
ghost use Rattle.tap_log.specs.declared.record.Record.{Record};
ghost use Rattle.tap_shape.specs.Opening.{begins_with, ends, opening, opens};
ghost use Rattle.tap_shape.specs.Reader.{HasBegun, finished, if_taken, text_taken};
ghost use Rattle.tap_shape.specs.Text.{IsTextOf};

use crate::reader::Begun;
use crate::reading::{after, before, begin, first_feed, go_on};
use crate::records::Records;
use std::alloc::Global;
use tap_log::{Log, NoMemory};

// Whether a text begins with a word, byte by byte: most differ in the first ones.
#[inline(always)]
fn begins_with(text: &[u8], word: &[u8]) -> bool
    ensures { result ≡ begins_with text.now word.now }
{
    if text.len() < word.len() {
        return false;
    }
    for at in 0..word.len() {
        if text[at] != word[at] {
            return false;
        }
    }
    true
}

// Whether a line is of the opening: a member, that packets carry the frames, or the beginning of a step.
#[inline(always)]
#[tactic(auto, unfolding(crate::specs::Opening::opens))]
fn opens(text: &[u8]) -> bool
    ensures { result ≡ opens text.now }
{
    begins_with(text, b"step ") || begins_with(text, b"member ") || begins_with(text, b"carrier")
}

// Whether a line says that all steps were run.
#[inline(always)]
#[tactic(auto, unfolding(crate::specs::Opening::ends))]
fn ends(text: &[u8]) -> bool
    ensures { result ≡ ends text.now }
{
    begins_with(text, b"done ")
}

// Takes a line if it is of the opening, and passes it over if it isn't; whether it was taken or passed over.
#[inline(always)]
fn go_past(alloc: Global, begun: &mut Begun, text: &[u8]) -> Result<bool, NoMemory>
    ensures { IfOk result (λ past. option_map HasBegun (if_taken past begun.new)
        ≡ (if opens text.now then text_taken (HasBegun begun.old) text.now else Some (HasBegun begun.old))) }
{
    if opens(text) {
        return go_on(alloc, begun, text);
    }
    Ok(true)
}

// The log, if it may end here.
fn finish(begun: Begun) -> Result<Option<Log>, NoMemory>
    ensures { IfOk result (λ found. option_map (λ log. log.records) found ≡ finished begun) }
{
    let Some(records) = begun.finish()? else {
        return Ok(None);
    };
    Ok(Some(records.into_log()))
}

/// The log of the opening of a text: of its first line and the later ones that are a member, say that packets carry the frames, or begin a step, up
/// to the first that says that all steps were run. All others are passed over. `None` comes exactly if the opening is no log's text. Memory is
/// taken for the records of the opening alone.
///
/// Rule: docs/FORMATS.md, "Texts that are read back".
pub fn read_opening(alloc: Global, bytes: &[u8]) -> Result<Option<Log>, NoMemory>
    ensures log { IfOk result (λ found. IfSome found (λ log. IsTextOf (opening bytes.now) log.records)) }
    ensures none { result ≡ Ok None → (log : GhostList Record) → IsTextOf (opening bytes.now) log → ⊥ }
{
    let Some(at) = first_feed(bytes) else {
        return Ok(None);
    };
    let Some(mut begun) = begin(alloc, Records::new(alloc), before(bytes, at)) else {
        return Ok(None);
    };
    let mut rest = after(bytes, at);
    while let Some(at) = first_feed(rest) {
        let text = before(rest, at);
        if ends(text) {
            return finish(begun);
        }
        if !go_past(alloc, &mut begun, text)? {
            return Ok(None);
        }
        rest = after(rest, at);
    }
    finish(begun)
}
