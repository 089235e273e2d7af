//! Runs a scenario for a page: bytes in, bytes out.
//!
//! A static library with one function, [`tap_page_run`], for a host that keeps both in its memory.
#![tactic(auto)]

ghost use Rattle.std.specs.Prelude.{◌≡◌, ◌≤◌, IfErr, IfOk, length, map, take};
ghost use Rattle.std.specs.String.{string_bytes};
ghost use Rattle.tap_page.specs.Page.{HasAnswered, HasPrinted, HasRunText, page_words};

use std::alloc::Global;
use tap_io::{MemorySink, MemorySource, NoMemory};
use tap_top::Status;

// The most bytes that one read gives, or one write takes.
const PIECE: usize = 65_536;

// The words of a command line that ask for the long or the brief text of a scenario.
fn words_of(alloc: Global, brief: bool) -> Result<Vec<String>, NoMemory>
    ensures { IfOk result (λ words. map string_bytes words.items ≡ page_words brief) }
{
    let mut words = Vec::new(alloc);
    if brief {
        words.push(String::from_str(alloc, "--brief")?)?;
    }
    Ok(words)
}

// Copies what was printed to the front of the room. Answers the exit status: that of a failed write if there is no room for all of it.
fn hand_over(printed: &[u8], status: Status, room: &mut [u8], len: &mut usize) -> u8
    ensures within { len.new ≤ length room.new }
    ensures printed { HasPrinted (take len.new room.new) printed.now status result }
{
    if printed.len() > room.len() {
        *len = 0;
        return Status::WriteFault.exit_code();
    }
    room[..printed.len()].copy_from_slice(printed);
    *len = printed.len();
    status.exit_code()
}

// Runs the bytes, and prints at the front of the room. If memory is refused before they are looked at, nothing is printed.
fn run(
    alloc: Global,
    brief: bool,
    text: &[u8],
    room: &mut [u8],
    len: &mut usize,
) -> Result<u8, NoMemory>
    ensures within { len.new ≤ length room.new }
    ensures ran { IfOk result (HasRunText brief text.now (take len.new room.new)) }
    ensures unbegun { IfErr result (λ _. len.new ≡ 0) }
{
    *len = 0;
    // No effect at run time: the law says what these words ask for.
    tap_words::plain_words_law();
    let words = words_of(alloc, brief)?;
    let mut source = MemorySource::new(alloc, text, PIECE, &[])?;
    let mut sink = MemorySink::new(alloc, PIECE, room.len(), &[])?;
    let ended = tap_top::run(alloc, &words, &mut source, &mut sink);
    Ok(hand_over(sink.bytes(), ended.status, room, len))
}

/// Runs the scenario that the bytes of `text` spell, and prints at the front of `room` what the program prints: the text of the log, brief if
/// asked for, and the fault line. `len` is then how many bytes these are. Answers the exit status of the program.
///
/// If `room` is too short for all of it, some first bytes are printed, and the answer is 4, the exit status of a failed write. That all is printed
/// if there is room for it isn't promised. If memory is refused before the text is looked at, nothing is printed, and the answer is 6.
///
/// Rule: docs/FORMATS.md, "The fault line and the exit status".
#[unsafe(no_mangle)]
pub extern "C" fn tap_page_run(
    alloc: Global,
    brief: bool,
    text: &[u8],
    room: &mut [u8],
    len: &mut usize,
) -> u8
    ensures { HasAnswered brief text.now room.new len.new result }
{
    match run(alloc, brief, text, room, len) {
        Ok(code) => code,
        Err(NoMemory) => Status::NoMemory.exit_code(),
    }
}
