ghost use Rattle.std.specs.Prelude.{◌≡◌, ◌≤◌, ◌++◌, [], codes, decimal, length, OnOk, if◌then◌else◌};
ghost use Rattle.hex.specs.Hex.{encode_lower};
ghost use Rattle.tap_name.specs.Name.{text_of_name};
ghost use Rattle.tap_host_line.specs.Texts.{text_of_ack, text_of_begun, text_of_count, text_of_lookup_server, text_of_news, text_of_packet, text_of_refused, text_of_status};

use crate::memory::NoMemory;
use crate::room::{FEW_BYTES, SHORT, print_bytes, print_hex, print_name, print_number};
use crate::why::Why;
use itoa::Buffer;
use tap_name::Name;
use tap_node_common::News;

/// Adds the line of a packet that carries this frame.
///
/// Rule: docs/NETWORK.md, "Lines".
pub fn put_packet(out: &mut Vec<u8>, to: &Name, seq: u32, frame: &[u8]) -> Result<(), NoMemory>
    ensures { OnOk result (out.new.items ≡ out.old.items ++ text_of_packet to.now seq frame.now) }
{
    if frame.len() > FEW_BYTES {
        return put_long_packet(out, to, seq, frame);
    }
    let start = out.len();
    out.resize(start + SHORT + 2 * frame.len(), 0)?;
    let room = out.as_mut_slice();
    let at = print_bytes(room, start, b"packet ");
    let at = print_name(room, at, to);
    let at = print_bytes(room, at, b" ");
    let at = print_number(room, at, seq);
    let at = print_bytes(room, at, b" ");
    let at = print_hex(room, at, frame);
    let end = print_bytes(room, at, b"\n");
    out.truncate(end);
    Ok(())
}

// Adds the line of a packet whose frame has many bytes.
#[inline(never)]
fn put_long_packet(out: &mut Vec<u8>, to: &Name, seq: u32, frame: &[u8]) -> Result<(), NoMemory>
    ensures { OnOk result (out.new.items ≡ out.old.items ++ text_of_packet to.now seq frame.now) }
{
    put_text(out, b"packet ")?;
    put_name(out, to)?;
    put_text(out, b" ")?;
    put_number(out, seq)?;
    put_text(out, b" ")?;
    put_hex(out, frame)?;
    put_text(out, b"\n")
}

/// Adds the line of the acknowledgement of a number.
///
/// Rule: docs/NETWORK.md, "Lines".
pub fn put_ack(out: &mut Vec<u8>, to: &Name, seq: u32) -> Result<(), NoMemory>
    ensures { OnOk result (out.new.items ≡ out.old.items ++ text_of_ack to.now seq) }
{
    let start = out.len();
    out.resize(start + SHORT, 0)?;
    let room = out.as_mut_slice();
    let at = print_bytes(room, start, b"ack ");
    let at = print_name(room, at, to);
    let at = print_bytes(room, at, b" ");
    let at = print_number(room, at, seq);
    let end = print_bytes(room, at, b"\n");
    out.truncate(end);
    Ok(())
}

/// Adds the line that a start, or a line of members, was taken.
///
/// Rule: docs/NETWORK.md, "Lines".
pub fn put_begun(out: &mut Vec<u8>) -> Result<(), NoMemory>
    ensures { OnOk result (out.new.items ≡ out.old.items ++ text_of_begun) }
{
    out.extend_from_slice(b"begun\n")?;
    Ok(())
}

/// Adds the line that the line of this number, from 1, wasn't taken.
///
/// Rule: docs/NETWORK.md, "Why a line is refused".
pub fn put_refused(out: &mut Vec<u8>, number: u64, why: Why) -> Result<(), NoMemory>
    ensures { OnOk result (out.new.items ≡ out.old.items ++ text_of_refused number why) }
{
    out.extend_from_slice(b"refused ")?;
    let mut buffer = Buffer::new();
    out.extend_from_slice(buffer.format(number).as_bytes())?;
    out.extend_from_slice(b" ")?;
    out.extend_from_slice(why.word().as_bytes())?;
    out.extend_from_slice(b"\n")?;
    Ok(())
}

/// Adds the lines of the news of a step.
///
/// Rule: docs/NETWORK.md, "Lines".
pub fn put_news(out: &mut Vec<u8>, news: &News) -> Result<(), NoMemory>
    ensures { OnOk result (out.new.items ≡ out.old.items ++ text_of_news news.now) }
{
    match news {
        News::Nothing => Ok(()),
        News::Core => put_text(out, b"core\n"),
        News::Gone => put_text(out, b"gone\n"),
        News::Answered { ticket, server } => put_answered(out, *ticket, server),
        News::Cast {
            cast,
            reached,
            closed,
        } => put_cast(out, *cast, *reached, *closed),
    }
}

/// Adds the line that says what the node is, by a word.
///
/// Rule: docs/NETWORK.md, "Lines".
pub fn put_status(out: &mut Vec<u8>, word: &str) -> Result<(), NoMemory>
    ensures { OnOk result (out.new.items ≡ out.old.items ++ text_of_status word.now) }
{
    out.extend_from_slice(b"status ")?;
    out.extend_from_slice(word.as_bytes())?;
    out.extend_from_slice(b"\n")?;
    Ok(())
}

/// Adds the line that says how many there are of what a word says.
///
/// Rule: docs/NETWORK.md, "Lines".
pub fn put_count(out: &mut Vec<u8>, word: &str, count: u64) -> Result<(), NoMemory>
    ensures { OnOk result (out.new.items ≡ out.old.items ++ text_of_count word.now count) }
{
    out.extend_from_slice(word.as_bytes())?;
    out.extend_from_slice(b" ")?;
    let mut buffer = Buffer::new();
    out.extend_from_slice(buffer.format(count).as_bytes())?;
    out.extend_from_slice(b"\n")?;
    Ok(())
}

// Adds the line of the answer to a lookup.
fn put_answered(out: &mut Vec<u8>, ticket: u32, server: &Option<Name>) -> Result<(), NoMemory>
    ensures { OnOk result (out.new.items ≡ out.old.items ++ (codes "answered " ++ decimal ticket ++ codes " " ++ text_of_lookup_server server.now ++ codes "\n")) }
{
    out.extend_from_slice(b"answered ")?;
    put_number(out, ticket)?;
    out.extend_from_slice(b" ")?;
    put_server(out, server)?;
    out.extend_from_slice(b"\n")?;
    Ok(())
}

// Adds who answers a lookup.
fn put_server(out: &mut Vec<u8>, server: &Option<Name>) -> Result<(), NoMemory>
    ensures { OnOk result (out.new.items ≡ out.old.items ++ text_of_lookup_server server.now) }
{
    match server {
        Some(server) => {
            out.extend_from_slice(b"server ")?;
            put_name(out, server)
        }
        None => put_text(out, b"none"),
    }
}

// Adds the lines of the news of a cast.
fn put_cast(out: &mut Vec<u8>, cast: u32, reached: bool, closed: bool) -> Result<(), NoMemory>
    ensures { OnOk result (out.new.items ≡ out.old.items
        ++ ((if reached then codes "reached " ++ decimal cast ++ codes "\n" else [])
        ++ (if closed then codes "closed " ++ decimal cast ++ codes "\n" else []))) }
{
    if reached {
        put_one(out, b"reached ", cast)?;
    }
    if closed {
        put_one(out, b"closed ", cast)?;
    }
    Ok(())
}

// Adds the line of a number after a word.
fn put_one(out: &mut Vec<u8>, word: &[u8], number: u32) -> Result<(), NoMemory>
    ensures { OnOk result (out.new.items ≡ out.old.items ++ (word.now ++ decimal number ++ codes "\n")) }
{
    out.extend_from_slice(word)?;
    put_number(out, number)?;
    out.extend_from_slice(b"\n")?;
    Ok(())
}

// Adds a text.
fn put_text(out: &mut Vec<u8>, text: &[u8]) -> Result<(), NoMemory>
    ensures { OnOk result (out.new.items ≡ out.old.items ++ text.now) }
{
    out.extend_from_slice(text)?;
    Ok(())
}

// Adds a name, a byte for each digit.
fn put_name(out: &mut Vec<u8>, name: &Name) -> Result<(), NoMemory>
    ensures { OnOk result (out.new.items ≡ out.old.items ++ text_of_name name.now) }
{
    let start = out.len();
    out.resize(start + SHORT, 0)?;
    let end = print_name(out.as_mut_slice(), start, name);
    out.truncate(end);
    Ok(())
}

// Adds bytes in hexadecimal, a few at a time.
#[inline(never)]
fn put_hex(out: &mut Vec<u8>, bytes: &[u8]) -> Result<(), NoMemory>
    ensures { OnOk result (out.new.items ≡ out.old.items ++ encode_lower bytes.now) }
{
    let mut done = 0;
    while done < bytes.len() {
        let end = bytes.len().min(done + FEW_BYTES);
        put_few_hex(out, &bytes[done..end])?;
        done = end;
    }
    Ok(())
}

// Adds few bytes in hexadecimal.
fn put_few_hex(out: &mut Vec<u8>, bytes: &[u8]) -> Result<(), NoMemory>
    requires { length bytes.now ≤ FEW_BYTES }
    ensures { OnOk result (out.new.items ≡ out.old.items ++ encode_lower bytes.now) }
{
    let start = out.len();
    out.resize(start + 2 * bytes.len(), 0)?;
    print_hex(out.as_mut_slice(), start, bytes);
    Ok(())
}

// Adds a number in decimal.
fn put_number(out: &mut Vec<u8>, number: u32) -> Result<(), NoMemory>
    ensures { OnOk result (out.new.items ≡ out.old.items ++ decimal number) }
{
    let mut buffer = Buffer::new();
    out.extend_from_slice(buffer.format(number).as_bytes())?;
    Ok(())
}
