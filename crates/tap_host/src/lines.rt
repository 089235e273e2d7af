ghost use Rattle.std.specs.Prelude.{◌≡◌, ◌≤◌, [], length, drop};
ghost use Rattle.memchr.specs.Find.{IsFirstByte, is_byte};
ghost use Rattle.tap_host.specs.Taking.{AddsRead, FindsLine, LooksAs, status_at_end};

use crate::memory::NoMemory;
use crate::status::HostStatus;
use std::alloc::Global;
use std::marker::Model;
use tap_io::{Got, Source};

// The most bytes of a line, its end left out.
const MOST_LINE: usize = 32_768;

// The most bytes that one read gives.
const PIECE: usize = 4_096;

// What was read and not taken yet, and room for the next piece. Contracts see the bytes.
#[derive(Drop)]
pub(crate) struct Lines {
    bytes: Vec<u8>,
    at: usize,
    piece: Vec<u8>,
}

impl Model for Lines {
    ghost use Rattle.std.specs.Prelude.{◌≤◌, List, ℕ, drop, length};

    ghost Value = { List ℕ };

    ghost view = { λ l. drop l.at l.bytes.items };

    ghost invariant = { λ l. l.at ≤ length l.bytes.items };
}

impl Lines {
    // Nothing was read. This takes no memory; later calls take it of `alloc`.
    pub(crate) fn new(alloc: Global) -> Lines
        ensures { result ≡ [] }
    {
        Lines {
            bytes: Vec::new(alloc),
            at: 0,
            piece: Vec::new(alloc),
        }
    }

    // The bytes.
    pub(crate) fn bytes(&self) -> &[u8]
        ensures { result.now ≡ self.now }
    {
        &self.bytes[self.at..]
    }

    // Takes the first bytes away, so many.
    pub(crate) fn skip(&mut self, len: usize)
        requires { len ≤ length self.old }
        ensures { self.new ≡ drop len self.old }
    {
        self.at += len;
    }

    // Reads on until the next line is whole, and answers its length; or why none comes.
    pub(crate) fn find<S: Source>(&mut self, source: &mut S) -> Result<usize, HostStatus>
        ensures { FindsLine self.old self.new (S.state source.old) (S.state source.new) result }
    {
        loop {
            if let Some(len) = first_line(self.bytes())? {
                return Ok(len);
            }
            match self.read_more(source)? {
                Got::Got(_) => {}
                Got::Failed => return Err(HostStatus::ReadFault),
                Got::End => return Err(self.status_at_end()),
            }
        }
    }

    // How it ends if nothing more comes.
    fn status_at_end(&self) -> HostStatus
        ensures { result ≡ status_at_end self.now }
    {
        if self.bytes().is_empty() {
            HostStatus::Done
        } else {
            HostStatus::Cut
        }
    }

    // Reads more.
    fn read_more<S: Source>(&mut self, source: &mut S) -> Result<Got, NoMemory>
        ensures { AddsRead self.old self.new (S.state source.old) (S.state source.new) result }
    {
        self.drop_taken();
        self.piece.resize(PIECE, 0)?;
        let got = source.read(self.piece.as_mut_slice());
        if let Got::Got(n) = got {
            self.bytes.extend_from_slice(&self.piece[..n])?;
        }
        Ok(got)
    }

    // Lets go of what was taken.
    fn drop_taken(&mut self)
        ensures { self.new ≡ self.old }
    {
        let len = self.bytes.len();
        self.bytes.as_mut_slice().copy_within(self.at..len, 0);
        self.bytes.truncate(len - self.at);
        self.at = 0;
    }
}

// The length of the first line, if its end is there. A line that is too long has none.
fn first_line(bytes: &[u8]) -> Result<Option<usize>, HostStatus>
    ensures { LooksAs bytes.now result }
{
    let end = end_of_line(bytes);
    if end.unwrap_or(bytes.len()) > MOST_LINE {
        return Err(HostStatus::TooLong);
    }
    Ok(end)
}

// The place of the first end of a line.
fn end_of_line(bytes: &[u8]) -> Option<usize>
    ensures { IsFirstByte (is_byte 10) bytes.now result }
{
    memchr::memchr(b'\n', bytes)
}
