ghost use Rattle.std.specs.Prelude.{◌<◌, ◌^◌, ◌-◌, IfOk, IsErrOf};
ghost use Rattle.tap_io.specs.AllBytes.{HasReadAll, HasReadTooMany, HasReadUntilFault, HasReadWithoutFault};

use crate::source::{Got, Source};
use std::alloc::Global;

// So many bytes are asked for at once, a page: so few are copied by plain moves.
const PIECE: usize = 4096;

/// Why the bytes of a source weren't read to their end.
///
/// Rule: docs/DECISIONS.md, "Sources and sinks".
#[derive(Clone, Copy, Debug, PartialEq, Eq)]
pub enum Unread {
    /// A read failed.
    Failed,

    /// The source has more bytes than are to be read.
    TooLong,

    /// Memory for the bytes was refused.
    NoMemory,
}

/// Reads a source to its end, if it has at most `most` bytes, or one byte past that limit. The first read that fails ends it. `most` is
/// below the greatest `usize`.
///
/// Rule: docs/DECISIONS.md, "Sources and sinks".
pub fn read_all<S: Source>(alloc: Global, source: &mut S, most: usize) -> Result<Vec<u8>, Unread>
    requires { most < 2 ^ 64 - 1 }
    ensures all { IfOk result (λ bytes. HasReadAll most (S.state source.old) (S.state source.new) bytes.items) }
    ensures failed { IsErrOf result Unread.Failed → HasReadUntilFault most (S.state source.old) (S.state source.new) }
    ensures too_long { IsErrOf result Unread.TooLong → HasReadTooMany most (S.state source.old) (S.state source.new) }
    ensures no_memory { IsErrOf result Unread.NoMemory → HasReadWithoutFault most (S.state source.old) (S.state source.new) }
{
    let mut bytes = Vec::new(alloc);
    let mut piece = [0u8; PIECE];
    loop {
        let wanted = piece.len().min(most + 1 - bytes.len());
        match source.read(&mut piece[..wanted]) {
            Got::End => return Ok(bytes),
            Got::Failed => return Err(Unread::Failed),
            Got::Got(n) => {
                if n > most - bytes.len() {
                    return Err(Unread::TooLong);
                }
                bytes.extend_from_slice(&piece[..n])?;
            }
        }
    }
}
