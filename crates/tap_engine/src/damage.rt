ghost use Rattle.std.specs.Prelude.{◌≡◌, IfOk};
ghost use Rattle.tap_engine.specs.Damaged.{copy_damaged};

use std::alloc::Global;
use tap_log::NoMemory;

/// How a copy of a frame's bytes is damaged.
///
/// Rule: docs/FORMATS.md, "The scenario".
#[derive(Clone, Copy, Debug, PartialEq, Eq)]
pub enum Damage {
    /// The byte at this place, from 0, is put in. If the bytes end before it, the copy is whole.
    Byte { at: u32, byte: u8 },
    /// Only so many first bytes are left: all, if there are no more.
    Cut { bytes: u32 },
}

/// A damaged copy of these bytes. `NoMemory` if memory was refused.
///
/// Rule: docs/FORMATS.md, "The scenario".
pub fn damaged(alloc: Global, bytes: &[u8], damage: &Damage) -> Result<Vec<u8>, NoMemory>
    ensures { IfOk result (λ copy. copy.items ≡ copy_damaged bytes.now damage.now) }
{
    match damage {
        Damage::Byte { at, byte } => {
            let mut copy = Vec::from_slice(alloc, bytes)?;
            let at = *at as usize;
            if at < copy.len() {
                copy[at] = *byte;
            }
            Ok(copy)
        }
        Damage::Cut { bytes: count } => {
            let end = bytes.len().min(*count as usize);
            Ok(Vec::from_slice(alloc, &bytes[..end])?)
        }
    }
}
