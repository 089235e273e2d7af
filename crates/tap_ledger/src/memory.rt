ghost use Rattle.std.specs.Prelude.{◌≡◌, ◌≢◌, false, IfOk, IsOk};

use std::num::TryFromIntError;
use tap_log::NoMemory;
use tap_wire::WireFault;

// Room for more frames than numbers count is never given.
pub(crate) fn past_numbers(_: TryFromIntError) -> NoMemory {
    NoMemory
}

// Memory was refused to the frames that are outstanding.
pub(crate) fn of_frames(_: tap_outstanding::NoMemory) -> NoMemory {
    NoMemory
}

// Whether bytes are a frame that weren't read for this cause: they are none, unless memory was refused.
pub(crate) fn is_unread(fault: WireFault) -> Result<bool, NoMemory>
    ensures none { IfOk result (λ is. is ≡ false) }
    ensures read { IsOk result → fault ≢ WireFault.NoMemory }
{
    match fault {
        WireFault::NoMemory => Err(NoMemory),
        _ => Ok(false),
    }
}
