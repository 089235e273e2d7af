ghost use Rattle.std.specs.Prelude.{◌≡◌, length};
ghost use Rattle.std.specs.Bool.{OnTrue};
ghost use Rattle.tap_wire.specs.Names.{sender_in};

use tap_name::{Name, Settings};

// Names with more digits are long.
const MOST_SHORT_DIGITS: u8 = 8;

// Whether bytes are the same, so many on both sides. The greatest difference is looked at in the end, so that many are compared at once.
#[inline(always)]
fn are_same(these: &[u8], those: &[u8]) -> bool
    requires { length these.now ≡ length those.now }
    ensures { OnTrue result (these.now ≡ those.now) }
{
    let mut worst = 0;
    for at in 0..these.len() {
        worst = worst.max(these[at].wrapping_sub(those[at]));
    }
    worst == 0
}

// Whether the digits of this name stand where a frame has its sender, which is right after its head. A head has four bytes, and five if names
// are long.
pub(crate) fn stands_as_sender(settings: &Settings, from: &Name, frame: &[u8]) -> bool
    ensures { OnTrue result (sender_in settings.now frame.now ≡ from.now) }
{
    let start = if settings.digits() > MOST_SHORT_DIGITS {
        5
    } else {
        4
    };
    let digits = settings.digits() as usize;
    if digits != from.len() || frame.len() < start + digits {
        return false;
    }
    are_same(from.digits().as_slice(), &frame[start..start + digits])
}
