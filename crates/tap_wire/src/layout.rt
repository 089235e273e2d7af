ghost use Rattle.std.specs.Prelude.{◌≡◌, ◌+◌, ◌*◌, ◌-◌, ◌≤◌, ◌<◌, length};
ghost use Rattle.tap_name.specs.Settings.{AreWithinLimits};
ghost use Rattle.tap_wire.specs.Layout.{most_slots, is_long, version_of, head_len, body_start, link_len, name_len, varying_len, body_len};
ghost use Rattle.tap_wire.specs.Spelling.{body_bytes, IsBody};

use crate::frame::Body;
use crate::kind::Kind;
use tap_name::{Name, Settings};

/// The most links of a Hello.
///
/// Rule: docs/FORMATS.md, "Frames".
pub const MOST_LINKS: usize = 255;

/// The most letters of the word of a Cast.
///
/// Rule: docs/FORMATS.md, "Frames".
pub const MOST_LETTERS: usize = 32;

// The most digits of a name in frames of the first version.
pub(crate) const MOST_SHORT_DIGITS: u8 = 8;

// The bytes of a slot: its level and its digit.
pub(crate) const SLOT_LEN: usize = 2;

// The bytes of a link: its name and whether it is settled.
pub(crate) fn link_len(settings: &Settings) -> usize
    ensures value { result ≡ link_len settings.now }
    ensures most { result ≤ 41 }
    ensures least { 1 ≤ result }
{
    settings.digits() as usize + 1
}

// The most slots of a Tell.
pub(crate) fn most_slots(settings: &Settings) -> usize
    ensures { result ≡ most_slots settings.now }
{
    settings.digits() as usize * (settings.base() as usize - 1)
}

// Whether names are too long for the first version.
pub(crate) fn is_long(settings: &Settings) -> bool
    ensures value { result ≡ is_long settings.now }
    ensures valid { AreWithinLimits settings.now }
{
    settings.digits() > MOST_SHORT_DIGITS
}

// The version of the frames.
pub(crate) fn version_of(settings: &Settings) -> u8
    ensures { result ≡ version_of settings.now }
{
    if is_long(settings) { 2 } else { 1 }
}

// The number of bytes of a head.
pub(crate) fn head_len(settings: &Settings) -> usize
    ensures value { result ≡ head_len settings.now }
    ensures most { result ≤ 5 }
    ensures valid { AreWithinLimits settings.now }
{
    if is_long(settings) { 5 } else { 4 }
}

// Where a body starts.
pub(crate) fn body_start(settings: &Settings) -> usize
    ensures value { result ≡ body_start settings.now }
    ensures most { result ≤ 85 }
    ensures valid { AreWithinLimits settings.now }
{
    head_len(settings) + 2 * settings.digits() as usize
}

// The bytes of a name that may be missing.
fn name_len(settings: &Settings, name: &Option<Name>) -> usize
    ensures value { result ≡ name_len settings.now name.now }
    ensures most { result ≤ 40 }
{
    match name {
        None => 0,
        Some(_) => settings.digits() as usize,
    }
}

// The bytes of what the length of a body depends on: slots, links, letters, and a name that may be missing.
fn varying_len(settings: &Settings, body: &Body) -> usize
    requires valid { AreWithinLimits settings.now }
    requires fields { IsBody settings.now body.now }
    ensures value { result ≡ varying_len settings.now body.now }
    ensures most { result < 65536 }
{
    match body {
        Body::Tell { watch, .. } => SLOT_LEN * watch.len(),
        Body::Hello { links, .. } => link_len(settings) * links.len(),
        Body::Answer { server, .. } => name_len(settings, server),
        Body::Leave { replacement } => name_len(settings, replacement),
        Body::Cast { word, .. } => word.as_slice().len(),
        Body::Seek { .. }
        | Body::Heard { .. }
        | Body::Ack { .. }
        | Body::Done
        | Body::Release
        | Body::Link { .. }
        | Body::Lay { .. }
        | Body::Find { .. }
        | Body::Left
        | Body::Gone
        | Body::Forget
        | Body::CastAck { .. } => 0,
    }
}

// The number of bytes of a body.
pub(crate) fn body_len(settings: &Settings, body: &Body) -> usize
    requires { IsBody settings.now body.now }
    ensures value { result ≡ body_len settings.now body.now }
    ensures bytes { result ≡ length (body_bytes body.now) }
    ensures most { result < 65536 }
{
    Kind::of(body).fixed_len(settings) + varying_len(settings, body)
}
