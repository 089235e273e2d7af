ghost use Rattle.std.specs.Prelude.{◌≡◌, ◌<◌, ◌≤◌};
ghost use Rattle.tap_name.specs.Settings.{AreWithinLimits};
ghost use Rattle.tap_wire.specs.Kind.{code_of, kind_of_code, kind_of};
ghost use Rattle.tap_wire.specs.Layout.{fixed_len, is_parts, is_length};

use crate::frame::Body;
use crate::layout::{MOST_LETTERS, MOST_LINKS, SLOT_LEN, link_len, most_slots};
use tap_name::Settings;

/// The kind of a frame, without what its body says.
///
/// Rule: docs/FORMATS.md, "Frames".
#[derive(Clone, Copy, Debug, PartialEq, Eq)]
pub enum Kind {
    /// A joiner looks for its surrogate.
    Seek,
    /// A joiner is made known.
    Tell,
    /// A node greets a joiner.
    Hello,
    /// A joiner has heard a Hello.
    Heard,
    /// A Tell and all that followed from it is done.
    Ack,
    /// A join is done.
    Done,
    /// A pin on the sender may end.
    Release,
    /// The sender has a link to the receiver, or has it no more.
    Link,
    /// A pointer is laid or taken away.
    Lay,
    /// A lookup.
    Find,
    /// The answer of a lookup.
    Answer,
    /// A node leaves.
    Leave,
    /// A Leave is taken note of.
    Left,
    /// A node has gone.
    Gone,
    /// A joiner has given up, and a pin on it ends.
    Forget,
    /// A word to all nodes of a prefix.
    Cast,
    /// A Cast and all that followed from it is done.
    CastAck,
}

// The kinds in the order of their codes, from 1.
static KINDS: [Kind; 17] = [
    Kind::Seek,
    Kind::Tell,
    Kind::Hello,
    Kind::Heard,
    Kind::Ack,
    Kind::Done,
    Kind::Release,
    Kind::Link,
    Kind::Lay,
    Kind::Find,
    Kind::Answer,
    Kind::Leave,
    Kind::Left,
    Kind::Gone,
    Kind::Forget,
    Kind::Cast,
    Kind::CastAck,
];

impl Kind {
    // The kind with this code.
    pub(crate) fn of_code(code: u8) -> Option<Kind>
        ensures { result ≡ kind_of_code code }
    {
        if code < 1 || code > 17 {
            return None;
        }
        Some(KINDS[code as usize - 1])
    }

    /// The kind of a body.
    pub fn of(body: &Body) -> Kind
        ensures { result ≡ kind_of body.now }
    {
        match body {
            Body::Seek { .. } => Kind::Seek,
            Body::Tell { .. } => Kind::Tell,
            Body::Hello { .. } => Kind::Hello,
            Body::Heard { .. } => Kind::Heard,
            Body::Ack { .. } => Kind::Ack,
            Body::Done => Kind::Done,
            Body::Release => Kind::Release,
            Body::Link { .. } => Kind::Link,
            Body::Lay { .. } => Kind::Lay,
            Body::Find { .. } => Kind::Find,
            Body::Answer { .. } => Kind::Answer,
            Body::Leave { .. } => Kind::Leave,
            Body::Left => Kind::Left,
            Body::Gone => Kind::Gone,
            Body::Forget => Kind::Forget,
            Body::Cast { .. } => Kind::Cast,
            Body::CastAck { .. } => Kind::CastAck,
        }
    }

    // The kind's code.
    pub(crate) fn code(self) -> u8
        ensures value { result ≡ code_of self }
        ensures least { 1 ≤ result }
        ensures most { result ≤ 17 }
    {
        self as u8 + 1
    }

    // The bytes of a body of this kind without what its length depends on: slots, links, letters, and a name that may be
    // missing.
    pub(crate) fn fixed_len(self, settings: &Settings) -> usize
        ensures value { result ≡ fixed_len settings.now self }
        ensures most { result ≤ 86 }
        ensures valid { AreWithinLimits settings.now }
    {
        let digits = settings.digits() as usize;
        match self {
            Kind::Seek => digits,
            Kind::Tell => digits + 8,
            Kind::Hello => 5,
            Kind::Heard | Kind::Ack | Kind::CastAck => 4,
            Kind::Done | Kind::Release | Kind::Left | Kind::Gone | Kind::Forget => 0,
            Kind::Link => 5,
            Kind::Lay => 2 * digits + 6,
            Kind::Find => 2 * digits + 5,
            Kind::Answer => 5,
            Kind::Leave => 1,
            Kind::Cast => 11,
        }
    }

    // Whether a body of this kind may have so many bytes.
    #[inline(always)]
    pub(crate) fn has_length(self, settings: &Settings, len: usize) -> bool
        ensures { result ≡ is_length settings.now self len }
    {
        let digits = settings.digits() as usize;
        match self {
            Kind::Seek => len == digits,
            Kind::Tell => is_parts(len, digits + 8, SLOT_LEN, most_slots(settings)),
            Kind::Hello => is_parts(len, 5, link_len(settings), MOST_LINKS),
            Kind::Heard | Kind::Ack | Kind::CastAck => len == 4,
            Kind::Done | Kind::Release | Kind::Left | Kind::Gone | Kind::Forget => len == 0,
            Kind::Link => len == 5,
            Kind::Lay => len == 2 * digits + 6,
            Kind::Find => len == 2 * digits + 5,
            Kind::Answer => len == 5 || len == digits + 5,
            Kind::Leave => len == 1 || len == digits + 1,
            Kind::Cast => len >= 12 && len <= 11 + MOST_LETTERS,
        }
    }
}

// Whether so many bytes are a fixed part and then at most so many parts of one size.
fn is_parts(len: usize, fixed: usize, size: usize, most: usize) -> bool
    requires { 0 < size }
    ensures { result ≡ is_parts len fixed size most }
{
    if len < fixed {
        return false;
    }
    let rest = len - fixed;
    rest % size == 0 && rest / size <= most
}
