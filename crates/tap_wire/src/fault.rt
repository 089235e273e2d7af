ghost use Rattle.std.specs.Prelude.{◌≡◌};
ghost use Rattle.tap_wire.specs.declared.fault.BodyFault.TheVariants as body;
ghost use Rattle.tap_wire.specs.declared.fault.WireFault.TheVariants.{NoMemory};
ghost use Rattle.tap_wire.specs.Fault.{fault_of_head, fault_of_body};

use std::alloc::{AllocError, AllocFailed};
use std::error::Error;
use std::fmt;

/// Why bytes are no frame, by its head and its two names alone: the first refusal, in the order of the variants but for
/// `Short`, which also comes after `BadCount`.
///
/// Rule: docs/FORMATS.md, "Frames".
#[derive(Clone, Copy, Debug, PartialEq, Eq)]
pub enum HeadFault {
    /// So many bytes are missing: of the head, or, if the head is right, of the whole frame.
    Short(usize),
    /// The first byte, which is another version than that of these settings.
    BadVersion(u8),
    /// The second byte, which is no kind.
    BadKind(u8),
    /// The length of the body that the head states, which no body of this kind has.
    BadLength(u16),
    /// The number of digits that the head states, if it isn't that of these settings.
    BadCount(u8),
    /// So many bytes follow the frame.
    Trailing(usize),
    /// The place of the first byte of the two names that is no digit below the base.
    BadDigit(usize),
}

/// Why bytes are no frame: the first refusal, in the order of the variants but for `Short`, which also comes after
/// `BadCount`. Want of memory comes in place of a frame with slots or links alone, which are a Tell and a Hello, and never of a
/// refusal.
///
/// Rule: docs/FORMATS.md, "Frames".
#[derive(Clone, Copy, Debug, PartialEq, Eq)]
pub enum WireFault {
    /// So many bytes are missing: of the head, or, if the head is right, of the whole frame.
    Short(usize),
    /// The first byte, which is another version than that of these settings.
    BadVersion(u8),
    /// The second byte, which is no kind.
    BadKind(u8),
    /// The length of the body that the head states, which no body of this kind has.
    BadLength(u16),
    /// The number of digits that the head states, if it isn't that of these settings.
    BadCount(u8),
    /// So many bytes follow the frame.
    Trailing(usize),
    /// The place of the first byte of the two names that is no digit below the base.
    BadDigit(usize),
    /// The first byte of the first field of the body that breaks its rule; of a name that byte which is no digit
    /// below the base.
    BadBody(usize),
    /// Memory was refused.
    NoMemory,
}

// The words of the same fault of a frame.
impl fmt::Display for HeadFault {
    fn fmt<W: fmt::Write>(&self, f: &mut fmt::Formatter<W>) -> fmt::Result {
        WireFault::from(*self).fmt(f)
    }
}

impl Error for HeadFault {}

// The words that the line of a damaged copy ends with (docs/FORMATS.md, "The printed text").
impl fmt::Display for WireFault {
    fn fmt<W: fmt::Write>(&self, f: &mut fmt::Formatter<W>) -> fmt::Result {
        match self {
            WireFault::Short(missing) => write!(f, "short {missing}"),
            WireFault::BadVersion(version) => write!(f, "bad version {version}"),
            WireFault::BadKind(kind) => write!(f, "bad kind {kind}"),
            WireFault::BadLength(len) => write!(f, "bad length {len}"),
            WireFault::BadCount(count) => write!(f, "bad count {count}"),
            WireFault::Trailing(more) => write!(f, "trailing {more}"),
            WireFault::BadDigit(at) => write!(f, "bad digit {at}"),
            WireFault::BadBody(at) => write!(f, "bad body {at}"),
            WireFault::NoMemory => f.write_str("no memory"),
        }
    }
}

impl Error for WireFault {}

// A field of a body breaks its rule.
#[derive(Clone, Copy, Debug, PartialEq, Eq)]
pub(crate) struct Broken {
    // The place of its first byte; of a name, of the first byte that is no digit.
    pub(crate) at: usize,
}

// Why a body isn't read.
#[derive(Clone, Copy, Debug, PartialEq, Eq)]
pub(crate) enum BodyFault {
    // The first field that breaks its rule.
    Field(Broken),
    // Memory was refused.
    NoMemory,
}

impl From<Broken> for BodyFault {
    ghost from_gives = { λ b e. e ≡ body.Field b };

    fn from(broken: Broken) -> BodyFault {
        BodyFault::Field(broken)
    }
}

impl From<AllocError> for BodyFault {
    ghost from_gives = { λ _ e. e ≡ body.NoMemory };

    fn from(_: AllocError) -> BodyFault {
        BodyFault::NoMemory
    }
}

impl<T: Drop> From<AllocFailed<T>> for BodyFault {
    ghost from_gives = { λ _ e. e ≡ body.NoMemory };

    fn from(_: AllocFailed<T>) -> BodyFault {
        BodyFault::NoMemory
    }
}

impl From<crate::memory::NoMemory> for BodyFault {
    ghost from_gives = { λ _ e. e ≡ body.NoMemory };

    fn from(_: crate::memory::NoMemory) -> BodyFault {
        BodyFault::NoMemory
    }
}

impl From<tap_name::NoMemory> for BodyFault {
    ghost from_gives = { λ _ e. e ≡ body.NoMemory };

    fn from(_: tap_name::NoMemory) -> BodyFault {
        BodyFault::NoMemory
    }
}

impl From<tap_watch::NoMemory> for BodyFault {
    ghost from_gives = { λ _ e. e ≡ body.NoMemory };

    fn from(_: tap_watch::NoMemory) -> BodyFault {
        BodyFault::NoMemory
    }
}

impl From<HeadFault> for WireFault {
    ghost from_gives = { λ h e. e ≡ fault_of_head h };

    fn from(fault: HeadFault) -> WireFault {
        match fault {
            HeadFault::Short(missing) => WireFault::Short(missing),
            HeadFault::BadVersion(version) => WireFault::BadVersion(version),
            HeadFault::BadKind(kind) => WireFault::BadKind(kind),
            HeadFault::BadLength(len) => WireFault::BadLength(len),
            HeadFault::BadCount(count) => WireFault::BadCount(count),
            HeadFault::Trailing(more) => WireFault::Trailing(more),
            HeadFault::BadDigit(at) => WireFault::BadDigit(at),
        }
    }
}

impl From<BodyFault> for WireFault {
    ghost from_gives = { λ b e. e ≡ fault_of_body b };

    fn from(fault: BodyFault) -> WireFault {
        match fault {
            BodyFault::Field(broken) => WireFault::BadBody(broken.at),
            BodyFault::NoMemory => WireFault::NoMemory,
        }
    }
}
