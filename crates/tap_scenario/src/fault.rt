ghost use Rattle.std.specs.Prelude.{◌≡◌, Some};
ghost use Rattle.std.specs.Fmt.{styled_text};
ghost use Rattle.tap_scenario.specs.Key.{text_of_key};

use std::alloc::{AllocError, AllocFailed};
use std::error::Error;
use std::fmt;

/// A key of a scenario's text.
///
/// Rule: docs/FORMATS.md, "The scenario".
#[derive(Clone, Copy, Debug, PartialEq, Eq)]
pub enum Key {
    /// The base of the digits.
    Base,
    /// The number of digits of a name.
    Digits,
    /// How many links that are settled and not leaving a slot of a table holds at most.
    Width,
    /// How many frames a run may send.
    Frames,
    /// Whether packets carry the frames.
    Carrier,
    /// The members at the start.
    Members,
    /// The steps.
    Steps,
    /// A key that no scenario has.
    Unknown,
}

impl Key {
    /// The key as it is written, and `unknown` for a key that no scenario has.
    pub fn text(self) -> &'static str
        ensures { result.now ≡ text_of_key self }
    {
        match self {
            Key::Base => "base",
            Key::Digits => "digits",
            Key::Width => "width",
            Key::Frames => "frames",
            Key::Carrier => "carrier",
            Key::Members => "members",
            Key::Steps => "steps",
            Key::Unknown => "unknown",
        }
    }
}

impl fmt::Display for Key {
    ghost output = { λ key. Some (text_of_key key) };

    ghost styled_output = { λ key spec. Some (styled_text spec (text_of_key key)) };

    fn fmt<W: fmt::Write>(&self, f: &mut fmt::Formatter<W>) -> fmt::Result {
        f.pad(self.text())
    }
}

/// The first thing that is wrong with a scenario's text, in the order of the variants.
///
/// Rule: docs/FORMATS.md, "The scenario".
#[derive(Clone, Copy, Debug, PartialEq, Eq)]
pub enum Fault {
    /// The bytes aren't UTF-8.
    NotUtf8,
    /// The text isn't TOML.
    NotToml,
    /// The first key that is missing, or `Unknown` if none is missing and another key is there.
    BadKey(Key),
    /// The first key whose value isn't as it has to be. Of the steps this asks for an array of at most 10,000 strings.
    BadValue(Key),
    /// The first string, counted from 1, that is no step, or with which there are more than 10,000 steps.
    BadStep(u32),
}

// The words that the fault line ends with (docs/FORMATS.md, "The fault line and the exit status").
impl fmt::Display for Fault {
    fn fmt<W: fmt::Write>(&self, f: &mut fmt::Formatter<W>) -> fmt::Result {
        match self {
            Fault::NotUtf8 => f.write_str("not UTF-8"),
            Fault::NotToml => f.write_str("not TOML"),
            Fault::BadKey(key) => write!(f, "bad key {key}"),
            Fault::BadValue(key) => write!(f, "bad value {key}"),
            Fault::BadStep(index) => write!(f, "bad step {index}"),
        }
    }
}

impl Error for Fault {}

/// Why no scenario was read.
///
/// Rule: docs/FORMATS.md, "Why a text is refused".
#[derive(Clone, Copy, Debug, PartialEq, Eq)]
pub enum ReadRefusal {
    /// The text is no scenario; this is the first thing that is wrong with it.
    Fault(Fault),
    /// Memory was refused.
    NoMemory,
}

// The words of the fault line, without the program's name.
impl fmt::Display for ReadRefusal {
    fn fmt<W: fmt::Write>(&self, f: &mut fmt::Formatter<W>) -> fmt::Result {
        match self {
            ReadRefusal::Fault(fault) => write!(f, "not a scenario: {fault}"),
            ReadRefusal::NoMemory => f.write_str("no memory"),
        }
    }
}

impl Error for ReadRefusal {}

impl From<Fault> for ReadRefusal {
    ghost use Rattle.tap_scenario.specs.declared.fault.ReadRefusal.TheVariants.{Fault as Refused};

    ghost from_gives = { λ fault refusal. refusal ≡ Refused fault };

    fn from(fault: Fault) -> ReadRefusal {
        ReadRefusal::Fault(fault)
    }
}

impl From<AllocError> for ReadRefusal {
    ghost use Rattle.tap_scenario.specs.declared.fault.ReadRefusal.TheVariants.{NoMemory};

    ghost from_gives = { λ _ refusal. refusal ≡ NoMemory };

    fn from(_: AllocError) -> ReadRefusal {
        ReadRefusal::NoMemory
    }
}

impl<T: Drop> From<AllocFailed<T>> for ReadRefusal {
    ghost use Rattle.tap_scenario.specs.declared.fault.ReadRefusal.TheVariants.{NoMemory};

    ghost from_gives = { λ _ refusal. refusal ≡ NoMemory };

    fn from(_: AllocFailed<T>) -> ReadRefusal {
        ReadRefusal::NoMemory
    }
}
