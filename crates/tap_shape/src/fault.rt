use std::error::Error;
use std::fmt;
use tap_log::NoMemory;

/// Why bytes aren't read as a log.
///
/// Rule: docs/FORMATS.md, "Texts that are read back".
#[derive(Clone, Copy, Debug, PartialEq, Eq)]
pub enum LogFault {
    /// They are no log's text. Lines are counted from 1, each with its line feed. The lines before this one begin a log's text, and with it they
    /// begin none; or all lines begin one, and this number is one more than theirs.
    NotLog(u32),
    /// Memory was refused.
    NoMemory,
}

impl fmt::Display for LogFault {
    fn fmt<W: fmt::Write>(&self, f: &mut fmt::Formatter<W>) -> fmt::Result {
        match self {
            LogFault::NotLog(line) => write!(f, "not a log at line {line}"),
            LogFault::NoMemory => f.write_str("no memory"),
        }
    }
}

impl Error for LogFault {}

impl From<NoMemory> for LogFault {
    ghost use Rattle.std.specs.Prelude.{◌≡◌};
    ghost use Rattle.tap_shape.specs.declared.fault.LogFault.TheVariants.{NoMemory};

    ghost from_gives = { λ _ fault. fault ≡ NoMemory };

    fn from(_: NoMemory) -> LogFault {
        LogFault::NoMemory
    }
}
