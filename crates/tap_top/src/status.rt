ghost use Rattle.std.specs.Prelude.{◌≡◌};
ghost use Rattle.tap_top.specs.Ending.{with_writing};
ghost use Rattle.tap_top.specs.Status.{exit_code, status_of_end};

use tap_replay::{End, World};
use tap_report::Written;
use tap_scenario::Fault;

/// How the top call ended.
///
/// Rule: docs/FORMATS.md, "The fault line and the exit status".
#[derive(Clone, Copy, Debug, PartialEq, Eq)]
pub enum Status {
    /// Every step was run, and all text was written.
    Done,
    /// The words of the command line aren't those of the program.
    Usage,
    /// There are more bytes than a scenario may have.
    TooLong,
    /// The bytes are no scenario's text, and this is what is wrong first.
    NotScenario(Fault),
    /// A read failed.
    ReadFault,
    /// A write failed.
    WriteFault,
    /// The next group would have sent more frames than may be sent, and all text was written.
    Spent,
    /// Memory was refused.
    NoMemory,
}

impl Status {
    /// The exit status of a program that ends so.
    ///
    /// Rule: docs/FORMATS.md, "The fault line and the exit status".
    pub fn exit_code(&self) -> u8
        ensures { result ≡ exit_code self.now }
    {
        match self {
            Status::Done => 0,
            Status::ReadFault => 1,
            Status::Usage => 2,
            Status::TooLong | Status::NotScenario(_) => 3,
            Status::WriteFault => 4,
            Status::Spent => 5,
            Status::NoMemory => 6,
        }
    }

    // How it ends, if its run ends so.
    pub(crate) fn of(end: End) -> Status
        ensures { result ≡ status_of_end end }
    {
        match end {
            End::Done => Status::Done,
            End::Spent => Status::Spent,
            End::NoMemory => Status::NoMemory,
        }
    }

    // How it ends, if it would end so without a failed write.
    pub(crate) fn with_writing(self, written: Written) -> Status
        ensures { result ≡ with_writing self written }
    {
        match written {
            Written::All => self,
            Written::Failed => Status::WriteFault,
        }
    }
}

/// What the top call leaves.
///
/// Rule: docs/FORMATS.md, "The fault line and the exit status".
#[derive(Drop)]
pub struct Ended {
    /// How it ended.
    pub status: Status,
    /// How it would have ended without a failed write; never `WriteFault`.
    pub before: Status,
    /// The world of the run, whose log says what the run did. There is none if no run began.
    pub world: Option<World>,
}
