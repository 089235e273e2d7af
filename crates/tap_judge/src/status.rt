ghost use Rattle.std.specs.Prelude.{◌≡◌};
ghost use Rattle.tap_judge.specs.Status.{judge_exit_code, judge_status_with_writing};

use tap_report::Written;

/// How the judge's call ended.
///
/// Rule: docs/FORMATS.md, "The judge".
#[derive(Clone, Copy, Debug, PartialEq, Eq)]
pub enum JudgeStatus {
    /// The bytes are the text of a lawful log with so many records.
    Lawful(u32),
    /// The bytes are the text of a log that isn't lawful: so many records, counted from 1, are the fewest of its first ones that begin no
    /// lawful log; or the log has one fewer, and stops within a group.
    Unlawful(u32),
    /// The bytes are no log's text: so many lines, counted from 1, are the fewest of its first ones that begin none; or the text has one fewer,
    /// and stops within a record.
    NotLog(u32),
    /// There are more bytes than the text of a log may have.
    TooLong,
    /// There is a word, and the judge takes none.
    Usage,
    /// A read failed.
    ReadFault,
    /// A write failed.
    WriteFault,
    /// Memory was refused.
    NoMemory,
}

impl JudgeStatus {
    /// The exit status of a program that ends so.
    ///
    /// Rule: docs/FORMATS.md, "The judge".
    pub fn exit_code(&self) -> u8
        ensures { result ≡ judge_exit_code self.now }
    {
        match self {
            JudgeStatus::Lawful(_) => 0,
            JudgeStatus::ReadFault => 1,
            JudgeStatus::Usage => 2,
            JudgeStatus::NotLog(_) | JudgeStatus::TooLong => 3,
            JudgeStatus::WriteFault => 4,
            JudgeStatus::NoMemory => 6,
            JudgeStatus::Unlawful(_) => 7,
        }
    }

    // How it ends, if it would end so without a failed write.
    pub(crate) fn with_writing(self, written: Written) -> JudgeStatus
        ensures { result ≡ judge_status_with_writing self written }
    {
        match written {
            Written::All => self,
            Written::Failed => JudgeStatus::WriteFault,
        }
    }
}

/// How the judge's call ended, with regard to writing and without.
///
/// Rule: docs/FORMATS.md, "The judge".
#[derive(Clone, Copy, Debug, PartialEq, Eq)]
pub struct Judged {
    /// How it ended: as `before` says, or with a write that failed.
    pub status: JudgeStatus,
    /// How it would have ended without a failed write; never `WriteFault`.
    pub before: JudgeStatus,
}
