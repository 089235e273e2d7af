ghost use Rattle.std.specs.Prelude.{◌≤◌, IfErr, IfOk, length};
ghost use Rattle.tap_io.specs.AllBytes.{HasReadAll};
ghost use Rattle.tap_shape.specs.Text.{IsTextOf};
ghost use Rattle.tap_judge.specs.Ending.{IsAnswerOn, IsNotRead};
ghost use Rattle.tap_judge.specs.Limits.{most_log_bytes};

use crate::status::JudgeStatus;
use std::alloc::Global;
use tap_io::{Source, Unread, read_all};
use tap_log::Log;
use tap_shape::{LogFault, read_log};

/// The most bytes that the text of a log may have.
///
/// Rule: docs/PROTOCOL.md, "Limits".
pub const MOST_BYTES: usize = 33_554_432;

// All bytes of a source, or how the call ends without them.
pub(crate) fn source_bytes<S: Source>(alloc: Global, source: &mut S) -> Result<Vec<u8>, JudgeStatus>
    ensures bytes { IfOk result (λ bytes. HasReadAll most_log_bytes (S.state source.old) (S.state source.new) bytes.items) }
    ensures cause { IfErr result (IsNotRead (S.state source.old) (S.state source.new)) }
{
    match read_all(alloc, source, MOST_BYTES) {
        Ok(bytes) => Ok(bytes),
        Err(Unread::Failed) => Err(JudgeStatus::ReadFault),
        Err(Unread::TooLong) => Err(JudgeStatus::TooLong),
        Err(Unread::NoMemory) => Err(JudgeStatus::NoMemory),
    }
}

// The log of which these bytes are the text, or how the call ends without one. The bytes are dropped.
pub(crate) fn log_of_bytes(alloc: Global, bytes: Vec<u8>) -> Result<Log, JudgeStatus>
    requires few { length bytes.items ≤ most_log_bytes }
    ensures log { IfOk result (λ log. IsTextOf bytes.items log.records) }
    ensures cause { IfErr result (IsAnswerOn bytes.items) }
{
    match read_log(alloc, bytes.as_slice()) {
        Ok(log) => Ok(log),
        Err(LogFault::NotLog(line)) => Err(JudgeStatus::NotLog(line)),
        Err(LogFault::NoMemory) => Err(JudgeStatus::NoMemory),
    }
}
