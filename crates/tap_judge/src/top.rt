ghost use Rattle.std.specs.Prelude.{◌≡◌, ◌≢◌, ◌↔◌, ◌≤◌, ℕ, List, [], Some, length};
ghost use Rattle.tap_io.specs.AllBytes.{HasReadAtMost, HasReadTooMany, HasReadUntilFault, HasReadWithoutFault};
ghost use Rattle.tap_io.specs.Faults.{HasRisen};
ghost use Rattle.tap_judge.specs.Ending.{HasJudgeCause, HasReadLawful, HasReadSuch, HasWrittenLine, IsAnswerOn, IsCauseOf, IsSaidOf, SpeaksOfBytes};
ghost use Rattle.tap_judge.specs.Limits.{most_log_bytes};
ghost use Rattle.tap_judge.specs.Status.{line_of_status};

use crate::judging::judge;
use crate::line::write_line;
use crate::printed::record_count_as_printed;
use crate::reading::{log_of_bytes, source_bytes};
use crate::status::{JudgeStatus, Judged};
use crate::verdict::Verdict;
use std::alloc::Global;
use tap_io::{Sink, Source};
use tap_replay::NoMemory;

/// Reads the long text of a log from a source to its end, decides whether the log is lawful, and writes one line that says it to a sink.
///
/// A word is refused, and then nothing is read. At most 33,554,432 bytes are read and one more, and the first read that fails ends the
/// reading. `Lawful`, `Unlawful` and `NotLog` are exact: each comes exactly if it is true of the bytes, be they read to their end and is
/// memory enough. The first write that fails ends the writing, and `before` doesn't depend on the sink.
///
/// Rule: docs/FORMATS.md, "The judge".
pub fn judge_run<S: Source, K: Sink>(
    alloc: Global,
    words: &Vec<String>,
    source: &mut S,
    sink: &mut K,
) -> Judged
    // Why it ends so, and the line that is written, or some first bytes of it.
    ensures cause { HasJudgeCause words.now.items (S.state source.old) (S.state source.new) result.before }
    ensures written { HasWrittenLine (K.state sink.old) (K.state sink.new) (line_of_status result.before) result.before result.status }

    // The same, status by status. A lawful log has the headline at each of its moments.
    ensures lawful { (records : ℕ) → result.before ≡ JudgeStatus.Lawful records
        → HasReadLawful (S.state source.old) (S.state source.new) records }
    ensures unlawful { (k : ℕ) → result.before ≡ JudgeStatus.Unlawful k
        → HasReadSuch (S.state source.old) (S.state source.new) result.before }
    ensures not_log { (line : ℕ) → result.before ≡ JudgeStatus.NotLog line
        → HasReadSuch (S.state source.old) (S.state source.new) result.before }
    ensures too_long { result.before ≡ JudgeStatus.TooLong → HasReadTooMany most_log_bytes (S.state source.old) (S.state source.new) }
    ensures usage { (result.before ≡ JudgeStatus.Usage) ↔ (words.now.items ≢ []) }
    ensures read_fault { result.before ≡ JudgeStatus.ReadFault → HasReadUntilFault most_log_bytes (S.state source.old) (S.state source.new) }
    ensures no_memory { result.before ≡ JudgeStatus.NoMemory → HasReadWithoutFault most_log_bytes (S.state source.old) (S.state source.new) }
    ensures write_fault { result.status ≡ JudgeStatus.WriteFault → HasRisen (K.state sink.old).faults (K.state sink.new).faults }
    ensures before { result.before ≢ JudgeStatus.WriteFault }

    // If the source tells its bytes, these three come exactly if they are true of them.
    ensures exact { (bytes : List ℕ) (status : JudgeStatus) → (S.state source.old).left ≡ Some bytes → SpeaksOfBytes result.before
        → IsSaidOf bytes status → result.before ≡ status }

    // No more than so many bytes are read unless the text is too long, and no read fails unless the status says so. A word leaves the source as it
    // was.
    ensures read { result.before ≢ JudgeStatus.TooLong → HasReadAtMost most_log_bytes (S.state source.old) (S.state source.new) }
    ensures unfailed { result.before ≢ JudgeStatus.ReadFault → (S.state source.new).faults ≡ (S.state source.old).faults }
    ensures source { result.before ≡ JudgeStatus.Usage → S.state source.new ≡ S.state source.old }
{
    let before = judge_unless_words(alloc, words, source);
    let written = write_line(sink, before);
    Judged {
        status: before.with_writing(written),
        before,
    }
}

// Judges the log of a source, if there is no word.
fn judge_unless_words<S: Source>(alloc: Global, words: &Vec<String>, source: &mut S) -> JudgeStatus
    ensures { HasJudgeCause words.now.items (S.state source.old) (S.state source.new) result }
{
    if words.is_empty() {
        return judge_source(alloc, source);
    }
    JudgeStatus::Usage
}

// Judges the log of which all bytes of a source are the text.
fn judge_source<S: Source>(alloc: Global, source: &mut S) -> JudgeStatus
    ensures { IsCauseOf (S.state source.old) (S.state source.new) result }
{
    match source_bytes(alloc, source) {
        Ok(bytes) => judge_bytes(alloc, bytes),
        Err(status) => status,
    }
}

// Judges the log of which the bytes are the text. A lawful text is mostly what the run of its own scenario prints.
fn judge_bytes(alloc: Global, bytes: Vec<u8>) -> JudgeStatus
    requires few { length bytes.items ≤ most_log_bytes }
    ensures { IsAnswerOn bytes.items result }
{
    match record_count_as_printed(alloc, bytes.as_slice()) {
        Ok(Some(records)) => JudgeStatus::Lawful(records),
        Ok(None) => judge_each_line(alloc, bytes),
        Err(NoMemory) => JudgeStatus::NoMemory,
    }
}

// The same, by reading all lines.
fn judge_each_line(alloc: Global, bytes: Vec<u8>) -> JudgeStatus
    requires few { length bytes.items ≤ most_log_bytes }
    ensures { IsAnswerOn bytes.items result }
{
    let log = match log_of_bytes(alloc, bytes) {
        Ok(log) => log,
        Err(status) => return status,
    };
    match judge(alloc, &log) {
        Verdict::Lawful => JudgeStatus::Lawful(log.len() as u32),
        Verdict::Unlawful(record) => JudgeStatus::Unlawful(record),
        Verdict::NoMemory => JudgeStatus::NoMemory,
    }
}
