ghost use Rattle.std.specs.Prelude.{◌++◌, decimal};
ghost use Rattle.tap_report.specs.Written.{WritesText};
ghost use Rattle.tap_judge.specs.Status.{line_of_status};

use crate::status::JudgeStatus;
use itoa::Buffer;
use tap_io::Sink;
use tap_report::{Written, write_text};

// Writes the line that says how the call ends.
pub(crate) fn write_line<K: Sink>(sink: &mut K, status: JudgeStatus) -> Written
    ensures { WritesText (K.state sink.old) (K.state sink.new) (line_of_status status) Written.All result }
{
    match status {
        JudgeStatus::Lawful(records) => write_number(sink, b"lawful ", records, b" records\n"),
        JudgeStatus::Unlawful(record) => write_number(sink, b"unlawful at record ", record, b"\n"),
        JudgeStatus::NotLog(line) => write_number(sink, b"not a log at line ", line, b"\n"),
        JudgeStatus::TooLong => write_text(sink, Written::All, b"judge: text too long\n"),
        JudgeStatus::Usage => write_text(sink, Written::All, b"judge: usage: tapestry_judge\n"),
        JudgeStatus::ReadFault => write_text(sink, Written::All, b"judge: read fault\n"),
        JudgeStatus::WriteFault => write_text(sink, Written::All, b""),
        JudgeStatus::NoMemory => write_text(sink, Written::All, b"judge: no memory\n"),
    }
}

// Writes a number between two texts.
fn write_number<K: Sink>(sink: &mut K, before: &[u8], number: u32, after: &[u8]) -> Written
    ensures { WritesText (K.state sink.old) (K.state sink.new) (before.now ++ decimal number ++ after.now) Written.All result }
{
    let so_far = write_text(sink, Written::All, before);
    let mut buffer = Buffer::new();
    let so_far = write_text(sink, so_far, buffer.format(number).as_bytes());
    write_text(sink, so_far, after)
}
