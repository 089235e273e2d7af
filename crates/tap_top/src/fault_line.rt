ghost use Rattle.tap_report.specs.Written.{WritesText};
ghost use Rattle.tap_top.specs.FaultLine.{fault_line, text_of_fault};

use crate::status::Status;
use itoa::Buffer;
use tap_io::Sink;
use tap_report::{Written, write_text};
use tap_scenario::Fault;

// Writes the line that says why it ended so, after the text of the log, if that doesn't say it.
pub(crate) fn write_fault_line<K: Sink>(sink: &mut K, so_far: Written, status: Status) -> Written
    ensures { WritesText (K.state sink.old) (K.state sink.new) (fault_line status) so_far result }
{
    match status {
        Status::NotScenario(fault) => write_not_scenario(sink, so_far, fault),
        Status::Done | Status::Spent | Status::WriteFault => write_text(sink, so_far, b""),
        Status::Usage => write_text(
            sink,
            so_far,
            b"tapestry: usage: tapestry [--brief] [--make N] [--seed S]\n",
        ),
        Status::TooLong => write_text(sink, so_far, b"tapestry: text too long\n"),
        Status::ReadFault => write_text(sink, so_far, b"tapestry: read fault\n"),
        Status::NoMemory => write_text(sink, so_far, b"tapestry: no memory\n"),
    }
}

// Writes the line on a text that is no scenario's.
fn write_not_scenario<K: Sink>(sink: &mut K, so_far: Written, fault: Fault) -> Written
    ensures { WritesText (K.state sink.old) (K.state sink.new) (fault_line (Status.NotScenario fault)) so_far result }
{
    let so_far = write_text(sink, so_far, b"tapestry: not a scenario: ");
    let so_far = write_fault(sink, so_far, fault);
    write_text(sink, so_far, b"\n")
}

// Writes what is wrong with a text.
fn write_fault<K: Sink>(sink: &mut K, so_far: Written, fault: Fault) -> Written
    ensures { WritesText (K.state sink.old) (K.state sink.new) (text_of_fault fault) so_far result }
{
    match fault {
        Fault::NotUtf8 => write_text(sink, so_far, b"not UTF-8"),
        Fault::NotToml => write_text(sink, so_far, b"not TOML"),
        Fault::BadKey(key) => {
            let so_far = write_text(sink, so_far, b"bad key ");
            write_text(sink, so_far, key.text().as_bytes())
        }
        Fault::BadValue(key) => {
            let so_far = write_text(sink, so_far, b"bad value ");
            write_text(sink, so_far, key.text().as_bytes())
        }
        Fault::BadStep(index) => {
            let so_far = write_text(sink, so_far, b"bad step ");
            let mut buffer = Buffer::new();
            write_text(sink, so_far, buffer.format(index).as_bytes())
        }
    }
}
