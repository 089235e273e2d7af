ghost use Rattle.tap_report.specs.Written.{WritesText};

use tap_io::{Sink, Took};

/// Whether all was written.
///
/// Rule: docs/FORMATS.md, "The printed text".
#[derive(Clone, Copy, Debug, PartialEq, Eq)]
pub enum Written {
    /// All was written, and no fault came.
    All,
    /// A write failed, and nothing was written after it.
    Failed,
}

/// Writes a text, if all before it was written, as `so_far` says. With `All` the sink counted no fault in this call. The
/// first `Failed` comes only if it counted one, and some first bytes of the text are then written. If `so_far` is
/// `Failed`, nothing is written, and the answer is `Failed`.
///
/// Rule: docs/FORMATS.md, "The printed text".
pub fn write_text<K: Sink>(sink: &mut K, so_far: Written, text: &[u8]) -> Written
    ensures { WritesText (K.state sink.old) (K.state sink.new) text.now so_far result }
{
    match so_far {
        Written::Failed => Written::Failed,
        Written::All => write_all(sink, text),
    }
}

// Writes all of a text, or a first part if a write fails.
fn write_all<K: Sink>(sink: &mut K, text: &[u8]) -> Written
    ensures { WritesText (K.state sink.old) (K.state sink.new) text.now Written.All result }
{
    let mut done = 0;
    while done < text.len() {
        match sink.write(&text[done..]) {
            Took::Took(n) => done += n,
            Took::Failed => return Written::Failed,
        }
    }
    Written::All
}
