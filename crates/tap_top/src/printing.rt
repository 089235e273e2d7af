ghost use Rattle.std.specs.Prelude.{◌≡◌, ℕ, [], List as Bytes};
ghost use Rattle.tap_io.specs.BufferedSink.{buffered_state, state_over};
ghost use Rattle.tap_io.specs.Sink.{SinkState};
ghost use Rattle.tap_report.specs.Written.{WritesText};
ghost use Rattle.tap_report.specs.declared.written.Written.TheVariants.{All as AllWritten, Failed as WriteFailed};

use tap_io::{BufferedSink, Flushed, Sink};
use tap_report::Written;

// Passes on what waits, if all was written so far; after a failed write it writes nothing. What was written since the
// buffered sink was made, or a first part of it, is then held by the sink behind it.
pub(crate) fn flush_after<K: Sink>(text: &mut BufferedSink<K>, so_far: Written) -> Written
    ensures same_reference { text.new.inner.ghost_name ≡ text.old.inner.ghost_name }
    ensures written { (first : SinkState) (name : ℕ) (all : Bytes ℕ)
        → WritesText (state_over first name []) (buffered_state K.state text.old) all AllWritten so_far
        → WritesText first (K.state text.new.inner.now) all AllWritten result }
    ensures untouched { so_far ≡ WriteFailed → text.new.inner.now ≡ text.old.inner.now }
{
    match so_far {
        Written::Failed => Written::Failed,
        Written::All => match text.flush() {
            Flushed::All => Written::All,
            Flushed::Failed => Written::Failed,
        },
    }
}
