ghost use Rattle.tap_lawful_shapes.specs.Laws.{LogsAreShapes};

use tap_cast_runs::{run_casts_law, told_casts_law};

/// The log of each run of a scenario, carried or not, is a shape, however far the run has come and however it has ended: each record has
/// names of the settings, numbers within their types, slots, paths and roots as they are printed, and bytes whose head is read. So each
/// lawful log is one.
///
/// It does nothing but call what is known of casts, which does nothing: its contract is the law.
///
/// Rule: docs/FORMATS.md, "Texts that are read back".
pub fn shapes_law()
    ensures { LogsAreShapes }
{
    run_casts_law();
    told_casts_law();
}
