ghost use Rattle.tap_own_scripts.specs.Judging.{Judges};
ghost use Rattle.tap_own_scripts.specs.OwnLaws.{OwnScripts};
ghost use Rattle.tap_own_scripts.specs.Stops.{LogsStop};

/// A lawful log is one of the scenario that it tells of itself, which is within its limits. If the first records of any log begin a lawful
/// log, they begin a log of that log's own scenario.
///
/// It does nothing: its contract is the law.
///
/// Rule: docs/FORMATS.md, "What comes next" and "The ways a run ends".
pub fn own_script_law()
    ensures { OwnScripts }
{}

/// A log of a run that begins with the records of a run is they alone, or goes on with the whole group that comes next, or has its end; if the
/// run is carried, it may also stop within that group. A log of a run that begins with a whole one is it.
///
/// It does nothing: its contract is the law.
///
/// Rule: docs/FORMATS.md, "The ways a run ends".
pub fn stop_law()
    ensures { LogsStop }
{}

/// A log is lawful, or refused at one record. It is refused where it first differs from a run of its own scenario, or goes on after one that is
/// over. If it stops within a group, it is lawful if it is carried, and else refused after its last record.
///
/// It does nothing: its contract is the law.
///
/// Rule: docs/FORMATS.md, "What comes next" and "The ways a run ends".
pub fn judging_law()
    ensures { Judges }
{}
