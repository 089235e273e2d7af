ghost use Rattle.tap_replay.specs.LawfulRuns.{CarriedRunsAreLawful, RunsAreLawful};

/// The log of a replay is that of a run of the scenario, so it is lawful, and it is a whole one unless memory was refused. A scenario has one
/// replay: two for which there was memory enough end alike, with one log.
///
/// It does nothing: its contract is the law.
///
/// Rule: docs/FORMATS.md, "What comes next" and "The ways a run ends".
pub fn replay_law()
    ensures plain { RunsAreLawful }
    ensures carried { CarriedRunsAreLawful }
{}
