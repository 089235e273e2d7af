ghost use Rattle.tap_carried.specs.CarrierTurns.{CarrierTurnsFollow};
ghost use Rattle.tap_carried.specs.EndedLogs.{EndedLogsLoseMoments};
ghost use Rattle.tap_carried.specs.ReducedLogs.{LogsAgree};
ghost use Rattle.tap_carried.specs.ReducedRuns.{RunsReduce};

/// A log of turns, carried or not, and its reduced log agree: their moments correspond, and at each of them both say the same of frames,
/// counts, nodes and pairs, and refuse the same starts and observations. A rest of the log is one of its reduced log.
///
/// It does nothing: its contract is the law.
///
/// Rule: docs/FORMATS.md, "Groups and moments".
pub fn agreement_law()
    ensures { LogsAgree }
{}

/// Of a log that says how its run has ended moments don't correspond: a carried one may have a moment that its reduced log hasn't.
///
/// It does nothing: its contract is the law.
///
/// Rule: docs/FORMATS.md, "Groups and moments".
pub fn lost_moments_law()
    ensures { EndedLogsLoseMoments }
{}

/// The reduced log of a run, carried or not, is a course that hasn't ended, whose steps have names of the settings, and so it is at each of its
/// moments.
///
/// It does nothing: its contract is the law.
///
/// Rule: docs/FORMATS.md, "The course of a run".
pub fn reduction_law()
    ensures { RunsReduce }
{}

/// What a carrier does is a turn that may follow, if what becomes of it may follow the reduced log; and so is a root set.
///
/// It does nothing: its contract is the law.
///
/// Rule: docs/PROTOCOL.md, "Packets".
pub fn carrier_turns_law()
    ensures { CarrierTurnsFollow }
{}
