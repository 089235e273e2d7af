ghost use Rattle.tap_lawful.specs.CarriedLaws.{CarriedGroupsMove, CarriedGrows, CarriedRunsReduce, OneCarriedLog};
ghost use Rattle.tap_lawful.specs.PlayedLaws.{OneLog, PlayedGrows};
ghost use Rattle.tap_lawful.specs.RunLaws.{RunsByCarrier};
ghost use Rattle.tap_lawful.specs.UncarriedLaws.{UncarriedRunsReduce};

/// The log of a run grows group by group, and each time less is left of the run. It is the course of a run. Its steps are the first
/// ones of the scenario, numbered from 1, and all of them once no group comes next.
///
/// It does nothing: its contract is the law.
///
/// Rule: docs/FORMATS.md, "What comes next".
pub fn lawful_law()
    ensures { PlayedGrows }
{}

/// A scenario has one log, however far a run of it has come: of two logs of its runs one begins with the other, and two of runs
/// that are over are one.
///
/// It does nothing: its contract is the law.
///
/// Rule: docs/FORMATS.md, "What comes next".
pub fn one_log_law()
    ensures { OneLog }
{}

/// The log of a carried run is one of turns that may follow, so its reduced log agrees with it and is that of a run. So it is at each of
/// its moments.
///
/// It does nothing: its contract is the law.
///
/// Rule: docs/FORMATS.md, "What comes next".
pub fn carried_law()
    ensures { CarriedRunsReduce }
{}

/// Each group that comes next in a carried run is that of a move of a carrier which may come. So each record may come after those before it,
/// a measure falls with each group, and at most two packets are made for each frame that may be sent and each step, and 200,000 more. There
/// are at most two groups for each step and each packet.
///
/// It does nothing: its contract is the law.
///
/// Rule: docs/FORMATS.md, "What comes next".
pub fn carried_moves_law()
    ensures { CarriedGroupsMove }
{}

/// The log of a carried run grows group by group. Its steps are the first ones of the scenario, numbered from 1, and all of them once no
/// group comes next.
///
/// It does nothing: its contract is the law.
///
/// Rule: docs/FORMATS.md, "What comes next".
pub fn carried_growth_law()
    ensures { CarriedGrows }
{}

/// A scenario has one log of carried runs, however far one has come: of two one begins with the other, and two of runs that are over are
/// one. A log that was cut within a group is neither whole nor that of a run so far.
///
/// It does nothing: its contract is the law.
///
/// Rule: docs/FORMATS.md, "What comes next".
pub fn one_carried_log_law()
    ensures { OneCarriedLog }
{}

/// The log of a run that isn't carried is one of turns that may follow, so until it is over it and its reduced log, which has no roots of salted
/// names, agree. The reduced log is that of a run without roots, however far the run has come and however it has ended. A log without added records
/// is its own reduced log.
///
/// It does nothing: its contract is the law.
///
/// Rule: docs/FORMATS.md, "What comes next".
pub fn uncarried_law()
    ensures { UncarriedRunsReduce }
{}

/// So it is by the carrier of the scenario, carried or not: the log of its run grows group by group, its steps are the scenario's first ones, it
/// begins as the scenario does, and a scenario has one log.
///
/// It does nothing: its contract is the law.
///
/// Rule: docs/FORMATS.md, "What comes next".
pub fn runs_law()
    ensures { RunsByCarrier }
{}
