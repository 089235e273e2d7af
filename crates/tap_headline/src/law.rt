ghost use Rattle.tap_headline.specs.Carried.{CarriedLogsHaveHeadline, ReducedLogsAreRuns, UncutLogsKeepMoments};
ghost use Rattle.tap_headline.specs.LastRecord.{LogsEndSo};
ghost use Rattle.tap_headline.specs.Runs.{RunLogsArePrinted, RunLogsEndSo, RunLogsFollow, RunLogsHaveHeadline};
ghost use Rattle.tap_headline.specs.RootSets.{HeadlineFindsSalts};
ghost use Rattle.tap_headline.specs.Scripts.{LogsFollowScripts, LogsHaveHeadline, UncarriedLogsHaveHeadline};
ghost use Rattle.tap_headline.specs.Printable.{LogsCanBePrinted};
ghost use Rattle.tap_headline.specs.Endings.{EndingsChangeNothing};
ghost use Rattle.tap_headline.specs.Headline.{EndedLogsHaveHeadline};

/// The log of a run begins as its scenario does, and its steps are the scenario's first ones. It has the headline, at each of its moments,
/// also once it says how the run has ended: that its system has the frames and nodes that it says, and of tables, pointers, lookups, casts,
/// sessions, watch lists and the frames of joins.
///
/// It does nothing: its contract is the law.
///
/// Rule: docs/FORMATS.md, "What comes next" and "The course of a run".
pub fn headline_law()
    ensures follows { LogsFollowScripts }
    ensures headline { LogsHaveHeadline }
{}

/// The log of a run that isn't over has neither `Finished` nor `Spent` at its end. That of a run whose steps were all run has every step
/// of the scenario, and `Finished` with their number; that of one which would send too many frames ends with `Spent`.
///
/// It does nothing: its contract is the law.
///
/// Rule: docs/FORMATS.md, "The ways a run ends".
pub fn last_record_law()
    ensures { LogsEndSo }
{}

/// The log of a run can be printed in each mode: it begins with its only `Begin`, the head of each frame is read with its settings, each
/// walk went through some node, the digits of slots are below the base, and want of memory is no fault of a damaged copy. It has far
/// fewer records than may be printed.
///
/// It does nothing: its contract is the law.
///
/// Rule: docs/FORMATS.md, "The printed text".
pub fn printable_law()
    ensures { LogsCanBePrinted }
{}

/// What stands at the end of the log of a run changes nothing, be it how many steps were run, how many frames may be sent, alone or after the
/// step that would send more, or a step that is refused and whose refusal doesn't stand there yet: the log has come to the same system, says
/// the same of who takes part and who departs, of the pairs that are published and of the frames that are outstanding, and accepts the same
/// starts.
///
/// It does nothing: its contract is the law.
///
/// Rule: docs/FORMATS.md, "The ways a run ends".
pub fn endings_law()
    ensures { EndingsChangeNothing }
{}

/// The log of a run has the headline, at each of its moments, also once how the run has ended stands after it, or a step that is refused and
/// whose refusal doesn't stand there yet.
///
/// It does nothing: its contract is the law.
///
/// Rule: docs/FORMATS.md, "The course of a run" and "The ways a run ends".
pub fn ended_headline_law()
    ensures { EndedLogsHaveHeadline }
{}

/// The headline over a carrier, whatever packets are lost, repeated or late: up to each moment of the log of a carried run its reduced log has
/// the headline, and both say the same of frames, nodes and pairs. No frame is taken twice, and at a rest each that was sent was taken. So it is
/// also once how the run has ended stands there, and if memory ran out within a group, of which the end is then no moment: in other logs each moment
/// counts. Until the run is over its reduced log is that of a run.
///
/// It does nothing: its contract is the law.
///
/// Rule: docs/PROTOCOL.md, "Packets", and docs/FORMATS.md, "The ways a run ends".
pub fn carried_headline_law()
    ensures headline { CarriedLogsHaveHeadline }
    ensures moments { UncutLogsKeepMoments }
    ensures runs { ReducedLogsAreRuns }
{}

/// The log of a run, carried or not as its scenario is, begins as this does, and its steps are the scenario's first ones. It has the headline.
/// It has neither `Finished` nor `Spent` at its end unless the run is over, and it can be printed.
///
/// It does nothing: its contract is the law.
///
/// Rule: docs/FORMATS.md, "What comes next", "The ways a run ends" and "The printed text".
pub fn runs_law()
    ensures follows { RunLogsFollow }
    ensures headline { RunLogsHaveHeadline }
    ensures ends { RunLogsEndSo }
    ensures printed { RunLogsArePrinted }
{}

/// The log of a run that isn't carried has the headline up to each of its moments, and what a root set tells in it is right: of each of the four
/// salts of its object the root over the core nodes, at which walks to the salt from each core node end. And a lookup of a salt that is made alone,
/// at a rest at which a pair of this salt is published, finds a server of it.
///
/// It does nothing: its contract is the law.
///
/// Rule: docs/PROTOCOL.md, "Salted names".
pub fn root_sets_law()
    ensures right { UncarriedLogsHaveHeadline }
    ensures found { HeadlineFindsSalts }
{}
