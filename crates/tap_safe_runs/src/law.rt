ghost use Rattle.tap_safe_runs.specs.Each.{GroupsAreRight};
ghost use Rattle.tap_safe_runs.specs.SafeLogs.{EndedLogsAreSafe};
ghost use Rattle.tap_safe_runs.specs.Lawful.{LawfulLogsAreSafe};
ghost use Rattle.tap_safe_runs.specs.Leavers.{LeaversAreGone};
ghost use Rattle.tap_safe_runs.specs.Moments.{AtEachMoment, HasCoreNodes, HasNoHole, RestIsAllCore, WalksEndAtRoots};
ghost use Rattle.tap_safe_runs.specs.GroupMayMove.{GroupMayMove};
ghost use Rattle.tap_safe_runs.specs.Printed.{RootsAreFound, WalksAreToRoots};
ghost use Rattle.tap_safe_runs.specs.Safe.{RunsAreSound, RunsGrow};
ghost use Rattle.tap_safe_runs.specs.Taken.{FramesAreReceived};

/// The move that a group of a course makes is possible, if the invariant holds of the system before it: who joins is new, and comes by a
/// core node; who starts something else is core, or joins and hasn't given that up; nobody departs; a departure starts while no frame is
/// under way, and another node is core; and a frame that is taken is under way to a node.
///
/// It does nothing: its contract is the law.
///
/// Rule: docs/FORMATS.md, "The course of a run".
pub fn group_moves_law()
    ensures { GroupMayMove }
{}

/// A beginning within the limits is a run. With one more group that may follow, whose steps have names of the settings, it is one again, and at
/// each of its moments it is one.
///
/// It does nothing: its contract is the law.
///
/// Rule: docs/FORMATS.md, "The course of a run".
pub fn growing_runs_law()
    ensures { RunsGrow }
{}

/// The system that a run has come to has the whole invariant.
///
/// It does nothing: its contract is the law.
///
/// Rule: docs/FORMATS.md, "The course of a run".
pub fn sound_runs_law()
    ensures { RunsAreSound }
{}

/// Each frame of a run that is taken is under way to a node, to which it isn't strange, and what follows is what this node does by its rule.
///
/// It does nothing: its contract is the law.
///
/// Rule: docs/FORMATS.md, "The course of a run".
pub fn taken_law()
    ensures { FramesAreReceived }
{}

/// At each moment of a run there is a core node.
///
/// It does nothing: its contract is the law.
///
/// Rule: docs/FORMATS.md, "The course of a run".
pub fn core_law()
    ensures { AtEachMoment HasCoreNodes }
{}

/// At each moment of a run no core node's table has a hole that another core node could fill.
///
/// It does nothing: its contract is the law.
///
/// Rule: docs/FORMATS.md, "The course of a run".
pub fn hole_free_law()
    ensures { AtEachMoment HasNoHole }
{}

/// At each moment of a run each walk from a core node leads to the one root of its object, over core nodes alone, in as many hops as a name
/// has digits or fewer.
///
/// It does nothing: its contract is the law.
///
/// Rule: docs/FORMATS.md, "The course of a run".
pub fn run_walks_law()
    ensures { AtEachMoment WalksEndAtRoots }
{}

/// At each rest of a run each node that is present is core, whoever was to give its join up is gone, and nobody departs; no session of a
/// join is open, no link is a pin or marked, and whoever has a link to a core node is a holder there that is on.
///
/// It does nothing: its contract is the law.
///
/// Rule: docs/FORMATS.md, "The course of a run".
pub fn run_rest_law()
    ensures { AtEachMoment RestIsAllCore }
{}

/// At each rest of a run each node that departed is gone: after the step by which it departs, if this took effect, stands its `Gone`.
///
/// It does nothing: its contract is the law.
///
/// Rule: docs/FORMATS.md, "The course of a run".
pub fn leavers_law()
    ensures { AtEachMoment LeaversAreGone }
{}

/// What a run says of a walk is a refusal, or it leads from a core node to the one root of the object. A step that asks for a root is never
/// refused, and the root that the run says is that of the core nodes.
///
/// It does nothing: its contract is the law.
///
/// Rule: docs/FORMATS.md, "The course of a run".
pub fn printed_law()
    ensures walks { WalksAreToRoots }
    ensures roots { RootsAreFound }
{}

/// Of each group of a run, after the records before it: a walk is refused or leads to the root, a root is that of the core nodes, and a
/// frame that is taken is received by a node.
///
/// It does nothing: its contract is the law.
///
/// Rule: docs/FORMATS.md, "The course of a run".
pub fn each_group_law()
    ensures { GroupsAreRight }
{}

/// The log of a run of a scenario, however far it has come, is a run. So it is safe throughout.
///
/// It does nothing: its contract is the law.
///
/// Rule: docs/FORMATS.md, "What comes next" and "The course of a run".
pub fn lawful_logs_law()
    ensures { LawfulLogsAreSafe }
{}

/// At each of its moments the log of a run is safe: there is a core node, no core node's table has a hole that another core node could
/// fill, each walk from a core node leads to the one root of its object, and at rest each node that is present is core, and each that departed
/// is gone. So it is too once how the run has ended stands after it, or a step that is refused and whose refusal doesn't stand there yet: this
/// changes no node.
///
/// It does nothing: its contract is the law.
///
/// Rule: docs/FORMATS.md, "The course of a run" and "The ways a run ends".
pub fn ended_logs_law()
    ensures { EndedLogsAreSafe }
{}
