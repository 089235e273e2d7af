ghost use Rattle.tap_safe_runs.specs.SafeLogs.{OfLawfulLogs};
ghost use Rattle.tap_safe_runs.specs.Moments.{AtEachMoment};
ghost use Rattle.tap_cast_runs.specs.Begun.{CastsStayBegun, GroupsBeginRight};
ghost use Rattle.tap_cast_runs.specs.RunCasts.{RestHasNoCasts, RunCastsAreKept, RunCastsAreNumbered, RunCastsAreQuiet};
ghost use Rattle.tap_cast_runs.specs.ReachAll.{CastsReachAll};
ghost use Rattle.tap_cast_runs.specs.AwaitedAnswers.{AnswersAreAwaited, RestHasNoCastSessions};
ghost use Rattle.tap_cast_runs.specs.ReachedOnce.{ClosedHasReachedAll, GroupsReachRight, ReachesAtMostOnce, RestSaysClosed, RunIsToldOnce};
ghost use Rattle.tap_cast_runs.specs.Chains.{MoveKeepsChains};
ghost use Rattle.tap_cast_runs.specs.Clause.{LawfulWatchClauseHolds, WatchClauseHolds};
ghost use Rattle.tap_cast_runs.specs.Had.{AnswersAtRest, CoreHasAnswers, MoveKeepsAnswers, RunAnswersAreHeld};
ghost use Rattle.tap_cast_runs.specs.Runs.{LawfulWatchesHold, RunAnswersAreKept, RunChainsAreKept, RunCoreHasAnswers, RunCoversAreAnswered, RunWatchesAreKept, WatchesHoldIn};
ghost use Rattle.tap_cast_runs.specs.Watched.{MoveKeepsWatches, RunWatchesAreSound, WatchesAtRest};
ghost use Rattle.tap_cast_runs.specs.WatchMoves.{SeekHandsOn, TellHandsOn};

/// In each run, whatever its steps are and in whichever order frames are taken, what is said of casts holds of the system that its log has
/// come to: who keeps a cast is whom it has reached, whoever else is of its audience is reached or will be, and its sessions are exact. Each
/// cast has a number up to how many the log has begun.
///
/// It does nothing: its contract is the law.
///
/// Rule: docs/PROTOCOL.md, "Cast" and "CastAck".
pub fn run_casts_law()
    ensures kept { RunCastsAreKept }
    ensures numbered { RunCastsAreNumbered }
{}

/// In each run no cast goes on while a node departs, nor at rest: no session of casts is open, and each cast is closed.
///
/// It does nothing: its contract is the law.
///
/// Rule: docs/PROTOCOL.md, "CastAck" and "The start of a departure".
pub fn run_rest_casts_law()
    ensures departing { RunCastsAreQuiet }
    ensures rest { RestHasNoCasts }
{}

/// In each run, the log says once, and not twice, that a cast has reached a name, and that it is closed: each `Reached` is of a name that is
/// core then and begins with the prefix, a name has at most one of a cast, and once there is a `Closed` each name of the audience has one. At
/// rest each cast has its `Closed`.
///
/// It does nothing: its contract is the law.
///
/// Rule: docs/PROTOCOL.md, "Cast" and "CastAck".
pub fn told_casts_law()
    ensures once { RunIsToldOnce }
    ensures most { ReachesAtMostOnce }
    ensures right { GroupsReachRight }
    ensures all { ClosedHasReachedAll }
    ensures rest { RestSaysClosed }
{}

/// In each run, what is remembered of a cast is what the log said as it began: who cast it, how many digits its prefix has, and its audience,
/// which are the names that were core at the moment before, and begin with the prefix. It stays so with each group that follows.
///
/// It does nothing: its contract is the law.
///
/// Rule: docs/PROTOCOL.md, "Casts".
pub fn begun_casts_law()
    ensures begins { GroupsBeginRight }
    ensures stays { CastsStayBegun }
{}

/// At each moment of a run its casts reach all whom they are for: a name is reached at most once by a cast, is core then, and begins with the
/// prefix with which the log has said that the cast begins. Once a cast is closed, it has reached its whole audience: the names that were core
/// as it began, and begin with its prefix. At rest each cast is closed. So it is in the log of each run of a scenario that isn't over, up to
/// each of its moments.
///
/// It does nothing: its contract is the law.
///
/// Rule: docs/FORMATS.md, "What comes next" and "The course of a run", and docs/PROTOCOL.md, "Casts".
pub fn reach_all_law()
    ensures runs { AtEachMoment CastsReachAll }
    ensures lawful { OfLawfulLogs CastsReachAll }
{}

/// At each moment of a run each Heard and each Ack that is outstanding names an open session of a join at its receiver, and each CastAck an
/// open session of casts: no answer comes for a session that isn't open. At each rest no session of casts is open at any node. So it is in
/// the log of each run of a scenario that isn't over, up to each of its moments.
///
/// It does nothing: its contract is the law.
///
/// Rule: docs/FORMATS.md, "What comes next" and "The course of a run", and docs/PROTOCOL.md, "Sessions" and "CastAck".
pub fn open_sessions_law()
    ensures awaited { AtEachMoment AnswersAreAwaited }
    ensures rest { AtEachMoment RestHasNoCastSessions }
    ensures lawful_awaited { OfLawfulLogs AnswersAreAwaited }
    ensures lawful_rest { OfLawfulLogs RestHasNoCastSessions }
{}

/// Members at rest answered nothing and cover nobody: what is said of watch lists is so of them.
///
/// It does nothing: its contract is the law.
///
/// Rule: docs/PROTOCOL.md, "Watch lists".
pub fn answers_at_rest_law()
    ensures { WatchesAtRest }
{}

/// If the whole invariant of joins holds, and what is said of watch lists, then each possible move keeps the latter. Each slot that a joiner
/// waits for is in the watch of each Tell of it that is under way, or was answered by a node on the chain of Tells that leads to it. Whoever
/// covers a joiner has covered it a first time, and each slot that the joiner waits for, and in which it had a primary then, was answered: by
/// itself, or by another node on the chain of Tells that led to it from the joiner's surrogate. A slot is answered with the node's own name,
/// or that of its primary, and the name fits the slot.
///
/// It does nothing: its contract is the law.
///
/// Rule: docs/PROTOCOL.md, "Watch lists" and "Covers".
pub fn answers_moves_law()
    ensures { MoveKeepsWatches }
{}

/// If the whole invariant of joins holds, and the chain of Tells to the sender of each Tell under way and to each first cover leads to that node
/// from the joiner's surrogate, then so it is after each possible move.
///
/// It does nothing: its contract is the law.
///
/// Rule: docs/PROTOCOL.md, "Covers", "Seek" and "Tell".
pub fn chains_moves_law()
    ensures { MoveKeepsChains }
{}

/// What is said of watch lists holds at each moment of each run from members at rest, whatever its moves are and in whichever order frames
/// are delivered.
///
/// It does nothing: its contract is the law.
///
/// Rule: docs/PROTOCOL.md, "Watch lists" and "Covers".
pub fn run_answers_law()
    ensures { RunWatchesAreSound }
{}

/// Members at rest are answered nothing: what is said of answers is so of them.
///
/// It does nothing: its contract is the law.
///
/// Rule: docs/PROTOCOL.md, "Watch lists".
pub fn held_at_rest_law()
    ensures { AnswersAtRest }
{}

/// If the whole invariant of joins holds, and what is said of answers, then each possible move keeps the latter. A slot is answered for a
/// node, with a name that has been core; and while that node joins it has a link to the name, or a Hello on its way to it names it, or as
/// many settled links as the width stand in its slot.
///
/// It does nothing: its contract is the law.
///
/// Rule: docs/PROTOCOL.md, "Watch lists" and "Hello".
pub fn held_moves_law()
    ensures { MoveKeepsAnswers }
{}

/// So it is at each moment of each run from members at rest. Hence a joiner that becomes core has, of each slot that was answered for it, a
/// link to the name with which it was answered, or as many settled links as the width in the slot.
///
/// It does nothing: its contract is the law.
///
/// Rule: docs/PROTOCOL.md, "Watch lists" and "Done".
pub fn run_held_law()
    ensures runs { RunAnswersAreHeld }
    ensures core { CoreHasAnswers }
{}

/// In each run, whatever its steps are and in whichever order frames are taken, what is said of watch lists, of answers and of chains holds of
/// the system that its log has come to, at each moment. Whoever covers a joiner covered it a first time, and each slot of the joiner's full
/// watch list in which it had a primary then was answered: by itself, or by another node on the chain of Tells that led to that cover from the
/// joiner's surrogate. When the joiner becomes core it has a link to each name with which a slot was answered for it, or as many settled links
/// as the width in that slot.
///
/// It does nothing: its contract is the law.
///
/// Rule: docs/PROTOCOL.md, "Watch lists" and "Covers".
pub fn run_watches_law()
    ensures kept { RunWatchesAreKept }
    ensures answered { RunCoversAreAnswered }
    ensures held { RunAnswersAreKept }
    ensures led { RunChainsAreKept }
    ensures moments { AtEachMoment WatchesHoldIn }
    ensures core { RunCoreHasAnswers }
{}

/// So it is in the log of each run of a scenario that isn't over, up to each of its moments.
///
/// It does nothing: its contract is the law.
///
/// Rule: docs/FORMATS.md, "What comes next" and "The course of a run".
pub fn lawful_watches_law()
    ensures { LawfulWatchesHold }
{}

/// The watch clause holds of each run, at each of its moments. Whoever covers a joiner covered it a first time. A chain of Tells led to that cover
/// from the joiner's surrogate, and the log has each of them as sent. Each slot of the joiner's full watch list in which the node had a primary
/// then was answered by a node on the chain, be it this one, the surrogate or one between: by itself, or by its primary in that slot. After the
/// group with which a joiner becomes core it has, in each slot that was answered for it, a link to the name with which it was answered, or as many
/// settled links as the width. So it is in the log of each run of a scenario that isn't over, up to each of its moments.
///
/// It does nothing: its contract is the law.
///
/// Rule: docs/FORMATS.md, "What comes next" and "The course of a run", and docs/PROTOCOL.md, "Watch lists", "Covers" and "Done".
pub fn watch_clause_law()
    ensures runs { AtEachMoment WatchClauseHolds }
    ensures lawful { LawfulWatchClauseHolds }
{}

/// A core node that covers a joiner, at a Tell or at a Seek as its surrogate, hands the watch list on: each slot of the list that it was
/// told, or of the full list, is in the list of each Tell that it sends, but those of which its Hello gives the joiner a core node: the
/// node itself, or one that the Hello names as settled.
///
/// It does nothing: its contract is the law.
///
/// Rule: docs/PROTOCOL.md, "Watch lists" and "Covers".
pub fn watch_moves()
    ensures tell { TellHandsOn }
    ensures seek { SeekHandsOn }
{}
