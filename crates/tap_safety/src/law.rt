ghost use Rattle.tap_safety.specs.AtRest.{InvariantAtRest};
ghost use Rattle.tap_safety.specs.FewSessions.{FewSessionsAtRest, FewSessionsKept, FewSessionsKeptByOpening};
ghost use Rattle.tap_safety.specs.Rest.{RestHolds};
ghost use Rattle.tap_safety.specs.CountSteps.{CountedKeptByAnswer, CountedKeptByAnswering, CountedKeptByClosing, CountedKeptByLastAnswer};
ghost use Rattle.tap_safety.specs.CountSteps.{CountedKeptByOpening, CountedKeptByOthers, CountedKeptByRoot};
ghost use Rattle.tap_safety.specs.KnownLaws.{CoreKept, EndedKept, EndsKeptByFrame, EndsKeptByStart, FewKept, FewKeptByJoin, NamesKept};
ghost use Rattle.tap_safety.specs.KnownLaws.{DepartsUntilRest, FrameLeavesNotices, NoticesKeptBySteps};
ghost use Rattle.tap_safety.specs.KnownLaws.{FrameIsAtPeace, NoticesKeptAtPeace, PeaceIsKept, SpelledKeptByFrame, SpelledKeptByStart};
ghost use Rattle.tap_safety.specs.KnownLaws.{StampsKeptByFrame, StampsKeptByJoin, StampsKeptByStart};
ghost use Rattle.tap_safety.specs.StepLaws.{DeliveryIsStep, NumberIsFound, NumbersKeptByFrame, NumbersKeptByStart, StartIsStep, StrayIsLost};
ghost use Rattle.tap_safety.specs.StepLaws.{FilledKeptByForget, FilledKeptByHello, FilledKeptByJoin, FilledKeptByPlainFrame};
ghost use Rattle.tap_safety.specs.StepLaws.{FilledKeptByRelease, FilledKeptByStart, FilledKeptByTellCeased, FilledKeptByTellJoining};
ghost use Rattle.tap_safety.specs.StepLaws.{SessionsKeptByClosing, SessionsKeptByHandingOn, SessionsKeptByLastAnswer};
ghost use Rattle.tap_safety.specs.StepLaws.{SessionsKeptByOthers, SessionsKeptByRoot};
ghost use Rattle.tap_safety.specs.StepLaws.{FilledKeptByDone, JoinersStayByFrame, SeekingKeptByFrame, SoftKeptByDone, SoftKeptByJoin};
ghost use Rattle.tap_safety.specs.StepLaws.{SoftKeptByKnownTell, SoftKeptByStart, SoftKeptByTell, TellsKeptByFrame};
ghost use Rattle.tap_safety.specs.StepLaws.{AwaitedKeptByClosing, AwaitedKeptByHandingOn, AwaitedKeptByLastAnswer, AwaitedKeptByOpening};
ghost use Rattle.tap_safety.specs.StepLaws.{AwaitedKeptByOthers, AwaitedKeptByRoot, NumbersAreNew};
ghost use Rattle.tap_safety.specs.StepLaws.{AwaitKeptByClosing, AwaitKeptByHandingOn, AwaitKeptByLastAnswer, AwaitKeptByOpening};
ghost use Rattle.tap_safety.specs.StepLaws.{AwaitKeptByOthers, AwaitKeptByRoot, ClosingTurns, DepthsKeptByTurn, HandingOnTurns};
ghost use Rattle.tap_safety.specs.StepLaws.{LastAnswerTurns, OpeningTurns, PlacesKeptByTurn, RootTurns};
ghost use Rattle.tap_safety.specs.StepLaws.{FilledKeptByKnownTell, FilledKeptBySeat, FilledKeptByTell, FramesAreExchanged};
ghost use Rattle.tap_safety.specs.StepLaws.{SeekingKeptByJoin, WordsSaidByFrame};
ghost use Rattle.tap_safety.specs.StepLaws.{SeekingKeptByDone, SeekingKeptByKnownTell, SeekingKeptBySeat, SeekingKeptByTell};
ghost use Rattle.tap_safety.specs.StepLaws.{InvariantGivesBefore, InvariantGivesQuiet, InvariantGivesSeat, InvariantGivesTell};
ghost use Rattle.tap_safety.specs.StepLaws.{JoinerIsNewBySeat, JoinsKeptByRoot, SeekingKeptBySeek, SoftKeptBySeat};
ghost use Rattle.tap_safety.specs.StepLaws.{CeasedKeptByWords, TiesKeptByWords, VersionsKeptByWords};
ghost use Rattle.tap_safety.specs.StepLaws.{JoinsKeptByClosing, JoinsKeptByHandingOn, JoinsKeptByLastAnswer, JoinsKeptByOpening};
ghost use Rattle.tap_safety.specs.StepLaws.{SeekingKept, SoftKeptByForget, SoftKeptByHello, SoftKeptByPlainFrame, SoftKeptByRelease};
ghost use Rattle.tap_safety.specs.StepLaws.{SoftKeptByTellCeased, SoftKeptByTellJoining, TellsKept};
ghost use Rattle.tap_safety.specs.KeptLaws.{CoverKeptByDone, HoleFreeKeptByDone, LowKeptByDone, LowOfNewJoiner};
ghost use Rattle.tap_safety.specs.KeptLaws.{CoverKeptByTell, CoveredKeptByTell, HoleFreeKeptByTell, LowKeptByTell, MeetKeptByTell};
ghost use Rattle.tap_safety.specs.KeptLaws.{NoSessionWithoutRoot, OnlyTheLastFrameIsLeft, OnlyTheRootIsLeft, SessionsKeptByOpening};
ghost use Rattle.tap_safety.specs.KeptLaws.{CoverKeptByKnownTell, QuietOnceDone, TiesKeptByLink, VersionsKeptByLink};

/// A move: a frame that is delivered is taken by its receiver, or by nobody if that is no node, and who starts something acts by its rule;
/// no other node changes, and frames keep numbers that ascend, by which they are found.
///
/// It does nothing: its contract is the law.
///
/// Rule: docs/PROTOCOL.md, "Steps of a node".
pub fn move_law()
    ensures delivery { DeliveryIsStep }
    ensures lost { StrayIsLost }
    ensures start { StartIsStep }
    ensures found { NumberIsFound }
    ensures numbers { NumbersKeptByFrame }
    ensures more { NumbersKeptByStart }
    ensures exchanged { FramesAreExchanged }
{}

/// A frame that is neither a Tell nor a Hello, at a node that keeps its links and its covers, as Heard, Ack, Link and a Seek that goes
/// on do: tables without holes, and what leads to them, are kept, and that links and frames name core nodes or soft ones, if the
/// messages do.
///
/// It does nothing: its contract is the law.
///
/// Rule: docs/PROTOCOL.md, "Steps of a node".
pub fn plain_frame_law()
    ensures filled { FilledKeptByPlainFrame }
    ensures soft { SoftKeptByPlainFrame }
{}

/// A Tell at a node that is joining or has ceased: tables without holes, and what leads to them, are kept, and that links and frames
/// name core nodes or soft ones.
///
/// It does nothing: its contract is the law.
///
/// Rule: docs/PROTOCOL.md, "Tell".
pub fn tell_elsewhere_law()
    ensures joining { FilledKeptByTellJoining }
    ensures ceased { FilledKeptByTellCeased }
    ensures joining_soft { SoftKeptByTellJoining }
    ensures ceased_soft { SoftKeptByTellCeased }
{}

/// A Hello: tables without holes, and what leads to them, are kept, and that links and frames name core nodes or soft ones.
///
/// It does nothing: its contract is the law.
///
/// Rule: docs/PROTOCOL.md, "Hello".
pub fn hello_law()
    ensures filled { FilledKeptByHello }
    ensures soft { SoftKeptByHello }
{}

/// A Release: tables without holes, and what leads to them, are kept, and that links and frames name core nodes or soft ones.
///
/// It does nothing: its contract is the law.
///
/// Rule: docs/PROTOCOL.md, "Release".
pub fn release_law()
    ensures filled { FilledKeptByRelease }
    ensures soft { SoftKeptByRelease }
{}

/// A Forget: tables without holes, and what leads to them, are kept, and that links and frames name core nodes or soft ones.
///
/// It does nothing: its contract is the law.
///
/// Rule: docs/PROTOCOL.md, "Forget".
pub fn forget_law()
    ensures filled { FilledKeptByForget }
    ensures soft { SoftKeptByForget }
{}

/// A start that leaves a node what it is, and the start of a join: tables without holes, and what leads to them, are kept.
///
/// It does nothing: its contract is the law.
///
/// Rule: docs/PROTOCOL.md, "The start of a join".
pub fn start_law()
    ensures plain { FilledKeptByStart }
    ensures join { FilledKeptByJoin }
    ensures join_seeking { SeekingKeptByJoin }
    ensures plain_soft { SoftKeptByStart }
    ensures join_soft { SoftKeptByJoin }
{}

/// A Tell that a core node takes anew: each node that is to be told is told, or has met the joiner; the covers are as before, but
/// for the new one; joiners of one region still meet; and no slot is emptied. If the core node covers the joiner so already, whom the
/// Tell served is served still.
///
/// It does nothing: its contract is the law.
///
/// Rule: docs/PROTOCOL.md, "Tell".
pub fn tell_law()
    ensures cover { CoverKeptByTell }
    ensures covered { CoveredKeptByTell }
    ensures meet { MeetKeptByTell }
    ensures low { LowKeptByTell }
    ensures hole_free { HoleFreeKeptByTell }
    ensures known { CoverKeptByKnownTell }
    ensures filled { FilledKeptByTell }
    ensures known_filled { FilledKeptByKnownTell }
    ensures soft { SoftKeptByTell }
    ensures known_soft { SoftKeptByKnownTell }
{}

/// A Done that a joiner takes: the new core node's slot is filled at each other core node, and each other's slot at it; each joiner
/// whose covers reach it has met it or is told to it; and each joiner of whose prefix it has as much is given its slot.
///
/// It does nothing: its contract is the law.
///
/// Rule: docs/PROTOCOL.md, "Done".
pub fn done_law()
    ensures hole_free { HoleFreeKeptByDone }
    ensures cover { CoverKeptByDone }
    ensures low { LowKeptByDone }
    ensures filled { FilledKeptByDone }
    ensures soft { SoftKeptByDone }
{}

/// A Seek that is taken at the joiner's surrogate: with its Hello the joiner is given the slot of each core node with which it shares
/// at most its prefix; tables without holes, and what leads to them, are kept, and that links and frames name core nodes or soft ones;
/// and the joiner is the only new one.
///
/// It does nothing: its contract is the law.
///
/// Rule: docs/PROTOCOL.md, "Seek".
pub fn seek_law()
    ensures low { LowOfNewJoiner }
    ensures filled { FilledKeptBySeat }
    ensures joiner { JoinerIsNewBySeat }
    ensures soft { SoftKeptBySeat }
{}

/// The sessions of a join: they stay exact if one is opened for a frame that is taken, the root's among them, if a frame is answered or
/// is an answer, if a session is closed by its last one, and if a step leaves them alone; without its root session a joiner has none;
/// if its root session awaits one frame alone, that session and that frame are all that is left; and once the joiner's Done is under
/// way, no Tell of it and no Hello to it is.
///
/// It does nothing: its contract is the law.
///
/// Rule: docs/PROTOCOL.md, "Covers of a node".
pub fn sessions_law()
    ensures opened { SessionsKeptByOpening }
    ensures handed_on { SessionsKeptByHandingOn }
    ensures seated { SessionsKeptByRoot }
    ensures closed { SessionsKeptByClosing }
    ensures last { SessionsKeptByLastAnswer }
    ensures others { SessionsKeptByOthers }
    ensures joins_handed_on { JoinsKeptByHandingOn }
    ensures joins_opened { JoinsKeptByOpening }
    ensures joins_seated { JoinsKeptByRoot }
    ensures joins_closed { JoinsKeptByClosing }
    ensures joins_last { JoinsKeptByLastAnswer }
    ensures rootless { NoSessionWithoutRoot }
    ensures root { OnlyTheRootIsLeft }
    ensures frame { OnlyTheLastFrameIsLeft }
    ensures quiet { QuietOnceDone }
{}

/// Each open session awaits each answer once, and no session that isn't there, after each kind of step: a frame is answered, a session is
/// opened below another or as a root, one is closed by its last answer, or a step leaves them alone.
///
/// It does nothing: its contract is the law.
///
/// Rule: docs/PROTOCOL.md, "Covers of a node".
pub fn awaits_law()
    ensures handed_on { AwaitedKeptByHandingOn }
    ensures opened { AwaitedKeptByOpening }
    ensures seated { AwaitedKeptByRoot }
    ensures closed { AwaitedKeptByClosing }
    ensures last { AwaitedKeptByLastAnswer }
    ensures others { AwaitedKeptByOthers }
    ensures numbers { NumbersAreNew }
{}

/// The sessions that are remembered are those that the nodes keep, waiting for as many answers as are awaited, after each kind of step: a
/// frame is answered, or is an answer, a session is opened below another or as a root, one is closed, or none changes.
///
/// It does nothing: its contract is the law.
///
/// Rule: docs/PROTOCOL.md, "Covers of a node".
pub fn counts_law()
    ensures answering { CountedKeptByAnswering }
    ensures answer { CountedKeptByAnswer }
    ensures opened { CountedKeptByOpening }
    ensures seated { CountedKeptByRoot }
    ensures closed { CountedKeptByClosing }
    ensures last { CountedKeptByLastAnswer }
    ensures others { CountedKeptByOthers }
{}

/// The members with which an overlay begins, each core with its ties at rest, and nothing under way, have the invariant; and whatever
/// system has it, nothing of joins and departures is left in it while no frame is under way.
///
/// It does nothing: its contract is the law.
///
/// Rule: docs/PROTOCOL.md, "Nodes".
pub fn rest_law()
    ensures members { InvariantAtRest }
    ensures rest { RestHolds }
{}

/// Beside the invariant: each node has few sessions of one joiner open, at the beginning, and after a step that opens none, if each node
/// that has some may have as many as before, or one, if its node may have one more.
///
/// It does nothing: its contract is the law.
///
/// Rule: docs/PROTOCOL.md, "Tell".
pub fn few_sessions_law()
    ensures members { FewSessionsAtRest }
    ensures others { FewSessionsKept }
    ensures opened { FewSessionsKeptByOpening }
{}

/// What the laws of Tells, Dones and Seeks ask for before the step: the invariant gives it, if nobody departs;
/// of tables without holes a Tell and a Done alone ask.
///
/// It does nothing: its contract is the law.
///
/// Rule: docs/PROTOCOL.md, "Steps of a node".
pub fn invariant_law()
    ensures tell { InvariantGivesTell }
    ensures quiet { InvariantGivesQuiet }
    ensures before { InvariantGivesBefore }
    ensures seat { InvariantGivesSeat }
{}

/// The bookkeeping of sessions: each kind of step is a turn of them, and a turn keeps their places and the depths of Tells; and each open
/// session still awaits an answer.
///
/// It does nothing: its contract is the law.
///
/// Rule: docs/PROTOCOL.md, "Covers of a node".
pub fn bookkeeping_law()
    ensures handed_on { HandingOnTurns }
    ensures opened { OpeningTurns }
    ensures seated { RootTurns }
    ensures closed { ClosingTurns }
    ensures last { LastAnswerTurns }
    ensures places { PlacesKeptByTurn }
    ensures depths { DepthsKeptByTurn }
    ensures await_handed_on { AwaitKeptByHandingOn }
    ensures await_opened { AwaitKeptByOpening }
    ensures await_seated { AwaitKeptByRoot }
    ensures await_closed { AwaitKeptByClosing }
    ensures await_last { AwaitKeptByLastAnswer }
    ensures await_others { AwaitKeptByOthers }
{}

/// Whatever the kind of step: nodes have names of the settings, there are no more of them, or by a join one more; frames have spellings,
/// if those that are sent have; their ends are known, and apart; some node is core; a node that has ended has no link;
/// and words are stamped.
///
/// It does nothing: its contract is the law.
///
/// Rule: docs/PROTOCOL.md, "Steps of a node".
pub fn known_law()
    ensures names { NamesKept }
    ensures few { FewKept }
    ensures one_more { FewKeptByJoin }
    ensures spelled_frame { SpelledKeptByFrame }
    ensures spelled_start { SpelledKeptByStart }
    ensures ends_frame { EndsKeptByFrame }
    ensures ends_start { EndsKeptByStart }
    ensures core { CoreKept }
    ensures ended { EndedKept }
    ensures stamps_frame { StampsKeptByFrame }
    ensures stamps_start { StampsKeptByStart }
    ensures stamps_join { StampsKeptByJoin }
{}

/// While nobody departs: a frame that is delivered leaves it so; a step that sends no notice keeps what is said of notices, and of
/// departures, if it marks no link. Whoever departs does so until no frame is under way, and what is said of notices is kept meanwhile
/// by a frame that is none, whose taker keeps its links, sends no notice, and says of no new link.
///
/// It does nothing: its contract is the law.
///
/// Rule: docs/PROTOCOL.md, "The start of a departure".
pub fn peace_law()
    ensures delivery { PeaceIsKept }
    ensures notices { NoticesKeptAtPeace }
    ensures frame { FrameIsAtPeace }
    ensures until_rest { DepartsUntilRest }
    ensures steps { NoticesKeptBySteps }
    ensures other_frame { FrameLeavesNotices }
{}

/// A Link that is taken, and a step that says of each link that it changes: the last word of each node to each other one still stands if
/// the links ask for it, and no word is above it; and what is said to nodes that join or have ceased is.
///
/// It does nothing: its contract is the law.
///
/// Rule: docs/PROTOCOL.md, "Link".
pub fn ties_law()
    ensures ties { TiesKeptByLink }
    ensures versions { VersionsKeptByLink }
    ensures said { WordsSaidByFrame }
    ensures words { TiesKeptByWords }
    ensures words_versions { VersionsKeptByWords }
    ensures words_ceased { CeasedKeptByWords }
{}

/// A step that starts nobody and makes known only nodes that are started: joining nodes that aren't started stay unknown but for their one
/// Seek; and Tells stay such, if it leaves covers, joiners and core nodes. Both are kept by a Tell at a core node, a Seek at the
/// surrogate, and a Done, if what is sent is so.
///
/// It does nothing: its contract is the law.
///
/// Rule: docs/PROTOCOL.md, "Seek".
pub fn seeking_law()
    ensures seeking { SeekingKept }
    ensures tells { TellsKept }
    ensures frame { SeekingKeptByFrame }
    ensures goes_on { SeekingKeptBySeek }
    ensures tells_frame { TellsKeptByFrame }
    ensures joiners { JoinersStayByFrame }
    ensures tell { SeekingKeptByTell }
    ensures known { SeekingKeptByKnownTell }
    ensures seat { SeekingKeptBySeat }
    ensures done { SeekingKeptByDone }
{}
