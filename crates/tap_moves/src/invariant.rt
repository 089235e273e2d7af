ghost use Rattle.tap_moves.specs.CoverMoves.{TakenPeaceful, TakenSeeks, TakenSoft};
ghost use Rattle.tap_moves.specs.GivenUp.{GivenUpEnded, GivenUpFills, GivenUpPeaceful, GivenUpSeeks, GivenUpSoft, GivenUpStamped, GivenUpWords};
ghost use Rattle.tap_moves.specs.StartedNodes.{StartEnded, StartStamped};
ghost use Rattle.tap_moves.specs.WordMoves.{TakenStamped, TakenWords};
ghost use Rattle.tap_moves.specs.JoinMoves.{FrameJoins, JoinsKeptByDone, JoinsKeptByOthers, NoticeJoins, StartJoins};
ghost use Rattle.tap_moves.specs.EndMoves.{AskersAtRest, FrameEnds, StartEnds};
ghost use Rattle.tap_moves.specs.FewMoves.{FrameFew, NoticeFew, SessionsAreShallow, StartFew, TellsAreShallow};
ghost use Rattle.tap_moves.specs.PinsRule.{PinsStay};
ghost use Rattle.tap_moves.specs.Starts.{StartAwaits, StartBooks, StartCore, StartIsNamed, StartKeeps, StartKeepsFilled, StartPeaceful, StartPlaces, StartSeeks, StartSoft, StartWords};
ghost use Rattle.tap_moves.specs.DepartingMoves.{FrameDeparting, FrameInOrder};
ghost use Rattle.tap_moves.specs.NoticeMoves.{LeavingInOrder, NoticeInOrder};
ghost use Rattle.tap_moves.specs.PartMoves.{LeavingKeeps, LeavingSeeks, LeavingSessions, LeavingStamped, LeavingTables, LeavingWords, NoticeKeeps, NoticeSeeks, NoticeSessions, NoticeStamped, NoticeTables, NoticeWords};

/// If the invariant holds, and each node is one that steps keep valid, then after each frame of a join if a rule takes it, but the Done
/// of a join that was given up, and after each frame of pointers and casts that isn't strange: settled links are to core nodes and pins
/// to soft ones; who isn't started is known to nobody but its one Seek, and Tells are sound; and if nobody departs, nobody does
/// afterwards, and no notice is under way.
///
/// It does nothing: its contract is the law.
///
/// Rule: docs/PROTOCOL.md, "Covers of a node" and "Steps of a node".
pub fn covers_from_invariant()
    ensures soft { TakenSoft }
    ensures seeks { TakenSeeks }
    ensures peace { TakenPeaceful }
{}

/// If the invariant holds, and each node is one that steps keep valid, then after each such frame the last word of each node to another
/// says whether it has a link, and stands; no word is above it; and a pin on a node that joins or has ceased is known to it, or about
/// to be, or a Forget is to come. A word is under way once, and the stamp of a node that has a table is no less than its words' versions.
///
/// It does nothing: its contract is the law.
///
/// Rule: docs/PROTOCOL.md, "Link" and "Release" and "Forget" and "Steps of a node".
pub fn words_from_invariant()
    ensures stand { TakenWords }
    ensures stamped { TakenStamped }
{}

/// If the invariant holds, and each node is one that steps keep valid, then after the Done of a join that was given up, at which its node
/// has ceased: what leads to tables without holes holds; a node that has ended has no link; settled links are to core nodes and pins to
/// soft ones; who isn't started is known to nobody but its one Seek, and Tells are sound; nobody departs, and no notice is under way;
/// a word is under way once, with a version that the stamp of a node with a table has given; and the last words of links stand, and who
/// pins the node that has ceased is told to forget it, or will be.
///
/// It does nothing: its contract is the law.
///
/// Rule: docs/PROTOCOL.md, "Giving a join up" and "Done".
pub fn given_up_from_invariant()
    ensures fills { GivenUpFills }
    ensures ended { GivenUpEnded }
    ensures soft { GivenUpSoft }
    ensures seeks { GivenUpSeeks }
    ensures peace { GivenUpPeaceful }
    ensures stamped { GivenUpStamped }
    ensures words { GivenUpWords }
{}

/// If the invariant holds, and each node is one that steps keep valid, then once a node has started what it may start, but a departure: a
/// node that has ended has no link, and a word is under way once, with a version that the stamp of a node with a table has given.
///
/// It does nothing: its contract is the law.
///
/// Rule: docs/PROTOCOL.md, "Steps of a node".
pub fn starts_from_invariant()
    ensures ended { StartEnded }
    ensures stamped { StartStamped }
{}

/// A step that leaves the sessions of joins alone: whose they are, and that each join has one end, is kept if the joiners and the Dones
/// stay; and if it takes a Done, by which its joiner ends as one.
///
/// It does nothing: its contract is the law.
///
/// Rule: docs/PROTOCOL.md, "Covers of a node" and "Done".
pub fn joins_law()
    ensures others { JoinsKeptByOthers }
    ensures done { JoinsKeptByDone }
{}

/// If the invariant holds, and each node is one that steps keep valid, then after each frame that a rule takes, each notice of a
/// departure, and once a node has started what it may start, each open session is of a joiner, what a frame of a session says is about
/// that joiner, and each joiner has its root session open, or one Done on its way, and never both.
///
/// It does nothing: its contract is the law.
///
/// Rule: docs/PROTOCOL.md, "Covers of a node", "Heard and Ack" and "Done".
pub fn joins_from_invariant()
    ensures frames { FrameJoins }
    ensures notices { NoticeJoins }
    ensures starts { StartJoins }
{}

/// If the invariant holds, each node is one that steps keep valid, and each node has few sessions of one joiner open, then it is so after
/// each frame that a rule takes, each notice of a departure, and once a node has started what it may start. So each open session is less
/// deep than sessions of its joiner can be open, and no Tell is on its way at the depth that no frame goes beyond.
///
/// It does nothing: its contract is the law.
///
/// Rule: docs/PROTOCOL.md, "Tell" and "Strange frames".
pub fn few_sessions_from_invariant()
    ensures frames { FrameFew }
    ensures notices { NoticeFew }
    ensures starts { StartFew }
    ensures sessions { SessionsAreShallow }
    ensures tells { TellsAreShallow }
{}

/// If the invariant holds, each node is one that steps keep valid, and who asks for a lookup or a copy of a cast can be answered, then so
/// it is after a frame of whatever kind, whatever the status of its receiver, and once a node has started what it may start; and each
/// frame goes between two nodes, who has sent a word and to whom are nodes, and so is who has a surrogate. The members at rest have such
/// askers.
///
/// It does nothing: its contract is the law.
///
/// Rule: docs/PROTOCOL.md, "Steps of a node".
pub fn ends_from_invariant()
    ensures frames { FrameEnds }
    ensures starts { StartEnds }
    ensures members { AskersAtRest }
{}

/// The pins rule: whatever frame a node takes, be it strange or not, and whatever it starts, whatever its status, a pin of its table stays
/// but at a Release or a Forget of its own target, and if the node ends: if it is gone, or has ceased.
///
/// It does nothing: its contract is the law.
///
/// Rule: docs/PROTOCOL.md, "Links".
pub fn pins_law()
    ensures { PinsStay }
{}

/// If the basis of the invariant holds, then once a node has started what it may start, but a departure: settled links are to core nodes and pins to
/// soft ones; who isn't started is known to nobody but its one Seek, and Tells are sound; the last word of each node to another says
/// whether it has a link, and stands, and a pin on a node that joins or has ceased is known to it, or about to be, or a Forget is to come.
/// Each session awaits an answer, each once and as many as its node waits for, of sessions that are open; each Tell is one deeper than its
/// session; and each session has its place. Some node is core, nobody departs, and no notice is under way.
///
/// It does nothing: its contract is the law.
///
/// Rule: docs/PROTOCOL.md, "Steps of a node".
pub fn parts_after_starts()
    ensures soft { StartSoft }
    ensures seeks { StartSeeks }
    ensures words { StartWords }
    ensures books { StartBooks }
    ensures awaits { StartAwaits }
    ensures places { StartPlaces }
    ensures core { StartCore }
    ensures peace { StartPeaceful }
{}

/// What may be started brings names and words alone. If the basis of the invariant holds, each node is one that steps keep valid, who asks
/// for a lookup or a copy of a cast can be answered, and each node has few sessions of one joiner open, then all of this holds once a node
/// has started what it may start, but a departure; and tables without holes stay so, with what leads to them.
///
/// It does nothing: its contract is the law.
///
/// Rule: docs/PROTOCOL.md, "Nodes" and "Steps of a node".
pub fn invariant_after_starts()
    ensures named { StartIsNamed }
    ensures all { StartKeeps }
    ensures filled { StartKeepsFilled }
{}

/// If the invariant holds, and each node is one that steps keep valid, then after each frame that isn't strange to its receiver, a notice or
/// another, whatever the status of the receiver, and once a node has started to leave, whoever departs does so in order: each holder is told
/// once, and its slot is filled by another before the leaver is gone. Once no frame is under way nobody departs, no node leaves, no link is
/// marked, and no notice is under way.
///
/// It does nothing: its contract is the law.
///
/// Rule: docs/PROTOCOL.md, "Departure" and "Steps of a node".
pub fn departures_from_invariant()
    ensures departing { FrameDeparting }
    ensures frames { FrameInOrder }
    ensures notices { NoticeInOrder }
    ensures starts { LeavingInOrder }
{}

/// If the invariant holds, and each node is one that steps keep valid, then after a Leave, a Left or a Gone, whatever the status of its
/// receiver: tables have no holes, settled links are to core nodes, some node is core, and a node that has ended has no link; sessions are
/// exact; who isn't started is known to nobody but its one Seek, and Tells are sound; a word is under way once, with a version that the
/// stamp of a node with a table has given; and the last word of each node to another says whether it has a link, and stands. So the
/// invariant holds, if who asks can be answered.
///
/// It does nothing: its contract is the law.
///
/// Rule: docs/PROTOCOL.md, "Leave", "Left" and "Gone".
pub fn notices_from_invariant()
    ensures tables { NoticeTables }
    ensures sessions { NoticeSessions }
    ensures seeks { NoticeSeeks }
    ensures stamped { NoticeStamped }
    ensures words { NoticeWords }
    ensures invariant { NoticeKeeps }
{}

/// If the invariant holds, and each node is one that steps keep valid, then all of that holds once a node has started to leave, whether it
/// has holders or ends at once. So the invariant holds, if who asks can be answered.
///
/// It does nothing: its contract is the law.
///
/// Rule: docs/PROTOCOL.md, "The start of a departure".
pub fn leaving_from_invariant()
    ensures tables { LeavingTables }
    ensures sessions { LeavingSessions }
    ensures seeks { LeavingSeeks }
    ensures stamped { LeavingStamped }
    ensures words { LeavingWords }
    ensures invariant { LeavingKeeps }
{}
