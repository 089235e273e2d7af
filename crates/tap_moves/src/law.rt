ghost use Rattle.tap_wire.specs.declared.frame.Body.TheVariants.{Ack, Heard};
ghost use Rattle.tap_moves.specs.FrameLaws.{CeasedTellIsMade, ForgetIsMade, GivingUpIsMade, HelloIsMade, JoinIsMade, JoiningTellIsMade, PlainIsMade, QuietStartIsMade, ReleaseIsMade};
ghost use Rattle.tap_moves.specs.StepsMade.{CeasedAnswers, DoneIsMade, KnownTellIsMade, NewTellIsMade, SeekCovers, SeekGreets, SeekOpens, TellInSession};
ghost use Rattle.tap_moves.specs.MovesLaws.{AnswerKeepsSessions, CeasedTellKeeps, DeliveryIsByRule, DoneKeeps, ForgetKeeps, GivingUpKeeps, HelloKeeps, HelloKeepsSessions, JoinKeeps, JoiningTellKeeps, KnownTellKeeps, LinkKeeps, OutsideKeepsSessions, PlainKeeps, QuietStartKeeps, ReleaseKeeps, SeekKeeps, SeekKeepsSessions, TellKeeps, TellKeepsSessions};
ghost use Rattle.tap_moves.specs.InvariantLaws.{FrameEnded, FrameExact, FrameFills, FrameSays, FrameSoft, LinkTies, MoveKeepsParts, PartsKept, SeekGives, StartFills, StartKeepsParts};
ghost use Rattle.tap_moves.specs.CalmMoves.{FrameDeeper, FramePeaceful, FrameSeeks};
ghost use Rattle.tap_moves.specs.SessionMoves.{FrameAwaits, FrameCore, FrameCounts, FrameNames, FramePlaces, FrameSteps, OutsideBooks, StartNames};
ghost use Rattle.tap_moves.specs.SessionsLaws.{AnswerClosesChild, AnswerClosesRoot, AnswerHandsOn, AnswerKeepsExact, HandsOnByHello, HandsOnByTell, OpensChildByTell, OpensRootBySeek, OutsideLeavesSessions};
ghost use Rattle.tap_moves.specs.TiesLaws.{LinkIsMade};

/// A Done that a joining node takes by its rule, if its join wasn't given up, is one of which the laws of Dones speak: the node is core,
/// and keeps its links and its covers.
///
/// It does nothing: its contract is the law.
///
/// Rule: docs/PROTOCOL.md, "Done".
pub fn done_moves()
    ensures { DoneIsMade }
{}

/// A Tell that a core node takes by its rule is one of which the laws of Tells speak. If it covers the joiner at most at that level
/// already, no link and no cover changes. Else the joiner is pinned and covered at that level, each pin and each slot's primary of the
/// levels that are newly reached is told, and at a first cover each pin from the prefix on, and the joiner is greeted with all pins.
///
/// It does nothing: its contract is the law.
///
/// Rule: docs/PROTOCOL.md, "Tell" and "Covers of a node".
pub fn tell_moves()
    ensures known { KnownTellIsMade }
    ensures anew { NewTellIsMade }
{}

/// A Seek that the joiner's surrogate takes by its rule: it covers the joiner at the digits that the two share, and greets it with all its
/// pins and the primary of each slot of the levels up to those.
///
/// It does nothing: its contract is the law.
///
/// Rule: docs/PROTOCOL.md, "Seek" and "Covers of a node".
pub fn seek_moves()
    ensures covers { SeekCovers }
    ensures greets { SeekGreets }
{}

/// The other frames that a node takes by its rule, and what it starts: answers, Links, Seeks that go on, and what is about pointers and
/// casts, leave its status, its links and its covers; a Tell at a joining node pins its joiner, and at one that has ceased changes nothing;
/// a Hello links its names, a Release settles or drops a pin, and a Forget drops one; and who starts to join has no link.
///
/// It does nothing: its contract is the law.
///
/// Rule: docs/PROTOCOL.md, "Steps of a node".
pub fn frames_move()
    ensures plain { PlainIsMade }
    ensures ceased { CeasedTellIsMade }
    ensures joining { JoiningTellIsMade }
    ensures hello { HelloIsMade }
    ensures release { ReleaseIsMade }
    ensures forget { ForgetIsMade }
    ensures starts { QuietStartIsMade }
    ensures gives_up { GivingUpIsMade }
    ensures joins { JoinIsMade }
{}

/// A Link that a node takes by its rule, if its pairs are laid as wanted, is one of which the laws of ties speak: of what is known only
/// its register of the sender changes, and nothing is sent but a Release.
///
/// It does nothing: its contract is the law.
///
/// Rule: docs/PROTOCOL.md, "Link".
pub fn link_moves()
    ensures { LinkIsMade }
{}

/// What a frame makes a node send in sessions. A Tell or a Seek opens its next session, and what is sent in one is sent in that, as many as
/// the node waits for; or it opens none, and the one answer goes to the session of the Tell. The surrogate always opens the joiner's root
/// session. What is remembered of sessions then is as the laws of sessions ask: one that is opened for a Tell, or for a Seek; a Tell or a
/// Hello that is answered at once; an answer that isn't the last one of its session, or that closes it; and a frame of no session.
///
/// It does nothing: its contract is the law.
///
/// Rule: docs/PROTOCOL.md, "Covers of a node" and "Tell" and "Seek" and "Heard and Ack".
pub fn sessions_move()
    ensures tell { TellInSession }
    ensures ceased { CeasedAnswers }
    ensures seek { SeekOpens }
    ensures child { OpensChildByTell }
    ensures at_once { HandsOnByTell }
    ensures root { OpensRootBySeek }
    ensures heard { AnswerHandsOn Heard }
    ensures ack { AnswerHandsOn Ack }
    ensures heard_root { AnswerClosesRoot Heard }
    ensures ack_root { AnswerClosesRoot Ack }
    ensures heard_child { AnswerClosesChild Heard }
    ensures ack_child { AnswerClosesChild Ack }
    ensures heard_exact { AnswerKeepsExact Heard }
    ensures ack_exact { AnswerKeepsExact Ack }
    ensures hello { HandsOnByHello }
    ensures outside { OutsideLeavesSessions }
{}

/// Of each kind of frame: what leads to tables without holes, and words that stand, are kept when it is delivered.
///
/// It does nothing: its contract is the law.
///
/// Rule: docs/PROTOCOL.md, "Steps of a node".
pub fn deliveries_keep()
    ensures by_rule { DeliveryIsByRule }
    ensures done { DoneKeeps }
    ensures tell { TellKeeps }
    ensures known_tell { KnownTellKeeps }
    ensures seek { SeekKeeps }
    ensures plain { PlainKeeps }
    ensures joining { JoiningTellKeeps }
    ensures ceased { CeasedTellKeeps }
    ensures hello { HelloKeeps }
    ensures release { ReleaseKeeps }
    ensures forget { ForgetKeeps }
    ensures link { LinkKeeps }
{}

/// Of each kind of frame of a join, and of those of pointers and casts: the sessions are exact after it is delivered, if they were.
///
/// It does nothing: its contract is the law.
///
/// Rule: docs/PROTOCOL.md, "Covers of a node".
pub fn deliveries_keep_sessions()
    ensures tell { TellKeepsSessions }
    ensures heard { AnswerKeepsSessions Heard }
    ensures ack { AnswerKeepsSessions Ack }
    ensures hello { HelloKeepsSessions }
    ensures seek { SeekKeepsSessions }
    ensures outside { OutsideKeepsSessions }
{}

/// Of what a node starts, but a departure: what leads to tables without holes is kept, and so are sessions that are exact; so both hold
/// after it if the invariant holds before.
///
/// It does nothing: its contract is the law.
///
/// Rule: docs/PROTOCOL.md, "Steps of a node".
pub fn starts_keep()
    ensures quiet { QuietStartKeeps }
    ensures gives_up { GivingUpKeeps }
    ensures join { JoinKeeps }
    ensures from_invariant { StartFills }
{}

/// What moves keep of each node and of each frame, whatever its kind and whatever the status of its receiver: each node keeps what nodes
/// keep, stands under its own name, speaks of names alone, and has its pairs laid as wanted while it runs; and each frame under way has a
/// spelling. A frame that is delivered keeps this, be it strange or not, and so does whatever a node may start, if an object is a name and
/// what is cast is a word. So does every possible move, if frames are numbered.
///
/// It does nothing: its contract is the law.
///
/// Rule: docs/PROTOCOL.md, "Nodes" and "Steps of a node".
pub fn parts_kept()
    ensures frames { PartsKept }
    ensures starts { StartKeepsParts }
    ensures moves { MoveKeepsParts }
{}

/// If the invariant holds, and each node is one that steps keep valid, then once a frame under way is delivered that isn't strange to its
/// receiver: after each frame of a join, of pointers and of casts, but the Done of a join that was given up, what leads to tables without
/// holes holds, the sessions are exact, and a node that has ended has no link; the words of links stand after a Link, and after each
/// other frame whose taker says of each link that it changes; settled links are to core nodes and pins to soft ones, but after a Tell at
/// a core node, a Seek at the surrogate and a Done; and a new joiner is given each slot up to its prefix.
///
/// It does nothing: its contract is the law.
///
/// Rule: docs/PROTOCOL.md, "Steps of a node".
pub fn deliveries_from_invariant()
    ensures fills { FrameFills }
    ensures link { LinkTies }
    ensures words { FrameSays }
    ensures soft { FrameSoft }
    ensures seek { SeekGives }
    ensures exact { FrameExact }
    ensures ended { FrameEnded }
{}

/// If the invariant holds, and each node is one that steps keep valid, then a frame that is delivered, if a rule takes it, does one of
/// six things with the sessions of joins: one awaits what is sent in place of the frame, one is opened or closed, below another or as the
/// root of its joiner, or none changes. After it each session awaits each answer once, of sessions that are open, awaits at least one, as
/// many as its node waits for, and has its place: at a node that may have it open and has opened as many, below another node's; and some
/// node is core. After a frame of no session each Tell is one deeper than its session, too.
///
/// It does nothing: its contract is the law.
///
/// Rule: docs/PROTOCOL.md, "Covers of a node".
pub fn sessions_from_invariant()
    ensures steps { FrameSteps }
    ensures awaited { FrameAwaits }
    ensures places { FramePlaces }
    ensures core { FrameCore }
    ensures counts { FrameCounts }
    ensures outside { OutsideBooks }
{}

/// If the invariant holds, and each node is one that steps keep valid, then once a frame of whatever kind is delivered, whatever the status
/// of its receiver, and once a node has started what it may start, nodes have names of the settings, at most as many as there may be,
/// frames have spellings, and their numbers ascend.
///
/// It does nothing: its contract is the law.
///
/// Rule: docs/PROTOCOL.md, "Nodes" and "Steps of a node".
pub fn names_from_invariant()
    ensures frames { FrameNames }
    ensures starts { StartNames }
{}

/// If the invariant holds, and each node is one that steps keep valid, then after an answer, a Link, a Hello, a Seek that goes on, a
/// Release, a Forget, a Tell at a joining node or one that has ceased, and each frame of pointers and casts that isn't strange: who isn't
/// started is known to nobody but its one Seek, and Tells are sound. If nobody departs, nobody does afterwards, and no notice is under
/// way. After each frame that a rule takes each Tell is one deeper than its session, at a level above its prefix.
///
/// It does nothing: its contract is the law.
///
/// Rule: docs/PROTOCOL.md, "Steps of a node".
pub fn calm_from_invariant()
    ensures seeks { FrameSeeks }
    ensures peace { FramePeaceful }
    ensures deeper { FrameDeeper }
{}
