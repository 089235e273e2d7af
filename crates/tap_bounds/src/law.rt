ghost use Rattle.tap_bounds.specs.Acks.{AcksAtRest, MoveKeepsAcks, RunAcksFew};
ghost use Rattle.tap_bounds.specs.Depths.{RunIsNotDeep, SoundIsNotDeep};
ghost use Rattle.tap_bounds.specs.Dones.{DonesAtRest, MoveKeepsDones, RunDonesFew};
ghost use Rattle.tap_bounds.specs.Hellos.{FewAreOnce, HellosAtRest, MoveKeepsHellos, RunHellosFew};
ghost use Rattle.tap_bounds.specs.FewLookups.{LookupSendsFew};
ghost use Rattle.tap_bounds.specs.FewSent.{FewAtRest, MoveKeepsFew, RunSendsFew};
ghost use Rattle.tap_bounds.specs.Openings.{FewAreOpened, MoveKeepsOpened, OpenedAtRest, RunOpensFew};
ghost use Rattle.tap_bounds.specs.Publications.{PublicationSendsFew};
ghost use Rattle.tap_bounds.specs.Taken.{HeardsByHellos, KnownAtRest, MoveKeepsKnown, RunKnowsAll};
ghost use Rattle.tap_bounds.specs.Tells.{MoveKeepsTells, RunTellsFew, TellsAtRest};
ghost use Rattle.tap_bounds.specs.LinkBounds.{RunLinksFew};
ghost use Rattle.tap_bounds.specs.OfJoins.{RunSentAreOfJoins};

/// The members with which an overlay begins have sent nothing: what is said of the frames of joins holds of them.
///
/// It does nothing: its contract is the law.
///
/// Rule: docs/PROTOCOL.md, "Steps of a node".
pub fn few_at_rest_law()
    ensures { FewAtRest }
{}

/// If the whole invariant of joins holds, and what is said of the frames of joins, then each possible move keeps the latter, whatever a
/// node starts, and whatever frame is delivered to whom. It says that of each joiner at most as many Seeks were sent as names have digits,
/// and, while one is on its way, at most one more than its receiver shares digits with the joiner; and that a node has sent at most as many
/// Heards as it has taken Hellos.
///
/// It does nothing: its contract is the law.
///
/// Rule: docs/PROTOCOL.md, "Seek" and "Hello".
pub fn few_moves_law()
    ensures { MoveKeepsFew }
{}

/// What is said of the frames of joins holds at each moment of each run from members at rest, however many its moves are and in whichever
/// order frames are delivered.
///
/// It does nothing: its contract is the law.
///
/// Rule: docs/PROTOCOL.md, "Seek" and "Hello".
pub fn few_runs_law()
    ensures { RunSendsFew }
{}

/// If the whole invariant of joins holds and no frame is under way, a lookup that starts sends at most one frame more than names have
/// digits, however many frames are delivered after it, if nothing else starts.
///
/// It does nothing: its contract is the law.
///
/// Rule: docs/PROTOCOL.md, "Find" and "Answer".
pub fn lookup_frames_law()
    ensures { LookupSendsFew }
{}

/// If the whole invariant of joins holds, pointers stand, and no frame is under way, a publication that starts sends at most as many frames
/// as names have digits, however many frames are delivered after it, if nothing else starts.
///
/// It does nothing: its contract is the law.
///
/// Rule: docs/PROTOCOL.md, "Publication and withdrawal" and "Lay".
pub fn publication_frames_law()
    ensures { PublicationSendsFew }
{}

/// If the whole invariant of joins holds, each possible move keeps how few Tells a node sends another of one joiner: a running node none
/// without a cover of the joiner, two at most if its level is at most the digits that the two names share, and else one; and each name two
/// at most, be its node running or not. So it is for the members with which an overlay begins, and at each moment of each run from them.
///
/// It does nothing: its contract is the law.
///
/// Rule: docs/PROTOCOL.md, "Seek" and "Tell" and "Covers of a node".
pub fn tells_law()
    ensures members { TellsAtRest }
    ensures moves { MoveKeepsTells }
    ensures runs { RunTellsFew }
{}

/// If the whole invariant of joins holds, each possible move keeps how few Hellos a node sends a joiner: as a core node none while it runs
/// without a cover of the joiner, and else one at most; as a joining node none before it has greeted the joiner, and else one at most. So
/// it is for the members with which an overlay begins, and at each moment of each run from them.
///
/// It does nothing: its contract is the law.
///
/// Rule: docs/PROTOCOL.md, "Tell" and "Covers of a node".
pub fn hellos_law()
    ensures members { HellosAtRest }
    ensures moves { MoveKeepsHellos }
    ensures runs { RunHellosFew }
    ensures once { FewAreOnce }
{}

/// Of whichever frames one counts, as many were sent as were taken and are under way: each possible move keeps it, so it holds at each
/// moment of each run from the members with which an overlay begins. So a name has sent at most as many Heards as Hellos were sent to it.
///
/// It does nothing: its contract is the law.
///
/// Rule: docs/PROTOCOL.md, "Steps of a node".
pub fn taken_law()
    ensures members { KnownAtRest }
    ensures moves { MoveKeepsKnown }
    ensures runs { RunKnowsAll }
    ensures heards { HeardsByHellos }
{}

/// If the whole invariant of joins holds, each possible move keeps that a node has sent at most as many Acks as it has taken Tells, its open
/// sessions whose parent is another node's counted as Acks. So it is for the members with which an overlay begins, and at each moment of
/// each run from them.
///
/// It does nothing: its contract is the law.
///
/// Rule: docs/PROTOCOL.md, "Tell" and "Heard and Ack".
pub fn acks_law()
    ensures members { AcksAtRest }
    ensures moves { MoveKeepsAcks }
    ensures runs { RunAcksFew }
{}

/// If the whole invariant of joins holds, and each frame that was sent was taken or is under way, each possible move keeps how few Dones
/// each name was sent: one at most; and it took one at most, and none while it joins. So it is for the members with which an overlay
/// begins, and at each moment of each run from them.
///
/// It does nothing: its contract is the law.
///
/// Rule: docs/PROTOCOL.md, "Heard and Ack" and "Done".
pub fn dones_law()
    ensures members { DonesAtRest }
    ensures moves { MoveKeepsDones }
    ensures runs { RunDonesFew }
{}

/// If the whole invariant of joins holds, each open session of a join is less deep than 10,752, and no Tell under way is deeper than that.
/// So it is at each moment of each run from the members with which an overlay begins.
///
/// It does nothing: its contract is the law.
///
/// Rule: docs/PROTOCOL.md, "Tell" and "Strange frames".
pub fn depths_law()
    ensures sound { SoundIsNotDeep }
    ensures runs { RunIsNotDeep }
{}

/// If the whole invariant of joins holds, each possible move keeps how few sessions of one joiner a node opens: while it joins one if it
/// has greeted the joiner, and else none; as a core node one without a cover of the joiner, and with one another for each level from that
/// of the cover to the number of digits. So it is for the members with which an overlay begins, and at each moment of each run from them;
/// and so a name opens at most two more of one joiner than names have digits.
///
/// It does nothing: its contract is the law.
///
/// Rule: docs/PROTOCOL.md, "Seek" and "Tell" and "Covers of a node".
pub fn openings_law()
    ensures members { OpenedAtRest }
    ensures moves { MoveKeepsOpened }
    ensures runs { RunOpensFew }
    ensures most { FewAreOpened }
{}

/// In a run from members at rest in which nothing but joins is started, each frame that was sent is a Seek, a Tell, a Hello, a Heard, an
/// Ack, a Done, a Release or a Link; whose join it is of, if it says so, is no member; and its sender and its receiver are nodes.
///
/// It does nothing: its contract is the law.
///
/// Rule: docs/PROTOCOL.md, "Steps of a node".
pub fn of_joins_law()
    ensures { RunSentAreOfJoins }
{}

/// In a run from members at rest in which nothing but joins is started, a name sends another at most one Link with on 1 for the join of the
/// other, none if that is a member, and at most two more than there are names for the Hellos of its own join, none if it is a member. It
/// sends it at most as many Links with on 0, and the other sends it at most as many Releases.
///
/// It does nothing: its contract is the law.
///
/// Rule: docs/PROTOCOL.md, "Release" and "Link".
pub fn links_law()
    ensures { RunLinksFew }
{}
