ghost use Rattle.tap_pointer_moves.specs.PointersKept.{PointersAtRest, PointersKept, PointersStandInRuns};
ghost use Rattle.tap_pointer_moves.specs.Ever.{EverAtRest, EverKept, HeldWasPublished, LaidWasPublished};
ghost use Rattle.tap_pointer_moves.specs.Paths.{PointersOnPaths};
ghost use Rattle.tap_pointer_moves.specs.Publications.{FrameServes, LeavesOnce, LeaversStay, StartServes};
ghost use Rattle.tap_pointer_moves.specs.Wanted.{LaidAtCore, WantedHolds};
ghost use Rattle.tap_pointer_moves.specs.Alone.{LookupBeginsAlone, LookupGoesOnAlone};
ghost use Rattle.tap_pointer_moves.specs.LookupAnswers.{LookupsStayOf, NoLookupsAtRest, NotedAnswersAreOf};
ghost use Rattle.tap_pointer_moves.specs.LookupFrames.{LookupsGoOn, NoLookupFramesAtRest};
ghost use Rattle.tap_pointer_moves.specs.Lookups.{LookupsAtRest, LookupsKept, NeverComesBack};
ghost use Rattle.tap_pointer_moves.specs.NoServer.{EndsOfWalksAreExact, FindsStayOnWalks, NoneComesFromEnds, NoneIsNotedAtEnds, PointersOnPathsBeside};

/// If the whole invariant of joins holds, each node that joins, is core or leaves has each pair that it holds laid at its next hop from the
/// level at which it holds it, and no other pair laid anywhere. If also no node that joins or has ended knows of a pair, each pair is laid at
/// a core node, with which the node that has laid it shares one digit less than the level of the hop.
///
/// It does nothing: its contract is the law.
///
/// Rule: docs/PROTOCOL.md, "Pointers".
pub fn wanted_law()
    ensures wanted { WantedHolds }
    ensures core { LaidAtCore }
{}

/// The members with which an overlay begins know of no pair, and have sent no Lay.
///
/// It does nothing: its contract is the law.
///
/// Rule: docs/PROTOCOL.md, "Nodes".
pub fn members_have_no_pointers()
    ensures { PointersAtRest }
{}

/// Pointers stand after each possible move, whatever it is, if they stood before and the whole invariant of joins held: a node that joins or
/// has ended knows of no pair; if a node has laid a pair at one that hears words, the last word that it has sent there of the pair is on its
/// way or in that node's register, is on, and has the level of the hop; if it hasn't, or is gone, the last such word is off, or there is
/// none; no two words to one node of one pair have one version, and none is above its sender's stamp; a Lay goes to a node that is core, or
/// was; each sender has one register of a pair; and a node that leaves publishes nothing.
///
/// It does nothing: its contract is the law.
///
/// Rule: docs/PROTOCOL.md, "Pointers", "Publication and withdrawal" and "Lay".
pub fn pointers_law()
    ensures { PointersKept }
{}

/// So pointers stand at each moment of each run from members at rest, however many its moves are and in whichever order frames are delivered.
///
/// It does nothing: its contract is the law.
///
/// Rule: docs/PROTOCOL.md, "Pointers" and "Lay".
pub fn runs_law()
    ensures { PointersStandInRuns }
{}

/// While no frame is under way, if the whole invariant of joins holds and pointers stand, they stand exactly on their paths: a node holds a
/// pair exactly if the pair is published and the node is one of those of the walk of its object from its server.
///
/// It does nothing: its contract is the law.
///
/// Rule: docs/PROTOCOL.md, "Pointers" and "Walks".
pub fn paths_law()
    ensures { PointersOnPaths }
{}

/// If pointers stand and the whole invariant of joins holds, a pair is served after a start exactly if it was so before, but that a core node
/// then serves the object that it publishes, no longer the one that it withdraws, and nothing once it leaves. A frame that is taken changes
/// nothing of that. Who leaves, leaves or has left from then on.
///
/// It does nothing: its contract is the law.
///
/// Rule: docs/PROTOCOL.md, "Publication and withdrawal" and "The start of a departure".
pub fn publications_law()
    ensures starts { StartServes }
    ensures frames { FrameServes }
    ensures leaves { LeavesOnce }
    ensures stay { LeaversStay }
{}

/// If pointers stand and the whole invariant of joins holds, and this was so of each pair that a node publishes, of which a register has a word,
/// or of which a Lay is on its way, then it was so of each such pair after each possible move, if it was so of a pair that is published with it.
/// It was so of each pair that is held or laid. The members at rest know of no pair.
///
/// It does nothing: its contract is the law.
///
/// Rule: docs/PROTOCOL.md, "Pointers".
pub fn ever_published_law()
    ensures members { EverAtRest }
    ensures moves { EverKept }
    ensures held { HeldWasPublished }
    ensures laid { LaidWasPublished }
{}

/// A lookup that is under way goes to a core node, whatever happens, if the whole invariant of joins holds: each Find goes to a core node that
/// shares fewer digits with its asker than the level to which it has come, its asker is core, and each Answer goes to a core node. So it is
/// with the members at rest, and after each possible move, if it was so before. No Find then comes back to its asker.
///
/// It does nothing: its contract is the law.
///
/// Rule: docs/PROTOCOL.md, "Find" and "Answer".
pub fn lookups_law()
    ensures members { LookupsAtRest }
    ensures moves { LookupsKept }
    ensures back { NeverComesBack }
{}

/// If this was so of each pair of which anything is known, as `ever_published_law` of `tap_pointer_moves` has it, then each Find under way is
/// for the object that its lookup asked for, and of the server that an Answer under way names, or an answer that a move notes, it was so of
/// the pair with the object that its lookup asked for. With the members at rest no lookup is under way.
///
/// It does nothing: its contract is the law.
///
/// Rule: docs/PROTOCOL.md, "Find" and "Answer".
pub fn answers_law()
    ensures members { NoLookupsAtRest }
    ensures moves { LookupsStayOf }
    ensures noted { NotedAnswersAreOf }
{}

/// A lookup that is started at rest, where pointers stand exactly on their paths, goes along the walk of its object as long as nothing else is
/// started: no node changes, each frame under way is a Find of it on that walk or an Answer, and each answer is exact. It names a server that
/// publishes the object, and none only if no server does.
///
/// It does nothing: its contract is the law.
///
/// Rule: docs/PROTOCOL.md, "Find", "Answer" and "Walks".
pub fn alone_law()
    ensures starts { LookupBeginsAlone }
    ensures frames { LookupGoesOnAlone }
{}

/// While lookups alone are under way, pointers stand exactly on their paths, as at rest. So where a lookup ends that has gone along the walk of
/// its object, nobody publishes the object; and Finds stay on their walks after each possible move, as long as nothing else is under way before
/// or after it.
///
/// It does nothing: its contract is the law.
///
/// Rule: docs/PROTOCOL.md, "Find", "Answer" and "Walks".
pub fn beside_law()
    ensures paths { PointersOnPathsBeside }
    ensures ends { EndsOfWalksAreExact }
    ensures walks { FindsStayOnWalks }
{}

/// A lookup is answered without a server only by a node that holds no pair of the object, and has no next hop for it: by one that takes the
/// lookup's Find, or by the asker as the lookup starts.
///
/// It does nothing: its contract is the law.
///
/// Rule: docs/PROTOCOL.md, "Find" and "Answer".
pub fn no_server_law()
    ensures frames { NoneComesFromEnds }
    ensures starts { NoneIsNotedAtEnds }
{}

/// No possible move loses a lookup or doubles it, if the whole invariant of joins holds and lookups go to core nodes: as many frames of a lookup
/// are under way before the move, with one for its start if it starts with the move, as after it, with one for its answer if the move notes it.
/// With the members at rest none is.
///
/// It does nothing: its contract is the law.
///
/// Rule: docs/PROTOCOL.md, "Find" and "Answer".
pub fn going_on_law()
    ensures members { NoLookupFramesAtRest }
    ensures moves { LookupsGoOn }
{}
