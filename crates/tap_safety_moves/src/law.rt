ghost use Rattle.tap_wire.specs.declared.frame.Body.TheVariants.{Ack, Heard};
ghost use Rattle.tap_safety_moves.specs.Consequences.{AnswersHaveSession, NoneIsStrange, NothingIsLeft};
ghost use Rattle.tap_safety_moves.specs.Ignored.{IgnoredIsLost, IgnoredKeeps};
ghost use Rattle.tap_safety_moves.specs.SoundMoves.{BasisKeeps, MoveKeeps, RunIsSound};
ghost use Rattle.tap_safety_moves.specs.Sound.{SoundAtRest};
ghost use Rattle.tap_safety_moves.specs.Walks.{CoreIsListed, TablesAreHoleFree, WalksLeadToRoots};
ghost use Rattle.tap_safety_moves.specs.Arrivals.{AnswersOpenSession, OthersAreDelivered, OthersHaveRules, StrangeExactly, TakenWhereDue};

/// The members with which an overlay begins, each core with its ties at rest, and nothing under way, have the whole invariant.
///
/// It does nothing: its contract is the law.
///
/// Rule: docs/PROTOCOL.md, "Nodes".
pub fn members_law()
    ensures { SoundAtRest }
{}

/// Once a Release or a Forget at a node that has ended, or a frame of pointers or casts, is delivered to a node that ignores it, it is gone,
/// and nothing else changes; so the whole invariant holds as before.
///
/// It does nothing: its contract is the law.
///
/// Rule: docs/PROTOCOL.md, "Steps of a node" and "Strange frames".
pub fn ignored_law()
    ensures lost { IgnoredIsLost }
    ensures keeps { IgnoredKeeps }
{}

/// If the whole invariant holds, it holds after each possible move: after whatever a node may start, a departure too, and after each frame
/// that is delivered, whatever its kind and whatever the status of its receiver.
///
/// It does nothing: its contract is the law.
///
/// Rule: docs/PROTOCOL.md, "Steps of a node".
pub fn moves_law()
    ensures { MoveKeeps }
{}

/// The basis of the invariant says all of it but that tables have no holes, and what leads to that. It is kept from itself alone outside
/// departures: if it holds, it holds after each possible move but the start of a departure and the delivery of a Leave, a Left or a Gone,
/// whether or not tables have holes.
///
/// It does nothing: its contract is the law.
///
/// Rule: docs/PROTOCOL.md, "Steps of a node".
pub fn basis_law()
    ensures { BasisKeeps }
{}

/// The whole invariant holds at each moment of each run from members at rest, however many its moves are and in whichever order frames are
/// delivered.
///
/// It does nothing: its contract is the law.
///
/// Rule: docs/PROTOCOL.md, "Steps of a node".
pub fn runs_law()
    ensures { RunIsSound }
{}

/// If the whole invariant holds, no frame under way is strange to its receiver; and each answer in a session of a join comes to a node that
/// has the session open.
///
/// It does nothing: its contract is the law.
///
/// Rule: docs/PROTOCOL.md, "Strange frames", "Sessions" and "Heard and Ack".
pub fn arrivals_law()
    ensures strange { NoneIsStrange }
    ensures heard { AnswersHaveSession Heard }
    ensures ack { AnswersHaveSession Ack }
{}

/// If the whole invariant holds and no frame is under way, then nothing of joins and departures is left: no session is open, nobody joins
/// or leaves, no link is a pin or marked, and a node has a link to a core node exactly if it is a holder there that is on.
///
/// It does nothing: its contract is the law.
///
/// Rule: docs/PROTOCOL.md, "Nodes".
pub fn rest_law()
    ensures { NothingIsLeft }
{}

/// If the whole invariant holds, the core nodes can be listed, a leaving node counting as core, and no table of one has a hole that another
/// could fill; so each walk leads from a core node to the one root of its object over them, passes core nodes alone, and takes as many hops
/// as a name has digits or fewer.
///
/// It does nothing: its contract is the law.
///
/// Rule: docs/PROTOCOL.md, "Slots and tables" and "Walks".
pub fn walks_law()
    ensures listed { CoreIsListed }
    ensures hole_free { TablesAreHoleFree }
    ensures leads { WalksLeadToRoots }
{}

/// If the invariant holds, each node is one that steps keep valid, and each node has few sessions of one joiner open, then a frame under
/// way is strange to its receiver exactly if it is a copy of a cast at the greatest depth. The receiver has a rule for it, unless it is a
/// Release or a Forget and the receiver has ended, or a Link and the receiver is gone; of a Gone, and of frames about pointers, lookups
/// and casts, nothing is said. So each frame but such a copy is delivered as the laws of what a delivery keeps ask, and each but the
/// notices of a departure is taken where they ask, the Done of a join that was given up, and the frames without a rule, set apart.
///
/// It does nothing: its contract is the law.
///
/// Rule: docs/PROTOCOL.md, "Strange frames" and "Steps of a node".
pub fn arrivals_from_invariant()
    ensures strange { StrangeExactly }
    ensures delivered { OthersAreDelivered }
    ensures rules { OthersHaveRules }
    ensures taken { TakenWhereDue }
{}

/// If the same holds, then a Heard or an Ack under way comes to a node that has the session open that it answers.
///
/// It does nothing: its contract is the law.
///
/// Rule: docs/PROTOCOL.md, "Sessions" and "Heard and Ack".
pub fn answers_from_invariant()
    ensures heard { AnswersOpenSession Heard }
    ensures ack { AnswersOpenSession Ack }
{}
