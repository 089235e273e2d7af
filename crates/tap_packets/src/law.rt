ghost use Rattle.tap_packets.specs.ActsFit.{ActsFit};
ghost use Rattle.tap_packets.specs.Example.{AnExample};
ghost use Rattle.tap_packets.specs.PacketLaws.{BoxesAnswer, BoxesKept, GroupsFollow, MovesCost, OutboxesTogether, RunsEnd, SequenceTells, TakenOnce, WaysOfBytes};

/// A frame's sender, receiver and sequence number tell it.
///
/// It does nothing: its contract is the law.
///
/// Rule: docs/PROTOCOL.md, "Packets".
pub fn sequence_law()
    ensures { SequenceTells }
{}

/// The sender and the receiver of a frame that was sent are those that its bytes name.
///
/// It does nothing: its contract is the law.
///
/// Rule: docs/PROTOCOL.md, "Packets".
pub fn ways_law()
    ensures { WaysOfBytes }
{}

/// Each record of a carrier's group may come after those before it, and a log of records that may come keeps what is said of its packets.
///
/// It does nothing: its contract is the law.
///
/// Rule: docs/PROTOCOL.md, "Packets".
pub fn groups_law()
    ensures { GroupsFollow }
{}

/// What a node does by the reduced log may stand in the whole one.
///
/// It does nothing: its contract is the law.
///
/// Rule: docs/FORMATS.md, "Groups and moments".
pub fn acts_law()
    ensures { ActsFit }
{}

/// Outboxes, inboxes and a net that are what the log says stay so with each record that may come.
///
/// It does nothing: its contract is the law.
///
/// Rule: docs/PROTOCOL.md, "Packets".
pub fn boxes_law()
    ensures { BoxesKept }
{}

/// What the calls of such boxes answer: an inbox, that a frame is outstanding; an outbox, that it awaits its acknowledgement, and the sequence
/// number of one that is sent; a net, the packet at a place.
///
/// It does nothing: its contract is the law.
///
/// Rule: docs/PROTOCOL.md, "Packets".
pub fn answers_law()
    ensures { BoxesAnswer }
{}

/// The outboxes together keep the frames that await their acknowledgement, and a tick gathers these.
///
/// It does nothing: its contract is the law.
///
/// Rule: docs/PROTOCOL.md, "Packets".
pub fn together_law()
    ensures { OutboxesTogether }
{}

/// Each frame is taken at most once, right after a data packet of it arrives, and exactly once if none is outstanding. None is outstanding if
/// none awaits its acknowledgement.
///
/// It does nothing: its contract is the law.
///
/// Rule: docs/PROTOCOL.md, "Packets".
pub fn once_law()
    ensures { TakenOnce }
{}

/// What each group changes in the counts of frames and packets; so the measure falls, the bound on packets never rises, and there are at most
/// two groups for each step and each packet.
///
/// It does nothing: its contract is the law.
///
/// Rule: docs/PROTOCOL.md, "Packets".
pub fn costs_law()
    ensures { MovesCost }
{}

/// A run ends, and it makes no more packets than the bound says at its start.
///
/// It does nothing: its contract is the law.
///
/// Rule: docs/PROTOCOL.md, "Packets".
pub fn ends_law()
    ensures { RunsEnd }
{}

/// A join of two nodes whose first packet is lost, and sent once more by a tick: the moves give the log, and at its end nothing is left.
///
/// It does nothing: its contract is the law.
///
/// Rule: docs/PROTOCOL.md, "Packets".
pub fn example_law()
    ensures { AnExample }
{}
