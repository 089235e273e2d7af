ghost use Rattle.tap_host.specs.Laws.{TakenStaysTaken};

/// A frame that a node has taken stays taken, whatever lines it reads. A packet whose frame was taken is only acknowledged
/// (`Host::line`), so no packet has it take the frame again.
///
/// It does nothing: its contract is the law.
///
/// Rule: docs/NETWORK.md, "What is proved, what is tested, and what is neither".
pub fn taken_stays_law()
    ensures { TakenStaysTaken }
{}
