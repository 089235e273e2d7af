ghost use Rattle.tap_carry.specs.Arrivals.{FirstIsTrue};

/// Of all calls of `Inbox::arrived` on one inbox, the first one for a sender and a number that isn't refused answers true, and
/// each other one answers false.
///
/// It does nothing: its contract is the law.
///
/// Rule: docs/PROTOCOL.md, "Packets".
pub fn arrivals_law()
    ensures { FirstIsTrue }
{}
