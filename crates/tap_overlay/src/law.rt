ghost use Rattle.tap_overlay.specs.Law.{OverlayLaw};

/// An overlay at rest has the nodes of the system of its members at rest. Of an overlay with the nodes of a system a walk reads
/// what it reads of the system. And if one node has changed, or has come, in an overlay and in its system alike, the overlay has
/// the nodes of the system again.
///
/// It does nothing: its contract is the law.
///
/// Rule: docs/FORMATS.md, "The course of a run".
pub fn overlay_law()
    ensures { OverlayLaw }
{}
