ghost use Rattle.tap_engine.specs.Growth.{DeliveriesRefused, WorldLogGrows};
ghost use Rattle.tap_engine.specs.TurnRecords.{TurnsAreTold};

/// A `deliver` is refused exactly if no frame is at the place.
///
/// It does nothing: its contract is the law.
///
/// Rule: docs/FORMATS.md, "The course of a run".
pub fn delivery_law()
    ensures { DeliveriesRefused }
{}

/// Each call leaves a world with the log of one: up to its last moment a course, and after that a step whose refusal isn't noted yet,
/// or how the run has ended.
///
/// It does nothing: its contract is the law.
///
/// Rule: docs/FORMATS.md, "The course of a run".
pub fn world_log_law()
    ensures { WorldLogGrows }
{}

/// The records of the turn of a node, by its frames as bytes, are what a log says of what the node did by its rule.
///
/// It does nothing: its contract is the law.
///
/// Rule: docs/FORMATS.md, "The course of a run".
pub fn turn_law()
    ensures { TurnsAreTold }
{}
