ghost use Rattle.tap_make.specs.WellMade.{MadeLaw};

/// A scenario that is made is within the limits of a scenario, the text of each of its steps is read as that step, a run takes it, and
/// no two of its nodes have one name, nor two of its objects.
///
/// It does nothing: its contract is the law.
///
/// Rule: docs/FORMATS.md, "Made scenarios".
pub fn made_law()
    ensures { MadeLaw }
{}
