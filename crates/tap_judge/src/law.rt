ghost use Rattle.tap_judge.specs.Ending.{OneIsSaid};

/// Of the same bytes at most one of these is true: that they are the text of a lawful log with so many records, that they are that of a log
/// which is refused at a record, and that they are the text of no log, as a line shows.
///
/// It does nothing: its contract is the law.
///
/// Rule: docs/FORMATS.md, "The judge".
pub fn judged_law()
    ensures { OneIsSaid }
{}
