ghost use Rattle.tap_line.specs.Laws.{LinesAreReadBack, LinesAreTold};

/// No text of a line has a line feed, and two lines of one log never have the same text.
///
/// It does nothing: its contract is the law.
///
/// Rule: docs/FORMATS.md, "The printed text".
pub fn line_law()
    ensures { LinesAreTold }
{}

/// A text is read as a line exactly if it is the line's one text, and the line is one of the run.
///
/// It does nothing: its contract is the law.
///
/// Rule: docs/FORMATS.md, "The printed text".
pub fn reading_law()
    ensures { LinesAreReadBack }
{}
