ghost use Rattle.tap_shape.specs.Laws.{ShapesCanBePrinted, TextsAreExact};

/// Each shape can be printed, so it has a text.
///
/// It does nothing: its contract is the law.
///
/// Rule: docs/FORMATS.md, "Texts that are read back".
pub fn shape_law()
    ensures { ShapesCanBePrinted }
{}

/// Bytes are the text of one log, or show at one line that they are none, and not both.
///
/// It does nothing: its contract is the law.
///
/// Rule: docs/FORMATS.md, "Texts that are read back".
pub fn text_law()
    ensures { TextsAreExact }
{}
