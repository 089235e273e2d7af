ghost use Rattle.tap_readable.specs.Readable.{CoursesAreReadable};
ghost use Rattle.tap_readable.specs.Ranges.{NumbersInRange};

/// In the course of a run each node has its own name and the settings of the run. If the names of its steps are of the settings, and fewer
/// than 2 ^ 32 steps were begun, then each frame under way is read back from its bytes.
///
/// It does nothing: its contract is the law.
///
/// Rule: docs/FORMATS.md, "The course of a run" and "Frames".
pub fn readable_law()
    ensures { CoursesAreReadable }
{}

/// In the course of a run no more frames are sent than may be, and lookups and casts are numbered no further than steps were run. A
/// node opens at most 500,000 sessions of joins and 500,001 of casts, and its stamp stays below 3,000,000. After at most 9,000,000
/// steps it has numbers left for one more; and it hasn't met the cast that begins next.
///
/// It does nothing: its contract is the law.
///
/// Rule: docs/FORMATS.md, "The course of a run".
pub fn ranges_law()
    ensures { NumbersInRange }
{}
