ghost use Rattle.tap_runs.specs.CourseLaws.{CourseFrames, CourseGrows, CourseNodes, OneCourse};

/// A beginning within the limits is the course of a run, of a system whose members are at rest, and an overlay may begin with these.
/// With one more group that may follow, a course is one again, and its system is the one before, after the move that the group makes.
/// A course is one at each of its moments.
///
/// It does nothing: its contract is the law.
///
/// Rule: docs/FORMATS.md, "The course of a run".
pub fn course_law()
    ensures { CourseGrows }
{}

/// The frames under way are those that the log has as outstanding, in order and with the bytes of their records, and the next one is
/// numbered by how many were sent.
///
/// It does nothing: its contract is the law.
///
/// Rule: docs/FORMATS.md, "The course of a run".
pub fn frames_law()
    ensures { CourseFrames }
{}

/// Who is core, who is present, who is gone, who was ever there, who is joining and who departs is the same in the log and in its system.
///
/// It does nothing: its contract is the law.
///
/// Rule: docs/FORMATS.md, "The course of a run".
pub fn nodes_law()
    ensures { CourseNodes }
{}

/// Two courses that begin alike, take the same frames and steps in the same order, and refuse the same of what they may choose, are one.
///
/// It does nothing: its contract is the law.
///
/// Rule: docs/FORMATS.md, "The course of a run".
pub fn same_course_law()
    ensures { OneCourse }
{}
