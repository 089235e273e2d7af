ghost use Rattle.tap_history.specs.RecordLaws.{RecordChanges};
ghost use Rattle.tap_history.specs.GroupLaws.{GroupChanges, LogInGroups, OneMoreGroup};

/// What holds of a log with its beginning alone; and what one more record changes in the steps that were accepted, in the
/// nodes that are core, present, abandoned or ceased, in the frames that are outstanding and those that await their
/// acknowledgement, in the packets under way, in the published pairs, and in the counts of joins and names.
///
/// It does nothing: its contract is the law.
///
/// Rule: docs/FORMATS.md, "Groups and moments".
pub fn record_changes()
    ensures { RecordChanges }
{}

/// What one more group of records changes: its end is the one new moment; and the node that is departing is then none if
/// no frame is outstanding, else the one whose departure the group accepts, else the one that was departing before.
///
/// It does nothing: its contract is the law.
///
/// Rule: docs/FORMATS.md, "Groups and moments".
pub fn one_more_group()
    ensures { OneMoreGroup }
{}

/// A log is its beginning, its groups and its ending, and one more whole group is its last one.
///
/// It does nothing: its contract is the law.
///
/// Rule: docs/FORMATS.md, "Groups and moments".
pub fn log_in_groups()
    ensures { LogInGroups }
{}

/// What one more group of records changes in who is core and present, who gave up, the names that were ever there, and the
/// pairs that are published. If frames are numbered from 0 and tickets from 1, also in the frames that are outstanding and
/// their places; and if packets are numbered from 0, in the packets under way and the frames that await their acknowledgement.
///
/// It does nothing: its contract is the law.
///
/// Rule: docs/FORMATS.md, "Groups and moments".
pub fn group_changes()
    ensures { GroupChanges }
{}
