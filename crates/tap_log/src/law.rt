ghost use Rattle.tap_log.specs.MoreRecords.{MoreRecords, OneMoreRecord};

/// What one more record changes: whether the log is carried, the steps that were begun, how many frames were sent, packets
/// made, lookups asked, casts begun and packets made once more, and the bytes of a frame.
///
/// It does nothing: its contract is the law.
///
/// Rule: docs/FORMATS.md, "Groups and moments".
pub fn one_more_record()
    ensures { OneMoreRecord }
{}

/// What more records change, as those of one group: how many frames were sent, packets made, lookups asked, casts begun and
/// packets made once more, and the bytes of a frame.
///
/// It does nothing: its contract is the law.
///
/// Rule: docs/FORMATS.md, "Groups and moments".
pub fn more_records()
    ensures { MoreRecords }
{}
