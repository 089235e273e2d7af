ghost use Rattle.std.specs.Prelude.{◌≡◌, ◌≤◌, ◌&&◌, length, is_some, if◌then◌else◌};
ghost use Rattle.std.specs.List.{filter_map};
ghost use Rattle.tap_log.specs.Asked.{number_in};
ghost use Rattle.tap_log.specs.Counts.{cast_count, packet_count, resends, resends_after, resent_count, sent_count, ticket_count};
ghost use Rattle.tap_log.specs.Kinds.{packet_number};

use crate::kinds::{NumberKind, number_in};
use crate::record::Record;
use tap_scenario::Step;

// How many records tell a number of this kind.
fn count_of(kind: NumberKind, records: &[Record]) -> usize
    ensures { result ≡ length (filter_map (number_in kind) records.now) }
{
    records
        .iter()
        .filter_map(|item| number_in(kind, item))
        .count()
}

/// How many frames were sent. It goes over the records once.
///
/// Rule: docs/FORMATS.md, "Groups and moments".
pub fn sent_count(records: &[Record]) -> usize
    ensures { result ≡ sent_count records.now }
{
    count_of(NumberKind::Sent, records)
}

/// How many packets were made. They are numbered from 0.
///
/// Rule: docs/FORMATS.md, "The printed text".
pub fn packet_count(records: &[Record]) -> usize
    ensures { result ≡ packet_count records.now }
{
    count_of(NumberKind::Made, records)
}

/// How many lookups were asked. Their tickets count from 1.
///
/// Rule: docs/FORMATS.md, "The printed text".
pub fn ticket_count(records: &[Record]) -> usize
    ensures { result ≡ ticket_count records.now }
{
    count_of(NumberKind::Asked, records)
}

/// How many casts began. They are numbered from 1.
///
/// Rule: docs/FORMATS.md, "The printed text".
pub fn cast_count(records: &[Record]) -> usize
    ensures { result ≡ cast_count records.now }
{
    count_of(NumberKind::Cast, records)
}

// Whether the step sends packets once more.
#[tactic(auto, unfolding(crate::specs::Counts::resends))]
fn resends(step: &Step) -> bool
    ensures { result ≡ resends step.now }
{
    match step {
        Step::Tick | Step::Repeat { .. } => true,
        _ => false,
    }
}

// Whether the last step sends packets once more, after one more record.
#[tactic(auto, unfolding(crate::specs::Counts::resends_after))]
fn resends_after(before: bool, item: &Record) -> bool
    ensures { result ≡ resends_after before item.now }
{
    match item {
        Record::Step { step, .. } => resends(step),
        _ => before,
    }
}

// One more, if the record is a packet that is made once more.
fn resent_by(before: bool, item: &Record) -> usize
    ensures value { result ≡ (if before && is_some (packet_number item.now) then 1 else 0) }
    ensures most { result ≤ 1 }
{
    if !before {
        return 0;
    }
    match number_in(NumberKind::Made, item) {
        Some(_) => 1,
        None => 0,
    }
}

/// How many packets the steps `tick` and `repeat` made. Those that a settle makes anew don't count.
///
/// Rule: docs/FORMATS.md, "The printed text".
pub fn resent_count(records: &[Record]) -> usize
    ensures value { result ≡ resent_count records.now }
    ensures most { result ≤ length records.now }
{
    let mut count = 0;
    let mut resends = false;
    for item in records {
        count += resent_by(resends, item);
        resends = resends_after(resends, item);
    }
    count
}
