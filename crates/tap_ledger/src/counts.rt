ghost use Rattle.std.specs.Prelude.{◌≡◌, length};
ghost use Rattle.tap_log.specs.Kinds.{asked_ticket, begun_cast};
ghost use Rattle.tap_log.specs.MoreRecords.{at_most_one};

use tap_log::{NumberKind, Record, number_in};

// How many lookups the record asks: one or none.
pub(crate) fn counted_ticket(item: &Record) -> usize
    ensures { result ≡ length (at_most_one (asked_ticket item.now)) }
{
    match number_in(NumberKind::Asked, item) {
        Some(_) => 1,
        None => 0,
    }
}

// How many casts the record begins: one or none.
pub(crate) fn counted_cast(item: &Record) -> usize
    ensures { result ≡ length (at_most_one (begun_cast item.now)) }
{
    match number_in(NumberKind::Cast, item) {
        Some(_) => 1,
        None => 0,
    }
}
