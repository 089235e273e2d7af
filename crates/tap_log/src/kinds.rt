ghost use Rattle.std.specs.Prelude.{◌≡◌};
ghost use Rattle.tap_log.specs.Kinds.{accepts, begins_group, is_carried, published_pair, step_of, withdrawn_pair};
ghost use Rattle.tap_log.specs.Asked.{name_in, number_in};
ghost use Rattle.tap_log.specs.Reduced.{is_added};

use crate::record::{Pair, Record};
use tap_name::Name;
use tap_scenario::Step;

/// Whether the log is carried: `Carrier` is its second record, after `Begin`.
///
/// Rule: docs/FORMATS.md, "Groups and moments".
#[tactic(auto, unfolding(crate::specs::Kinds::is_carried))]
pub fn is_carried(records: &[Record]) -> bool
    ensures { result ≡ is_carried records.now }
{
    match records {
        [Record::Begin { .. }, Record::Carrier, ..] => true,
        _ => false,
    }
}

/// The step of a `Step` record, `None` exactly for every other record.
///
/// Rule: docs/FORMATS.md, "The printed text".
pub fn step_of(item: &Record) -> Option<Step>
    ensures { result ≡ step_of item.now }
{
    match item {
        Record::Step { step, .. } => Some(*step),
        _ => None,
    }
}

/// Whether a group, which is what one step or one delivery did, begins with the record, in a log that is carried or not.
///
/// Rule: docs/FORMATS.md, "Groups and moments".
#[tactic(auto, unfolding(crate::specs::Kinds::begins_group))]
pub fn begins_group(carried: bool, item: &Record) -> bool
    ensures { result ≡ begins_group carried item.now }
{
    match item {
        Record::Step { .. } => true,
        Record::Taken { .. } => !carried,
        Record::Arrived { .. } | Record::Ticked => carried,
        _ => false,
    }
}

/// Whether the first record after a start accepts it: it is of the start's group, and neither `Refused` nor `Spent`.
///
/// Rule: docs/FORMATS.md, "Groups and moments".
#[tactic(auto, unfolding(crate::specs::Kinds::accepts))]
pub fn accepts(carried: bool, next: &Record) -> bool
    ensures { result ≡ accepts carried next.now }
{
    match next {
        Record::Refused { .. } | Record::Spent { .. } => false,
        other => !begins_group(carried, other),
    }
}

/// Which numbers of records are asked for.
///
/// Rule: docs/FORMATS.md, "The printed text".
#[derive(Clone, Copy, Debug)]
pub enum NumberKind {
    /// Those of the frames that are sent.
    Sent,
    /// Those of the frames that are taken.
    Taken,
    /// Those of the packets that are made.
    Made,
    /// Those of the packets that arrive.
    Arrived,
    /// Those of the packets that arrive or are lost.
    Ended,
    /// Those of the lookups that are asked.
    Asked,
    /// Those of the casts that begin.
    Cast,
}

/// The number of this kind that a record tells, `None` exactly if it tells none.
///
/// Rule: docs/FORMATS.md, "The printed text".
#[tactic(auto, unfolding(crate::specs::Kinds::sent_number, crate::specs::Kinds::taken_number, crate::specs::Kinds::packet_number, crate::specs::Kinds::arrived_number, crate::specs::Kinds::ended_number, crate::specs::Kinds::asked_ticket, crate::specs::Kinds::begun_cast))]
pub fn number_in(kind: NumberKind, item: &Record) -> Option<u32>
    ensures { result ≡ number_in kind item.now }
{
    match (kind, item) {
        (NumberKind::Sent, Record::Sent { number, .. }) => Some(*number),
        (NumberKind::Taken, Record::Taken { number }) => Some(*number),
        (NumberKind::Made, Record::Packet { number, .. }) => Some(*number),
        (NumberKind::Arrived | NumberKind::Ended, Record::Arrived { packet }) => Some(*packet),
        (NumberKind::Ended, Record::Lost { packet }) => Some(*packet),
        (NumberKind::Asked, Record::Asked { ticket, .. }) => Some(*ticket),
        (NumberKind::Cast, Record::CastFrom { cast, .. }) => Some(*cast),
        _ => None,
    }
}

/// Which names of records are asked for.
///
/// Rule: docs/FORMATS.md, "The printed text".
#[derive(Clone, Copy, Debug)]
pub enum NameKind {
    /// Those of the nodes that become core.
    Core,
    /// Those of the nodes that are gone.
    Gone,
    /// Those of the nodes that are to give up joining.
    Abandoned,
}

/// The name of this kind that a record tells, `None` exactly if it tells none.
///
/// Rule: docs/FORMATS.md, "The printed text".
#[tactic(auto, unfolding(crate::specs::Kinds::core_name, crate::specs::Kinds::gone_name, crate::specs::Kinds::abandoned_name))]
pub fn name_in(kind: NameKind, item: &Record) -> Option<Name>
    ensures { result ≡ name_in kind item.now }
{
    match (kind, item) {
        (NameKind::Core, Record::Core { name }) => Some(*name),
        (NameKind::Gone, Record::Gone { name }) => Some(*name),
        (NameKind::Abandoned, Record::Abandoned { name }) => Some(*name),
        _ => None,
    }
}

/// The pair that a record publishes, `None` exactly if it publishes none.
///
/// Rule: docs/FORMATS.md, "Groups and moments".
#[tactic(auto, unfolding(crate::specs::Kinds::published_pair))]
pub fn published_pair(item: &Record) -> Option<Pair>
    ensures { result ≡ published_pair item.now }
{
    match item {
        Record::Published { object, server } => Some(Pair {
            object: *object,
            server: *server,
        }),
        _ => None,
    }
}

/// The pair that a record withdraws, `None` exactly if it withdraws none.
///
/// Rule: docs/FORMATS.md, "Groups and moments".
#[tactic(auto, unfolding(crate::specs::Kinds::withdrawn_pair))]
pub fn withdrawn_pair(item: &Record) -> Option<Pair>
    ensures { result ≡ withdrawn_pair item.now }
{
    match item {
        Record::Withdrawn { object, server } => Some(Pair {
            object: *object,
            server: *server,
        }),
        _ => None,
    }
}

/// Whether a record is of packets, or tells the roots of salted names: a reduced log is a log without these.
///
/// Rule: docs/FORMATS.md, "Groups and moments".
#[tactic(auto, unfolding(crate::specs::Reduced::is_added))]
pub fn is_added(item: &Record) -> bool
    ensures { result ≡ is_added item.now }
{
    match item {
        Record::Carrier | Record::Packet { .. } | Record::RootsOf { .. } => true,
        Record::Arrived { .. } | Record::Ticked | Record::Lost { .. } => true,
        _ => false,
    }
}
