ghost use Rattle.std.specs.Prelude.{◌≡◌, ◌+◌, ◌≤◌, ◌++◌, length};
ghost use Rattle.tap_log.specs.Counts.{sent_count};
ghost use Rattle.tap_log.specs.MoreRecords.{at_most_one};
ghost use Rattle.tap_ledger.specs.Added.{CanAdd};
ghost use Rattle.tap_engine.specs.SeenTurns.{bytes_records, seen_after, seen_before, turn_records};

use crate::turns::{record_after, record_before};
use std::collections::VecDeque;
use tap_ledger::Ledger;
use tap_log::Record;
use tap_name::Name;
use tap_node::News;
use tap_node_common::FrameList;
use tap_wire::Bytes;

// Adds the records of the turn of a node of this name, its frames and its news, for which there is room. The list that the frames stood in
// is given back.
pub(crate) fn push_turn(
    ledger: &mut Ledger,
    name: &Name,
    sent: FrameList,
    news: &News,
) -> Vec<Bytes>
    requires room { length sent + 2 ≤ ledger.old.spare }
    requires can_add { CanAdd ledger.old.records
        (turn_records (sent_count ledger.old.records) name.now (record { sent = sent; news = news.now })) }
    ensures records { ledger.new.records ≡ ledger.old.records
        ++ turn_records (sent_count ledger.old.records) name.now (record { sent = sent; news = news.now }) }
    ensures added { ledger.new.added ≡ ledger.old.added }
    ensures spare { ledger.old.spare ≤ ledger.new.spare + (length sent + 2) }
{
    match news {
        News::Nothing => push_frames(ledger, sent.into_frames()),
        _ => push_with_news(ledger, name, news, sent.into_frames()),
    }
}

// Adds the records of a turn: its news that stand before the frames, the frames, and the news after them. The list is given back.
#[inline(never)]
fn push_with_news(ledger: &mut Ledger, name: &Name, news: &News, frames: Vec<Bytes>) -> Vec<Bytes>
    requires room { length frames.items + 2 ≤ ledger.old.spare }
    requires can_add { CanAdd ledger.old.records
        (seen_before name.now news.now ++ (bytes_records (sent_count ledger.old.records) frames.items ++ seen_after news.now)) }
    ensures records { ledger.new.records ≡ ledger.old.records
        ++ (seen_before name.now news.now ++ (bytes_records (sent_count ledger.old.records) frames.items ++ seen_after news.now)) }
    ensures added { ledger.new.added ≡ ledger.old.added }
    ensures spare { ledger.old.spare ≤ ledger.new.spare + (length frames.items + 2) }
{
    push_some(ledger, record_before(name, news));
    let frames = push_frames(ledger, frames);
    push_some(ledger, record_after(news));
    frames
}

// Adds a record, if there is one.
#[inline(always)]
pub(crate) fn push_some(ledger: &mut Ledger, item: Option<Record>)
    requires room { 1 ≤ ledger.old.spare }
    requires can_add { CanAdd ledger.old.records (at_most_one item) }
    ensures records { ledger.new.records ≡ ledger.old.records ++ at_most_one item }
    ensures added { ledger.new.added ≡ ledger.old.added }
    ensures spare { ledger.old.spare ≤ ledger.new.spare + 1 }
{
    if let Some(item) = item {
        ledger.push_reserved(item);
    }
}

// Adds the frames of a turn, numbered on. The list is given back.
fn push_frames(ledger: &mut Ledger, frames: Vec<Bytes>) -> Vec<Bytes>
    requires room { length frames.items ≤ ledger.old.spare }
    requires can_add { CanAdd ledger.old.records (bytes_records (sent_count ledger.old.records) frames.items) }
    ensures records { ledger.new.records ≡ ledger.old.records ++ bytes_records (sent_count ledger.old.records) frames.items }
    ensures added { ledger.new.added ≡ ledger.old.added }
    ensures spare { ledger.new.spare + length frames.items ≡ ledger.old.spare }
{
    let mut frames = VecDeque::from(frames);
    while let Some(bytes) = frames.pop_front() {
        ledger.push_sent(bytes);
    }
    frames.into_vec()
}
