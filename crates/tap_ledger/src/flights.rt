ghost use Rattle.std.specs.Prelude.{◌≡◌, ◌≤◌, ◌+◌, length, option_copied, option_map, option_and_then, slice_get, IfSome};
ghost use Rattle.tap_log.specs.Kinds.{sent_number};
ghost use Rattle.tap_log.specs.MoreRecords.{at_most_one};
ghost use Rattle.tap_outstanding.specs.Outstanding.{AreOutstanding, most_sent};
ghost use Rattle.tap_ledger.specs.Flights.{followed, sent_payload, taken_by_number};

use tap_log::Record;
use tap_outstanding::{Flight, Outstanding};

/// A frame that is outstanding, as the log has it.
///
/// Rule: docs/FORMATS.md, "Groups and moments".
#[derive(Clone, Copy, Debug)]
pub struct OutstandingFrame<'a> {
    /// Its number: how many frames were sent before it.
    pub number: u32,
    /// The place, from 0, of the record that sends it among those of the whole log.
    pub record_place: usize,
    /// Its bytes.
    pub bytes: &'a [u8],
}

// Sends the frame that one more record sends, and takes the one that it takes. The record is to stand at this place.
#[inline(always)]
#[tactic(auto, unfolding(crate::specs::Flights::followed, tap_log::specs::Kinds::sent_number))]
pub(crate) fn follow(frames: &mut Outstanding, item: &Record, record_place: usize)
    requires few { frames.old.sent + length (at_most_one (sent_number item.now)) ≤ most_sent }
    requires room { 1 ≤ frames.old.room }
    ensures frames { frames.new ≡ followed frames.old record_place item.now }
    ensures room { frames.old.room ≤ frames.new.room + 1 }
    ensures ascending { AreOutstanding frames.old }
{
    // No effect at run time. The proof reads from this call that the outstanding numbers ascend.
    let _ = frames.len();
    match item {
        Record::Sent { .. } => {
            frames.send_reserved(record_place);
        }
        Record::Taken { number } => take(frames, *number),
        _ => {}
    }
}

// Takes the frame with this number, if it is outstanding.
#[inline(always)]
fn take(frames: &mut Outstanding, number: u32)
    ensures { frames.new ≡ taken_by_number frames.old number }
{
    frames.take_number(number);
}

// The bytes that the record at this place sends.
#[tactic(auto, unfolding(crate::specs::Flights::sent_payload))]
pub(crate) fn payload(records: &[Record], record_place: usize) -> Option<&[u8]>
    ensures { option_copied result ≡ option_and_then sent_payload (slice_get records.now record_place) }
{
    match records.get(record_place)? {
        Record::Sent { bytes, .. } => Some(bytes.as_slice()),
        _ => None,
    }
}

// A frame with the bytes that its record sends; `None` exactly if that sends none.
pub(crate) fn frame_of(records: &[Record], flight: Flight) -> Option<OutstandingFrame<'_>>
    ensures number { IfSome result (λ f. f.number ≡ flight.number) }
    ensures record_place { IfSome result (λ f. f.record_place ≡ flight.record_place) }
    ensures bytes { option_map (λ f. f.bytes.now) result ≡ option_and_then sent_payload (slice_get records.now flight.record_place) }
{
    let bytes = payload(records, flight.record_place)?;
    Some(OutstandingFrame {
        number: flight.number,
        record_place: flight.record_place,
        bytes,
    })
}
