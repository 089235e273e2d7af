ghost use Rattle.std.specs.Prelude.{◌≡◌, option_copied};
ghost use Rattle.tap_log.specs.Frames.{bytes_of, sent_bytes};

use crate::record::Record;

// The bytes of the frame with this number, if the record sends it.
#[tactic(auto, unfolding(crate::specs::Frames::sent_bytes))]
fn sent_bytes(number: u32, item: &Record) -> Option<&[u8]>
    ensures { option_copied result ≡ sent_bytes number item.now }
{
    match item {
        Record::Sent {
            number: sent,
            bytes,
        } => {
            if *sent == number {
                Some(bytes.as_slice())
            } else {
                None
            }
        }
        _ => None,
    }
}

/// The bytes of the frame with this number, `None` exactly if no such frame was sent. It goes over the records up to
/// that one.
///
/// Rule: docs/FORMATS.md, "Groups and moments".
pub fn bytes_of(records: &[Record], number: u32) -> Option<&[u8]>
    ensures { option_copied result ≡ bytes_of records.now number }
{
    for item in records {
        if let Some(bytes) = sent_bytes(number, item) {
            return Some(bytes);
        }
    }
    None
}
