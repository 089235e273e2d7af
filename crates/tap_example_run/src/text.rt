ghost use Rattle.std.specs.Prelude.{◌<◌, ◌≤◌, length};

use tap_io::{Got, Source};

// A source of a text that stands in the program. A read gives no more than the rest of a line.
#[derive(Drop)]
pub(crate) struct Text {
    left: &'static [u8],
}

impl Text {
    // A source of this text.
    pub(crate) fn new(text: &'static [u8]) -> Text {
        Text { left: text }
    }
}

// How many bytes the first line of a text has, its line feed among them.
fn line_len(text: &[u8]) -> usize
    ensures within { result ≤ length text.now }
    ensures some { 0 < length text.now → 0 < result }
{
    for at in 0..text.len() {
        if text[at] == b'\n' {
            return at + 1;
        }
    }
    text.len()
}

// It tells nothing of its bytes, and no read fails.
impl Source for Text {
    ghost use Rattle.std.specs.Prelude.{None};

    ghost state = { λ text. record { left = None; faults = 0 } };

    fn read(&mut self, into: &mut [u8]) -> Got {
        let len = line_len(self.left).min(into.len());
        if len == 0 {
            return Got::End;
        }
        into[..len].copy_from_slice(&self.left[..len]);
        self.left = &self.left[len..];
        Got::Got(len)
    }
}
