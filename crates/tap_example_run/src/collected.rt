use std::alloc::Global;
use tap_io::{Sink, Took};

// A sink that keeps what it takes.
#[derive(Drop)]
pub(crate) struct Collected {
    text: Vec<u8>,
    faults: u64,
}

impl Collected {
    // A sink that holds nothing yet.
    pub(crate) fn new(alloc: Global) -> Collected {
        Collected {
            text: Vec::new(alloc),
            faults: 0,
        }
    }

    // The bytes that it has taken.
    pub(crate) fn as_slice(&self) -> &[u8] {
        self.text.as_slice()
    }
}

// It tells nothing of its bytes, and a write fails if memory for them is refused.
impl Sink for Collected {
    ghost use Rattle.std.specs.Prelude.{[], None};

    ghost state = { λ sink. record { held = None; faults = sink.faults; behind = [] } };

    fn write(&mut self, bytes: &[u8]) -> Took {
        if self.text.extend_from_slice(bytes).is_err() {
            self.faults = self.faults.saturating_add(1);
            return Took::Failed;
        }
        Took::Took(bytes.len())
    }
}
