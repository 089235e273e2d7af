use std::rt::Clock;
use std::time::Instant;

/// Why a call gives nothing.
pub(crate) const CANNOT: &str =
    "the call can't be made: memory or the clock is refused, or what it works on can't be made";

/// What calls gave, all together, and the nanoseconds that they took.
#[derive(Clone, Copy)]
pub(crate) struct Run {
    pub(crate) gave: u64,
    pub(crate) nanoseconds: u128,
}

impl Run {
    /// The run of calls that began then and gave this, if the clock can be read.
    pub(crate) fn since(rt: &impl Clock, start: Instant, gave: u64) -> Option<Run> {
        let nanoseconds = nanoseconds_since(rt, start)?;
        Some(Run { gave, nanoseconds })
    }

    /// The nanoseconds of each of so many calls.
    pub(crate) fn each(self, count: u32) -> u128 {
        self.nanoseconds / u128::from(count.max(1))
    }
}

/// The nanoseconds since then, if the clock can be read.
pub(crate) fn nanoseconds_since(rt: &impl Clock, start: Instant) -> Option<u128> {
    let taken = start.elapsed(rt).ok()?;
    Some(taken.as_nanos())
}
