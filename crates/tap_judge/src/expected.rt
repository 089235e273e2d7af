ghost use Rattle.std.specs.Prelude.{◌≡◌, ◌<◌, ◌++◌, IsTrue, drop, length};
ghost use Rattle.tap_io.specs.Sink.{Writes};
ghost use Rattle.tap_judge.specs.Expected.{expected_state, expects};

use std::marker::Model;
use tap_io::{Sink, Took};

// A sink that takes the bytes which are expected, and fails at others.
#[derive(Drop)]
pub(crate) struct Expected<'a> {
    bytes: &'a [u8],
    // So many of them were taken.
    taken: usize,
    // How many writes have failed.
    faults: u64,
}

// Whether two pieces of the same length are the same. No byte is left out, so that many are looked at at once.
fn is_same(one: &[u8], other: &[u8]) -> bool
    requires { length one.now ≡ length other.now }
    ensures { IsTrue result → one.now ≡ other.now }
{
    let mut same = true;
    for at in 0..one.len() {
        same &= one[at] == other[at];
    }
    same
}

// Whether the bytes begin with a piece.
fn begins_with(bytes: &[u8], piece: &[u8]) -> bool
    ensures { IsTrue result → bytes.now ≡ piece.now ++ drop (length piece.now) bytes.now }
{
    if bytes.len() < piece.len() {
        return false;
    }
    is_same(&bytes[..piece.len()], piece)
}

impl<'a> Model for Expected<'a> {
    ghost use Rattle.std.specs.Prelude.{◌≤◌, length};
    ghost use Rattle.tap_judge.specs.Expected.{ExpectedValue};

    ghost Value = { ExpectedValue };

    ghost view = { λ e. record { bytes = e.bytes.now; taken = e.taken; faults = e.faults } };

    ghost invariant = { λ e. e.taken ≤ length e.bytes.now };
}

impl<'a> Expected<'a> {
    // All of the bytes are expected.
    pub(crate) fn new(bytes: &'a [u8]) -> Expected<'a>
        ensures { result ≡ expects bytes.now }
    {
        Expected {
            bytes,
            taken: 0,
            faults: 0,
        }
    }

    // How many bytes are left that weren't taken.
    pub(crate) fn left(&self) -> usize {
        self.bytes.len() - self.taken
    }

    // Whether more bytes are expected, and none was written that isn't.
    pub(crate) fn goes_on(&self) -> bool {
        self.faults == 0 && self.left() > 0
    }

    // Whether so many bytes were taken, and none was written that isn't expected.
    pub(crate) fn has_taken(&self, count: usize) -> bool
        ensures { IsTrue result → (self.now.faults ≡ 0) × (self.now.taken ≡ count) }
    {
        if self.faults > 0 {
            return false;
        }
        self.taken == count
    }
}

impl<'a> Sink for Expected<'a> {
    ghost state = { expected_state };

    // Takes all of the bytes if they are the next ones that are expected, and else fails.
    fn write(&mut self, bytes: &[u8]) -> Took
        requires { 0 < length bytes.now }
        ensures { Writes (expected_state self.old) (expected_state self.new) bytes.now result }
    {
        if begins_with(&self.bytes[self.taken..], bytes) {
            self.taken += bytes.len();
            return Took::Took(bytes.len());
        }
        self.faults = self.faults.saturating_add(1);
        Took::Failed
    }
}
