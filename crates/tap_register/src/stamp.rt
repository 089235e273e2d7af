ghost use Rattle.std.specs.Prelude.{◌≡◌, ◌+◌, ◌<◌};

use std::marker::Model;

/// A writer's count of its writes. Contracts see the number that was given last, from 0 to the
/// greatest `u32`.
///
/// A stamp is not copied, since two copies would give one number to two writes.
///
/// Rule: docs/PROTOCOL.md, "Versions".
#[derive(Debug, Drop)]
pub struct Stamp {
    last: u32,
}

impl Model for Stamp {
    ghost use Rattle.std.specs.Prelude.{ℕ};

    ghost Value = { ℕ };

    ghost view = { λ s. s.last };
}

impl Stamp {
    /// A stamp that has given no number yet, and stands at 0.
    pub fn new() -> Stamp
        ensures { result ≡ 0 }
    {
        Stamp { last: 0 }
    }

    /// The number that was given last, or 0.
    pub fn last(&self) -> u32
        ensures { result ≡ self.now }
    {
        self.last
    }

    /// Gives the next number, which is one more than the last.
    pub fn next(&mut self) -> u32
        requires { self.old < u32.MAX }
        ensures given { result ≡ self.old + 1 }
        ensures after { self.new ≡ self.old + 1 }
    {
        self.last += 1;
        self.last
    }
}
