ghost use Rattle.std.specs.Prelude.{◌≡◌};
ghost use Rattle.tap_make.specs.Mixer.{high_half, mixed};

use std::marker::Model;

/// A mixer: from a seed it gives one number of 32 bits after the other. Contracts see the number of 64 bits that it keeps.
///
/// Rule: docs/FORMATS.md, "The mixer".
#[derive(Debug, Drop)]
pub struct Mixer {
    state: u64,
}

impl Model for Mixer {
    ghost use Rattle.std.specs.Prelude.{ℕ};

    ghost Value = { ℕ };

    ghost view = { λ m. m.state };
}

impl Mixer {
    /// The mixer with this seed.
    pub fn new(seed: u64) -> Mixer
        ensures { result ≡ seed }
    {
        Mixer { state: seed }
    }

    /// The next number.
    pub fn next(&mut self) -> u32
        ensures state { self.new ≡ mixed self.old }
        ensures value { result ≡ high_half self.new }
    {
        self.state = self
            .state
            .wrapping_mul(6_364_136_223_846_793_005)
            .wrapping_add(1_442_695_040_888_963_407);
        (self.state >> 32) as u32
    }
}
