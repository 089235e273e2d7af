ghost use Rattle.std.specs.Prelude.{◌≡◌, ◌<◌, ◌≤◌, ◌%◌, length, slice_get, Some};
ghost use Rattle.tap_make.specs.Draws.{DrawsValue, further};
ghost use Rattle.tap_make.specs.Mixer.{drawn};

use crate::mixer::Mixer;
use std::marker::Model;
use tap_name::{List, Name};

// A mixer whose numbers are counted. Contracts see its seed and the count.
#[derive(Drop)]
pub(crate) struct Draws {
    mixer: Mixer,
    seed: u64,
    place: u32,
}

impl Model for Draws {
    ghost use Rattle.std.specs.Prelude.{◌≡◌};
    ghost use Rattle.tap_make.specs.Draws.{DrawsValue};
    ghost use Rattle.tap_make.specs.Mixer.{state_after};

    ghost Value = { DrawsValue };

    ghost view = { λ d. record { seed = d.seed; place = d.place } };

    ghost invariant = { λ d. d.mixer ≡ state_after d.seed d.place };
}

impl Draws {
    // The mixer with this seed, which has given no number.
    pub(crate) fn new(seed: u64) -> Draws
        ensures { result ≡ record { seed = seed; place = 0 } }
    {
        Draws {
            mixer: Mixer::new(seed),
            seed,
            place: 0,
        }
    }

    // The next number.
    pub(crate) fn next(&mut self) -> u32
        requires { self.old.place < 1000 }
        ensures value { result ≡ drawn self.old.seed self.old.place }
        ensures draws { self.new ≡ further self.old 1 }
    {
        self.place += 1;
        self.mixer.next()
    }

    // The name that the next number draws.
    pub(crate) fn pick(&mut self, names: &List<Name>) -> Name
        requires some { 1 ≤ length names.now }
        requires place { self.old.place < 1000 }
        ensures value { slice_get names.now (drawn self.old.seed self.old.place % length names.now) ≡ Some result }
        ensures draws { self.new ≡ further self.old 1 }
    {
        let number = self.next() as usize;
        names.at(number % names.len())
    }
}
