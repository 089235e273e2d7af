ghost use Rattle.std.specs.Prelude.{◌≡◌, ◌≤◌};
ghost use Rattle.std.specs.Bool.{OnTrue};
ghost use Rattle.tap_io.specs.Faults.{HasRisen};
ghost use Rattle.tap_io.specs.Calls.{no_calls, is_next_to_fail, after_call};

use std::marker::Model;

// The calls of a source or a sink in memory: which are to fail, and how many there were. Both counts
// stand still at the greatest u64, which is the number of no call that is to fail.
#[derive(Debug, Drop)]
pub(crate) struct Calls {
    fails: Vec<u32>,
    made: u64,
    faults: u64,
}

impl Model for Calls {
    ghost use Rattle.tap_io.specs.Calls.{CallsValue};

    ghost Value = { CallsValue };

    ghost view = { λ c. record { fails = c.fails.items; made = c.made; faults = c.faults } };
}

impl Calls {
    pub(crate) fn new(fails: Vec<u32>) -> Calls
        ensures { result ≡ no_calls fails.items }
    {
        Calls {
            fails,
            made: 0,
            faults: 0,
        }
    }

    // Whether the next call, by its number from 1, is to fail.
    pub(crate) fn is_next_to_fail(&self) -> bool
        ensures { result ≡ is_next_to_fail self.now }
    {
        let number = self.made.saturating_add(1);
        self.fails.iter().any(|n| u64::from(*n) == number)
    }

    // Counts a call, and a fault if it failed.
    pub(crate) fn count(&mut self, failed: bool)
        ensures after { self.new ≡ after_call self.old failed }
        ensures later { self.old.faults ≤ self.new.faults }
        ensures risen { OnTrue failed (HasRisen self.old.faults self.new.faults) }
    {
        self.made = self.made.saturating_add(1);
        if failed {
            self.faults = self.faults.saturating_add(1);
        }
    }
}
