ghost use Rattle.std.specs.Prelude.{◌≡◌, ◌≤◌, ◌&&◌, ◌||◌, List, ℕ, true, false, not, IfOk, OnOk};
ghost use Rattle.tap_carry.specs.Names.{is_same};
ghost use Rattle.tap_host.specs.Intake.{has_taken};

use crate::memory::NoMemory;
use indexmap::IndexSet;
use std::alloc::Global;
use std::marker::Model;
use tap_carry::Inbox;
use tap_name::Name;

// Which frames of which senders were taken: an inbox, and the numbers that were entered there of frames that were then refused. Contracts
// see a test of a sender and a number, `has_taken`.
#[derive(Drop)]
pub(crate) struct Intake {
    inbox: Inbox,
    refused: IndexSet<(Name, u32)>,
}

impl Model for Intake {
    ghost use Rattle.tap_host.specs.Intake.{IntakeValue};

    ghost Value = { IntakeValue };

    ghost view = { λ t. record { inbox = t.inbox; refused = t.refused.keys } };

    ghost use Rattle.tap_host.specs.Intake.{IsIntake};

    ghost invariant = { λ t. IsIntake t.inbox t.refused.keys };
}

impl Intake {
    // None was taken. This takes no memory; later calls take it of `alloc`.
    pub(crate) fn new(alloc: Global) -> Intake
        ensures { (from : List ℕ) (seq : ℕ) → has_taken result from seq ≡ false }
    {
        Intake {
            inbox: Inbox::new(alloc),
            refused: IndexSet::new(alloc),
        }
    }

    // Takes a number of a sender, from 1, and answers whether it is taken for the first time.
    #[inline(always)]
    pub(crate) fn enter(&mut self, from: Name, seq: u32) -> Result<bool, NoMemory>
        requires { 1 ≤ seq }
        ensures first { IfOk result (λ first. first ≡ not (has_taken self.old from seq)) }
        ensures after { OnOk result ((x : List ℕ) (k : ℕ) →
            has_taken self.new x k ≡ (has_taken self.old x k || is_same from seq x k)) }
    {
        if self.inbox.arrived(from, seq)? {
            return Ok(true);
        }
        Ok(self.refused.swap_remove(&(from, seq)))
    }

    // Gives a number of a sender back: its frame was refused.
    pub(crate) fn give_back(&mut self, from: Name, seq: u32) -> Result<(), NoMemory>
        requires { has_taken self.old from seq ≡ true }
        ensures { OnOk result ((x : List ℕ) (k : ℕ) →
            has_taken self.new x k ≡ (has_taken self.old x k && not (is_same from seq x k))) }
    {
        let _ = self.refused.insert((from, seq))?;
        Ok(())
    }
}
