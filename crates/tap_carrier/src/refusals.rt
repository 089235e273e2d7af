ghost use Rattle.std.specs.Prelude.{◌≡◌, ◌+◌, true, nat_le, nat_lt, length, List, IsTrue};
ghost use Rattle.tap_name.specs.Settings.{SettingsValue};
ghost use Rattle.tap_log.specs.declared.record.Record.{Record};
ghost use Rattle.tap_log.specs.declared.record.Refusal.TheVariants.{NoSuchFlight, TooManyPackets};
ghost use Rattle.tap_log.specs.Kinds.{is_carried};
ghost use Rattle.tap_history.specs.Refusals.{first_refusal, refused_if};
ghost use Rattle.tap_runs.specs.Course.{is_choice};
ghost use Rattle.tap_scenario.specs.Step.{asks_no_roots};
ghost use Rattle.tap_carrier.specs.Kept.{KeepsLog};

use crate::carrier::Carrier;
use tap_log::Refusal;
use tap_scenario::Step;

// How many packets steps may make once more.
const MOST_RESENT: u32 = 100_000;

impl Carrier {
    /// Why a choice is refused, if it is: no packet is at its place; or else it would make too many packets once more.
    ///
    /// Condition: the step is a choice.
    ///
    /// Rule: docs/FORMATS.md, "Refusals".
    #[tactic(auto, unfolding(tap_runs::specs::Course::is_choice, tap_history::specs::StepAsks::flight_place))]
    pub fn refusal(&self, step: &Step) -> Option<Refusal>
        requires choice { is_choice step.now ≡ true }
        requires played { IsTrue (asks_no_roots step.now) }
        ensures { (p : SettingsValue) (log : List Record) → KeepsLog p log self.now → is_carried log ≡ true →
            result ≡ first_refusal log step.now }
    {
        match step {
            Step::Deliver { place } | Step::Lose { place } => self.refuses_place(*place),
            Step::Repeat { place } => match self.refuses_place(*place) {
                None => self.refuses_more(1),
                refusal => refusal,
            },
            Step::Tick => self.refuses_more(self.boxes.awaiting()),
            _ => None,
        }
    }

    // The refusal of a place at which no packet is.
    fn refuses_place(&self, place: u32) -> Option<Refusal>
        ensures { result ≡ refused_if (nat_le (length self.now.boxes.net.packets) place) (NoSuchFlight (length self.now.boxes.net.packets)) }
    {
        let count = self.boxes.under_way();
        if place < count {
            return None;
        }
        Some(Refusal::NoSuchFlight(count))
    }

    // The refusal of so many more packets that would be made once more.
    fn refuses_more(&self, more: u32) -> Option<Refusal>
        ensures { result ≡ refused_if (nat_lt 100000 (self.now.resent + more)) (TooManyPackets self.now.resent) }
    {
        if u64::from(self.resent) + u64::from(more) <= u64::from(MOST_RESENT) {
            return None;
        }
        Some(Refusal::TooManyPackets(self.resent))
    }
}
