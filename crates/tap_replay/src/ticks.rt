ghost use Rattle.std.specs.Prelude.{◌≡◌, false};
ghost use Rattle.tap_replay.specs.Ticks.{AreTicksOf, due_by_ticks, ticks_left};

use tap_scenario::Step;

// Which ticks the last step has chosen, at which all that awaits is sent once more.
#[derive(Clone, Copy)]
pub(crate) enum Ticks {
    // None, or none more.
    Never,
    // One.
    Once,
    // One whenever no packet is under way and a frame awaits its acknowledgement.
    WhileStranded,
}

impl Ticks {
    // The ticks of a step that has just begun.
    #[tactic(auto, unfolding(tap_lawful::specs::CarriedDue::tick_chosen))]
    pub(crate) fn of(step: &Step) -> Ticks
        ensures { AreTicksOf step.now 0 result }
    {
        match step {
            Step::Tick => Ticks::Once,
            Step::Settle | Step::SettleNewest | Step::SettleMixed { .. } => Ticks::WhileStranded,
            _ => Ticks::Never,
        }
    }

    // Whether a tick comes next, by whether frames are stranded.
    pub(crate) fn is_due(self, stranded: bool) -> bool
        ensures { result ≡ due_by_ticks self stranded }
    {
        match self {
            Ticks::Never => false,
            Ticks::Once => true,
            Ticks::WhileStranded => stranded,
        }
    }

    // What is chosen after a tick.
    pub(crate) fn after_one(self) -> Ticks
        ensures { result ≡ ticks_left self }
    {
        match self {
            Ticks::Never | Ticks::Once => Ticks::Never,
            Ticks::WhileStranded => Ticks::WhileStranded,
        }
    }
}
