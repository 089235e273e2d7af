ghost use Rattle.std.specs.Prelude.{◌≡◌, ◌≤◌, true, IfSome, is_some, None};
ghost use Rattle.tap_lawful.specs.Due.{Chosen, place_by};
ghost use Rattle.tap_replay.specs.Choice.{IsChoiceOf, begun_by, one_more_taken};

use tap_make::Mixer;
use tap_scenario::Step;

// What the last step has chosen of the frames that are taken next; in a carried run of the packets that arrive next, which stand below for
// frames.
#[derive(Drop)]
pub(crate) enum Choice {
    // Nothing, or nothing more.
    Nothing,
    // The frame at a place.
    Place(u32),
    // The frame that was sent first, until none is outstanding.
    Oldest,
    // The frame that was sent last, until none is outstanding.
    Newest,
    // A frame at a place that a mixer draws, until none is outstanding.
    Mixed(Mixer),
}

impl Choice {
    // What a step chooses.
    #[tactic(auto, unfolding(tap_lawful::specs::Due::place_chosen))]
    pub(crate) fn of(step: &Step) -> Choice
        ensures { IsChoiceOf (begun_by step.now) result }
    {
        match step {
            Step::Deliver { place } => Choice::Place(*place),
            Step::Settle => Choice::Oldest,
            Step::SettleNewest => Choice::Newest,
            Step::SettleMixed { seed } => Choice::Mixed(Mixer::new(*seed)),
            _ => Choice::Nothing,
        }
    }

    // Whether a frame is taken next, if so many are outstanding.
    pub(crate) fn is_due(&self, count: u32) -> bool
        ensures due { (chosen : Chosen) → IsChoiceOf chosen self.now → result ≡ is_some (place_by chosen count) }
        ensures some { result ≡ true → 1 ≤ count }
    {
        match self {
            Choice::Nothing => false,
            Choice::Place(place) => *place < count,
            Choice::Oldest | Choice::Newest | Choice::Mixed(_) => count > 0,
        }
    }

    // The place of the frame that is taken next, if so many are outstanding. The choice is then what is chosen after that.
    pub(crate) fn take(&mut self, count: u32) -> Option<u32>
        ensures place { (chosen : Chosen) → IsChoiceOf chosen self.old → result ≡ place_by chosen count }
        ensures next { (chosen : Chosen) → IsChoiceOf chosen self.old → IfSome result (λ _. IsChoiceOf (one_more_taken chosen) self.new) }
        ensures same { result ≡ None → self.new ≡ self.old }
    {
        if !self.is_due(count) {
            return None;
        }
        match self {
            Choice::Nothing => None,
            Choice::Place(place) => {
                let place = *place;
                *self = Choice::Nothing;
                Some(place)
            }
            Choice::Oldest => Some(0),
            Choice::Newest => Some(count - 1),
            Choice::Mixed(mixer) => Some(mixer.next() % count),
        }
    }
}
