ghost use Rattle.std.specs.Prelude.{false, IsTrue, Some};
ghost use Rattle.tap_scenario.specs.Step.{IsStep, asks_no_roots};
ghost use Rattle.tap_engine.specs.Outcome.{IsNextIndex, MayGoOn, WorldAnswersAs, step_outcome};
ghost use Rattle.tap_replay.specs.StepCalls.{IsCallOf, MayRun, run_outcome};

use tap_log::Refusal;
use tap_scenario::Step;
use tap_world::{Stop, World};

// Which call of a world adds the group of a step that chooses nothing.
#[derive(Clone, Copy)]
pub(crate) enum Call {
    Start,
    Observe,
    Garble,
}

// The call that adds the group of a step, `None` if the step only chooses what is taken next.
#[tactic(auto, unfolding(tap_runs::specs::Course::is_choice, tap_engine::specs::Kinds::observes, tap_engine::specs::Kinds::damages, tap_history::specs::StepAsks::actor_of))]
pub(crate) fn call_of(step: &Step) -> Option<Call>
    ensures { IsCallOf step.now result }
{
    match step {
        Step::Join { .. }
        | Step::Depart { .. }
        | Step::Publish { .. }
        | Step::Withdraw { .. }
        | Step::Find { .. }
        | Step::Abandon { .. }
        | Step::Cast { .. } => Some(Call::Start),
        Step::Walk { .. } | Step::Root { .. } | Step::Table { .. } | Step::Pointers { .. } => {
            Some(Call::Observe)
        }
        Step::Garble { .. } | Step::Cut { .. } => Some(Call::Garble),
        _ => None,
    }
}

// Adds the group of a step, or the step alone if it is refused.
fn try_step(world: &mut World, index: u32, step: &Step, call: Call) -> Result<(), Stop>
    requires goes_on { MayGoOn world.old }
    requires next { IsNextIndex world.old index }
    requires call { IsCallOf step.now (Some call) }
    requires names { IsStep world.old.beginning.settings false step.now }
    ensures { WorldAnswersAs (step_outcome world.old index step.now) world.old result world.new }
{
    match call {
        Call::Start => world.start(index, step),
        Call::Observe => world.observe(index, step),
        Call::Garble => world.garble(index, step),
    }
}

// Adds the step of a `deliver`, and its refusal if no frame is at its place.
fn choose_place(world: &mut World, index: u32, place: u32) -> Result<(), Stop>
    requires may { MayRun world.old }
    requires next { IsNextIndex world.old index }
    ensures { WorldAnswersAs (run_outcome world.old index (Step.Deliver place)) world.old result world.new }
{
    world.mark(index, &Step::Deliver { place })?;
    let count = world.outstanding();
    if place < count {
        return Ok(());
    }
    world.note(index, Refusal::NoSuchFlight(count))
}

// Adds the group of a step that isn't a root set. Of one that chooses what is taken next that is the step alone, or with its refusal.
pub(crate) fn run_step(world: &mut World, index: u32, step: &Step) -> Result<(), Stop>
    requires may { MayRun world.old }
    requires next { IsNextIndex world.old index }
    requires played { IsTrue (asks_no_roots step.now) }
    requires names { IsStep world.old.beginning.settings false step.now }
    ensures { WorldAnswersAs (run_outcome world.old index step.now) world.old result world.new }
{
    if let Step::Deliver { place } = step {
        return choose_place(world, index, *place);
    }
    let Some(call) = call_of(step) else {
        return world.mark(index, step);
    };
    match try_step(world, index, step, call) {
        Err(Stop::Refused(refusal)) => world.note(index, refusal),
        answer => answer,
    }
}
