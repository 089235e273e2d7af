ghost use Rattle.std.specs.Prelude.{◌≡◌, ◌<◌, [], ◌∷◌, ◌++◌, length, None, Ok, IfOk, false, is_some};
ghost use Rattle.tap_lawful.specs.Due.{number_due};
ghost use Rattle.tap_log.specs.declared.record.Record.TheVariants.{Finished};
ghost use Rattle.tap_log.specs.Reduced.{reduced};
ghost use Rattle.tap_ledger.specs.Woven.{RemarksWithin};
ghost use Rattle.tap_engine.specs.World.{HasBegun, whole_log};
ghost use Rattle.tap_lawful.specs.Next.{beginning_in, uncarried_next_group};
ghost use Rattle.tap_lawful.specs.PlayedLaws.{left_of};
ghost use Rattle.tap_replay.specs.Player.{EndsRun, GoesOnUnless, IsLeft, TurnsAs, end_of, over_by};
ghost use Rattle.tap_replay.specs.Run.{AddsNext, IsRunOf};
ghost use Rattle.tap_replay.specs.Turn.{turn_outcome};

use crate::choice::Choice;
use crate::end::{End, Turned};
use crate::steps::run_step;
use std::alloc::Global;
use tap_root_sets::root_set;
use tap_scenario::{Scenario, Step};
use tap_world::{NoMemory, Stop, World};

// What a player works on: the world, how many steps were begun, and what the last one has chosen. Roots take memory of the allocator.
#[derive(Drop)]
pub(crate) struct Run {
    pub(crate) alloc: Global,
    pub(crate) world: World,
    pub(crate) begun: u32,
    pub(crate) choice: Choice,
}

impl Run {
    // A run that isn't carried, before its first group.
    pub(crate) fn new(alloc: Global, scenario: &Scenario) -> Result<Run, NoMemory>
        requires { scenario.now.carrier ≡ false }
        ensures run { IfOk result (IsRunOf scenario.now) }
        ensures begun { IfOk result (λ run. HasBegun (beginning_in scenario.now) run.world) }
    {
        let world = World::new(
            alloc,
            &scenario.settings(),
            scenario.frames(),
            scenario.members(),
        )?;
        Ok(Run {
            alloc,
            world,
            begun: 0,
            choice: Choice::Nothing,
        })
    }

    // Adds the group that comes next, and if none comes after it, that all steps were run.
    pub(crate) fn turn(&mut self, scenario: &Scenario) -> Turned
        requires run { IsRunOf scenario.now self.old }
        requires uncarried { scenario.now.carrier ≡ false }
        ensures turns { TurnsAs (turn_outcome scenario.now (whole_log self.old.world)) (whole_log self.old.world) result (whole_log self.new.world) }
        ensures run { GoesOnUnless (over_by result) scenario.now self.new }
        ensures less { result ≡ Turned.More →
            left_of scenario.now (reduced (whole_log self.new.world)) < left_of scenario.now (reduced (whole_log self.old.world)) }
    {
        match self.add_next(scenario) {
            Ok(()) => {
                if self.is_more(scenario) {
                    return Turned::More;
                }
                Turned::Over(end_of(self.finish(scenario)))
            }
            Err(stop) => Turned::Over(end_of(Err(stop))),
        }
    }

    // Adds the group that comes next, if one does.
    fn add_next(&mut self, scenario: &Scenario) -> Result<(), Stop>
        requires run { IsRunOf scenario.now self.old }
        requires uncarried { scenario.now.carrier ≡ false }
        ensures { AddsNext scenario.now self.old result self.new }
    {
        // No effect at run time. The proof reads from this call where remarks stand in the log.
        let _ = self.world.log();
        match self.choice.take(self.world.outstanding()) {
            Some(place) => self.world.deliver(place),
            None => self.add_step(scenario),
        }
    }

    // Adds the group of the next step, if one is left.
    fn add_step(&mut self, scenario: &Scenario) -> Result<(), Stop>
        requires run { IsRunOf scenario.now self.old }
        requires uncarried { scenario.now.carrier ≡ false }
        requires within { RemarksWithin self.old.world.log self.old.world.added }
        requires none { number_due self.old.world.log ≡ None }
        ensures { AddsNext scenario.now self.old result self.new }
    {
        let place = self.begun as usize;
        if place >= scenario.step_count() {
            return Ok(());
        }
        let step = scenario.step_at(place);
        self.begun += 1;
        self.choice = Choice::of(&step);
        if let Step::RootSet { object, asker } = &step {
            return root_set(
                self.alloc,
                &mut self.world,
                &scenario.settings(),
                self.begun,
                *object,
                *asker,
            );
        }
        run_step(&mut self.world, self.begun, &step)
    }

    // Whether a group comes next.
    fn is_more(&self, scenario: &Scenario) -> bool
        requires { IsRunOf scenario.now self.now }
        ensures { result ≡ is_some (uncarried_next_group scenario.now (whole_log self.now.world)) }
    {
        if self.choice.is_due(self.world.outstanding()) {
            return true;
        }
        (self.begun as usize) < scenario.step_count()
    }

    // Says that all steps were run.
    fn finish(&mut self, scenario: &Scenario) -> Result<(), Stop>
        requires run { IsRunOf scenario.now self.old }
        requires none { uncarried_next_group scenario.now (whole_log self.old.world) ≡ None }
        ensures answer { result ≡ Ok tt }
        ensures log { whole_log self.new.world ≡ whole_log self.old.world ++ Finished (length scenario.now.steps) ∷ [] }
        ensures left { IsLeft scenario.now End.Done self.new.world }
    {
        // No effect at run time. The proof reads from this call where remarks stand in the log.
        let _ = self.world.log();
        self.world.finish(self.begun)
    }
}

// How a run has ended, by the last answer of its world.
pub(crate) fn end_of(answer: Result<(), Stop>) -> End
    requires { EndsRun answer }
    ensures { result ≡ end_of answer }
{
    match answer {
        Ok(()) => End::Done,
        Err(Stop::Spent) => End::Spent,
        Err(Stop::NoMemory) => End::NoMemory,
        Err(Stop::Refused(_) | Stop::Ended) => unreachable!(),
    }
}
