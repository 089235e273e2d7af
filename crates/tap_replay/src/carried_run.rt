ghost use Rattle.std.specs.Prelude.{◌≡◌, ◌<◌, None, Ok, IfOk, IsTrue, is_some, true};
ghost use Rattle.tap_carried.specs.LogTurns.{beginning_records};
ghost use Rattle.tap_carried_world.specs.Comes.{BeginsNext};
ghost use Rattle.tap_carried_world.specs.Value.{CarriesRun};
ghost use Rattle.tap_lawful.specs.Next.{beginning_in, begun_count};
ghost use Rattle.tap_scenario.specs.Step.{asks_no_roots};
ghost use Rattle.tap_engine.specs.World.{whole_log};
ghost use Rattle.tap_lawful.specs.CarriedDue.{carried_due};
ghost use Rattle.tap_lawful.specs.CarriedLaws.{measure_of};
ghost use Rattle.tap_lawful.specs.CarriedNext.{carried_next_group};
ghost use Rattle.tap_lawful.specs.CarriedRuns.{IsCarriedFinished};
ghost use Rattle.tap_replay.specs.CarriedPlayer.{CarriedTurnsAs, GoesOnCarriedUnless, IsCarriedLeft};
ghost use Rattle.tap_replay.specs.CarriedRun.{AddsCarried, IsCarriedRunOf};
ghost use Rattle.tap_replay.specs.Player.{over_by};
ghost use Rattle.tap_runs.specs.Course.{is_choice};

use crate::choice::Choice;
use crate::end::{End, Turned};
use crate::run::end_of;
use crate::steps::{Call, call_of};
use crate::ticks::Ticks;
use std::alloc::Global;
use tap_carried_world::CarriedWorld;
use tap_scenario::{Scenario, Step};
use tap_world::{NoMemory, Stop};

// What a player of a carried run works on: the world with its carrier, how many steps were begun, and what the last one has chosen of the
// packets that arrive next, and of ticks. Roots take memory of the allocator.
#[derive(Drop)]
pub(crate) struct CarriedRun {
    pub(crate) alloc: Global,
    pub(crate) carried: CarriedWorld,
    pub(crate) begun: u32,
    pub(crate) choice: Choice,
    pub(crate) ticks: Ticks,
}

impl CarriedRun {
    // A carried run before its first group.
    pub(crate) fn new(alloc: Global, scenario: &Scenario) -> Result<CarriedRun, NoMemory>
        requires { scenario.now.carrier ≡ true }
        ensures run { IfOk result (IsCarriedRunOf scenario.now) }
        ensures log { IfOk result (λ run. whole_log run.carried.world ≡ beginning_records true (beginning_in scenario.now)) }
    {
        let carried = CarriedWorld::new(alloc, scenario)?;
        Ok(CarriedRun {
            alloc,
            carried,
            begun: 0,
            choice: Choice::Nothing,
            ticks: Ticks::Never,
        })
    }

    // Adds the group that comes next, and if none comes after it, that all steps were run.
    pub(crate) fn turn(&mut self, scenario: &Scenario) -> Turned
        requires { IsCarriedRunOf scenario.now self.old }
        ensures turns { CarriedTurnsAs scenario.now (whole_log self.old.carried.world) result (whole_log self.new.carried.world) }
        ensures run { GoesOnCarriedUnless (over_by result) scenario.now self.new }
        ensures less { result ≡ Turned.More →
            measure_of scenario.now (whole_log self.new.carried.world) < measure_of scenario.now (whole_log self.old.carried.world) }
    {
        match self.add_next(scenario) {
            Ok(()) => {
                if self.is_more(scenario) {
                    return Turned::More;
                }
                Turned::Over(end_of(self.finish(scenario)))
            }
            Err(stop) => Turned::Over(end_of(Err(stop))),
        }
    }

    // Adds the group that comes next, if one does.
    fn add_next(&mut self, scenario: &Scenario) -> Result<(), Stop>
        requires { IsCarriedRunOf scenario.now self.old }
        ensures { AddsCarried scenario.now self.old result self.new }
    {
        if let Some(place) = self.choice.take(self.carried.under_way()) {
            return self.carried.arrive(scenario, place);
        }
        if self.ticks.is_due(self.carried.is_stranded()) {
            self.ticks = self.ticks.after_one();
            return self.carried.tick(scenario);
        }
        self.add_step(scenario)
    }

    // Adds the group of the next step, if one is left.
    fn add_step(&mut self, scenario: &Scenario) -> Result<(), Stop>
        requires run { IsCarriedRunOf scenario.now self.old }
        requires none { carried_due (whole_log self.old.carried.world) ≡ None }
        ensures { AddsCarried scenario.now self.old result self.new }
    {
        let place = self.begun as usize;
        if place >= scenario.step_count() {
            return Ok(());
        }
        let step = scenario.step_at(place);
        self.begun += 1;
        self.choice = Choice::Nothing;
        self.ticks = Ticks::Never;
        if let Step::RootSet { object, asker } = &step {
            return self
                .carried
                .root_set(self.alloc, scenario, self.begun, *object, *asker);
        }
        match call_of(&step) {
            Some(Call::Start) => self.carried.start(scenario, self.begun, &step),
            Some(Call::Observe) => self.carried.observe(scenario, self.begun, &step),
            Some(Call::Garble) => unreachable!(),
            None => self.choose(scenario, &step),
        }
    }

    // Adds the group of a step that chooses what happens to packets. If it isn't refused, what it has chosen comes next.
    fn choose(&mut self, scenario: &Scenario, step: &Step) -> Result<(), Stop>
        requires carries { CarriesRun scenario.now self.old.carried.world self.old.carried.carrier }
        requires next { BeginsNext scenario.now self.old.carried.world self.old.begun step.now }
        requires kind { is_choice step.now ≡ true }
        requires played { IsTrue (asks_no_roots step.now) }
        requires nothing { (self.old.choice ≡ Choice.Nothing) × (self.old.ticks ≡ Ticks.Never) }
        ensures { AddsCarried scenario.now (record self.old { begun = begun_count (whole_log self.old.carried.world) }) result self.new }
    {
        if self.carried.refusal(step).is_none() {
            self.choice = Choice::of(step);
            self.ticks = Ticks::of(step);
        }
        self.carried.choose(scenario, self.begun, step)
    }

    // Whether a group comes next.
    fn is_more(&self, scenario: &Scenario) -> bool
        requires { IsCarriedRunOf scenario.now self.now }
        ensures { result ≡ is_some (carried_next_group scenario.now (whole_log self.now.carried.world)) }
    {
        self.choice.is_due(self.carried.under_way())
            || self.ticks.is_due(self.carried.is_stranded())
            || (self.begun as usize) < scenario.step_count()
    }

    // Says that all steps were run.
    fn finish(&mut self, scenario: &Scenario) -> Result<(), Stop>
        requires run { IsCarriedRunOf scenario.now self.old }
        requires none { carried_next_group scenario.now (whole_log self.old.carried.world) ≡ None }
        ensures answer { result ≡ Ok tt }
        ensures log { IsCarriedFinished scenario.now (whole_log self.old.carried.world) (whole_log self.new.carried.world) }
        ensures left { IsCarriedLeft scenario.now End.Done self.new.carried.world }
    {
        self.carried.finish(scenario, self.begun)
    }
}
