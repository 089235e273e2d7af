ghost use Rattle.std.specs.Prelude.{◌≡◌, ◌<◌, None, IfOk, false};
ghost use Rattle.tap_engine.specs.World.{HasBegun, whole_log};
ghost use Rattle.tap_carried.specs.LogTurns.{beginning_records};
ghost use Rattle.tap_lawful.specs.Next.{beginning_in};
ghost use Rattle.tap_replay.specs.Player.{over_by};
ghost use Rattle.tap_replay.specs.Runs.{RunsUnless, TurnsBy, world_of};
ghost use Rattle.tap_lawful.specs.RunLaws.{left_in};
ghost use Rattle.tap_scenario.specs.Scenario.{IsScript};

use crate::carried_run::CarriedRun;
use crate::end::Turned;
use crate::run::Run;
use std::alloc::Global;
use tap_scenario::Scenario;
use tap_world::{NoMemory, World};

// The run that a player works on.
#[derive(Drop)]
pub(crate) enum Running {
    // One that isn't carried.
    Plain(Run),
    // A carried one.
    Carried(CarriedRun),
}

impl Running {
    // The run of a scenario before its first group.
    pub(crate) fn new(alloc: Global, scenario: &Scenario) -> Result<Running, NoMemory>
        ensures run { IfOk result (RunsUnless None scenario.now) }
        ensures valid { IsScript scenario.now }
        ensures world { scenario.now.carrier ≡ false → IfOk result (λ running. HasBegun (beginning_in scenario.now) (world_of running)) }
        ensures log { IfOk result (λ running. whole_log (world_of running) ≡ beginning_records scenario.now.carrier (beginning_in scenario.now)) }
    {
        if scenario.carrier() {
            return Ok(Running::Carried(CarriedRun::new(alloc, scenario)?));
        }
        Ok(Running::Plain(Run::new(alloc, scenario)?))
    }

    // Adds the group that comes next, and if none comes after it, that all steps were run.
    pub(crate) fn turn(&mut self, scenario: &Scenario) -> Turned
        requires { RunsUnless None scenario.now self.old }
        ensures turns { TurnsBy scenario.now.carrier scenario.now (whole_log (world_of self.old)) result (whole_log (world_of self.new)) }
        ensures run { RunsUnless (over_by result) scenario.now self.new }
        ensures less { result ≡ Turned.More → left_in scenario.now (whole_log (world_of self.new)) < left_in scenario.now (whole_log (world_of self.old)) }
    {
        match self {
            Running::Plain(run) => run.turn(scenario),
            Running::Carried(run) => run.turn(scenario),
        }
    }

    // The world of the run.
    pub(crate) fn world(&self) -> &World
        ensures { result.now ≡ world_of self.now }
    {
        match self {
            Running::Plain(run) => &run.world,
            Running::Carried(run) => run.carried.world(),
        }
    }

    // Hands on the world of the run.
    pub(crate) fn into_world(self) -> World
        ensures { result ≡ world_of self }
    {
        match self {
            Running::Plain(run) => {
                let Run { world, .. } = run;
                world
            }
            Running::Carried(run) => {
                let CarriedRun { carried, .. } = run;
                carried.into_world()
            }
        }
    }
}
