ghost use Rattle.std.specs.Prelude.{◌≡◌, true, false, length, None, Ok, IfOk, IsTrue};
ghost use Rattle.tap_carried.specs.LogTurns.{beginning_records};
ghost use Rattle.tap_engine.specs.World.{HasNodesOfLog, whole_log};
ghost use Rattle.tap_history.specs.Refusals.{first_refusal};
ghost use Rattle.tap_lawful.specs.CarriedNext.{carried_next_group};
ghost use Rattle.tap_lawful.specs.CarriedRuns.{IsCarriedFinished};
ghost use Rattle.tap_lawful.specs.Next.{begun_count, beginning_in};
ghost use Rattle.tap_runs.specs.Course.{is_choice};
ghost use Rattle.tap_scenario.specs.Step.{asks_no_roots};
ghost use Rattle.tap_carried_world.specs.Adds.{IsLeft};
ghost use Rattle.tap_lawful.specs.CarriedDue.{is_stranded};
ghost use Rattle.tap_packets.specs.Packets.{lines_under_way};
ghost use Rattle.tap_scenario.specs.Scenario.{ScenarioValue};
ghost use Rattle.tap_carried_world.specs.Value.{CarriesRun};

use std::alloc::Global;
use std::marker::Model;
use tap_carrier::Carrier;
use tap_log::Refusal;
use tap_scenario::{Scenario, Step};
use tap_world::{NoMemory, Stop, World};

/// The world of a carried run, with the carrier of its frames. Each call adds the group that comes next.
///
/// Contracts see the world, whose whole log tells all, and the carrier.
///
/// Want of memory may leave the carrier ahead of the log. No call is made after one that wasn't answered `Ok`.
///
/// Rule: docs/PROTOCOL.md, "Packets".
#[derive(Drop)]
pub struct CarriedWorld {
    pub(crate) world: World,
    pub(crate) carrier: Carrier,
}

impl Model for CarriedWorld {
    ghost use Rattle.tap_carried_world.specs.Value.{CarriedValue};

    ghost Value = { CarriedValue };

    ghost view = { λ c. record { world = c.world; carrier = c.carrier } };
}

impl CarriedWorld {
    /// The world at the beginning of a carried run: the members are core nodes at rest, and the log has `Begin` and `Carrier` alone. Later
    /// calls take memory of `alloc`. `NoMemory` only if memory was refused.
    ///
    /// Condition: the scenario is carried.
    ///
    /// Rule: docs/FORMATS.md, "Groups and moments".
    pub fn new(alloc: Global, scenario: &Scenario) -> Result<CarriedWorld, NoMemory>
        requires carried { scenario.now.carrier ≡ true }
        ensures begins { IfOk result (λ carried. CarriesRun scenario.now carried.world carried.carrier) }
        ensures log { IfOk result (λ carried. whole_log carried.world ≡ beginning_records true (beginning_in scenario.now)) }
    {
        let mut world = World::new(
            alloc,
            &scenario.settings(),
            scenario.frames(),
            scenario.members(),
        )?;
        match Carrier::new(alloc, &mut world) {
            Ok(carrier) => Ok(CarriedWorld { world, carrier }),
            Err(Stop::NoMemory) => Err(NoMemory),
            Err(Stop::Refused(_) | Stop::Spent | Stop::Ended) => unreachable!(),
        }
    }

    /// How many packets are under way.
    ///
    /// Rule: docs/FORMATS.md, "Groups and moments".
    pub fn under_way(&self) -> u32
        ensures { (s : ScenarioValue) → CarriesRun s self.now.world self.now.carrier →
            result ≡ length (lines_under_way (whole_log self.now.world)) }
    {
        self.carrier.under_way()
    }

    /// Whether no packet is under way and a frame awaits its acknowledgement: a settle ticks then.
    ///
    /// Rule: docs/FORMATS.md, "What comes next".
    pub fn is_stranded(&self) -> bool
        ensures { (s : ScenarioValue) → CarriesRun s self.now.world self.now.carrier → result ≡ is_stranded (whole_log self.now.world) }
    {
        self.carrier.under_way() == 0 && self.carrier.awaiting() > 0
    }

    /// Why a choice would be refused, if it would.
    ///
    /// Condition: the step is a choice, and asks for no roots.
    ///
    /// Rule: docs/FORMATS.md, "Refusals".
    pub fn refusal(&self, step: &Step) -> Option<Refusal>
        requires choice { is_choice step.now ≡ true }
        requires played { IsTrue (asks_no_roots step.now) }
        ensures { (s : ScenarioValue) → CarriesRun s self.now.world self.now.carrier →
            result ≡ first_refusal (whole_log self.now.world) step.now }
    {
        self.carrier.refusal(step)
    }

    /// The world.
    pub fn world(&self) -> &World
        ensures { result.now ≡ self.now.world }
    {
        &self.world
    }

    /// Hands on the world.
    pub fn into_world(self) -> World
        ensures { result ≡ self.world }
    {
        let CarriedWorld { world, .. } = self;
        world
    }

    /// All steps were run: `Finished` is added, and says how many. It takes no memory, and no refusal comes.
    ///
    /// Condition: the world runs this scenario, no group comes next, and so many steps were begun.
    ///
    /// Rule: docs/FORMATS.md, "The ways a run ends".
    pub fn finish(&mut self, scenario: &Scenario, steps: u32) -> Result<(), Stop>
        requires carries { CarriesRun scenario.now self.old.world self.old.carrier }
        requires none { carried_next_group scenario.now (whole_log self.old.world) ≡ None }
        requires count { steps ≡ begun_count (whole_log self.old.world) }
        ensures answer { result ≡ Ok tt }
        ensures log { IsCarriedFinished scenario.now (whole_log self.old.world) (whole_log self.new.world) }
        ensures left { IsLeft self.old.world self.new.world }
        ensures runs { self.new.world.stopped ≡ false }
        ensures nodes { HasNodesOfLog self.new.world }
    {
        // No effect at run time. The proof reads from this call that the log of plain records is the reduced one.
        let _ = self.world.log();
        self.world.finish(steps)
    }
}
