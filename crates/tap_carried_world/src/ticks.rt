ghost use Rattle.tap_carried_world.specs.Adds.{AddsNext};
ghost use Rattle.tap_carried_world.specs.Comes.{TicksNext};
ghost use Rattle.tap_carried_world.specs.Value.{CarriesRun};

use crate::carried::CarriedWorld;
use tap_scenario::Scenario;
use tap_world::Stop;

// The ticks.
impl CarriedWorld {
    /// A tick: each frame that awaits its acknowledgement is sent once more. Its group is added: that it ticks, and a data packet for each of
    /// these frames, ascending.
    ///
    /// `NoMemory` may leave some first records of the group. No other refusal comes.
    ///
    /// Condition: the world runs this scenario, and a tick is due.
    ///
    /// Rule: docs/FORMATS.md, "What comes next".
    pub fn tick(&mut self, scenario: &Scenario) -> Result<(), Stop>
        requires carries { CarriesRun scenario.now self.old.world self.old.carrier }
        requires next { TicksNext self.old.world }
        ensures { AddsNext scenario.now self.old.world result self.new.world self.new.carrier }
    {
        // No effect at run time. The proof reads from this call that the log of plain records is the reduced one.
        let _ = self.world.log();
        self.carrier.tick(&mut self.world)
    }
}
