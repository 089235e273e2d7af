ghost use Rattle.std.specs.Prelude.{◌≡◌, false};
ghost use Rattle.tap_engine.specs.Outcome.{MayGoOn};
ghost use Rattle.tap_carried_world.specs.Adds.{AddsNext};
ghost use Rattle.tap_carried_world.specs.Comes.{ArrivesNext};
ghost use Rattle.tap_carried_world.specs.Taking.{CanTake, IsToTake, TakesFrame};
ghost use Rattle.tap_carried_world.specs.Value.{CarriesRun};

use crate::carried::CarriedWorld;
use tap_scenario::Scenario;
use tap_world::Stop;

// The packets that arrive.
impl CarriedWorld {
    /// The packet at a place, from 0 for the one that was made first, arrives. Its group is added: that it arrives; if it carries a frame that
    /// its receiver hasn't taken, that this is taken, what comes of it, and a data packet for each frame that is sent; and if it carries a
    /// frame, the packet that acknowledges it.
    ///
    /// `Spent` comes exactly if more frames would then have been sent in all than may be: that the packet arrives is added alone, and then
    /// `Spent`. `NoMemory` may leave some first records of the group. No other refusal comes.
    ///
    /// Condition: the world runs this scenario, and the packet at this place is due.
    ///
    /// Rule: docs/FORMATS.md, "What comes next".
    pub fn arrive(&mut self, scenario: &Scenario, place: u32) -> Result<(), Stop>
        requires carries { CarriesRun scenario.now self.old.world self.old.carrier }
        requires next { ArrivesNext self.old.world place }
        ensures { AddsNext scenario.now self.old.world result self.new.world self.new.carrier }
    {
        // No effect at run time. The proof reads from this call that the log of plain records is the reduced one.
        let _ = self.world.log();
        let packet = self.carrier.arrive(&mut self.world, place)?;
        if packet.ack {
            self.carrier.acked(&packet);
            return Ok(());
        }
        if !self.carrier.is_new(&packet)? {
            return self.carrier.acknowledge(&mut self.world, &packet);
        }
        self.take(scenario, packet.frame)?;
        self.carrier.acknowledge(&mut self.world, &packet)
    }

    // An outstanding frame is taken, and a data packet is made for each frame that its receiver sends.
    fn take(&mut self, scenario: &Scenario, frame: u32) -> Result<(), Stop>
        requires goes_on { MayGoOn self.old.world }
        requires runs { self.old.world.stopped ≡ false }
        requires take { IsToTake scenario.now self.old.world frame self.old.carrier }
        requires carry { CanTake scenario.now self.old.world frame }
        ensures { TakesFrame scenario.now frame self.old.world result self.new.world self.new.carrier }
    {
        let from = self.world.log().len();
        self.world.deliver_number(frame)?;
        self.carrier
            .carry_since(&mut self.world, &scenario.settings(), from)
    }
}
