ghost use Rattle.tap_scenario.specs.declared.step.Step.TheVariants.{RootSet};
ghost use Rattle.tap_carried_world.specs.Adds.{AddsNext};
ghost use Rattle.tap_carried_world.specs.Comes.{BeginsNext};
ghost use Rattle.tap_carried_world.specs.Value.{CarriesRun};

use crate::carried::CarriedWorld;
use std::alloc::Global;
use tap_name::Name;
use tap_root_sets::root_set;
use tap_scenario::{Scenario, Step};
use tap_world::Stop;

// The steps that ask for roots.
impl CarriedWorld {
    /// A step asks for the roots of the four salts of an object. Its group is added: the step, and the roots or its refusal.
    ///
    /// It is refused exactly if the asker isn't there, or else if it still joins; one that departs is core. `NoMemory` adds nothing. No other
    /// refusal comes.
    ///
    /// Condition: the world runs this scenario, nothing is due, and this step, of this index, begins next.
    ///
    /// Rule: docs/PROTOCOL.md, "Salted names".
    pub fn root_set(
        &mut self,
        alloc: Global,
        scenario: &Scenario,
        index: u32,
        object: Name,
        asker: Name,
    ) -> Result<(), Stop>
        requires carries { CarriesRun scenario.now self.old.world self.old.carrier }
        requires next { BeginsNext scenario.now self.old.world index (RootSet object asker) }
        ensures { AddsNext scenario.now self.old.world result self.new.world self.new.carrier }
    {
        // No effect at run time. The proof reads from this call that the log of plain records is the reduced one.
        let _ = self.world.log();
        self.carrier.begin(&Step::RootSet { object, asker });
        root_set(
            alloc,
            &mut self.world,
            &scenario.settings(),
            index,
            object,
            asker,
        )
    }
}
