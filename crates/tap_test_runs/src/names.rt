// Settings, names and steps of texts.
ghost use Rattle.tap_name.specs.Name.{IsName};
ghost use Rattle.tap_name.specs.Settings.{AreWithinLimits};
ghost use Rattle.tap_scenario.specs.Step.{IsStep};
ghost use Rattle.std.specs.Prelude.{false};

use std::process::Abort;
use tap_name::{Name, Settings, read_name};
use tap_scenario::{Step, read_step};

// The settings of names with so many digits in this base, in tables of this width.
pub(crate) fn settings_of(rt: &impl Abort, base: u8, digits: u8, width: u8) -> Settings
    ensures { AreWithinLimits result }
{
    Settings::new(base, digits, width).expect(rt, "settings")
}

// The name of a text.
pub(crate) fn name_of(rt: &impl Abort, settings: &Settings, text: &str) -> Name
    ensures { IsName settings.now result }
{
    read_name(settings, text.as_bytes()).expect(rt, "a name")
}

// The step of a text, in a scenario that isn't carried.
pub(crate) fn step_of(rt: &impl Abort, settings: &Settings, text: &str) -> Step
    ensures { IsStep settings.now false result }
{
    read_step(settings, false, text.as_bytes()).expect(rt, "a step")
}
