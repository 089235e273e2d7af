ghost use Rattle.std.specs.Prelude.{◌≡◌, ◌≤◌, IfOk, IfErr};
ghost use Rattle.tap_make.specs.Made.{made};
ghost use Rattle.tap_scenario.specs.Scenario.{IsScript};
ghost use Rattle.tap_top.specs.Wanted.{AsksWithin, IsNotHad, IsWanted, mode_of};

use crate::reading::read_scenario;
use crate::status::Status;
use std::alloc::Global;
use tap_io::Source;
use tap_make::{NoMemory, make};
use tap_report::Mode;
use tap_scenario::Scenario;
use tap_words::Asked;

// What is printed of the log.
pub(crate) fn mode_of(asked: &Asked) -> Mode
    ensures { result ≡ mode_of asked.now }
{
    match (asked.make, asked.brief) {
        (Some(_), _) => Mode::Summary,
        (None, true) => Mode::Brief,
        (None, false) => Mode::Long,
    }
}

// The scenario that is to be run, or why there is none: that which is made, and else that of the source.
pub(crate) fn wanted_scenario<S: Source>(
    alloc: Global,
    asked: &Asked,
    source: &mut S,
) -> Result<Scenario, Status>
    requires joins { AsksWithin asked.now }
    ensures wanted { IfOk result (IsWanted asked.now (S.state source.old) (S.state source.new)) }
    ensures valid { IfOk result IsScript }
    ensures cause { IfErr result (IsNotHad asked.now (S.state source.old) (S.state source.new)) }
{
    match asked.make {
        Some(joins) => make_scenario(alloc, joins, asked.seed),
        None => read_scenario(alloc, source),
    }
}

// The scenario that is made for so many joins from a seed.
fn make_scenario(alloc: Global, joins: u32, seed: u64) -> Result<Scenario, Status>
    requires from { 1 ≤ joins }
    requires to { joins ≤ 100 }
    ensures made { IfOk result (λ script. script ≡ made joins seed) }
    ensures valid { IfOk result IsScript }
    ensures cause { IfErr result (λ status. status ≡ Status.NoMemory) }
{
    match make(alloc, joins, seed) {
        Ok(scenario) => Ok(scenario),
        Err(NoMemory) => Err(Status::NoMemory),
    }
}
