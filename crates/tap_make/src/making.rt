ghost use Rattle.std.specs.Prelude.{◌≡◌, ◌≤◌, length, IfOk};
ghost use Rattle.tap_make.specs.Made.{made};
ghost use Rattle.tap_make.specs.MadeNames.{HasMadeNames};
ghost use Rattle.tap_make.specs.MadeSteps.{made_steps, publications_from};

use crate::draws::Draws;
use crate::names::Names;
use crate::steps::{add_departures, add_lookups, add_publications};
use crate::waves::add_waves;
use std::alloc::Global;
use tap_name::{List, Settings};
use tap_scenario::{NoMemory, Scenario, Step};

// The steps of a made scenario.
fn make_steps(
    alloc: Global,
    names: &Names,
    draws: &mut Draws,
    seed: u64,
) -> Result<List<Step>, NoMemory>
    requires joins { length names.now.newcomers ≤ 100 }
    requires seed { draws.old.seed ≡ seed }
    requires names { HasMadeNames (length names.now.newcomers) seed names.now }
    requires place { draws.old.place ≡ publications_from (length names.now.newcomers) }
    ensures { IfOk result (λ steps. steps ≡ made_steps (length names.now.newcomers) seed) }
{
    let mut steps = List::new(alloc);
    add_publications(names, draws, &mut steps)?;
    steps.push(Step::Settle)?;
    add_waves(names, draws, &mut steps)?;
    add_lookups(names, draws, &mut steps)?;
    add_departures(names, &mut steps, seed)?;
    Ok(steps)
}

/// The scenario that is made for so many joins from a seed. `NoMemory` if memory was refused.
///
/// It has 28 members, names of eight hexadecimal digits, slots of width 2, and at most 500,000 frames, and it isn't
/// carried. One mixer with the seed gives all numbers. 20 objects are published, the newcomers join in waves of four with
/// five walks after each, there are 30 lookups, and the first two newcomers leave.
///
/// Condition: 1 to 100 joins.
///
/// Rule: docs/FORMATS.md, "Made scenarios".
pub fn make(alloc: Global, joins: u32, seed: u64) -> Result<Scenario, NoMemory>
    requires from { 1 ≤ joins }
    requires to { joins ≤ 100 }
    ensures { IfOk result (λ scenario. scenario ≡ made joins seed) }
{
    let settings = Settings::new(16, 8, 2).unwrap();
    let mut draws = Draws::new(seed);
    let names = Names::draw(alloc, &settings, &mut draws, joins as u8)?;
    let steps = make_steps(alloc, &names, &mut draws, seed)?;
    let Names { members, .. } = names;
    Ok(Scenario::from_lists(&settings, 500_000, false, members, steps))
}
