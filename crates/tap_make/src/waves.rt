ghost use Rattle.std.specs.Prelude.{◌≡◌, ◌+◌, ◌*◌, ◌<◌, ◌≤◌, ◌++◌, length, map, OnOk};
ghost use Rattle.std.specs.List.{range_with_len};
ghost use Rattle.tap_scenario.specs.declared.step.Step.TheVariants.{Join};
ghost use Rattle.tap_make.specs.Draws.{further};
ghost use Rattle.tap_make.specs.MadeNames.{HasMadeNames, drawn_member, newcomer};
ghost use Rattle.tap_make.specs.MadeSteps.{drawn_walk, made_wave, made_waves, wave_count, wave_from, wave_size};

use crate::draws::Draws;
use crate::names::Names;
use tap_name::List;
use tap_scenario::{NoMemory, Step};

// How many newcomers a wave has, but for the last one.
const WAVE: usize = 4;

// How many walks follow a wave.
const WALKS: u32 = 5;

// Adds the joins of the newcomers from a first one on.
fn add_joins(
    names: &Names,
    first: usize,
    size: usize,
    draws: &mut Draws,
    steps: &mut List<Step>,
) -> Result<(), NoMemory>
    requires joins { length names.now.newcomers ≤ 100 }
    requires names { HasMadeNames (length names.now.newcomers) draws.old.seed names.now }
    requires within { first + size ≤ length names.now.newcomers }
    requires place { draws.old.place + size ≤ 1000 }
    ensures steps { OnOk result (steps.new ≡ steps.old
        ++ map (λ i. Join (newcomer draws.old.seed (first + i)) (drawn_member draws.old.seed (draws.old.place + i)))
        (range_with_len 0 size)) }
    ensures draws { OnOk result (draws.new ≡ further draws.old size) }
{
    for i in 0..size {
        steps.push(Step::Join {
            name: names.newcomers.at(first + i),
            via: names.draw_member(draws),
        })?;
    }
    Ok(())
}

// Adds the walks after a wave.
fn add_walks(names: &Names, draws: &mut Draws, steps: &mut List<Step>) -> Result<(), NoMemory>
    requires names { HasMadeNames (length names.now.newcomers) draws.old.seed names.now }
    requires place { draws.old.place + 10 ≤ 1000 }
    ensures steps { OnOk result (steps.new ≡ steps.old
        ++ map (λ i. drawn_walk (length names.now.newcomers) draws.old.seed (draws.old.place + 2 * i)) (range_with_len 0 5)) }
    ensures draws { OnOk result (draws.new ≡ further draws.old 10) }
{
    for _walk in 0..WALKS {
        let object = names.draw_object(draws);
        let asker = names.draw_member(draws);
        steps.push(Step::Walk { object, asker })?;
    }
    Ok(())
}

// Adds the wave of this number, from 0.
fn add_wave(
    names: &Names,
    wave: usize,
    draws: &mut Draws,
    steps: &mut List<Step>,
) -> Result<(), NoMemory>
    requires joins { length names.now.newcomers ≤ 100 }
    requires names { HasMadeNames (length names.now.newcomers) draws.old.seed names.now }
    requires wave { wave < wave_count (length names.now.newcomers) }
    requires place { draws.old.place ≡ wave_from (length names.now.newcomers) wave }
    ensures steps { OnOk result (steps.new ≡ steps.old ++ made_wave (length names.now.newcomers) draws.old.seed wave) }
    ensures draws { OnOk result (draws.new ≡ further draws.old (wave_size (length names.now.newcomers) wave + 10)) }
{
    let first = WAVE * wave;
    let size = WAVE.min(names.newcomers.len() - first);
    add_joins(names, first, size, draws, steps)?;
    steps.push(Step::SettleMixed {
        seed: wave as u64 + 1,
    })?;
    add_walks(names, draws, steps)?;
    Ok(())
}

// Adds all waves.
pub(crate) fn add_waves(
    names: &Names,
    draws: &mut Draws,
    steps: &mut List<Step>,
) -> Result<(), NoMemory>
    requires joins { length names.now.newcomers ≤ 100 }
    requires names { HasMadeNames (length names.now.newcomers) draws.old.seed names.now }
    requires place { draws.old.place ≡ wave_from (length names.now.newcomers) 0 }
    ensures steps { OnOk result (steps.new ≡ steps.old ++ made_waves (length names.now.newcomers) draws.old.seed) }
    ensures draws { OnOk result (draws.new
        ≡ further draws.old (length names.now.newcomers + 10 * wave_count (length names.now.newcomers))) }
{
    for wave in 0..names.newcomers.len().div_ceil(WAVE) {
        add_wave(names, wave, draws, steps)?;
    }
    Ok(())
}
