ghost use Rattle.std.specs.Prelude.{◌≡◌, ◌≤◌, ◌∷◌, ◌++◌, length, OnOk};
ghost use Rattle.tap_make.specs.Draws.{further};
ghost use Rattle.tap_make.specs.MadeNames.{HasMadeNames, object_count};
ghost use Rattle.tap_make.specs.MadeSteps.{lookups_from, made_departures, made_lookups, made_publications, publications_from};

use crate::draws::Draws;
use crate::names::Names;
use tap_name::List;
use tap_scenario::{NoMemory, Step};

// How many lookups there are.
const LOOKUPS: u32 = 30;

// Adds the publication of each object.
pub(crate) fn add_publications(
    names: &Names,
    draws: &mut Draws,
    steps: &mut List<Step>,
) -> Result<(), NoMemory>
    requires joins { length names.now.newcomers ≤ 100 }
    requires names { HasMadeNames (length names.now.newcomers) draws.old.seed names.now }
    requires place { draws.old.place ≡ publications_from (length names.now.newcomers) }
    ensures steps { OnOk result (steps.new ≡ steps.old ++ made_publications (length names.now.newcomers) draws.old.seed) }
    ensures draws { OnOk result (draws.new ≡ further draws.old object_count) }
{
    for i in 0..names.objects.len() {
        steps.push(Step::Publish {
            object: names.objects.at(i),
            server: names.draw_member(draws),
        })?;
    }
    Ok(())
}

// Adds the lookups, and a settle after each.
pub(crate) fn add_lookups(
    names: &Names,
    draws: &mut Draws,
    steps: &mut List<Step>,
) -> Result<(), NoMemory>
    requires joins { length names.now.newcomers ≤ 100 }
    requires names { HasMadeNames (length names.now.newcomers) draws.old.seed names.now }
    requires place { draws.old.place ≡ lookups_from (length names.now.newcomers) }
    ensures { OnOk result (steps.new ≡ steps.old ++ made_lookups (length names.now.newcomers) draws.old.seed) }
{
    for _lookup in 0..LOOKUPS {
        let object = names.draw_object(draws);
        let asker = names.draw_member(draws);
        steps.push(Step::Find { object, asker })?;
        steps.push(Step::Settle)?;
    }
    Ok(())
}

// Adds the departure of the first newcomer, and of the second if there is one, and a settle after each.
pub(crate) fn add_departures(
    names: &Names,
    steps: &mut List<Step>,
    seed: u64,
) -> Result<(), NoMemory>
    requires names { HasMadeNames (length names.now.newcomers) seed names.now }
    ensures { OnOk result (steps.new ≡ steps.old ++ made_departures (length names.now.newcomers) seed) }
{
    for i in 0..names.newcomers.len().min(2) {
        steps.push(Step::Depart {
            name: names.newcomers.at(i),
        })?;
        steps.push(Step::Settle)?;
    }
    Ok(())
}
