ghost use Rattle.std.specs.Prelude.{◌≡◌, IfOk};
ghost use Rattle.std.specs.List.{filter_map, take_while};
ghost use Rattle.tap_log.specs.Kinds.{step_of};
ghost use Rattle.tap_own_scripts.specs.Own.{goes_on, own_script};
ghost use Rattle.tap_shape.specs.Shape.{IsShape};

use std::alloc::{AllocError, Global};
use tap_log::{Record, is_carried, step_of};
use tap_scenario::{NoMemory, Scenario, Step};

// The scenario that a log tells of itself.
pub(crate) fn own_scenario(alloc: Global, log: &[Record]) -> Result<Scenario, NoMemory>
    requires { IsShape log.now }
    ensures { IfOk result (λ s. s ≡ own_script log.now) }
{
    let steps = begun_steps(alloc, before_end(log))?;
    let Record::Begin {
        settings,
        frames,
        members,
    } = &log[0]
    else {
        unreachable!()
    };
    Scenario::of(
        alloc,
        settings,
        *frames,
        is_carried(log),
        members,
        steps.as_slice(),
    )
}

// The steps that are begun.
fn begun_steps(alloc: Global, items: &[Record]) -> Result<Vec<Step>, AllocError>
    ensures { IfOk result (λ steps. steps.items ≡ filter_map step_of items.now) }
{
    items.iter().filter_map(|item| step_of(item)).collect(alloc)
}

// The records before the first that says that all steps were run.
fn before_end(items: &[Record]) -> &[Record]
    ensures { result.now ≡ take_while goes_on items.now }
{
    let count = items.iter().take_while(|item| goes_on(item)).count();
    &items[..count]
}

// Whether the record doesn't say that all steps were run.
#[tactic(auto, unfolding(tap_own_scripts::specs::Own::goes_on))]
fn goes_on(item: &Record) -> bool
    ensures { result ≡ goes_on item.now }
{
    match item {
        Record::Finished { .. } => false,
        _ => true,
    }
}
