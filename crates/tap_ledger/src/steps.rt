ghost use Rattle.std.specs.Prelude.{◌≡◌, false, option_and_then, option_copied};
ghost use Rattle.tap_history.specs.Core.{accepted_step};
ghost use Rattle.tap_history.specs.StepAsks.{abandon_name, asked_node, depart_name, flight_place, join_name, publish_pair, suits_departure, suits_joining, withdraw_pair};

use tap_log::{Pair, Record, accepts, step_of};
use tap_name::Name;
use tap_scenario::Step;

// The node that has to be there for the step.
#[tactic(auto, unfolding(tap_history::specs::StepAsks::asked_node))]
pub(crate) fn asked_node(step: &Step) -> Option<&Name>
    ensures { option_copied result ≡ asked_node step.now }
{
    match step {
        Step::Join { via, .. } => Some(via),
        Step::Depart { name } | Step::Abandon { name } => Some(name),
        Step::Table { name } | Step::Pointers { name } => Some(name),
        Step::Publish { server, .. } | Step::Withdraw { server, .. } => Some(server),
        Step::Find { asker, .. } | Step::Walk { asker, .. } => Some(asker),
        Step::RootSet { asker, .. } | Step::Cast { asker, .. } => Some(asker),
        _ => None,
    }
}

// Whether a node that is joining can answer the step.
#[tactic(auto, unfolding(tap_history::specs::StepAsks::suits_joining))]
pub(crate) fn suits_joining(step: &Step) -> bool
    ensures { result ≡ suits_joining step.now }
{
    match step {
        Step::Table { .. } | Step::Pointers { .. } | Step::Abandon { .. } => true,
        _ => false,
    }
}

// Whether the step can be run while a node departs.
#[tactic(auto, unfolding(tap_history::specs::StepAsks::suits_departure))]
pub(crate) fn suits_departure(step: &Step) -> bool
    ensures { result ≡ suits_departure step.now }
{
    match step {
        Step::Join { .. } | Step::Depart { .. } | Step::Find { .. } => false,
        Step::Publish { .. } | Step::Withdraw { .. } | Step::Cast { .. } => false,
        _ => true,
    }
}

// The pair that a step has published.
#[tactic(auto, unfolding(tap_history::specs::StepAsks::publish_pair))]
pub(crate) fn publish_pair(step: &Step) -> Option<Pair>
    ensures { result ≡ publish_pair step.now }
{
    match step {
        Step::Publish { object, server } => Some(Pair {
            object: *object,
            server: *server,
        }),
        _ => None,
    }
}

// The pair that a step has withdrawn.
#[tactic(auto, unfolding(tap_history::specs::StepAsks::withdraw_pair))]
pub(crate) fn withdraw_pair(step: &Step) -> Option<Pair>
    ensures { result ≡ withdraw_pair step.now }
{
    match step {
        Step::Withdraw { object, server } => Some(Pair {
            object: *object,
            server: *server,
        }),
        _ => None,
    }
}

// The name of the node that a step has give up joining.
#[tactic(auto, unfolding(tap_history::specs::StepAsks::abandon_name))]
pub(crate) fn abandon_name(step: &Step) -> Option<Name>
    ensures { result ≡ abandon_name step.now }
{
    match step {
        Step::Abandon { name } => Some(*name),
        _ => None,
    }
}

// The place, among the frames or packets, of the one that the step takes, copies, loses or repeats.
#[tactic(auto, unfolding(tap_history::specs::StepAsks::flight_place))]
pub(crate) fn flight_place(step: &Step) -> Option<u32>
    ensures { result ≡ flight_place step.now }
{
    match step {
        Step::Deliver { place } | Step::Lose { place } | Step::Repeat { place } => Some(*place),
        Step::Garble { place, .. } | Step::Cut { place, .. } => Some(*place),
        _ => None,
    }
}

// The name of the node that a step has join.
#[tactic(auto, unfolding(tap_history::specs::StepAsks::join_name))]
pub(crate) fn join_name(step: &Step) -> Option<Name>
    ensures { result ≡ join_name step.now }
{
    match step {
        Step::Join { name, .. } => Some(*name),
        _ => None,
    }
}

// The step that a record begins, if the next one accepts it, in a log that isn't carried.
#[tactic(auto, unfolding(tap_history::specs::Core::accepted_step))]
pub(crate) fn accepted_step(item: &Record, next: &Record) -> Option<Step>
    ensures { result ≡ accepted_step false (item.now, next.now) }
{
    if accepts(false, next) {
        step_of(item)
    } else {
        None
    }
}

// The name of the node that this step has join, if there is one.
pub(crate) fn joins(step: &Option<Step>) -> Option<Name>
    ensures { result ≡ option_and_then join_name step.now }
{
    match step {
        Some(step) => join_name(step),
        None => None,
    }
}

// The name of the node that this step has depart, if there is one.
pub(crate) fn departs(step: &Option<Step>) -> Option<Name>
    ensures { result ≡ option_and_then depart_name step.now }
{
    match step {
        Some(step) => tap_history::depart_name(step),
        None => None,
    }
}
