ghost use Rattle.std.specs.Prelude.{◌≡◌};
ghost use Rattle.tap_history.specs.StepAsks.{actor_of, depart_name, is_start};

use tap_name::Name;
use tap_scenario::Step;

// The node at which a start acts: the one that joins, departs, becomes a server or is one no more, asks, gives up joining
// or casts. `None` exactly if the step is no start.
#[tactic(auto, unfolding(crate::specs::StepAsks::actor_of))]
fn actor_of(step: &Step) -> Option<Name>
    ensures { result ≡ actor_of step.now }
{
    match step {
        Step::Join { name, .. } | Step::Depart { name } | Step::Abandon { name } => Some(*name),
        Step::Publish { server, .. } | Step::Withdraw { server, .. } => Some(*server),
        Step::Find { asker, .. } | Step::Cast { asker, .. } => Some(*asker),
        _ => None,
    }
}

/// Whether a step is a start: one that acts at a node.
///
/// Rule: docs/FORMATS.md, "Groups and moments".
pub fn is_start(step: &Step) -> bool
    ensures { result ≡ is_start step.now }
{
    actor_of(step).is_some()
}

/// The name of the node that a step has depart, `None` exactly if it is no departure.
///
/// Rule: docs/FORMATS.md, "The scenario".
#[tactic(auto, unfolding(crate::specs::StepAsks::depart_name))]
pub fn depart_name(step: &Step) -> Option<Name>
    ensures { result ≡ depart_name step.now }
{
    match step {
        Step::Depart { name } => Some(*name),
        _ => None,
    }
}
