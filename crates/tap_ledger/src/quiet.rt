ghost use Rattle.std.specs.Prelude.{◌≡◌};
ghost use Rattle.tap_ledger.specs.Quiet.{is_coming_or_going, moves_node, tells_more, tells_of_request};

use tap_log::Record;
use tap_scenario::Step;

// Whether the record tells of who takes part, of a pair, of a lookup or of a cast.
#[tactic(auto, unfolding(crate::specs::Quiet::tells_more))]
pub(crate) fn tells_more(item: &Record) -> bool
    ensures { result ≡ tells_more item.now }
{
    match item {
        Record::Core { .. } | Record::Gone { .. } | Record::Abandoned { .. } => true,
        Record::Published { .. } | Record::Withdrawn { .. } => true,
        Record::Asked { .. } | Record::CastFrom { .. } => true,
        _ => false,
    }
}

// Whether the record tells of a publication, a withdrawal, a lookup or a cast.
#[tactic(auto, unfolding(crate::specs::Quiet::tells_of_request))]
pub(crate) fn tells_of_request(item: &Record) -> bool
    ensures { result ≡ tells_of_request item.now }
{
    match item {
        Record::Published { .. } | Record::Withdrawn { .. } => true,
        Record::Asked { .. } | Record::CastFrom { .. } => true,
        _ => false,
    }
}

// Whether a node is to join or to depart by the step.
#[tactic(auto, unfolding(crate::specs::Quiet::is_coming_or_going))]
fn is_coming_or_going(step: &Step) -> bool
    ensures { result ≡ is_coming_or_going step.now }
{
    match step {
        Step::Join { .. } | Step::Depart { .. } => true,
        _ => false,
    }
}

// Whether the record begins a step by which a node is to join or to depart.
pub(crate) fn moves_node(item: &Record) -> bool
    ensures { result ≡ moves_node item.now }
{
    match item {
        Record::Step { step, .. } => is_coming_or_going(step),
        _ => false,
    }
}
