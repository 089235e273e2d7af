ghost use Rattle.std.specs.Prelude.{◌≡◌};
ghost use Rattle.tap_log.specs.MoreRecords.{at_most_one};
ghost use Rattle.tap_engine.specs.SeenTurns.{seen_after, seen_before};

use tap_log::Record;
use tap_name::Name;
use tap_node::News;

/// The record of the news of a node of this name that stands before the frames of its turn, if one does.
///
/// Rule: docs/FORMATS.md, "The course of a run".
#[tactic(auto, unfolding(tap_runs::specs::Acts::news_before))]
pub fn record_before(name: &Name, news: &News) -> Option<Record>
    ensures { at_most_one result ≡ seen_before name.now news.now }
{
    match *news {
        News::Core => Some(Record::Core { name: *name }),
        News::Gone => Some(Record::Gone { name: *name }),
        News::Cast {
            cast,
            reached: true,
            ..
        } => Some(Record::Reached { cast, name: *name }),
        News::Nothing | News::Answered { .. } | News::Cast { .. } => None,
    }
}

/// The record of the news of a node that stands after the frames of its turn, if one does.
///
/// Rule: docs/FORMATS.md, "The course of a run".
#[tactic(auto, unfolding(tap_runs::specs::Acts::news_after))]
pub fn record_after(news: &News) -> Option<Record>
    ensures { at_most_one result ≡ seen_after news.now }
{
    match *news {
        News::Answered { ticket, server } => Some(Record::Answered { ticket, server }),
        News::Cast {
            cast,
            closed: true,
            ..
        } => Some(Record::Closed { cast }),
        News::Nothing | News::Core | News::Gone | News::Cast { .. } => None,
    }
}
