ghost use Rattle.std.specs.Prelude.{◌≡◌, ◌+◌, ◌-◌, cond, max, length, []};
ghost use Rattle.tap_log.specs.Kinds.{begin_members};
ghost use Rattle.tap_report.specs.Summary.{finds_server, hops_in};
ghost use Rattle.tap_report.specs.Tally.{CountsWithin, is_core_record, is_sent, members_after, numbers_in, tally_after, tally_of};

use crate::departures::Departures;
use crate::opening::Opening;
use tap_log::Record;

// What the summary of a log is made from.
#[derive(Clone, Copy, Debug)]
pub(crate) struct Tally {
    // How the log opens.
    pub(crate) opening: Opening,
    // The members.
    pub(crate) members: usize,
    // The nodes that became core.
    pub(crate) core: u64,
    // The departures.
    pub(crate) departures: Departures,
    // The frames that were sent.
    pub(crate) frames: u64,
    // The most hops of a walk.
    pub(crate) hops: usize,
    // The lookups that were answered with a server.
    pub(crate) answered: u64,
}

impl Tally {
    // Before the first record.
    pub(crate) fn new() -> Tally
        ensures { result ≡ tally_of [] }
    {
        Tally {
            opening: Opening::Nothing,
            members: 0,
            core: 0,
            departures: Departures::new(),
            frames: 0,
            hops: 0,
            answered: 0,
        }
    }

    // Adds one record more.
    pub(crate) fn add(&mut self, item: &Record)
        requires { CountsWithin (u64.MAX - 1) self.old }
        ensures { self.new ≡ tally_after self.old item.now }
    {
        self.count(item);
        self.departures.add(self.opening.is_carried(), item);
        self.members = members_with(self.opening, self.members, item);
        self.opening = self.opening.with(item);
    }

    // Counts a record.
    #[tactic(auto, unfolding(tap_log::specs::Kinds::core_name, tap_log::specs::Kinds::sent_number))]
    fn count(&mut self, item: &Record)
        requires { CountsWithin (u64.MAX - 1) self.old }
        ensures { self.new ≡ record self.old {
          core = self.old.core + cond (is_core_record item.now) 1 0;
          frames = self.old.frames + cond (is_sent item.now) 1 0;
          hops = max self.old.hops (hops_in item.now);
          answered = self.old.answered + cond (finds_server item.now) 1 0;
        } }
    {
        match item {
            Record::Core { .. } => self.core += 1,
            Record::Sent { .. } => self.frames += 1,
            Record::Walked { path, .. } => self.hops = self.hops.max(path.len().saturating_sub(1)),
            Record::Answered { server, .. } => self.answered += u64::from(server.is_some()),
            _ => {}
        }
    }

    // The nodes that are left.
    pub(crate) fn nodes_left(&self) -> u128
        ensures { result ≡ (numbers_in self.now).nodes }
    {
        let came = self.members as u128 + self.core as u128;
        came.saturating_sub(self.departures.gone as u128)
    }
}

// The number of members, with one record more.
fn members_with(opening: Opening, members: usize, item: &Record) -> usize
    ensures { result ≡ members_after opening members item.now }
{
    match opening {
        Opening::Nothing => begin_members(item),
        _ => members,
    }
}

// How many members a record names.
#[tactic(auto, unfolding(tap_log::specs::Kinds::begin_members))]
fn begin_members(item: &Record) -> usize
    ensures { result ≡ length (begin_members item.now) }
{
    match item {
        Record::Begin { members, .. } => members.len(),
        _ => 0,
    }
}
