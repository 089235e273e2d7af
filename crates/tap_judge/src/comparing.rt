ghost use Rattle.std.specs.Prelude.{◌≡◌, ◌+◌, ◌-◌, ◌^◌, ◌<◌, ◌≤◌, length, take};
ghost use Rattle.tap_judge.specs.Comparing.{SameUntil, verdict_at, verdict_at_end, verdict_by};

use crate::verdict::Verdict;
use tap_log::Record;
use tap_replay::{End, Turned};

// How many records are the same, from a place on up to which they are.
pub(crate) fn same_records(run: &[Record], log: &[Record], seen: usize) -> usize
    requires run { seen ≤ length run.now }
    requires log { seen ≤ length log.now }
    requires same { take seen log.now ≡ take seen run.now }
    ensures { SameUntil run.now log.now result }
{
    let mut same = seen;
    while same < run.len() {
        if same >= log.len() {
            return same;
        }
        if !run[same].is_same(&log[same]) {
            return same;
        }
        same += 1;
    }
    same
}

// What a run is compared with: a log with so many records, which is carried or not.
#[derive(Clone, Copy)]
pub(crate) struct Compared {
    pub(crate) carried: bool,
    pub(crate) all: usize,
}

impl Compared {
    // The verdict after a turn, if there is one. The run has so many records, and so many of the first ones are the same.
    pub(crate) fn after(self, turned: Turned, run: usize, same: usize) -> Option<Verdict>
        requires few { self.all < 2 ^ 32 - 1 }
        requires same { same ≤ self.all }
        ensures { result ≡ verdict_by self.carried turned run self.all same }
    {
        match turned {
            Turned::More => self.at(false, false, run, same),
            Turned::Over(End::Done) => self.at(true, true, run, same),
            Turned::Over(End::Spent) => self.at(true, false, run, same),
            Turned::Over(End::NoMemory) => Some(Verdict::NoMemory),
        }
    }

    // The verdict, if there is one, by whether the run is over, and whether it has run all steps.
    fn at(self, over: bool, done: bool, run: usize, same: usize) -> Option<Verdict>
        requires few { self.all < 2 ^ 32 - 1 }
        requires same { same ≤ self.all }
        ensures { result ≡ verdict_at self.carried over done run self.all same }
    {
        if same == self.all {
            return Some(self.at_end(done, run));
        }
        if same == run && !over {
            return None;
        }
        Some(Verdict::Unlawful((same + 1) as u32))
    }

    // The verdict on a log that begins the run's.
    fn at_end(self, done: bool, run: usize) -> Verdict
        requires few { self.all < 2 ^ 32 - 1 }
        ensures { result ≡ verdict_at_end self.carried done run self.all }
    {
        if self.carried || run == self.all {
            return Verdict::Lawful;
        }
        if done && run == self.all + 1 {
            return Verdict::Lawful;
        }
        Verdict::Unlawful((self.all + 1) as u32)
    }
}
