ghost use Rattle.std.specs.Prelude.{◌≡◌, ◌<◌, []};
ghost use Rattle.tap_report.specs.Summary.{is_gone};
ghost use Rattle.tap_report.specs.Tally.{departure_accepted_after, departure_asked_by, departures_after, departures_known};

use tap_history::depart_name;
use tap_log::{Record, accepts};
use tap_name::Name;

// What is known of departures after some records.
#[derive(Clone, Copy, Debug)]
pub(crate) struct Departures {
    // The departure that the last record asks for.
    pub(crate) asked: Option<Name>,
    // The departure that was accepted last.
    pub(crate) accepted: Option<Name>,
    // How many of those that were accepted last are gone.
    pub(crate) gone: u64,
}

impl Departures {
    // Before the first record.
    pub(crate) fn new() -> Departures
        ensures { result ≡ departures_known [] }
    {
        Departures {
            asked: None,
            accepted: None,
            gone: 0,
        }
    }

    // Adds one record more, in a log that is carried or not.
    pub(crate) fn add(&mut self, carried: bool, item: &Record)
        requires { self.old.gone < u64.MAX }
        ensures { self.new ≡ departures_after carried self.old item.now }
    {
        self.accept(carried, item);
        self.gone += u64::from(is_gone(&self.accepted, item));
        self.ask(item);
    }

    // Keeps the departure that a record asks for, and no other one.
    fn ask(&mut self, item: &Record)
        ensures { self.new ≡ record self.old { asked = departure_asked_by item.now } }
    {
        match item {
            Record::Step { step, .. } => self.asked = depart_name(step),
            _ => self.asked = None,
        }
    }

    // Accepts the departure that was asked for, if there is one and the record does.
    fn accept(&mut self, carried: bool, item: &Record)
        ensures { self.new ≡ record self.old { accepted = departure_accepted_after carried self.old item.now } }
    {
        if self.asked.is_some() {
            if accepts(carried, item) {
                self.accepted = self.asked;
            }
        }
    }
}

// Whether this departing node is gone.
fn is_gone(leaver: &Option<Name>, item: &Record) -> bool
    ensures { result ≡ is_gone leaver.now item.now }
{
    let Some(leaver) = leaver else {
        return false;
    };
    match item {
        Record::Gone { name } => leaver == name,
        _ => false,
    }
}
