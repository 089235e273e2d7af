ghost use Rattle.std.specs.Prelude.{◌≡◌};
ghost use Rattle.tap_report.specs.Tally.{opening_after, opens_carried};

use tap_log::Record;

// What the first two records of a log say.
#[derive(Clone, Copy, Debug)]
pub(crate) enum Opening {
    // There is no record.
    Nothing,
    // There is a `Begin` alone.
    Begun,
    // The log is carried: `Carrier` stands right after `Begin`.
    Carried,
    // The log isn't carried.
    Plain,
}

impl Opening {
    // With one record more.
    pub(crate) fn with(self, item: &Record) -> Opening
        ensures { result ≡ opening_after self item.now }
    {
        match (self, item) {
            (Opening::Nothing, Record::Begin { .. }) => Opening::Begun,
            (Opening::Begun, Record::Carrier) => Opening::Carried,
            (Opening::Carried, _) => Opening::Carried,
            _ => Opening::Plain,
        }
    }

    // Whether the log is carried.
    pub(crate) fn is_carried(self) -> bool
        ensures { result ≡ opens_carried self }
    {
        match self {
            Opening::Carried => true,
            _ => false,
        }
    }
}
