ghost use Rattle.std.specs.Prelude.{◌≡◌, ◌||◌};
ghost use Rattle.tap_multicast.specs.Targets.{is_covered, is_introduced, is_primary, tells};

use tap_link::Kind;
use tap_name::Name;

// A cover that begins: of this joiner, with the prefix at which it was started.
#[derive(Clone, Copy)]
pub(crate) struct Cover {
    pub(crate) joiner: Name,
    // Whether the joiner wasn't covered before.
    pub(crate) first: bool,
    pub(crate) prefix: u8,
    // The slots of the levels from this one on are covered.
    pub(crate) level: u8,
    // Those from this level on were covered before.
    pub(crate) before: u8,
}

impl Cover {
    // Whether the slots of a level are covered now, and weren't before.
    fn is_covered(&self, level: u8) -> bool
        ensures { result ≡ is_covered self.now level }
    {
        self.level <= level && level < self.before
    }

    // Whether the pins of a level are introduced to the joiner.
    fn is_introduced(&self, level: u8) -> bool
        ensures { result ≡ is_introduced self.now level }
    {
        self.first && self.prefix <= level && level < self.level
    }

    // Whether any link in the slots of a level may be told.
    pub(crate) fn is_told_over(&self, level: u8) -> bool
        ensures { result ≡ (is_covered self.now level || is_introduced self.now level) }
    {
        self.is_covered(level) || self.is_introduced(level)
    }

    // Whether a link is told that stands in a slot of this level with this primary.
    pub(crate) fn tells(&self, level: u8, primary: &Option<Name>, target: &Name, kind: Kind) -> bool
        ensures { result ≡ tells self.now level primary.now (record { target = target.now; kind = kind }) }
    {
        if self.joiner == *target {
            return false;
        }
        let pin = kind.is_pin();
        (self.is_covered(level) && (pin || is_primary(primary, target)))
            || (self.is_introduced(level) && pin)
    }
}

// Whether a name is this primary.
pub(crate) fn is_primary(primary: &Option<Name>, name: &Name) -> bool
    ensures { result ≡ is_primary primary.now name.now }
{
    match primary {
        Some(primary) => *primary == *name,
        None => false,
    }
}
