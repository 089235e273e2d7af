ghost use Rattle.std.specs.Prelude.{◌≡◌, [], ◌∷◌, ◌++◌};
ghost use Rattle.tap_scenario.specs.Kind.{text_of_kind, kind_of_word, is_there, link_of_pair};
ghost use Rattle.tap_scenario.specs.Spread.{spread_of_word, pair_of_spread};
ghost use Rattle.tap_scenario.specs.Step.{step_of_name, step_of_pair, step_of_place};

use crate::step::Step;
use tap_name::{Name, Settings};

// The kinds of step that have one name.
#[derive(Clone, Copy)]
pub(crate) enum NameKind {
    Leave,
    Root,
    Table,
    Pointers,
    Abandon,
}

// The kinds of step that have two names with a word between them.
#[derive(Clone, Copy)]
pub(crate) enum PairKind {
    Join,
    Publish,
    Withdraw,
    Find,
    Walk,
    RootSet,
}

// The kinds of step that have one place.
#[derive(Clone, Copy)]
pub(crate) enum PlaceKind {
    Deliver,
    Lose,
    Repeat,
}

// The kinds of text that stand for four steps, one for each salt of an object.
#[derive(Clone, Copy)]
pub(crate) enum SpreadKind {
    Scatter,
    Gather,
    FindAll,
}

// The kinds of step that the first word tells apart.
#[derive(Clone, Copy)]
pub(crate) enum Kind {
    Name(NameKind),
    Pair(PairKind),
    Place(PlaceKind),
    Settle,
    Garble,
    Cut,
    Tick,
    Cast,
}

// The words that stand after the first one in a settle and in a cast.
pub(crate) const NEWEST: &str = "newest";

pub(crate) const MIXED: &str = "mixed";

pub(crate) const TO: &str = "to";

pub(crate) const FROM: &str = "from";

impl NameKind {
    // The step of this kind with this name.
    pub(crate) fn step(self, name: Name) -> Step
        ensures { result ≡ step_of_name self name }
    {
        match self {
            NameKind::Leave => Step::Depart { name },
            NameKind::Root => Step::Root { object: name },
            NameKind::Table => Step::Table { name },
            NameKind::Pointers => Step::Pointers { name },
            NameKind::Abandon => Step::Abandon { name },
        }
    }
}

impl PairKind {
    // The word between the names.
    pub(crate) fn link(self) -> &'static str
        ensures { result.now ≡ link_of_pair self }
    {
        match self {
            PairKind::Join => "via",
            PairKind::Publish | PairKind::Withdraw => "at",
            PairKind::Find | PairKind::Walk | PairKind::RootSet => FROM,
        }
    }

    // This word with a space on either side.
    pub(crate) fn between(self) -> &'static str
        ensures { result.now ≡ 32 ∷ link_of_pair self ++ 32 ∷ [] }
    {
        match self {
            PairKind::Join => " via ",
            PairKind::Publish | PairKind::Withdraw => " at ",
            PairKind::Find | PairKind::Walk | PairKind::RootSet => " from ",
        }
    }

    // The step of this kind with these names.
    pub(crate) fn step(self, first: Name, second: Name) -> Step
        ensures { result ≡ step_of_pair self first second }
    {
        match self {
            PairKind::Join => Step::Join {
                name: first,
                via: second,
            },
            PairKind::Publish => Step::Publish {
                object: first,
                server: second,
            },
            PairKind::Withdraw => Step::Withdraw {
                object: first,
                server: second,
            },
            PairKind::Find => Step::Find {
                object: first,
                asker: second,
            },
            PairKind::Walk => Step::Walk {
                object: first,
                asker: second,
            },
            PairKind::RootSet => Step::RootSet {
                object: first,
                asker: second,
            },
        }
    }
}

impl PlaceKind {
    // The step of this kind with this place.
    pub(crate) fn step(self, place: u32) -> Step
        ensures { result ≡ step_of_place self place }
    {
        match self {
            PlaceKind::Deliver => Step::Deliver { place },
            PlaceKind::Lose => Step::Lose { place },
            PlaceKind::Repeat => Step::Repeat { place },
        }
    }
}

impl SpreadKind {
    // The kind that begins with this word.
    pub(crate) fn of(word: &[u8]) -> Option<SpreadKind>
        ensures { result ≡ spread_of_word word.now }
    {
        match word {
            b"scatter" => Some(SpreadKind::Scatter),
            b"gather" => Some(SpreadKind::Gather),
            b"findall" => Some(SpreadKind::FindAll),
            _ => None,
        }
    }

    // The kind of its steps.
    pub(crate) fn pair(self) -> PairKind
        ensures { result ≡ pair_of_spread self }
    {
        match self {
            SpreadKind::Scatter => PairKind::Publish,
            SpreadKind::Gather => PairKind::Withdraw,
            SpreadKind::FindAll => PairKind::Find,
        }
    }
}

impl Kind {
    // The first word of the steps of this kind.
    pub(crate) fn text(self) -> &'static str
        ensures { result.now ≡ text_of_kind self }
    {
        match self {
            Kind::Name(NameKind::Leave) => "leave",
            Kind::Name(NameKind::Root) => "root",
            Kind::Name(NameKind::Table) => "table",
            Kind::Name(NameKind::Pointers) => "pointers",
            Kind::Name(NameKind::Abandon) => "abandon",
            Kind::Pair(PairKind::Join) => "join",
            Kind::Pair(PairKind::Publish) => "publish",
            Kind::Pair(PairKind::Withdraw) => "withdraw",
            Kind::Pair(PairKind::Find) => "find",
            Kind::Pair(PairKind::Walk) => "walk",
            Kind::Pair(PairKind::RootSet) => "rootset",
            Kind::Place(PlaceKind::Deliver) => "deliver",
            Kind::Place(PlaceKind::Lose) => "lose",
            Kind::Place(PlaceKind::Repeat) => "repeat",
            Kind::Settle => "settle",
            Kind::Garble => "garble",
            Kind::Cut => "cut",
            Kind::Tick => "tick",
            Kind::Cast => "cast",
        }
    }

    // The kind whose steps begin with this word.
    pub(crate) fn of(word: &[u8]) -> Option<Kind>
        ensures { result ≡ kind_of_word word.now }
    {
        match word {
            b"walk" => Some(Kind::Pair(PairKind::Walk)),
            b"find" => Some(Kind::Pair(PairKind::Find)),
            b"publish" => Some(Kind::Pair(PairKind::Publish)),
            b"join" => Some(Kind::Pair(PairKind::Join)),
            b"withdraw" => Some(Kind::Pair(PairKind::Withdraw)),
            b"rootset" => Some(Kind::Pair(PairKind::RootSet)),
            b"root" => Some(Kind::Name(NameKind::Root)),
            b"table" => Some(Kind::Name(NameKind::Table)),
            b"leave" => Some(Kind::Name(NameKind::Leave)),
            b"pointers" => Some(Kind::Name(NameKind::Pointers)),
            b"abandon" => Some(Kind::Name(NameKind::Abandon)),
            b"deliver" => Some(Kind::Place(PlaceKind::Deliver)),
            b"lose" => Some(Kind::Place(PlaceKind::Lose)),
            b"repeat" => Some(Kind::Place(PlaceKind::Repeat)),
            b"settle" => Some(Kind::Settle),
            b"garble" => Some(Kind::Garble),
            b"cut" => Some(Kind::Cut),
            b"tick" => Some(Kind::Tick),
            b"cast" => Some(Kind::Cast),
            _ => None,
        }
    }

    // Whether there are steps of this kind with these settings, in a scenario that is carried or not.
    pub(crate) fn is_there(self, settings: &Settings, carrier: bool) -> bool
        ensures { result ≡ is_there settings.now carrier self }
    {
        match self {
            Kind::Pair(PairKind::RootSet) => settings.base() == 16 && settings.digits() == 40,
            Kind::Place(PlaceKind::Lose | PlaceKind::Repeat) | Kind::Tick => carrier,
            Kind::Garble | Kind::Cut => !carrier,
            _ => true,
        }
    }
}
