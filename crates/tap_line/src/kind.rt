ghost use Rattle.std.specs.Prelude.{◌≡◌};
ghost use Rattle.tap_line.specs.Front.{chosen};
ghost use Rattle.tap_line.specs.Kind.{line_kinds, line_of_name, line_of_number, line_of_pair, text_of_kind};

use crate::line::Line;
use tap_log::Record;
use tap_name::Name;

// The kinds of line that have one number.
#[derive(Clone, Copy)]
pub(crate) enum NumberKind {
    Taken,
    Spent,
    Done,
    Arrived,
    Lost,
    Closed,
}

// The kinds of line that have one name.
#[derive(Clone, Copy)]
pub(crate) enum NameKind {
    Core,
    Gone,
    Abandoned,
    Member,
}

// The kinds of line that have an object and a node that has it.
#[derive(Clone, Copy)]
pub(crate) enum PairKind {
    Rooted,
    Published,
    Withdrawn,
}

// The kinds of line that the first word tells apart.
#[derive(Clone, Copy)]
pub(crate) enum Kind {
    Number(NumberKind),
    Name(NameKind),
    Pair(PairKind),
    Begin,
    Step,
    Sent,
    Walked,
    Asked,
    Answered,
    Table,
    Link,
    Pointers,
    Pointer,
    Refused,
    Garbled,
    Carrier,
    Packet,
    Ticked,
    RootSet,
    Cast,
    Reached,
    End,
}

impl NumberKind {
    // The line of this kind with this number.
    pub(crate) fn line(self, number: u32) -> Line
        ensures { result ≡ line_of_number self number }
    {
        Line::Whole(match self {
            NumberKind::Taken => Record::Taken { number },
            NumberKind::Spent => Record::Spent { limit: number },
            NumberKind::Done => Record::Finished { steps: number },
            NumberKind::Arrived => Record::Arrived { packet: number },
            NumberKind::Lost => Record::Lost { packet: number },
            NumberKind::Closed => Record::Closed { cast: number },
        })
    }
}

impl NameKind {
    // The line of this kind with this name.
    pub(crate) fn line(self, name: Name) -> Line
        ensures { result ≡ line_of_name self name }
    {
        match self {
            NameKind::Core => Line::Whole(Record::Core { name }),
            NameKind::Gone => Line::Whole(Record::Gone { name }),
            NameKind::Abandoned => Line::Whole(Record::Abandoned { name }),
            NameKind::Member => Line::Member { name },
        }
    }
}

impl PairKind {
    // The line of this kind with these names.
    pub(crate) fn line(self, object: Name, node: Name) -> Line
        ensures { result ≡ line_of_pair self object node }
    {
        Line::Whole(match self {
            PairKind::Rooted => Record::RootOf { object, root: node },
            PairKind::Published => Record::Published {
                object,
                server: node,
            },
            PairKind::Withdrawn => Record::Withdrawn {
                object,
                server: node,
            },
        })
    }
}

impl Kind {
    // The kind whose lines begin with this word.
    pub(crate) fn of(word: &[u8]) -> Option<Kind>
        ensures { result ≡ chosen text_of_kind line_kinds word.now }
    {
        match word {
            b"sent" => Some(Kind::Sent),
            b"taken" => Some(Kind::Number(NumberKind::Taken)),
            b"packet" => Some(Kind::Packet),
            b"arrived" => Some(Kind::Number(NumberKind::Arrived)),
            b"link" => Some(Kind::Link),
            b"pointer" => Some(Kind::Pointer),
            b"step" => Some(Kind::Step),
            b"ticked" => Some(Kind::Ticked),
            b"lost" => Some(Kind::Number(NumberKind::Lost)),
            b"walked" => Some(Kind::Walked),
            b"core" => Some(Kind::Name(NameKind::Core)),
            b"gone" => Some(Kind::Name(NameKind::Gone)),
            b"reached" => Some(Kind::Reached),
            b"asked" => Some(Kind::Asked),
            b"answered" => Some(Kind::Answered),
            b"published" => Some(Kind::Pair(PairKind::Published)),
            b"withdrawn" => Some(Kind::Pair(PairKind::Withdrawn)),
            b"table" => Some(Kind::Table),
            b"pointers" => Some(Kind::Pointers),
            b"cast" => Some(Kind::Cast),
            b"closed" => Some(Kind::Number(NumberKind::Closed)),
            b"refused" => Some(Kind::Refused),
            b"garbled" => Some(Kind::Garbled),
            b"rooted" => Some(Kind::Pair(PairKind::Rooted)),
            b"rootset" => Some(Kind::RootSet),
            b"abandoned" => Some(Kind::Name(NameKind::Abandoned)),
            b"member" => Some(Kind::Name(NameKind::Member)),
            b"begin" => Some(Kind::Begin),
            b"carrier" => Some(Kind::Carrier),
            b"spent" => Some(Kind::Number(NumberKind::Spent)),
            b"done" => Some(Kind::Number(NumberKind::Done)),
            b"tapestry:" => Some(Kind::End),
            _ => None,
        }
    }
}
