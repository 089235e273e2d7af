use tap_log::{LinkLine, NodeWord, Pair, Record};
use tap_name::{Name, Settings};

/// What the first line of a beginning says.
///
/// Rule: docs/FORMATS.md, "The printed text".
#[derive(Clone, Copy, Debug, PartialEq, Eq)]
pub struct Beginning {
    /// The settings of the run.
    pub settings: Settings,
    /// How many frames the run may send.
    pub frames: u32,
}

/// One line of the long text of a log, without its line feed.
///
/// Rule: docs/FORMATS.md, "The printed text".
#[derive(Debug, PartialEq, Drop)]
pub enum Line {
    /// A record that is printed as one line: each but a beginning, a table and pointers.
    Whole(Record),
    /// The first line of a beginning.
    Begin(Beginning),
    /// A further line of a beginning: a member.
    Member {
        /// The member.
        name: Name,
    },
    /// The first line of a table.
    Table {
        /// Whose table it is.
        name: Name,
        /// What that node is.
        status: NodeWord,
        /// How many links follow.
        links: u64,
    },
    /// A further line of a table: a link.
    Link(LinkLine),
    /// The first line of pointers.
    Pointers {
        /// Who holds them.
        name: Name,
        /// How many pairs follow.
        pairs: u64,
    },
    /// A further line of pointers: an object and a server of it.
    Pointer(Pair),
    /// The last line of a run that was refused memory.
    End,
}
