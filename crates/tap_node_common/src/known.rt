ghost use Rattle.std.specs.Prelude.{◌≡◌, is_some, length};
ghost use Rattle.tap_multicast.specs.Covers.{level_kept};
ghost use Rattle.tap_table.specs.Table.{kind_in, rows};
ghost use Rattle.tap_node_common.specs.Strangers.{covers_known, table_known};

use tap_link::Kind;
use tap_multicast::Covers;
use tap_name::{Name, Settings};
use tap_table::Table;

// What a node knows of others: its links and the joiners that it covers, or nothing, once it has ended.
#[derive(Clone, Copy)]
pub(crate) enum Known<'a> {
    Kept {
        table: &'a Table,
        covers: &'a Covers,
    },
    // The node has ended. The settings are there for the contracts, which speak of its empty table.
    Nothing {
        settings: &'a Settings,
        name: &'a Name,
    },
}

impl<'a> Known<'a> {
    // The node.
    pub(crate) fn owner(self) -> Name
        ensures { result ≡ (table_known self.entry).owner }
    {
        match self {
            Known::Kept { table, .. } => table.owner(),
            Known::Nothing { name, .. } => *name,
        }
    }

    // How many links it has.
    pub(crate) fn links(self) -> usize
        ensures { result ≡ length (rows (table_known self.entry)) }
    {
        match self {
            Known::Kept { table, .. } => table.len(),
            Known::Nothing { .. } => 0,
        }
    }

    // The kind of its link to a name, if there is one.
    pub(crate) fn kind_of(self, name: &Name) -> Option<Kind>
        ensures { result ≡ kind_in (table_known self.entry) name.now }
    {
        match self {
            Known::Kept { table, .. } => table.kind_of(*name),
            Known::Nothing { .. } => None,
        }
    }

    // Whether it covers a joiner.
    pub(crate) fn covers(self, joiner: &Name) -> bool
        ensures { result ≡ is_some (level_kept (covers_known self.entry) joiner.now) }
    {
        match self {
            Known::Kept { covers, .. } => covers.level_of(*joiner).is_some(),
            Known::Nothing { .. } => false,
        }
    }
}
