ghost use Rattle.std.specs.Prelude.{◌≡◌, true, false, Some};
ghost use Rattle.tap_table.specs.Row.{row_of};
ghost use Rattle.tap_node.specs.Node.{is_linked};
ghost use Rattle.tap_runs.specs.Observed.{link_line, pair_line, word_of_link, word_of_status};

use tap_link::Kind;
use tap_log::{LinkLine, LinkWord, NodeWord, Pair};
use tap_node::{Node, NodeStatus};
use tap_table::Row;

// The word of what a node is, which is joining, core or leaving, and hasn't ended for want of memory.
pub(crate) fn word_of_node(node: &Node) -> NodeWord
    requires runs { node.now.ended ≡ false }
    requires linked { is_linked node.now.state.status ≡ true }
    ensures { Some result ≡ word_of_status node.now.state.status }
{
    match node.status() {
        NodeStatus::Joining => NodeWord::Joining,
        NodeStatus::Core => NodeWord::Core,
        NodeStatus::Leaving => NodeWord::Leaving,
        NodeStatus::Gone | NodeStatus::Ceased | NodeStatus::Ended => unreachable!(),
    }
}

// The word of a kind of link.
fn word_of_link(kind: Kind) -> LinkWord
    ensures { result ≡ word_of_link kind }
{
    match kind {
        Kind::Pin => LinkWord::Pin,
        Kind::Settled => LinkWord::Settled,
        Kind::Leaving => LinkWord::Leaving,
    }
}

// A link as a log has it.
pub(crate) fn link_line(row: Row) -> LinkLine
    ensures { result ≡ link_line (row_of row) }
{
    LinkLine {
        slot: row.slot,
        name: row.target,
        kind: word_of_link(row.kind),
    }
}

// A pair as a log has it.
pub(crate) fn pair_line(pair: tap_pointer::Pair) -> Pair
    ensures { result ≡ pair_line pair }
{
    Pair {
        object: pair.object,
        server: pair.server,
    }
}
