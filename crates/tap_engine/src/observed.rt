ghost use Rattle.std.specs.Prelude.{◌≡◌, true, false, map, Some, IfOk};
ghost use Rattle.tap_table.specs.Table.{rows};
ghost use Rattle.tap_pointer.specs.Pointers.{pairs_held};
ghost use Rattle.tap_node.specs.Node.{is_linked};
ghost use Rattle.tap_runs.specs.Observed.{link_line, pair_line, pointers_record, table_record};

use crate::lines::{link_line, pair_line, word_of_node};
use std::alloc::Global;
use tap_log::{LinkLine, NoMemory, Pair, Record};
use tap_name::{List, Name};
use tap_node::Node;
use tap_pointer::Pointers;
use tap_table::Table;

/// What a log says of the node of a name as its table is asked for: what it is, and its links, ascending by slot, then target.
/// `NoMemory` if memory was refused.
///
/// The node is joining, core or leaving, and hasn't ended for want of memory.
///
/// Rule: docs/FORMATS.md, "The course of a run".
pub fn table_record(alloc: Global, name: Name, node: &Node) -> Result<Record, NoMemory>
    requires runs { node.now.ended ≡ false }
    requires linked { is_linked node.now.state.status ≡ true }
    ensures { IfOk result (λ item. Some item ≡ table_record name node.now.state) }
{
    match node.table() {
        Some(table) => Ok(Record::TableOf {
            name,
            status: word_of_node(node),
            links: lines_of(alloc, table)?,
        }),
        None => unreachable!(),
    }
}

// The links of a table, as a log has them.
fn lines_of(alloc: Global, table: &Table) -> Result<List<LinkLine>, NoMemory>
    ensures { IfOk result (λ lines. lines ≡ map link_line (rows table.now)) }
{
    let mut lines = List::new(alloc);
    for row in table.rows() {
        lines.push(link_line(row))?;
    }
    Ok(lines)
}

/// What a log says of the node of a name as its pointers are asked for: the pairs that it holds, ascending by object, then server.
/// `NoMemory` if memory was refused.
///
/// The node is joining, core or leaving, and hasn't ended for want of memory.
///
/// Rule: docs/FORMATS.md, "The course of a run".
pub fn pointers_record(alloc: Global, name: Name, node: &Node) -> Result<Record, NoMemory>
    requires runs { node.now.ended ≡ false }
    requires linked { is_linked node.now.state.status ≡ true }
    ensures { IfOk result (λ item. item ≡ pointers_record name node.now.state) }
{
    match node.pointers() {
        Some(pointers) => Ok(Record::PointersOf {
            name,
            pairs: pairs_of(alloc, pointers)?,
        }),
        None => unreachable!(),
    }
}

// The pairs that are held, as a log has them.
fn pairs_of(alloc: Global, pointers: &Pointers) -> Result<List<Pair>, NoMemory>
    ensures { IfOk result (λ pairs. pairs ≡ map pair_line (pairs_held pointers.now)) }
{
    let mut pairs = List::new(alloc);
    for pair in pointers.held() {
        pairs.push(pair_line(pair))?;
    }
    Ok(pairs)
}
