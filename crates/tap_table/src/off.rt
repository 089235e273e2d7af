ghost use Rattle.std.specs.Prelude.{◌≡◌, ◌<◌, ◌≤◌, ◌+◌, ◌++◌, length, IfOk, OnOk};
ghost use Rattle.std.specs.List.{flat_map};
ghost use Rattle.tap_register.specs.Stamp.{HasGivenAtMost};
ghost use Rattle.tap_table.specs.ByName.{slots_in, targets_by_name, targets_of};
ghost use Rattle.tap_table.specs.Table.{links_at};
ghost use Rattle.tap_table.specs.Ties.{off_ties};

use crate::memory::NoMemory;
use crate::slot_range::SlotRange;
use crate::table::Table;
use crate::tie::Tie;
use std::alloc::Global;
use tap_link::LinkSet;
use tap_name::{Name, Slot};
use tap_register::Stamp;

// The words for the targets of all links of a table, ascending, that there is no link to them any more.
pub(crate) fn off_ties(
    alloc: Global,
    stamp: &mut Stamp,
    table: &Table,
) -> Result<Vec<Tie>, NoMemory>
    requires { stamp.old + length (targets_by_name table.now) ≤ u32.MAX }
    ensures value { IfOk result (λ words. words.items ≡ off_ties stamp.old (targets_by_name table.now)) }
    ensures stamped { IfOk result (λ words. stamp.new ≡ stamp.old + length (targets_by_name table.now)) }
    ensures given { HasGivenAtMost (length (targets_by_name table.now)) stamp.old stamp.new }
{
    let mut words = Vec::new(alloc);
    let ranges = 2 * table.settings().digits() as usize;
    for i in 0..ranges {
        push_range(&mut words, stamp, table, table.range_by_name(i))?;
    }
    Ok(words)
}

// Adds the words for the targets of the links of these slots.
fn push_range(
    words: &mut Vec<Tie>,
    stamp: &mut Stamp,
    table: &Table,
    range: SlotRange,
) -> Result<(), NoMemory>
    requires level { range.level < table.now.settings.digits }
    requires end { range.to ≤ table.now.settings.base }
    requires numbers { stamp.old + length (targets_of (flat_map (links_at table.now) (slots_in range))) ≤ u32.MAX }
    ensures value { OnOk result (words.new.items
        ≡ words.old.items ++ off_ties stamp.old (targets_of (flat_map (links_at table.now) (slots_in range)))) }
    ensures stamped { OnOk result (stamp.new ≡ stamp.old + length (targets_of (flat_map (links_at table.now) (slots_in range)))) }
    ensures given { HasGivenAtMost (length (targets_of (flat_map (links_at table.now) (slots_in range)))) stamp.old stamp.new }
{
    for digit in range.from..range.to {
        let slot = Slot {
            level: range.level,
            digit,
        };
        push_links(words, stamp, table.slot(slot))?;
    }
    Ok(())
}

// Adds the words for the targets of these links.
fn push_links(words: &mut Vec<Tie>, stamp: &mut Stamp, set: &LinkSet<Name>) -> Result<(), NoMemory>
    requires { stamp.old + length (targets_of set.now.links) ≤ u32.MAX }
    ensures value { OnOk result (words.new.items ≡ words.old.items ++ off_ties stamp.old (targets_of set.now.links)) }
    ensures stamped { OnOk result (stamp.new ≡ stamp.old + length (targets_of set.now.links)) }
    ensures given { HasGivenAtMost (length (targets_of set.now.links)) stamp.old stamp.new }
{
    for at in 0..set.len() {
        words.push(Tie {
            to: set.target_at(at),
            version: stamp.next(),
            on: false,
        })?;
    }
    Ok(())
}
