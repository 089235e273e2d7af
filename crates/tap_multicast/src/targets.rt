ghost use Rattle.std.specs.Prelude.{◌≡◌, ◌<◌, ◌≤◌, ◌++◌, IfOk, OnOk};
ghost use Rattle.std.specs.List.{flat_map};
ghost use Rattle.tap_table.specs.ByName.{slots_in};
ghost use Rattle.tap_multicast.specs.Slots.{told_among, told_in};
ghost use Rattle.tap_multicast.specs.Targets.{targets};

use crate::cover::Cover;
use crate::target::Target;
use std::alloc::Global;
use tap_link::LinkSet;
use tap_name::{Name, Slot};
use tap_table::{NoMemory, SlotRange, Table};

// The targets of a cover, ascending by name.
pub(crate) fn targets(alloc: Global, table: &Table, cover: &Cover) -> Result<Vec<Target>, NoMemory>
    ensures { IfOk result (λ list. list.items ≡ targets table.now cover.now) }
{
    let mut targets = Vec::new(alloc);
    let ranges = 2 * table.settings().digits() as usize;
    for i in 0..ranges {
        let range = table.range_by_name(i);
        if cover.is_told_over(range.level) {
            push_range(&mut targets, table, cover, range)?;
        }
    }
    Ok(targets)
}

// Adds the targets in these slots.
fn push_range(
    targets: &mut Vec<Target>,
    table: &Table,
    cover: &Cover,
    range: SlotRange,
) -> Result<(), NoMemory>
    requires level { range.level < table.now.settings.digits }
    requires end { range.to ≤ table.now.settings.base }
    requires small { range.level < 255 }
    ensures { OnOk result (targets.new.items
        ≡ targets.old.items ++ flat_map (told_in table.now cover.now) (slots_in range)) }
{
    if !table.may_have_links_from(range.level as usize) {
        return Ok(());
    }
    for digit in range.from..range.to {
        let slot = Slot {
            level: range.level,
            digit,
        };
        push_slot(targets, cover, range.level, table.slot(slot))?;
    }
    Ok(())
}

// Adds the targets among the links of a slot of this level.
fn push_slot(
    targets: &mut Vec<Target>,
    cover: &Cover,
    level: u8,
    set: &LinkSet<Name>,
) -> Result<(), NoMemory>
    requires { level < 255 }
    ensures { OnOk result (targets.new.items ≡ targets.old.items ++ told_among cover.now level set.now.links) }
{
    let primary = set.primary();
    for at in 0..set.len() {
        let to = set.target_at(at);
        if cover.tells(level, &primary, &to, set.kind_at(at)) {
            targets.push(Target {
                to,
                level: level + 1,
            })?;
        }
    }
    Ok(())
}
