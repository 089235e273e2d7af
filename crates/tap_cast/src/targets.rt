ghost use Rattle.std.specs.Prelude.{◌≡◌, ◌+◌, ◌<◌, ◌≤◌, ◌++◌, map, IfOk, OnOk};
ghost use Rattle.std.specs.List.{flat_map};
ghost use Rattle.tap_link.specs.LinkSet.{least_settled};
ghost use Rattle.tap_table.specs.ByName.{slots_in};
ghost use Rattle.tap_table.specs.Levels.{is_between};
ghost use Rattle.tap_cast.specs.Targets.{cast_targets, pins_of, primary_or_pins, slot_targets, told_at};

use crate::target::CastTarget;
use std::alloc::Global;
use tap_link::LinkSet;
use tap_name::{Name, Slot};
use tap_table::{NoMemory, SlotRange, Table};

// The targets of a cast at the levels from one on and below another, ascending.
pub(crate) fn cast_targets(
    alloc: Global,
    table: &Table,
    from: u8,
    to: u8,
) -> Result<Vec<CastTarget>, NoMemory>
    ensures { IfOk result (λ targets. targets.items ≡ cast_targets table.now from to) }
{
    let mut targets = Vec::new(alloc);
    let ranges = 2 * table.settings().digits() as usize;
    for i in 0..ranges {
        let range = table.range_by_name(i);
        if is_between(from, to, range.level) {
            push_range(&mut targets, table, range)?;
        }
    }
    Ok(targets)
}

// Whether a level is this one or above, and below another.
fn is_between(from: u8, to: u8, level: u8) -> bool
    ensures { result ≡ is_between from to level }
{
    from <= level && level < to
}

// Adds the targets of these slots.
fn push_range(
    targets: &mut Vec<CastTarget>,
    table: &Table,
    range: SlotRange,
) -> Result<(), NoMemory>
    requires level { range.level < table.now.settings.digits }
    requires end { range.to ≤ table.now.settings.base }
    requires small { range.level < 255 }
    ensures { OnOk result (targets.new.items
        ≡ targets.old.items ++ flat_map (slot_targets table.now) (slots_in range)) }
{
    for digit in range.from..range.to {
        let slot = Slot {
            level: range.level,
            digit,
        };
        push_slot(targets, range.level + 1, table.slot(slot))?;
    }
    Ok(())
}

// Adds the targets of a slot with these links: the primary, or if there is none all pins.
fn push_slot(targets: &mut Vec<CastTarget>, level: u8, set: &LinkSet<Name>) -> Result<(), NoMemory>
    ensures { OnOk result (targets.new.items ≡ targets.old.items
        ++ map (told_at level) (primary_or_pins (least_settled set.now.links) set.now.links)) }
{
    match set.primary() {
        Some(to) => {
            targets.push(CastTarget { to, level })?;
            Ok(())
        }
        None => push_pins(targets, level, set),
    }
}

// Adds all pins of these links.
fn push_pins(targets: &mut Vec<CastTarget>, level: u8, set: &LinkSet<Name>) -> Result<(), NoMemory>
    ensures { OnOk result (targets.new.items ≡ targets.old.items ++ map (told_at level) (pins_of set.now.links)) }
{
    for at in 0..set.len() {
        if set.kind_at(at).is_pin() {
            targets.push(CastTarget {
                to: set.target_at(at),
                level,
            })?;
        }
    }
    Ok(())
}
