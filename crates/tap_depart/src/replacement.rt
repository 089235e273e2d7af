ghost use Rattle.std.specs.Prelude.{◌≡◌, ℕ, ◌<◌, ◌≤◌};
ghost use Rattle.std.specs.List.{flat_map};
ghost use Rattle.tap_table.specs.ByName.{slots_in};
ghost use Rattle.tap_table.specs.Table.{IsTable, links_at};
ghost use Rattle.tap_depart.specs.Replacement.{first_above, least_above, replacement_for};

use tap_name::{Name, Slot};
use tap_table::{SlotRange, Table};

// The replacement for a holder.
pub(crate) fn replacement_for(table: &Table, holder: &Name) -> Option<Name>
    ensures { result ≡ replacement_for table.now holder.now }
{
    least_above(table, holder.lcp(&table.owner()))
}

// The least settled link of a table at levels above this one.
fn least_above(table: &Table, level: usize) -> Option<Name>
    ensures { result ≡ least_above table.now level }
{
    let ranges = 2 * table.settings().digits() as usize;
    for i in 0..ranges {
        let range = table.range_by_name(i);
        if range.level as usize > level {
            let first = first_primary(table, range);
            if first.is_some() {
                return first;
            }
        }
    }
    None
}

// The first primary of these slots.
fn first_primary(table: &Table, range: SlotRange) -> Option<Name>
    requires valid { IsTable table.now }
    requires level { range.level < table.now.settings.digits }
    requires end { range.to ≤ table.now.settings.base }
    ensures { (level : ℕ) → level < range.level
        → result ≡ first_above table.now.owner level (flat_map (links_at table.now) (slots_in range)) }
{
    for digit in range.from..range.to {
        let primary = table.primary(Slot {
            level: range.level,
            digit,
        });
        if primary.is_some() {
            return primary;
        }
    }
    None
}
