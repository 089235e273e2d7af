ghost use Rattle.std.specs.Prelude.{◌≡◌, IfSome, OnSome};
ghost use Rattle.tap_name.specs.Name.{IsName};

use std::alloc::Global;
use tap_name::{Name, Settings};
use tap_table::Table;

/// The settings with names of so many digits: base 16, width 2.
pub(crate) fn settings(digits: u8) -> Option<Settings> {
    Settings::new(16, digits, 2)
}

/// The name that has this digit in each place.
pub(crate) fn same_digits(settings: &Settings, digit: u8) -> Option<Name>
    ensures { IfSome result (IsName settings.now) }
{
    let digits = [digit; 40];
    Name::from_digits(settings, &digits[..settings.digits() as usize]).ok()
}

/// The name of zeros, with this last digit and then this digit at a level.
pub(crate) fn name_in(settings: &Settings, level: usize, digit: u8, last: u8) -> Option<Name>
    ensures { IfSome result (IsName settings.now) }
{
    let count = settings.digits() as usize;
    let mut digits = [0; 40];
    digits[count - 1] = last;
    if level < count {
        digits[level] = digit;
    }
    Name::from_digits(settings, &digits[..count]).ok()
}

/// Adds a link to a table: a settled one if its slot has room, or a pin. The owner gets no link to itself.
pub(crate) fn link(table: &mut Table, name: Name, settled: bool) -> Option<()>
    requires { IsName table.old.settings name }
    ensures owner { OnSome result (table.new.owner ≡ table.old.owner) }
    ensures settings { OnSome result (table.new.settings ≡ table.old.settings) }
{
    if name == table.owner() {
        return Some(());
    }
    if settled {
        table.offer(name).ok()?;
    } else {
        table.pin(name).ok()?;
    }
    Some(())
}

/// The table of a node without links.
pub(crate) fn empty(alloc: Global, settings: &Settings, owner: Name) -> Option<Table>
    requires { IsName settings.now owner }
    ensures owner { IfSome result (λ table. table.owner ≡ owner) }
    ensures settings { IfSome result (λ table. table.settings ≡ settings.now) }
{
    Table::new(alloc, owner, settings).ok()
}
