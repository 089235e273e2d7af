ghost use Rattle.std.specs.Prelude.{◌≡◌, IfSome};
ghost use Rattle.tap_name.specs.Name.{IsName};
ghost use Rattle.tap_bench.specs.Settings.{measured};

use std::alloc::Global;
use tap_link::LinkSet;
use tap_name::{Name, Settings, Slot};
use tap_table::{Next, Table};

// How many slots a table has with base 16 and eight digits.
const SLOTS: usize = 128;

/// How many bytes the link sets of such a table take, which are made in one allocation.
pub(crate) fn bytes_of_table() -> usize {
    std::mem::size_of::<LinkSet<Name>>().saturating_mul(SLOTS)
}

// Offers a table the name of these digits.
fn offer(table: &mut Table, settings: &Settings, digits: &[u8]) -> Option<()>
    requires measured { settings.now ≡ measured }
    requires table { table.old.settings ≡ measured }
    ensures { table.new.settings ≡ measured }
{
    let name = Name::from_digits(settings, digits).ok()?;
    if name != table.owner() {
        table.offer(name).ok()?;
    }
    Some(())
}

/// The table of the name of eight zeros, base 16 and width 2, with two links in each slot that two names fit, and one
/// elsewhere: 225 links.
pub(crate) fn full(alloc: Global) -> Option<Table>
    ensures { IfSome result (λ table. table.settings ≡ measured) }
{
    let settings = Settings::new(16, 8, 2)?;
    let owner = Name::from_digits(&settings, &[0; 8]).ok()?;
    let mut table = Table::new(alloc, owner, &settings).ok()?;
    for number in 0..SLOTS {
        let mut digits = [0; 8];
        digits[number / 16] = (number % 16) as u8;
        offer(&mut table, &settings, &digits)?;
        digits[7] = (number % 16) as u8;
        offer(&mut table, &settings, &digits)?;
    }
    Some(table)
}

/// Asks how many links there are, so many times, and adds up the answers.
pub(crate) fn lens(table: &Table, count: u32) -> u64 {
    let mut links = 0u64;
    for _turn in 0..count {
        links = links.saturating_add(table.len() as u64);
    }
    links
}

/// Asks for the primary of one slot after the other, so many times, and says how often there was one.
pub(crate) fn primaries(table: &Table, count: u32) -> u64
    requires { table.now.settings ≡ measured }
{
    let mut found = 0u64;
    for turn in 0..count {
        let slot = Slot {
            level: (turn / 16 % 8) as u8,
            digit: (turn % 16) as u8,
        };
        if table.primary(slot).is_some() {
            found = found.saturating_add(1);
        }
    }
    found
}

/// Asks for the next hop towards an object from one level after the other, so many times, and says how often there was
/// one. The object shares all digits but the last one with the owner, so a call goes through up to eight levels.
pub(crate) fn next_hops(table: &Table, object: &Name, count: u32) -> u64
    requires table { table.now.settings ≡ measured }
    requires object { IsName measured object.now }
{
    let mut found = 0u64;
    for turn in 0..count {
        let level = (turn % 8) as usize;
        if let Next::Hop { .. } = table.next_hop(object, level) {
            found = found.saturating_add(1);
        }
    }
    found
}

/// The object towards which the next hops go.
pub(crate) fn object() -> Option<Name>
    ensures { IfSome result (IsName measured) }
{
    let settings = Settings::new(16, 8, 2)?;
    Name::from_digits(&settings, &[0, 0, 0, 0, 0, 0, 0, 9]).ok()
}
