ghost use Rattle.std.specs.Prelude.{◌≡◌, ◌≢◌, ℕ, ◌&&◌, nat_eq, nat_le, not, All, AllPairs, Contains, IfOk, List, OnOk};
ghost use Rattle.std.specs.Cmp.Lexicographic.{pointwise};
ghost use Rattle.tap_name.specs.Name.{IsName};
ghost use Rattle.tap_name.specs.Order.{sorted};
ghost use Rattle.tap_name.specs.Prefix.{lcp};
ghost use Rattle.tap_table.specs.Members.{IsBelow, holders_at_rest, holds, table_at_rest};
ghost use Rattle.tap_table.specs.Table.{IsTable, offered};

use crate::memory::NoMemory;
use crate::table::Table;
use std::alloc::Global;
use tap_name::{List, Name, Settings};
use tap_register::Registers;

// The members in ascending order.
pub(crate) fn sorted_names(alloc: Global, members: &List<Name>) -> Result<Vec<Name>, NoMemory>
    ensures { IfOk result (λ names. names.items ≡ sorted members.now) }
{
    let mut names = Vec::from_slice(alloc, members.as_slice())?;
    names.sort()?;
    Ok(names)
}

// The table of an owner with settled links to the first of these names that fit each slot.
pub(crate) fn table_over(
    alloc: Global,
    owner: Name,
    settings: &Settings,
    names: &[Name],
) -> Result<Table, NoMemory>
    requires owner { IsName settings.now owner }
    requires names { All (IsName settings.now) names.now }
    requires ascending { AllPairs IsBelow names.now }
    ensures value { IfOk result (λ table. table ≡ table_at_rest settings.now owner names.now) }
    ensures valid { IfOk result IsTable }
{
    let mut table = Table::new(alloc, owner, settings)?;
    for name in names {
        settle_on(&mut table, *name)?;
    }
    Ok(table)
}

// Offers a name to a table, unless it is the owner.
fn settle_on(table: &mut Table, name: Name) -> Result<(), NoMemory>
    requires { IsName table.old.settings name }
    ensures owner { OnOk result (name ≡ table.old.owner → table.new ≡ table.old) }
    ensures other { OnOk result (name ≢ table.old.owner → table.new ≡ offered table.old name) }
{
    if name != table.owner() {
        table.offer(name)?;
    }
    Ok(())
}

// The registers of those of these names whose tables over them have a link to the owner, which is one of them.
pub(crate) fn holders_over(
    alloc: Global,
    owner: &Name,
    settings: &Settings,
    names: &[Name],
) -> Result<Registers<Name, bool>, NoMemory>
    requires owner { IsName settings.now owner.now }
    requires names { All (IsName settings.now) names.now }
    requires ascending { AllPairs IsBelow names.now }
    requires among { Contains names.now owner.now }
    ensures { IfOk result (λ holders. holders ≡ holders_at_rest settings.now owner.now names.now names.now) }
{
    let mut holders = Registers::new(alloc);
    let least = least_shared(settings, owner, names);
    for member in names {
        if is_holder(owner, least, member) {
            holders.push_last(*member, 0, true)?;
        }
    }
    Ok(holders)
}

// How many digits another name shares with the owner at the least, if its table over these names has a link to the owner.
//
// What stands in the other name's slot for the owner are the names that share more digits with the owner than it does, and
// the nearer below the owner, the more they share. So the owner has a place there if the name that is `width` places below
// the owner shares no more.
fn least_shared(settings: &Settings, owner: &Name, names: &[Name]) -> usize
    requires owner { IsName settings.now owner.now }
    requires names { All (IsName settings.now) names.now }
    requires ascending { AllPairs IsBelow names.now }
    requires among { Contains names.now owner.now }
    ensures { (other : List ℕ) → IsName settings.now other → other ≢ owner.now
        → (holds settings.now owner.now names.now other ≡ nat_le result (lcp other owner.now)) }
{
    let width = settings.width() as usize;
    let below = names.partition_point(|name| *name < *owner);
    if below < width {
        0
    } else {
        names[below - width].lcp(owner)
    }
}

// Whether a member is a holder of the owner: another one, which shares as many digits with it as a holder does at the least.
fn is_holder(owner: &Name, least: usize, member: &Name) -> bool
    ensures { result ≡ (not (pointwise nat_eq member.now owner.now) && nat_le least (lcp member.now owner.now)) }
{
    *member != *owner && least <= member.lcp(owner)
}
