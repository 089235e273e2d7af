ghost use Rattle.std.specs.Prelude.{◌≡◌, IfSome, OnSome};
ghost use Rattle.tap_name.specs.Name.{IsName};
ghost use Rattle.tap_pointer.specs.Pointers.{own_pair};
ghost use Rattle.tap_pointer.specs.Reconcile.{AreLaidBut, AreNamesHeld};
ghost use Rattle.tap_bench.specs.Settled.{AreSettled};

use crate::clock::Run;
use crate::part_tables::{empty, link, name_in, same_digits, settings};
use std::alloc::Global;
use std::rt::Clock;
use std::time::Instant;
use tap_name::{Name, Settings};
use tap_pointer::Pointers;
use tap_register::Stamp;
use tap_table::Table;

/// Publishes so many objects, one after the other, and reconciles after each, so many times from nothing.
pub(crate) fn publish_all(rt: &(impl AllocGlobal + Clock), pairs: u32, count: u32) -> Option<Run> {
    let table = full_of_zeros(rt.alloc())?;
    let start = Instant::now(rt).ok()?;
    let mut gave = 0u64;
    for _turn in 0..count {
        let mut stamp = Stamp::new();
        let _pointers = published(rt.alloc(), &table, &mut stamp, pairs)?;
        gave = gave.saturating_add(u64::from(stamp.last()));
    }
    Run::since(rt, start, gave)
}

/// Withdraws one of so many objects and publishes it again, so many times, and reconciles its pair after each of the two.
pub(crate) fn touch_one(rt: &(impl AllocGlobal + Clock), pairs: u32, count: u32) -> Option<Run> {
    let table = full_of_zeros(rt.alloc())?;
    let mut stamp = Stamp::new();
    let mut pointers = published(rt.alloc(), &table, &mut stamp, pairs)?;
    let object = object_of(&table.settings(), pairs / 2)?;
    let before = stamp.last();
    let start = Instant::now(rt).ok()?;
    touch(&mut pointers, &table, &mut stamp, object, count)?;
    Run::since(rt, start, u64::from(stamp.last().saturating_sub(before)))
}

/// Changes the primary of a slot of level 0 and changes it back, so many times, and reconciles all pairs after each of the
/// two.
pub(crate) fn change_a_primary(
    rt: &(impl AllocGlobal + Clock),
    pairs: u32,
    count: u32,
) -> Option<Run> {
    let settings = settings(8)?;
    let owner = same_digits(&settings, 0)?;
    let table = full(rt.alloc(), &settings, owner)?;
    let changed = full_but_one(rt.alloc(), &settings, owner)?;
    let mut stamp = Stamp::new();
    let mut pointers = published(rt.alloc(), &table, &mut stamp, pairs)?;
    let before = stamp.last();
    let start = Instant::now(rt).ok()?;
    change(&mut pointers, &changed, &table, &mut stamp, count)?;
    Run::since(rt, start, u64::from(stamp.last().saturating_sub(before)))
}

// Withdraws an object and publishes it again, so many times.
fn touch(
    pointers: &mut Pointers,
    table: &Table,
    stamp: &mut Stamp,
    object: Name,
    count: u32,
) -> Option<()>
    requires settled { AreSettled table.now pointers.old }
    requires name { IsName table.now.settings object }
{
    for _turn in 0..count {
        withdraw(pointers, table, stamp, object)?;
        publish(pointers, table, stamp, object)?;
    }
    Some(())
}

// Reconciles all pairs over a changed table and then over the table of before, so many times.
fn change(
    pointers: &mut Pointers,
    changed: &Table,
    table: &Table,
    stamp: &mut Stamp,
    count: u32,
) -> Option<()>
    requires settled { AreSettled table.now pointers.old }
    requires owner { changed.now.owner ≡ table.now.owner }
    requires settings { changed.now.settings ≡ table.now.settings }
{
    for _turn in 0..count {
        reconcile(pointers, changed, stamp)?;
        reconcile(pointers, table, stamp)?;
    }
    Some(())
}

// The table of the name of eight zeros with a link in each slot.
fn full_of_zeros(alloc: Global) -> Option<Table> {
    let settings = settings(8)?;
    full(alloc, &settings, same_digits(&settings, 0)?)
}

// The table of a node with a link in each slot.
fn full(alloc: Global, settings: &Settings, owner: Name) -> Option<Table>
    requires { IsName settings.now owner }
    ensures owner { IfSome result (λ table. table.owner ≡ owner) }
    ensures settings { IfSome result (λ table. table.settings ≡ settings.now) }
{
    let mut table = empty(alloc, settings, owner)?;
    for number in 0..128usize {
        let name = name_in(settings, number / 16, (number % 16) as u8, 5)?;
        link(&mut table, name, true)?;
    }
    Some(table)
}

// The same, with another primary in the slot of level 0 and digit 1.
fn full_but_one(alloc: Global, settings: &Settings, owner: Name) -> Option<Table>
    requires { IsName settings.now owner }
    ensures owner { IfSome result (λ table. table.owner ≡ owner) }
    ensures settings { IfSome result (λ table. table.settings ≡ settings.now) }
{
    let mut table = full(alloc, settings, owner)?;
    let name = name_in(settings, 0, 1, 0)?;
    link(&mut table, name, true)?;
    Some(table)
}

// The object of this number: they are spread over all names, and no two are the same.
fn object_of(settings: &Settings, number: u32) -> Option<Name>
    ensures { IfSome result (IsName settings.now) }
{
    let mut left = number.wrapping_mul(2654435761);
    let mut digits = [0; 8];
    for digit in digits.iter_mut() {
        *digit = (left % 16) as u8;
        left /= 16;
    }
    Name::from_digits(settings, &digits).ok()
}

// A node that has published so many objects, one after the other, and reconciled after each.
fn published(alloc: Global, table: &Table, stamp: &mut Stamp, pairs: u32) -> Option<Pointers>
    ensures { IfSome result (AreSettled table.now) }
{
    let settings = table.settings();
    let mut pointers = Pointers::new(alloc, table.owner());
    for number in 0..pairs {
        let object = object_of(&settings, number)?;
        publish(&mut pointers, table, stamp, object)?;
    }
    Some(pointers)
}

// Publishes an object, and reconciles its pair.
fn publish(pointers: &mut Pointers, table: &Table, stamp: &mut Stamp, object: Name) -> Option<()>
    requires settled { AreSettled table.now pointers.old }
    requires name { IsName table.now.settings object }
    ensures { OnSome result (AreSettled table.now pointers.new) }
{
    let Ok(_first) = pointers.publish(object) else {
        return None;
    };
    settle(pointers, table, stamp, object)
}

// Withdraws an object, and reconciles its pair.
fn withdraw(pointers: &mut Pointers, table: &Table, stamp: &mut Stamp, object: Name) -> Option<()>
    requires settled { AreSettled table.now pointers.old }
    requires name { IsName table.now.settings object }
    ensures { OnSome result (AreSettled table.now pointers.new) }
{
    pointers.withdraw(object);
    settle(pointers, table, stamp, object)
}

// Reconciles the pair of an object that the node itself serves.
fn settle(pointers: &mut Pointers, table: &Table, stamp: &mut Stamp, object: Name) -> Option<()>
    requires owner { table.now.owner ≡ pointers.old.owner }
    requires names { AreNamesHeld table.now.settings pointers.old }
    requires others { AreLaidBut table.now (own_pair pointers.old object) pointers.old }
    ensures { OnSome result (AreSettled table.now pointers.new) }
{
    if 4_000_000_000 < stamp.last() {
        return None;
    }
    let server = pointers.owner();
    let Ok(_lays) = pointers.reconcile_pair(table, stamp, object, server) else {
        return None;
    };
    Some(())
}

// Reconciles all pairs.
fn reconcile(pointers: &mut Pointers, table: &Table, stamp: &mut Stamp) -> Option<()>
    requires owner { table.now.owner ≡ pointers.old.owner }
    requires names { AreNamesHeld table.now.settings pointers.old }
    ensures { OnSome result (AreSettled table.now pointers.new) }
{
    if 4_000_000_000 < stamp.last() || 10_000_000 < pointers.span() {
        return None;
    }
    let Ok(_lays) = pointers.reconcile(table, stamp) else {
        return None;
    };
    Some(())
}
