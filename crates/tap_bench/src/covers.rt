ghost use Rattle.std.specs.Prelude.{◌≡◌, All, true};
ghost use Rattle.tap_name.specs.Name.{IsName};
ghost use Rattle.tap_multicast.specs.Covers.{MayCover, MayWatch};

use crate::clock::Run;
use crate::part_tables::{empty, link, name_in, same_digits, settings};
use std::alloc::Global;
use std::rt::Clock;
use std::time::Instant;
use tap_link::Kind;
use tap_multicast::{Covered, Covers};
use tap_name::{Name, Settings};
use tap_table::Table;
use tap_watch::Watch;

// How many links the node has.
const LINKS: usize = 255;

/// Has a node cover a joiner for the first time, so many times. The node has 255 links and is the joiner's surrogate: they
/// share no digit.
pub(crate) fn cover_first(rt: &(impl AllocGlobal + Clock), digits: u32, count: u32) -> Option<Run> {
    let settings = settings(if digits == 40 { 40 } else { 8 })?;
    let joiner = same_digits(&settings, 15)?;
    let table = surrogate_of(rt.alloc(), &settings, joiner)?;
    let watch = Watch::full(rt.alloc(), &joiner, &settings, 0).ok()?;
    let start = Instant::now(rt).ok()?;
    let gave = covers_of_pinned(rt.alloc(), &table, joiner, &watch, count)?;
    Run::since(rt, start, gave)
}

// The table of the name of zeros with a pin on the joiner, and 255 links in all.
fn surrogate_of(alloc: Global, settings: &Settings, joiner: Name) -> Option<Table>
    requires { IsName settings.now joiner }
{
    let mut table = empty(alloc, settings, same_digits(settings, 0)?)?;
    link(&mut table, joiner, false)?;
    fill(&mut table, settings.digits() as usize)?;
    Some(table)
}

// Sees that the joiner is pinned and the watch is of level 0, and covers the joiner first, so many times.
fn covers_of_pinned(
    alloc: Global,
    table: &Table,
    joiner: Name,
    watch: &Watch,
    count: u32,
) -> Option<u64> {
    if table.kind_of(joiner) != Some(Kind::Pin) {
        return None;
    }
    let settings = table.settings();
    if !is_of_level_0(watch, settings.base()) {
        return None;
    }
    covers_of(alloc, table, joiner, watch, count)
}

// Covers a joiner first, so many times, and says how many links were offered and nodes told.
fn covers_of(alloc: Global, table: &Table, joiner: Name, watch: &Watch, count: u32) -> Option<u64>
    requires { MayCover table.now watch.now joiner 0 0 }
{
    let mut gave = 0u64;
    for _turn in 0..count {
        let mut covers = Covers::new(alloc);
        let covered = covers.cover(joiner, 0, 0, watch, table).ok()?;
        gave = gave.saturating_add(given(covered)?);
    }
    Some(gave)
}

// How many links a cover offers and nodes it tells.
fn given(covered: Covered) -> Option<u64> {
    match covered {
        Covered::Already => None,
        Covered::Now {
            first: _first,
            offer,
            targets,
            left: _left,
        } => Some((offer.len() as u64).saturating_add(targets.len() as u64)),
    }
}

// Adds links in all slots in turn until there are 255: up to two settled ones in a slot, and then pins.
fn fill(table: &mut Table, digits: usize) -> Option<()> {
    for number in 0..2048usize {
        if table.len() == LINKS {
            return Some(());
        }
        let place = number / digits.max(1);
        let turn = place / 15;
        let settings = table.settings();
        let name = name_in(
            &settings,
            number % digits.max(1),
            (place % 15 + 1) as u8,
            (turn % 16) as u8,
        )?;
        link(table, name, turn < 2)?;
    }
    None
}

// Whether each slot of a watch has level 0 and a digit below the base.
fn is_of_level_0(watch: &Watch, base: u8) -> bool
    ensures { result ≡ true → All (MayWatch base 0) watch.now }
{
    for slot in watch.as_slice() {
        if slot.level != 0 {
            return false;
        }
        if base <= slot.digit {
            return false;
        }
    }
    true
}
