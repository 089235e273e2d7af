ghost use Rattle.std.specs.Prelude.{All, IfSome};
ghost use Rattle.tap_name.specs.Name.{IsName};

use crate::clock::Run;
use crate::part_tables::{name_in, same_digits, settings};
use std::alloc::Global;
use std::rt::Clock;
use std::time::Instant;
use tap_join::Joining;
use tap_name::{List, Name, Offered, Settings};
use tap_register::Stamp;

/// Starts a join and takes its first Hello, with so many links, so many times. The sender is a core node, and two of three
/// links are settled.
pub(crate) fn take_hellos(rt: &(impl AllocGlobal + Clock), links: u32, count: u32) -> Option<Run> {
    let settings = settings(8)?;
    let joiner = same_digits(&settings, 0)?;
    let from = same_digits(&settings, 15)?;
    let links = links_of(rt.alloc(), &settings, links)?;
    let start = Instant::now(rt).ok()?;
    let mut gave = 0u64;
    for _turn in 0..count {
        let words = words_of_hello(rt.alloc(), &settings, joiner, from, &links)?;
        gave = gave.saturating_add(words as u64);
    }
    Run::since(rt, start, gave)
}

// Starts a join and takes its first Hello, and says how many words this gives.
fn words_of_hello(
    alloc: Global,
    settings: &Settings,
    joiner: Name,
    from: Name,
    links: &List<Offered>,
) -> Option<usize>
    requires joiner { IsName settings.now joiner }
    requires from { IsName settings.now from }
    requires links { All (λ link. IsName settings.now link.name) links.now }
{
    if 1000 < links.len() {
        return None;
    }
    let mut stamp = Stamp::new();
    let mut joining = Joining::start(alloc, joiner, settings).ok()?;
    let words = joining.hello(&mut stamp, from, true, links).ok()?;
    Some(words.len())
}

// Links of all slots but those of the last level, in turn, at most 315: two settled ones in a slot, and then a pin.
fn links_of(alloc: Global, settings: &Settings, count: u32) -> Option<List<Offered>>
    ensures { IfSome result (All (λ link. IsName settings.now link.name)) }
{
    let mut links = List::new(alloc);
    for number in 0..count.min(315) as usize {
        let place = number / 7;
        let turn = place / 15;
        let name = name_in(settings, number % 7, (place % 15 + 1) as u8, turn as u8)?;
        let settled = turn < 2;
        links.push(Offered { name, settled }).ok()?;
    }
    Some(links)
}
