use crate::clock::{CANNOT, Run};
use crate::{covers, hellos, pairs};
use anyhow::{Context, Result};
use std::io;
use std::rt::Clock;

// A call, or some that belong together.
#[derive(Clone, Copy)]
enum Call {
    Cover,
    Hello,
    Publish,
    ReconcilePair,
    Reconcile,
}

const CALLS: [(&str, Call); 5] = [
    ("cover", Call::Cover),
    ("hello", Call::Hello),
    ("publish", Call::Publish),
    ("reconcile-pair", Call::ReconcilePair),
    ("reconcile", Call::Reconcile),
];

impl Call {
    // The sizes with which it is made without words.
    fn sizes(self) -> [u32; 2] {
        match self {
            Call::Cover => [8, 40],
            Call::Hello => [0, 255],
            Call::Publish | Call::ReconcilePair | Call::Reconcile => [10, 100],
        }
    }

    // What it gives.
    fn gives(self) -> &'static str {
        match self {
            Call::Cover => "links offered and nodes told",
            Call::Hello => "words of links",
            Call::Publish | Call::ReconcilePair | Call::Reconcile => "Lays",
        }
    }
}

// Makes a call so many times; none if it can't be made.
fn make(rt: &(impl AllocGlobal + Clock), call: Call, size: u32, count: u32) -> Option<Run> {
    match call {
        Call::Cover => covers::cover_first(rt, size, count),
        Call::Hello => hellos::take_hellos(rt, size, count),
        Call::Publish => pairs::publish_all(rt, size, count),
        Call::ReconcilePair => pairs::touch_one(rt, size, count),
        Call::Reconcile => pairs::change_a_primary(rt, size, count),
    }
}

/// Makes each call of a part of a node twice, with each of its sizes.
pub(crate) fn make_each(rt: &(impl AllocGlobal + Clock + Print)) -> Result<()> {
    for (name, call) in CALLS {
        for size in call.sizes() {
            let run = make(rt, call, size, 2).context(CANNOT)?;
            print_run(rt, name, size, run.gave, call.gives())?;
        }
    }
    Ok(())
}

// Prints what two calls gave.
fn print_run(rt: &impl Print, name: &str, size: u32, gave: u64, what: &str) -> io::Result<()> {
    println!(rt; "{name} {size}: 2 calls gave {gave} {what}")
}

/// Times the call of this name, if there is one, with this size: of a cover the number of digits, 8 or 40, of a Hello that of its
/// links, and of the other calls that of the pairs.
pub(crate) fn time(
    rt: &(impl AllocGlobal + Clock + Print),
    wanted: &str,
    size: u32,
    count: u32,
) -> Result<bool> {
    for (name, call) in CALLS {
        if name == wanted {
            let run = make(rt, call, size, count).context(CANNOT)?;
            print_time(rt, name, size, run.each(count))?;
            return Ok(true);
        }
    }
    Ok(false)
}

// Prints the nanoseconds of a call.
fn print_time(rt: &impl Print, name: &str, size: u32, each: u128) -> io::Result<()> {
    println!(rt; "{name} {size}: {each} ns a call")
}
