use crate::clock::CANNOT;
use crate::scene_calls::{CALLS, Run, make};
use anyhow::{Context, Result};
use std::io;
use std::rt::Clock;

// How often each call is made without words.
const FEW: usize = 4;

/// Makes each step of a node a few times.
pub(crate) fn make_each(rt: &(impl AllocGlobal + Clock + Print)) -> Result<()> {
    for (name, call) in CALLS {
        print_run(rt, name, &make(rt, call, FEW).context(CANNOT)?)?;
    }
    Ok(())
}

// Prints what a few calls gave.
fn print_run(rt: &impl Print, name: &str, run: &Run) -> io::Result<()> {
    println!(rt;
        "{name}: {FEW} calls sent {} frames of {} bytes, and left {} settled links and {} pins",
        run.sent.frames, run.sent.bytes, run.links.settled, run.links.pins
    )
}

/// Times the step of this name, if there is one, from the bytes of a frame to the bytes of those that are sent.
pub(crate) fn time(
    rt: &(impl AllocGlobal + Clock + Print),
    wanted: &str,
    count: usize,
) -> Result<bool> {
    for (name, call) in CALLS {
        if name == wanted {
            let run = make(rt, call, count).context(CANNOT)?;
            print_time(rt, name, run.nanoseconds / count.max(1) as u128)?;
            return Ok(true);
        }
    }
    Ok(false)
}

// Prints the nanoseconds of a call.
fn print_time(rt: &impl Print, name: &str, each: u128) -> io::Result<()> {
    println!(rt; "{name}: {each} ns a call")
}
