//! Times single calls: `tap_bench CALL COUNT` for a call on a frame or a table, as in `tap_bench decode-hello 100000`, and for a step of a
//! node, from the bytes of a frame to the bytes of those that are sent, as in `tap_bench release 10000`; `tap_bench CALL SIZE COUNT` for a
//! call of a part of a node, as in `tap_bench cover 40 1000`. It prints the nanoseconds of a call.
//!
//! Without words it makes each call a few times and prints what that gave, so that the output is always the same.
#![tactic(auto)]

mod clock;
mod covers;
mod full_tables;
mod hellos;
mod joins;
mod lists;
mod members;
mod names;
mod node_calls;
mod node_frames;
mod pairs;
mod part_calls;
mod part_tables;
mod scene_calls;
mod scenes;
mod steps;
mod value_calls;
mod value_frames;

use anyhow::{Context, Result, bail};

// Makes each call a few times.
fn make_each(rt: &HostRuntime) -> Result<()> {
    value_calls::make_each(rt)?;
    part_calls::make_each(rt)?;
    node_calls::make_each(rt)
}

// The number that a word spells.
fn number(word: &str) -> Result<u32> {
    word.parse::<u32>()
        .context("how many times, and which size?")
}

fn main(rt: HostRuntime) -> Result<()> {
    let mut words = std::env::args(&rt)?.skip(1);
    let Some(wanted) = words.next() else {
        return make_each(&rt);
    };
    let first = words.next().context("how many times?")?;
    let first = number(first.as_str())?;
    let known = match words.next() {
        Some(count) => part_calls::time(&rt, wanted.as_str(), first, number(count.as_str())?)?,
        None => value_calls::time(&rt, wanted.as_str(), first)?
            || node_calls::time(&rt, wanted.as_str(), first as usize)?,
    };
    if !known {
        bail!("no such call with as many numbers: without words all calls are printed");
    }
    Ok(())
}
