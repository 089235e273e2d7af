//! A table of cases: it reads lines of standard input one after another, and prints what nodes do and answer.
//!
//! | Line | What it does |
//! |---|---|
//! | empty, or from `#` on | printed as it is |
//! | `settings BASE DIGITS WIDTH` | begins anew: no node, and no frame under way |
//! | `member N of N..` | makes a core node, with its ties at rest among these members, of which it is one |
//! | `caster N CAST LEVEL WORD of N..` | makes such a member, which begins this cast at once |
//! | `joiner N` | makes a joining node |
//! | `seek N VIA`, `abandon N`, `leave N` | its join starts, or is given up; it leaves |
//! | `publish N OBJECT`, `withdraw N OBJECT`, `find N TICKET OBJECT` | it publishes, withdraws or looks up an object |
//! | `take N HEX` | hands it these bytes; without HEX, none |
//! | `deliver K` | hands the frame at place K of those under way, from 0 and the oldest first, to its receiver |
//! | `drain` | hands on the oldest frame until none is under way |
//! | `state N` | prints its status, links, held pairs, and sessions of joins |
//!
//! Each line is printed after `> `, and then what came of it, in the lines of the text of a log (docs/FORMATS.md); a refusal
//! as `refused` and its cause. After a start and after `take` the status follows. What can't be done, as a start that the
//! status forbids or a node that isn't there, and what isn't in the table, is printed as `cannot read: LINE`.
#![tactic(auto)]

mod held_node;
mod lines;
mod members;
mod print;
mod system;

use anyhow::{Context, Result};
use system::System;
use tap_name::Settings;

fn main(rt: HostRuntime) -> Result<()> {
    let settings = Settings::new(2, 1, 1).context("the settings")?;
    let mut system = System::new(rt.alloc(), settings);
    run(&rt, &mut system)
}

// Does what the lines say, one after another.
fn run(rt: &HostRuntime, system: &mut System) -> Result<()> {
    for line in rt.lines(rt.alloc()) {
        lines::follow(rt, system, line?.as_str())?;
    }
    Ok(())
}
