use crate::held_node::{Answer, HeldNode, caster};
use crate::print::{print_answer, print_state, print_status};
use crate::system::System;
use anyhow::{Context, Result, bail};
use std::io;
use tap_name::Settings;
use tap_wire::decode_head;

// More frames than any case sends.
const MOST_FRAMES: usize = 100_000;

/// Prints a line, and does as it says.
pub(crate) fn follow(
    rt: &(impl AllocGlobal + Print),
    system: &mut System,
    line: &str,
) -> Result<()> {
    if line.is_empty() || line.starts_with('#') {
        return Ok(print_line(rt, "", line)?);
    }
    print_line(rt, "> ", line)?;
    let words: Vec<&str> = line.split_whitespace().collect(rt.alloc())?;
    if !act(rt, system, words.as_slice())? {
        print_line(rt, "cannot read: ", line)?;
    }
    Ok(())
}

// Prints a line after this.
fn print_line(rt: &impl Print, before: &str, line: &str) -> io::Result<()> {
    println!(rt; "{before}{line}")
}

// Does what a line's words say, and says whether they say anything that can be done.
fn act(rt: &(impl AllocGlobal + Print), system: &mut System, words: &[&str]) -> Result<bool> {
    let Some((first, more)) = words.split_first() else {
        return Ok(false);
    };
    match *first {
        "settings" => Ok(begin(rt, system, more)),
        "member" => begin_member(rt, system, more),
        "caster" => begin_cast(rt, system, more),
        "joiner" => begin_joiner(rt, system, more),
        "take" => take(rt, system, more),
        "deliver" => deliver_at(rt, system, more),
        "drain" => drain(rt, system, more),
        "state" => state(rt, system, more),
        start => start_at(rt, system, start, more),
    }
}

// Begins anew with these settings; no if they are none.
fn begin(rt: &impl AllocGlobal, system: &mut System, words: &[&str]) -> bool {
    let Some(settings) = settings_of(words) else {
        return false;
    };
    *system = System::new(rt.alloc(), settings);
    true
}

// The settings that these words spell: their base, digits and width.
fn settings_of(words: &[&str]) -> Option<Settings> {
    let [base, digits, width] = words else {
        return None;
    };
    Settings::new(
        base.parse().ok()?,
        digits.parse().ok()?,
        width.parse().ok()?,
    )
}

// Adds a member, if the words name one.
fn begin_member(rt: &impl AllocGlobal, system: &mut System, words: &[&str]) -> Result<bool> {
    let [name, "of", members @ ..] = words else {
        return Ok(false);
    };
    let node = HeldNode::member(rt.alloc(), system.settings(), name, members)?;
    add(system, node)
}

// Adds a joining node, if the words name one.
fn begin_joiner(rt: &impl AllocGlobal, system: &mut System, words: &[&str]) -> Result<bool> {
    let [name] = words else {
        return Ok(false);
    };
    let node = HeldNode::joiner(rt.alloc(), system.settings(), name)?;
    add(system, node)
}

// Adds a node, if there is one.
fn add(system: &mut System, node: Option<HeldNode>) -> Result<bool> {
    let Some(node) = node else {
        return Ok(false);
    };
    system.add(node).context("no memory")?;
    Ok(true)
}

// Adds a member that begins a cast, and prints what it does.
fn begin_cast(
    rt: &(impl AllocGlobal + Print),
    system: &mut System,
    words: &[&str],
) -> Result<bool> {
    let [name, cast, level, word, "of", members @ ..] = words else {
        return Ok(false);
    };
    let cast = [*cast, *level, *word];
    let Some((node, answer)) = caster(rt.alloc(), system.settings(), name, cast, members)? else {
        return Ok(false);
    };
    system.add(node).context("no memory")?;
    after(rt, system, name, Some(answer))
}

// Hands bytes to a node, and prints what it answers. Without further words they are none.
fn take(rt: &(impl AllocGlobal + Print), system: &mut System, words: &[&str]) -> Result<bool> {
    match words {
        [name] => take_bytes(rt, system, name, &[]),
        [name, spelled] => take_spelled(rt, system, name, spelled),
        _ => Ok(false),
    }
}

// Hands the bytes that this spells to a node, and prints what it answers.
fn take_spelled(
    rt: &(impl AllocGlobal + Print),
    system: &mut System,
    name: &str,
    spelled: &str,
) -> Result<bool> {
    match hex::decode(rt.alloc(), spelled) {
        Ok(bytes) => take_bytes(rt, system, name, bytes.as_slice()),
        Err(hex::FromHexError::OutOfMemory) => bail!("no memory"),
        Err(_) => Ok(false),
    }
}

// Hands bytes to a node, and prints what it answers.
fn take_bytes(
    rt: &(impl AllocGlobal + Print),
    system: &mut System,
    name: &str,
    bytes: &[u8],
) -> Result<bool> {
    let answer = match system.node(name) {
        Some(held) => held.take(bytes),
        None => None,
    };
    after(rt, system, name, answer)
}

// Starts something at a node, and prints what it does.
fn start_at(
    rt: &(impl AllocGlobal + Print),
    system: &mut System,
    start: &str,
    words: &[&str],
) -> Result<bool> {
    let [name, more @ ..] = words else {
        return Ok(false);
    };
    let answer = match system.node(name) {
        Some(held) => held.start(start, more),
        None => None,
    };
    after(rt, system, name, answer)
}

// Prints what a node has answered, if it has, and its status.
fn after(
    rt: &(impl AllocGlobal + Print),
    system: &mut System,
    name: &str,
    answer: Option<Answer>,
) -> Result<bool> {
    let Some(answer) = answer else {
        return Ok(false);
    };
    let Some(name) = system.name(name) else {
        return Ok(false);
    };
    print_answer(rt, system, name, answer)?;
    if let Some(held) = system.node_named(name) {
        print_status(rt, held.node())?;
    }
    Ok(true)
}

// Prints the state of a node, if there is one.
fn state(rt: &impl Print, system: &mut System, words: &[&str]) -> Result<bool> {
    let [name] = words else {
        return Ok(false);
    };
    let Some(held) = system.node(name) else {
        return Ok(false);
    };
    print_state(rt, held.node())?;
    Ok(true)
}

// Hands frames to their receivers, the oldest first, until none is under way.
fn drain(rt: &(impl AllocGlobal + Print), system: &mut System, words: &[&str]) -> Result<bool> {
    if !words.is_empty() {
        return Ok(false);
    }
    for _turn in 0..MOST_FRAMES {
        if !deliver(rt, system, 0)? {
            return Ok(true);
        }
    }
    Ok(true)
}

// Hands on the frame at the place that the words say, if they say one.
fn deliver_at(
    rt: &(impl AllocGlobal + Print),
    system: &mut System,
    words: &[&str],
) -> Result<bool> {
    let [place] = words else {
        return Ok(false);
    };
    match place.parse::<usize>() {
        Ok(place) => deliver(rt, system, place),
        Err(_) => Ok(false),
    }
}

// Hands the frame at a place of those under way to its receiver, and prints what that answers; no if there is none at this
// place.
fn deliver(rt: &(impl AllocGlobal + Print), system: &mut System, place: usize) -> Result<bool> {
    let Some(frame) = system.take_away(place) else {
        return Ok(false);
    };
    print_taken(rt, frame.number)?;
    hand_over(rt, system, frame.bytes.as_slice())?;
    Ok(true)
}

// Prints the number of a frame that is handed on.
fn print_taken(rt: &impl Print, number: u64) -> io::Result<()> {
    println!(rt; "taken {number}")
}

// Hands a frame to its receiver, and prints what that answers.
fn hand_over(rt: &(impl AllocGlobal + Print), system: &mut System, bytes: &[u8]) -> Result<()> {
    let to = decode_head(system.settings(), bytes)?.to;
    let answer = match system.node_named(to) {
        Some(held) => held.take(bytes),
        None => None,
    };
    match answer {
        Some(answer) => print_answer(rt, system, to, answer),
        None => Ok(print_line(rt, "", "no such node")?),
    }
}
