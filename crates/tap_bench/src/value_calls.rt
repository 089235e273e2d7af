ghost use Rattle.std.specs.Prelude.{All};
ghost use Rattle.tap_name.specs.Distinct.{AreDistinct};
ghost use Rattle.tap_name.specs.Name.{IsName};
ghost use Rattle.tap_bench.specs.Settings.{measured};

use crate::clock::{CANNOT, Run};
use crate::full_tables::{bytes_of_table, full, lens, next_hops, object, primaries};
use crate::members::{MEMBERS, holders_at_rest, members};
use crate::value_frames::{hello, release};
use anyhow::{Context, Result};
use std::alloc::Global;
use std::io;
use std::rt::Clock;
use std::time::Instant;
use tap_name::{List, Name, Settings};
use tap_wire::{decode, encode};

// A call on a frame.
#[derive(Clone, Copy)]
enum FrameCall {
    DecodeHello,
    DecodeRelease,
    EncodeHello,
    EncodeRelease,
}

// A call on a table.
#[derive(Clone, Copy)]
enum TableCall {
    Len,
    NextHop,
    Primary,
}

const FRAME_CALLS: [(&str, FrameCall); 4] = [
    ("decode-hello", FrameCall::DecodeHello),
    ("decode-release", FrameCall::DecodeRelease),
    ("encode-hello", FrameCall::EncodeHello),
    ("encode-release", FrameCall::EncodeRelease),
];

const TABLE_CALLS: [(&str, TableCall); 3] = [
    ("len", TableCall::Len),
    ("next-hop", TableCall::NextHop),
    ("primary", TableCall::Primary),
];

// The call that makes the ties of each member at rest.
const AT_REST: &str = "at-rest";

// How often each call on a table is made without words: all slots are asked.
const ALL_SLOTS: u32 = 128;

impl TableCall {
    // What the calls find, all together.
    fn finds(self) -> &'static str {
        match self {
            TableCall::Len => "links",
            TableCall::NextHop => "next hops",
            TableCall::Primary => "primaries",
        }
    }
}

// The bytes of the frame that a call reads or writes.
fn bytes_of(alloc: Global, call: FrameCall) -> Option<Vec<u8>> {
    match call {
        FrameCall::DecodeHello | FrameCall::EncodeHello => hello(alloc),
        FrameCall::DecodeRelease | FrameCall::EncodeRelease => release(alloc),
    }
}

// Reads the same bytes again and again, and says how many bytes that were.
fn decode_all(alloc: Global, settings: &Settings, bytes: &[u8], count: u32) -> Option<u64> {
    let mut through = 0u64;
    for _ in 0..count {
        decode(alloc, settings, bytes).ok()?;
        through = through.saturating_add(bytes.len() as u64);
    }
    Some(through)
}

// Writes the same frame again and again, and says how many bytes that were.
fn encode_all(alloc: Global, settings: &Settings, bytes: &[u8], count: u32) -> Option<u64> {
    let frame = decode(alloc, settings, bytes).ok()?;
    let mut through = 0u64;
    for _ in 0..count {
        let written = encode(alloc, settings, &frame).ok()?;
        through = through.saturating_add(written.as_slice().len() as u64);
    }
    Some(through)
}

// Makes a call so many times, and says how many bytes went through it.
fn repeat(alloc: Global, call: FrameCall, bytes: &[u8], count: u32) -> Option<u64> {
    let settings = Settings::new(16, 8, 2)?;
    match call {
        FrameCall::DecodeHello | FrameCall::DecodeRelease => decode_all(
            alloc, &settings, bytes, count,
        ),
        FrameCall::EncodeHello | FrameCall::EncodeRelease => encode_all(
            alloc, &settings, bytes, count,
        ),
    }
}

// Makes a call on a full table so many times, and says how many links, next hops or primaries it found in all.
fn look_up(alloc: Global, call: TableCall, count: u32) -> Option<u64> {
    let table = full(alloc)?;
    match call {
        TableCall::Len => Some(lens(&table, count)),
        TableCall::NextHop => Some(next_hops(&table, &object()?, count)),
        TableCall::Primary => Some(primaries(&table, count)),
    }
}

// Makes the ties of these members at rest so many times, and says how many holders they have together.
fn rest(alloc: Global, members: &List<Name>, count: u32) -> Option<u64>
    requires names { All (IsName measured) members.now }
    requires distinct { AreDistinct members.now }
{
    let mut holders = 0usize;
    for _turn in 0..count {
        holders = holders_at_rest(alloc, members)?;
    }
    Some(holders as u64)
}

// Makes a call on a frame so many times: the bytes that went through it.
fn run_on_frame(rt: &(impl AllocGlobal + Clock), call: FrameCall, count: u32) -> Option<Run> {
    let bytes = bytes_of(rt.alloc(), call)?;
    let start = Instant::now(rt).ok()?;
    let through = repeat(rt.alloc(), call, bytes.as_slice(), count)?;
    Run::since(rt, start, through)
}

// Makes a call on a table so many times: the links, next hops or primaries that were found.
fn run_on_table(rt: &(impl AllocGlobal + Clock), call: TableCall, count: u32) -> Option<Run> {
    let start = Instant::now(rt).ok()?;
    let found = look_up(rt.alloc(), call, count)?;
    Run::since(rt, start, found)
}

// Makes the ties of all members at rest so many times: the holders that they have together.
fn run_at_rest(rt: &(impl AllocGlobal + Clock), count: u32) -> Option<Run> {
    let members = members(rt.alloc())?;
    let start = Instant::now(rt).ok()?;
    let holders = rest(rt.alloc(), &members, count)?;
    Run::since(rt, start, holders)
}

// Prints what one call on a frame gave.
fn print_frame(rt: &impl Print, name: &str, through: u64) -> io::Result<()> {
    println!(rt; "{name}: {through} bytes")
}

// Prints what calls on a table gave that asked all slots.
fn print_table(rt: &impl Print, name: &str, found: u64, finds: &str) -> io::Result<()> {
    println!(rt; "{name}: {ALL_SLOTS} calls found {found} {finds}")
}

// Prints the bytes of a table, and how many holders the members have at rest.
fn print_sizes(rt: &impl Print, holders: u64) -> io::Result<()> {
    println!(rt; "the link sets of a table: {} bytes", bytes_of_table())?;
    println!(rt; "{AT_REST}: {MEMBERS} members have {holders} holders")
}

/// Makes each call on a frame or a table once, or so many times that all slots are asked.
pub(crate) fn make_each(rt: &(impl AllocGlobal + Clock + Print)) -> Result<()> {
    for (name, call) in FRAME_CALLS {
        let run = run_on_frame(rt, call, 1).context(CANNOT)?;
        print_frame(rt, name, run.gave)?;
    }
    call_each_on_a_table(rt)?;
    let run = run_at_rest(rt, 1).context(CANNOT)?;
    print_sizes(rt, run.gave)?;
    Ok(())
}

// Makes each call on a table so many times that all slots are asked.
fn call_each_on_a_table(rt: &(impl AllocGlobal + Clock + Print)) -> Result<()> {
    for (name, call) in TABLE_CALLS {
        let run = run_on_table(rt, call, ALL_SLOTS).context(CANNOT)?;
        print_table(rt, name, run.gave, call.finds())?;
    }
    Ok(())
}

// Prints how long a call on a frame took, and how many bytes went through.
fn print_frame_time(rt: &impl Print, name: &str, run: Run, count: u32) -> io::Result<()> {
    let each = run.each(count);
    let rate = u128::from(run.gave).saturating_mul(1000) / run.nanoseconds.max(1);
    println!(rt; "{name}: {each} ns a call, {rate} MB a second")
}

// Prints how long a call on a table took, and what all of them found.
fn print_table_time(
    rt: &impl Print,
    name: &str,
    run: Run,
    count: u32,
    finds: &str,
) -> io::Result<()> {
    let each = run.nanoseconds.saturating_mul(1000) / u128::from(count.max(1));
    println!(rt;
        "{name}: {each} ps a call, {count} calls found {} {finds}",
        run.gave
    )
}

// Prints how long it took to make the ties of all members at rest.
fn print_time_at_rest(rt: &impl Print, run: Run, count: u32) -> io::Result<()> {
    let each = run.each(count);
    println!(rt;
        "{AT_REST}: {each} ns a call, {MEMBERS} members have {} holders",
        run.gave
    )
}

/// Times the call of this name, if there is one.
pub(crate) fn time(
    rt: &(impl AllocGlobal + Clock + Print),
    wanted: &str,
    count: u32,
) -> Result<bool> {
    for (name, call) in FRAME_CALLS {
        if name == wanted {
            let run = run_on_frame(rt, call, count).context(CANNOT)?;
            print_frame_time(rt, name, run, count)?;
            return Ok(true);
        }
    }
    if wanted == AT_REST {
        let run = run_at_rest(rt, count).context(CANNOT)?;
        print_time_at_rest(rt, run, count)?;
        return Ok(true);
    }
    time_on_table(rt, wanted, count)
}

// Times the call on a table of this name, if there is one.
fn time_on_table(
    rt: &(impl AllocGlobal + Clock + Print),
    wanted: &str,
    count: u32,
) -> Result<bool> {
    for (name, call) in TABLE_CALLS {
        if name == wanted {
            let run = run_on_table(rt, call, count).context(CANNOT)?;
            print_table_time(rt, name, run, count, call.finds())?;
            return Ok(true);
        }
    }
    Ok(false)
}
