use crate::names::{NEAR, NEIGHBOURS, neighbour, newcomer, object_beyond};
use crate::node_frames::{OWNER, ack, find, forget, hello, link, release, tell};
use std::alloc::Global;
use std::ops::Range;

/// Frames, as bytes, in the order in which they are taken.
pub(crate) type Frames = Vec<Vec<u8>>;

// Adds a frame, if it could be made.
fn add(frames: &mut Frames, frame: Option<Vec<u8>>) -> Option<()> {
    frames.push(frame?).ok()
}

/// A Tell of each of the first so many neighbours. Its watch is empty.
pub(crate) fn tells_of(alloc: Global, count: usize) -> Option<Frames> {
    let mut frames = Vec::new(alloc);
    for number in 0..count {
        add(&mut frames, tell(alloc, &NEAR, &neighbour(number), 16))?;
    }
    Some(frames)
}

/// A Release of each neighbour with one of these last digits.
pub(crate) fn releases_of(alloc: Global, last_digits: Range<u8>) -> Option<Frames> {
    let mut frames = Vec::new(alloc);
    for number in 0..NEIGHBOURS {
        let name = neighbour(number);
        if last_digits.contains(&name[7]) {
            add(&mut frames, release(alloc, &name))?;
        }
    }
    Some(frames)
}

/// A Forget of each neighbour.
pub(crate) fn forgets(alloc: Global) -> Option<Frames> {
    let mut frames = Vec::new(alloc);
    for number in 0..NEIGHBOURS {
        add(&mut frames, forget(alloc, &neighbour(number)))?;
    }
    Some(frames)
}

/// A Link of each neighbour with the first of these versions, then with the next one, and so on.
pub(crate) fn links(alloc: Global, versions: Range<u32>) -> Option<Frames> {
    let mut frames = Vec::new(alloc);
    for version in versions {
        add_links(alloc, &mut frames, version)?;
    }
    Some(frames)
}

// Adds a Link of each neighbour, with this version.
fn add_links(alloc: Global, frames: &mut Frames, version: u32) -> Option<()> {
    for number in 0..NEIGHBOURS {
        add(frames, link(alloc, &neighbour(number), version))?;
    }
    Some(())
}

/// So many Acks, of so many sessions in turn, of which this is the last one.
pub(crate) fn acks(alloc: Global, last: u32, sessions: u32, count: u32) -> Option<Frames> {
    let mut frames = Vec::new(alloc);
    for number in 0..count {
        let session = last.saturating_sub(number % sessions.max(1));
        add(&mut frames, ack(alloc, &NEAR, session))?;
    }
    Some(frames)
}

/// A Find of an object beyond each neighbour but those in slots of level 0, in so many rounds.
pub(crate) fn finds(alloc: Global, rounds: u32) -> Option<Frames> {
    let mut frames = Vec::new(alloc);
    for _round in 0..rounds {
        add_finds(alloc, &mut frames)?;
    }
    Some(frames)
}

// Adds a Find of an object beyond each neighbour but those in slots of level 0.
fn add_finds(alloc: Global, frames: &mut Frames) -> Option<()> {
    for number in 0..NEIGHBOURS {
        let name = neighbour(number);
        if name[0] == OWNER[0] {
            add(frames, find(alloc, &NEAR, &object_beyond(&name)))?;
        }
    }
    Some(())
}

/// The first Tell of each of so many newcomers, with all slots of level 0 in its watch, and the newcomer's Forget after it.
pub(crate) fn tells_and_forgets(alloc: Global, newcomers: usize) -> Option<Frames> {
    let mut frames = Vec::new(alloc);
    for number in 0..newcomers {
        let name = newcomer(number);
        add(&mut frames, tell(alloc, &NEAR, &name, 0))?;
        add(&mut frames, forget(alloc, &name))?;
    }
    Some(frames)
}

/// So many Hellos.
pub(crate) fn hellos(alloc: Global, count: usize) -> Option<Frames> {
    let mut frames = Vec::new(alloc);
    for _number in 0..count {
        add(&mut frames, hello(alloc, &NEAR))?;
    }
    Some(frames)
}
