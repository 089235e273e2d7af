use crate::lists;
use crate::lists::{Frames, releases_of, tells_of};
use crate::names::{NEAR, NEIGHBOURS};
use crate::node_frames::OWNER;
use crate::steps::{Links, Sent, joiner, links_of, member, sent_by, settings, take, take_each};
use std::alloc::Global;
use tap_node::Node;

/// Nodes, and frames that they take in turn. A call is so many frames, one after the other.
#[derive(Drop)]
pub(crate) struct Scene {
    nodes: Vec<Node>,
    frames: Frames,
    frames_of_call: usize,
}

// How often each holder says in one scene that it has a link, and how often each object is looked up.
const ROUNDS: u32 = 16;

// How many sessions are answered in one scene, and how many answers each gets.
const SESSIONS: u32 = 16;

const ANSWERS: u32 = 240;

// How many newcomers there are in one scene.
const NEWCOMERS: usize = 64;

/// A node with a pin on each of 255 neighbours takes a Release of each. All have room, and are settled.
pub(crate) fn releases(alloc: Global) -> Option<Scene> {
    let mut scene = pinned(alloc, 3, NEIGHBOURS)?;
    scene.frames = releases_of(alloc, 0..3)?;
    Some(scene)
}

/// A node with 85 slots that have one settled link and two pins, for which there is no room, takes a Release of each pin. So
/// the pins are dropped, and their targets hear of it.
pub(crate) fn dropping_releases(alloc: Global) -> Option<Scene> {
    let mut scene = pinned(alloc, 1, NEIGHBOURS)?;
    scene.release(alloc, 1)?;
    scene.frames = releases_of(alloc, 1..3)?;
    Some(scene)
}

/// A node with a pin on each of 255 neighbours takes a Forget of each, and drops it.
pub(crate) fn forgets(alloc: Global) -> Option<Scene> {
    let mut scene = pinned(alloc, 3, NEIGHBOURS)?;
    scene.frames = lists::forgets(alloc)?;
    Some(scene)
}

/// A node with 255 settled links, to its 255 holders, hears a Link of each holder with the next version, and so on in rounds.
pub(crate) fn links(alloc: Global) -> Option<Scene> {
    let mut scene = settled(alloc)?;
    scene.take(lists::links(alloc, 0..1))?;
    scene.frames = lists::links(alloc, 1..ROUNDS + 1)?;
    Some(scene)
}

/// A node with a pin on each of 255 neighbours has a session for each, in which it awaits as many answers as it had pins then.
/// It takes Acks of the last 16 sessions in turn, 240 of each: the first of these awaits no more, and closes at its last.
pub(crate) fn acks(alloc: Global) -> Option<Scene> {
    let mut scene = pinned(alloc, 3, NEIGHBOURS)?;
    let last = scene.opened();
    if last < SESSIONS {
        return None;
    }
    scene.frames = lists::acks(alloc, last, SESSIONS, SESSIONS * ANSWERS)?;
    Some(scene)
}

/// A node with 255 settled links takes Finds of objects beyond these, in rounds. Each goes on to the primary of a slot of the
/// levels from 1 to 5.
pub(crate) fn finds(alloc: Global) -> Option<Scene> {
    let mut scene = settled(alloc)?;
    scene.frames = lists::finds(alloc, ROUNDS)?;
    Some(scene)
}

/// A node with 254 links, of which each third one is a pin, takes the first Tell of a newcomer, which it covers with 255 links,
/// and then the newcomer's Forget; and so on with others.
pub(crate) fn tells(alloc: Global) -> Option<Scene> {
    let mut scene = pinned(alloc, 3, NEIGHBOURS - 1)?;
    scene.release(alloc, 2)?;
    scene.frames = lists::tells_and_forgets(alloc, NEWCOMERS)?;
    scene.frames_of_call = 2;
    Some(scene)
}

/// Nodes that have started to join take their first Hello each, with 255 links, of which each third one isn't settled.
pub(crate) fn hellos(alloc: Global) -> Option<Scene> {
    let nodes = joiners(alloc, NEWCOMERS)?;
    let frames = lists::hellos(alloc, NEWCOMERS)?;
    Some(Scene {
        nodes,
        frames,
        frames_of_call: 1,
    })
}

// A core node with a pin on each of the first so many neighbours, in tables of this width. It was told of one after the other.
fn pinned(alloc: Global, width: u8, count: usize) -> Option<Scene> {
    let mut scene = alone(alloc, width)?;
    scene.take(tells_of(alloc, count))?;
    Some(scene)
}

// A core node with a settled link to each neighbour.
fn settled(alloc: Global) -> Option<Scene> {
    let mut scene = pinned(alloc, 3, NEIGHBOURS)?;
    scene.release(alloc, 3)?;
    Some(scene)
}

// A node that is the only member, with tables of this width.
fn alone(alloc: Global, width: u8) -> Option<Scene> {
    let mut nodes = Vec::new(alloc);
    nodes.push(member(alloc, &settings(width)?, &OWNER)?).ok()?;
    Some(Scene {
        nodes,
        frames: Vec::new(alloc),
        frames_of_call: 1,
    })
}

// So many nodes that have started to join.
fn joiners(alloc: Global, count: usize) -> Option<Vec<Node>> {
    let settings = settings(3)?;
    let mut nodes = Vec::new(alloc);
    for _number in 0..count {
        let (node, _seek) = joiner(alloc, &settings, &OWNER, &NEAR)?;
        nodes.push(node).ok()?;
    }
    Some(nodes)
}

impl Scene {
    /// How many calls its frames make.
    pub(crate) fn calls(&self) -> usize {
        self.frames.len() / self.frames_of_call.max(1)
    }

    /// Has its nodes take the frames of so many calls, or of all, and says what they sent; none if a frame is refused.
    pub(crate) fn play(&mut self, calls: usize) -> Option<Sent> {
        let count = calls.saturating_mul(self.frames_of_call);
        let frames = self.frames.as_slice();
        take_in_turn(&mut self.nodes, &frames[..count.min(frames.len())])
    }

    /// The links of its nodes.
    pub(crate) fn links(&self) -> Links {
        let mut links = Links::none();
        for node in self.nodes.as_slice() {
            links = links.with(links_of(node));
        }
        links
    }

    // Has each node take these frames before the scene begins.
    fn take(&mut self, frames: Option<Frames>) -> Option<()> {
        let frames = frames?;
        for node in self.nodes.iter_mut() {
            take_each(node, frames.as_slice())?;
        }
        Some(())
    }

    // The same with a Release of the first so many of the three neighbours of each slot.
    fn release(&mut self, alloc: Global, of_slot: u8) -> Option<()> {
        self.take(releases_of(alloc, 0..of_slot))
    }

    // How many sessions the first node has opened.
    fn opened(&self) -> u32 {
        match self.nodes.first() {
            Some(node) => node.sessions().opened(),
            None => 0,
        }
    }
}

// Has nodes take frames, each the next one, and says what they sent.
fn take_in_turn(nodes: &mut Vec<Node>, frames: &[Vec<u8>]) -> Option<Sent> {
    let mut sent = Sent::nothing();
    for (number, frame) in frames.iter().enumerate() {
        let count = nodes.len().max(1);
        let turn = take(nodes.get_mut(number % count)?, frame.as_slice())?;
        sent = sent.with(sent_by(turn));
    }
    Some(sent)
}
