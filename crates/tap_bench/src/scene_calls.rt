use crate::clock::nanoseconds_since;
use crate::joins::{PAIRS, join_each, links_of_all, pairs};
use crate::scenes;
use crate::scenes::Scene;
use crate::steps::{Links, Sent};
use std::rt::Clock;
use std::time::Instant;

/// A frame that a node takes, or some that belong together.
#[derive(Clone, Copy)]
pub(crate) enum Call {
    Release,
    ReleaseDropping,
    Forget,
    Link,
    Ack,
    Find,
    TellAndForget,
    Hello,
    Join,
}

/// The calls by their names.
pub(crate) const CALLS: [(&str, Call); 9] = [
    ("release", Call::Release),
    ("release-dropping", Call::ReleaseDropping),
    ("forget", Call::Forget),
    ("link", Call::Link),
    ("ack", Call::Ack),
    ("find", Call::Find),
    ("tell-and-forget", Call::TellAndForget),
    ("take-hello", Call::Hello),
    ("join", Call::Join),
];

/// What calls gave, all together: what was sent, the links that the nodes of the last scene have afterwards, and the
/// nanoseconds that they took.
#[derive(Clone, Copy)]
pub(crate) struct Run {
    pub(crate) calls: usize,
    pub(crate) sent: Sent,
    pub(crate) links: Links,
    pub(crate) nanoseconds: u128,
}

/// Makes a call so many times. Scene after scene is made ready and played; only the playing is timed.
pub(crate) fn make(rt: &(impl AllocGlobal + Clock), call: Call, count: usize) -> Option<Run> {
    let mut all = Run {
        calls: 0,
        sent: Sent::nothing(),
        links: Links::none(),
        nanoseconds: 0,
    };
    for _scene in 0..count {
        if count <= all.calls {
            return Some(all);
        }
        all = all.then(make_some(rt, call, count - all.calls)?);
    }
    Some(all)
}

impl Run {
    // This one and then another.
    fn then(self, next: Run) -> Run {
        Run {
            calls: self.calls.saturating_add(next.calls),
            sent: self.sent.with(next.sent),
            links: next.links,
            nanoseconds: self.nanoseconds.saturating_add(next.nanoseconds),
        }
    }
}

// Makes a call so many times, or as often as one scene has it.
fn make_some(rt: &(impl AllocGlobal + Clock), call: Call, most: usize) -> Option<Run> {
    let alloc = rt.alloc();
    let scene = match call {
        Call::Release => scenes::releases(alloc),
        Call::ReleaseDropping => scenes::dropping_releases(alloc),
        Call::Forget => scenes::forgets(alloc),
        Call::Link => scenes::links(alloc),
        Call::Ack => scenes::acks(alloc),
        Call::Find => scenes::finds(alloc),
        Call::TellAndForget => scenes::tells(alloc),
        Call::Hello => scenes::hellos(alloc),
        Call::Join => return join_some(rt, most),
    };
    play(rt, scene?, most)
}

// Has the nodes of a scene take the frames of so many calls, or of all.
fn play(rt: &impl Clock, mut scene: Scene, most: usize) -> Option<Run> {
    let calls = most.min(scene.calls());
    let start = Instant::now(rt).ok()?;
    let sent = scene.play(calls)?;
    let nanoseconds = nanoseconds_since(rt, start)?;
    Some(Run {
        calls,
        sent,
        links: scene.links(),
        nanoseconds,
    })
}

// Has so many pairs of nodes join, or as many as are made ready at a time.
fn join_some(rt: &(impl AllocGlobal + Clock), most: usize) -> Option<Run> {
    let mut pairs = pairs(rt.alloc(), PAIRS)?;
    let calls = most.min(pairs.len());
    let start = Instant::now(rt).ok()?;
    let sent = join_each(&mut pairs.as_mut_slice()[..calls])?;
    let nanoseconds = nanoseconds_since(rt, start)?;
    Some(Run {
        calls,
        sent,
        links: links_of_all(pairs.as_slice()),
        nanoseconds,
    })
}
