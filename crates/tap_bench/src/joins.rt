use crate::names::NEAR;
use crate::node_frames::OWNER;
use crate::steps::{Links, Sent, joiner, links_of, member, settings, take};
use std::alloc::Global;
use std::collections::VecDeque;
use tap_node::{Node, Turn};
use tap_wire::Bytes;

/// How many pairs are made ready at a time.
pub(crate) const PAIRS: usize = 64;

// More frames than a join of two nodes takes.
const MOST_FRAMES: usize = 100;

/// A node that is there alone, one that has started to join by it, and the frames under way between them, the oldest first.
#[derive(Drop)]
pub(crate) struct Pair {
    member: Node,
    joiner: Node,
    under_way: VecDeque<Flight>,
}

// Who of a pair takes a frame.
#[derive(Clone, Copy)]
enum Receiver {
    Member,
    Joiner,
}

// A frame under way.
#[derive(Drop)]
struct Flight {
    to: Receiver,
    bytes: Bytes,
}

/// So many pairs, of which each has the Seek of its joiner under way.
pub(crate) fn pairs(alloc: Global, count: usize) -> Option<Vec<Pair>> {
    let mut pairs = Vec::new(alloc);
    for _number in 0..count {
        pairs.push(ready_pair(alloc)?).ok()?;
    }
    Some(pairs)
}

// A pair, with the Seek of the joiner under way.
fn ready_pair(alloc: Global) -> Option<Pair> {
    let settings = settings(3)?;
    let (joiner, turn) = joiner(alloc, &settings, &OWNER, &NEAR)?;
    let mut pair = Pair {
        member: member(alloc, &settings, &NEAR)?,
        joiner,
        under_way: VecDeque::new(alloc),
    };
    send(&mut pair.under_way, Receiver::Member, turn)?;
    Some(pair)
}

/// Has each pair take frames until none is under way, and says what they sent.
pub(crate) fn join_each(pairs: &mut [Pair]) -> Option<Sent> {
    let mut sent = Sent::nothing();
    for pair in pairs.iter_mut() {
        sent = sent.with(pair.join()?);
    }
    Some(sent)
}

/// The links of all these pairs.
pub(crate) fn links_of_all(pairs: &[Pair]) -> Links {
    let mut links = Links::none();
    for pair in pairs {
        links = links.with(pair.links());
    }
    links
}

impl Pair {
    // The links of both nodes.
    fn links(&self) -> Links {
        links_of(&self.member).with(links_of(&self.joiner))
    }

    // Takes frames until none is under way, and says what was sent then; none if a frame is refused, or too many are sent.
    fn join(&mut self) -> Option<Sent> {
        let mut sent = Sent::nothing();
        for _turn in 0..MOST_FRAMES {
            let Some(flight) = self.under_way.pop_front() else {
                return Some(sent);
            };
            sent = sent.with(Sent {
                frames: 1,
                bytes: flight.bytes.as_slice().len() as u64,
            });
            self.deliver(flight)?;
        }
        None
    }

    // Hands a frame to its receiver, and puts what that sends under way to the other one.
    fn deliver(&mut self, flight: Flight) -> Option<()> {
        let bytes = flight.bytes.as_slice();
        let (turn, other) = match flight.to {
            Receiver::Member => (take(&mut self.member, bytes), Receiver::Joiner),
            Receiver::Joiner => (take(&mut self.joiner, bytes), Receiver::Member),
        };
        send(&mut self.under_way, other, turn?)
    }
}

// Puts the frames of a step under way.
fn send(under_way: &mut VecDeque<Flight>, to: Receiver, turn: Turn) -> Option<()> {
    for bytes in turn.sent.into_frames() {
        under_way.push_back(Flight { to, bytes }).ok()?;
    }
    Some(())
}
