ghost use Rattle.std.specs.Prelude.{IfSome};
ghost use Rattle.tap_name.specs.Name.{IsName};

use crate::node_frames::Digits;
use std::alloc::Global;
use tap_link::Kind;
use tap_name::{List, Name, Settings};
use tap_node::{Node, Turn};

/// What frames gave: how many frames were sent, and of how many bytes.
#[derive(Clone, Copy)]
pub(crate) struct Sent {
    pub(crate) frames: u64,
    pub(crate) bytes: u64,
}

impl Sent {
    /// Nothing yet.
    pub(crate) fn nothing() -> Sent {
        Sent {
            frames: 0,
            bytes: 0,
        }
    }

    /// Both together.
    pub(crate) fn with(self, other: Sent) -> Sent {
        Sent {
            frames: self.frames.saturating_add(other.frames),
            bytes: self.bytes.saturating_add(other.bytes),
        }
    }
}

/// The links of nodes: the pins, and all others.
#[derive(Clone, Copy)]
pub(crate) struct Links {
    pub(crate) settled: usize,
    pub(crate) pins: usize,
}

impl Links {
    /// None yet.
    pub(crate) fn none() -> Links {
        Links {
            settled: 0,
            pins: 0,
        }
    }

    /// Both together.
    pub(crate) fn with(self, other: Links) -> Links {
        Links {
            settled: self.settled.saturating_add(other.settled),
            pins: self.pins.saturating_add(other.pins),
        }
    }
}

/// The settings: base 16, 8 digits, and this width, from 1 to 4.
pub(crate) fn settings(width: u8) -> Option<Settings> {
    Settings::new(16, 8, width)
}

// The name of these digits.
fn name(settings: &Settings, digits: &Digits) -> Option<Name>
    ensures { IfSome result (IsName settings.now) }
{
    Name::from_digits(settings, digits).ok()
}

/// A node that is the only member.
pub(crate) fn member(alloc: Global, settings: &Settings, digits: &Digits) -> Option<Node> {
    let name = name(settings, digits)?;
    let mut members = List::new(alloc);
    members.push(name).ok()?;
    Node::member(alloc, name, settings, &members).ok()
}

/// A node that has started to join by another one, and the frames of its start.
pub(crate) fn joiner(
    alloc: Global,
    settings: &Settings,
    digits: &Digits,
    via: &Digits,
) -> Option<(Node, Turn)> {
    let name_of_via = name(settings, via)?;
    let name = name(settings, digits)?;
    let Ok(mut node) = Node::joiner(alloc, name, settings) else {
        return None;
    };
    let start = if node.room() {
        node.seek_by(name_of_via).ok()
    } else {
        None
    };
    let Some(turn) = start else {
        return None;
    };
    Some((node, turn))
}

/// Has a node take a frame. `None` if it has no room for a step, or refuses the frame.
pub(crate) fn take(node: &mut Node, bytes: &[u8]) -> Option<Turn> {
    if !node.room() {
        return None;
    }
    node.take(bytes).ok()
}

/// Has a node take frames, one after the other.
pub(crate) fn take_each(node: &mut Node, frames: &[Vec<u8>]) -> Option<()> {
    for frame in frames {
        take(node, frame.as_slice())?;
    }
    Some(())
}

/// What a step sent.
pub(crate) fn sent_by(turn: Turn) -> Sent {
    let mut sent = Sent::nothing();
    for frame in turn.sent.into_frames() {
        let bytes = frame.as_slice().len() as u64;
        sent = sent.with(Sent { frames: 1, bytes });
    }
    sent
}

/// The links of a node.
pub(crate) fn links_of(node: &Node) -> Links {
    let mut links = Links::none();
    let Some(table) = node.table() else {
        return links;
    };
    for row in table.rows() {
        links = links.with(links_of_kind(row.kind));
    }
    links
}

// One link of this kind.
fn links_of_kind(kind: Kind) -> Links {
    match kind {
        Kind::Pin => Links {
            settled: 0,
            pins: 1,
        },
        Kind::Settled | Kind::Leaving => Links {
            settled: 1,
            pins: 0,
        },
    }
}
