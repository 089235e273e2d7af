ghost use Rattle.std.specs.Prelude.{◌≡◌, true};

use std::error::Error;
use std::fmt;
use tap_name::{List, Name, Settings, Slot};
use tap_scenario::Step;
use tap_wire::{Bytes, WireFault};

/// Why a step is refused. A refused step changes nothing, and the run goes on. Of several causes the first one in this
/// order counts.
///
/// Rule: docs/FORMATS.md, "The printed text".
#[derive(Clone, Copy, Debug, PartialEq, Eq)]
pub enum Refusal {
    /// No node of this name is present.
    NoSuchNode,
    /// The node is still joining.
    NotCore,
    /// This node is departing.
    Departing(Name),
    /// So many frames are outstanding.
    NotAtRest(u32),
    /// A node of the new name was ever present.
    NameTaken,
    /// 256 names were ever present.
    TooManyNodes,
    /// The node is the one core node.
    LastNode,
    /// The node publishes the object already.
    AlreadyPublished,
    /// The node doesn't publish the object.
    NotPublished,
    /// Nothing is at this place: so many frames are outstanding, or packets under way.
    NoSuchFlight(u32),
    /// Nothing is at this place of the frame: so many bytes it has.
    NoSuchByte(u32),
    /// The copy is the spelling of a frame.
    Readable,
    /// The node is core or leaving.
    NotJoining,
    /// The node was abandoned before.
    AlreadyAbandoned,
    /// Ticks and repeats have made so many packets, and this step's would be too many.
    TooManyPackets(u32),
    /// The node's name doesn't begin with the prefix.
    NotInPrefix,
}

// The words that the line of a refusal ends with (docs/FORMATS.md, "The printed text").
impl fmt::Display for Refusal {
    fn fmt<W: fmt::Write>(&self, f: &mut fmt::Formatter<W>) -> fmt::Result {
        match self {
            Refusal::NoSuchNode => f.write_str("no such node"),
            Refusal::NotCore => f.write_str("not core"),
            Refusal::Departing(leaver) => write!(f, "departing {leaver}"),
            Refusal::NotAtRest(count) => write!(f, "not at rest {count}"),
            Refusal::NameTaken => f.write_str("name taken"),
            Refusal::TooManyNodes => f.write_str("too many nodes"),
            Refusal::LastNode => f.write_str("last node"),
            Refusal::AlreadyPublished => f.write_str("already published"),
            Refusal::NotPublished => f.write_str("not published"),
            Refusal::NoSuchFlight(count) => write!(f, "no such flight {count}"),
            Refusal::NoSuchByte(len) => write!(f, "no such byte {len}"),
            Refusal::Readable => f.write_str("readable"),
            Refusal::NotJoining => f.write_str("not joining"),
            Refusal::AlreadyAbandoned => f.write_str("already abandoned"),
            Refusal::TooManyPackets(made) => write!(f, "too many packets {made}"),
            Refusal::NotInPrefix => f.write_str("not in prefix"),
        }
    }
}

impl Error for Refusal {}

/// What a node is, as its table is printed.
///
/// Rule: docs/FORMATS.md, "The printed text".
#[derive(Clone, Copy, Debug, PartialEq, Eq)]
pub enum NodeWord {
    /// It is joining.
    Joining,
    /// It takes full part.
    Core,
    /// It is departing, and core still.
    Leaving,
}

/// What a link is, as a table is printed.
///
/// Rule: docs/FORMATS.md, "The printed text".
#[derive(Clone, Copy, Debug, PartialEq, Eq)]
pub enum LinkWord {
    /// A pin.
    Pin,
    /// A settled link.
    Settled,
    /// A settled link to a node that is departing.
    Leaving,
}

/// A link of a table, as it is printed.
///
/// Rule: docs/FORMATS.md, "The printed text".
#[derive(Clone, Copy, Debug, PartialEq, Eq)]
pub struct LinkLine {
    /// Its slot.
    pub slot: Slot,
    /// Its target.
    pub name: Name,
    /// What it is.
    pub kind: LinkWord,
}

/// An object and a server of it: a pointer that a node holds, or what is published.
///
/// Rule: docs/FORMATS.md, "The printed text".
#[derive(Clone, Copy, Debug, PartialEq, Eq)]
pub struct Pair {
    /// The object.
    pub object: Name,
    /// A server of it.
    pub server: Name,
}

/// One thing that a run did.
///
/// Rule: docs/FORMATS.md, "The printed text".
#[derive(Debug, PartialEq, Drop)]
pub enum Record {
    /// The run begins, with these members as core nodes. It may send so many frames.
    Begin {
        settings: Settings,
        frames: u32,
        members: List<Name>,
    },
    /// A step of the scenario begins. Steps are counted from 1.
    Step {
        index: u32,
        step: Step,
    },
    /// A frame is sent. Frames are numbered from 0 over the whole run.
    Sent {
        number: u32,
        bytes: Bytes,
    },
    /// The frame with this number is taken by its receiver.
    Taken {
        number: u32,
    },
    /// A joining node becomes core.
    Core {
        name: Name,
    },
    /// A node is gone: it has departed, or given up joining.
    Gone {
        name: Name,
    },
    /// The nodes that a walk went through: the asker first, the object's root last.
    Walked {
        object: Name,
        path: List<Name>,
    },
    /// The root of an object over all core nodes.
    RootOf {
        object: Name,
        root: Name,
    },
    /// A lookup is asked. Tickets are counted from 1.
    Asked {
        ticket: u32,
        object: Name,
        asker: Name,
    },
    /// A lookup is answered, with a server or none.
    Answered {
        ticket: u32,
        server: Option<Name>,
    },
    /// A server publishes an object.
    Published {
        object: Name,
        server: Name,
    },
    /// A server has an object no more.
    Withdrawn {
        object: Name,
        server: Name,
    },
    /// What a node is, and the links of its table.
    TableOf {
        name: Name,
        status: NodeWord,
        links: List<LinkLine>,
    },
    /// The pointers that a node holds.
    PointersOf {
        name: Name,
        pairs: List<Pair>,
    },
    /// The step with this index is refused.
    Refused {
        index: u32,
        refusal: Refusal,
    },
    /// The next step of a node would send more frames than may be sent, which are so many.
    Spent {
        limit: u32,
    },
    /// All steps were run, which were so many.
    Finished {
        steps: u32,
    },
    /// A damaged copy of the frame with this number is refused with this fault.
    Garbled {
        number: u32,
        fault: WireFault,
    },
    /// A joining node is to give up.
    Abandoned {
        name: Name,
    },
    /// The run is carried: frames travel in packets, which may be lost and repeated.
    Carrier,
    /// A packet is made, for this frame or, if `ack` is true, for its acknowledgement. Packets are numbered from 0.
    Packet {
        number: u32,
        frame: u32,
        ack: bool,
    },
    /// The packet with this number arrives.
    Arrived {
        packet: u32,
    },
    /// Each frame that awaits its acknowledgement is sent once more.
    Ticked,
    /// The packet with this number is lost.
    Lost {
        packet: u32,
    },
    /// The roots of the four salted names of an object.
    RootsOf {
        object: Name,
        asker: Name,
        roots: List<Name>,
    },
    /// A cast begins at a node, to all core nodes that share so many digits with it. Casts are counted from 1.
    CastFrom {
        cast: u32,
        word: Bytes,
        level: u8,
        name: Name,
    },
    /// A cast reaches a core node.
    Reached {
        cast: u32,
        name: Name,
    },
    /// A cast is done.
    Closed {
        cast: u32,
    },
}

impl Record {
    /// Whether two records are the same: of one kind, with the same values. `==` answers the same.
    ///
    /// Rule: docs/FORMATS.md, "The printed text".
    pub fn is_same(&self, other: &Record) -> bool
        ensures same { result ≡ true → self.now ≡ other.now }
        ensures each { self.now ≡ other.now → result ≡ true }
    {
        self == other
    }
}
