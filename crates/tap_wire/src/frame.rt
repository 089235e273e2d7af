use crate::bytes::Bytes;
use tap_name::{List, Name, Offered};
use tap_watch::Watch;

/// A frame that one node sends another.
///
/// Rule: docs/FORMATS.md, "Frames".
#[derive(Debug, Drop)]
pub struct Frame {
    /// The sender.
    pub from: Name,
    /// The receiver.
    pub to: Name,
    /// What it says.
    pub body: Body,
}

/// What a frame's head and its two names say.
///
/// Rule: docs/FORMATS.md, "Frames".
#[derive(Clone, Copy, Debug)]
pub struct Head {
    /// The kind, 1 to 17.
    pub kind: u8,
    /// The sender.
    pub from: Name,
    /// The receiver.
    pub to: Name,
}

/// What a Tell says, but for its watch list: so one list serves the Tells to many receivers.
///
/// Rule: docs/FORMATS.md, "Frames".
#[derive(Clone, Copy, Debug)]
pub struct TellFields {
    /// The joiner.
    pub joiner: Name,
    /// How many digits the joiner shares with its surrogate, below the number of digits.
    pub prefix: u8,
    /// The receiver is to tell nodes that share at least so many digits with it: above `prefix`, at most the number of
    /// digits.
    pub level: u8,
    /// The sender's session, from 1.
    pub session: u32,
    /// How many Tells led from the surrogate to the receiver.
    pub depth: u16,
}

/// What a frame says. The kinds have the codes 1 to 17, in this order.
///
/// Rule: docs/FORMATS.md, "Frames".
#[derive(Debug, Drop)]
pub enum Body {
    /// A joiner looks for its surrogate.
    Seek {
        /// The joiner.
        joiner: Name,
    },
    /// A joiner is made known.
    Tell {
        /// The joiner.
        joiner: Name,
        /// How many digits the joiner shares with its surrogate, below the number of digits.
        prefix: u8,
        /// The receiver is to tell nodes that share at least so many digits with it: above `prefix`, at most the
        /// number of digits.
        level: u8,
        /// The sender's session, from 1.
        session: u32,
        /// How many Tells led from the surrogate to the receiver.
        depth: u16,
        /// The slots of levels up to `prefix` that nobody has filled yet, at most `digits * (base - 1)`.
        watch: Watch,
    },
    /// A node greets a joiner.
    Hello {
        /// The sender's session, from 1.
        session: u32,
        /// Whether the sender is a core node.
        core: bool,
        /// Links that the joiner may take, at most 255, ascending by name.
        links: List<Offered>,
    },
    /// A joiner has heard a Hello.
    Heard {
        /// The session of the Hello, from 1.
        session: u32,
    },
    /// A Tell and all that followed from it is done.
    Ack {
        /// The session of the Tell, from 1.
        session: u32,
    },
    /// A join is done.
    Done,
    /// A pin on the sender may end.
    Release,
    /// The sender has a link to the receiver, or has it no more.
    Link {
        /// The version, any number.
        version: u32,
        /// Whether the link is there.
        on: bool,
    },
    /// A pointer is laid or taken away.
    Lay {
        /// The object.
        object: Name,
        /// The object's server.
        server: Name,
        /// The level of the receiver on the path, from 1 to the number of digits.
        level: u8,
        /// The version, any number.
        version: u32,
        /// Whether the pointer is there.
        on: bool,
    },
    /// A lookup.
    Find {
        /// The lookup's number, any number.
        ticket: u32,
        /// The object.
        object: Name,
        /// The node that asks.
        asker: Name,
        /// The level of the receiver on the path, from 1 to the number of digits.
        level: u8,
    },
    /// The answer of a lookup.
    Answer {
        /// The lookup's number, any number.
        ticket: u32,
        /// A server of the object, if one is known.
        server: Option<Name>,
    },
    /// A node leaves.
    Leave {
        /// A node that may replace it, if one is known.
        replacement: Option<Name>,
    },
    /// A Leave is taken note of.
    Left,
    /// A node has gone.
    Gone,
    /// A joiner has given up, and a pin on it ends.
    Forget,
    /// A word to all nodes of a prefix.
    Cast {
        /// The cast's number, any number.
        cast: u32,
        /// The receiver is to cast to nodes that share at least so many digits with it, from 1 to the number of
        /// digits.
        level: u8,
        /// The sender's session, from 1.
        session: u32,
        /// How many Casts led from the first node to the receiver.
        depth: u16,
        /// The word: 1 to 32 lower-case letters and digits.
        word: Bytes,
    },
    /// A Cast and all that followed from it is done.
    CastAck {
        /// The session of the Cast, from 1.
        session: u32,
    },
}
