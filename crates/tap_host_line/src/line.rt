ghost use Rattle.std.specs.Prelude.{◌≡◌};
ghost use Rattle.tap_host_line.specs.Line.{frame_of_line};

use tap_name::{List, Name};
use tap_scenario::Word;

/// What a node is to start.
///
/// Rule: docs/NETWORK.md, "Lines".
#[derive(Clone, Copy, Debug)]
pub enum Start {
    /// Its join.
    Join {
        /// The node that it asks.
        via: Name,
    },
    /// Its join is given up.
    Abandon,
    /// It publishes an object.
    Publish {
        /// The object.
        object: Name,
    },
    /// It withdraws an object.
    Withdraw {
        /// The object.
        object: Name,
    },
    /// It looks an object up.
    Find {
        /// The number of the lookup.
        ticket: u32,
        /// The object.
        object: Name,
    },
    /// It leaves.
    Leave,
    /// It casts a word.
    Cast {
        /// The number of the cast.
        number: u32,
        /// How many digits those share with the node that are sent the word, at most all.
        level: u8,
        /// The word.
        word: Word,
    },
}

/// A line in.
///
/// Rule: docs/NETWORK.md, "Lines".
#[derive(Debug, Drop)]
pub enum Line {
    /// The members of a network at rest, 1 to 256 distinct names: the node begins as one of them.
    Members {
        /// Their names.
        names: List<Name>,
    },
    /// A packet with a frame has come.
    Packet {
        /// Who has numbered the frame.
        from: Name,
        /// Its number, 1 to 4,000,000,000.
        seq: u32,
        /// The bytes of the frame.
        frame: List<u8>,
    },
    /// The acknowledgement of a frame has come.
    Ack {
        /// The receiver of the frame.
        from: Name,
        /// Its number, 1 to 4,000,000,000.
        seq: u32,
    },
    /// The node starts something.
    Start {
        /// What it starts.
        start: Start,
    },
    /// Each frame that awaits its acknowledgement is to be sent once more.
    Tick,
    /// The status of the node is asked for.
    Status,
}

impl Line {
    /// The list of the frame of a packet, and `None` of each other line.
    ///
    /// Rule: docs/NETWORK.md, "Lines".
    pub fn into_frame(self) -> Option<List<u8>>
        ensures { result ≡ frame_of_line self }
    {
        match self {
            Line::Packet { frame, .. } => Some(frame),
            Line::Members { .. }
            | Line::Ack { .. }
            | Line::Start { .. }
            | Line::Tick
            | Line::Status => None,
        }
    }
}
