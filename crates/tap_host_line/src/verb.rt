ghost use Rattle.std.specs.Prelude.{◌≡◌};
ghost use Rattle.tap_host_line.specs.Line.{verb_of_word};

// The first word of a line.
#[derive(Clone, Copy)]
pub(crate) enum Verb {
    Packet,
    Ack,
    Members,
    Join,
    Abandon,
    Publish,
    Withdraw,
    Find,
    Leave,
    Cast,
    Tick,
    Status,
}

impl Verb {
    // The verb that this word is.
    pub(crate) fn of(word: &[u8]) -> Option<Verb>
        ensures { result ≡ verb_of_word word.now }
    {
        match word {
            b"packet" => Some(Verb::Packet),
            b"ack" => Some(Verb::Ack),
            b"members" => Some(Verb::Members),
            b"join" => Some(Verb::Join),
            b"abandon" => Some(Verb::Abandon),
            b"publish" => Some(Verb::Publish),
            b"withdraw" => Some(Verb::Withdraw),
            b"find" => Some(Verb::Find),
            b"leave" => Some(Verb::Leave),
            b"cast" => Some(Verb::Cast),
            b"tick" => Some(Verb::Tick),
            b"status" => Some(Verb::Status),
            _ => None,
        }
    }
}
