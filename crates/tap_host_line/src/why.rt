ghost use Rattle.std.specs.Prelude.{◌≡◌};
ghost use Rattle.tap_host_line.specs.Texts.{word_of_why};

/// Why a line in wasn't taken. But for `Room` it has changed nothing.
///
/// Rule: docs/NETWORK.md, "Why a line is refused".
#[derive(Clone, Copy, Debug, PartialEq, Eq)]
pub enum Why {
    /// The text is no line.
    Line,
    /// Members came after a start, a packet or other members were taken.
    Late,
    /// The node isn't among the members.
    Stranger,
    /// The status of the node has no such start.
    Status,
    /// The number of a cast isn't above those of all casts that the node has met.
    Number,
    /// The bytes of a packet are no frame.
    Damaged,
    /// The frame of a packet is for another node, or not from its sender.
    Foreign,
    /// The frame of a packet is strange to the node.
    Strange,
    /// There is no room for a step.
    Room,
}

impl Why {
    // The word of it.
    pub(crate) fn word(self) -> &'static str
        ensures { result.now ≡ word_of_why self }
    {
        match self {
            Why::Line => "line",
            Why::Late => "late",
            Why::Stranger => "stranger",
            Why::Status => "status",
            Why::Number => "number",
            Why::Damaged => "damaged",
            Why::Foreign => "foreign",
            Why::Strange => "strange",
            Why::Room => "room",
        }
    }
}
