ghost use Rattle.tap_wire.specs.ReadsBack.{ReadsBack, SpelledSo, HeadReadsBack};

/// A law: the spelling of a frame whose fields keep their rules is read as that frame.
///
/// So `decode` gives back what `encode` was given, and no two frames have the same spelling.
///
/// It does nothing: its contract is the law.
///
/// Rule: docs/FORMATS.md, "Frames".
pub fn reads_back()
    ensures { ReadsBack }
{}

/// A law: bytes that are read as a frame are the spelling of that frame, whose fields keep their rules.
///
/// So a frame has one spelling.
///
/// It does nothing: its contract is the law.
///
/// Rule: docs/FORMATS.md, "Frames".
pub fn spelled_so()
    ensures { SpelledSo }
{}

/// A law: the head of a frame's spelling is the frame's kind, sender and receiver.
///
/// It does nothing: its contract is the law.
///
/// Rule: docs/FORMATS.md, "Frames".
pub fn head_reads_back()
    ensures { HeadReadsBack }
{}
