ghost use Rattle.std.specs.Prelude.{◌≡◌};
ghost use Rattle.std.specs.List.{list_all};
ghost use Rattle.tap_name.specs.Word.{is_word_byte};

// Whether a byte is a lower-case letter or a digit.
fn is_word_byte(byte: u8) -> bool
    ensures { result ≡ is_word_byte byte }
{
    matches!(byte, b'a'..=b'z' | b'0'..=b'9')
}

/// Whether bytes are lower-case letters and digits alone, as those of a word are.
///
/// Rule: docs/FORMATS.md, "The scenario".
pub fn are_word_bytes(bytes: &[u8]) -> bool
    ensures { result ≡ list_all is_word_byte bytes.now }
{
    bytes.iter().all(|byte| is_word_byte(*byte))
}
