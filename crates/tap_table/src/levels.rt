ghost use Rattle.std.specs.Prelude.{◌≡◌};
ghost use Rattle.tap_table.specs.Levels.{is_kept, sent_from};

/// Whether a word that a node sends on over the levels from `level` on was sent on over all of these before: the least level
/// from which on it was, if it was at all, is kept, and is at most this one.
///
/// Rule: docs/PROTOCOL.md, "Covers" and "Casts".
pub fn is_kept(kept: Option<u8>, level: u8) -> bool
    ensures { result ≡ is_kept kept level }
{
    match kept {
        Some(kept) => kept <= level,
        None => false,
    }
}

/// The level from which on the word was sent on before: the one that is kept, and the number of digits if none is.
///
/// Rule: docs/PROTOCOL.md, "Covers" and "Casts".
pub fn sent_from(digits: u8, kept: Option<u8>) -> u8
    ensures { result ≡ sent_from digits kept }
{
    match kept {
        Some(kept) => kept,
        None => digits,
    }
}
