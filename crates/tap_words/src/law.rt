ghost use Rattle.tap_words.specs.Plain.{PlainWordsAreAccepted};

/// Plain words are accepted: `--brief`, `--make` with a number from 1 to 100, and `--seed` with a number below 2^64, each at most
/// once, in any order, with each number a word of its own in plain decimal. They ask for just that.
///
/// It does nothing: its contract is the law.
///
/// Rule: docs/FORMATS.md, "The words".
pub fn plain_words_law()
    ensures { PlainWordsAreAccepted }
{}
