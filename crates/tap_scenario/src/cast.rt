ghost use Rattle.std.specs.Prelude.{◌≡◌, ◌↔◌, ℕ, ◌≤◌, List, [], ◌∷◌, ◌++◌, length, nat_eq, Some};
ghost use Rattle.std.specs.Cmp.{partial_equiv_from_equiv};
ghost use Rattle.std.specs.Cmp.Lexicographic.{pointwise, nat_list_eq_equiv};
ghost use Rattle.std.specs.Option.{SomeIff};
ghost use Rattle.tap_name.specs.Word.{IsWord, is_word};
ghost use Rattle.tap_scenario.specs.Step.{IsPrefix, word_of_bytes, prefix_of_word, text_of_prefix};

use std::marker::Model;
use tap_name::{Name, NameDigits, Settings, are_word_bytes, read_name};

/// The word that a cast spreads: 1 to 32 lower-case letters and digits. Contracts see its bytes.
///
/// Rule: docs/FORMATS.md, "The scenario".
#[derive(Clone, Copy, Debug)]
pub struct Word {
    bytes: [u8; 32],
    len: u8,
}

impl Model for Word {
    ghost use Rattle.std.specs.Prelude.{List, ℕ, IsTrue, take, length};
    ghost use Rattle.std.proofs.Common.{arith, length-take-le};
    ghost use Rattle.tap_name.specs.Padded.{padded, padded_take};
    ghost use Rattle.tap_name.specs.Word.{is_word_byte};
    ghost use Rattle.tap_scenario.specs.Word.{KeepsWord};

    ghost Value = { List ℕ };

    ghost view = { λ w. take w.len w.bytes };

    ghost invariant = { λ w. KeepsWord w.bytes w.len };

    ghost inverse = { λ xs. record { bytes = padded 32 xs; len = length xs } };

    ghost inverse_ok = { λ w h i. record {
      bytes = padded_take 32 (λ byte. IsTrue (is_word_byte byte)) w.bytes w.len h.padded i;
      len = length-take-le w.len w.bytes (omega (arith, h.padded.fits, h.padded.all)) i;
    } };
}

// Whether bytes are 1 to 32 lower-case letters and digits.
fn is_word(bytes: &[u8]) -> bool
    ensures { result ≡ is_word bytes.now }
{
    !bytes.is_empty() && bytes.len() <= 32 && are_word_bytes(bytes)
}

impl Word {
    // The word of these bytes.
    fn copy_of(bytes: &[u8]) -> Word
        requires { IsWord bytes.now }
        ensures { result ≡ bytes.now }
    {
        let mut places = [0; 32];
        places[..bytes.len()].copy_from_slice(bytes);
        Word {
            bytes: places,
            len: bytes.len() as u8,
        }
    }

    /// The word of these bytes, `None` exactly if they aren't 1 to 32 lower-case letters and digits.
    ///
    /// Rule: docs/FORMATS.md, "The scenario".
    pub fn of(bytes: &[u8]) -> Option<Word>
        ensures value { result ≡ word_of_bytes bytes.now }
        ensures exact { SomeIff result (IsWord bytes.now) bytes.now }
    {
        if is_word(bytes) {
            Some(Word::copy_of(bytes))
        } else {
            None
        }
    }

    /// The bytes, lent.
    pub fn as_slice(&self) -> &[u8]
        ensures value { result.now ≡ self.now }
        ensures valid { IsWord self.now }
    {
        &self.bytes[..self.len as usize]
    }
}

impl PartialEq for Word {
    ghost eq = { pointwise nat_eq };

    ghost laws = { partial_equiv_from_equiv nat_list_eq_equiv };

    fn eq(&self, other: &Word) -> bool {
        self.as_slice() == other.as_slice()
    }
}

impl Eq for Word {
    ghost laws = { nat_list_eq_equiv };
}

/// The prefix to whose nodes a cast goes: no digit, or so many first digits of a name. Contracts see the digits.
///
/// Rule: docs/FORMATS.md, "The scenario".
#[derive(Clone, Copy, Debug)]
pub struct Prefix {
    digits: Name,
}

impl Model for Prefix {
    ghost use Rattle.std.specs.Prelude.{List, ℕ};

    ghost Value = { List ℕ };

    ghost view = { λ p. p.digits };

    ghost inverse = { λ xs. record { digits = xs } };
}

impl Prefix {
    /// The prefix of these digits, `None` exactly if they are more than a name of the settings has, or one of them
    /// isn't below the base.
    ///
    /// Rule: docs/FORMATS.md, "The scenario".
    pub fn of(settings: &Settings, digits: &[u8]) -> Option<Prefix>
        ensures { SomeIff result (IsPrefix settings.now digits.now) digits.now }
    {
        if digits.is_empty() {
            return Some(Prefix {
                digits: Name::of(&[]),
            });
        }
        if digits.len() > settings.digits() as usize {
            return None;
        }
        let shorter = Settings::new(settings.base(), digits.len() as u8, settings.width())?;
        match Name::from_digits(&shorter, digits) {
            Ok(name) => Some(Prefix { digits: name }),
            Err(_) => None,
        }
    }

    // The prefix that a text spells.
    fn spelled(settings: &Settings, text: &[u8]) -> Option<Prefix>
        ensures { result ≡ prefix_of_word settings.now text.now }
    {
        if text == b"*".as_slice() {
            return Some(Prefix {
                digits: Name::of(&[]),
            });
        }
        if text.is_empty() || text.len() > settings.digits() as usize {
            return None;
        }
        let shorter = Settings::new(settings.base(), text.len() as u8, settings.width())?;
        let digits = read_name(&shorter, text).ok()?;
        Some(Prefix { digits })
    }

    /// The prefix that a text spells, one byte for each digit as in a name, and `*` for no digit. `None` exactly if
    /// the text is neither that nor 1 to as many digits below the base as a name of the settings has.
    ///
    /// Rule: docs/FORMATS.md, "The scenario".
    pub fn read(settings: &Settings, text: &[u8]) -> Option<Prefix>
        ensures value { result ≡ prefix_of_word settings.now text.now }
        ensures exact { (prefix : List ℕ)
            → ((result ≡ Some prefix) ↔ ((text.now ≡ text_of_prefix prefix) × IsPrefix settings.now prefix)) }
    {
        // A digit below this base prints as one byte, which is read as that digit alone.
        let base = settings.base();
        prove!(base <= 16);
        Prefix::spelled(settings, text)
    }

    /// The number of digits.
    ///
    /// Rule: docs/FORMATS.md, "The scenario".
    pub fn len(&self) -> usize
        ensures value { result ≡ length self.now }
        ensures most { result ≤ 40 }
    {
        self.digits.len()
    }

    /// The digits, one a byte.
    ///
    /// Rule: docs/FORMATS.md, "The scenario".
    pub fn digits(&self) -> NameDigits
        ensures { result ≡ self.now }
    {
        self.digits.digits()
    }
}

impl PartialEq for Prefix {
    ghost eq = { pointwise nat_eq };

    ghost laws = { partial_equiv_from_equiv nat_list_eq_equiv };

    fn eq(&self, other: &Prefix) -> bool {
        self.digits == other.digits
    }
}

impl Eq for Prefix {
    ghost laws = { nat_list_eq_equiv };
}
