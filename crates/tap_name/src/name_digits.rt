ghost use Rattle.std.specs.Prelude.{◌≡◌, ◌<◌, ◌≤◌, All, length, take};
ghost use Rattle.tap_name.specs.Padded.{IsPadded};

use std::marker::Model;

/// The digits of a name, one a byte. Contracts see their list.
///
/// Rule: docs/PROTOCOL.md, "Names".
#[derive(Clone, Copy, Debug)]
pub struct NameDigits {
    places: [u8; 40],
    len: u32,
}

impl Model for NameDigits {
    ghost use Rattle.std.specs.Prelude.{List, ℕ, ◌<◌, take, length};
    ghost use Rattle.std.proofs.Common.{arith, length-take-le};
    ghost use Rattle.tap_name.specs.Padded.{IsPadded, padded, padded_take};

    ghost Value = { List ℕ };

    ghost view = { λ n. take n.len n.places };

    ghost invariant = { λ n. IsPadded 40 (λ d. d < 16) n.places n.len };

    ghost inverse = { λ xs. record { places = padded 40 xs; len = length xs } };

    ghost inverse_ok = { λ n h i. record {
      places = padded_take 40 (λ d. d < 16) n.places n.len h i;
      len = length-take-le n.len n.places (omega (arith, h.fits, h.all)) i;
    } };
}

impl NameDigits {
    // The first of forty places.
    pub(crate) fn first_of(places: [u8; 40], len: u32) -> NameDigits
        requires { IsPadded 40 (λ d. d < 16) places len }
        ensures { result ≡ take len places }
    {
        NameDigits { places, len }
    }

    /// The digits, lent.
    pub fn as_slice(&self) -> &[u8]
        ensures value { result.now ≡ self.now }
        ensures len { length self.now ≤ 40 }
        ensures digits { All (λ d. d < 16) self.now }
    {
        &self.places[..self.len as usize]
    }
}
