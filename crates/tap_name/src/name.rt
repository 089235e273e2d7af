ghost use Rattle.std.specs.Prelude.{◌≡◌, ◌↔◌, ℕ, ◌+◌, ◌<◌, ◌≤◌, List, [], ◌∷◌, ◌++◌, length, slice_index, All, Some, Ok, nat_eq, IfOk, ◌*◌, min, take, drop};
ghost use Rattle.std.proofs.Common.{rules};
ghost use Rattle.std.proofs.lemmas.Slice.Eq.{bytes_eq-Decides};
ghost use Rattle.std.specs.Bool.{OnTrue};
ghost use Rattle.std.specs.Cmp.{partial_equiv_from_equiv};
ghost use Rattle.std.specs.Cmp.Lexicographic.{pointwise, slice_cmp, nat_list_eq_equiv, nat_list_cmp_total, texts_po, texts_ties};
ghost use Rattle.std.specs.Ordering.{nat_cmp};
ghost use Rattle.std.specs.Hash.{same_Alike};
ghost use Rattle.std.specs.Int.{from_be_bytes, w32, w64};
ghost use Rattle.std.specs.List.{common_prefix_len};
ghost use Rattle.tap_name.specs.Digits.{text_of_digit};
ghost use Rattle.tap_name.specs.Name.{IsName, name_of_digits, text_of_name};
ghost use Rattle.tap_name.specs.Packed.{both_halves, halves, head_from, joined, packed};
ghost use Rattle.tap_name.specs.Padded.{padded};
ghost use Rattle.tap_name.specs.Prefix.{lcp};

use crate::name_digits::NameDigits;
use crate::reading::name_of;
use crate::settings::Settings;
use std::cmp::Ordering;
use std::hash::{Hash, Hasher};
use std::marker::Model;

/// The usual number of digits of a name. Names of so many are compared, read and written by code that knows their length, for speed alone.
///
/// Rule: docs/DECISIONS.md, "Frames and watch lists".
pub const USUAL_DIGITS: usize = 8;

/// A name of a node or an object: up to 40 digits, each below 16.
///
/// Names are ordered digit by digit. Contracts see the list of the digits. Two digits stand in a byte, and a name takes 24 bytes,
/// which two moves copy without overlap: names are moved far more often than their digits are looked at.
///
/// Rule: docs/PROTOCOL.md, "Names".
#[derive(Clone, Copy, Debug)]
pub struct Name {
    pairs: [u8; 20],
    len: u32,
}

impl Model for Name {
    ghost use Rattle.std.specs.Prelude.{List, ℕ, ◌<◌, take, length};
    ghost use Rattle.std.proofs.Common.{◌∙◌, ap, arith, length-take-le};
    ghost use Rattle.tap_name.specs.Padded.{IsPadded, padded, padded_take};
    ghost use Rattle.tap_name.specs.Packed.{halves, joined, joined-halves};

    ghost Value = { List ℕ };

    ghost view = { λ n. take n.len (halves n.pairs) };

    ghost invariant = { λ n. IsPadded 40 (λ d. d < 16) (halves n.pairs) n.len };

    ghost inverse = { λ xs. record { pairs = joined (padded 40 xs); len = length xs } };

    ghost inverse_ok = { λ n h i. record {
      pairs = (ap joined (padded_take 40 (λ d. d < 16) (halves n.pairs) n.len h) ∙ joined-halves n.pairs) i;
      len = length-take-le n.len (halves n.pairs) (omega (arith, h.fits, h.all)) i;
    } };
}

/// Why digits or a text are no name.
///
/// Rule: docs/PROTOCOL.md, "Names".
#[derive(Clone, Copy, Debug, PartialEq, Eq)]
pub enum NameFault {
    /// There are so many digits or bytes, and not as many as a name has.
    BadLength(usize),
    /// The first place, from 0, at which no digit below the base stands.
    BadDigit(usize),
}

impl Name {
    /// The digits, one a byte.
    ///
    /// Rule: docs/PROTOCOL.md, "Names".
    #[inline(always)]
    pub fn digits(&self) -> NameDigits
        ensures { result ≡ self.now }
    {
        let mut places = [0; 40];
        put_halves(&self.pairs, &mut places);
        NameDigits::first_of(places, self.len)
    }

    /// Puts the digits of a name that has as many as usual, one a byte, into so many places.
    ///
    /// Rule: docs/PROTOCOL.md, "Names".
    #[inline(always)]
    pub fn put_usual_digits(&self, places: &mut [u8])
        requires usual { length self.now ≡ 8 }
        requires places { length places.old ≡ 8 }
        ensures value { places.new ≡ self.now }
        ensures digits { All (λ d. d < 16) self.now }
    {
        put_halves(&self.pairs[..USUAL_DIGITS / 2], places);
    }

    /// The number of digits.
    pub fn len(&self) -> usize
        ensures value { result ≡ length self.now }
        ensures most { result ≤ 40 }
    {
        self.len as usize
    }

    /// The digit at a place, from 0.
    pub fn digit(&self, at: usize) -> u8
        requires { at < length self.now }
        ensures value { result ≡ slice_index self.now at }
        ensures is_digit { result < 16 }
    {
        let pair = self.pairs[at / 2];
        if at % 2 == 0 { pair / 16 } else { pair % 16 }
    }

    /// The byte that the digit at a place, from 0, is printed as: `0` to `9`, then `a` to `f`.
    pub fn text_byte(&self, at: usize) -> u8
        requires { at < length self.now }
        ensures { result ≡ text_of_digit (slice_index self.now at) }
    {
        text_of_digit(self.digit(at))
    }

    // The first sixteen digits as one number, in which the first is worth the most. Digits that the name doesn't have count as 0.
    #[inline(always)]
    fn head(&self) -> u64
        ensures value { result ≡ head_from 16 0 self.now }
        ensures digits { All (λ d. d < 16) self.now }
    {
        u64::from_be_bytes([
            self.pairs[0],
            self.pairs[1],
            self.pairs[2],
            self.pairs[3],
            self.pairs[4],
            self.pairs[5],
            self.pairs[6],
            self.pairs[7],
        ])
    }

    // Whether both have one number of digits, and no digit after their heads.
    #[inline(always)]
    fn are_heads(&self, other: &Name) -> bool
        ensures { OnTrue result ((length self.now ≡ length other.now) × (length self.now ≤ 16)) }
    {
        self.len() == other.len() && self.len() <= 16
    }

    /// The length of the longest common prefix of two names.
    pub fn lcp(&self, other: &Name) -> usize
        ensures value { result ≡ common_prefix_len nat_eq self.now other.now }
        ensures shared { result ≡ lcp self.now other.now }
        ensures within { result ≤ length self.now }
        ensures within_other { result ≤ length other.now }
        ensures most { result ≤ 40 }
    {
        shared_halves(&self.pairs, &other.pairs, self.len().min(other.len()))
    }

    /// The name of these digit values. A wrong number of them is found before a bad digit.
    ///
    /// Rule: docs/PROTOCOL.md, "Names".
    pub fn from_digits(settings: &Settings, digits: &[u8]) -> Result<Name, NameFault>
        ensures value { result ≡ name_of_digits settings.now digits.now }
        ensures valid { IfOk result (IsName settings.now) }

        // Digits are taken exactly if they are a name of the settings, which is then that name.
        ensures exact { (name : List ℕ) → ((result ≡ Ok name) ↔ ((digits.now ≡ name) × IsName settings.now name)) }
    {
        if digits.len() != settings.digits() as usize {
            return Err(NameFault::BadLength(digits.len()));
        }
        name_of(settings, digits)
    }

    /// The name of these digits, at most 40 and each below 16, whatever the settings.
    ///
    /// Rule: docs/PROTOCOL.md, "Names".
    pub fn of(digits: &[u8]) -> Name
        requires few { length digits.now ≤ 40 }
        requires digits { All (λ d. d < 16) digits.now }
        ensures { result ≡ digits.now }
    {
        Name {
            pairs: joined(digits),
            len: digits.len() as u32,
        }
    }
}

// Both halves of each byte as one number: the first one, and 256 times the second. So many bytes are taken apart at once.
#[inline(always)]
fn both_halves(bytes: &[u8]) -> [u16; 20]
    requires { length bytes.now ≤ 20 }
    ensures { (at : ℕ) → at < length bytes.now → slice_index result at ≡ both_halves (slice_index bytes.now at) }
{
    let mut both = [0; 20];
    for at in 0..bytes.len() {
        both[at] = u16::from(bytes[at]) / 16 + 256 * (u16::from(bytes[at]) % 16);
    }
    both
}

// Writes the halves of bytes.
#[inline(always)]
fn put_halves(bytes: &[u8], digits: &mut [u8])
    requires few { length bytes.now ≤ 20 }
    requires places { length digits.old ≡ 2 * length bytes.now }
    ensures { digits.new ≡ halves bytes.now }
{
    let both = both_halves(bytes);
    for at in 0..bytes.len() {
        digits[2 * at] = (both[at] % 256) as u8;
        digits[2 * at + 1] = (both[at] / 256) as u8;
    }
}

// How many first halves are equal, at most so many.
#[inline(always)]
fn shared_halves(mine: &[u8; 20], theirs: &[u8; 20], most: usize) -> usize
    requires { most ≤ 40 }
    ensures { result ≡ min most (common_prefix_len nat_eq (halves mine.now) (halves theirs.now)) }
{
    for at in 0..most.div_ceil(2) {
        if mine[at] / 16 != theirs[at] / 16 {
            return most.min(2 * at);
        }
        if mine[at] != theirs[at] {
            return most.min(2 * at + 1);
        }
    }
    most
}

// The byte that two digits make. The product moves the first one to the front of the second, so that many are put together at once.
#[inline(always)]
fn pair_of(first: u8, second: u8) -> u8
    requires first { first < 16 }
    requires second { second < 16 }
    ensures { result ≡ first * 16 + second }
{
    let both = u16::from(first) + 256 * u16::from(second);
    (both.wrapping_mul(4097) / 256) as u8
}

/// Prints digits, each below 16: puts the byte of each, `0` to `9` or `a` to `f`, in its place.
///
/// Rule: docs/PROTOCOL.md, "Names".
#[inline(always)]
pub fn print_digits(digits: &[u8], text: &mut [u8])
    requires places { length text.old ≡ length digits.now }
    requires below { All (λ digit. digit < 16) digits.now }
    ensures { text.new ≡ text_of_name digits.now }
{
    for at in 0..digits.len() {
        text[at] = text_of_digit(digits[at]);
    }
}

/// Writes digits two a byte, the first of each two as the high half.
///
/// Rule: docs/PROTOCOL.md, "Names".
#[inline(always)]
pub fn put_joined(digits: &[u8], pairs: &mut [u8])
    requires pairs { length digits.now ≡ 2 * length pairs.old }
    requires digits { All (λ d. d < 16) digits.now }
    ensures { pairs.new ≡ joined digits.now }
{
    for at in 0..pairs.len() {
        pairs[at] = pair_of(digits[2 * at], digits[2 * at + 1]);
    }
}

// At most forty digits two a byte, and zeros after them. If they are as many as usual, all are joined at once.
#[inline(always)]
fn joined(digits: &[u8]) -> [u8; 20]
    requires few { length digits.now ≤ 40 }
    requires digits { All (λ d. d < 16) digits.now }
    ensures { result ≡ joined (padded 40 digits.now) }
{
    let mut pairs = [0; 20];
    if digits.len() == USUAL_DIGITS {
        put_joined(digits, &mut pairs[..USUAL_DIGITS / 2]);
        return pairs;
    }
    let mut places = [0; 40];
    places[..digits.len()].copy_from_slice(digits);
    put_joined(&places, &mut pairs);
    pairs
}

/// The byte that a digit is printed as: `0` to `9`, then `a` to `f`.
///
/// It is made by numbers alone, without a branch, since many are printed at once.
///
/// Rule: docs/PROTOCOL.md, "Names".
#[inline(always)]
pub fn text_of_digit(digit: u8) -> u8
    requires { digit < 16 }
    ensures { result ≡ text_of_digit digit }
{
    b'0' + digit + 39 * u8::from(digit > 9)
}

impl PartialEq for Name {
    ghost eq = { pointwise nat_eq };

    ghost laws = { partial_equiv_from_equiv nat_list_eq_equiv };

    // By their heads, and by all digits if they have more.
    #[inline(always)]
    fn eq(&self, other: &Name) -> bool {
        if self.head() != other.head() {
            return false;
        }
        if self.are_heads(other) {
            return true;
        }
        are_same(self, other)
    }
}

// Whether names have the same digits.
#[inline(never)]
fn are_same(mine: &Name, theirs: &Name) -> bool
    ensures { result ≡ pointwise nat_eq mine.now theirs.now }
{
    if mine.len != theirs.len {
        return false;
    }
    are_same_bytes(&mine.pairs, &theirs.pairs)
}

// Whether all bytes are the same, as two words of eight and one of four.
#[inline(always)]
fn are_same_bytes(mine: &[u8; 20], theirs: &[u8; 20]) -> bool
    ensures { result ≡ pointwise nat_eq mine.now theirs.now }
{
    if word_at(mine, 0) != word_at(theirs, 0) || word_at(mine, 8) != word_at(theirs, 8) {
        return false;
    }
    last_word(mine) == last_word(theirs)
}

// The last four bytes as one number.
#[inline(always)]
fn last_word(bytes: &[u8; 20]) -> u32
    ensures { result ≡ from_be_bytes w32 (take 4 (drop 16 bytes.now)) }
{
    u32::from_be_bytes([bytes[16], bytes[17], bytes[18], bytes[19]])
}

// The eight bytes from a place on as one number, in which the first is worth the most.
#[inline(always)]
fn word_at(bytes: &[u8; 20], at: usize) -> u64
    requires { at + 8 ≤ 20 }
    ensures { result ≡ from_be_bytes w64 (take 8 (drop at bytes.now)) }
{
    u64::from_be_bytes([
        bytes[at],
        bytes[at + 1],
        bytes[at + 2],
        bytes[at + 3],
        bytes[at + 4],
        bytes[at + 5],
        bytes[at + 6],
        bytes[at + 7],
    ])
}

impl Eq for Name {
    ghost laws = { nat_list_eq_equiv };
}

impl PartialOrd for Name {
    ghost partial_cmp = { λ x y. Some (slice_cmp nat_cmp x y) };

    ghost laws = { texts_po };

    fn partial_cmp(&self, other: &Name) -> Option<Ordering> {
        Some(self.cmp(other))
    }
}

impl Ord for Name {
    ghost cmp = { slice_cmp nat_cmp };

    ghost total = { nat_list_cmp_total };

    ghost matches_partial_cmp = { Prim.search rules };

    ghost matches_eq = { texts_ties };

    // By their heads. All digits are compared only if the heads are equal and there are more digits.
    #[inline(always)]
    fn cmp(&self, other: &Name) -> Ordering {
        let mine = self.head();
        let theirs = other.head();
        if mine < theirs {
            return Ordering::Less;
        }
        if theirs < mine {
            return Ordering::Greater;
        }
        if self.are_heads(other) {
            return Ordering::Equal;
        }
        cmp_digits(self, other)
    }
}

// Compares names digit by digit; a beginning of the other comes first.
#[inline(never)]
fn cmp_digits(mine: &Name, theirs: &Name) -> Ordering
    ensures { result ≡ slice_cmp nat_cmp mine.now theirs.now }
{
    if are_same(mine, theirs) {
        return Ordering::Equal;
    }
    mine.digits().as_slice().cmp(theirs.digits().as_slice())
}

impl Hash for Name {
    // All bytes in one write. Names of one overlay have one length, so that it isn't hashed.
    ghost hash_input = { λ digits. packed digits ∷ [] };

    ghost respects_eq = { (same_Alike (λ digits. packed digits ∷ []) bytes_eq-Decides).fed };

    #[inline(always)]
    fn hash<H: Hasher>(&self, state: &mut H) {
        state.write(&self.pairs);
    }
}
