ghost use Rattle.std.specs.Prelude.{◌≡◌, ◌+◌, ◌*◌, ◌-◌, ◌≤◌, ◌<◌, nat_le, length, take, drop, position, All};
ghost use Rattle.std.specs.Bool.{OnTrue};
ghost use Rattle.tap_name.specs.Name.{IsName};
ghost use Rattle.tap_wire.specs.declared.fault.Broken.{Broken};
ghost use Rattle.tap_wire.specs.Fields.{number_at, session_at, level_at, flag_at, name_at, optional_at};

use crate::fault::Broken;
use byteorder::{BigEndian, ByteOrder};
use tap_name::{Name, Settings, USUAL_DIGITS};

// The number of four bytes from a place on.
pub(crate) fn u32_at(bytes: &[u8], place: usize) -> u32
    requires { place + 4 ≤ length bytes.now }
    ensures { result ≡ number_at 4 place bytes.now }
{
    BigEndian::read_u32(&bytes[place..])
}

// The number of two bytes from a place on.
pub(crate) fn u16_at(bytes: &[u8], place: usize) -> u16
    requires { place + 2 ≤ length bytes.now }
    ensures { result ≡ number_at 2 place bytes.now }
{
    BigEndian::read_u16(&bytes[place..])
}

// A session, at least 1.
pub(crate) fn session_at(bytes: &[u8], place: usize) -> Result<u32, Broken>
    requires { place + 4 ≤ length bytes.now }
    ensures { result ≡ session_at place bytes.now }
{
    let session = u32_at(bytes, place);
    if session < 1 {
        return Err(Broken { at: place });
    }
    Ok(session)
}

// A level, from 1 to the number of digits.
pub(crate) fn level_at(settings: &Settings, bytes: &[u8], place: usize) -> Result<u8, Broken>
    requires { place < length bytes.now }
    ensures { result ≡ level_at settings.now place bytes.now }
{
    let level = bytes[place];
    if level < 1 {
        return Err(Broken { at: place });
    }
    if level > settings.digits() {
        return Err(Broken { at: place });
    }
    Ok(level)
}

// A flag, 0 or 1.
pub(crate) fn flag_at(bytes: &[u8], place: usize) -> Result<bool, Broken>
    requires { place < length bytes.now }
    ensures { result ≡ flag_at place bytes.now }
{
    let flag = bytes[place];
    if flag > 1 {
        return Err(Broken { at: place });
    }
    Ok(flag == 1)
}

// The bytes of the name at a place.
#[inline(always)]
pub(crate) fn digits_at<'a>(settings: &Settings, bytes: &'a [u8], place: usize) -> &'a [u8]
    requires { place + settings.now.digits ≤ length bytes.now }
    ensures { result.now ≡ take settings.now.digits (drop place bytes.now) }
{
    &bytes[place..place + settings.digits() as usize]
}

// The place of the first digit that isn't below the base.
fn bad_digit(settings: &Settings, digits: &[u8]) -> Option<usize>
    ensures { result ≡ position (λ d. nat_le settings.now.base d) digits.now }
{
    let base = settings.base();
    digits.iter().position(|digit| *digit >= base)
}

// Whether all bytes are below a bound. No byte ends the pass, so that many are compared at a time.
#[inline(always)]
pub(crate) fn are_below(bound: u8, bytes: &[u8]) -> bool
    ensures { OnTrue result (All (λ b. b < bound) bytes.now) }
{
    let mut greatest = 0;
    for byte in bytes {
        greatest = greatest.max(*byte);
    }
    greatest < bound
}

// Whether each digit is below the base. If there are as many as usual, all are compared at once.
#[inline(always)]
fn are_digits(settings: &Settings, digits: &[u8]) -> bool
    ensures { OnTrue result (All (λ d. d < settings.now.base) digits.now) }
{
    if digits.len() == USUAL_DIGITS {
        return are_below(settings.base(), &digits[..USUAL_DIGITS]);
    }
    are_below(settings.base(), digits)
}

// The place of the first digit that isn't below the base, which needs no look if all are known to be.
#[inline(always)]
pub(crate) fn bad_digit_unless(
    are_digits: bool,
    settings: &Settings,
    digits: &[u8],
) -> Option<usize>
    requires { OnTrue are_digits (All (λ d. d < settings.now.base) digits.now) }
    ensures { result ≡ position (λ d. nat_le settings.now.base d) digits.now }
{
    if are_digits {
        return None;
    }
    bad_digit(settings, digits)
}

// The name of digits that are one. If there are as many as usual, one move copies them.
#[inline(always)]
pub(crate) fn name_of(settings: &Settings, digits: &[u8]) -> Name
    requires { IsName settings.now digits.now }
    ensures { result ≡ digits.now }
{
    // Its digits are few enough, and below the base, which is at most 16.
    let base = settings.base();
    prove!(base <= 16);
    if digits.len() == USUAL_DIGITS {
        return Name::of(&digits[..USUAL_DIGITS]);
    }
    Name::of(digits)
}

// Whether each digit of the two names from a place on is below the base.
#[inline(always)]
pub(crate) fn are_names(settings: &Settings, bytes: &[u8], start: usize) -> bool
    requires { start + 2 * settings.now.digits ≤ length bytes.now }
    ensures sender { OnTrue result (All (λ d. d < settings.now.base) (take settings.now.digits (drop start bytes.now))) }
    ensures receiver { OnTrue result (All (λ d. d < settings.now.base) (take settings.now.digits (drop (start + settings.now.digits) bytes.now))) }
{
    let digits = settings.digits() as usize;
    if digits == USUAL_DIGITS {
        // If they have as many digits as usual, all are compared at once.
        return are_below(settings.base(), &bytes[start..start + 2 * USUAL_DIGITS]);
    }
    are_below(settings.base(), &bytes[start..start + 2 * digits])
}

// A name, each of its digits below the base, which needs no look if all are known to be.
#[inline(always)]
pub(crate) fn name_unless(
    are_digits: bool,
    settings: &Settings,
    bytes: &[u8],
    place: usize,
) -> Result<Name, Broken>
    requires there { place + settings.now.digits ≤ length bytes.now }
    requires digits { OnTrue are_digits (All (λ d. d < settings.now.base) (take settings.now.digits (drop place bytes.now))) }
    ensures { result ≡ name_at settings.now place bytes.now }
{
    let digits = digits_at(settings, bytes, place);
    match bad_digit_unless(are_digits, settings, digits) {
        None => Ok(name_of(settings, digits)),
        Some(at) => Err(Broken { at: place + at }),
    }
}

// A name, each of its digits below the base.
pub(crate) fn name_at(settings: &Settings, bytes: &[u8], place: usize) -> Result<Name, Broken>
    requires { place + settings.now.digits ≤ length bytes.now }
    ensures { result ≡ name_at settings.now place bytes.now }
{
    let are_digits = are_digits(settings, digits_at(settings, bytes, place));
    name_unless(are_digits, settings, bytes, place)
}

// A flag that is 1 exactly if bytes follow it, and then a name.
pub(crate) fn optional_at(
    settings: &Settings,
    bytes: &[u8],
    place: usize,
) -> Result<Option<Name>, Broken>
    requires there { place + 1 ≤ length bytes.now }
    requires name { place + 1 < length bytes.now → place + 1 + settings.now.digits ≤ length bytes.now }
    ensures { result ≡ optional_at settings.now place bytes.now }
{
    let flag = bytes[place];
    if bytes.len() == place + 1 {
        if flag != 0 {
            return Err(Broken { at: place });
        }
        return Ok(None);
    }
    if flag != 1 {
        return Err(Broken { at: place });
    }
    Ok(Some(name_at(settings, bytes, place + 1)?))
}
