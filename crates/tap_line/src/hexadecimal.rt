ghost use Rattle.std.specs.Prelude.{◌≡◌, ◌<◌, ◌≤◌, ◌*◌, ◌&&◌, length, map, Some, None, Err, IfOk};
ghost use Rattle.std.specs.List.{list_all};
ghost use Rattle.tap_line.specs.declared.fault.LineFault.TheVariants.{NoLine};
ghost use Rattle.tap_line.specs.Front.{bytes_of_hex};
ghost use Rattle.tap_line.specs.Hexadecimal.{is_digit, loose_value};

use crate::fault::LineFault;
use std::alloc::Global;
use tap_name::{put_joined, text_of_digit};
use tap_wire::Bytes;

// So many bytes have nearly all frames; they are put together without a list of their own.
const FEW_BYTES: usize = 56;

// The value of a digit; of any other byte, that of some digit. It is made by numbers alone, without a branch, since many are taken at once.
#[inline(always)]
fn value_of(byte: u8) -> u8
    ensures value { result ≡ loose_value byte }
    ensures small { result < 16 }
{
    (byte % 16 + 9 * u8::from(byte > 64)) % 16
}

// Whether both hold, without a branch.
#[inline(always)]
fn both(one: bool, other: bool) -> bool
    ensures { result ≡ (one && other) }
{
    one & other
}

// Takes each byte as if it were a digit, and tells whether all are digits.
#[inline(always)]
fn take_digits(text: &[u8], values: &mut [u8]) -> bool
    requires { length values.old ≡ length text.now }
    ensures all { result ≡ list_all is_digit text.now }
    ensures values { values.new ≡ map loose_value text.now }
{
    let mut good = true;
    for at in 0..text.len() {
        let value = value_of(text[at]);
        good = both(good, text_of_digit(value) == text[at]);
        values[at] = value;
    }
    good
}

// The bytes that an even number of digits spell, put together in these places.
#[inline(always)]
fn spelled(
    alloc: Global,
    text: &[u8],
    values: &mut [u8],
    places: &mut [u8],
) -> Result<Bytes, LineFault>
    requires values { length values.old ≡ length text.now }
    requires places { length text.now ≡ 2 * length places.old }
    ensures ok { IfOk result (λ bytes. bytes_of_hex text.now ≡ Some bytes) }
    ensures none { result ≡ Err NoLine → bytes_of_hex text.now ≡ None }
{
    if !take_digits(text, values) {
        return Err(LineFault::NoLine);
    }
    put_joined(values, places);
    Ok(Bytes::copy_of(alloc, places)?)
}

// The bytes that so few digits spell. All places are put together at once, and the first of them taken.
#[inline(never)]
fn few_bytes(alloc: Global, text: &[u8], count: usize) -> Result<Bytes, LineFault>
    requires len { length text.now ≡ 2 * count }
    requires few { count ≤ FEW_BYTES }
    ensures ok { IfOk result (λ bytes. bytes_of_hex text.now ≡ Some bytes) }
    ensures none { result ≡ Err NoLine → bytes_of_hex text.now ≡ None }
{
    let mut values = [0; 2 * FEW_BYTES];
    if !take_digits(text, &mut values[..text.len()]) {
        return Err(LineFault::NoLine);
    }
    let mut places = [0; FEW_BYTES];
    put_joined(&values, &mut places);
    Ok(Bytes::copy_of(alloc, &places[..count])?)
}

// The bytes that many digits spell.
#[inline(never)]
fn many_bytes(alloc: Global, text: &[u8], count: usize) -> Result<Bytes, LineFault>
    requires { length text.now ≡ 2 * count }
    ensures ok { IfOk result (λ bytes. bytes_of_hex text.now ≡ Some bytes) }
    ensures none { result ≡ Err NoLine → bytes_of_hex text.now ≡ None }
{
    let mut values = vec![in alloc; 0u8; text.len()]?;
    let mut places = vec![in alloc; 0u8; count]?;
    spelled(alloc, text, values.as_mut_slice(), places.as_mut_slice())
}

// The bytes that hexadecimal digits without capital letters spell.
pub(crate) fn bytes_of_hex(alloc: Global, text: &[u8]) -> Result<Bytes, LineFault>
    ensures ok { IfOk result (λ bytes. bytes_of_hex text.now ≡ Some bytes) }
    ensures none { result ≡ Err NoLine → bytes_of_hex text.now ≡ None }
{
    if text.len() % 2 == 1 {
        return Err(LineFault::NoLine);
    }
    let count = text.len() / 2;
    if count <= FEW_BYTES {
        few_bytes(alloc, text, count)
    } else {
        many_bytes(alloc, text, count)
    }
}
