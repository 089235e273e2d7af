ghost use Rattle.std.specs.Prelude.{◌≡◌, ◌<◌, ◌≤◌, ◌*◌, All, length, map, Ok, IfOk, IfSome, option_map};
ghost use Rattle.std.specs.Bool.{OnTrue};
ghost use Rattle.hex.specs.Hex.{decode_of};
ghost use Rattle.tap_name.specs.Digits.{digit_of_text, text_of_digit};
ghost use Rattle.tap_name.specs.Packed.{joined};
ghost use Rattle.tap_host_line.specs.Line.{frame_of_word};

use crate::memory::NoMemory;
use crate::room::FEW_BYTES;
use hex::FromHexError;
use std::alloc::Global;
use std::mem;
use tap_name::{put_joined, text_of_digit};

// So many digits are read at once, and so many bytes put.
const AT_ONCE: usize = 32;

// The value of a byte if it is a digit that is no capital letter. It is made by numbers alone, without a branch, since many are made at once.
#[inline(always)]
fn value_of(byte: u8) -> u8
    ensures value { text_of_digit result ≡ byte → result ≡ digit_of_text byte }
    ensures small { result < 16 }
{
    (byte % 16 + 9 * u8::from(byte > b'9')) % 16
}

// Takes the values of digits, and answers whether each byte is one. Capital letters are none. Each value is printed again, and the greatest
// difference from its byte looked at in the end.
#[inline(always)]
fn take_digits(text: &[u8], values: &mut [u8]) -> bool
    requires { length values.old ≡ length text.now }
    ensures all { OnTrue result (All (λ value. value < 16) values.new) }
    ensures values { OnTrue result (values.new ≡ map digit_of_text text.now) }
{
    let mut worst = 0;
    for at in 0..text.len() {
        let value = value_of(text[at]);
        worst = worst.max(text_of_digit(value).wrapping_sub(text[at]));
        values[at] = value;
    }
    worst == 0
}

// Takes the values of digits, and answers whether each byte is one. The last of them are taken together, with some that were taken before, so
// that none is taken by itself unless all are few.
#[inline(always)]
fn take_all_digits(text: &[u8], values: &mut [u8]) -> bool
    requires { length values.old ≡ length text.now }
    ensures all { OnTrue result (All (λ value. value < 16) values.new) }
    ensures values { OnTrue result (values.new ≡ map digit_of_text text.now) }
{
    if text.len() < AT_ONCE {
        return take_digits(text, values);
    }
    let whole = text.len() / AT_ONCE * AT_ONCE;
    let last = text.len() - AT_ONCE;
    let are_first = take_digits(&text[..whole], &mut values[..whole]);
    let are_last = take_digits(&text[last..], &mut values[last..]);
    are_first && are_last
}

// Puts the bytes of digits into places, block by block; the places are a whole number of blocks.
#[inline(always)]
fn put_blocks(values: &[u8], places: &mut [u8], blocks: usize)
    requires places { length places.old ≡ AT_ONCE * blocks }
    requires values { length values.now ≡ 2 * length places.old }
    requires digits { All (λ value. value < 16) values.now }
    ensures value { places.new ≡ joined values.now }
    ensures len { length places.new ≡ AT_ONCE * blocks }
{
    for block in 0..blocks {
        let start = AT_ONCE * block;
        put_joined(
            &values[2 * start..2 * start + 2 * AT_ONCE],
            &mut places[start..start + AT_ONCE],
        );
    }
}

// Puts the bytes that so few digits spell into a list. The answer is yes only if all are digits, none a capital letter. All places of the last
// block are put together; those that aren't wanted are dropped.
fn put_few(text: &[u8], count: usize, bytes: &mut Vec<u8>) -> Result<bool, NoMemory>
    requires len { length text.now ≡ 2 * count }
    requires few { count ≤ FEW_BYTES }
    ensures { IfOk result (λ are_digits. OnTrue are_digits (decode_of text.now ≡ Ok bytes.new.items)) }
{
    let mut values = [0; 2 * FEW_BYTES];
    if !take_all_digits(text, &mut values[..text.len()]) {
        return Ok(false);
    }
    let blocks = (count + AT_ONCE - 1) / AT_ONCE;
    bytes.resize(AT_ONCE * blocks, 0)?;
    put_blocks(
        &values[..2 * AT_ONCE * blocks],
        bytes.as_mut_slice(),
        blocks,
    );
    bytes.truncate(count);
    Ok(true)
}

// Puts the bytes that digits spell, and answers whether all are digits, none a capital letter.
fn put_spelled(text: &[u8], values: &mut [u8], places: &mut [u8]) -> bool
    requires values { length values.old ≡ length text.now }
    requires places { length text.now ≡ 2 * length places.old }
    ensures { OnTrue result (decode_of text.now ≡ Ok places.new) }
{
    if !take_digits(text, values) {
        return false;
    }
    put_joined(values, places);
    true
}

// The bytes that many digits spell, if none is a capital letter.
fn many_bytes(alloc: Global, text: &[u8], count: usize) -> Result<Option<Vec<u8>>, NoMemory>
    requires { length text.now ≡ 2 * count }
    ensures { IfOk result (λ bytes. IfSome bytes (λ found. decode_of text.now ≡ Ok found.items)) }
{
    let mut values = vec![in alloc; 0u8; text.len()]?;
    let mut places = vec![in alloc; 0u8; count]?;
    if put_spelled(text, values.as_mut_slice(), places.as_mut_slice()) {
        Ok(Some(places))
    } else {
        Ok(None)
    }
}

// The bytes that digits spell, if they are an even number of digits without capital letters. Few of them are put into the spare list.
fn usual_bytes(alloc: Global, spare: &mut Vec<u8>, text: &[u8]) -> Result<Option<Vec<u8>>, NoMemory>
    ensures { IfOk result (λ bytes. IfSome bytes (λ found. decode_of text.now ≡ Ok found.items)) }
{
    if text.len() % 2 != 0 {
        return Ok(None);
    }
    let count = text.len() / 2;
    if count > FEW_BYTES {
        return many_bytes(alloc, text, count);
    }
    if put_few(text, count, spare)? {
        Ok(Some(mem::replace(spare, Vec::new(alloc))))
    } else {
        Ok(None)
    }
}

// The bytes that a word of hexadecimal digits spells, if it is one. Those with capital letters are few, and take longer. The spare list may be
// taken for them.
pub(crate) fn bytes_of_hex(
    alloc: Global,
    spare: &mut Vec<u8>,
    word: &[u8],
) -> Result<Option<Vec<u8>>, NoMemory>
    ensures { IfOk result (λ bytes. option_map (λ found. found.items) bytes ≡ frame_of_word word.now) }
{
    if let Some(bytes) = usual_bytes(alloc, spare, word)? {
        return Ok(Some(bytes));
    }
    match hex::decode(alloc, word) {
        Ok(bytes) => Ok(Some(bytes)),
        Err(FromHexError::OutOfMemory) => Err(NoMemory),
        Err(_) => Ok(None),
    }
}
