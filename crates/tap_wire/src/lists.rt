ghost use Rattle.std.specs.Prelude.{◌≡◌, ◌+◌, ◌*◌, ◌-◌, ◌/◌, ◌≤◌, ◌<◌, ◌≢◌, length, take, drop, All, None, Ok, Err, IsOk, IfOk, OnOk, IfErr};
ghost use Rattle.std.specs.Bool.{OnTrue};
ghost use Rattle.std.specs.Option.{option_copied};
ghost use Rattle.std.specs.Ordering.{nat_cmp, is_lt};
ghost use Rattle.std.specs.Cmp.Lexicographic.{slice_cmp};
ghost use Rattle.tap_name.specs.Name.{IsName};
ghost use Rattle.tap_name.specs.declared.slot.Slot.{Slot};
ghost use Rattle.tap_name.specs.declared.slot.Offered.{Offered};
ghost use Rattle.tap_wire.specs.Fields.{watch_slot_at, slots_at, hello_link_at, hello_links_at, word_at, is_next_level, is_next_digit, is_next_name};
ghost use Rattle.tap_wire.specs.Layout.{slot_len, link_len};
ghost use Rattle.tap_wire.specs.Reading.{BodyGives};

use crate::bytes::Bytes;
use crate::fault::{BodyFault, Broken};
use crate::fields::{are_below, bad_digit_unless, digits_at, flag_at, name_of};
use crate::layout::{MOST_LETTERS, SLOT_LEN, link_len};
use std::alloc::Global;
use tap_name::{List, Offered, Settings, Slot, are_word_bytes};
use tap_watch::Watch;

// Whether a slot of this level may follow the one before.
fn is_next_level(prefix: u8, before: Option<Slot>, level: u8) -> bool
    ensures { result ≡ is_next_level prefix before level }
{
    match before {
        None => level <= prefix,
        Some(before) => level <= prefix && before.level <= level,
    }
}

// Whether a slot of this digit may follow the one before, if its level may.
fn is_next_digit(base: u8, before: Option<Slot>, level: u8, digit: u8) -> bool
    ensures { result ≡ is_next_digit base before level digit }
{
    match before {
        None => digit < base,
        Some(before) => digit < base && (level != before.level || before.digit < digit),
    }
}

// A slot that follows the one before.
fn watch_slot_at(
    settings: &Settings,
    bytes: &[u8],
    place: usize,
    prefix: u8,
    before: Option<Slot>,
) -> Result<Slot, Broken>
    requires { place + 2 ≤ length bytes.now }
    ensures { result ≡ watch_slot_at settings.now prefix before place bytes.now }
{
    let level = bytes[place];
    let digit = bytes[place + 1];
    if !is_next_level(prefix, before, level) {
        return Err(Broken { at: place });
    }
    if !is_next_digit(settings.base(), before, level, digit) {
        return Err(Broken { at: place + 1 });
    }
    Ok(Slot { level, digit })
}

// The first field of slots that breaks its rule, if one does: it is looked for if memory for the slots was refused.
fn check_slots(
    settings: &Settings,
    bytes: &[u8],
    start: usize,
    prefix: u8,
    count: usize,
) -> Result<(), Broken>
    requires { start + SLOT_LEN * count ≤ length bytes.now }
    ensures ok { OnOk result (IsOk (slots_at settings.now prefix count None start bytes.now)) }
    ensures err { IfErr result (λ broken. slots_at settings.now prefix count None start bytes.now ≡ Err broken) }
{
    let mut before = None;
    let mut place = start;
    for _ in 0..count {
        match watch_slot_at(settings, bytes, place, prefix, before) {
            Ok(slot) => before = Some(slot),
            Err(broken) => return Err(broken),
        }
        place += SLOT_LEN;
    }
    Ok(())
}

// The slots of a Tell, from a place to the end of the bytes.
pub(crate) fn watch_at(
    alloc: Global,
    settings: &Settings,
    bytes: &[u8],
    start: usize,
    prefix: u8,
) -> Result<Watch, BodyFault>
    requires { start ≤ length bytes.now }
    ensures { BodyGives result (slots_at settings.now prefix ((length bytes.now - start) / slot_len) None start bytes.now) }
{
    let count = (bytes.len() - start) / SLOT_LEN;
    let mut slots = match Vec::with_capacity(alloc, count) {
        Ok(slots) => slots,
        Err(refused) => {
            check_slots(settings, bytes, start, prefix, count)?;
            return Err(BodyFault::from(refused));
        }
    };
    let mut before = None;
    let mut place = start;
    for _ in 0..count {
        let slot = watch_slot_at(settings, bytes, place, prefix, before)?;
        slots.push_reserved(slot);
        before = Some(slot);
        place += SLOT_LEN;
    }
    Ok(Watch::from_vec(slots))
}

// Whether one name comes before another: by the first digit in which they differ, or else as the shorter one.
#[inline(always)]
fn is_before(one: &[u8], other: &[u8]) -> bool
    ensures { result ≡ is_lt (slice_cmp nat_cmp one.now other.now) }
{
    for at in 0..one.len().min(other.len()) {
        if one[at] != other[at] {
            return one[at] < other[at];
        }
    }
    one.len() < other.len()
}

// Whether a name with these digits may follow the name before.
#[inline(always)]
fn is_next_name(before: Option<&[u8]>, digits: &[u8]) -> bool
    ensures { result ≡ is_next_name (option_copied before.entry) digits.now }
{
    match before {
        None => true,
        Some(before) => is_before(before, digits),
    }
}

// Whether the link at a place, which follows the name before, is settled. Its name isn't made here, but its digits are
// found to be one. They may be known to be below the base.
#[inline(always)]
fn settled_at(
    settings: &Settings,
    bytes: &[u8],
    place: usize,
    before: Option<&[u8]>,
    are_digits: bool,
) -> Result<bool, Broken>
    requires there { place + settings.now.digits + 1 ≤ length bytes.now }
    requires digits { OnTrue are_digits (All (λ d. d < settings.now.base) (drop place bytes.now)) }
    ensures ok { IfOk result (λ settled. hello_link_at settings.now (option_copied before.entry) place bytes.now
        ≡ Ok (record { name = take settings.now.digits (drop place bytes.now); settled = settled })) }
    ensures name { OnOk result (IsName settings.now (take settings.now.digits (drop place bytes.now))) }
    ensures err { IfErr result (λ broken. hello_link_at settings.now (option_copied before.entry) place bytes.now ≡ Err broken) }
{
    let digits = digits_at(settings, bytes, place);
    if let Some(at) = bad_digit_unless(are_digits, settings, digits) {
        return Err(Broken { at: place + at });
    }
    if !is_next_name(before, digits) {
        return Err(Broken { at: place });
    }
    flag_at(bytes, place + settings.digits() as usize)
}

// The first field of links that breaks its rule, if one does: it is looked for if memory for the links was refused.
fn check_links(settings: &Settings, bytes: &[u8], start: usize, count: usize) -> Result<(), Broken>
    requires { start + link_len settings.now * count ≤ length bytes.now }
    ensures ok { OnOk result (IsOk (hello_links_at settings.now count None start bytes.now)) }
    ensures err { IfErr result (λ broken. hello_links_at settings.now count None start bytes.now ≡ Err broken) }
{
    let size = link_len(settings);
    let mut before = None;
    let mut place = start;
    for _ in 0..count {
        if let Err(broken) = settled_at(settings, bytes, place, before, false) {
            return Err(broken);
        }
        before = Some(digits_at(settings, bytes, place));
        place += size;
    }
    Ok(())
}

// The links of a Hello, from a place to the end of the bytes.
pub(crate) fn hello_links_at(
    alloc: Global,
    settings: &Settings,
    bytes: &[u8],
    start: usize,
) -> Result<List<Offered>, BodyFault>
    requires { start ≤ length bytes.now }
    ensures { BodyGives result (hello_links_at settings.now ((length bytes.now - start) / link_len settings.now) None start bytes.now) }
{
    let size = link_len(settings);
    let count = (bytes.len() - start) / size;
    let mut links = match Vec::with_capacity(alloc, count) {
        Ok(links) => links,
        Err(refused) => {
            check_links(settings, bytes, start, count)?;
            return Err(BodyFault::from(refused));
        }
    };
    // A flag is below the base too.
    let are_digits = are_below(settings.base(), &bytes[start..]);
    let mut before = None;
    let mut place = start;
    for _ in 0..count {
        let settled = settled_at(settings, bytes, place, before, are_digits)?;
        let digits = digits_at(settings, bytes, place);
        let name = name_of(settings, digits);
        links.push_reserved(Offered { name, settled });
        before = Some(digits);
        place += size;
    }
    Ok(List::from_vec(links))
}

// The word of a Cast, from a place to the end of the bytes. Its letters fit in place, so they want no memory.
pub(crate) fn word_at(alloc: Global, bytes: &[u8], start: usize) -> Result<Bytes, BodyFault>
    requires { start ≤ length bytes.now }
    ensures value { BodyGives result (word_at start bytes.now) }
    ensures letters { length bytes.now ≤ start + MOST_LETTERS → result ≢ Err BodyFault.NoMemory }
{
    let word = &bytes[start..];
    if !are_word_bytes(word) {
        return Err(BodyFault::Field(Broken { at: start }));
    }
    Ok(Bytes::copy_of(alloc, word)?)
}
