ghost use Rattle.std.specs.Prelude.{◌≡◌, ◌+◌, ◌<◌, ◌^◌, List, ℕ, if◌then◌else◌, slice_get, Some, IfOk, IfSome, OnOk, OnErr};
ghost use Rattle.indexmap.specs.IndexMap.{Updates, index_of, keys};
ghost use Rattle.tap_carry.specs.Names.{is_name, number_of};

use crate::memory::NoMemory;
use indexmap::IndexMap;
use tap_name::Name;

// For the numbers of so many names room is made at first.
const NAMES_AT_FIRST: usize = 32;

/// The number of a name, and the place where it is kept.
#[derive(Clone, Copy)]
pub(crate) struct Kept {
    /// The place, or `None` exactly if no number is kept for the name.
    pub(crate) at: Option<usize>,
    /// The number, or 0.
    pub(crate) number: u32,
}

/// The number that is kept for a name, and where.
pub(crate) fn kept_in(numbers: &IndexMap<Name, u32>, name: &Name) -> Kept
    ensures at { result.at ≡ index_of is_name numbers.now name.now }
    ensures key { IfSome result.at (λ i. slice_get (keys numbers.now) i ≡ Some name.now) }
    ensures number { result.number ≡ number_of numbers.now.entries name.now }
{
    match numbers.get_full(name) {
        Some((at, _, number)) => Kept {
            at: Some(at),
            number: *number,
        },
        None => Kept {
            at: None,
            number: 0,
        },
    }
}

/// Keeps a number for a name, at its place if there is one. A refused call changes nothing.
pub(crate) fn keep(
    numbers: &mut IndexMap<Name, u32>,
    at: Option<usize>,
    name: Name,
    number: u32,
) -> Result<(), NoMemory>
    requires { IfSome at (λ i. slice_get (keys numbers.old) i ≡ Some name) }
    ensures updates { OnOk result (Updates is_name numbers.old numbers.new name (Some number)) }
    ensures err { OnErr result (numbers.new.entries ≡ numbers.old.entries) }
{
    match at {
        Some(at) => {
            let (_, kept) = numbers.pair_mut(at);
            *kept = number;
        }
        None => {
            make_first_room(numbers)?;
            let _ = numbers.insert(name, number)?;
        }
    }
    Ok(())
}

/// Gives a name the number after its last one, from 1.
pub(crate) fn next_number(numbers: &mut IndexMap<Name, u32>, name: Name) -> Result<u32, NoMemory>
    requires { number_of numbers.old.entries name + 1 < 2 ^ 32 }
    ensures number { IfOk result (λ number. number ≡ number_of numbers.old.entries name + 1) }
    ensures after { OnOk result ((x : List ℕ) →
        number_of numbers.new.entries x ≡
        (if is_name name x then number_of numbers.old.entries name + 1 else number_of numbers.old.entries x)) }
    ensures err { OnErr result (numbers.new.entries ≡ numbers.old.entries) }
{
    make_first_room(numbers)?;
    let last = numbers.entry(name)?.or_insert(0);
    *last += 1;
    Ok(*last)
}

// Makes room for some names at once, if none has a number yet.
fn make_first_room(numbers: &mut IndexMap<Name, u32>) -> Result<(), NoMemory>
    ensures { numbers.new.entries ≡ numbers.old.entries }
{
    if numbers.is_empty() {
        numbers.reserve(NAMES_AT_FIRST)?;
    }
    Ok(())
}
