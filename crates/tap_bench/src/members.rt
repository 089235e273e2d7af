ghost use Rattle.std.specs.Prelude.{All, IfSome};
ghost use Rattle.tap_name.specs.Distinct.{AreDistinct};
ghost use Rattle.tap_name.specs.Name.{IsName};
ghost use Rattle.tap_bench.specs.Settings.{measured};

use std::alloc::Global;
use tap_name::{List, Name, Settings};
use tap_table::Ties;

/// How many members there are.
pub(crate) const MEMBERS: usize = 64;

// The digits of a number to base 16, the last one first.
fn digits_of(number: u64) -> [u8; 8] {
    let mut digits = [0; 8];
    let mut left = number;
    for digit in digits.iter_mut() {
        *digit = (left % 16) as u8;
        left /= 16;
    }
    digits
}

/// The members of an overlay: 64 names with base 16 and eight digits, which a linear congruential generator gives.
pub(crate) fn members(alloc: Global) -> Option<List<Name>>
    ensures names { IfSome result (All (IsName measured)) }
    ensures distinct { IfSome result AreDistinct }
{
    let settings = Settings::new(16, 8, 2)?;
    let mut members = List::new(alloc);
    let mut state = 1u64;
    for _turn in 0..MEMBERS {
        state = state
            .wrapping_mul(6364136223846793005)
            .wrapping_add(1442695040888963407);
        let digits = digits_of(state >> 32);
        let Ok(name) = Name::from_digits(&settings, &digits) else {
            return None;
        };
        if members.as_slice().contains(&name) {
            return None;
        }
        let Ok(()) = members.push(name) else {
            return None;
        };
    }
    Some(members)
}

/// Makes the ties of each member at rest over all of them, and says how many holders they have together.
pub(crate) fn holders_at_rest(alloc: Global, members: &List<Name>) -> Option<usize>
    requires names { All (IsName measured) members.now }
    requires distinct { AreDistinct members.now }
{
    let settings = Settings::new(16, 8, 2)?;
    let mut holders = 0usize;
    for owner in members.as_slice() {
        let ties = Ties::at_rest(alloc, *owner, &settings, members).ok()?;
        holders = holders.saturating_add(ties.holder_count());
    }
    Some(holders)
}
