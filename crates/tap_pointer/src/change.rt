ghost use Rattle.std.specs.Prelude.{◌≡◌, ◌+◌, ◌≤◌, true, false, not, if◌then◌else◌, None, Some, IfOk, IfSome, IfNone, OnOk, OnErr};
ghost use Rattle.std.specs.BTreeMap.{insert_entry, is_at, IsOrdered};
ghost use Rattle.std.specs.Map.{lookup};
ghost use Rattle.tap_name.specs.Order.{name_cmp};
ghost use Rattle.tap_register.specs.Registers.{entry_of, is_newer};
ghost use Rattle.tap_pointer.specs.Pair.{pair_cmp};
ghost use Rattle.tap_pointer.specs.Pointers.{change_between, held_or_laid_count, state_among, with_lay, with_laid, with_published};

use crate::hop::Hop;
use crate::pair::Pair;
use crate::state::{PairState, Pointer};
use std::alloc::Global;
use std::collections::BTreeMap;
use tap_name::Name;
use tap_table::NoMemory;

// Whether a pair was held or laid before a change of what is known of it, and whether it is afterwards.
#[derive(Clone, Copy)]
pub(crate) struct Change {
    pub(crate) was: bool,
    pub(crate) is: bool,
}

impl Change {
    // How many pairs are held or laid after it. There were `before`, and there are at most `most` now.
    pub(crate) fn count_after(self, before: usize, most: usize) -> usize
        requires from { (if self.was then 1 else 0) ≤ before }
        requires to { before + (if self.is then 1 else 0) ≤ most + (if self.was then 1 else 0) }
        ensures { result + (if self.was then 1 else 0) ≡ before + (if self.is then 1 else 0) }
    {
        match (self.was, self.is) {
            (true, false) => before - 1,
            (false, true) => before + 1,
            _ => before,
        }
    }
}

// Publishes the object of a pair, and answers whether it wasn't published.
pub(crate) fn publish(
    pairs: &mut BTreeMap<Pair, PairState>,
    alloc: Global,
    own: Pair,
) -> Result<(bool, Change), NoMemory>
    ensures answer { IfOk result (λ r. r.0 ≡ not (state_among pairs.old.entries own).published) }
    ensures change { IfOk result (λ r. r.1
        ≡ change_between (state_among pairs.old.entries own) (with_published (state_among pairs.old.entries own) true)) }
    ensures after { OnOk result (pairs.new.entries
        ≡ insert_entry pair_cmp pairs.old.entries own (with_published (state_among pairs.old.entries own) true)) }
    ensures same { OnErr result (pairs.new.entries ≡ pairs.old.entries) }
    ensures unknown { OnErr result (lookup (is_at (pair_cmp own)) pairs.old.entries ≡ None) }
    ensures ordered { IsOrdered pair_cmp pairs.old }
{
    if let Some(state) = pairs.get_mut(&own) {
        let first = !state.published;
        return Ok((first, state.set_published(true)));
    }
    let mut state = PairState::new(alloc);
    let change = state.set_published(true);
    pairs.insert(own, state)?;
    Ok((true, change))
}

// Withdraws the object of a pair, and answers whether it was published; `None` if nothing is known of the pair.
pub(crate) fn withdraw(pairs: &mut BTreeMap<Pair, PairState>, own: &Pair) -> Option<(bool, Change)>
    ensures answer { IfSome result (λ r. r.0 ≡ (state_among pairs.old.entries own.now).published) }
    ensures change { IfSome result (λ r. r.1
        ≡ change_between (state_among pairs.old.entries own.now) (with_published (state_among pairs.old.entries own.now) false)) }
    ensures after { IfSome result (λ r. pairs.new.entries
        ≡ insert_entry pair_cmp pairs.old.entries own.now (with_published (state_among pairs.old.entries own.now) false)) }
    ensures present { IfSome result (λ r. lookup (is_at (pair_cmp own.now)) pairs.old.entries
        ≡ Some (state_among pairs.old.entries own.now)) }
    ensures absent { IfNone result (lookup (is_at (pair_cmp own.now)) pairs.old.entries ≡ None) }
    ensures same { IfNone result (pairs.new.entries ≡ pairs.old.entries) }
    ensures ordered { IsOrdered pair_cmp pairs.old }
{
    let state = pairs.get_mut(own)?;
    let published = state.published;
    Some((published, state.set_published(false)))
}

// Takes a Lay of a pair, and answers whether it was newer than what the sender's register has.
pub(crate) fn take(
    pairs: &mut BTreeMap<Pair, PairState>,
    alloc: Global,
    pair: Pair,
    from: Name,
    version: u32,
    pointer: Pointer,
) -> Result<(bool, Change), NoMemory>
    ensures answer { IfOk result (λ r. r.0 ≡ is_newer name_cmp (state_among pairs.old.entries pair).registers from version) }
    ensures change { IfOk result (λ r. r.1 ≡ change_between (state_among pairs.old.entries pair)
        (with_lay (state_among pairs.old.entries pair) from version pointer)) }
    ensures after { OnOk result (pairs.new.entries
        ≡ insert_entry pair_cmp pairs.old.entries pair (with_lay (state_among pairs.old.entries pair) from version pointer)) }
    ensures same { OnErr result (pairs.new.entries ≡ pairs.old.entries) }
    ensures new_sender { OnErr result (entry_of name_cmp (state_among pairs.old.entries pair).registers from ≡ None) }
    ensures ordered { IsOrdered pair_cmp pairs.old }
{
    if let Some(state) = pairs.get_mut(&pair) {
        return state.take(from, version, pointer);
    }
    let mut state = PairState::new(alloc);
    let taken = state.take(from, version, pointer)?;
    pairs.insert(pair, state)?;
    Ok(taken)
}

// Sets where a pair is laid on to; `None` if nothing is known of it.
pub(crate) fn lay(
    pairs: &mut BTreeMap<Pair, PairState>,
    pair: &Pair,
    laid: &Option<Hop>,
) -> Option<Change>
    ensures change { IfSome result (λ r. r
        ≡ change_between (state_among pairs.old.entries pair.now) (with_laid (state_among pairs.old.entries pair.now) laid.now)) }
    ensures after { IfSome result (λ r. pairs.new.entries
        ≡ insert_entry pair_cmp pairs.old.entries pair.now (with_laid (state_among pairs.old.entries pair.now) laid.now)) }
    ensures absent { IfNone result (lookup (is_at (pair_cmp pair.now)) pairs.old.entries ≡ None) }
    ensures same { IfNone result (pairs.new.entries ≡ pairs.old.entries) }
    ensures ordered { IsOrdered pair_cmp pairs.old }
{
    let state = pairs.get_mut(pair)?;
    Some(state.set_laid(laid))
}

// How many pairs are held or laid.
pub(crate) fn held_or_laid_count(pairs: &BTreeMap<Pair, PairState>) -> usize
    ensures { result ≡ held_or_laid_count pairs.now.entries }
{
    let mut count = 0;
    for (_, state) in pairs {
        if state.is_held_or_laid() {
            count += 1;
        }
    }
    count
}
