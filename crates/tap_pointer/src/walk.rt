ghost use Rattle.std.specs.Prelude.{◌≡◌, ◌+◌, ◌*◌, ◌<◌, ◌≤◌, true, false, List, [], length, map, drop, slice_get, All, IsOk, IfOk};
ghost use Rattle.tap_name.specs.Name.{IsName};
ghost use Rattle.tap_register.specs.Stamp.{HasGivenAtMost};
ghost use Rattle.tap_pointer.specs.declared.pair.Pair.{Pair};
ghost use Rattle.tap_pointer.specs.declared.state.PairState.{PairState};
ghost use Rattle.tap_pointer.specs.Due.{pair_of_lay};
ghost use Rattle.tap_pointer.specs.Pointers.{held_among, is_held_or_laid, is_of, pair_of, held_or_laid_count, server_among, with_published};
ghost use Rattle.tap_pointer.specs.Reconcile.{AreLaidUnlessApart, hop_told, laid_by, laid_by_all, layings_to_none, layings_to_wanted, lays_numbered};

use crate::hop::Hop;
use crate::lay::Lay;
use crate::laying::{is_laid_so, may_be_apart, push_layings};
use crate::pair::Pair;
use crate::state::PairState;
use crate::way::{Way, follow};
use std::alloc::Global;
use std::collections::BTreeMap;
use tap_name::Name;
use tap_register::Stamp;
use tap_table::{NoMemory, Table};

// The Lays that it takes to have all pairs laid as wanted. Of those that may be laid elsewhere, one that goes the way of the pair
// looked up before isn't looked up itself. Mostly there are no Lays, and then it takes no memory.
pub(crate) fn lays_to_wanted(
    alloc: Global,
    pairs: &BTreeMap<Pair, PairState>,
    table: &Table,
    stamp: &mut Stamp,
    level: Option<u8>,
) -> Result<Vec<Lay>, NoMemory>
    requires names { All (λ e. is_held_or_laid e.1 ≡ true → IsName table.now.settings e.0.object) pairs.now.entries }
    requires levels { All (λ e. All (λ r. r.value.level ≤ length e.0.object) e.1.registers) pairs.now.entries }
    requires others { AreLaidUnlessApart table.now level pairs.now.entries }
    requires numbers { stamp.old + 2 * held_or_laid_count pairs.now.entries ≤ u32.MAX }
    ensures value { IfOk result (λ lays. lays.items ≡ lays_numbered stamp.old (layings_to_wanted table.now pairs.now.entries)) }
    ensures stamped { IfOk result (λ lays. stamp.new ≡ stamp.old + length lays.items) }
    ensures given { HasGivenAtMost (length (layings_to_wanted table.now pairs.now.entries)) stamp.old stamp.new }
    ensures none { layings_to_wanted table.now pairs.now.entries ≡ [] → IsOk result }
{
    let mut lays = Vec::new(alloc);
    let mut way = Way {
        turn: None,
        hop: None,
    };
    let owner = table.owner();
    for (pair, state) in pairs {
        if !may_be_apart(&owner, level, pair, state) {
            continue;
        }
        follow(&mut way, table, pair, state);
        if is_laid_so(&state.laid, &way.hop) {
            continue;
        }
        push_layings(&mut lays, stamp, pair, &state.laid, &way.hop)?;
    }
    Ok(lays)
}

// Lays the pairs of these Lays as these tell, in their order, and gives how many pairs are held or laid then. There were `count`.
pub(crate) fn lay_as_told(
    pairs: &mut BTreeMap<Pair, PairState>,
    lays: &[Lay],
    count: usize,
) -> usize
    requires { count ≡ held_or_laid_count pairs.old.entries }
    ensures after { pairs.new.entries ≡ laid_by_all pairs.old.entries lays.now }
    ensures count { result ≡ held_or_laid_count pairs.new.entries }
{
    let mut count = count;
    for (at, told) in lays.iter().enumerate() {
        if is_told_again(lays, at) {
            continue;
        }
        count = lay_by(pairs, told, count);
    }
    count
}

// Whether the Lay after the one at a place is of the same pair: then the first of both needn't be done.
fn is_told_again(lays: &[Lay], at: usize) -> bool
    requires { at < length lays.now }
    ensures { result ≡ true → (pairs : List (Pair × PairState))
        → laid_by_all pairs (drop at lays.now) ≡ laid_by_all pairs (drop (at + 1) lays.now) }
{
    match lays.get(at + 1) {
        Some(next) => is_of_one_pair(&lays[at], next),
        None => false,
    }
}

// Whether two Lays are of one pair.
fn is_of_one_pair(one: &Lay, other: &Lay) -> bool
    ensures { result ≡ true → pair_of_lay one.now ≡ pair_of_lay other.now }
{
    if one.object != other.object {
        return false;
    }
    one.server == other.server
}

// Lays the pair of a Lay as this tells, if the pair is known, and gives how many pairs are held or laid then.
fn lay_by(pairs: &mut BTreeMap<Pair, PairState>, told: &Lay, count: usize) -> usize
    requires { count ≡ held_or_laid_count pairs.old.entries }
    ensures after { pairs.new.entries ≡ laid_by pairs.old.entries told.now }
    ensures count { result ≡ held_or_laid_count pairs.new.entries }
{
    let pair = Pair {
        object: told.object,
        server: told.server,
    };
    let Some(state) = pairs.get_mut(&pair) else {
        return count;
    };
    let change = state.set_laid(&hop_told(told));
    change.count_after(count, pairs.len())
}

// Where a Lay tells that its pair is laid.
fn hop_told(told: &Lay) -> Option<Hop>
    ensures { result ≡ hop_told told.now }
{
    if !told.on {
        return None;
    }
    Some(Hop {
        to: told.to,
        level: told.level,
    })
}

// The Lays that it takes to have all pairs laid nowhere.
pub(crate) fn lays_to_none(
    alloc: Global,
    pairs: &BTreeMap<Pair, PairState>,
    stamp: &mut Stamp,
) -> Result<Vec<Lay>, NoMemory>
    requires numbers { stamp.old + held_or_laid_count pairs.now.entries ≤ u32.MAX }
    ensures value { IfOk result (λ lays. lays.items ≡ lays_numbered stamp.old (layings_to_none pairs.now.entries)) }
    ensures stamped { IfOk result (λ lays. stamp.new ≡ stamp.old + length lays.items) }
    ensures given { HasGivenAtMost (length (layings_to_none pairs.now.entries)) stamp.old stamp.new }
{
    let mut lays = Vec::new(alloc);
    for (pair, state) in pairs {
        push_layings(&mut lays, stamp, pair, &state.laid, &None)?;
    }
    Ok(lays)
}

// Withdraws every object.
pub(crate) fn withdraw_all(pairs: &mut BTreeMap<Pair, PairState>)
    ensures { pairs.new.entries ≡ map (λ e. (e.0, with_published e.1 false)) pairs.old.entries }
{
    pairs.retain(|_, state| {
        state.published = false;
        true
    });
}

// The least server held for an object. It looks at the pairs of this object alone, which begin where that of the empty
// name would stand.
pub(crate) fn server_for(pairs: &BTreeMap<Pair, PairState>, object: &Name) -> Option<Name>
    ensures { result ≡ server_among pairs.now.entries object.now }
{
    let first = first_of(object);
    for (pair, state) in pairs.range(first..) {
        if !is_of(pair, object) {
            return None;
        }
        if state.is_held() {
            return Some(pair.server);
        }
    }
    None
}

// Where the pairs of an object begin: at that of the empty name, which no server is below.
fn first_of(object: &Name) -> Pair
    ensures { result ≡ pair_of object.now [] }
{
    Pair {
        object: *object,
        server: Name::of(&[]),
    }
}

// Whether a pair is one of an object.
fn is_of(pair: &Pair, object: &Name) -> bool
    ensures { result ≡ is_of object.now pair.now }
{
    pair.object == *object
}

// How many pairs are held.
pub(crate) fn held_count(pairs: &BTreeMap<Pair, PairState>) -> usize
    ensures { result ≡ length (held_among pairs.now.entries) }
{
    let mut count = 0;
    for (_, state) in pairs {
        if state.is_held() {
            count += 1;
        }
    }
    count
}

// A pair that is held, by its place among these.
pub(crate) fn held_at(pairs: &BTreeMap<Pair, PairState>, i: usize) -> Option<Pair>
    ensures { result ≡ slice_get (held_among pairs.now.entries) i }
{
    let mut left = i;
    for (pair, state) in pairs {
        if state.is_held() {
            if left == 0 {
                return Some(*pair);
            }
            left -= 1;
        }
    }
    None
}
