ghost use Rattle.std.specs.Prelude.{◌≡◌, ◌+◌, ◌≤◌, true, false, [], ◌++◌, length, slice_index, All, Some, IsOk, OnOk};
ghost use Rattle.tap_name.specs.Name.{IsName};
ghost use Rattle.tap_register.specs.Stamp.{HasGivenAtMost};
ghost use Rattle.tap_pointer.specs.Pointers.{is_held_or_laid};
ghost use Rattle.tap_pointer.specs.Reconcile.{hop_of, is_held_to, laying_at, layings, lays_numbered, may_be_apart, passes, told_off, told_on, turns_off, wanted_hop};

use crate::hop::Hop;
use crate::lay::Lay;
use crate::pair::Pair;
use crate::state::PairState;
use tap_name::Name;
use tap_register::Stamp;
use tap_table::{Next, NoMemory, Table};

// What a Lay says, but for its number: that a pair is laid on to this hop, or not any more.
#[derive(Clone, Copy)]
pub(crate) struct Laying {
    pub(crate) pair: Pair,
    pub(crate) hop: Hop,
    pub(crate) on: bool,
}

// The hop of a next hop.
fn hop_of(next: Next) -> Option<Hop>
    ensures { result ≡ hop_of next }
{
    match next {
        Next::Root => None,
        Next::Hop { to, level } => Some(Hop { to, level }),
    }
}

// Where a pair is to be laid on to.
pub(crate) fn wanted_hop(table: &Table, pair: &Pair, state: &PairState) -> Option<Hop>
    requires name { is_held_or_laid state.now ≡ true → IsName table.now.settings pair.now.object }
    requires levels { All (λ r. r.value.level ≤ length pair.now.object) state.now.registers }
    ensures { result ≡ wanted_hop table.now (pair.now, state.now) }
{
    match state.level_held() {
        Some(level) => hop_of(table.next_hop(&pair.object, level as usize)),
        None => None,
    }
}

// Whether a pair that is laid so is laid where it is wanted.
#[inline(always)]
pub(crate) fn is_laid_so(laid: &Option<Hop>, wanted: &Option<Hop>) -> bool
    ensures { result ≡ true → laid.now ≡ wanted.now }
{
    laid == wanted
}

// Whether a pair may be laid elsewhere than wanted: if a level is given, its way passes this level.
pub(crate) fn may_be_apart(owner: &Name, level: Option<u8>, pair: &Pair, state: &PairState) -> bool
    ensures { result ≡ may_be_apart owner.now level (pair.now, state.now) }
{
    match level {
        Some(level) => passes(owner, level, pair, state),
        None => true,
    }
}

// Whether a pair is laid on to a hop that goes on from a level or a lower one.
fn turns_off(level: u8, laid: &Option<Hop>) -> bool
    ensures { result ≡ turns_off level laid.now }
{
    match laid {
        Some(hop) => hop.level <= level,
        None => false,
    }
}

// Whether a pair is held at a level or a lower one.
fn is_held_to(level: u8, held: Option<u8>) -> bool
    ensures { result ≡ is_held_to level held }
{
    match held {
        Some(held) => held <= level,
        None => false,
    }
}

// The digit at a place, and 0 past the last.
fn digit_or_zero(name: &Name, at: usize) -> u8
    ensures { result ≡ slice_index name.now at }
{
    if at < name.len() { name.digit(at) } else { 0 }
}

// Whether the way of a pair passes a level, and its object has another digit there than the owner.
fn passes(owner: &Name, level: u8, pair: &Pair, state: &PairState) -> bool
    ensures { result ≡ passes owner.now level (pair.now, state.now) }
{
    if turns_off(level, &state.laid) {
        return false;
    }
    let at = level as usize;
    if digit_or_zero(&pair.object, at) == digit_or_zero(owner, at) {
        return false;
    }
    is_held_to(level, state.level_held())
}

// The hop that is told off, if a pair is laid at one hop and wanted at another.
fn told_off(laid: &Option<Hop>, wanted: &Option<Hop>) -> Option<Hop>
    ensures { result ≡ told_off laid.now wanted.now }
{
    match (laid, wanted) {
        (Some(laid), Some(wanted)) => {
            if laid.to == wanted.to {
                None
            } else {
                Some(*laid)
            }
        }
        (Some(laid), None) => Some(*laid),
        (None, _) => None,
    }
}

// The hop that is told on.
fn told_on(laid: &Option<Hop>, wanted: &Option<Hop>) -> Option<Hop>
    ensures { result ≡ told_on laid.now wanted.now }
{
    match (laid, wanted) {
        (Some(laid), Some(wanted)) => { if laid == wanted { None } else { Some(*wanted) } }
        (None, Some(wanted)) => Some(*wanted),
        (_, None) => None,
    }
}

// Adds the Lays that a pair takes to be laid as wanted, with the next numbers of the stamp.
pub(crate) fn push_layings(
    lays: &mut Vec<Lay>,
    stamp: &mut Stamp,
    pair: &Pair,
    laid: &Option<Hop>,
    wanted: &Option<Hop>,
) -> Result<(), NoMemory>
    requires { stamp.old + length (layings pair.now laid.now wanted.now) ≤ u32.MAX }
    ensures added { OnOk result (lays.new.items ≡ lays.old.items ++ lays_numbered stamp.old (layings pair.now laid.now wanted.now)) }
    ensures stamped { OnOk result (stamp.new ≡ stamp.old + length (layings pair.now laid.now wanted.now)) }
    ensures given { HasGivenAtMost (length (layings pair.now laid.now wanted.now)) stamp.old stamp.new }
    ensures none { layings pair.now laid.now wanted.now ≡ [] → IsOk result }
{
    push_laying(lays, stamp, pair, told_off(laid, wanted), false)?;
    push_laying(lays, stamp, pair, told_on(laid, wanted), true)
}

// Adds the Lay for a hop, if there is one.
fn push_laying(
    lays: &mut Vec<Lay>,
    stamp: &mut Stamp,
    pair: &Pair,
    hop: Option<Hop>,
    on: bool,
) -> Result<(), NoMemory>
    requires { stamp.old + length (laying_at pair.now on hop) ≤ u32.MAX }
    ensures added { OnOk result (lays.new.items ≡ lays.old.items ++ lays_numbered stamp.old (laying_at pair.now on hop)) }
    ensures stamped { OnOk result (stamp.new ≡ stamp.old + length (laying_at pair.now on hop)) }
    ensures given { HasGivenAtMost (length (laying_at pair.now on hop)) stamp.old stamp.new }
    ensures none { laying_at pair.now on hop ≡ [] → IsOk result }
{
    let Some(hop) = hop else {
        return Ok(());
    };
    lays.push(Lay {
        to: hop.to,
        object: pair.object,
        server: pair.server,
        level: hop.level,
        version: stamp.next(),
        on,
    })?;
    Ok(())
}
