ghost use Rattle.std.specs.Prelude.{◌≡◌, ◌≤◌, true, length, All, Option, IfSome};
ghost use Rattle.tap_name.specs.Name.{IsName};
ghost use Rattle.tap_table.specs.Table.{TableValue};
ghost use Rattle.tap_pointer.specs.Pointers.{is_held_or_laid};
ghost use Rattle.tap_pointer.specs.Reconcile.{IsWay, TurnsTo, wanted_hop};

use crate::hop::Hop;
use crate::laying::wanted_hop;
use crate::pair::Pair;
use crate::state::PairState;
use tap_table::Table;

// Where objects turn off: those that are held at a level and have a digit there.
#[derive(Clone, Copy)]
pub(crate) struct Turn {
    pub(crate) level: u8,
    pub(crate) digit: u8,
}

// Where a pair is wanted, and if other pairs are known to be wanted there too, where they turn off.
#[derive(Clone, Copy)]
pub(crate) struct Way {
    pub(crate) turn: Option<Turn>,
    pub(crate) hop: Option<Hop>,
}

// Goes the way of a pair: the pair is looked up if the way isn't the pair's already.
pub(crate) fn follow(way: &mut Way, table: &Table, pair: &Pair, state: &PairState)
    requires name { is_held_or_laid state.now ≡ true → IsName table.now.settings pair.now.object }
    requires levels { All (λ r. r.value.level ≤ length pair.now.object) state.now.registers }
    requires way { IsWay table.now way.old }
    ensures wanted { way.new.hop ≡ wanted_hop table.now (pair.now, state.now) }
    ensures way { IsWay table.now way.new }
{
    if goes(&*way, pair, state) {
        return;
    }
    let hop = wanted_hop(table, pair, state);
    *way = Way {
        turn: turn_of(pair, state, &hop),
        hop,
    };
}

// Where the objects turn off that are wanted at the same hop as a pair: this is known if it goes on at the next level.
fn turn_of(pair: &Pair, state: &PairState, wanted: &Option<Hop>) -> Option<Turn>
    ensures { (t : TableValue) → wanted.now ≡ wanted_hop t (pair.now, state.now) → IfSome result (TurnsTo t wanted.now) }
{
    let level = state.level_held()?;
    let hop = (*wanted)?;
    let at = level as usize;
    if at >= pair.object.len() {
        return None;
    }
    if hop.level as usize != at + 1 {
        return None;
    }
    Some(Turn {
        level,
        digit: pair.object.digit(at),
    })
}

// Whether a way is known to be that of a pair.
fn goes(way: &Way, pair: &Pair, state: &PairState) -> bool
    ensures { (t : TableValue) → IsWay t way.now → result ≡ true → way.now.hop ≡ wanted_hop t (pair.now, state.now) }
{
    match &way.turn {
        Some(turn) => turns_at(turn, pair, state),
        None => false,
    }
}

// Whether a pair is held at the level of a turn, and its object has the digit there.
fn turns_at(turn: &Turn, pair: &Pair, state: &PairState) -> bool
    ensures { (t : TableValue) (hop : Option Hop) → TurnsTo t hop turn.now → result ≡ true → hop ≡ wanted_hop t (pair.now, state.now) }
{
    let at = turn.level as usize;
    if at >= pair.object.len() {
        return false;
    }
    if pair.object.digit(at) != turn.digit {
        return false;
    }
    state.level_held() == Some(turn.level)
}
