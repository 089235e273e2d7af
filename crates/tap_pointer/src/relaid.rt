ghost use Rattle.std.specs.Prelude.{◌≡◌, ◌≤◌, length, All, None, IfOk, OnOk, OnErr};
ghost use Rattle.std.specs.BTreeMap.{insert_entry, IsOrdered};
ghost use Rattle.tap_name.specs.Name.{IsName};
ghost use Rattle.tap_name.specs.Order.{name_cmp};
ghost use Rattle.tap_register.specs.Registers.{entry_of};
ghost use Rattle.tap_pointer.specs.Pair.{pair_cmp};
ghost use Rattle.tap_pointer.specs.Pointers.{change_between, state_among, with_lay};
ghost use Rattle.tap_pointer.specs.Reconcile.{relaid, wanted_hop};

use crate::change::Change;
use crate::hop::Hop;
use crate::laying::wanted_hop;
use crate::pair::Pair;
use crate::state::{PairState, Pointer};
use std::alloc::Global;
use std::collections::BTreeMap;
use tap_name::Name;
use tap_table::{NoMemory, Table};

// What a Lay did that was taken of a pair which is then laid as wanted: whether the pair was held or laid and is now, where it
// was laid on to, and where it is now.
#[derive(Clone, Copy)]
pub(crate) struct Relaid {
    pub(crate) change: Change,
    pub(crate) from: Option<Hop>,
    pub(crate) to: Option<Hop>,
}

// Takes a Lay of a pair, and lays the pair as wanted.
pub(crate) fn take_and_lay(
    pairs: &mut BTreeMap<Pair, PairState>,
    alloc: Global,
    table: &Table,
    pair: Pair,
    from: Name,
    version: u32,
    pointer: Pointer,
) -> Result<Relaid, NoMemory>
    requires object { IsName table.now.settings pair.object }
    requires levels { All (λ r. r.value.level ≤ length pair.object) (state_among pairs.old.entries pair).registers }
    requires level { pointer.level ≤ length pair.object }
    ensures change { IfOk result (λ r. r.change ≡ change_between (state_among pairs.old.entries pair)
        (relaid table.now pair (state_among pairs.old.entries pair) from version pointer)) }
    ensures from { IfOk result (λ r. r.from ≡ (state_among pairs.old.entries pair).laid) }
    ensures to { IfOk result (λ r. r.to
        ≡ wanted_hop table.now (pair, with_lay (state_among pairs.old.entries pair) from version pointer)) }
    ensures after { OnOk result (pairs.new.entries ≡ insert_entry pair_cmp pairs.old.entries pair
        (relaid table.now pair (state_among pairs.old.entries pair) from version pointer)) }
    ensures same { OnErr result (pairs.new.entries ≡ pairs.old.entries) }
    ensures new_sender { OnErr result (entry_of name_cmp (state_among pairs.old.entries pair).registers from ≡ None) }
    ensures ordered { IsOrdered pair_cmp pairs.old }
{
    if let Some(state) = pairs.get_mut(&pair) {
        return take(state, table, &pair, from, version, pointer);
    }
    let mut state = PairState::new(alloc);
    let relaid = take(&mut state, table, &pair, from, version, pointer)?;
    pairs.insert(pair, state)?;
    Ok(relaid)
}

// Takes a Lay of the pair of which this is known, and lays it as wanted.
fn take(
    state: &mut PairState,
    table: &Table,
    pair: &Pair,
    from: Name,
    version: u32,
    pointer: Pointer,
) -> Result<Relaid, NoMemory>
    requires object { IsName table.now.settings pair.now.object }
    requires levels { All (λ r. r.value.level ≤ length pair.now.object) state.old.registers }
    requires level { pointer.level ≤ length pair.now.object }
    ensures change { IfOk result (λ r. r.change ≡ change_between state.old (relaid table.now pair.now state.old from version pointer)) }
    ensures from { IfOk result (λ r. r.from ≡ state.old.laid) }
    ensures to { IfOk result (λ r. r.to ≡ wanted_hop table.now (pair.now, with_lay state.old from version pointer)) }
    ensures after { OnOk result (state.new ≡ relaid table.now pair.now state.old from version pointer) }
    ensures same { OnErr result (state.new ≡ state.old) }
    ensures new_sender { OnErr result (entry_of name_cmp state.old.registers from ≡ None) }
{
    let (_, taken) = state.take(from, version, pointer)?;
    let laid = state.laid;
    let wanted = wanted_hop(table, pair, &*state);
    let relaid = state.set_laid(&wanted);
    let change = Change {
        was: taken.was,
        is: relaid.is,
    };
    Ok(Relaid {
        change,
        from: laid,
        to: wanted,
    })
}
