ghost use Rattle.std.specs.Prelude.{◌≢◌};
ghost use Rattle.tap_name.specs.Name.{IsName};

use crate::names::{name_of, settings_of};
use std::alloc::Global;
use std::process::Abort;
use tap_cast::{CastTarget, CastTurn, Casts};
use tap_name::Name;
use tap_table::Table;

// The name of a text, which isn't the owner's.
fn other(rt: &impl Abort, table: &Table, text: &str) -> Name
    ensures name { IsName table.now.settings result }
    ensures other { result ≢ table.now.owner }
{
    let name = name_of(rt, &table.settings(), text);
    assert!(rt; name != table.owner());
    name
}

// The table of 000, which has a settled link to 100 and a pin on 010.
fn table_of(rt: &impl Abort, alloc: Global) -> Table {
    let settings = settings_of(rt, 4, 3, 2);
    let owner = name_of(rt, &settings, "000");
    let mut table = Table::new(alloc, owner, &settings).expect(rt, "memory");
    let far = other(rt, &table, "100");
    assert!(rt; table.offer(far).expect(rt, "memory"));
    let near = other(rt, &table, "010");
    assert!(rt; table.pin(near).expect(rt, "memory"));
    table
}

// A copy of cast 7 comes at a level: whether it is the first one, and the first node to which it is sent on; `None` if it was
// cast already.
fn cast(
    rt: &impl Abort,
    casts: &mut Casts,
    level: u8,
    table: &Table,
) -> Option<(bool, Option<CastTarget>)> {
    assert!(rt; level <= table.settings().digits());
    match casts.cast(7, level, table).expect(rt, "memory") {
        CastTurn::Already => None,
        CastTurn::Now { first, targets } => Some((first, targets.as_slice().first().copied())),
    }
}

#[test]
fn a_cast_goes_on_over_the_levels_that_are_left(rt: HostRuntime) {
    let table = table_of(&rt, rt.alloc());
    let mut casts = Casts::new(rt.alloc());
    let pinned = CastTarget {
        to: other(&rt, &table, "010"),
        level: 2,
    };
    let primary = CastTarget {
        to: other(&rt, &table, "100"),
        level: 1,
    };
    assert!(rt; cast(&rt, &mut casts, 1, &table) == Some((true, Some(pinned))));
    assert!(rt; cast(&rt, &mut casts, 0, &table) == Some((false, Some(primary))));
    assert!(rt; casts.level_of(7) == Some(0));
    assert!(rt; cast(&rt, &mut casts, 1, &table) == None);
}
