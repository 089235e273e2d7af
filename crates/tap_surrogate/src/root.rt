ghost use Rattle.std.specs.Prelude.{◌≡◌, ◌<◌, ◌↔◌, [], IsNone};
ghost use Rattle.std.specs.Bool.{OnTrue, OnFalse};
ghost use Rattle.tap_name.specs.Name.{IsName};
ghost use Rattle.tap_name.specs.Root.{AreNames, root};
ghost use Rattle.tap_surrogate.specs.Distance.{cyclic_distance, IsAsNear};

use tap_name::{List, Name, Settings};

/// The root of an object over a set of names: level by level those are kept whose digit is the
/// first one, cyclically from the object's, that any name left has; the root is the one that is
/// kept at all levels.
///
/// `None` exactly if the list is empty. One pass over the names, and no memory.
///
/// Rule: docs/PROTOCOL.md, "Roots".
pub fn root_of(names: &List<Name>, settings: &Settings, object: &Name) -> Option<Name>
    requires names { AreNames settings.now names.now }
    requires object { IsName settings.now object.now }
    ensures value { result ≡ root settings.now.base names.now object.now }
    ensures none { IsNone result ↔ (names.now ≡ []) }
{
    let (first, others) = names.as_slice().split_first()?;
    let mut nearest = first;
    for name in others {
        if is_nearer(settings, object, name, nearest) {
            nearest = name;
        }
    }
    Some(*nearest)
}

// Whether the digits of `a` come before those of `b`, cyclically from the object's, where they
// first differ.
fn is_nearer(settings: &Settings, object: &Name, a: &Name, b: &Name) -> bool
    requires object { IsName settings.now object.now }
    requires a { IsName settings.now a.now }
    requires b { IsName settings.now b.now }
    ensures nearer { OnTrue result (IsAsNear settings.now.base object.now a.now b.now) }
    ensures other { OnFalse result (IsAsNear settings.now.base object.now b.now a.now) }
{
    let base = settings.base();
    for level in 0..object.len() {
        let wanted = object.digit(level);
        let (first, second) = (a.digit(level), b.digit(level));
        if first != second {
            return steps_to(base, wanted, first) < steps_to(base, wanted, second);
        }
    }
    false
}

// How many steps lead from one digit to another, cyclically.
fn steps_to(base: u8, from: u8, to: u8) -> u8
    requires base { base < 17 }
    requires from { from < base }
    requires to { to < base }
    ensures { result ≡ cyclic_distance base from to }
{
    if from <= to {
        to - from
    } else {
        to + base - from
    }
}
