ghost use Rattle.std.specs.Prelude.{◌≡◌, ◌++◌, ◌∷◌, [], nat_eq, All, find, option_copied};
ghost use Rattle.std.specs.Option.{is_some};
ghost use Rattle.std.specs.Cmp.Lexicographic.{pointwise};
ghost use Rattle.tap_name.specs.Name.{IsName};
ghost use Rattle.tap_name.specs.Distinct.{AreDistinct};

use crate::names::{name_of, settings_of};
use std::alloc::Global;
use std::process::Abort;
use tap_name::{List, Name, Settings};
use tap_surrogate::{Step1, Tables, Walk, members_law, root_of, walk_law, walk_path};
use tap_table::{Table, Ties};

// Core nodes, each with its table. There are no others.
#[derive(Drop)]
struct Overlay<'a> {
    settings: Settings,
    tables: Vec<&'a Table>,
    ghost common: { All (λ t. t.now.settings ≡ settings) tables.items },
}

impl<'a> Tables for Overlay<'a> {
    ghost parameters = { λ o. o.settings };

    ghost nodes = { λ o. record {
      table_of = λ name. option_copied (find (λ t. pointwise nat_eq t.now.owner name) o.tables.items);
      core = λ name. is_some (find (λ t. pointwise nat_eq t.now.owner name) o.tables.items);
    } };

    fn settings(&self) -> Settings {
        self.settings
    }

    fn table_of(&self, name: Name) -> Option<&Table> {
        for table in self.tables.as_slice() {
            if table.owner() == name {
                return Some(*table);
            }
        }
        None
    }

    fn is_core(&self, name: Name) -> bool {
        self.table_of(name).is_some()
    }
}

// Adds a name.
fn push(rt: &impl Abort, names: &mut List<Name>, name: Name)
    ensures { names.new ≡ names.old ++ name ∷ [] }
{
    names.push(name).expect(rt, "memory");
}

// The names of some texts, which are parted by blanks. No two are one.
fn names_of(rt: &impl Abort, alloc: Global, settings: &Settings, texts: &str) -> List<Name>
    ensures names { All (IsName settings.now) result }
    ensures distinct { AreDistinct result }
{
    let mut names = List::new(alloc);
    for text in texts.split(' ') {
        let name = name_of(rt, settings, text);
        assert!(rt; !names.as_slice().contains(&name));
        push(rt, &mut names, name);
    }
    names
}

// The ties of each member at rest.
fn at_rest(rt: &impl Abort, alloc: Global, settings: &Settings, members: &List<Name>) -> Vec<Ties>
    requires names { All (IsName settings.now) members.now }
    requires distinct { AreDistinct members.now }
{
    let mut all = Vec::new(alloc);
    for owner in members.as_slice() {
        let ties = Ties::at_rest(alloc, *owner, settings, members).expect(rt, "memory");
        all.push(ties).expect(rt, "memory");
    }
    all
}

// Adds a core node with its table.
fn add<'a>(rt: &impl Abort, overlay: &mut Overlay<'a>, table: &'a Table)
    ensures { overlay.new.settings ≡ overlay.old.settings }
{
    assert!(rt; table.settings() == overlay.settings);
    overlay.tables.push(table).expect(rt, "memory");
}

// The overlay of members with these ties.
fn overlay_of<'a>(
    rt: &impl Abort,
    alloc: Global,
    settings: Settings,
    all: &'a [Ties],
) -> Overlay<'a>
    ensures { result.settings ≡ settings }
{
    let tables = Vec::new(alloc);
    let mut overlay = Overlay { settings, tables };
    for ties in all {
        add(rt, &mut overlay, ties.table());
    }
    overlay
}

// The first node of a path.
fn start_of(rt: &impl Abort, path: &List<Name>) -> Name {
    *path.as_slice().first().expect(rt, "a path")
}

// Compares the path of a walk from a core node with the one that it is to be.
fn check_path(rt: &impl Abort, alloc: Global, overlay: &Overlay, object: Name, path: &List<Name>)
    requires { IsName overlay.now.settings object }
{
    let from = start_of(rt, path);
    assert!(rt; overlay.is_core(from));
    let found = walk_path(alloc, overlay, from, object).expect(rt, "memory");
    assert!(rt; found.as_slice() == path.as_slice());
}

// Compares each step of the walk with the path: a hop to each further node, and then the root,
// which is said again when it is asked again.
fn check_steps(rt: &impl Abort, overlay: &Overlay, object: Name, path: &List<Name>)
    requires { IsName overlay.now.settings object }
{
    let from = start_of(rt, path);
    assert!(rt; overlay.is_core(from));
    let mut walk = Walk::new(from, object);
    for place in 1..path.len() {
        let to = path.at(place);
        assert!(rt; walk.next(overlay) == Step1::Hop(to));
        assert!(rt; walk.node() == to);
    }
    let root = walk.node();
    assert!(rt; walk.next(overlay) == Step1::Root(root));
    assert!(rt; walk.next(overlay) == Step1::Root(root));
}

// A walk over members at rest, with the nodes that it passes. Names are parted by blanks.
struct Case {
    base: u8,
    digits: u8,
    members: &'static str,
    object: &'static str,
    path: &'static str,
}

const CASES: [Case; 9] = [
    Case {
        base: 4,
        digits: 3,
        members: "301 000 230 012 233",
        object: "123",
        path: "000 230 233",
    },
    Case {
        base: 4,
        digits: 3,
        members: "012 000",
        object: "333",
        path: "012 000",
    },
    Case {
        base: 4,
        digits: 3,
        members: "000 012 120 230 233 301",
        object: "123",
        path: "301 120",
    },
    Case {
        base: 4,
        digits: 3,
        members: "000 012 120 230 233 301",
        object: "331",
        path: "012 301",
    },
    Case {
        base: 4,
        digits: 3,
        members: "000 012 120 230 233 301",
        object: "231",
        path: "120 230 233",
    },
    Case {
        base: 16,
        digits: 4,
        members: "beef",
        object: "0000",
        path: "beef",
    },
    Case {
        base: 2,
        digits: 1,
        members: "0 1",
        object: "1",
        path: "0 1",
    },
    Case {
        base: 2,
        digits: 1,
        members: "0 1",
        object: "0",
        path: "0",
    },
    Case {
        base: 16,
        digits: 8,
        members: "89abcdee 89abcdef",
        object: "00000000",
        path: "89abcdef 89abcdee",
    },
];

// Compares the root of a case with the last node of its path.
fn check_root(rt: &impl Abort, alloc: Global, case: &Case) {
    let settings = settings_of(rt, case.base, case.digits, 2);
    let members = names_of(rt, alloc, &settings, case.members);
    let path = names_of(rt, alloc, &settings, case.path);
    let object = name_of(rt, &settings, case.object);
    let root = root_of(&members, &settings, &object);
    assert!(rt; root == path.as_slice().last().copied());
}

// Compares the walk of a case with its path.
fn check_walk(rt: &impl Abort, alloc: Global, case: &Case) {
    let settings = settings_of(rt, case.base, case.digits, 2);
    let members = names_of(rt, alloc, &settings, case.members);
    let path = names_of(rt, alloc, &settings, case.path);
    let object = name_of(rt, &settings, case.object);
    let all = at_rest(rt, alloc, &settings, &members);
    let overlay = overlay_of(rt, alloc, settings, all.as_slice());
    check_path(rt, alloc, &overlay, object, &path);
    check_steps(rt, &overlay, object, &path);
}

#[test]
fn walks_lead_to_the_root(rt: HostRuntime) {
    for case in CASES.iter() {
        check_root(&rt, rt.alloc(), case);
        check_walk(&rt, rt.alloc(), case);
    }
    walk_law();
    members_law();
}

// Adds a link to a node, which will leave.
fn add_leaving(rt: &impl Abort, table: &mut Table, text: &str) {
    let leaving = name_of(rt, &table.settings(), text);
    assert!(rt; leaving != table.owner());
    let _ = table.offer(leaving).expect(rt, "memory");
    table.mark_leaving(leaving);
}

// Pins a node.
fn pin(rt: &impl Abort, table: &mut Table, text: &str) {
    let target = name_of(rt, &table.settings(), text);
    assert!(rt; target != table.owner());
    let _ = table.pin(target).expect(rt, "memory");
}

// The table of a node without links.
fn table_of(rt: &impl Abort, alloc: Global, settings: &Settings, owner: &str) -> Table {
    let owner = name_of(rt, settings, owner);
    Table::new(alloc, owner, settings).expect(rt, "memory")
}

// The table of 000, which has pinned three nodes and holds one that will leave.
fn table_with_links(rt: &impl Abort, alloc: Global, settings: &Settings) -> Table {
    let mut table = table_of(rt, alloc, settings, "000");
    add_leaving(rt, &mut table, "301");
    pin(rt, &mut table, "110");
    pin(rt, &mut table, "211");
    pin(rt, &mut table, "230");
    table
}

// Compares the walk of an object with its path.
fn check_texts(rt: &impl Abort, alloc: Global, overlay: &Overlay, object: &str, path: &str) {
    let settings = overlay.settings();
    let object = name_of(rt, &settings, object);
    let path = names_of(rt, alloc, &settings, path);
    check_path(rt, alloc, overlay, object, &path);
    check_steps(rt, overlay, object, &path);
}

#[test]
fn core_nodes_alone_are_reached(rt: HostRuntime) {
    let settings = settings_of(&rt, 4, 3, 2);
    let from = table_with_links(&rt, rt.alloc(), &settings);
    let core = table_of(&rt, rt.alloc(), &settings, "230");
    let last = table_of(&rt, rt.alloc(), &settings, "301");
    let mut overlay = overlay_of(&rt, rt.alloc(), settings, &[]);
    add(&rt, &mut overlay, &from);
    add(&rt, &mut overlay, &core);
    add(&rt, &mut overlay, &last);
    for (object, path) in &[("100", "000 230"), ("200", "000 230"), ("300", "000 301")] {
        check_texts(&rt, rt.alloc(), &overlay, object, path);
    }
}

#[test]
fn no_names_have_no_root(rt: HostRuntime) {
    let settings = settings_of(&rt, 4, 3, 2);
    let object = name_of(&rt, &settings, "123");
    let none = List::new(rt.alloc());
    assert_eq!(rt; root_of(&none, &settings, &object), None);
}
