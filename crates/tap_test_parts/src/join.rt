ghost use Rattle.std.specs.Prelude.{◌≡◌, ◌≢◌, ◌≤◌, true, length, All};
ghost use Rattle.tap_name.specs.Name.{IsName};
ghost use Rattle.tap_table.specs.Ties.{held_word};

use crate::names::{name_of, settings_of};
use std::alloc::Global;
use std::process::Abort;
use tap_join::{Core, Joining, Sought};
use tap_link::{Cease, Kind};
use tap_name::{List, Name, Offered, Settings, Slot};
use tap_register::Stamp;
use tap_table::{Row, Table, Tie, Ties};

// A Hello: its sender, whether that is a core node, and its one link, if it has any, with the link's flag.
struct Hello {
    from: &'static str,
    core: bool,
    link: Option<(&'static str, bool)>,
}

// A Hello at a joining node, after another one or none; whom the node then tells, with which numbers, and
// which links it has, by level and digit.
struct Case {
    settings: (u8, u8, u8),
    joiner: &'static str,
    before: Option<Hello>,
    hello: Hello,
    told: &'static [(&'static str, u32)],
    links: &'static [(u8, u8, &'static str, Kind)],
}

// 00 is alone.
const OF_00: Hello = Hello {
    from: "00",
    core: true,
    link: None,
};

// 000 tells 120 of 100, which it pins itself.
const OF_000: Hello = Hello {
    from: "000",
    core: true,
    link: Some(("100", false)),
};

const CASES: [Case; 6] = [
    // 01 joins at 00, which is alone.
    Case {
        settings: (2, 2, 1),
        joiner: "01",
        before: None,
        hello: OF_00,
        told: &[("00", 1)],
        links: &[(1, 0, "00", Kind::Settled)],
    },
    // 100 and 120 join at 000, which is alone: 100 is the first.
    Case {
        settings: (4, 3, 2),
        joiner: "100",
        before: None,
        hello: Hello {
            from: "000",
            core: true,
            link: None,
        },
        told: &[("000", 1)],
        links: &[(0, 0, "000", Kind::Settled)],
    },
    // 120 hears from 000 of 100, which is still joining.
    Case {
        settings: (4, 3, 2),
        joiner: "120",
        before: None,
        hello: OF_000,
        told: &[("000", 1), ("100", 2)],
        links: &[(0, 0, "000", Kind::Settled), (1, 0, "100", Kind::Pin)],
    },
    // And then from 100 itself.
    Case {
        settings: (4, 3, 2),
        joiner: "120",
        before: Some(OF_000),
        hello: Hello {
            from: "100",
            core: false,
            link: None,
        },
        told: &[],
        links: &[(0, 0, "000", Kind::Settled), (1, 0, "100", Kind::Pin)],
    },
    // 110 joins at 100, a core node that 000 still pins, and hears of 000.
    Case {
        settings: (4, 3, 2),
        joiner: "110",
        before: None,
        hello: Hello {
            from: "100",
            core: true,
            link: Some(("000", true)),
        },
        told: &[("100", 1), ("000", 2)],
        links: &[(0, 0, "000", Kind::Settled), (1, 0, "100", Kind::Settled)],
    },
    // 120 joins at 000 after 100, and 100 is core and tells it of 110.
    Case {
        settings: (4, 3, 2),
        joiner: "120",
        before: Some(OF_000),
        hello: Hello {
            from: "100",
            core: true,
            link: Some(("110", false)),
        },
        told: &[("110", 3)],
        links: &[
            (0, 0, "000", Kind::Settled),
            (1, 0, "100", Kind::Pin),
            (1, 1, "110", Kind::Pin),
        ],
    },
];

// The join of the node of a text.
fn start_of(rt: &impl Abort, alloc: Global, settings: &Settings, joiner: &str) -> Joining
    ensures { result.ties.table.settings ≡ settings.now }
{
    let name = name_of(rt, settings, joiner);
    Joining::start(alloc, name, settings).expect(rt, "memory")
}

// The links of a Hello: one or none.
fn links_of(
    rt: &impl Abort,
    alloc: Global,
    settings: &Settings,
    link: Option<(&str, bool)>,
) -> List<Offered>
    ensures names { All (λ link. IsName settings.now link.name) result }
    ensures few { length result ≤ 1 }
{
    let mut links = List::new(alloc);
    if let Some((text, settled)) = link {
        let name = name_of(rt, settings, text);
        links.push(Offered { name, settled }).expect(rt, "memory");
    }
    links
}

// The node takes a Hello.
fn take(
    rt: &impl Abort,
    alloc: Global,
    settings: &Settings,
    joining: &mut Joining,
    stamp: &mut Stamp,
    hello: &Hello,
) -> List<Tie>
    requires { joining.old.ties.table.settings ≡ settings.now }
    ensures { joining.new.ties.table.settings ≡ joining.old.ties.table.settings }
{
    let from = name_of(rt, settings, hello.from);
    let links = links_of(rt, alloc, settings, hello.link);
    assert!(rt; stamp.last() < 1000);
    joining
        .hello(stamp, from, hello.core, &links)
        .expect(rt, "memory")
}

// The node takes a Hello before the one of the case, if there is one.
fn take_before(
    rt: &impl Abort,
    alloc: Global,
    settings: &Settings,
    joining: &mut Joining,
    stamp: &mut Stamp,
    before: &Option<Hello>,
)
    requires { joining.old.ties.table.settings ≡ settings.now }
    ensures { joining.new.ties.table.settings ≡ joining.old.ties.table.settings }
{
    if let Some(hello) = before {
        let _ = take(rt, alloc, settings, joining, stamp, hello);
    }
}

fn check_told(rt: &impl Abort, settings: &Settings, told: &List<Tie>, wanted: &[(&str, u32)]) {
    assert!(rt; told.len() == wanted.len());
    let mut left = wanted.iter();
    for tie in told.as_slice() {
        let (text, version) = *left.next().expect(rt, "told");
        let to = name_of(rt, settings, text);
        assert!(rt;
            *tie == Tie {
                to,
                version,
                on: true
            }
        );
    }
}

fn check_links(
    rt: &impl Abort,
    settings: &Settings,
    table: &Table,
    wanted: &[(u8, u8, &str, Kind)],
) {
    assert!(rt; table.len() == wanted.len());
    for i in 0..table.len() {
        let (level, digit, text, kind) = *wanted.get(i).expect(rt, "a link");
        let slot = Slot { level, digit };
        let target = name_of(rt, settings, text);
        assert!(rt; table.row_at(i) == Row { slot, target, kind });
    }
}

fn check(rt: &impl Abort, alloc: Global, case: &Case) {
    let (base, digits, width) = case.settings;
    let settings = settings_of(rt, base, digits, width);
    let mut joining = start_of(rt, alloc, &settings, case.joiner);
    let mut stamp = Stamp::new();
    take_before(rt, alloc, &settings, &mut joining, &mut stamp, &case.before);
    let told = take(rt, alloc, &settings, &mut joining, &mut stamp, &case.hello);
    check_told(rt, &settings, &told, case.told);
    check_links(rt, &settings, joining.ties().table(), case.links);
}

#[test]
fn a_hello_leaves_its_names_linked(rt: HostRuntime) {
    for case in CASES.iter() {
        check(&rt, rt.alloc(), case);
    }
}

// The node greets each of six nodes, for the first time or again.
fn greet_all(rt: &impl Abort, settings: &Settings, joining: &mut Joining, first: bool) {
    for text in "100 000 301 110 212 021".split(' ') {
        let other = name_of(rt, settings, text);
        assert!(rt;
            joining.greet(other).expect(rt, "memory") == first,
            "{text}"
        );
    }
}

// The node becomes core, without holders and links, and begins to leave.
fn finish(rt: &impl Abort, joining: Joining, name: Name) {
    let mut node = joining.finish();
    assert!(rt; node.ties().holder_count() == 0);
    assert!(rt; node.ties_mut().table().len() == 0);
    assert!(rt; node.leave().table().owner() == name);
}

// A joining node greets each of six others once, and is core then.
#[test]
fn a_joining_node_greets_and_becomes_core(rt: HostRuntime) {
    let settings = settings_of(&rt, 4, 3, 2);
    let mut joining = start_of(&rt, rt.alloc(), &settings, "120");
    greet_all(&rt, &settings, &mut joining, true);
    greet_all(&rt, &settings, &mut joining, false);
    finish(&rt, joining, name_of(&rt, &settings, "120"));
}

// The ties of 000, which has no link.
fn ties_of_000(rt: &impl Abort, alloc: Global) -> Ties {
    let settings = settings_of(rt, 4, 3, 2);
    let owner = name_of(rt, &settings, "000");
    Ties::new(alloc, owner, &settings).expect(rt, "memory")
}

// The name of a text, which isn't the owner's.
fn other(rt: &impl Abort, ties: &Ties, text: &str) -> Name
    ensures name { IsName ties.now.table.settings result }
    ensures other { result ≢ ties.now.table.owner }
{
    let name = name_of(rt, &ties.table().settings(), text);
    assert!(rt; name != ties.table().owner());
    name
}

// Pins 100.
fn pin_100(rt: &impl Abort, ties: &mut Ties) {
    let target = other(rt, ties, "100");
    let tie = ties.pin(&mut Stamp::new(), target).expect(rt, "memory");
    assert!(rt; tie.is_some());
}

// Settles on 100.
fn settle_100(rt: &impl Abort, ties: &mut Ties) {
    let target = other(rt, ties, "100");
    let tie = ties.offer(&mut Stamp::new(), target).expect(rt, "memory");
    assert!(rt; tie.is_some());
}

// 120 seeks its place at the core node with these ties.
fn sought_by_120(rt: &impl Abort, ties: Ties) -> Sought {
    let seeker = other(rt, &ties, "120");
    Core::at_rest(ties).seek(&seeker)
}

// 120 seeks at 000: while 100 is pinned there, 000 is the surrogate; once it is settled, 120 goes on to it.
#[test]
fn a_seeker_goes_on_to_a_core_node(rt: HostRuntime) {
    let mut pinning = ties_of_000(&rt, rt.alloc());
    pin_100(&rt, &mut pinning);
    assert!(rt; sought_by_120(&rt, pinning) == Sought::Surrogate(0));
    let mut settled = ties_of_000(&rt, rt.alloc());
    settle_100(&rt, &mut settled);
    let first = other(&rt, &settled, "100");
    assert!(rt; sought_by_120(&rt, settled) == Sought::Forward(first));
}

// Takes the word of a holder of a joining node that it has a link to it.
fn hold(rt: &impl Abort, settings: &Settings, joining: &mut Joining, holder: Name)
    requires settings { joining.old.ties.table.settings ≡ settings.now }
    requires name { IsName settings.now holder }
    ensures { joining.new ≡ record joining.old { ties = held_word joining.old.ties holder 1 true } }
{
    assert!(rt; holder != joining.ties().table().owner());
    assert!(rt;
        joining
            .ties_mut()
            .held(holder, 1, true)
            .expect(rt, "memory")
    );
}

// A join that was given up ends: its one link, and its holder, are of the surrogate.
fn end(rt: &impl Abort, joining: Joining, stamp: &mut Stamp, surrogate: Name) {
    assert!(rt; joining.is_abandoned());
    assert!(rt; joining.ties().table().len() == 1);
    assert!(rt; stamp.last() == 1);
    let owner = joining.ties().table().owner();
    let (links, forget) = joining.cease(stamp, Cease { owner }).expect(rt, "memory");
    let word = Tie {
        to: surrogate,
        version: 2,
        on: false,
    };
    assert!(rt; links.as_slice().first().copied() == Some(word));
    assert!(rt; forget.as_slice().first().copied() == Some(surrogate));
}

// 01 is held by 00 and gives its join up: it ends, and 00 is sent a Forget.
#[test]
fn a_join_is_given_up(rt: HostRuntime) {
    let settings = settings_of(&rt, 2, 2, 1);
    let surrogate = name_of(&rt, &settings, "00");
    let mut joining = start_of(&rt, rt.alloc(), &settings, "01");
    let mut stamp = Stamp::new();
    hold(&rt, &settings, &mut joining, surrogate);
    joining.abandon();
    let _ = take(&rt, rt.alloc(), &settings, &mut joining, &mut stamp, &OF_00);
    end(&rt, joining, &mut stamp, surrogate);
}
