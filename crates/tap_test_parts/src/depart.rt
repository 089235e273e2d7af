ghost use Rattle.std.specs.Prelude.{◌≡◌, ◌≢◌, true};
ghost use Rattle.tap_name.specs.Name.{IsName};
ghost use Rattle.tap_table.specs.Ties.{held_word};

use crate::names::{name_of, settings_of};
use std::alloc::Global;
use std::process::Abort;
use tap_depart::{Leaving, Notice, told_leave};
use tap_link::Kind;
use tap_name::{Name, Settings};
use tap_register::Stamp;
use tap_table::{Tie, Ties};

// The ties of a node without links.
fn ties_of(rt: &impl Abort, alloc: Global, settings: &Settings, owner: Name) -> Ties
    requires { IsName settings.now owner }
    ensures owner { result.table.owner ≡ owner }
    ensures settings { result.table.settings ≡ settings.now }
{
    Ties::new(alloc, owner, settings).expect(rt, "memory")
}

// Adds a settled link to another node.
fn settle(rt: &impl Abort, ties: &mut Ties, stamp: &mut Stamp, other: Name)
    requires { IsName ties.old.table.settings other }
    ensures owner { ties.new.table.owner ≡ ties.old.table.owner }
    ensures settings { ties.new.table.settings ≡ ties.old.table.settings }
{
    assert!(rt; other != ties.table().owner());
    assert!(rt; stamp.last() < 100);
    assert!(rt; ties.offer(stamp, other).expect(rt, "memory").is_some());
}

// Another node has a link to this one.
fn hold(rt: &impl Abort, ties: &mut Ties, other: Name)
    requires { IsName ties.old.table.settings other }
    ensures { ties.new.table ≡ ties.old.table }
{
    assert!(rt; other != ties.table().owner());
    assert!(rt; ties.held(other, 1, true).expect(rt, "memory"));
}

// The node starts to leave.
fn start(rt: &impl Abort, alloc: Global, ties: Ties) -> Leaving
    ensures { result.ties ≡ ties }
{
    Leaving::start(alloc, ties).ok().expect(rt, "memory")
}

// A notice by its place.
fn notice_at(rt: &impl Abort, leaving: &Leaving, i: usize) -> Notice {
    assert!(rt; i < leaving.notice_count());
    leaving.notice_at(i)
}

// The two holders are noticed, of which the near one replaces the leaver at the far one, and answer, the far one twice.
fn answer_all(rt: &impl Abort, leaving: &mut Leaving, far: Name, near: Name) {
    let first = Notice {
        to: far,
        replacement: Some(near),
    };
    let second = Notice {
        to: near,
        replacement: None,
    };
    assert!(rt; notice_at(rt, leaving, 0) == first);
    assert!(rt; notice_at(rt, leaving, 1) == second);
    assert!(rt; !leaving.left(far));
    assert!(rt; !leaving.left(far));
    assert!(rt; leaving.awaited() == 1);
    assert!(rt; leaving.left(near));
}

// The node is gone: the far node and then the near one are told that it has no link to them any more, and that it is gone.
fn finish(rt: &impl Abort, leaving: Leaving, stamp: &mut Stamp, far: Name, near: Name) {
    assert!(rt; leaving.awaited() == 0);
    assert!(rt; stamp.last() == 2);
    assert!(rt; leaving.ties().table().len() == 2);
    let (links, gone) = leaving.finish(stamp).expect(rt, "memory");
    let last = Tie {
        to: near,
        version: 4,
        on: false,
    };
    assert!(rt; links.as_slice().get(1).copied() == Some(last));
    assert!(rt; gone.as_slice().first().copied() == Some(far));
    assert!(rt; gone.as_slice().get(1).copied() == Some(near));
}

// The node 100 has links to 000 and 120, which have links to it, and leaves.
#[test]
fn each_holder_is_noticed_and_awaited(rt: HostRuntime) {
    let settings = settings_of(&rt, 4, 3, 1);
    let far = name_of(&rt, &settings, "000");
    let near = name_of(&rt, &settings, "120");
    let mut ties = ties_of(&rt, rt.alloc(), &settings, name_of(&rt, &settings, "100"));
    let mut stamp = Stamp::new();
    settle(&rt, &mut ties, &mut stamp, far);
    settle(&rt, &mut ties, &mut stamp, near);
    hold(&rt, &mut ties, far);
    hold(&rt, &mut ties, near);
    let mut leaving = start(&rt, rt.alloc(), ties);
    answer_all(&rt, &mut leaving, far, near);
    finish(&rt, leaving, &mut stamp, far, near);
}

// The node takes the notice of a leaver, with its replacement, to which it has a link then.
fn notice(rt: &impl Abort, ties: &mut Ties, stamp: &mut Stamp, leaver: Name, near: Name)
    requires leaver { IsName ties.old.table.settings leaver }
    requires near { IsName ties.old.table.settings near }
{
    assert!(rt; leaver != ties.table().owner());
    assert!(rt; stamp.last() < 100);
    let tie = Tie {
        to: near,
        version: 2,
        on: true,
    };
    assert!(rt; told_leave(ties, stamp, leaver, Some(near)).expect(rt, "memory") == Some(tie));
    assert!(rt; ties.table().kind_of(leaver) == Some(Kind::Leaving));
    assert!(rt; ties.table().kind_of(near) == Some(Kind::Settled));
}

// The node 000 has a link to 100, which leaves and gives it 120.
#[test]
fn the_replacement_fills_the_slot(rt: HostRuntime) {
    let settings = settings_of(&rt, 4, 3, 1);
    let leaver = name_of(&rt, &settings, "100");
    let near = name_of(&rt, &settings, "120");
    let mut ties = ties_of(&rt, rt.alloc(), &settings, name_of(&rt, &settings, "000"));
    let mut stamp = Stamp::new();
    settle(&rt, &mut ties, &mut stamp, leaver);
    notice(&rt, &mut ties, &mut stamp, leaver, near);
}

// Takes the word of a holder of a leaving node that it has a link to it.
fn hear(rt: &impl Abort, leaving: &mut Leaving, holder: Name)
    requires name { IsName leaving.old.ties.table.settings holder }
    requires other { holder ≢ leaving.old.ties.table.owner }
    ensures { leaving.new ≡ record leaving.old { ties = held_word leaving.old.ties holder 1 true } }
{
    assert!(rt;
        leaving
            .ties_mut()
            .held(holder, 1, true)
            .expect(rt, "memory")
    );
}

#[test]
fn the_ties_of_a_leaving_node_change(rt: HostRuntime) {
    let settings = settings_of(&rt, 4, 3, 1);
    let leaver = name_of(&rt, &settings, "100");
    let holder = name_of(&rt, &settings, "000");
    assert!(rt; holder != leaver);
    let mut leaving = start(&rt, rt.alloc(), ties_of(&rt, rt.alloc(), &settings, leaver));
    hear(&rt, &mut leaving, holder);
    assert!(rt; leaving.ties().holder_count() == 1);
    assert!(rt; leaving.notice_count() == 0);
}
