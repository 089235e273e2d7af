ghost use Rattle.std.specs.Prelude.{◌≡◌, ◌↔◌, IsTrue};
ghost use Rattle.std.specs.Option.{ForSome};
ghost use Rattle.tap_name.specs.Name.{IsName};
ghost use Rattle.tap_overlay.specs.Overlay.{node_at};
ghost use Rattle.tap_overlay.specs.Start.{IsCoreOrEnded};

use crate::names::{name_of, settings_of};
use std::alloc::Global;
use std::collections::VecDeque;
use std::process::Abort;
use tap_name::{List, Name};
use tap_node::{NodeFault, NodeStatus, Turn};
use tap_overlay::{Overlay, OverlayFault, Start, overlay_law};
use tap_surrogate::{Tables, walk_path};
use tap_wire::{Bytes, WireFault, decode_head};

// More frames than the steps of a test send.
const MOST_FRAMES: usize = 1000;

// The overlay of one member, 301, at rest.
fn one_member(rt: &impl Abort, alloc: Global) -> Overlay {
    let settings = settings_of(rt, 4, 3, 2);
    let mut members = List::new(alloc);
    members
        .push(name_of(rt, &settings, "301"))
        .expect(rt, "memory");
    Overlay::at_rest(alloc, &settings, &members).expect(rt, "memory")
}

// The name of a text, among those of an overlay.
fn name_in(rt: &impl Abort, overlay: &Overlay, text: &str) -> Name
    ensures { IsName overlay.now.settings result }
{
    name_of(rt, &overlay.settings(), text)
}

// Puts the frames of a turn under way.
fn send(rt: &impl Abort, under_way: &mut VecDeque<Bytes>, turn: Turn) {
    for bytes in turn.sent.into_frames() {
        under_way.push_back(bytes).expect(rt, "memory");
    }
}

// Delivers a frame.
fn deliver(rt: &impl Abort, overlay: &mut Overlay, under_way: &mut VecDeque<Bytes>, bytes: &[u8]) {
    let head = decode_head(&overlay.settings(), bytes).expect(rt, "a frame");
    let turn = overlay.take(&head.to, bytes).expect(rt, "a step");
    send(rt, under_way, turn);
}

// Delivers the oldest frame, if one is under way.
fn deliver_one(rt: &impl Abort, overlay: &mut Overlay, under_way: &mut VecDeque<Bytes>) {
    if let Some(bytes) = under_way.pop_front() {
        deliver(rt, overlay, under_way, bytes.as_slice());
    }
}

// Delivers the frames of a turn and all that they lead to, the oldest first, until none is under way.
fn deliver_all(rt: &impl Abort, alloc: Global, overlay: &mut Overlay, turn: Turn) {
    let mut under_way = VecDeque::new(alloc);
    send(rt, &mut under_way, turn);
    for _turn in 0..MOST_FRAMES {
        deliver_one(rt, overlay, &mut under_way);
    }
    assert!(rt; under_way.is_empty());
}

// Whether there is a core node of this name that takes steps.
fn is_running_core(overlay: &Overlay, name: &Name) -> bool
    ensures { IsTrue result → ForSome (node_at overlay.now name.now) IsCoreOrEnded }
{
    match overlay.node(name) {
        Some(node) => is_core(node.status()),
        None => false,
    }
}

// Whether the status is that of a core node.
fn is_core(status: NodeStatus) -> bool
    ensures { IsTrue result ↔ (status ≡ NodeStatus.Core) }
{
    matches!(status, NodeStatus::Core)
}

// A new node joins by another.
fn join(rt: &impl Abort, overlay: &mut Overlay, name: &str, via: &str) -> Turn {
    let name = name_in(rt, overlay, name);
    let via = name_in(rt, overlay, via);
    assert!(rt; overlay.node(&name).is_none());
    overlay.join(name, via).expect(rt, "memory")
}

// A core node publishes an object.
fn publish(rt: &impl Abort, overlay: &mut Overlay, name: &str, object: &str) -> Turn {
    let name = name_in(rt, overlay, name);
    let object = name_in(rt, overlay, object);
    assert!(rt; is_running_core(overlay, &name));
    overlay
        .start(&name, &Start::Publish { object })
        .expect(rt, "a step")
}

// A core node leaves.
fn leave(rt: &impl Abort, overlay: &mut Overlay, name: &str) -> Turn {
    let name = name_in(rt, overlay, name);
    assert!(rt; is_running_core(overlay, &name));
    overlay.start(&name, &Start::Leave).expect(rt, "a step")
}

// How many nodes a walk passes.
fn walked(rt: &impl Abort, alloc: Global, overlay: &Overlay, from: &str, object: &str) -> usize {
    let from = name_in(rt, overlay, from);
    let object = name_in(rt, overlay, object);
    assert!(rt; overlay.is_core(from));
    walk_path(alloc, overlay, from, object)
        .expect(rt, "memory")
        .len()
}

// Compares what an overlay says of a name: whether it is core, and whether it lends a table.
fn check(rt: &impl Abort, overlay: &Overlay, text: &str, core: bool, lends: bool) {
    let name = name_in(rt, overlay, text);
    assert!(rt; overlay.is_core(name) == core);
    assert!(rt; overlay.table_of(name).is_some() == lends);
}

// 012 joins.
fn join_012(rt: &impl Abort, alloc: Global, overlay: &mut Overlay) {
    check(rt, overlay, "012", false, false);
    let turn = join(rt, overlay, "012", "301");
    check(rt, overlay, "012", false, true);
    deliver_all(rt, alloc, overlay, turn);
    check(rt, overlay, "012", true, true);
}

// 012 publishes 123.
fn publish_123(rt: &impl Abort, alloc: Global, overlay: &mut Overlay) {
    let turn = publish(rt, overlay, "012", "123");
    deliver_all(rt, alloc, overlay, turn);
}

// 301 leaves.
fn leave_301(rt: &impl Abort, alloc: Global, overlay: &mut Overlay) {
    let turn = leave(rt, overlay, "301");
    check(rt, overlay, "301", true, true);
    deliver_all(rt, alloc, overlay, turn);
    check(rt, overlay, "301", false, false);
}

#[test]
fn a_node_joins_and_another_leaves(rt: HostRuntime) {
    let mut overlay = one_member(&rt, rt.alloc());
    join_012(&rt, rt.alloc(), &mut overlay);
    publish_123(&rt, rt.alloc(), &mut overlay);
    leave_301(&rt, rt.alloc(), &mut overlay);
    assert!(rt; overlay.len() == 2);
    assert!(rt; !overlay.is_empty());
    assert!(rt; walked(&rt, rt.alloc(), &overlay, "012", "123") == 1);
    overlay_law();
}

// Why an overlay takes no bytes at a name.
fn fault_at(rt: &impl Abort, overlay: &mut Overlay, text: &str) -> Option<OverlayFault> {
    let name = name_in(rt, overlay, text);
    overlay.take(&name, b"").err()
}

#[test]
fn bytes_are_offered_to_a_name(rt: HostRuntime) {
    let mut overlay = one_member(&rt, rt.alloc());
    let short = OverlayFault::Node(NodeFault::Wire(WireFault::Short(4)));
    assert!(rt; fault_at(&rt, &mut overlay, "012") == Some(OverlayFault::NoNode));
    assert!(rt; fault_at(&rt, &mut overlay, "301") == Some(short));
}
