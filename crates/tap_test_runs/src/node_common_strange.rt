ghost use Rattle.tap_wire.specs.Spelling.{IsBody};

use crate::names::{name_of, settings_of};
use std::alloc::Global;
use std::process::Abort;
use tap_multicast::Covers;
use tap_name::Settings;
use tap_node_common::{is_strange, is_strange_to_ended};
use tap_table::Table;
use tap_wire::{Body, Frame};

// Checks whether a frame to 012 is strange to it: to the node without links, and to the node that has ended.
fn check(rt: &impl Abort, alloc: Global, settings: &Settings, from: &str, body: Body, strange: bool)
    requires { IsBody settings.now body }
{
    let to = name_of(rt, settings, "012");
    let from = name_of(rt, settings, from);
    let frame = Frame { from, to, body };
    let table = Table::new(alloc, to, settings).expect(rt, "memory");
    assert!(rt; table.is_empty());
    let covers = Covers::new(alloc);
    assert!(rt; is_strange(&table, &covers, &frame) == strange);
    assert!(rt; is_strange_to_ended(settings, &to, &frame) == strange);
}

// A Seek of another joiner isn't strange to a node without links; a Seek of the node itself is, and so is what it sends itself.
#[test]
fn a_seek_of_another_is_not_strange(rt: HostRuntime) {
    let settings = settings_of(&rt, 4, 3, 2);
    let joiner = name_of(&rt, &settings, "301");
    let itself = name_of(&rt, &settings, "012");
    let seek = Body::Seek { joiner };
    check(&rt, rt.alloc(), &settings, "301", seek, false);
    let seek = Body::Seek { joiner: itself };
    check(&rt, rt.alloc(), &settings, "301", seek, true);
    check(&rt, rt.alloc(), &settings, "012", Body::Done, true);
}
