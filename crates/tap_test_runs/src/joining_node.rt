use crate::names::{name_of, settings_of};
use std::alloc::Global;
use std::process::Abort;
use tap_joining_node::{Joined, JoiningNode};
use tap_node_common::FrameList;

// 01 seeks its place by 00, and becomes core.
fn join(rt: &impl Abort, alloc: Global, sent: &mut FrameList) -> Joined {
    let settings = settings_of(rt, 2, 2, 1);
    let via = name_of(rt, &settings, "00");
    let name = name_of(rt, &settings, "01");
    let node = JoiningNode::new(alloc, name, &settings).expect(rt, "memory");
    node.join(sent, via).expect(rt, "memory");
    node.become_core(sent).expect(rt, "memory")
}

// Once it is core it has no holder to release.
#[test]
fn a_join_from_its_seek_to_its_end(rt: HostRuntime) {
    let mut sent = FrameList::new(rt.alloc());
    let joined = join(&rt, rt.alloc(), &mut sent);
    assert!(rt; joined.core.ties().holder_count() == 0);
    assert!(rt; sent.len() == 1);
    assert!(rt; sent.at(0) == [1, 1, 0, 2, 0, 1, 0, 0, 0, 1].as_slice());
}
