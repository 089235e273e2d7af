use std::process::Abort;
use std::test::Fail;
use tap_link::{Cease, Forget, Kind, LinkSet, Pin, Release, Released};

// Pins targets, of which one comes twice. None is a primary.
fn pin_three(rt: &impl Abort, set: &mut LinkSet<u32>) {
    assert!(rt; set.is_empty());
    for (target, added) in &[(7, true), (4, true), (7, false), (9, true)] {
        assert_eq!(rt; set.pin(*target), Ok(*added));
    }
    assert_eq!(rt; set.primary(), None);
}

// The first pin that is released is settled, and leaves no room for the second.
fn release_two(rt: &impl Abort, set: &mut LinkSet<u32>) {
    assert_eq!(rt; set.release(Release { from: 7 }), Released::Settled);
    assert_eq!(rt; set.release(Release { from: 4 }), Released::Dropped);
    assert_eq!(rt; set.release(Release { from: 4 }), Released::Nothing);
    assert!(rt; !set.forget(Forget { from: 7 }));
    assert_eq!(rt; set.primary(), Some(7));
}

// A link that leaves makes room for another one.
fn make_room(rt: &impl Abort, set: &mut LinkSet<u32>) {
    assert_eq!(rt; set.offer(5), Ok(false));
    assert!(rt; set.mark_leaving(7));
    assert_eq!(rt; set.primary(), None);
    assert_eq!(rt; set.offer(5), Ok(true));
    assert_eq!(rt; set.primary(), Some(5));
}

// A pin is forgotten, and a leaving link taken out.
fn take_two_out(rt: &impl Abort, set: &mut LinkSet<u32>) {
    assert_eq!(rt; set.kind_of(9), Some(Kind::Pin));
    assert!(rt; set.forget(Forget { from: 9 }));
    assert!(rt; set.remove_settled(7));
    assert_eq!(rt; set.kind_of(7), None);
}

#[test]
fn a_set_of_width_one_settles_one_link(rt: HostRuntime) {
    let mut set: LinkSet<u32> = LinkSet::new(rt.alloc(), 1);
    pin_three(&rt, &mut set);
    release_two(&rt, &mut set);
    make_room(&rt, &mut set);
    take_two_out(&rt, &mut set);
    set.cease(&Cease { owner: 1 });
}

#[test]
fn each_kind_is_one_of_three(rt: HostRuntime) {
    for (kind, pin, settled) in &[
        (Kind::Pin, true, false),
        (Kind::Settled, false, true),
        (Kind::Leaving, false, false),
    ] {
        assert_eq!(rt; kind.is_pin(), *pin);
        assert_eq!(rt; kind.is_settled(), *settled);
    }
}

// The targets, in their order.
fn check_targets(rt: &impl Abort, set: &LinkSet<u32>, targets: &[u32]) {
    assert_eq!(rt; set.len(), targets.len());
    let mut i = 0;
    for target in targets {
        assert!(rt; i < set.len());
        assert_eq!(rt; set.target_at(i), *target);
        i += 1;
    }
}

#[test]
fn links_stand_in_ascending_order(rt: HostRuntime) -> Result<(), Fail> {
    let mut set: LinkSet<u32> = LinkSet::new(rt.alloc(), 2);
    for target in &[60, 20, 50, 10, 40, 30] {
        assert!(rt; set.pin(*target)?);
    }
    assert!(rt; set.offer(35)?);
    check_targets(&rt, &set, &[10, 20, 30, 35, 40, 50, 60]);
    assert!(rt; 3 < set.len());
    assert_eq!(rt; set.kind_at(3), Kind::Settled);
    Ok(())
}

#[test]
fn each_pin_is_spent(rt: HostRuntime) {
    let pin = Pin::of(5u32);
    assert_eq!(rt; pin.target(), 5);
    let mut settled = pin.settle(Release { from: 5 });
    assert_eq!(rt; settled.target(), 5);
    assert!(rt; !settled.is_leaving());
    settled.mark_leaving();
    assert!(rt; settled.is_leaving());
    Pin::of(6u32).spend(Release { from: 6 });
    Pin::of(7u32).forget(Forget { from: 7 });
    Pin::of(8u32).cease(&Cease { owner: 1 });
}
