use std::alloc::Global;
use std::process::Abort;
use tap_name::{Settings, Slot, read_name};
use tap_watch::Watch;

fn slot(level: u8, digit: u8) -> Slot {
    Slot { level, digit }
}

// The full watch of a joiner, up to a level.
fn full(
    rt: &impl Abort,
    alloc: Global,
    base: u8,
    digits: u8,
    joiner: &[u8],
    level: usize,
) -> Watch {
    let settings = Settings::new(base, digits, 2).expect(rt, "settings");
    let joiner = read_name(&settings, joiner).expect(rt, "a name");
    assert!(rt; level < digits as usize);
    Watch::full(alloc, &joiner, &settings, level).expect(rt, "memory")
}

#[test]
fn watches_the_other_digits(rt: HostRuntime) {
    let mut watch = full(&rt, rt.alloc(), 4, 3, b"203", 1);
    let all = [
        slot(0, 0),
        slot(0, 1),
        slot(0, 3),
        slot(1, 1),
        slot(1, 2),
        slot(1, 3),
    ];
    assert!(rt; watch.as_slice() == all.as_slice());
    assert!(rt; watch.has(slot(1, 2)) && !watch.has(slot(1, 0)));
    assert!(rt; watch.strike(slot(0, 3)) && !watch.strike(slot(0, 2)));
    let mut left = watch.copy().expect(&rt, "memory");
    assert!(rt; left.len() == 5);
    assert!(rt; left.as_slice().get(2).copied() == Some(slot(1, 1)));
    assert!(rt; !left.has(slot(0, 3)));
    left.strike(slot(1, 2));
    assert!(rt; watch.len() == 5);
}

#[test]
fn watches_are_made_of_slots(rt: HostRuntime) {
    let mut few = Watch::new(rt.alloc());
    few.push_last(slot(2, 1)).expect(&rt, "memory");
    assert!(rt; few.as_slice() == [slot(2, 1)].as_slice());
}

// Many slots, at forty levels of sixteen digits.
#[test]
fn watches_many_slots(rt: HostRuntime) {
    let joiner = b"0123456789abcdef0123456789abcdef01234567";
    let mut watch = full(&rt, rt.alloc(), 16, 40, joiner, 39);
    assert!(rt; watch.len() == 600);
    assert!(rt; watch.as_slice().last().copied() == Some(slot(39, 15)));
    assert!(rt; watch.strike(slot(20, 3)));
    assert!(rt; watch.copy().expect(&rt, "memory").len() == 599);
}
