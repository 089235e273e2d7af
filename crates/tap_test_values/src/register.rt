use std::process::Abort;
use tap_register::{Entry, Registers, Stamp};

#[test]
fn counts_from_one(rt: HostRuntime) {
    let mut stamp = Stamp::new();
    assert!(rt; stamp.last() == 0);
    assert!(rt; stamp.next() == 1);
    assert!(rt; stamp.next() == 2);
    assert!(rt; stamp.last() == 2);
}

// Applies writes, each of which is kept or not.
fn apply_all(
    rt: &impl Abort,
    registers: &mut Registers<u8, char>,
    writes: &[(u8, u32, char, bool)],
) {
    for (key, version, value, kept) in writes {
        assert!(rt; registers.apply(*key, *version, *value).expect(rt, "memory") == *kept);
    }
}

// The entries are these, and each is found by its key.
fn check_entries(rt: &impl Abort, registers: &Registers<u8, char>, entries: &[(u8, u32, char)]) {
    let mut left = registers.as_slice().iter();
    for (key, version, value) in entries {
        let is = Entry {
            key: *key,
            version: *version,
            value: *value,
        };
        assert!(rt; left.next().copied() == Some(is));
        assert!(rt; registers.get(*key) == Some(*value));
    }
    assert!(rt; left.next().is_none());
}

// The greatest version wins, whatever the order of the writes.
#[test]
fn keeps_the_greatest_version(rt: HostRuntime) {
    let mut registers = Registers::new(rt.alloc());
    assert!(rt; registers.is_empty());
    let writes = &[
        (5, 2, 'b', true),
        (5, 1, 'a', false),
        (5, 2, 'x', false),
        (9, 0, 'c', true),
        (3, 7, 'd', true),
        (7, 1, 'e', true),
        (5, 3, 'f', true),
        (8, 1, 'g', true),
        (1, 4, 'h', true),
    ];
    apply_all(&rt, &mut registers, writes);
    let entries = &[
        (1, 4, 'h'),
        (3, 7, 'd'),
        (5, 3, 'f'),
        (7, 1, 'e'),
        (8, 1, 'g'),
        (9, 0, 'c'),
    ];
    check_entries(&rt, &registers, entries);
    assert!(rt; registers.get(4) == None);
    assert!(rt; !registers.is_empty());
}

// Entries that are added at the end, one after the other.
#[test]
fn adds_entries_at_the_end(rt: HostRuntime) {
    let mut registers = Registers::new(rt.alloc());
    registers.push_last(3, 1, 'a').expect(&rt, "memory");
    registers.push_last(5, 0, 'b').expect(&rt, "memory");
    check_entries(&rt, &registers, &[(3, 1, 'a'), (5, 0, 'b')]);
    apply_all(&rt, &mut registers, &[(5, 0, 'c', false)]);
}
