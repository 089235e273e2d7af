use std::process::Abort;
use tap_name::{Name, Settings, read_name};
use tap_salt::{name_of, salt, salts_of};

// Settings whose names are as long as a digest.
fn salted(rt: &impl Abort) -> Settings {
    Settings::new(16, 40, 2).expect(rt, "settings")
}

// The name of a text, if names have as many digits as a digest.
fn salted_name(rt: &impl Abort, text: &[u8]) -> Name {
    name_of(&salted(rt), text).expect(rt, "a name")
}

// The name with these digits.
fn name(rt: &impl Abort, digits: &str) -> Name {
    read_name(&salted(rt), digits.as_bytes()).expect(rt, "a name")
}

// The digests are those of FIPS 180-4's examples, and of the empty text.
#[test]
fn a_name_is_the_digest(rt: HostRuntime) {
    let abc = name(&rt, "a9993e364706816aba3e25717850c26c9cd0d89d");
    assert!(rt; salted_name(&rt, b"abc") == abc);
    let empty = name(&rt, "da39a3ee5e6b4b0d3255bfef95601890afd80709");
    assert!(rt; salted_name(&rt, b"") == empty);
}

// The digests of the object's forty letters and digits and of one byte more, as Python's hashlib has them.
#[test]
fn an_object_has_salts(rt: HostRuntime) {
    let settings = salted(&rt);
    let object = salted_name(&rt, b"abc");
    for (number, digits) in &[
        (1, "f5a863f954041ff3b43c40781e202cdd33f995a9"),
        (2, "4bcfc0e3bf6c3ffc4b83ed5d49427d9b61029a1b"),
        (3, "508f37600564a7122a0ac9316846a36ce020dde4"),
        (4, "82ac79bd615e9eb2ea396699019fc380efeb799e"),
        (255, "39b89f05f662083ac545d68d50cb9f3f6ea2371b"),
    ] {
        assert!(rt; salt(&settings, &object, *number) == Some(name(&rt, digits)));
    }
}

#[test]
fn the_salts_come_in_their_order(rt: HostRuntime) {
    let settings = salted(&rt);
    let object = salted_name(&rt, b"abc");
    let [first, second, third, fourth] = salts_of(&settings, &object).expect(&rt, "salts");
    for (number, one) in &[(1, first), (2, second), (3, third), (4, fourth)] {
        assert!(rt; salt(&settings, &object, *number) == Some(*one));
    }
}

#[test]
fn other_settings_have_no_such_names(rt: HostRuntime) {
    let object = salted_name(&rt, b"abc");
    for (base, digits) in &[(16, 39), (16, 8), (15, 40), (2, 40)] {
        let settings = Settings::new(*base, *digits, 2).expect(&rt, "settings");
        assert!(rt; name_of(&settings, b"abc").is_none());
        assert!(rt; salt(&settings, &object, 1).is_none());
        assert!(rt; salts_of(&settings, &object).is_none());
    }
}
