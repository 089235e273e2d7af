use crate::outcome::{NONE, check_run, ended_by, with_line};
use std::alloc::Global;
use std::process::Abort;
use tap_scenario::{Fault, Key};
use tap_top::Status;

// A line of the scenario, counted from 0, what stands there in its stead, the fault, and what is printed of it.
type Refused = (usize, &'static str, Fault, &'static str);

const REFUSED: [Refused; 18] = [
    (0, "base = 17", Fault::BadValue(Key::Base), "bad value base"),
    (0, "base = 4\nbase = 4", Fault::NotToml, "not TOML"),
    (0, "", Fault::BadKey(Key::Base), "bad key base"),
    (
        2,
        "width = 5",
        Fault::BadValue(Key::Width),
        "bad value width",
    ),
    (
        2,
        "width = 2\nframes = 0",
        Fault::BadValue(Key::Frames),
        "bad value frames",
    ),
    (
        4,
        "steps = [\"walk 123 from 000\"]\nspeed = 1",
        Fault::BadKey(Key::Unknown),
        "bad key unknown",
    ),
    (
        4,
        "steps = [\"walk 123 from 000\"]\ncarrier = 1",
        Fault::BadValue(Key::Carrier),
        "bad value carrier",
    ),
    (
        4,
        "steps = \"settle\"",
        Fault::BadValue(Key::Steps),
        "bad value steps",
    ),
    (0, "[base]", Fault::BadKey(Key::Digits), "bad key digits"),
    (
        3,
        "members = [\"000\", \"014\", \"230\", \"233\", \"301\"]",
        Fault::BadValue(Key::Members),
        "bad value members",
    ),
    (
        3,
        "members = [\"000\", \"000\", \"230\", \"233\", \"301\"]",
        Fault::BadValue(Key::Members),
        "bad value members",
    ),
    (
        3,
        "members = [[\"000\"]]",
        Fault::BadValue(Key::Members),
        "bad value members",
    ),
    (
        4,
        "steps = [\"walk 123  from 000\"]",
        Fault::BadStep(1),
        "bad step 1",
    ),
    (
        4,
        "steps = [\"settle\", \"deliver 007\"]",
        Fault::BadStep(2),
        "bad step 2",
    ),
    (
        4,
        "steps = [\"publish 123 at 301\", \"settle\", \"pointer 233\"]",
        Fault::BadStep(3),
        "bad step 3",
    ),
    (
        4,
        "steps = [\"tick\", \"garble 0 9 2\"]\ncarrier = true",
        Fault::BadStep(2),
        "bad step 2",
    ),
    (
        4,
        "steps = [\"deliver 4294967296\"]",
        Fault::BadStep(1),
        "bad step 1",
    ),
    (
        4,
        "steps = [\"walk 12F from 000\"]",
        Fault::BadStep(1),
        "bad step 1",
    ),
];

// Texts that are no scenario, the fault, and what is printed of it.
const NO_SCENARIOS: [(&[u8], Fault, &str); 3] = [
    (&[], Fault::BadKey(Key::Base), "bad key base"),
    (&[0xc3], Fault::NotUtf8, "not UTF-8"),
    (b"base = ", Fault::NotToml, "not TOML"),
];

// Checks that a text is refused with this status, and what is printed of it.
fn check_refused(rt: &impl Abort, alloc: Global, text: &[u8], status: Status, printed: &[u8]) {
    check_run(rt, alloc, &[], text, NONE, ended_by(status, 0), printed);
}

// The fault line of a text that is no scenario.
fn line_of(rt: &impl Abort, alloc: Global, told: &str) -> String {
    let mut line = String::from_str(alloc, "tapestry: not a scenario: ").expect(rt, "memory");
    line.push_str(told).expect(rt, "memory");
    line.push_str("\n").expect(rt, "memory");
    line
}

// Checks that a text has this fault.
fn check_fault(rt: &impl Abort, alloc: Global, text: &[u8], fault: Fault, told: &str) {
    let line = line_of(rt, alloc, told);
    check_refused(rt, alloc, text, Status::NotScenario(fault), line.as_bytes());
}

// Checks that the scenario with another line at a place has this fault.
fn check_line(rt: &impl Abort, alloc: Global, place: usize, line: &str, fault: Fault, told: &str) {
    let text = with_line(rt, alloc, place, line);
    check_fault(rt, alloc, text.as_bytes(), fault, told);
}

#[test]
fn each_refused_text_has_its_fault(rt: HostRuntime) {
    for (place, line, fault, told) in REFUSED.iter() {
        check_line(&rt, rt.alloc(), *place, line, *fault, told);
    }
}

#[test]
fn texts_that_are_none(rt: HostRuntime) {
    for (text, fault, told) in NO_SCENARIOS.iter() {
        check_fault(&rt, rt.alloc(), text, *fault, told);
    }
}

// A text of the greatest length that is read has no key, and one of a byte more is too long.
#[test]
fn a_text_is_too_long(rt: HostRuntime) {
    let fits = vec![in rt.alloc(); b'#'; 1_048_576].expect(&rt, "memory");
    check_fault(
        &rt,
        rt.alloc(),
        &fits,
        Fault::BadKey(Key::Base),
        "bad key base",
    );
    let long = vec![in rt.alloc(); b'#'; 1_048_577].expect(&rt, "memory");
    check_refused(
        &rt,
        rt.alloc(),
        &long,
        Status::TooLong,
        b"tapestry: text too long\n",
    );
}
