use std::process::Abort;
use tap_history::{depart_name, is_start};
use tap_name::{Settings, read_name};
use tap_scenario::{Step, read_step};

// The step of a text, over names of two binary digits.
fn step_of(rt: &impl Abort, settings: &Settings, text: &str) -> Step {
    read_step(settings, false, text.as_bytes()).expect(rt, "a step")
}

// Compares whether steps are starts with what it is to be.
fn check_starts(rt: &impl Abort, texts: &[&str], want: bool) {
    let settings = Settings::new(2, 2, 1).expect(rt, "settings");
    for text in texts {
        assert!(rt; is_start(&step_of(rt, &settings, text)) == want);
    }
}

#[test]
fn steps_that_act_at_a_node_are_starts(rt: HostRuntime) {
    let starts = &[
        "join 10 via 00",
        "leave 01",
        "publish 11 at 01",
        "withdraw 11 at 01",
        "find 11 from 01",
        "abandon 01",
    ];
    check_starts(&rt, starts, true);
    let others = &[
        "walk 11 from 01",
        "root 11",
        "table 01",
        "deliver 0",
        "settle",
    ];
    check_starts(&rt, others, false);
}

#[test]
fn a_departure_names_its_leaver(rt: HostRuntime) {
    let settings = Settings::new(2, 2, 1).expect(&rt, "settings");
    let leaver = read_name(&settings, b"01").expect(&rt, "a name");
    let leave = step_of(&rt, &settings, "leave 01");
    assert!(rt; depart_name(&leave) == Some(leaver));
    let abandon = step_of(&rt, &settings, "abandon 01");
    assert!(rt; depart_name(&abandon).is_none());
}
