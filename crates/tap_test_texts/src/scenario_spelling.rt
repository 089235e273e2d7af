use crate::scenario::first_member;
use std::alloc::Global;
use std::process::Abort;
use tap_name::{Name, Settings};
use tap_salt::{name_of, salt};
use tap_scenario::{Fault, Key, ReadRefusal, Scenario, Step, read};

// Members that aren't written as they have to be.
const MEMBERS: [&str; 7] = [
    "@",
    "abc",
    "@abC",
    "@a-b",
    "@@ab",
    "@abcdefghijklmnopqrstuvwxyz0123456789abcdefghijklmnopqrstuvwxyz012",
    "@abc#1",
];

// Strings that are no steps.
const STEPS: [&str; 22] = [
    "root @abc#0",
    "root @abc#5",
    "root @abc#01",
    "root #1",
    "root @abc#1#1",
    "walk @abc from @abc#1",
    "walk @abc  from @abc",
    "join @abc#1 via @abc",
    "table @abc#1",
    "find @abc at @abc",
    "cast hi to @abc from @abc",
    "cast hi to a#1 from @abc",
    "cast @hi to * from @abc",
    "rootset @abc#1 from @abc",
    "scatter @abc#1 at @abc",
    "gather @abc#4 at @abc",
    "findall @abc#2 from @abc",
    "scatter @abc at @abc#1",
    "scatter @abc from @abc",
    "scatter @abc",
    "scatter",
    "findall @abc from @abc ",
];

// Settings whose names aren't spelled, with a member, a step, and what is wrong.
const OTHERS: [(u8, u8, &str, &str, Fault); 7] = [
    (16, 8, "@abc", "settle", Fault::BadValue(Key::Members)),
    (16, 39, "@abc", "settle", Fault::BadValue(Key::Members)),
    (15, 40, "@abc", "settle", Fault::BadValue(Key::Members)),
    (
        16,
        8,
        "00000000",
        "walk @abc from 00000000",
        Fault::BadStep(2),
    ),
    (16, 8, "00000000", "root 00000000#1", Fault::BadStep(2)),
    (
        16,
        8,
        "00000000",
        "scatter 00000000 at 00000000",
        Fault::BadStep(2),
    ),
    (
        15,
        40,
        "0000000000000000000000000000000000000000",
        "findall 0000000000000000000000000000000000000000 from 0000000000000000000000000000000000000000",
        Fault::BadStep(2),
    ),
];

// Checks that the scenario of such settings with this member and, after a settle, this step is refused for this.
fn check_refused(
    rt: &impl Abort,
    alloc: Global,
    base: u8,
    digits: u8,
    member: &str,
    step: &str,
    fault: Fault,
) {
    let text = format!(in alloc;
        "base = {base}\ndigits = {digits}\nwidth = 2\nmembers = [\"{member}\"]\nsteps = [\"settle\", \"{step}\"]\n"
    ).expect(rt, "memory");
    let counted = count_of(alloc, text.as_str());
    assert!(rt; counted == Err(ReadRefusal::Fault(fault)), "{text}");
}

#[test]
fn refuses_spelled_members(rt: HostRuntime) {
    for member in MEMBERS.iter() {
        let fault = Fault::BadValue(Key::Members);
        check_refused(&rt, rt.alloc(), 16, 40, member, "settle", fault);
    }
}

#[test]
fn refuses_spelled_steps(rt: HostRuntime) {
    for step in STEPS.iter() {
        check_refused(&rt, rt.alloc(), 16, 40, "@abc", step, Fault::BadStep(2));
    }
}

#[test]
fn refuses_spellings_of_other_settings(rt: HostRuntime) {
    for (base, digits, member, step, fault) in OTHERS.iter() {
        check_refused(&rt, rt.alloc(), *base, *digits, member, step, *fault);
    }
}

// The text of a scenario of names of 40 digits in base 16, with these members and steps.
fn text_of(rt: &impl Abort, alloc: Global, carrier: bool, members: &str, steps: &str) -> String {
    format!(in alloc;
        "base = 16\ndigits = 40\nwidth = 2\ncarrier = {carrier}\nmembers = [{members}]\nsteps = [{steps}]\n"
    ).expect(rt, "memory")
}

// The scenario of names of 40 digits in base 16, with these members and steps.
fn scenario_of(
    rt: &impl Abort,
    alloc: Global,
    carrier: bool,
    members: &str,
    steps: &str,
) -> Scenario {
    let text = text_of(rt, alloc, carrier, members, steps);
    read(alloc, text.as_bytes()).expect(rt, "a scenario")
}

// How many steps a text gives.
fn count_of(alloc: Global, text: &str) -> Result<usize, ReadRefusal> {
    match read(alloc, text.as_bytes()) {
        Ok(scenario) => Ok(scenario.step_count()),
        Err(refusal) => Err(refusal),
    }
}

// Settings whose names may be spelled.
fn settings(rt: &impl Abort) -> Settings {
    Settings::new(16, 40, 2).expect(rt, "settings")
}

// The name of `abc`.
fn abc(rt: &impl Abort) -> Name {
    name_of(&settings(rt), b"abc").expect(rt, "a name")
}

// The salt of `abc` with this number.
fn salt_of_abc(rt: &impl Abort, number: u8) -> Name {
    salt(&settings(rt), &abc(rt), number).expect(rt, "a salt")
}

#[test]
fn a_member_is_spelled_once(rt: HostRuntime) {
    let members = "\"@abc\", \"@b\", \"a9993e364706816aba3e25717850c26c9cd0d89d\"";
    let text = text_of(&rt, rt.alloc(), false, members, "");
    let refused = Err(ReadRefusal::Fault(Fault::BadValue(Key::Members)));
    assert!(rt; count_of(rt.alloc(), text.as_str()) == refused);
}

// Checks the members and the steps of the scenario of spelled names.
fn check_spelled(rt: &impl Abort, scenario: &Scenario) {
    let name = abc(rt);
    let (second, fourth) = (salt_of_abc(rt, 2), salt_of_abc(rt, 4));
    let walk = Step::Walk {
        object: fourth,
        asker: name,
    };
    assert!(rt; first_member(scenario) == Some(name));
    assert!(rt; scenario.step_count() == 3);
    assert!(rt; scenario.step_at(0) == walk);
    assert!(rt; scenario.step_at(1) == Step::Root { object: second });
    assert!(rt; scenario.step_at(2) == Step::Depart { name });
}

#[test]
fn reads_spelled_names(rt: HostRuntime) {
    let scenario = scenario_of(
        &rt,
        rt.alloc(),
        false,
        "\"@abc\", \"@abcdefghijklmnopqrstuvwxyz0123456789abcdefghijklmnopqrstuvwxyz01\"",
        "\"walk @abc#4 from @abc\", \"root a9993e364706816aba3e25717850c26c9cd0d89d#2\", \"leave @abc\"",
    );
    check_spelled(&rt, &scenario);
}

// Checks steps that stand for four.
fn check_salted(rt: &impl Abort, scenario: &Scenario) {
    let name = abc(rt);
    let publish = Step::Publish {
        object: salt_of_abc(rt, 1),
        server: name,
    };
    let find = Step::Find {
        object: salt_of_abc(rt, 3),
        asker: name,
    };
    let withdraw = Step::Withdraw {
        object: salt_of_abc(rt, 4),
        server: name,
    };
    assert!(rt; scenario.step_count() == 13);
    assert!(rt; scenario.step_at(0) == publish);
    assert!(rt; scenario.step_at(4) == Step::Tick);
    assert!(rt; scenario.step_at(7) == find);
    assert!(rt; scenario.step_at(12) == withdraw);
}

#[test]
fn reads_a_step_for_each_salt(rt: HostRuntime) {
    let scenario = scenario_of(
        &rt,
        rt.alloc(),
        true,
        "\"@abc\"",
        "\"scatter @abc at @abc\", \"tick\", \"findall @abc from @abc\", \"gather @abc at @abc\"",
    );
    check_salted(&rt, &scenario);
}

// How many steps there are of so many settles, and of a step after them that stands for four.
fn count_after_settles(
    rt: &impl Abort,
    alloc: Global,
    settles: usize,
) -> Result<usize, ReadRefusal> {
    let mut steps = "\"settle\", ".repeat(alloc, settles).expect(rt, "memory");
    steps
        .push_str("\"scatter @abc at @abc\"")
        .expect(rt, "memory");
    let text = text_of(rt, alloc, false, "\"@abc\"", steps.as_str());
    count_of(alloc, text.as_str())
}

// Steps are counted, and the fault tells the string.
#[test]
fn keeps_to_the_most_steps_of_strings(rt: HostRuntime) {
    let refused = Err(ReadRefusal::Fault(Fault::BadStep(9_998)));
    assert!(rt; count_after_settles(&rt, rt.alloc(), 9_996) == Ok(10_000));
    assert!(rt; count_after_settles(&rt, rt.alloc(), 9_997) == refused);
}
