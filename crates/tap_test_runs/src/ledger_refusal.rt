// Why steps are refused: of several causes the first one counts.
use crate::ledger::{add, add_sent, add_step, begun, name_in};
use crate::names::{settings_of, step_of};
use std::alloc::Global;
use std::process::Abort;
use tap_ledger::Ledger;
use tap_log::{Record, Refusal};
use tap_name::{List, Name, Settings};

// A step and its refusal.
type Case = (&'static str, Option<Refusal>);

// Of the members 00 and 01, at the beginning.
const AT_THE_BEGINNING: [Case; 12] = [
    ("walk 11 from 10", Some(Refusal::NoSuchNode)),
    ("join 01 via 10", Some(Refusal::NoSuchNode)),
    ("withdraw 11 at 10", Some(Refusal::NoSuchNode)),
    ("cast a to 0 from 10", Some(Refusal::NoSuchNode)),
    ("join 01 via 00", Some(Refusal::NameTaken)),
    ("withdraw 11 at 00", Some(Refusal::NotPublished)),
    ("deliver 0", Some(Refusal::NoSuchFlight(0))),
    ("abandon 00", Some(Refusal::NotJoining)),
    ("cast a to 1 from 00", Some(Refusal::NotInPrefix)),
    ("cast a to 0 from 00", None),
    ("leave 00", None),
    ("join 10 via 00", None),
];

// While 10 joins, and a frame of eight bytes is outstanding.
const WHILE_ONE_JOINS: [Case; 13] = [
    ("leave 10", Some(Refusal::NotCore)),
    ("join 01 via 10", Some(Refusal::NotCore)),
    ("publish 11 at 10", Some(Refusal::NotCore)),
    ("leave 00", Some(Refusal::NotAtRest(1))),
    ("join 10 via 00", Some(Refusal::NameTaken)),
    ("garble 1 9 7", Some(Refusal::NoSuchFlight(1))),
    ("garble 0 8 7", Some(Refusal::NoSuchByte(8))),
    ("garble 0 1 7", Some(Refusal::Readable)),
    ("garble 0 1 1", None),
    ("cut 0 7", None),
    ("deliver 0", None),
    ("table 10", None),
    ("abandon 10", None),
];

// Of 256 members, 000 to 0ff.
const FULL: [Case; 2] = [
    ("join 001 via 000", Some(Refusal::NameTaken)),
    ("join 123 via 000", Some(Refusal::TooManyNodes)),
];

// Compares the refusal of a step with what it is to be.
fn check(rt: &impl Abort, alloc: Global, ledger: &Ledger, text: &str, want: Option<Refusal>) {
    let step = step_of(rt, &ledger.settings(), text);
    let refusal = ledger.refusal(alloc, &step).expect(rt, "memory");
    assert!(rt; refusal == want, "{text}");
}

fn check_all(rt: &impl Abort, alloc: Global, ledger: &Ledger, cases: &[Case]) {
    for (text, want) in cases {
        check(rt, alloc, ledger, text, *want);
    }
}

fn see_beginning(rt: &impl Abort, alloc: Global, ledger: &Ledger) {
    check_all(rt, alloc, ledger, &AT_THE_BEGINNING);
}

fn see_joining(rt: &impl Abort, alloc: Global, ledger: &Ledger) {
    check_all(rt, alloc, ledger, &WHILE_ONE_JOINS);
}

fn see_full(rt: &impl Abort, alloc: Global, ledger: &Ledger) {
    check_all(rt, alloc, ledger, &FULL);
}

#[test]
fn the_first_of_two_causes_counts(rt: HostRuntime) {
    let mut ledger = begun(&rt, rt.alloc());
    see_beginning(&rt, rt.alloc(), &ledger);
    add_step(&rt, &mut ledger, "join 10 via 00");
    add_sent(&rt, rt.alloc(), &mut ledger, 0);
    see_joining(&rt, rt.alloc(), &ledger);
}

// 10 is abandoned, and core after that.
#[test]
fn a_core_node_that_was_abandoned_is_not_joining(rt: HostRuntime) {
    let mut ledger = begun(&rt, rt.alloc());
    let name = name_in(&rt, &ledger, "10");
    let already = Some(Refusal::AlreadyAbandoned);
    let not_joining = Some(Refusal::NotJoining);
    add_step(&rt, &mut ledger, "join 10 via 00");
    add(&rt, &mut ledger, Record::Abandoned { name });
    check(&rt, rt.alloc(), &ledger, "abandon 10", already);
    add(&rt, &mut ledger, Record::Core { name });
    check(&rt, rt.alloc(), &ledger, "abandon 10", not_joining);
}

// A step is refused since this node leaves.
fn check_departing(rt: &impl Abort, alloc: Global, ledger: &Ledger, text: &str, leaver: Name) {
    check(rt, alloc, ledger, text, Some(Refusal::Departing(leaver)));
}

// What is refused while this node leaves, and what is not.
fn see_departing(rt: &impl Abort, alloc: Global, ledger: &Ledger, leaver: Name) {
    check_departing(rt, alloc, ledger, "leave 00", leaver);
    check_departing(rt, alloc, ledger, "join 01 via 00", leaver);
    check_departing(rt, alloc, ledger, "cast a to 1 from 00", leaver);
    check(rt, alloc, ledger, "walk 11 from 00", None);
}

#[test]
fn one_node_leaves_at_a_time(rt: HostRuntime) {
    let mut ledger = begun(&rt, rt.alloc());
    let leaver = name_in(&rt, &ledger, "01");
    add_step(&rt, &mut ledger, "leave 01");
    add_sent(&rt, rt.alloc(), &mut ledger, 0);
    see_departing(&rt, rt.alloc(), &ledger, leaver);
}

// Adds the name of these digits.
fn add_name(rt: &impl Abort, names: &mut List<Name>, settings: &Settings, digits: [u8; 3]) {
    let name = Name::from_digits(settings, &digits).expect(rt, "a name");
    names.push(name).expect(rt, "memory");
}

// Adds the sixteen names that begin with 0 and this digit.
fn add_sixteen(rt: &impl Abort, names: &mut List<Name>, settings: &Settings, digit: u8) {
    for last in 0..16 {
        add_name(rt, names, settings, [0, digit, last]);
    }
}

// The names 000 to 0ff: 256 of them.
fn many_names(rt: &impl Abort, alloc: Global, settings: &Settings) -> List<Name> {
    let mut names = List::new(alloc);
    for digit in 0..16 {
        add_sixteen(rt, &mut names, settings, digit);
    }
    names
}

#[test]
fn a_name_after_256_is_one_too_many(rt: HostRuntime) {
    let settings = settings_of(&rt, 16, 3, 1);
    let members = many_names(&rt, rt.alloc(), &settings);
    let ledger = Ledger::new(rt.alloc(), &settings, 1, &members).expect(&rt, "memory");
    see_full(&rt, rt.alloc(), &ledger);
}
