use std::alloc::Global;
use std::process::Abort;
use tap_make::{Mixer, made_law, make};
use tap_name::{Name, Settings, read_name};
use tap_scenario::{Scenario, Step, read_step};

// Seeds, and the first three numbers that the mixer gives.
const MIXED: [(u64, [u32; 3]); 3] = [
    (0, [335_903_614, 436_792_849, 2_599_843_874]),
    (1, [1_817_669_548, 2_187_888_307, 2_784_682_393]),
    (
        18_446_744_073_709_551_615,
        [3_149_104_977, 2_980_664_687, 2_415_005_355],
    ),
];

// Some steps of the scenario of 5 joins from the seed 7, each by its place from 0.
const STEPS: [(usize, &str); 20] = [
    (0, "publish c1ad3400 at 44317104"),
    (19, "publish a9a57c13 at cd567c18"),
    (20, "settle"),
    (21, "join 4c8ba31c via 37188e17"),
    (24, "join 2999e31f via cd567c18"),
    (25, "settle mixed 1"),
    (26, "walk 60a8b002 from f4a61a01"),
    (30, "walk a9a57c13 from a2b0a80d"),
    (31, "join 4914e720 via 8f24130b"),
    (32, "settle mixed 2"),
    (33, "walk a9a57c13 from 67237f06"),
    (37, "walk c2aaee0a from 7e432800"),
    (38, "find c2aaee0a from 11ba061a"),
    (39, "settle"),
    (96, "find 11672812 from cd567c18"),
    (97, "settle"),
    (98, "leave 4c8ba31c"),
    (99, "settle"),
    (100, "leave 9abf961d"),
    (101, "settle"),
];

// Joins and seeds, with the number of steps and the digest of the members and the steps. Another program computed them, which
// was written after the page; runs of its scenarios had the nodes, frames, hops and answers of the scenarios that a third one makes.
const DIGESTS: [(u32, u64, usize, u64); 7] = [
    (1, 1, 90, 15_181_392_856_214_537_411),
    (2, 3, 93, 13_881_310_655_031_948_299),
    (4, 0, 95, 12_033_537_206_359_567_517),
    (12, 1, 115, 6_854_143_489_530_138_672),
    (
        13,
        18_446_744_073_709_551_615,
        122,
        4_020_024_464_730_179_436,
    ),
    (40, 99, 185, 2_786_990_095_536_789_007),
    (100, 123_456_789, 335, 4_434_632_810_591_122_869),
];

// Checks the first three numbers of a seed.
fn check_mixed(rt: &impl Abort, seed: u64, numbers: [u32; 3]) {
    let mut mixer = Mixer::new(seed);
    let first = [mixer.next(), mixer.next(), mixer.next()];
    assert!(rt; first == numbers, "{seed}");
}

#[test]
fn mixes_numbers(rt: HostRuntime) {
    for (seed, numbers) in MIXED {
        check_mixed(&rt, seed, numbers);
    }
}

// Settings of base 16 with eight digits.
fn settings(rt: &impl Abort) -> Settings {
    Settings::new(16, 8, 2).expect(rt, "settings")
}

// Checks that a step stands at this place.
fn check_step(rt: &impl Abort, scenario: &Scenario, place: usize, text: &str) {
    let read = read_step(&settings(rt), false, text.as_bytes());
    assert!(rt; step(scenario, place) == read, "{text}");
}

// Checks the steps of the scenario of 5 joins from the seed 7.
fn check_steps(rt: &impl Abort, scenario: &Scenario) {
    for (place, text) in STEPS {
        check_step(rt, scenario, place, text);
    }
}

// Checks what that scenario has beside its members and its steps.
fn check_head(rt: &impl Abort, scenario: &Scenario) {
    assert!(rt; scenario.settings() == settings(rt));
    assert!(rt; scenario.frames() == 500_000);
    assert!(rt; !scenario.carrier());
    assert!(rt; scenario.step_count() == 102);
}

#[test]
fn makes_steps_in_their_order(rt: HostRuntime) {
    let scenario = made(&rt, rt.alloc(), 5, 7);
    check_head(&rt, &scenario);
    check_steps(&rt, &scenario);
}

// Checks that a member stands at this place.
fn check_member(rt: &impl Abort, scenario: &Scenario, place: usize, text: &str) {
    let member = scenario.members().as_slice().get(place).copied();
    let read = read_name(&settings(rt), text.as_bytes()).ok();
    assert!(rt; member == read, "{text}");
}

// Checks the members of the scenario of 5 joins from the seed 7.
fn check_members(rt: &impl Abort, scenario: &Scenario) {
    assert!(rt; scenario.members().len() == 28);
    check_member(rt, scenario, 0, "7e432800");
    check_member(rt, scenario, 1, "f4a61a01");
    check_member(rt, scenario, 27, "c6be3b1b");
}

#[test]
fn makes_members(rt: HostRuntime) {
    let scenario = made(&rt, rt.alloc(), 5, 7);
    check_members(&rt, &scenario);
}

// Checks the number of steps and the digest of a made scenario.
fn check_digest(rt: &impl Abort, alloc: Global, joins: u32, seed: u64, steps: usize, digest: u64) {
    let scenario = made(rt, alloc, joins, seed);
    assert!(rt; scenario.step_count() == steps, "{joins} {seed}");
    assert!(rt; digest_of(&scenario) == digest, "{joins} {seed}");
}

#[test]
fn makes_the_scenarios_of_the_page(rt: HostRuntime) {
    for (joins, seed, steps, digest) in DIGESTS {
        check_digest(&rt, rt.alloc(), joins, seed, steps, digest);
    }
    made_law();
}

// A made scenario.
fn made(rt: &impl Abort, alloc: Global, joins: u32, seed: u64) -> Scenario {
    assert!(rt; 1 <= joins);
    assert!(rt; joins <= 100);
    make(alloc, joins, seed).expect(rt, "memory")
}

// The step at a place, if there is one.
fn step(scenario: &Scenario, place: usize) -> Option<Step> {
    if place < scenario.step_count() {
        Some(scenario.step_at(place))
    } else {
        None
    }
}

// The digest with one more byte.
fn with_byte(digest: u64, byte: u8) -> u64 {
    digest.wrapping_mul(31).wrapping_add(byte as u64)
}

// The digest with the digits of a name.
fn with_name(digest: u64, name: &Name) -> u64 {
    let mut digest = digest;
    for digit in name.digits().as_slice() {
        digest = with_byte(digest, *digit);
    }
    digest
}

// The digest with a letter and two names.
fn with_names(digest: u64, letter: u8, first: &Name, second: &Name) -> u64 {
    with_name(with_name(with_byte(digest, letter), first), second)
}

// The digest with a step.
fn with_step(digest: u64, step: &Step) -> u64 {
    match step {
        Step::Join { name, via } => with_names(digest, b'j', name, via),
        Step::Publish { object, server } => with_names(digest, b'p', object, server),
        Step::Find { object, asker } => with_names(digest, b'f', object, asker),
        Step::Walk { object, asker } => with_names(digest, b'w', object, asker),
        Step::Depart { name } => with_name(with_byte(digest, b'l'), name),
        Step::Settle => with_byte(digest, b's'),
        Step::SettleMixed { seed } => with_byte(with_byte(digest, b'm'), (*seed % 256) as u8),
        _ => with_byte(digest, b'?'),
    }
}

// The digest of the members and the steps of a scenario.
fn digest_of(scenario: &Scenario) -> u64 {
    let mut digest = 0;
    for name in scenario.members().as_slice() {
        digest = with_name(digest, name);
    }
    for place in 0..scenario.step_count() {
        digest = with_step(digest, &scenario.step_at(place));
    }
    digest
}
