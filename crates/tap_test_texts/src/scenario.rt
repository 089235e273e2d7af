use std::alloc::Global;
use std::process::Abort;
use tap_name::{Name, Settings, read_name};
use tap_scenario::{
    Fault, Key, Prefix, ReadRefusal, Scenario, Step, Word, WordsAfter, read, read_number, read_step,
};

// A scenario's lines, each under its key.
const LINES: [(&str, &str); 5] = [
    ("base", "base = 4\n"),
    ("digits", "digits = 3\n"),
    ("width", "width = 2\n"),
    (
        "members",
        "members = [\"000\", \"012\", \"230\", \"233\", \"301\"]\n",
    ),
    ("steps", "steps = [\"walk 123 from 000\"]\n"),
];

// Texts, with the limit of frames, the members' number and the steps' number.
const TEXTS: [(&str, (u32, usize, usize)); 8] = [
    (
        "base = 4\ndigits = 3\nwidth = 2\nmembers = [\"000\", \"012\"]\nsteps = [\"walk 333 from 012\"]\n",
        (200_000, 2, 1),
    ),
    (
        "base = 16\ndigits = 4\nwidth = 2\nmembers = [\"beef\"]\nsteps = [\"walk 0000 from beef\"]\n",
        (200_000, 1, 1),
    ),
    (
        "base = 2\ndigits = 1\nwidth = 1\nmembers = [\"0\", \"1\"]\nsteps = [\"walk 1 from 0\", \"root 0\"]\n",
        (200_000, 2, 2),
    ),
    (
        "base = 16\ndigits = 8\nwidth = 2\nmembers = [\"89abcdee\", \"89abcdef\"]\nsteps = [\"walk 00000000 from 89abcdef\"]\n",
        (200_000, 2, 1),
    ),
    (
        "base = 4\ndigits = 3\nwidth = 2\nmembers = [\"000\"]\nsteps = []\n",
        (200_000, 1, 0),
    ),
    (
        "frames = 7\nbase = 0x10\ndigits = 9\nwidth = 4\nmembers = [\"012345678\"]\nsteps = [\"root fffffffff\"]\n",
        (7, 1, 1),
    ),
    (
        "base = 16\ndigits = 9\nwidth = 4\nmembers = [\"012345678\"]\nsteps = []\n",
        (100_000, 1, 0),
    ),
    (
        "frames = 100000\nbase = 16\ndigits = 9\nwidth = 4\nmembers = [\"012345678\"]\nsteps = []\n",
        (100_000, 1, 0),
    ),
];

// Lines, each in place of its key's, with what is then wrong.
const REFUSED: [(&str, &str, Fault); 47] = [
    ("base", "base = 4\nbase = 4\n", Fault::NotToml),
    ("steps", "steps = [\n", Fault::NotToml),
    ("base", "", Fault::BadKey(Key::Base)),
    ("digits", "", Fault::BadKey(Key::Digits)),
    ("width", "", Fault::BadKey(Key::Width)),
    ("members", "", Fault::BadKey(Key::Members)),
    ("steps", "", Fault::BadKey(Key::Steps)),
    ("base", "[base]\n", Fault::BadKey(Key::Digits)),
    ("more", "more = 1\n", Fault::BadKey(Key::Unknown)),
    ("more", "base = 4\nunknown = 1\n", Fault::NotToml),
    ("width", "wide = 2\n", Fault::BadKey(Key::Width)),
    ("base", "base = 1\n", Fault::BadValue(Key::Base)),
    ("base", "base = 17\n", Fault::BadValue(Key::Base)),
    ("base", "base = -4\n", Fault::BadValue(Key::Base)),
    ("base", "base = 4.0\n", Fault::BadValue(Key::Base)),
    ("base", "base = \"4\"\n", Fault::BadValue(Key::Base)),
    ("digits", "digits = 0\n", Fault::BadValue(Key::Digits)),
    ("digits", "digits = 41\n", Fault::BadValue(Key::Digits)),
    ("digits", "digits = 40\n", Fault::BadValue(Key::Members)),
    ("width", "width = 0\n", Fault::BadValue(Key::Width)),
    ("width", "width = 5\n", Fault::BadValue(Key::Width)),
    ("frames", "frames = 0\n", Fault::BadValue(Key::Frames)),
    ("frames", "frames = 500001\n", Fault::BadValue(Key::Frames)),
    (
        "frames",
        "frames = 4294967297\n",
        Fault::BadValue(Key::Frames),
    ),
    ("frames", "frames = true\n", Fault::BadValue(Key::Frames)),
    ("carrier", "carrier = 1\n", Fault::BadValue(Key::Carrier)),
    (
        "carrier",
        "carrier = \"yes\"\n",
        Fault::BadValue(Key::Carrier),
    ),
    (
        "carrier",
        "carrier = false\ncarrier = false\n",
        Fault::NotToml,
    ),
    (
        "carrier",
        "carrier = true\nframes = 0\n",
        Fault::BadValue(Key::Frames),
    ),
    (
        "members",
        "members = []\ncarrier = 2\n",
        Fault::BadValue(Key::Carrier),
    ),
    ("members", "members = []\n", Fault::BadValue(Key::Members)),
    (
        "members",
        "members = \"000\"\n",
        Fault::BadValue(Key::Members),
    ),
    (
        "members",
        "members = [[\"000\"]]\n",
        Fault::BadValue(Key::Members),
    ),
    (
        "members",
        "members = [\"000\", 1]\n",
        Fault::BadValue(Key::Members),
    ),
    (
        "members",
        "members = [\"004\"]\n",
        Fault::BadValue(Key::Members),
    ),
    (
        "members",
        "members = [\"0000\"]\n",
        Fault::BadValue(Key::Members),
    ),
    (
        "members",
        "members = [\"000\", \"012\", \"000\"]\n",
        Fault::BadValue(Key::Members),
    ),
    (
        "steps",
        "steps = \"root 000\"\n",
        Fault::BadValue(Key::Steps),
    ),
    (
        "steps",
        "steps = [\"root\", 1]\n",
        Fault::BadValue(Key::Steps),
    ),
    (
        "steps",
        "steps = [\"walk 123  from 000\"]\n",
        Fault::BadStep(1),
    ),
    (
        "steps",
        "steps = [\"walk 12F from 000\"]\n",
        Fault::BadStep(1),
    ),
    (
        "steps",
        "steps = [\"root 000\", \"root 000 \"]\n",
        Fault::BadStep(2),
    ),
    (
        "steps",
        "steps = [\"root 000\", \"settle\", \"\"]\n",
        Fault::BadStep(3),
    ),
    (
        "steps",
        "steps = [\"deliver 4294967296\"]\n",
        Fault::BadStep(1),
    ),
    (
        "steps",
        "steps = [\"table 000\", \"join 123 via 000\", \"tick\"]\n",
        Fault::BadStep(3),
    ),
    (
        "steps",
        "carrier = true\nsteps = [\"tick\", \"cut 0 1\"]\n",
        Fault::BadStep(2),
    ),
    (
        "steps",
        "carrier = true\nsteps = [\"lose 4294967296\"]\n",
        Fault::BadStep(1),
    ),
];

// Texts that are no step of names of three digits below 4.
const NO_STEPS: [&str; 45] = [
    "",
    " ",
    "walk",
    "root",
    "root ",
    " root 123",
    "root 123 ",
    "root  123",
    "root\t123",
    "root 12",
    "root 1234",
    "root 124",
    "Root 123",
    "roots 123",
    "root 123 from 000",
    "walk 123",
    "walk 123 from",
    "walk 123 from ",
    "walk 123  from 000",
    "walk 123 to 000",
    "walk 123 from 00A",
    "walk 123 from 000 ",
    "walk from 123 000",
    "join 123 at 000",
    "publish 123 from 000",
    "find 123",
    "deliver",
    "deliver 007",
    "deliver +7",
    "deliver 4294967296",
    "deliver 1 2",
    "settle oldest",
    "settle newest 1",
    "settle mixed",
    "settle mixed 18446744073709551616",
    "garble 0 0 256",
    "garble 0 0",
    "cut 0 03",
    "tick",
    "lose 0",
    "repeat 0",
    "rootset 123 from 000",
    "cast Hi to * from 000",
    "cast abcdefghijklmnopqrstuvwxyz1234567 to * from 000",
    "cast hi to 0000 from 000",
];

// The 64 names of two digits that are below 40 in base 16.
const SIXTY_FOUR: &str =
    "\"00\", \"01\", \"02\", \"03\", \"04\", \"05\", \"06\", \"07\", \"08\", \"09\", \"0a\", \"0b\", \"0c\", \"0d\", \"0e\", \"0f\", \
    \"10\", \"11\", \"12\", \"13\", \"14\", \"15\", \"16\", \"17\", \"18\", \"19\", \"1a\", \"1b\", \"1c\", \"1d\", \"1e\", \"1f\", \
    \"20\", \"21\", \"22\", \"23\", \"24\", \"25\", \"26\", \"27\", \"28\", \"29\", \"2a\", \"2b\", \"2c\", \"2d\", \"2e\", \"2f\", \
    \"30\", \"31\", \"32\", \"33\", \"34\", \"35\", \"36\", \"37\", \"38\", \"39\", \"3a\", \"3b\", \"3c\", \"3d\", \"3e\", \"3f\"";

// Faults, and how they are printed.
const PRINTED: [(Fault, &str); 11] = [
    (Fault::NotUtf8, "not a scenario: not UTF-8"),
    (Fault::NotToml, "not a scenario: not TOML"),
    (Fault::BadKey(Key::Base), "not a scenario: bad key base"),
    (Fault::BadKey(Key::Digits), "not a scenario: bad key digits"),
    (
        Fault::BadKey(Key::Unknown),
        "not a scenario: bad key unknown",
    ),
    (
        Fault::BadValue(Key::Width),
        "not a scenario: bad value width",
    ),
    (
        Fault::BadValue(Key::Frames),
        "not a scenario: bad value frames",
    ),
    (
        Fault::BadValue(Key::Carrier),
        "not a scenario: bad value carrier",
    ),
    (
        Fault::BadValue(Key::Members),
        "not a scenario: bad value members",
    ),
    (
        Fault::BadValue(Key::Steps),
        "not a scenario: bad value steps",
    ),
    (Fault::BadStep(12), "not a scenario: bad step 12"),
];

// Words, each with the greatest number that may be read and what is read.
const NUMBERS: [(&str, u64, Option<u64>); 20] = [
    ("0", 0, Some(0)),
    ("1", 0, None),
    ("4294967295", 4_294_967_295, Some(4_294_967_295)),
    ("4294967296", 4_294_967_295, None),
    ("4294967296", 4_294_967_296, Some(4_294_967_296)),
    (
        "9999999999999999999",
        u64::MAX,
        Some(9_999_999_999_999_999_999),
    ),
    (
        "10000000000000000000",
        u64::MAX,
        Some(10_000_000_000_000_000_000),
    ),
    ("18446744073709551615", u64::MAX, Some(u64::MAX)),
    ("18446744073709551615", 18_446_744_073_709_551_614, None),
    ("18446744073709551616", u64::MAX, None),
    ("184467440737095516150", u64::MAX, None),
    ("", u64::MAX, None),
    ("00", u64::MAX, None),
    ("07", u64::MAX, None),
    ("018446744073709551615", u64::MAX, None),
    ("+1", u64::MAX, None),
    ("-1", u64::MAX, None),
    (" 1", u64::MAX, None),
    ("1a", u64::MAX, None),
    ("+18446744073709551615", u64::MAX, None),
];

// Steps whose number is at its limit or beyond it, with whether they are read in a carried scenario, and in any other.
const PLACES: [(&str, bool, bool); 16] = [
    ("deliver 4294967295", true, true),
    ("deliver 4294967296", false, false),
    ("deliver 18446744073709551615", false, false),
    ("deliver 18446744073709551616", false, false),
    ("lose 4294967295", true, false),
    ("lose 4294967296", false, false),
    ("repeat 4294967295", true, false),
    ("repeat 4294967296", false, false),
    ("cut 4294967295 4294967295", false, true),
    ("cut 4294967296 0", false, false),
    ("garble 4294967295 0 255", false, true),
    ("garble 4294967296 0 255", false, false),
    ("settle mixed 18446744073709551615", true, true),
    ("settle mixed 18446744073709551616", false, false),
    ("settle mixed +1", false, false),
    ("settle mixed ", false, false),
];

// The text of these lines, with this one in place of its key's.
fn text_with(rt: &impl Abort, alloc: Global, key: &str, line: &str) -> String {
    let mut text = String::from_str(alloc, line).expect(rt, "memory");
    for (other, default) in LINES.iter() {
        if *other != key {
            text.push_str(default).expect(rt, "memory");
        }
    }
    text
}

// The scenario of these lines, with this one in place of its key's.
fn scenario_with(rt: &impl Abort, alloc: Global, key: &str, line: &str) -> Scenario {
    let text = text_with(rt, alloc, key, line);
    read(alloc, text.as_bytes()).expect(rt, "a scenario")
}

// The frames, the members' number and the steps' number that a text gives.
fn counts(alloc: Global, text: &[u8]) -> Result<(u32, usize, usize), ReadRefusal> {
    match read(alloc, text) {
        Ok(scenario) => Ok((
            scenario.frames(),
            scenario.members().len(),
            scenario.step_count(),
        )),
        Err(refusal) => Err(refusal),
    }
}

// The first member.
pub(crate) fn first_member(scenario: &Scenario) -> Option<Name> {
    scenario.members().as_slice().first().copied()
}

// Checks that a text gives these frames, so many members and so many steps.
fn check_counts(rt: &impl Abort, alloc: Global, text: &str, seen: (u32, usize, usize)) {
    assert!(rt; counts(alloc, text.as_bytes()) == Ok(seen), "{text}");
}

// Checks that this is the first thing that is wrong with a text.
fn check_refused(rt: &impl Abort, alloc: Global, text: &str, fault: Fault) {
    assert!(rt;
        counts(alloc, text.as_bytes()) == Err(ReadRefusal::Fault(fault)),
        "{text}"
    );
}

// Checks that with a line in place of its key's this is the first thing that is wrong.
fn check_line_refused(rt: &impl Abort, alloc: Global, key: &str, line: &str, fault: Fault) {
    let text = text_with(rt, alloc, key, line);
    check_refused(rt, alloc, text.as_str(), fault);
}

// Settings of base 4 with three digits.
fn settings(rt: &impl Abort) -> Settings {
    Settings::new(4, 3, 2).expect(rt, "settings")
}

// A name of these settings.
fn name(rt: &impl Abort, text: &str) -> Name {
    read_name(&settings(rt), text.as_bytes()).expect(rt, "a name")
}

// Checks that a text is no step.
fn check_no_step(rt: &impl Abort, carrier: bool, text: &str) {
    assert!(rt;
        read_step(&settings(rt), carrier, text.as_bytes()).is_none(),
        "{text}"
    );
}

// Checks that a text is read as this step.
fn check_reads(rt: &impl Abort, carrier: bool, text: &str, step: Step) {
    assert!(rt;
        read_step(&settings(rt), carrier, text.as_bytes()) == Some(step),
        "{text}"
    );
}

#[test]
fn refuses_steps(rt: HostRuntime) {
    for text in NO_STEPS.iter() {
        check_no_step(&rt, false, text);
    }
}

#[test]
fn refuses_texts(rt: HostRuntime) {
    for (key, line, fault) in REFUSED.iter() {
        check_line_refused(&rt, rt.alloc(), key, line, *fault);
    }
}

#[test]
fn tells_the_first_fault(rt: HostRuntime) {
    let both =
        "base = 99\nframes = 0\ndigits = 3\nwidth = 2\nmembers = []\nsteps = [\"\"]\nmore = 1\n";
    check_refused(&rt, rt.alloc(), both, Fault::BadKey(Key::Unknown));
    assert!(rt; counts(rt.alloc(), b"base = \xff") == Err(ReadRefusal::Fault(Fault::NotUtf8)));
}

#[test]
fn reads_scenarios(rt: HostRuntime) {
    for (text, seen) in TEXTS.iter() {
        check_counts(&rt, rt.alloc(), text, *seen);
    }
    let many_frames =
        "frames = 100001\nbase = 16\ndigits = 9\nwidth = 4\nmembers = [\"012345678\"]\nsteps = []\n";
    check_refused(&rt, rt.alloc(), many_frames, Fault::BadValue(Key::Frames));
}

#[test]
fn reads_observations(rt: HostRuntime) {
    let (object, asker) = (name(&rt, "123"), name(&rt, "000"));
    check_reads(
        &rt,
        false,
        "walk 123 from 000",
        Step::Walk { object, asker },
    );
    check_reads(&rt, false, "root 123", Step::Root { object });
    check_reads(&rt, false, "table 000", Step::Table { name: asker });
    check_reads(&rt, false, "pointers 000", Step::Pointers { name: asker });
}

#[test]
fn reads_starts(rt: HostRuntime) {
    let (object, server) = (name(&rt, "123"), name(&rt, "000"));
    let asker = server;
    check_reads(
        &rt,
        false,
        "publish 123 at 000",
        Step::Publish { object, server },
    );
    check_reads(
        &rt,
        false,
        "withdraw 123 at 000",
        Step::Withdraw { object, server },
    );
    check_reads(
        &rt,
        false,
        "find 123 from 000",
        Step::Find { object, asker },
    );
}

#[test]
fn reads_comings_and_goings(rt: HostRuntime) {
    let (name, via) = (name(&rt, "123"), name(&rt, "000"));
    check_reads(&rt, false, "join 123 via 000", Step::Join { name, via });
    check_reads(&rt, false, "leave 123", Step::Depart { name });
    check_reads(&rt, false, "abandon 123", Step::Abandon { name });
}

// Checks that a text is read as the cast of `hello` to these digits.
fn check_reads_cast(rt: &impl Abort, text: &str, digits: &[u8]) {
    let asker = name(rt, "000");
    let word = Word::of(b"hello").expect(rt, "a word");
    let prefix = Prefix::of(&settings(rt), digits).expect(rt, "a prefix");
    check_reads(
        rt,
        false,
        text,
        Step::Cast {
            word,
            prefix,
            asker,
        },
    );
}

#[test]
fn reads_casts(rt: HostRuntime) {
    check_reads_cast(&rt, "cast hello to * from 000", &[]);
    check_reads_cast(&rt, "cast hello to 2 from 000", &[2]);
}

#[test]
fn reads_deliveries(rt: HostRuntime) {
    let (place, bytes) = (0, 3);
    check_reads(
        &rt,
        false,
        "deliver 4294967295",
        Step::Deliver { place: u32::MAX },
    );
    check_reads(
        &rt,
        false,
        "garble 0 10 255",
        Step::Garble {
            place,
            at: 10,
            byte: 255,
        },
    );
    check_reads(&rt, false, "cut 0 3", Step::Cut { place, bytes });
}

#[test]
fn reads_settles(rt: HostRuntime) {
    check_reads(&rt, false, "settle", Step::Settle);
    check_reads(&rt, false, "settle newest", Step::SettleNewest);
    check_reads(
        &rt,
        false,
        "settle mixed 18446744073709551615",
        Step::SettleMixed { seed: u64::MAX },
    );
    check_reads(&rt, false, "settle mixed 0", Step::SettleMixed { seed: 0 });
}

#[test]
fn reads_packets(rt: HostRuntime) {
    check_reads(&rt, true, "deliver 1", Step::Deliver { place: 1 });
    check_reads(&rt, true, "tick", Step::Tick);
    check_reads(&rt, true, "lose 0", Step::Lose { place: 0 });
    check_reads(&rt, true, "repeat 7", Step::Repeat { place: 7 });
    check_no_step(&rt, true, "garble 0 0 0");
    check_no_step(&rt, true, "cut 0 3");
}

#[test]
fn reads_numbers_up_to_their_limits(rt: HostRuntime) {
    for (word, most, number) in NUMBERS.iter() {
        assert!(rt; read_number(word.as_bytes(), *most) == *number, "{word}");
    }
}

// Checks whether a text is a step, in a carried scenario or in any other.
fn check_is_step(rt: &impl Abort, carrier: bool, text: &str, is_step: bool) {
    assert!(rt;
        read_step(&settings(rt), carrier, text.as_bytes()).is_some() == is_step,
        "{text}"
    );
}

#[test]
fn reads_places_and_seeds_up_to_their_limits(rt: HostRuntime) {
    for (text, carried, plain) in PLACES.iter() {
        check_is_step(&rt, true, text, *carried);
        check_is_step(&rt, false, text, *plain);
    }
}

#[test]
fn reads_root_sets(rt: HostRuntime) {
    let settings = Settings::new(16, 40, 2).expect(&rt, "settings");
    let object = read_name(&settings, b"da39a3ee5e6b4b0d3255bfef95601890afd80709").expect(
        &rt, "a name",
    );
    let text =
        b"rootset da39a3ee5e6b4b0d3255bfef95601890afd80709 from da39a3ee5e6b4b0d3255bfef95601890afd80709";
    let asker = object;
    assert!(rt; read_step(&settings, false, text) == Some(Step::RootSet { object, asker }));
    let shorter = Settings::new(16, 39, 2).expect(&rt, "settings");
    assert!(rt; read_step(&shorter, false, text).is_none());
}

#[test]
fn reads_a_scenario_with_a_root_set(rt: HostRuntime) {
    let text =
        "base = 16\ndigits = 40\nwidth = 2\nmembers = [\"da39a3ee5e6b4b0d3255bfef95601890afd80709\"]\nsteps = [\"rootset da39a3ee5e6b4b0d3255bfef95601890afd80709 from da39a3ee5e6b4b0d3255bfef95601890afd80709\"]\n";
    check_counts(&rt, rt.alloc(), text, (100_000, 1, 1));
}

#[test]
fn makes_words(rt: HostRuntime) {
    let longest = b"abcdefghijklmnopqrstuvwxyz012345".as_slice();
    assert!(rt; Word::of(longest).expect(&rt, "a word").as_slice() == longest);
    assert!(rt; Word::of(b"").is_none());
    assert!(rt; Word::of(b"two words").is_none());
}

#[test]
fn makes_prefixes(rt: HostRuntime) {
    let settings = settings(&rt);
    assert!(rt; Prefix::of(&settings, &[]).expect(&rt, "a prefix").len() == 0);
    assert!(rt; Prefix::of(&settings, &[1, 2]) == Prefix::read(&settings, b"12"));
    let prefix = Prefix::read(&settings, b"123").expect(&rt, "a prefix");
    assert!(rt; prefix.digits().as_slice() == [1, 2, 3].as_slice());
    assert!(rt; Prefix::read(&settings, b"").is_none());
    assert!(rt; Prefix::of(&settings, &[1, 2, 3, 0]).is_none());
    assert!(rt; Prefix::of(&settings, &[4]).is_none());
}

// Checks what the scenario of one walk tells.
fn check_walk(rt: &impl Abort, scenario: &Scenario) {
    let (object, asker) = (name(rt, "123"), name(rt, "000"));
    assert!(rt; scenario.settings() == settings(rt));
    assert!(rt; scenario.frames() == 500_000);
    assert!(rt; !scenario.carrier());
    assert!(rt; first_member(scenario) == Some(asker));
    assert!(rt; scenario.step_count() == 1);
    assert!(rt; scenario.step_at(0) == Step::Walk { object, asker });
}

#[test]
fn tells_what_it_read(rt: HostRuntime) {
    let scenario = scenario_with(&rt, rt.alloc(), "frames", "frames = 500000\n");
    check_walk(&rt, &scenario);
}

// Checks what the scenario of a delivery and a settle tells.
fn check_delivery(rt: &impl Abort, made: &Scenario) {
    assert!(rt; made.frames() == 9);
    assert!(rt; !made.carrier());
    assert!(rt; made.members().len() == 5);
    assert!(rt; made.step_count() == 2);
    assert!(rt; made.step_at(0) == Step::Deliver { place: 3 });
}

#[test]
fn makes_a_scenario(rt: HostRuntime) {
    let scenario = scenario_with(&rt, rt.alloc(), "frames", "frames = 9\n");
    let made = Scenario::of(
        rt.alloc(),
        &scenario.settings(),
        scenario.frames(),
        false,
        scenario.members(),
        &[Step::Deliver { place: 3 }, Step::Settle],
    )
    .expect(&rt, "memory");
    check_delivery(&rt, &made);
}

// A scenario that packets carry has ticks.
#[test]
fn makes_a_carried_scenario(rt: HostRuntime) {
    let scenario = scenario_with(&rt, rt.alloc(), "frames", "frames = 9\n");
    let made = Scenario::of(
        rt.alloc(),
        &scenario.settings(),
        scenario.frames(),
        true,
        scenario.members(),
        &[Step::Deliver { place: 3 }, Step::Tick],
    )
    .expect(&rt, "memory");
    assert!(rt; made.carrier());
    assert!(rt; made.step_at(1) == Step::Tick);
}

// A scenario that says that it isn't carried is the one that says nothing of it.
#[test]
fn takes_no_carrier(rt: HostRuntime) {
    let text = text_with(&rt, rt.alloc(), "carrier", "carrier = false\n");
    check_counts(&rt, rt.alloc(), text.as_str(), (200_000, 5, 1));
    let scenario = read(rt.alloc(), text.as_bytes()).expect(&rt, "a scenario");
    assert!(rt; !scenario.carrier());
}

// A scenario's text with the 64 names and these after them.
fn text_of_members(rt: &impl Abort, alloc: Global, more: &str) -> String {
    format!(in alloc;
        "base = 16\ndigits = 2\nwidth = 1\nsteps = []\nmembers = [{SIXTY_FOUR}, {more}]\n"
    ).expect(rt, "memory")
}

#[test]
fn keeps_to_the_most_members(rt: HostRuntime) {
    let most = text_of_members(&rt, rt.alloc(), "");
    check_counts(&rt, rt.alloc(), most.as_str(), (200_000, 64, 0));
    let more = text_of_members(&rt, rt.alloc(), "\"40\"");
    check_refused(
        &rt,
        rt.alloc(),
        more.as_str(),
        Fault::BadValue(Key::Members),
    );
}

// The text of a scenario of this step and so many others, which are all one.
fn text_of_steps(rt: &impl Abort, alloc: Global, first: &str, others: usize) -> String {
    let rest = "\"root 000\", ".repeat(alloc, others).expect(rt, "memory");
    let line = format!(in alloc; "steps = [\"{first}\", {rest}]\n").expect(rt, "memory");
    text_with(rt, alloc, "steps", line.as_str())
}

// Checks that the scenario of this step and of 10,000 others isn't read.
fn check_too_many_steps(rt: &impl Abort, alloc: Global, first: &str) {
    let text = text_of_steps(rt, alloc, first, 10_000);
    check_refused(rt, alloc, text.as_str(), Fault::BadValue(Key::Steps));
}

#[test]
fn keeps_to_the_most_steps(rt: HostRuntime) {
    let most = text_of_steps(&rt, rt.alloc(), "root 000", 9_999);
    check_counts(&rt, rt.alloc(), most.as_str(), (200_000, 5, 10_000));
    check_too_many_steps(&rt, rt.alloc(), "root 000");
    check_too_many_steps(&rt, rt.alloc(), "no step");
}

#[test]
fn tells_the_words_of_steps_and_keys(rt: HostRuntime) {
    let (object, asker) = (name(&rt, "123"), name(&rt, "000"));
    let words = Step::Walk { object, asker }.words();
    assert!(rt; words.first == "walk");
    assert!(rt; words.after == WordsAfter::Names(object, "from", asker));
    assert!(rt; Step::Tick.words().after == WordsAfter::Nothing);
    assert!(rt; Key::Frames.text() == "frames");
}

// Checks how a refusal is printed.
fn check_printed(rt: &impl Abort, alloc: Global, refusal: ReadRefusal, text: &str) {
    let printed = refusal.to_string(alloc).expect(rt, "memory");
    assert!(rt; printed.as_str() == text, "{text}");
}

#[test]
fn faults_are_printed(rt: HostRuntime) {
    for (fault, text) in PRINTED.iter() {
        check_printed(&rt, rt.alloc(), ReadRefusal::Fault(*fault), text);
    }
    check_printed(&rt, rt.alloc(), ReadRefusal::NoMemory, "no memory");
}
