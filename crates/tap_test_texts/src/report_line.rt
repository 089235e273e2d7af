use crate::report_checks::{
    ack, arrived, check_line, check_records, check_text, data, log_of, name, names, settings, step,
};
use std::alloc::Global;
use std::process::Abort;
use tap_log::{Bytes, LinkLine, LinkWord, NodeWord, Pair, Record, Refusal};
use tap_name::{List, Name, Settings, Slot};
use tap_report::{Mode, Written};
use tap_scenario::{Step, read_step};
use tap_wire::WireFault;

// Steps, each with whether the scenario is carried.
const STEPS: [(bool, &str); 21] = [
    (false, "join 123 via 000"),
    (false, "leave 123"),
    (false, "publish 123 at 000"),
    (false, "withdraw 123 at 000"),
    (false, "find 123 from 000"),
    (false, "walk 123 from 000"),
    (false, "root 123"),
    (false, "deliver 4294967295"),
    (false, "settle"),
    (false, "settle newest"),
    (false, "settle mixed 18446744073709551615"),
    (false, "table 123"),
    (false, "pointers 123"),
    (false, "garble 1 20 255"),
    (false, "cut 1 20"),
    (false, "abandon 123"),
    (true, "tick"),
    (true, "lose 3"),
    (true, "repeat 3"),
    (false, "cast hello to * from 000"),
    (false, "cast again to 12 from 123"),
];

// Refusals, and how they are printed.
const REFUSALS: [(Refusal, &str); 15] = [
    (Refusal::NoSuchNode, "1 no such node"),
    (Refusal::NotCore, "2 not core"),
    (Refusal::NotAtRest(7), "4 not at rest 7"),
    (Refusal::NameTaken, "5 name taken"),
    (Refusal::TooManyNodes, "6 too many nodes"),
    (Refusal::LastNode, "7 last node"),
    (Refusal::AlreadyPublished, "8 already published"),
    (Refusal::NotPublished, "9 not published"),
    (Refusal::NoSuchFlight(0), "10 no such flight 0"),
    (Refusal::NoSuchByte(10), "11 no such byte 10"),
    (Refusal::Readable, "12 readable"),
    (Refusal::NotJoining, "13 not joining"),
    (Refusal::AlreadyAbandoned, "14 already abandoned"),
    (
        Refusal::TooManyPackets(100_000),
        "15 too many packets 100000",
    ),
    (Refusal::NotInPrefix, "16 not in prefix"),
];

// Faults of damaged copies, and how they are printed.
const FAULTS: [(WireFault, &str); 8] = [
    (WireFault::Short(3), "short 3"),
    (WireFault::BadVersion(9), "bad version 9"),
    (WireFault::BadKind(18), "bad kind 18"),
    (WireFault::BadLength(65_535), "bad length 65535"),
    (WireFault::BadCount(41), "bad count 41"),
    (WireFault::Trailing(1), "trailing 1"),
    (WireFault::BadDigit(4), "bad digit 4"),
    (WireFault::BadBody(9), "bad body 9"),
];

// The codes of the kinds of frames, and how a frame of each is printed.
const FRAMES: [(u8, &str, &str); 17] = [
    (1, "seek", "01010003010203030001010203"),
    (2, "tell", "0102000b0102030300010102030001000000010001"),
    (3, "hello", "010300050102030300010000000101"),
    (4, "heard", "0104000401020303000100000001"),
    (5, "ack", "0105000401020303000100000001"),
    (6, "done", "01060000010203030001"),
    (7, "release", "01070000010203030001"),
    (8, "link", "010800050102030300010000000201"),
    (9, "lay", "0109000c010203030001020202030001010000000101"),
    (10, "find", "010a000b0102030300010000000702020201020301"),
    (11, "answer", "010b00080102030300010000000701030001"),
    (12, "leave", "010c000401020303000101020202"),
    (13, "left", "010d0000010203030001"),
    (14, "gone", "010e0000010203030001"),
    (15, "forget", "010f0000010203030001"),
    (16, "cast", "0110000d01020303000100000001010000000100016869"),
    (17, "castack", "0111000401020303000100000001"),
];

#[test]
fn roots_and_walks_are_printed(rt: HostRuntime) {
    let (alloc, settings) = (rt.alloc(), settings(&rt));
    let object = name(&rt, &settings, "123");
    let root = name(&rt, &settings, "230");
    let path = names(&rt, alloc, &settings, &["000", "230", "233"]);
    let roots = names(&rt, alloc, &settings, &["000", "230", "233", "301"]);
    let rest = vec![in alloc;
        step(1, Step::Root { object }),
        Record::RootOf { object, root },
        Record::Walked { object, path },
        Record::RootsOf {
            object,
            asker: root,
            roots
        },
        Record::Spent { limit: 12 },
        Record::Finished { steps: 1 },
    ]
    .expect(&rt, "memory");
    let brief = "rooted 123 at 230\n\
        walked 123 from 000 path 000 230 233 root 233 hops 2\n\
        rootset 123 from 230 roots 000 230 233 301\nspent 12\ndone 1\n";
    let summary = "nodes 0\nframes 0\nhops 2\nanswered 0\n";
    let texts = ["step 1 root 123\n", brief, summary];
    check_records(&rt, alloc, &settings, rest, texts);
}

#[test]
fn lookups_are_printed(rt: HostRuntime) {
    let (alloc, settings) = (rt.alloc(), settings(&rt));
    let object = name(&rt, &settings, "123");
    let server = name(&rt, &settings, "230");
    let rest = vec![in alloc;
        Record::Published { object, server },
        Record::Withdrawn { object, server },
        Record::Asked {
            ticket: 7,
            object,
            asker: server
        },
        Record::Answered {
            ticket: 7,
            server: Some(server)
        },
        Record::Answered {
            ticket: 8,
            server: None
        },
    ]
    .expect(&rt, "memory");
    let brief = "published 123 at 230\nwithdrawn 123 at 230\nasked 7 123 from 230\n\
        answered 7 server 230\nanswered 8 none\n";
    let summary = "nodes 0\nframes 0\nhops 0\nanswered 1\n";
    check_records(&rt, alloc, &settings, rest, ["", brief, summary]);
}

fn push_link(rt: &impl Abort, links: &mut List<LinkLine>, name: Name, kind: LinkWord) {
    let slot = Slot { level: 1, digit: 3 };
    links
        .push(LinkLine { slot, name, kind })
        .expect(rt, "memory");
}

// A link of each kind to this node, in one slot.
fn links_of_each_kind(rt: &impl Abort, alloc: Global, name: Name) -> List<LinkLine> {
    let mut links = List::new(alloc);
    push_link(rt, &mut links, name, LinkWord::Pin);
    push_link(rt, &mut links, name, LinkWord::Settled);
    push_link(rt, &mut links, name, LinkWord::Leaving);
    links
}

#[test]
fn tables_and_frames_are_printed(rt: HostRuntime) {
    let (alloc, settings) = (rt.alloc(), settings(&rt));
    let name = name(&rt, &settings, "123");
    let links = links_of_each_kind(&rt, alloc, name);
    let mut pairs = List::new(alloc);
    pairs
        .push(Pair {
            object: name,
            server: name,
        })
        .expect(&rt, "memory");
    let bytes = Bytes::copy_of(alloc, &[1, 15, 0, 0, 1, 2, 3, 3, 0, 1]).expect(&rt, "memory");
    let rest = vec![in alloc;
        Record::Sent { number: 4, bytes },
        Record::Taken { number: 4 },
        Record::Core { name },
        Record::TableOf {
            name,
            status: NodeWord::Joining,
            links
        },
        Record::PointersOf { name, pairs },
        Record::Garbled {
            number: 4,
            fault: WireFault::BadDigit(300)
        },
        Record::Abandoned { name },
        Record::Gone { name },
    ]
    .expect(&rt, "memory");
    let brief = "core 123\ntable 123 joining links 3\n\
        link 1 3 123 pin\nlink 1 3 123 settled\nlink 1 3 123 leaving\n\
        pointers 123 count 1\npointer 123 123\n\
        garbled 4 bad digit 300\nabandoned 123\ngone 123\n";
    let detail = "sent 4 forget 123 301 010f0000010203030001\ntaken 4\n";
    let summary = "nodes 1\nframes 1\nhops 0\nanswered 0\n";
    check_records(&rt, alloc, &settings, rest, [detail, brief, summary]);
}

#[test]
fn packets_are_printed(rt: HostRuntime) {
    let (alloc, settings) = (rt.alloc(), settings(&rt));
    let rest = vec![in alloc;
        data(0, 5),
        ack(1, 5),
        arrived(0),
        Record::Ticked,
        Record::Lost { packet: 1 },
        Record::Carrier,
    ]
    .expect(&rt, "memory");
    let detail = "packet 0 data 5\npacket 1 ack 5\narrived 0\nticked\nlost 1\n";
    let summary = "nodes 0\nframes 0\nhops 0\nanswered 0\n";
    check_records(&rt, alloc, &settings, rest, [detail, "carrier\n", summary]);
}

#[test]
fn casts_are_printed(rt: HostRuntime) {
    let (alloc, settings) = (rt.alloc(), settings(&rt));
    let name = name(&rt, &settings, "123");
    let word = Bytes::copy_of(alloc, b"hello").expect(&rt, "memory");
    let rest = vec![in alloc;
        Record::CastFrom {
            cast: 1,
            word,
            level: 0,
            name
        },
        Record::Reached { cast: 1, name },
        Record::Closed { cast: 1 },
    ]
    .expect(&rt, "memory");
    let brief = "cast 1 hello level 0 from 123\nreached 1 123\nclosed 1\n";
    let summary = "nodes 0\nframes 0\nhops 0\nanswered 0\n";
    check_records(&rt, alloc, &settings, rest, ["", brief, summary]);
}

// Checks that a step is printed as it is read.
fn check_step(rt: &impl Abort, alloc: Global, carried: bool, words: &str) {
    let settings = settings(rt);
    let step = read_step(&settings, carried, words.as_bytes()).expect(rt, "a step");
    let line = format!(in alloc; "step 9 {words}").expect(rt, "memory");
    check_line(
        rt,
        alloc,
        &settings,
        Record::Step { index: 9, step },
        line.as_str(),
    );
}

#[test]
fn steps_are_printed_as_they_are_read(rt: HostRuntime) {
    for (carried, words) in STEPS.iter() {
        check_step(&rt, rt.alloc(), *carried, words);
    }
}

// Prints the refusal of a step in each mode.
fn check_refusal(rt: &impl Abort, alloc: Global, refusal: Refusal, words: &str) {
    let line = format!(in alloc; "refused 2 {words}\n").expect(rt, "memory");
    let rest = vec![in alloc; Record::Refused { index: 2, refusal }].expect(rt, "memory");
    let summary = "nodes 0\nframes 0\nhops 0\nanswered 0\n";
    check_records(rt, alloc, &settings(rt), rest, ["", line.as_str(), summary]);
}

#[test]
fn refusals_are_printed(rt: HostRuntime) {
    for (refusal, words) in REFUSALS.iter() {
        check_refusal(&rt, rt.alloc(), *refusal, words);
    }
    let leaver = name(&rt, &settings(&rt), "123");
    check_refusal(
        &rt,
        rt.alloc(),
        Refusal::Departing(leaver),
        "3 departing 123",
    );
}

// Checks how the fault of a damaged copy is printed.
fn check_fault(rt: &impl Abort, alloc: Global, fault: WireFault, words: &str) {
    let line = format!(in alloc; "garbled 5 {words}").expect(rt, "memory");
    check_line(
        rt,
        alloc,
        &settings(rt),
        Record::Garbled { number: 5, fault },
        line.as_str(),
    );
}

#[test]
fn faults_of_damaged_copies_are_printed(rt: HostRuntime) {
    for (fault, words) in FAULTS.iter() {
        check_fault(&rt, rt.alloc(), *fault, words);
    }
}

// A frame of each kind from 123 to 301, by the kind's code.
fn frame_of_kind(code: u8) -> &'static [u8] {
    match code {
        1 => &[1, 1, 0, 3, 1, 2, 3, 3, 0, 1, 1, 2, 3],
        2 => &[
            1, 2, 0, 11, 1, 2, 3, 3, 0, 1, 1, 2, 3, 0, 1, 0, 0, 0, 1, 0, 1,
        ],
        3 => &[1, 3, 0, 5, 1, 2, 3, 3, 0, 1, 0, 0, 0, 1, 1],
        4 => &[1, 4, 0, 4, 1, 2, 3, 3, 0, 1, 0, 0, 0, 1],
        5 => &[1, 5, 0, 4, 1, 2, 3, 3, 0, 1, 0, 0, 0, 1],
        6 => &[1, 6, 0, 0, 1, 2, 3, 3, 0, 1],
        7 => &[1, 7, 0, 0, 1, 2, 3, 3, 0, 1],
        8 => &[1, 8, 0, 5, 1, 2, 3, 3, 0, 1, 0, 0, 0, 2, 1],
        9 => &[
            1, 9, 0, 12, 1, 2, 3, 3, 0, 1, 2, 2, 2, 3, 0, 1, 1, 0, 0, 0, 1, 1,
        ],
        10 => &[
            1, 10, 0, 11, 1, 2, 3, 3, 0, 1, 0, 0, 0, 7, 2, 2, 2, 1, 2, 3, 1,
        ],
        11 => &[1, 11, 0, 8, 1, 2, 3, 3, 0, 1, 0, 0, 0, 7, 1, 3, 0, 1],
        12 => &[1, 12, 0, 4, 1, 2, 3, 3, 0, 1, 1, 2, 2, 2],
        13 => &[1, 13, 0, 0, 1, 2, 3, 3, 0, 1],
        14 => &[1, 14, 0, 0, 1, 2, 3, 3, 0, 1],
        15 => &[1, 15, 0, 0, 1, 2, 3, 3, 0, 1],
        16 => &[
            1, 16, 0, 13, 1, 2, 3, 3, 0, 1, 0, 0, 0, 1, 1, 0, 0, 0, 1, 0, 1, 104, 105,
        ],
        _ => &[1, 17, 0, 4, 1, 2, 3, 3, 0, 1, 0, 0, 0, 1],
    }
}

// Checks how the frame of a kind is printed.
fn check_frame(rt: &impl Abort, alloc: Global, code: u8, word: &str, hex: &str) {
    let bytes = Bytes::copy_of(alloc, frame_of_kind(code)).expect(rt, "memory");
    let line = format!(in alloc; "sent 8 {word} 123 301 {hex}").expect(rt, "memory");
    check_line(
        rt,
        alloc,
        &settings(rt),
        Record::Sent { number: 8, bytes },
        line.as_str(),
    );
}

#[test]
fn frames_of_each_kind_are_printed(rt: HostRuntime) {
    for (code, word, hex) in FRAMES.iter() {
        check_frame(&rt, rt.alloc(), *code, word, hex);
    }
}

// Checks how the table of a node of this status is printed.
fn check_node(rt: &impl Abort, alloc: Global, status: NodeWord, word: &str) {
    let settings = settings(rt);
    let name = name(rt, &settings, "123");
    let links = links_of_each_kind(rt, alloc, name);
    let lines = format!(in alloc;
        "table 123 {word} links 3\nlink 1 3 123 pin\nlink 1 3 123 settled\nlink 1 3 123 leaving"
    ).expect(rt, "memory");
    check_line(
        rt,
        alloc,
        &settings,
        Record::TableOf {
            name,
            status,
            links,
        },
        lines.as_str(),
    );
}

#[test]
fn nodes_of_each_word_are_printed(rt: HostRuntime) {
    check_node(&rt, rt.alloc(), NodeWord::Joining, "joining");
    check_node(&rt, rt.alloc(), NodeWord::Core, "core");
    check_node(&rt, rt.alloc(), NodeWord::Leaving, "leaving");
}

#[test]
fn a_step_of_a_root_set_is_printed(rt: HostRuntime) {
    let alloc = rt.alloc();
    let settings = Settings::new(16, 40, 2).expect(&rt, "settings");
    let words =
        "rootset da39a3ee5e6b4b0d3255bfef95601890afd80709 from 356a192b7913b04c54574d18c28d46e6395428ab";
    let root_set = read_step(&settings, false, words.as_bytes()).expect(&rt, "a step");
    let rest = vec![in alloc; step(9, root_set)].expect(&rt, "memory");
    let log = log_of(&rt, alloc, &settings, &[], rest);
    let text = format!(in alloc;
        "begin base 16 digits 40 width 2 frames 200000\nstep 9 {words}\n"
    ).expect(&rt, "memory");
    check_text(
        &rt,
        alloc,
        Mode::Long,
        &log,
        &[],
        Written::All,
        text.as_str(),
    );
}
