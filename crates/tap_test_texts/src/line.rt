use std::alloc::Global;
use std::process::Abort;
use tap_line::{Line, LineFault, read_begin, read_line};
use tap_log::Record;
use tap_name::Settings;

// A line of each kind, and lines of the greatest numbers.
const LINES: [&str; 48] = [
    "begin base 16 digits 2 width 2 frames 7",
    "member 0a",
    "step 1 join 0a via 1b",
    "step 2 settle",
    "sent 0 heard 0a 1b 01040004000a010b00000001",
    "taken 3",
    "taken 4294967295",
    "core 0a",
    "gone 0a",
    "walked 0c from 0a path 0a 1b root 1b hops 1",
    "rooted 0c at 0a",
    "asked 1 0c from 0a",
    "answered 1 server 0a",
    "answered 1 none",
    "published 0c at 0a",
    "withdrawn 0c at 0a",
    "table 0a core links 2",
    "table 0a core links 18446744073709551615",
    "link 0 f f1 pin",
    "link 255 f f1 pin",
    "pointers 0a count 1",
    "pointers 0a count 18446744073709551615",
    "pointer 0c 0a",
    "refused 1 1 no such node",
    "refused 2 3 departing 0a",
    "refused 3 15 too many packets 9",
    "refused 4 16 not in prefix",
    "spent 10",
    "done 4",
    "garbled 0 short 3",
    "garbled 0 short 18446744073709551615",
    "garbled 0 bad version 255",
    "garbled 0 bad length 65535",
    "garbled 0 bad length 9",
    "garbled 0 trailing 9",
    "abandoned 0a",
    "carrier",
    "packet 0 data 1",
    "packet 1 ack 1",
    "arrived 0",
    "ticked",
    "lost 0",
    "rootset 0c from 0a roots 0a 0b 0c 0d",
    "cast 1 hi level 0 from 0a",
    "cast 1 hi level 255 from 0a",
    "reached 1 0a",
    "closed 1",
    "tapestry: no memory",
];

// Texts that are nearly lines.
const OTHERS: [&str; 31] = [
    "",
    "taken 03",
    "taken ",
    "taken +1",
    "taken 4294967296",
    "taken  3",
    "taken 3 ",
    " taken 3",
    "sent 0 heard 0a 1b 01040004000A010B00000001",
    "sent 0 heard 0a 1b 01040004000a010b0000000",
    "sent 0 ack 0a 1b 01040004000a010b00000001",
    "sent 0 heard 0a 0a 01040004000a010b00000001",
    "walked 0c from 0a path 0a 1b root 1b hops 2",
    "walked 0c from 0a path root 0a hops 0",
    "walked 0c from 1b path 0a 1b root 1b hops 1",
    "rootset 0c from 0a roots 0a 0b 0c 0d 0e",
    "rootset 0c from 0a roots 0a 0b 0c",
    "refused 1 2 no such node",
    "table 0a core links 18446744073709551616",
    "link 256 f f1 pin",
    "cast 1 Hi level 0 from 0a",
    "cast 1 hi level 256 from 0a",
    "garbled 0 bad version 256",
    "garbled 0 bad kind 256",
    "garbled 0 bad count 256",
    "garbled 0 bad length 65536",
    "garbled 0 short 18446744073709551616",
    "pointers 0a count 18446744073709551616",
    "step 1 tick",
    "begin base 17 digits 2 width 2 frames 7",
    "tapestry: no memory\n",
];

// The line that a text is.
fn read(rt: &impl Abort, alloc: Global, text: &str) -> Result<Line, LineFault> {
    let settings = Settings::new(16, 2, 2).expect(rt, "settings");
    read_line(alloc, &settings, false, text.as_bytes())
}

// Checks that a text is a line.
fn check_line(rt: &impl Abort, alloc: Global, text: &str) {
    assert!(rt; read(rt, alloc, text).is_ok(), "{text}");
}

// Checks that a text is no line.
fn check_no_line(rt: &impl Abort, alloc: Global, text: &str) {
    assert!(rt; read(rt, alloc, text) == Err(LineFault::NoLine), "{text}");
}

#[test]
fn reads_a_line_of_each_kind(rt: HostRuntime) {
    for text in LINES.iter() {
        check_line(&rt, rt.alloc(), text);
    }
}

#[test]
fn reads_no_other_line(rt: HostRuntime) {
    for text in OTHERS.iter() {
        check_no_line(&rt, rt.alloc(), text);
    }
}

#[test]
fn reads_what_a_line_says(rt: HostRuntime) {
    let taken = Line::Whole(Record::Taken { number: 3 });
    assert!(rt; read(&rt, rt.alloc(), "taken 3") == Ok(taken));
    assert!(rt; read_begin(b"begin base 16 digits 2 width 2 frames 7").is_some());
    assert!(rt; read_begin(b"member 0a").is_none());
}
