use crate::outcome::{NONE, PRINTED, check_run, end_of, ended_by, with_line};
use std::alloc::Global;
use std::process::Abort;
use tap_io::{MemorySink, MemorySource};
use tap_top::Status;

// What is printed of a join, and of the two tables after it.
const JOINED: &str = "begin base 2 digits 2 width 1 frames 200000
member 00
step 1 join 01 via 00
sent 0 seek 01 00 01010002000100000001
step 2 settle
taken 0
sent 1 link 00 01 01080005000000010000000101
sent 2 hello 00 01 01030005000000010000000101
taken 1
taken 2
sent 3 link 01 00 01080005000100000000000101
sent 4 heard 01 00 010400040001000000000001
taken 3
sent 5 release 00 01 0107000000000001
taken 4
sent 6 done 00 01 0106000000000001
taken 5
taken 6
core 01
sent 7 release 01 00 0107000000010000
taken 7
step 3 table 00
table 00 core links 1
link 1 1 01 settled
step 4 table 01
table 01 core links 1
link 1 0 00 settled
done 4
";

// What is printed of it if only one frame may be sent.
const SPENT: &str = "begin base 2 digits 2 width 1 frames 1
member 00
step 1 join 01 via 00
sent 0 seek 01 00 01010002000100000001
step 2 settle
spent 1
";

// A text, how many records its run has, what it prints, and what it prints in brief.
type Accepted = (usize, &'static str, &'static str, &'static str);

const ACCEPTED: [Accepted; 7] = [
    (
        4,
        "base = 4\ndigits = 3\nwidth = 2\nmembers = [\"000\", \"012\"]\nsteps = [\"walk 333 from 012\"]\n",
        "begin base 4 digits 3 width 2 frames 200000\nmember 000\nmember 012\nstep 1 walk 333 from 012\nwalked 333 from 012 path 012 000 root 000 hops 1\ndone 1\n",
        "begin base 4 digits 3 width 2 frames 200000\nwalked 333 from 012 path 012 000 root 000 hops 1\ndone 1\n",
    ),
    (
        4,
        "base = 16\ndigits = 4\nwidth = 2\nmembers = [\"beef\"]\nsteps = [\"walk 0000 from beef\"]\n",
        "begin base 16 digits 4 width 2 frames 200000\nmember beef\nstep 1 walk 0000 from beef\nwalked 0000 from beef path beef root beef hops 0\ndone 1\n",
        "begin base 16 digits 4 width 2 frames 200000\nwalked 0000 from beef path beef root beef hops 0\ndone 1\n",
    ),
    (
        6,
        "base = 2\ndigits = 1\nwidth = 1\nmembers = [\"0\", \"1\"]\nsteps = [\"walk 1 from 0\", \"root 0\"]\n",
        "begin base 2 digits 1 width 1 frames 200000\nmember 0\nmember 1\nstep 1 walk 1 from 0\nwalked 1 from 0 path 0 1 root 1 hops 1\nstep 2 root 0\nrooted 0 at 0\ndone 2\n",
        "begin base 2 digits 1 width 1 frames 200000\nwalked 1 from 0 path 0 1 root 1 hops 1\nrooted 0 at 0\ndone 2\n",
    ),
    (
        4,
        "base = 16\ndigits = 8\nwidth = 2\nmembers = [\"89abcdee\", \"89abcdef\"]\nsteps = [\"walk 00000000 from 89abcdef\"]\n",
        "begin base 16 digits 8 width 2 frames 200000\nmember 89abcdee\nmember 89abcdef\nstep 1 walk 00000000 from 89abcdef\nwalked 00000000 from 89abcdef path 89abcdef 89abcdee root 89abcdee hops 1\ndone 1\n",
        "begin base 16 digits 8 width 2 frames 200000\nwalked 00000000 from 89abcdef path 89abcdef 89abcdee root 89abcdee hops 1\ndone 1\n",
    ),
    (
        2,
        "base = 4\ndigits = 3\nwidth = 2\nmembers = [\"000\"]\nsteps = []\n",
        "begin base 4 digits 3 width 2 frames 200000\nmember 000\ndone 0\n",
        "begin base 4 digits 3 width 2 frames 200000\ndone 0\n",
    ),
    (
        6,
        "base = 4\ndigits = 3\nwidth = 2\nmembers = [\"000\", \"012\"]\nsteps = [\"walk 123 from 111\", \"root 123\"]\n",
        "begin base 4 digits 3 width 2 frames 200000\nmember 000\nmember 012\nstep 1 walk 123 from 111\nrefused 1 1 no such node\nstep 2 root 123\nrooted 123 at 000\ndone 2\n",
        "begin base 4 digits 3 width 2 frames 200000\nrefused 1 1 no such node\nrooted 123 at 000\ndone 2\n",
    ),
    (
        4,
        "base = 4\ndigits = 3\nwidth = 2\nmembers = [\"000\", \"012\", \"230\", \"233\", \"301\"]\nsteps = [\"table 000\"]\n",
        "begin base 4 digits 3 width 2 frames 200000\nmember 000\nmember 012\nmember 230\nmember 233\nmember 301\nstep 1 table 000\ntable 000 core links 4\nlink 0 2 230 settled\nlink 0 2 233 settled\nlink 0 3 301 settled\nlink 1 1 012 settled\ndone 1\n",
        "begin base 4 digits 3 width 2 frames 200000\ntable 000 core links 4\nlink 0 2 230 settled\nlink 0 2 233 settled\nlink 0 3 301 settled\nlink 1 1 012 settled\ndone 1\n",
    ),
];

// The same scenario by other spellings of its base.
const FOURS: [&str; 3] = ["base = 4", "base = 0x4", "base = 0b100 # four"];

const JOIN: &str =
    "base = 2\ndigits = 2\nwidth = 1\nmembers = [\"00\"]\nsteps = [\"join 01 via 00\", \"settle\", \"table 00\", \"table 01\"]\n";

const JOIN_OF_ONE_FRAME: &str =
    "base = 2\ndigits = 2\nwidth = 1\nframes = 1\nmembers = [\"00\"]\nsteps = [\"join 01 via 00\", \"settle\", \"table 00\", \"table 01\"]\n";

// A run of this text with these words is done.
fn check_done(
    rt: &impl Abort,
    alloc: Global,
    words: &[&str],
    text: &str,
    records: usize,
    printed: &str,
) {
    check_run(
        rt,
        alloc,
        words,
        text.as_bytes(),
        NONE,
        ended_by(Status::Done, records),
        printed.as_bytes(),
    );
}

#[test]
fn accepted_texts_run_to_their_end(rt: HostRuntime) {
    for (records, text, printed, brief) in ACCEPTED.iter() {
        check_done(&rt, rt.alloc(), &[], text, *records, printed);
        check_done(&rt, rt.alloc(), &["--brief"], text, *records, brief);
    }
}

// With this line in place of the first one, the walk over five members is the same.
fn check_first_line(rt: &impl Abort, alloc: Global, line: &str) {
    let text = with_line(rt, alloc, 0, line);
    check_done(rt, alloc, &[], text.as_str(), 4, PRINTED);
}

#[test]
fn a_walk_over_five_members(rt: HostRuntime) {
    for line in FOURS.iter() {
        check_first_line(&rt, rt.alloc(), line);
    }
}

// A newcomer joins: each frame is printed as it is sent and taken.
#[test]
fn a_newcomer_joins(rt: HostRuntime) {
    check_done(&rt, rt.alloc(), &[], JOIN, 25, JOINED);
}

// With a limit of one frame the next step of a node would send a second one.
#[test]
fn a_run_is_spent(rt: HostRuntime) {
    check_run(
        &rt,
        rt.alloc(),
        &[],
        JOIN_OF_ONE_FRAME.as_bytes(),
        NONE,
        ended_by(Status::Spent, 5),
        SPENT.as_bytes(),
    );
}

// A scenario that is made by these words is done, and prints this. The source isn't touched: its first read would fail.
fn check_made(rt: &impl Abort, alloc: Global, words: &[&str], text: &[u8], printed: &[u8]) {
    let mut source = MemorySource::new(alloc, text, 16, &[1]).expect(rt, "memory");
    let mut sink = MemorySink::new(alloc, 10, 65536, &[]).expect(rt, "memory");
    let ended = end_of(rt, alloc, words, &mut source, &mut sink);
    assert!(rt; ended.status == Status::Done);
    assert!(rt; sink.bytes() == printed);
}

// A scenario that is made is printed as its summary. Without a seed it is 1.
#[test]
fn a_scenario_is_made(rt: HostRuntime) {
    check_made(
        &rt,
        rt.alloc(),
        &["--make", "1", "--seed", "2"],
        b"no scenario",
        b"nodes 28\nframes 137\nhops 2\nanswered 30\n",
    );
    check_made(
        &rt,
        rt.alloc(),
        &["--make", "1"],
        b"",
        b"nodes 28\nframes 131\nhops 2\nanswered 30\n",
    );
}
