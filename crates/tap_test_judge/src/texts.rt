use std::alloc::Global;
use std::process::Abort;
use tap_io::{MemorySink, MemorySource};
use tap_judge::{JudgeStatus, judge_run};

/// The text of a whole log, of a walk, in nine pieces of 16 bytes and one that is shorter.
pub(crate) const WHOLE: &str = "begin base 4 digits 3 width 2 frames 200000
member 000
member 012
step 1 walk 333 from 012
walked 333 from 012 path 012 000 root 000 hops 1
done 1
";

/// The line that is written of it.
pub(crate) const LINE: &str = "lawful 4 records\n";

// A text that is judged: what it shows, how the call ends, and the line that is written.
#[derive(Clone, Copy)]
struct Case {
    shows: &'static str,
    text: &'static str,
    status: JudgeStatus,
    line: &'static str,
}

// Logs that are lawful.
const LAWFUL: [Case; 5] = [
    Case {
        shows: "a whole log",
        text: WHOLE,
        status: JudgeStatus::Lawful(4),
        line: LINE,
    },
    Case {
        shows: "a log without its end",
        text: "begin base 2 digits 1 width 1 frames 200000
member 0
step 1 table 0
table 0 core links 0
tapestry: no memory
",
        status: JudgeStatus::Lawful(3),
        line: "lawful 3 records\n",
    },
    Case {
        shows: "a log that has begun",
        text: "begin base 2 digits 1 width 1 frames 200000
member 0
",
        status: JudgeStatus::Lawful(1),
        line: "lawful 1 records\n",
    },
    Case {
        shows: "a run that is spent",
        text: "begin base 2 digits 2 width 1 frames 1
member 00
step 1 join 01 via 00
sent 0 seek 01 00 01010002000100000001
step 2 settle
spent 1
",
        status: JudgeStatus::Lawful(5),
        line: "lawful 5 records\n",
    },
    Case {
        shows: "a carried log within a group",
        text: "begin base 2 digits 2 width 1 frames 200000
member 00
carrier
step 1 join 01 via 00
",
        status: JudgeStatus::Lawful(3),
        line: "lawful 3 records\n",
    },
];

// Logs that aren't, and texts that are no log's.
const REFUSED: [Case; 6] = [
    Case {
        shows: "a log that stops within a group",
        text: "begin base 2 digits 2 width 1 frames 200000
member 00
step 1 join 01 via 00
",
        status: JudgeStatus::Unlawful(3),
        line: "unlawful at record 3\n",
    },
    Case {
        shows: "a walk that ends early",
        text: "begin base 4 digits 3 width 2 frames 200000
member 000
member 012
step 1 walk 333 from 012
walked 333 from 012 path 012 root 012 hops 0
done 1
",
        status: JudgeStatus::Unlawful(3),
        line: "unlawful at record 3\n",
    },
    Case {
        shows: "a step after the end",
        text: "begin base 2 digits 1 width 1 frames 200000
member 0
step 1 table 0
table 0 core links 0
done 1
step 2 table 0
table 0 core links 0
done 2
",
        status: JudgeStatus::Unlawful(5),
        line: "unlawful at record 5\n",
    },
    Case {
        shows: "a number of records that is no number of steps",
        text: "begin base 2 digits 1 width 1 frames 200000
member 0
done 1
",
        status: JudgeStatus::Unlawful(2),
        line: "unlawful at record 2\n",
    },
    Case {
        shows: "a member that is no name",
        text: "begin base 2 digits 1 width 1 frames 200000
member 2
",
        status: JudgeStatus::NotLog(2),
        line: "not a log at line 2\n",
    },
    Case {
        shows: "the empty text",
        text: "",
        status: JudgeStatus::NotLog(1),
        line: "not a log at line 1\n",
    },
];

// The log of one join, with all its frames and two tables, and the same changed in one place.
const JOIN: [Case; 4] = [
    Case {
        shows: "the log as it is",
        text: "begin base 2 digits 2 width 1 frames 200000
member 00
step 1 join 01 via 00
sent 0 seek 01 00 01010002000100000001
step 2 settle
taken 0
sent 1 link 00 01 01080005000000010000000101
sent 2 hello 00 01 01030005000000010000000101
taken 1
taken 2
sent 3 link 01 00 01080005000100000000000101
sent 4 heard 01 00 010400040001000000000001
taken 3
sent 5 release 00 01 0107000000000001
taken 4
sent 6 done 00 01 0106000000000001
taken 5
taken 6
core 01
sent 7 release 01 00 0107000000010000
taken 7
step 3 table 00
table 00 core links 1
link 1 1 01 settled
step 4 table 01
table 01 core links 1
link 1 0 00 settled
done 4
",
        status: JudgeStatus::Lawful(25),
        line: "lawful 25 records\n",
    },
    Case {
        shows: "the same, which stops within a group",
        text: "begin base 2 digits 2 width 1 frames 200000
member 00
step 1 join 01 via 00
sent 0 seek 01 00 01010002000100000001
step 2 settle
taken 0
sent 1 link 00 01 01080005000000010000000101
sent 2 hello 00 01 01030005000000010000000101
taken 1
taken 2
sent 3 link 01 00 01080005000100000000000101
sent 4 heard 01 00 010400040001000000000001
taken 3
sent 5 release 00 01 0107000000000001
taken 4
sent 6 done 00 01 0106000000000001
taken 5
taken 6
core 01
",
        status: JudgeStatus::Unlawful(19),
        line: "unlawful at record 19\n",
    },
    Case {
        shows: "the same, in which a wrong frame is taken",
        text: "begin base 2 digits 2 width 1 frames 200000
member 00
step 1 join 01 via 00
sent 0 seek 01 00 01010002000100000001
step 2 settle
taken 0
sent 1 link 00 01 01080005000000010000000101
sent 2 hello 00 01 01030005000000010000000101
taken 1
taken 2
sent 3 link 01 00 01080005000100000000000101
sent 4 heard 01 00 010400040001000000000001
taken 3
sent 5 release 00 01 0107000000000001
taken 5
sent 6 done 00 01 0106000000000001
taken 5
taken 6
core 01
sent 7 release 01 00 0107000000010000
taken 7
step 3 table 00
table 00 core links 1
link 1 1 01 settled
step 4 table 01
table 01 core links 1
link 1 0 00 settled
done 4
",
        status: JudgeStatus::Unlawful(14),
        line: "unlawful at record 14\n",
    },
    Case {
        shows: "the same, in which the member is no name",
        text: "begin base 2 digits 2 width 1 frames 200000
member 02
step 1 join 01 via 00
sent 0 seek 01 00 01010002000100000001
step 2 settle
taken 0
sent 1 link 00 01 01080005000000010000000101
sent 2 hello 00 01 01030005000000010000000101
taken 1
taken 2
sent 3 link 01 00 01080005000100000000000101
sent 4 heard 01 00 010400040001000000000001
taken 3
sent 5 release 00 01 0107000000000001
taken 4
sent 6 done 00 01 0106000000000001
taken 5
taken 6
core 01
sent 7 release 01 00 0107000000010000
taken 7
step 3 table 00
table 00 core links 1
link 1 1 01 settled
step 4 table 01
table 01 core links 1
link 1 0 00 settled
done 4
",
        status: JudgeStatus::NotLog(2),
        line: "not a log at line 2\n",
    },
];

// The text of a case is judged so, and its line is written.
fn check_case(rt: &impl Abort, alloc: Global, case: &Case) {
    let mut source = MemorySource::new(alloc, case.text.as_bytes(), 16, &[]).expect(rt, "memory");
    let mut sink = MemorySink::new(alloc, 10, 64, &[]).expect(rt, "memory");
    let judged = judge_run(alloc, &Vec::new(alloc), &mut source, &mut sink);
    assert!(rt; judged.before == case.status, "{}", case.shows);
    assert!(rt; judged.status == case.status, "{}", case.shows);
    assert!(rt; sink.bytes() == case.line.as_bytes(), "{}", case.shows);
}

#[test]
fn lawful_logs_are_told(rt: HostRuntime) {
    for case in LAWFUL.iter() {
        check_case(&rt, rt.alloc(), case);
    }
}

#[test]
fn others_are_refused(rt: HostRuntime) {
    for case in REFUSED.iter() {
        check_case(&rt, rt.alloc(), case);
    }
}

#[test]
fn the_log_of_a_join_is_told_and_its_changes_are_refused(rt: HostRuntime) {
    for case in JOIN.iter() {
        check_case(&rt, rt.alloc(), case);
    }
}

// A status has this exit code.
fn check_code(rt: &impl Abort, status: JudgeStatus, code: u8) {
    assert!(rt; status.exit_code() == code, "{code}");
}

#[test]
fn each_status_has_its_exit_code(rt: HostRuntime) {
    let cases = [
        (JudgeStatus::Lawful(7), 0u8),
        (JudgeStatus::ReadFault, 1),
        (JudgeStatus::Usage, 2),
        (JudgeStatus::NotLog(7), 3),
        (JudgeStatus::TooLong, 3),
        (JudgeStatus::WriteFault, 4),
        (JudgeStatus::NoMemory, 6),
        (JudgeStatus::Unlawful(7), 7),
    ];
    for (status, code) in cases.iter() {
        check_code(&rt, *status, *code);
    }
}
