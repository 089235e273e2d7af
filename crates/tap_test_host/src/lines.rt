use crate::runs::{Ending, NONE, WORDS, check_run};
use tap_host::HostStatus;

// Lines that the node 00 takes, one after the other, and all that they bring.
#[derive(Clone, Copy)]
struct Case {
    lines: &'static str,
    brings: &'static str,
}

// Bytes that are no frame; and a frame that comes twice, once in capital letters: a lookup by 01, which is answered once.
const TWICE: Case = Case {
    lines: "members 00 01
packet 01 1 010a0009000100000000000700000001ff
packet 01 1 010a000900010000000000070000000101
packet 01 1 010A000900010000000000070000000101
",
    brings: "begun
refused 2 damaged
ack 01 1
packet 01 1 010b0005000000010000000700
ack 01 1
",
};

// A frame from another node than the line says; one for another node; a Seek of 00 itself; half a byte; and a number that is none.
const REFUSED: Case = Case {
    lines: "members 00 01
packet 10 1 010a000900010000000000070000000101
packet 01 1 010a000900010001000000070000000101
packet 01 1 01010002000100000000
packet 01 1 0101000200010000000
packet 01 0 01010002000100000000
",
    brings: "begun
refused 2 foreign
refused 3 foreign
refused 4 strange
refused 5 line
refused 6 line
",
};

// There are no members without a name; they come before all else; and a line has one space between each two words.
const LATE: Case = Case {
    lines: "members
members 01
join 01
members 00 01
publish 01

tick
tick 
",
    brings: "refused 1 line
refused 2 stranger
begun
packet 01 1 01010002000000010000
refused 4 late
refused 5 status
refused 6 line
packet 01 1 01010002000000010000
refused 8 line
",
};

#[test]
fn each_line_is_taken_once(rt: HostRuntime) {
    for case in [TWICE, REFUSED, LATE].iter() {
        let ending = Ending {
            status: HostStatus::Done,
            output: case.brings,
        };
        check_run(&rt, rt.alloc(), &WORDS, case.lines.as_bytes(), NONE, ending);
    }
}

#[test]
fn what_has_no_end_is_no_line(rt: HostRuntime) {
    let ending = Ending {
        status: HostStatus::Cut,
        output: "begun\n",
    };
    check_run(
        &rt,
        rt.alloc(),
        &WORDS,
        b"members 00 01\nmembers 00 01",
        NONE,
        ending,
    );
}
