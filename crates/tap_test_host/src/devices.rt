use crate::runs::{Ending, Failing, WORDS, check_run};
use tap_host::HostStatus;

// It comes in two pieces of 16 bytes at most, of which the first one ends within the second line, and a third read finds the end.
const INPUT: &[u8] = b"members 00 01\nmembers 00 01\n";

#[test]
fn a_read_that_fails_is_the_last(rt: HostRuntime) {
    let cases = [
        (1u32, HostStatus::ReadFault, ""),
        (2, HostStatus::ReadFault, "begun\n"),
        (3, HostStatus::ReadFault, "begun\nrefused 2 late\n"),
        (4, HostStatus::Done, "begun\nrefused 2 late\n"),
    ];
    for (read, status, output) in cases.iter() {
        let failing = Failing {
            read: *read,
            write: 0,
        };
        let ending = Ending {
            status: *status,
            output: *output,
        };
        check_run(&rt, rt.alloc(), &WORDS, INPUT, failing, ending);
    }
}

#[test]
fn a_write_that_fails_is_the_last(rt: HostRuntime) {
    let cases = [
        (1u32, HostStatus::WriteFault, ""),
        (2, HostStatus::WriteFault, "begun\n"),
        (3, HostStatus::WriteFault, "begun\nrefused 2 "),
        (4, HostStatus::Done, "begun\nrefused 2 late\n"),
    ];
    for (write, status, output) in cases.iter() {
        let failing = Failing {
            read: 0,
            write: *write,
        };
        let ending = Ending {
            status: *status,
            output: *output,
        };
        check_run(&rt, rt.alloc(), &WORDS, INPUT, failing, ending);
    }
}
