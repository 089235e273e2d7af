use crate::runs::{Ending, Failing, NONE, WORDS, check_run};
use std::alloc::Global;
use std::process::Abort;
use tap_host::HostStatus;

// Words of no node: none, one without a value, too many, one out of its range, a name with a digit too many.
const OTHERS: [&[&str]; 5] = [
    &[],
    &["--base", "2", "--digits", "2", "--width", "1", "--name"],
    &[
        "--base", "2", "--digits", "2", "--width", "1", "--name", "00", "01",
    ],
    &[
        "--base", "17", "--digits", "2", "--width", "1", "--name", "00",
    ],
    &[
        "--base", "2", "--digits", "2", "--width", "1", "--name", "000",
    ],
];

#[test]
fn other_words_are_refused_and_nothing_is_read(rt: HostRuntime) {
    // The first read would fail.
    let failing = Failing { read: 1, write: 1 };
    let ending = Ending {
        status: HostStatus::Usage,
        output: "",
    };
    for words in OTHERS.iter() {
        check_run(&rt, rt.alloc(), words, b"tick\n", failing, ending);
    }
}

// So many letters, and then this.
fn check_letters(rt: &impl Abort, alloc: Global, count: usize, rest: &str, ending: Ending) {
    let mut input = vec![in alloc; b'a'; count].expect(rt, "memory");
    input
        .extend_from_slice(rest.as_bytes())
        .expect(rt, "memory");
    check_run(rt, alloc, &WORDS, input.as_slice(), NONE, ending);
}

#[test]
fn a_line_has_at_most_so_many_bytes(rt: HostRuntime) {
    let cases = [
        (32_768, "\n", HostStatus::Done, "refused 1 line\n"),
        (32_768, "", HostStatus::Cut, ""),
        (32_769, "\n", HostStatus::TooLong, ""),
        (32_769, "", HostStatus::TooLong, ""),
    ];
    for (count, rest, status, output) in cases.iter() {
        let ending = Ending {
            status: *status,
            output: *output,
        };
        check_letters(&rt, rt.alloc(), *count, rest, ending);
    }
}

// A status has this exit code.
fn check_code(rt: &impl Abort, status: HostStatus, code: u8) {
    assert!(rt; status.exit_code() == code, "{code}");
}

#[test]
fn each_status_has_its_exit_code(rt: HostRuntime) {
    let cases = [
        (HostStatus::Done, 0u8),
        (HostStatus::ReadFault, 1),
        (HostStatus::Usage, 2),
        (HostStatus::TooLong, 3),
        (HostStatus::Cut, 3),
        (HostStatus::WriteFault, 4),
        (HostStatus::NoRoom, 5),
        (HostStatus::NoMemory, 6),
    ];
    for (status, code) in cases.iter() {
        check_code(&rt, *status, *code);
    }
}
