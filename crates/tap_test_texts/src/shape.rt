use std::alloc::Global;
use std::process::Abort;
use tap_log::Record;
use tap_shape::{LogFault, read_log};

// The text of a carried log.
const TEXT: &str =
    "begin base 16 digits 1 width 1 frames 9\nmember a\nmember b\ncarrier\ntable a core links 1\nlink 0 b b settled\ndone 0\n";

// Checks how many records a text has, or by which line it is refused.
fn check_records(rt: &impl Abort, alloc: Global, text: &str, records: Result<usize, LogFault>) {
    let bytes = text.as_bytes();
    assert!(rt; bytes.len() < 1000);
    let counted = match read_log(alloc, bytes) {
        Ok(log) => Ok(log.len()),
        Err(fault) => Err(fault),
    };
    assert!(rt; counted == records, "{text}");
}

// Checks that a text is refused by the line of this number.
fn check_refused(rt: &impl Abort, alloc: Global, text: &str, line: u32) {
    check_records(rt, alloc, text, Err(LogFault::NotLog(line)));
}

#[test]
fn a_log_is_read(rt: HostRuntime) {
    let bytes = TEXT.as_bytes();
    assert!(rt; bytes.len() < 1000);
    let log = read_log(rt.alloc(), bytes).expect(&rt, "a log");
    assert!(rt;
        matches!(
            log.as_slice(),
            [
                Record::Begin { frames: 9, .. },
                Record::Carrier,
                Record::TableOf { .. },
                Record::Finished { steps: 0 }
            ]
        )
    );
    assert!(rt; log.len() == 4);
}

#[test]
fn the_first_bad_line_is_named(rt: HostRuntime) {
    check_refused(&rt, rt.alloc(), "", 1);
    check_refused(&rt, rt.alloc(), "carrier\n", 1);
    let twice = "begin base 2 digits 1 width 1 frames 1\nmember 1\nmember 1\ndone 0\n";
    check_refused(&rt, rt.alloc(), twice, 3);
    let short = "begin base 2 digits 1 width 1 frames 1\nmember 1\ntable 1 core links 1\ndone 0\n";
    check_refused(&rt, rt.alloc(), short, 4);
}

#[test]
fn what_ends_too_early_has_the_line_after_its_last(rt: HostRuntime) {
    let first = "begin base 2 digits 1 width 1 frames 1\n";
    check_refused(&rt, rt.alloc(), first, 2);
    let rest = "begin base 2 digits 1 width 1 frames 1\nmember 1\ndone 0";
    check_refused(&rt, rt.alloc(), rest, 3);
}

#[test]
fn the_line_of_want_of_memory_is_the_last(rt: HostRuntime) {
    let last = "begin base 2 digits 1 width 1 frames 1\nmember 1\ntapestry: no memory\n";
    check_records(&rt, rt.alloc(), last, Ok(1));
    let more = "begin base 2 digits 1 width 1 frames 1\nmember 1\ntapestry: no memory\ndone 0\n";
    check_refused(&rt, rt.alloc(), more, 4);
}
