use crate::texts::WHOLE;
use std::alloc::Global;
use std::process::Abort;
use tap_judge::{Verdict, judge};
use tap_shape::read_log;

// What is said of the log of a text, which is short.
fn verdict_on(rt: &impl Abort, alloc: Global, text: &str) -> Verdict {
    assert!(rt; text.len() < 1_000);
    let log = read_log(alloc, text.as_bytes()).expect(rt, "a log");
    assert!(rt; log.len() < 100);
    judge(alloc, &log)
}

// A log that is a run's but for its end, which has one step too many.
const ONE_STEP_TOO_MANY: &str = "begin base 2 digits 1 width 1 frames 200000
member 0
step 1 table 0
table 0 core links 0
step 2 settle
done 3
";

#[test]
fn a_log_is_judged_record_by_record(rt: HostRuntime) {
    assert!(rt; verdict_on(&rt, rt.alloc(), WHOLE) == Verdict::Lawful);
    assert!(rt; verdict_on(&rt, rt.alloc(), ONE_STEP_TOO_MANY) == Verdict::Unlawful(5));
}
