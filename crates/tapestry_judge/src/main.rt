//! Reads the long text of a log from standard input, and decides whether the log is lawful.
#![tactic(auto)]

use std::io;
use std::process::ExitCode;
use tap_io::{StdSink, StdSource};
use tap_judge::JudgeStatus;

// How the program ends if its arguments can't be had: for want of memory, or since one of them isn't UTF-8.
fn unread(error: io::Error) -> JudgeStatus {
    match error.kind() {
        io::ErrorKind::OutOfMemory => JudgeStatus::NoMemory,
        _ => JudgeStatus::Usage,
    }
}

// The words after the program's name, or how the program ends if they can't be had. It writes nothing then.
fn words_of(rt: &HostRuntime) -> Result<Vec<String>, JudgeStatus> {
    let mut words = Vec::new(rt.alloc());
    let arguments = std::env::args(rt).map_err(unread)?;
    for word in arguments.skip(1) {
        words.push(word).map_err(|_| JudgeStatus::NoMemory)?;
    }
    Ok(words)
}

fn main(rt: HostRuntime) -> ExitCode {
    let status = match words_of(&rt) {
        Err(status) => status,
        Ok(words) => {
            let mut source = StdSource::new(rt.stdin());
            let mut sink = StdSink::new(io::writer(&rt));
            tap_judge::judge_run(rt.alloc(), &words, &mut source, &mut sink).status
        }
    };
    ExitCode::from(status.exit_code())
}
