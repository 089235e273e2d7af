//! Reads a scenario from standard input, runs it on an overlay, and prints what it did.
#![tactic(auto)]

use std::io;
use std::process::ExitCode;
use tap_io::{StdSink, StdSource};
use tap_top::Status;

// How the program ends if its arguments can't be had: for want of memory, or since one of them isn't UTF-8.
fn unread(error: io::Error) -> Status {
    match error.kind() {
        io::ErrorKind::OutOfMemory => Status::NoMemory,
        _ => Status::Usage,
    }
}

// The words after the program's name, or how the program ends if they can't be had. It writes nothing then.
fn words_of(rt: &HostRuntime) -> Result<Vec<String>, Status> {
    let mut words = Vec::new(rt.alloc());
    let arguments = std::env::args(rt).map_err(unread)?;
    for word in arguments.skip(1) {
        words.push(word).map_err(|_| Status::NoMemory)?;
    }
    Ok(words)
}

fn main(rt: HostRuntime) -> ExitCode {
    let status = match words_of(&rt) {
        Err(status) => status,
        Ok(words) => {
            let mut source = StdSource::new(rt.stdin());
            let mut sink = StdSink::new(io::writer(&rt));
            let ended = tap_top::run(rt.alloc(), &words, &mut source, &mut sink);
            let status = ended.status;
            // The memory of the world ends with the process, so nothing of it is given back piece by piece.
            std::mem::forget(ended);
            status
        }
    };
    ExitCode::from(status.exit_code())
}
