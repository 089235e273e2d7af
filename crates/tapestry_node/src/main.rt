//! Runs one node: reads lines from standard input, after one for its members if a file names them, and prints the lines that each brings. Or it
//! prints help or its version.
#![tactic(auto)]

use std::fs;
use std::io::{self, Read};
use std::process::ExitCode;
use tap_host::HostStatus;
use tap_host_line::{WordsRefusal, members_file, text_asked};
use tap_io::{StdSink, StdSource};

// How the program ends if its arguments can't be had: for want of memory, or since one of them isn't UTF-8.
fn unread_words(error: io::Error) -> HostStatus {
    match error.kind() {
        io::ErrorKind::OutOfMemory => HostStatus::NoMemory,
        _ => HostStatus::Usage,
    }
}

// How the program ends if the file of members can't be read.
fn unread_file(error: io::Error) -> HostStatus {
    match error.kind() {
        io::ErrorKind::OutOfMemory => HostStatus::NoMemory,
        _ => HostStatus::ReadFault,
    }
}

// How the program ends if its words are refused.
fn refused(refusal: WordsRefusal) -> HostStatus {
    match refusal {
        WordsRefusal::Usage => HostStatus::Usage,
        WordsRefusal::NoMemory => HostStatus::NoMemory,
    }
}

// The words after the program's name, or how the program ends if they can't be had. It writes nothing then.
fn words_of(rt: &HostRuntime) -> Result<Vec<String>, HostStatus> {
    let mut words = Vec::new(rt.alloc());
    let arguments = std::env::args(rt).map_err(unread_words)?;
    for word in arguments.skip(1) {
        words.push(word).map_err(|_| HostStatus::NoMemory)?;
    }
    Ok(words)
}

// The line `members A B ..` of the names in a file, which have spaces, tabs or line ends between them.
fn members_line(rt: &HostRuntime, file: &str) -> Result<Vec<u8>, HostStatus> {
    let names = fs::read(rt, file).map_err(unread_file)?;
    let mut line = Vec::new(rt.alloc());
    line.extend_from_slice(b"members")
        .map_err(|_| HostStatus::NoMemory)?;
    for name in names.split(|byte| byte.is_ascii_whitespace()) {
        if !name.is_empty() {
            line.push(b' ').map_err(|_| HostStatus::NoMemory)?;
            line.extend_from_slice(name)
                .map_err(|_| HostStatus::NoMemory)?;
        }
    }
    line.push(b'\n').map_err(|_| HostStatus::NoMemory)?;
    Ok(line)
}

// What is read before standard input: a line for the members, if the words name their file.
fn first_line(rt: &HostRuntime, words: &[String]) -> Result<Vec<u8>, HostStatus> {
    match members_file(rt.alloc(), words).map_err(refused)? {
        Some(file) => members_line(rt, file),
        None => Ok(Vec::new(rt.alloc())),
    }
}

// Prints help or the version if the words ask for it, and says whether they do.
fn print_text(rt: &HostRuntime, words: &[String]) -> Result<bool, HostStatus> {
    let Some(text) = text_asked(rt.alloc(), words).map_err(|_| HostStatus::NoMemory)? else {
        return Ok(false);
    };
    text.print(rt).map_err(|_| HostStatus::WriteFault)?;
    Ok(true)
}

// Runs the node to its end, or says why it doesn't begin.
fn run(rt: &HostRuntime) -> Result<HostStatus, HostStatus> {
    let words = words_of(rt)?;
    if print_text(rt, words.as_slice())? {
        return Ok(HostStatus::Done);
    }
    let first = first_line(rt, words.as_slice())?;
    let mut source = StdSource::new(first.as_slice().chain(rt.stdin()));
    let mut sink = StdSink::new(io::writer(rt));
    Ok(tap_host::run_node(rt.alloc(), &words, &mut source, &mut sink))
}

fn main(rt: HostRuntime) -> ExitCode {
    let status = match run(&rt) {
        Ok(status) => status,
        Err(status) => status,
    };
    ExitCode::from(status.exit_code())
}
