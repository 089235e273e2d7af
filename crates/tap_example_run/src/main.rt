//! A program that embeds the overlay: it runs a scenario from a source of its own into a sink of its own, and then prints
//! what it has collected.
#![tactic(auto)]

mod collected;
mod text;

use collected::Collected;
use std::io::{self, Write};
use std::process::ExitCode;
use tap_top::Status;
use text::Text;

// Two walks to one object meet at its root.
const SCENARIO: &[u8] = b"base = 4\n\
digits = 3\n\
width = 2\n\
members = ['000', '012', '230', '233', '301']\n\
steps = ['walk 123 from 000', 'walk 123 from 301', 'table 230']\n";

fn main(rt: HostRuntime) -> ExitCode {
    let words = Vec::new(rt.alloc());
    let mut source = Text::new(SCENARIO);
    let mut sink = Collected::new(rt.alloc());
    let ended = tap_top::run(rt.alloc(), &words, &mut source, &mut sink);
    let printed = io::writer(&rt).write_all(sink.as_slice());
    match (ended.status, printed) {
        (Status::Done, Ok(())) => ExitCode::SUCCESS,
        _ => ExitCode::FAILURE,
    }
}
