//! Logs from elsewhere, as definitions, and laws over them: a lawful log is one of the scenario that it tells of itself, what begins a
//! lawful log, and where a log may stop.
//!
//! No code is here. A judge compares a log with the runs of its own scenario, `specs/Own.antt`; each function states what it may then say.
#![tactic(auto)]

mod law;

pub use law::{judging_law, own_script_law, stop_law};
