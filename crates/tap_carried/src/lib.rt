//! Logs of runs, carried or not, and their reduced logs, as definitions, and laws over them: that both agree, and that the reduced log is the
//! course of a run.
//!
//! No code is here. A group of a log is a turn, as `specs/LogTurns.antt` says, and of what becomes of it in the reduced log alone it depends
//! whether it may follow; each function states what holds then.
#![tactic(auto)]

mod law;

pub use law::{agreement_law, carrier_turns_law, lost_moments_law, reduction_law};
