//! A log together with what it says of its run, kept at hand.
#![tactic(auto)]

mod counts;
mod flights;
mod ledger;
mod memory;
mod names;
mod pairs;
mod quiet;
mod refusals;
mod roll;
mod steps;

pub use flights::OutstandingFrame;
pub use ledger::Ledger;
