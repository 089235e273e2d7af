//! The slots that a joining node still waits for.
#![tactic(auto)]

mod memory;
mod watch;

pub use memory::NoMemory;
pub use watch::Watch;
