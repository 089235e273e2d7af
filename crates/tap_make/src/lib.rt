//! The mixer, and the scenarios that are made from a seed.
#![tactic(auto)]

mod draws;
mod law;
mod making;
mod mixer;
mod names;
mod steps;
mod waves;

pub use law::made_law;
pub use making::make;
pub use mixer::Mixer;
pub use tap_scenario::NoMemory;
