//! The world of a carried run, with the carrier of its frames. Each call adds the group of records that comes next in the run of a scenario.
#![tactic(auto)]

mod arrivals;
mod carried;
mod root_sets;
mod steps;
mod ticks;

pub use carried::CarriedWorld;
