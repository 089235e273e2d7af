//! The world of a run: its nodes, the frames that are outstanding, and the log. Each call adds one group of records to the log, as
//! the rule of a node and the refusals give it, or says why it adds none.
#![tactic(auto)]

mod world;

pub use tap_engine::{NoMemory, Stop};
pub use world::World;
