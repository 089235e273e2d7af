//! The engine of a world: its nodes and the log, with what the log says of the run at hand. Each call adds one group of records to the
//! log, as the rule of a node and the refusals give it, or says why it adds none.
//!
//! The fields are public, since the crate above states what it keeps by them; only it works with an engine.
#![tactic(auto)]

mod damage;
mod damages;
mod engine;
mod law;
mod lines;
mod observed;
mod observes;
mod pushes;
mod starts;
mod stop;
mod takes;
mod turns;

pub use engine::Engine;
pub use law::{delivery_law, turn_law, world_log_law};
pub use stop::{NoMemory, Stop};
