//! Casts: a word for all nodes whose names begin with a prefix. A node keeps the level at which it has
//! each cast, and sends it on over the levels at which it hasn't sent it yet.
#![tactic(auto)]

mod casts;
mod target;
mod targets;

pub use casts::{CastTurn, Casts};
pub use tap_table::NoMemory;
pub use target::CastTarget;
