//! Covers: a core node that hears of a joining node covers it over levels of its table. At the first cover it
//! offers the joiner links, and at each cover it tells the nodes of those levels.
#![tactic(auto)]

mod cover;
mod covers;
mod offer;
mod target;
mod targets;

pub use covers::{Covered, Covers};
pub use tap_table::NoMemory;
pub use target::Target;
