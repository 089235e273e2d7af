//! A node that joins and what becomes of it: what it does at a Hello, how it becomes a core node, which
//! seekers a core node sends on, and how a join ends that was given up.
#![tactic(auto)]

mod core_node;
mod hello;
mod joining;
mod sought;

pub use core_node::Core;
pub use joining::Joining;
pub use sought::Sought;
pub use tap_table::NoMemory;
