//! Surrogate routing: the one root that each object has among a set of names, and the walk that
//! finds it from node to node, over their tables alone.
#![tactic(auto)]

mod law;
mod memory;
mod root;
mod tables;
mod walk;

pub use law::{members_law, walk_law};
pub use memory::NoMemory;
pub use root::root_of;
pub use tables::Tables;
pub use walk::{Step1, Walk, walk_path};
