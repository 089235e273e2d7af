//! The boxes of all nodes and the net of a carried run: which frames await their acknowledgement, what has arrived, and which packets are
//! under way. They are what a log says, record by record.
#![tactic(auto)]

mod boxes;
mod inboxes;
mod memory;
mod outboxes;

pub use boxes::Boxes;
pub use memory::NoMemory;
