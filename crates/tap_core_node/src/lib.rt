//! A node that takes full part: what it keeps, and what it does at each frame and start, as the rule of a node says.
#![tactic(auto)]

mod casting;
mod core_node;
mod covering;

pub use casting::CastCopy;
pub use core_node::CoreNode;
