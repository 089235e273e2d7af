//! A node that leaves: what it keeps, and what it does at each frame, at its start and at its end, as the rule of a node says.
#![tactic(auto)]

mod leaving_node;

pub use leaving_node::LeavingNode;
