//! A node that joins: what it keeps, and what it does at each frame and start, as the rule of a node says.
#![tactic(auto)]

mod joining_node;

pub use joining_node::{Joined, JoiningNode};
