//! What a carried log says of its packets, as definitions, and laws over it.
//!
//! No code is here. `specs/` has the groups that a carrier adds to a log, when the boxes of nodes and the net are what a log says, and how many
//! packets a run may make; each function states what holds of these.
#![tactic(auto)]

mod law;

pub use law::{
    acts_law, answers_law, boxes_law, costs_law, ends_law, example_law, groups_law, once_law,
    sequence_law, together_law, ways_law,
};
