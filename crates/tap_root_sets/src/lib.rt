//! Root sets: a world is asked for the roots of the four salts of an object, over walks from the node that is asked.
#![tactic(auto)]

mod root_sets;

pub use root_sets::root_set;
