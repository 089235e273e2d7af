//! The course of a run, as definitions, and laws over it: the system of nodes that a log has come to, and the group of records that
//! each step and each frame that is taken adds.
//!
//! No code is here. A log is the course of a run exactly if each of its groups is one that may follow, as `specs/Course.antt` says; each
//! function states what holds of courses.
#![tactic(auto)]

mod law;

pub use law::{course_law, frames_law, nodes_law, same_course_law};
