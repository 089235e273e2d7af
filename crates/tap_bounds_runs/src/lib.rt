//! How many frames a run sends, in the words of its log.
//!
//! No code is here. Each function states what holds of each run.
#![tactic(auto)]

mod law;

pub use law::{
    at_rest_frames_law, enough_frames_law, few_frames_law, join_frames_law, known_frames_law,
};
