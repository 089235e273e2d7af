//! Object pointers at each moment of a run, in the words of its log: they stand, those that are published are served, and at rest they stand
//! exactly on their paths. And lookups: where they go, that each is answered once, whom their answers name, when an answer names nobody, and
//! that one made alone from a rest is answered exactly.
//!
//! No code is here. Each function states what holds of the course of a run.
#![tactic(auto)]

mod law;

pub use law::{
    alone_law, answered_once_law, answers_law, known_pairs_law, lawful_paths_law, no_server_law,
    published_law, run_lookups_law, run_paths_law, run_pointers_law,
};
