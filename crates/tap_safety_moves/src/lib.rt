//! The invariant of a system of nodes: each possible move keeps it, so it holds at each moment of each run; and what is known, from it, of
//! a frame under way as it comes to its receiver.
//!
//! No code is here. Each function states a law of moves.
#![tactic(auto)]

mod law;

pub use law::{
    answers_from_invariant, arrivals_from_invariant, arrivals_law, ignored_law, members_law,
    moves_law, rest_law, runs_law, walks_law,
};
