//! The invariant of a system of nodes, as definitions, and laws over it: what a kind of step keeps.
//!
//! No code is here. A system and its parts stand in `specs/`; each function states what a kind of step keeps of them.
#![tactic(auto)]

mod law;

pub use law::{
    awaits_law, bookkeeping_law, counts_law, done_law, few_sessions_law, forget_law, hello_law,
    invariant_law, known_law, move_law, peace_law, plain_frame_law, release_law, rest_law,
    seek_law, seeking_law, sessions_law, start_law, tell_elsewhere_law, tell_law, ties_law,
};
