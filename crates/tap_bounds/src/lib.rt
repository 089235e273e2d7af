//! How many frames a system sends: what moves keep of the frames that were sent so far, and of the Links and Releases if nothing but joins
//! is started.
//!
//! No code is here. Each function states what holds after a move.
#![tactic(auto)]

mod law;

pub use law::{
    acks_law, depths_law, dones_law, few_at_rest_law, few_moves_law, few_runs_law, hellos_law,
    links_law, lookup_frames_law, of_joins_law, openings_law, publication_frames_law, taken_law,
    tells_law,
};
