//! What is said of object pointers, and where they are laid: that it stands after each move, and that at rest pointers stand on their paths.
//! And lookups that are under way: where their frames go, that none is lost or doubled, and what they say.
//!
//! No code is here. Each function states what holds after a move.
#![tactic(auto)]

mod law;

pub use law::{
    alone_law, answers_law, beside_law, ever_published_law, going_on_law, lookups_law,
    members_have_no_pointers, no_server_law, paths_law, pointers_law, publications_law, runs_law,
    wanted_law,
};
