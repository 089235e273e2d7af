//! What moves keep of the casts of a system: whom a cast has reached, whom it will reach, its audience, and its sessions.
//!
//! No code is here. Each function states what holds after a move.
#![tactic(auto)]

mod law;

pub use law::{cast_moves_law, cast_news_law, cast_runs_law, casts_at_rest_law, quiet_casts_law};
