//! The steps of which the laws of systems speak are those that the rule of a node makes; and what of the invariant holds after them.
//!
//! No code is here. Each function of `law` states that a step by the rule is such a step, or what one keeps, and each of `invariant` what
//! holds after one.
#![tactic(auto)]

mod invariant;
mod law;

pub use invariant::{
    covers_from_invariant, departures_from_invariant, ends_from_invariant,
    few_sessions_from_invariant, given_up_from_invariant, invariant_after_starts,
    joins_from_invariant, joins_law, leaving_from_invariant, notices_from_invariant,
    parts_after_starts, pins_law, starts_from_invariant, words_from_invariant,
};
pub use law::{
    calm_from_invariant, deliveries_from_invariant, deliveries_keep, deliveries_keep_sessions,
    done_moves, frames_move, link_moves, names_from_invariant, parts_kept, seek_moves,
    sessions_from_invariant, sessions_move, starts_keep, tell_moves,
};
