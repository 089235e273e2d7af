//! What a run keeps of its casts, as its log says it; and of watch lists: that each slot which a joiner still waits for was answered, or is in
//! the watch that goes on, and what a node hands on of these slots as it covers the joiner.
//!
//! No code is here. Each function states what holds of each run, or of one move.
#![tactic(auto)]

mod law;

pub use law::{
    answers_at_rest_law, answers_moves_law, begun_casts_law, chains_moves_law, held_at_rest_law,
    held_moves_law, lawful_watches_law, open_sessions_law, reach_all_law, run_answers_law,
    run_casts_law, run_held_law, run_rest_casts_law, run_watches_law, told_casts_law,
    watch_clause_law, watch_moves,
};
