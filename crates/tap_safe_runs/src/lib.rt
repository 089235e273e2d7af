//! What holds at each moment of a run: the move of each group is possible, so the system that the log has come to has the whole invariant;
//! there is a core node, no table has a hole, each walk ends at the one root, and at rest each node that is present is core, and each that
//! departed is gone.
//!
//! No code is here. Each function states what holds of the course of a run.
#![tactic(auto)]

mod law;

pub use law::{
    core_law, each_group_law, ended_logs_law, group_moves_law, growing_runs_law, hole_free_law,
    lawful_logs_law, leavers_law, printed_law, run_rest_law, run_walks_law, sound_runs_law,
    taken_law,
};
