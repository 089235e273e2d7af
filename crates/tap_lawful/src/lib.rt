//! The logs of the runs of a scenario, as definitions, and laws over them: which group comes next, and how a run ends.
//!
//! No code is here. A log is lawful exactly if it is one of a run, as `specs/Runs.antt` says; each function states what holds of
//! such logs.
#![tactic(auto)]

mod law;

pub use law::{
    carried_growth_law, carried_law, carried_moves_law, lawful_law, one_carried_log_law,
    one_log_law, runs_law, uncarried_law,
};
