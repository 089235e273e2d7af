//! The headline: what holds at each moment of a run, of nodes and tables, pointers, lookups, casts, sessions, watch lists and the frames of
//! joins. It holds of each log of a run, however far the run has come or however it has ended, and such a log can be printed.
//!
//! No code is here. Each function states what holds of such logs.
#![tactic(auto)]

mod law;

pub use law::{
    carried_headline_law, ended_headline_law, endings_law, headline_law, last_record_law,
    printable_law, root_sets_law, runs_law,
};
