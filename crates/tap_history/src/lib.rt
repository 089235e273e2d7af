//! What a log says of its run, as definitions, and laws over them: its groups and moments, who takes part, what is published and
//! what waits at a moment, and why a step is refused.
//!
//! The definitions stand in `specs/`; laws state what one more record and one more group change. Two small programs are here as
//! well: whether a step starts something, and which node it has depart. What a run asks of its log, and why a step is refused, is
//! computed in `tap_ledger`, whose contracts cite these definitions.
#![tactic(auto)]

mod law;
mod steps;

pub use law::{group_changes, log_in_groups, one_more_group, record_changes};
pub use steps::{depart_name, is_start};
