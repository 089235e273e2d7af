//! The orderly departure of a node: what the leaving node sends its holders, whom it awaits, and what
//! a holder does at its notice.
//!
//! Holders are the nodes that have a link to the leaving one. Each of them is given a node for the
//! slot that it loses, if the leaving node knows one.
#![tactic(auto)]

mod leaving;
mod notice;
mod replacement;
mod told;

pub use leaving::Leaving;
pub use notice::Notice;
pub use tap_table::NoMemory;
pub use told::told_leave;
