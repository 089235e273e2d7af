//! The top call: a scenario is read from a source, or made, and run; the text of its log is printed to a sink.
//!
//! [`run`] is all that a program needs: its contract says why it ends as it does, what its log is, and what it has
//! written. The log is that of a run of the scenario. At each of its moments, however the run has ended, there is a core node, no core
//! node's table has a hole that another core node could fill, each walk finds the one root, and at rest each node that is present is core,
//! who departed is gone, each lookup is answered and pointers stand on their paths; a lookup made alone from a rest is exact, and what is said
//! of other lookups, of root sets, casts, sessions, watch lists and the frames of joins holds.
#![tactic(auto)]

mod fault_line;
mod printing;
mod reading;
mod running;
mod status;
mod top;
mod wanted;

pub use reading::MOST_BYTES;
pub use status::{Ended, Status};
pub use top::run;
