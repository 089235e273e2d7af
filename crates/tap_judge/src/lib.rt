//! The judge of printed logs: whether a log is lawful, be it printed by this program or written by another one.
//!
//! [`judge`] decides it of a log that was read: it runs the log's own scenario, and compares the records of the run with the log's.
//! [`judge_run`] is all that a program needs: it reads a source to its end, judges the log of which the bytes are the text, and writes one
//! line to a sink. A log that is lawful has the headline: what is promised of each log of a run holds of it. A text that is what the run of its
//! own scenario prints is found lawful by that alone; only of others all lines are read.
#![tactic(auto)]

mod comparing;
mod expected;
mod judging;
mod law;
mod line;
mod own_run;
mod printed;
mod reading;
mod status;
mod top;
mod verdict;

pub use judging::judge;
pub use law::judged_law;
pub use reading::MOST_BYTES;
pub use status::{JudgeStatus, Judged};
pub use top::judge_run;
pub use verdict::Verdict;
