//! The text of a log, written to a sink: a line for each record, whole or in brief, or a summary alone.
//!
//! A [`Reporter`] writes record by record while a run goes on, and [`write_log`] a whole log at once. Neither takes
//! memory. After a failed write nothing more is written.
#![tactic(auto)]

mod casts;
mod departures;
mod frames;
mod lines;
mod lookups;
mod mode;
mod opening;
mod pairs;
mod printer;
mod refusals;
mod reporter;
mod shapes;
mod starts;
mod steps;
mod tables;
mod tally;
mod written;

pub use mode::Mode;
pub use reporter::{MOST_RECORDS, Reporter, puts_write_the_text, write_log};
pub use written::{Written, write_text};
