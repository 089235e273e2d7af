//! Logs in shape, and the reader that makes a log of its printed text, or of the lines alone that open it and begin its steps.
#![tactic(auto)]

mod fault;
mod law;
mod opening;
mod reader;
mod reading;
mod records;

pub use fault::LogFault;
pub use law::{shape_law, text_law};
pub use opening::read_opening;
pub use reading::read_log;
