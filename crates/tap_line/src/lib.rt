//! Lines of the long text of a log, each of which is read back exactly.
//!
//! `specs/Line.antt` has the text of each line and which lines there are, and `specs/Reading.antt` the line that the words of a text are;
//! `read_line` reads it. The functions of `law.rt` state what holds of both.
#![tactic(auto)]

mod fault;
mod frames;
mod hexadecimal;
mod kind;
mod law;
mod line;
mod lookups;
mod names;
mod numbers;
mod openings;
mod paths;
mod reading;
mod refusals;
mod tables;
mod taking;

pub use fault::LineFault;
pub use law::{line_law, reading_law};
pub use line::{Beginning, Line};
pub use reading::{read_begin, read_line};
