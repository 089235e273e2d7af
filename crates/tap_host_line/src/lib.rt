//! What a node's process reads and writes: the words of its command line, help and the version, its lines in, and the texts of its lines out.
//!
//! A line in is read exactly: [`read_line`] gives the one line that a text is, or none. Each `put` adds whole lines at the end of a vector:
//! one, but [`put_news`] as many as there are news. If memory is refused, what the vector then has isn't said.
#![tactic(auto)]

mod asked;
mod command;
mod hexadecimal;
mod line;
mod memory;
mod put;
mod reading;
mod room;
mod shown;
mod verb;
mod why;

pub use asked::{Asked, WordsRefusal, members_file, read_words};
pub use line::{Line, Start};
pub use memory::NoMemory;
pub use put::{put_ack, put_begun, put_count, put_news, put_packet, put_refused, put_status};
pub use reading::read_line;
pub use shown::text_asked;
pub use why::Why;
