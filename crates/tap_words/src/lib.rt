//! The words of the command line: which are accepted, and what they ask for.
#![tactic(auto)]

mod asked;
mod command;
mod law;

pub use asked::{Asked, MOST_JOINS, WordsRefusal, read_words};
pub use law::plain_words_law;
