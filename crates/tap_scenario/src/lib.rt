//! Scenarios: what they consist of, and how their text is read.
#![tactic(auto)]

mod cast;
mod document;
mod fault;
mod kind;
mod law;
mod number;
mod scenario;
mod spelled;
mod spelling;
mod step;
mod values;
mod wording;
mod words;

pub use cast::{Prefix, Word};
pub use document::read;
pub use fault::{Fault, Key, ReadRefusal};
pub use law::spellings_law;
pub use number::read_number;
pub use scenario::Scenario;
pub use step::{Step, read_step};
pub use tap_name::NoMemory;
pub use wording::{StepWords, WordsAfter};
pub use words::{Words, is_same};
