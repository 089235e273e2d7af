//! Registers of which the last writer wins, and the stamps that tell which writer is the last.
//!
//! Where messages may overtake one another, a writer numbers its writes with a [`Stamp`], and a
//! reader keeps the newest write to each key that it has heard of, in [`Registers`]. What comes late
//! or comes twice then changes nothing.
#![tactic(auto)]

mod memory;
mod registers;
mod stamp;

pub use memory::NoMemory;
pub use registers::{Entry, Registers};
pub use stamp::Stamp;
