//! Which frames are outstanding: sent, and not yet taken.
//!
//! Frames are numbered in the order in which they are sent, and each is taken at most once. One that is
//! outstanding is found by its place among those that are, 0 being the oldest, and each keeps where the
//! record of its sending stands. By its number a frame is found at once. Each other call takes time that
//! grows with the logarithm of how many were sent; taking the oldest one passes over those that were taken
//! before it, each once in all.
#![tactic(auto)]

mod levels;
mod memory;
mod outstanding;

pub use memory::NoMemory;
pub use outstanding::{Flight, MOST_SENT, Outstanding};
