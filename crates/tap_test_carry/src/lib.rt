//! Tests of the frames and packets under way, each over its public calls.
//!
//! This crate has nothing but tests: beside their crates these would be proved with all of them once more.
#![tactic(auto)]

#[cfg(test)]
mod carry;
#[cfg(test)]
mod outstanding;
