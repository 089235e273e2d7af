//! Tests of the parts of a node, each over its public calls.
//!
//! This crate has nothing but tests: beside their crates these would be proved with all of them once more.
#![tactic(auto)]

#[cfg(test)]
mod cast;
#[cfg(test)]
mod depart;
#[cfg(test)]
mod join;
#[cfg(test)]
mod multicast;
#[cfg(test)]
mod names;
#[cfg(test)]
mod pointer;
#[cfg(test)]
mod surrogate;
