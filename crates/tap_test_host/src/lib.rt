//! Runs of a node over sources and sinks in memory: how they end, which frames are taken, and devices that fail.
//!
//! This crate has nothing but tests of the run of a node.
#![tactic(auto)]

#[cfg(test)]
mod devices;
#[cfg(test)]
mod endings;
#[cfg(test)]
mod lines;
#[cfg(test)]
mod runs;
