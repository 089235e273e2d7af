//! Whole runs over sources and sinks in memory: texts that are accepted and refused, and devices that fail.
//!
//! This crate has nothing but tests of the top call.
#![tactic(auto)]

#[cfg(test)]
mod accepted;
#[cfg(test)]
mod counted;
#[cfg(test)]
mod devices;
#[cfg(test)]
mod outcome;
#[cfg(test)]
mod refused;
