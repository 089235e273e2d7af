//! The judge over sources and sinks in memory: texts of each kind, a text that never ends, and calls that fail; and its verdicts on logs.
//!
//! This crate has nothing but tests of the judge's calls.
#![tactic(auto)]

#[cfg(test)]
mod devices;
#[cfg(test)]
mod logs;
#[cfg(test)]
mod texts;
