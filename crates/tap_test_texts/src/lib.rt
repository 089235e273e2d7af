//! Tests of devices, scenarios, words, logs and their texts, each over its public calls.
//!
//! This crate has nothing but tests: beside their crates these would be proved with all of them once more.
#![tactic(auto)]

#[cfg(test)]
mod history;
#[cfg(test)]
mod io;
#[cfg(test)]
mod line;
#[cfg(test)]
mod log;
#[cfg(test)]
mod make;
#[cfg(test)]
mod report;
#[cfg(test)]
mod report_checks;
#[cfg(test)]
mod report_line;
#[cfg(test)]
mod scenario;
#[cfg(test)]
mod scenario_spelling;
#[cfg(test)]
mod shape;
#[cfg(test)]
mod words;
