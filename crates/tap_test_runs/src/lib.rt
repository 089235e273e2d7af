//! Tests of what runs are made of, each over its public calls.
//!
//! This crate has nothing but tests: beside their crates these would be proved with all of them once more.
#![tactic(auto)]

#[cfg(test)]
mod boxes;
#[cfg(test)]
mod joining_node;
#[cfg(test)]
mod ledger;
#[cfg(test)]
mod ledger_refusal;
#[cfg(test)]
mod names;
#[cfg(test)]
mod node_common;
#[cfg(test)]
mod node_common_strange;
#[cfg(test)]
mod overlay;
#[cfg(test)]
mod replay;
#[cfg(test)]
mod world;
