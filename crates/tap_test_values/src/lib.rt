//! Tests of names, salts, links, tables, frames and what else a node is made of, each over its public calls.
//!
//! This crate has nothing but tests: beside their crates these would be proved with all of them once more.
#![tactic(auto)]

#[cfg(test)]
mod link;
#[cfg(test)]
mod name;
#[cfg(test)]
mod register;
#[cfg(test)]
mod salt;
#[cfg(test)]
mod session;
#[cfg(test)]
mod table;
#[cfg(test)]
mod watch;
#[cfg(test)]
mod wire;
