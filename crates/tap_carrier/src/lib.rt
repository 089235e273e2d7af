//! The carrier of a run: the boxes of all nodes and the net, kept as the whole log of a world says. Each call adds to that log what it
//! does with packets.
#![tactic(auto)]

mod carrier;
mod refusals;
mod sending;

pub use carrier::Carrier;
