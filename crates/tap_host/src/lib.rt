//! A node as a process: a node with its outbox and its inbox, which takes lines and gives lines, and its run over a source and a sink.
//!
//! [`Host`] is the node under a carrier: each line in makes one step of it, and the lines out are added to a vector. What [`Host::line`] adds and
//! leaves is proved: it is a function of the line and of what went before, by the rule of a node and the words of the carrier.
//!
//! [`run_node`] is all that a program needs: it reads the words, then line after line of a source, and writes what each brings to a sink before it
//! takes the next. What it has written is proved to be a function of the lines that it has read, and each status to have its cause.
#![tactic(auto)]

mod actor;
mod host;
mod intake;
mod law;
mod lines;
mod mail;
mod memory;
mod run;
mod sender;
mod starting;
mod status;

pub use host::{Going, Host};
pub use law::taken_stays_law;
pub use memory::NoMemory;
pub use run::run_node;
pub use status::HostStatus;
