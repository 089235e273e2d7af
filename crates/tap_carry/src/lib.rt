//! A carrier: frames travel in packets, which may be lost, repeated or overtaken, and each is still taken once.
//!
//! A node has an outbox and an inbox. The outbox numbers the frames to each receiver and keeps each until it is
//! acknowledged, so that it can be sent again. The inbox tells a packet that arrives for the first time from one
//! that was there before. The net has the packets under way.
#![tactic(auto)]

mod inbox;
mod law;
mod memory;
mod net;
mod numbers;
mod outbox;

pub use inbox::Inbox;
pub use law::arrivals_law;
pub use memory::NoMemory;
pub use net::{MOST_PACKETS, Net, Numbered, Packet};
pub use outbox::{Await, MOST_FRAMES, Outbox};
