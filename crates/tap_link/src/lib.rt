//! Pins, settled links and the link sets that hold them.
//!
//! A node keeps links to other nodes. A *pin* is a link to a node that may still be joining: it
//! stays until its target says the word that ends it, so a `Pin` is a linear value that has to be
//! spent. A *settled* link is one to a node that has joined, and may be let go. A [`LinkSet`] keeps
//! links with distinct targets in ascending order, and lets at most its width of them be settled
//! and not leaving.
#![tactic(auto)]

mod kind;
mod link;
mod memory;
mod pin;
mod places;
mod set;
mod settled;
mod word;

pub use kind::{Kind, Released};
pub use memory::NoMemory;
pub use pin::Pin;
pub use set::LinkSet;
pub use settled::Settled;
pub use word::{Cease, Forget, Release};
