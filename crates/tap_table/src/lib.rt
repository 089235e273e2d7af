//! The table of a node: its links to other nodes, in their slots, and the next hop towards an object.
#![tactic(auto)]

mod levels;
mod memory;
mod next;
mod off;
mod rest;
mod row;
mod rows;
mod sets;
mod slot_range;
mod table;
mod tie;
mod ties;

pub use levels::{is_kept, sent_from};
pub use memory::NoMemory;
pub use next::Next;
pub use row::Row;
pub use rows::Rows;
pub use slot_range::SlotRange;
pub use table::Table;
pub use tie::Tie;
pub use ties::Ties;
