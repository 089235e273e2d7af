//! Object pointers: which servers of which objects a node knows of, and where it has laid them on to.
//!
//! A node that publishes an object lays a pointer at the next node on the way to the object's root, and each node
//! that holds one lays it on at the next, so that a lookup on its way to the root meets one. [`Pointers`] is one
//! node's part of this.
#![tactic(auto)]

mod change;
mod held;
mod hop;
mod lay;
mod laying;
mod pair;
mod pointers;
mod relaid;
mod state;
mod walk;
mod way;

pub use held::Held;
pub use hop::Hop;
pub use lay::Lay;
pub use pair::Pair;
pub use pointers::Pointers;
pub use tap_table::NoMemory;
