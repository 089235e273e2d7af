//! The log of each run is a shape, so what is printed of a run is read back.
//!
//! No code is here. The function states what holds of such logs.
#![tactic(auto)]

mod law;

pub use law::shapes_law;
