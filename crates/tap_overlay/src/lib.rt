//! All nodes of a run, each found by its name: the members at rest, those that join, and what becomes of each of them as it
//! takes frames or starts something.
#![tactic(auto)]

mod fault;
mod law;
mod memory;
mod overlay;
mod start;
mod step;

pub use fault::OverlayFault;
pub use law::overlay_law;
pub use overlay::Overlay;
pub use start::Start;
pub use tap_node::NoMemory;
