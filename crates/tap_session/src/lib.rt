//! Sessions: a request that was handed on to several others is answered once each of them has.
//!
//! Who hands a request on opens a session. It keeps who asked, the parent, and how many answers are
//! awaited. The last awaited answer closes the session, and the parent is told: that is one answer
//! more to the parent's own session.
#![tactic(auto)]

mod memory;
mod parent;
mod sessions;

pub use memory::NoMemory;
pub use parent::Parent;
pub use sessions::{Answered, MOST_SESSIONS, Sessions};
