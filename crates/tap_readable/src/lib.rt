//! What a run says can be read. Its numbers stay in range: each opening of a session and each number of a stamp takes a frame that is
//! sent, and no more frames are sent than may be, so each node has room for one more step. Each node of its system has its own name and
//! the settings, and each frame under way is read back from its bytes.
//!
//! No code is here: each function states what holds of a course.
#![tactic(auto)]

mod law;

pub use law::{ranges_law, readable_law};
