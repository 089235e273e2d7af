//! One node: what it keeps, and the steps that it takes. A step is taken at a frame, handed in as bytes, or at a start;
//! it leaves the node as the rule of a node says, and gives the frames that are to be sent, as bytes, and the news.
#![tactic(auto)]

mod fault;
mod memory;
mod node;
mod starts;
mod state;
mod status;
mod turn;

pub use fault::NodeFault;
pub use node::Node;
pub use status::NodeStatus;
pub use tap_node_common::{FrameList, News, NoMemory};
pub use turn::Turn;
