//! What all statuses of a node share: the frames of one step, written once each, as bytes, in the order in which they are sent; who sends
//! them, and what is noted of them; how answers, Links, Lays and Finds are taken; what a core or leaving node keeps beside its ties; and
//! which frames are strange to a node, by its table and its covers.
#![tactic(auto)]

mod answers;
mod cast_fields;
mod frame_list;
mod known;
mod link_frames;
mod links;
mod memory;
mod messages;
mod news;
mod parts;
mod pointing;
mod room;
mod sender;
mod strange;

pub use answers::take_answer;
pub use cast_fields::CastFields;
pub use frame_list::FrameList;
pub use links::hear_and_release;
pub use memory::NoMemory;
pub use news::News;
pub use parts::NodeParts;
pub use pointing::{
    TakenFind, TakenLay, ask, reconcile, reconcile_at, reconcile_pair, take_find, take_lay,
};
pub use sender::Sender;
pub use strange::{is_strange, is_strange_to_ended};
