//! Frames as bytes.
#![tactic(auto)]

mod bytes;
mod decoding;
mod encoding;
mod fault;
mod fields;
mod frame;
mod kind;
mod laws;
mod layout;
mod lists;
mod memory;
mod opening;
mod reading;
mod writing;

pub use bytes::Bytes;
pub use decoding::{decode, decode_head, decode_into};
pub use encoding::{encode, encode_tell};
pub use fault::{HeadFault, WireFault};
pub use frame::{Body, Frame, Head, TellFields};
pub use kind::Kind;
pub use laws::{head_reads_back, reads_back, spelled_so};
pub use layout::{MOST_LETTERS, MOST_LINKS};
pub use memory::NoMemory;
