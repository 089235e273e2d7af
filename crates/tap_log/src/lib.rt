//! The log of a run: its records, one after another, and what single records tell.
#![tactic(auto)]

mod counts;
mod frames;
mod kinds;
mod law;
mod log;
mod record;

pub use counts::{cast_count, packet_count, resent_count, sent_count, ticket_count};
pub use frames::bytes_of;
pub use kinds::{
    NameKind, NumberKind, accepts, begins_group, is_added, is_carried, name_in, number_in,
    published_pair, step_of, withdrawn_pair,
};
pub use law::{more_records, one_more_record};
pub use log::{Log, NoMemory};
pub use record::{LinkLine, LinkWord, NodeWord, Pair, Record, Refusal};
pub use tap_wire::Bytes;
