//! Names that are made of a digest, and the salts of an object.
#![tactic(auto)]

mod law;
mod salts;

pub use law::salts_law;
pub use salts::{name_of, salt, salts_of};
