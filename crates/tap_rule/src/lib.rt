//! The rule of one node, as definitions: what a node keeps, what may happen at it, and what it then does and sends. `act` in
//! `specs/Act.antt` puts it together, from the definitions of the parts.
//!
//! No code is here: what a node keeps in memory, and how it computes, is for others. Each function states a law of the rule.
#![tactic(auto)]

mod law;

pub use law::{
    beginning_law, casts_law, ceased_law, departures_law, frames_law, joins_law, kept_law,
    pointers_law, quiet_law, rule_law, said_law, table_law,
};
