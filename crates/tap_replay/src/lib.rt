//! Runs of scenarios: which group of records comes next in a run, the player that has a world add one after the other, and the text that is
//! printed of a run while it is played.
#![tactic(auto)]

mod carried_run;
mod choice;
mod end;
mod law;
mod player;
mod printing;
mod run;
mod runs;
mod steps;
mod ticks;
mod whole;

pub use end::{End, Turned};
pub use law::replay_law;
pub use player::Player;
pub use printing::{put_from, turns_and_put};
pub use tap_world::{NoMemory, World};
pub use whole::{Played, replay};
