//! Names made of digits, the settings that they have in common, the slots of tables, and lists.
#![tactic(auto)]

mod display;
mod list;
mod memory;
mod name;
mod name_digits;
mod reading;
mod settings;
mod slot;
mod word;

pub use list::List;
pub use memory::NoMemory;
pub use name::{Name, NameFault, USUAL_DIGITS, print_digits, put_joined, text_of_digit};
pub use name_digits::NameDigits;
pub use reading::read_name;
pub use settings::Settings;
pub use slot::{Offered, Slot, next_cyclic, slot_of};
pub use word::are_word_bytes;
