use crate::node_frames::{Digits, OWNER};

/// How many neighbours there are: as many links as a node may have.
pub(crate) const NEIGHBOURS: usize = 255;

/// A neighbour in a slot of level 0.
pub(crate) const NEAR: Digits = [15, 0, 0, 0, 0, 0, 0, 0];

// The name of zeros with this digit at a level, and with this last digit.
fn name_in(level: usize, digit: u8, last: u8) -> Digits {
    let mut name = OWNER;
    name[level % 7] = digit;
    name[7] = last;
    name
}

/// The neighbour of this number, ascending. They fill the slots of the owner from level 5 up to level 0, three in each; the last
/// digits of a slot's three are 0, 1 and 2.
pub(crate) fn neighbour(number: usize) -> Digits {
    let place = number.saturating_add(60) % 315;
    let level = 6usize.saturating_sub(place / 45);
    let digit = (place / 3) % 15 + 1;
    name_in(level, digit as u8, (place % 3) as u8)
}

/// An object that a message of the owner's sends on to the slot of this neighbour.
pub(crate) fn object_beyond(neighbour: &Digits) -> Digits {
    let mut object = *neighbour;
    object[7] = 9;
    object
}

/// The newcomer of this number, below 2^24: no neighbour, in a slot of level 0.
pub(crate) fn newcomer(number: usize) -> Digits {
    let mut name = OWNER;
    let mut left = number.saturating_mul(256);
    for digit in name.iter_mut() {
        *digit = (left % 16) as u8;
        left /= 16;
    }
    name[0] = (number % 15 + 1) as u8;
    name[1] = 15;
    name
}
