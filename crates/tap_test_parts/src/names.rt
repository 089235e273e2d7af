// Settings, and names of texts and their texts.
ghost use Rattle.tap_name.specs.Name.{IsName};

use std::process::Abort;
use tap_name::{Name, Settings, read_name, text_of_digit};

// The settings of names with so many digits in this base, in tables of this width.
pub(crate) fn settings_of(rt: &impl Abort, base: u8, digits: u8, width: u8) -> Settings {
    Settings::new(base, digits, width).expect(rt, "settings")
}

// The name of a text.
pub(crate) fn name_of(rt: &impl Abort, settings: &Settings, text: &str) -> Name
    ensures { IsName settings.now result }
{
    read_name(settings, text.as_bytes()).expect(rt, "a name")
}

// A name.
pub(crate) fn put_name(rt: &impl Abort, text: &mut Vec<u8>, name: &Name) {
    for at in 0..name.len() {
        put_digit(rt, text, name.digit(at));
    }
}

// A digit below 16.
pub(crate) fn put_digit(rt: &impl Abort, text: &mut Vec<u8>, digit: u8) {
    assert!(rt; digit < 16);
    text.push(text_of_digit(digit)).expect(rt, "memory");
}

// Bytes as they are.
pub(crate) fn put(rt: &impl Abort, text: &mut Vec<u8>, bytes: &[u8]) {
    text.extend_from_slice(bytes).expect(rt, "memory");
}
