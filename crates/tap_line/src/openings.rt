ghost use Rattle.std.specs.Prelude.{◌≡◌, ◌<◌};
ghost use Rattle.tap_line.specs.Reading.{begin_of_words, settings_of_numbers, step_line_of_words};

use crate::line::{Beginning, Line};
use crate::taking::{PLACE_MAX, only, take_number, take_word};
use tap_log::Record;
use tap_name::Settings;
use tap_scenario::{Words, read_step};

// The settings of these numbers, if they are within the limits.
fn settings_of(base: u64, digits: u64, width: u64) -> Option<Settings>
    requires base { base < 256 }
    requires digits { digits < 256 }
    requires width { width < 256 }
    ensures { result ≡ settings_of_numbers base digits width }
{
    Settings::new(base as u8, digits as u8, width as u8)
}

// The first line of a beginning, after the first word.
#[inline(never)]
pub(crate) fn begin_of(mut words: Words<'_>) -> Option<Beginning>
    ensures { result ≡ begin_of_words words.entry }
{
    take_word(&mut words, b"base")?;
    let base = take_number(&mut words, 255)?;
    take_word(&mut words, b"digits")?;
    let digits = take_number(&mut words, 255)?;
    take_word(&mut words, b"width")?;
    let width = take_number(&mut words, 255)?;
    take_word(&mut words, b"frames")?;
    let frames = take_number(&mut words, PLACE_MAX)?;
    let settings = settings_of(base, digits, width)?;
    only(
        words,
        Beginning {
            settings,
            frames: frames as u32,
        },
    )
}

// A step that begins, after the first word.
#[inline(never)]
pub(crate) fn step_of(settings: &Settings, carrier: bool, mut words: Words<'_>) -> Option<Line>
    ensures { result ≡ step_line_of_words settings.now carrier words.entry }
{
    let index = take_number(&mut words, PLACE_MAX)?;
    let step = read_step(settings, carrier, words.text()?)?;
    Some(Line::Whole(Record::Step {
        index: index as u32,
        step,
    }))
}
