ghost use Rattle.std.specs.Prelude.{◌≡◌, ◌≤◌, length, IsTrue, IfOk, OnOk, MatchResult, Ok, Err};
ghost use Rattle.std.specs.Option.{ok_or};
ghost use Rattle.toml.specs.Parse.{parse_document};
ghost use Rattle.toml.specs.View.{table_view, items_view};
ghost use Rattle.tap_scenario.specs.Document.{read_at, settings_of_table, frames_of_table, carrier_of_table, members_of_table, steps_with, numbered_steps, steps_of_table, scenario_of_table, scenario_of};
ghost use Rattle.tap_scenario.specs.Key.{missing_key, is_known, has_known_keys, wrong_key};
ghost use Rattle.tap_scenario.specs.Scenario.{IsScript};
ghost use Rattle.tap_scenario.specs.ReadRefusal.{AnswersUnlessMemory, TellsFault};
ghost use Rattle.tap_scenario.specs.Value.{whole_number, array_of_strings, strings_up_to, are_strings, names_of_texts, texts_of};

use crate::fault::{Fault, Key, ReadRefusal};
use crate::scenario::Scenario;
use crate::spelled::spelled_steps;
use crate::spelling::name_in;
use crate::step::{Step, read_step};
use crate::values::{are_distinct, carrier_of, strings, value_at, whole_number};
use std::alloc::Global;
use tap_name::{List, Name, Settings};
use toml::{Table, Value};

// The most members that a scenario has.
const MOST_MEMBERS: usize = 64;

// The most steps that a scenario has.
const MOST_STEPS: usize = 10_000;

// The keys that a scenario may have.
const KNOWN: [Key; 7] = [
    Key::Base,
    Key::Digits,
    Key::Width,
    Key::Frames,
    Key::Carrier,
    Key::Members,
    Key::Steps,
];

// The keys that it has to have, in the order in which they are missed.
const NEEDED: [Key; 5] = [Key::Base, Key::Digits, Key::Width, Key::Members, Key::Steps];

// The first key that a scenario has to have and the table lacks.
fn missing_key(table: &Table) -> Option<Key>
    ensures { result ≡ missing_key (table_view table.now) }
{
    for key in NEEDED {
        if value_at(table, key).is_none() {
            return Some(key);
        }
    }
    None
}

// Whether a key is one that a scenario may have.
fn is_known(key: &str) -> bool
    ensures { result ≡ is_known key.now }
{
    for known in KNOWN {
        if key == known.text() {
            return true;
        }
    }
    false
}

// Whether each key of the table is one that a scenario may have.
fn has_known_keys(table: &Table) -> bool
    ensures { result ≡ has_known_keys (table_view table.now) }
{
    for key in table.keys() {
        if !is_known(key.as_str()) {
            return false;
        }
    }
    true
}

// The first key that is wrong.
fn wrong_key(table: &Table) -> Option<Key>
    ensures { result ≡ wrong_key (table_view table.now) }
{
    match missing_key(table) {
        Some(key) => Some(key),
        None if has_known_keys(table) => None,
        None => Some(Key::Unknown),
    }
}

// The whole number within these limits that has to stand under a key.
fn number_at(table: &Table, key: Key, low: u32, high: u32) -> Result<u32, Fault>
    ensures value { result ≡ read_at key (whole_number low high) (table_view table.now) }
    ensures to { IfOk result (λ number. number ≤ high) }
{
    match value_at(table, key) {
        Some(value) => whole_number(value, low, high).ok_or(Fault::BadValue(key)),
        None => Err(Fault::BadValue(key)),
    }
}

// The strings of the array of strings that has to stand under a key.
fn strings_at(table: &Table, key: Key) -> Result<&[Value], Fault>
    ensures value { let read = read_at key array_of_strings (table_view table.now)
        in MatchResult result (λ values. read ≡ Ok (texts_of (items_view values.now))) (λ fault. read ≡ Err fault) }
    ensures strings { IfOk result (λ values. IsTrue (are_strings (items_view values.now))) }
{
    match value_at(table, key) {
        Some(value) => strings(value).ok_or(Fault::BadValue(key)),
        None => Err(Fault::BadValue(key)),
    }
}

// The strings of the array of at most so many strings that has to stand under a key.
fn few_strings_at(table: &Table, key: Key, most: usize) -> Result<&[Value], Fault>
    ensures value { let read = read_at key (strings_up_to most) (table_view table.now)
        in MatchResult result (λ values. read ≡ Ok (texts_of (items_view values.now))) (λ fault. read ≡ Err fault) }
    ensures strings { IfOk result (λ values. IsTrue (are_strings (items_view values.now))) }
    ensures few { IfOk result (λ values. length values.now ≤ most) }
{
    let strings = strings_at(table, key)?;
    if strings.len() <= most {
        Ok(strings)
    } else {
        Err(Fault::BadValue(key))
    }
}

// The settings that a table gives.
fn read_settings(table: &Table) -> Result<Settings, Fault>
    ensures { result ≡ settings_of_table (table_view table.now) }
{
    let base = number_at(table, Key::Base, 2, 16)?;
    let digits = number_at(table, Key::Digits, 1, 40)?;
    let width = number_at(table, Key::Width, 1, 4)?;
    Ok(Settings::new(base as u8, digits as u8, width as u8).unwrap())
}

// The limit of frames that a table gives, or else the default.
fn read_frames(settings: &Settings, table: &Table) -> Result<u32, Fault>
    ensures { result ≡ frames_of_table settings.now (table_view table.now) }
{
    let (most, default) = if settings.digits() <= 8 {
        (500_000, 200_000)
    } else {
        (100_000, 100_000)
    };
    match value_at(table, Key::Frames) {
        Some(_) => number_at(table, Key::Frames, 1, most),
        None => Ok(default),
    }
}

// Whether the scenario is carried: as the table says, or else not.
fn read_carrier(table: &Table) -> Result<bool, Fault>
    ensures { result ≡ carrier_of_table (table_view table.now) }
{
    match value_at(table, Key::Carrier) {
        Some(value) => carrier_of(value).ok_or(Fault::BadValue(Key::Carrier)),
        None => Ok(false),
    }
}

// The names that the strings among these write, if each of them writes one.
fn read_names(
    alloc: Global,
    settings: &Settings,
    strings: &[Value],
) -> Result<List<Name>, ReadRefusal>
    ensures { let read = names_of_texts settings.now (texts_of (items_view strings.now))
        in AnswersUnlessMemory (ok_or read (Fault.BadValue Key.Members)) result }
{
    let mut names = Vec::with_capacity(alloc, strings.len())?;
    for value in strings {
        if let Some(text) = value.as_str() {
            match name_in(settings, text.as_bytes()) {
                Some(name) => names.push(name)?,
                None => return Err(ReadRefusal::Fault(Fault::BadValue(Key::Members))),
            }
        }
    }
    Ok(List::from_vec(names))
}

// The members that a table gives.
fn read_members(
    alloc: Global,
    settings: &Settings,
    table: &Table,
) -> Result<List<Name>, ReadRefusal>
    ensures { AnswersUnlessMemory (members_of_table settings.now (table_view table.now)) result }
{
    let strings = strings_at(table, Key::Members)?;
    if strings.is_empty() || strings.len() > MOST_MEMBERS {
        return Err(ReadRefusal::Fault(Fault::BadValue(Key::Members)));
    }
    let names = read_names(alloc, settings, strings)?;
    if !are_distinct(names.as_slice()) {
        return Err(ReadRefusal::Fault(Fault::BadValue(Key::Members)));
    }
    Ok(names)
}

// Adds the steps of the string of this number, if a scenario may have so many.
fn add_steps(number: u32, steps: &mut Vec<Step>, more: &[Step]) -> Result<(), ReadRefusal>
    requires { length steps.now.items ≤ MOST_STEPS }
    ensures value { let read = ok_or (steps_with steps.old.items more.now) (Fault.BadStep number)
        in MatchResult result (λ _. read ≡ Ok steps.new.items) (TellsFault read) }
    ensures few { OnOk result (length steps.new.items ≤ MOST_STEPS) }
{
    if steps.len() + more.len() > MOST_STEPS {
        return Err(ReadRefusal::Fault(Fault::BadStep(number)));
    }
    steps.extend_from_slice(more)?;
    Ok(())
}

// Reads the string of this number, and adds the steps for which it stands to those of the strings before it.
#[tactic(auto, unfolding(crate::specs::Document::numbered_steps))]
fn read_string(
    settings: &Settings,
    carrier: bool,
    number: u32,
    steps: &mut Vec<Step>,
    text: &[u8],
) -> Result<(), ReadRefusal>
    requires { length steps.now.items ≤ MOST_STEPS }
    ensures value { let read = numbered_steps settings.now carrier number steps.old.items text.now
        in MatchResult result (λ _. read ≡ Ok steps.new.items) (TellsFault read) }
    ensures few { OnOk result (length steps.new.items ≤ MOST_STEPS) }
{
    if let Some(step) = read_step(settings, carrier, text) {
        return add_steps(number, steps, &[step]);
    }
    match spelled_steps(settings, carrier, text) {
        Some(spelled) => add_steps(number, steps, spelled.as_slice()),
        None => Err(ReadRefusal::Fault(Fault::BadStep(number))),
    }
}

// The steps that a table gives.
fn read_steps(
    alloc: Global,
    settings: &Settings,
    carrier: bool,
    table: &Table,
) -> Result<List<Step>, ReadRefusal>
    ensures { AnswersUnlessMemory (steps_of_table settings.now carrier (table_view table.now)) result }
{
    let strings = few_strings_at(table, Key::Steps, MOST_STEPS)?;
    let mut steps = Vec::with_capacity(alloc, strings.len())?;
    for (at, value) in strings.iter().enumerate() {
        if let Some(text) = value.as_str() {
            read_string(
                settings,
                carrier,
                at as u32 + 1,
                &mut steps,
                text.as_bytes(),
            )?;
        }
    }
    Ok(List::from_vec(steps))
}

// The scenario that a table is.
fn read_table(alloc: Global, table: &Table) -> Result<Scenario, ReadRefusal>
    ensures value { AnswersUnlessMemory (scenario_of_table (table_view table.now)) result }
    ensures valid { IfOk result IsScript }
{
    if let Some(key) = wrong_key(table) {
        return Err(ReadRefusal::Fault(Fault::BadKey(key)));
    }
    let settings = read_settings(table)?;
    let frames = read_frames(&settings, table)?;
    let carrier = read_carrier(table)?;
    let members = read_members(alloc, &settings, table)?;
    let steps = read_steps(alloc, &settings, carrier, table)?;
    Ok(Scenario::from_lists(&settings, frames, carrier, members, steps))
}

// The table that a text is.
fn read_toml(alloc: Global, text: &str) -> Result<Table, ReadRefusal>
    ensures { let read = ok_or (parse_document text.now) Fault.NotToml
        in MatchResult result (λ table. read ≡ Ok (table_view table)) (TellsFault read) }
{
    toml::table_from_str(alloc, text).map_err(|error| {
        if error.is_memory() {
            ReadRefusal::NoMemory
        } else {
            ReadRefusal::Fault(Fault::NotToml)
        }
    })
}

/// Reads a scenario's text, or says what is wrong with it first.
///
/// The text is TOML with the keys `base` (2 to 16), `digits` (1 to 40), `width` (1 to 4), `members` (an array of 1 to
/// 64 strings, distinct names) and `steps` (an array of at most 10,000 strings, each of which stands for one step or for
/// four; in all there are at most 10,000). If names have 40 digits in base 16, they may be spelled, and objects be salts. A
/// key `frames` may stand beside them: 1 to 500,000, and 200,000 if it is absent; if `digits` is above 8, 1 to
/// 100,000, and 100,000 if it is absent. So may a key `carrier`, true or false: whether the run is carried, and false
/// if it is absent. Of several faults the answer is the first one in the order of [`Fault`]'s variants.
///
/// Rule: docs/FORMATS.md, "The scenario".
pub fn read(alloc: Global, bytes: &[u8]) -> Result<Scenario, ReadRefusal>
    ensures value { AnswersUnlessMemory (scenario_of bytes.now) result }
    ensures valid { IfOk result IsScript }
{
    let text = match std::str::from_utf8(bytes) {
        Ok(text) => text,
        Err(_) => return Err(ReadRefusal::Fault(Fault::NotUtf8)),
    };
    let table = read_toml(alloc, text)?;
    read_table(alloc, &table)
}
