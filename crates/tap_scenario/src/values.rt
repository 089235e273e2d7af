ghost use Rattle.std.specs.Prelude.{◌≡◌, ◌≤◌, IfSome, IsTrue, option_map};
ghost use Rattle.toml.specs.View.{view, table_view, items_view};
ghost use Rattle.tap_scenario.specs.Key.{value_at};
ghost use Rattle.tap_name.specs.Names.{are_distinct};
ghost use Rattle.tap_scenario.specs.Value.{whole_number, carrier_of, are_strings, texts_of, array_of_strings};

use crate::fault::Key;
use tap_name::Name;
use toml::{Table, Value};

// The value under a key.
pub(crate) fn value_at(table: &Table, key: Key) -> Option<&Value>
    ensures { option_map (λ value. view value.now) result ≡ value_at key (table_view table.now) }
{
    table.get(key.text())
}

// The number that a value is, if it is whole and within these limits.
pub(crate) fn whole_number(value: &Value, low: u32, high: u32) -> Option<u32>
    ensures value { result ≡ whole_number low high (view value.now) }
    ensures from { IfSome result (λ number. low ≤ number) }
    ensures to { IfSome result (λ number. number ≤ high) }
{
    match value.as_integer() {
        Some(number) => match u32::try_from(number) {
            Ok(number) if low <= number && number <= high => Some(number),
            _ => None,
        },
        None => None,
    }
}

// Whether a scenario is carried, by its value.
pub(crate) fn carrier_of(value: &Value) -> Option<bool>
    ensures { result ≡ carrier_of (view value.now) }
{
    value.as_bool()
}

// Whether each of these values is a string.
fn are_strings(values: &[Value]) -> bool
    ensures { result ≡ are_strings (items_view values.now) }
{
    for value in values {
        if !value.is_str() {
            return false;
        }
    }
    true
}

// The values of an array of strings.
pub(crate) fn strings(value: &Value) -> Option<&[Value]>
    ensures value { option_map (λ values. texts_of (items_view values.now)) result ≡ array_of_strings (view value.now) }
    ensures strings { IfSome result (λ values. IsTrue (are_strings (items_view values.now))) }
{
    match value.as_array() {
        Some(array) => {
            let values = array.as_slice();
            if are_strings(values) {
                Some(values)
            } else {
                None
            }
        }
        None => None,
    }
}

// Whether no two of these names are the same.
pub(crate) fn are_distinct(names: &[Name]) -> bool
    ensures { result ≡ are_distinct names.now }
{
    for (i, name) in names.iter().enumerate() {
        if names[i + 1..].contains(name) {
            return false;
        }
    }
    true
}
