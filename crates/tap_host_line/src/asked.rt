ghost use Rattle.std.specs.Prelude.{◌≡◌, ◌≢◌, map, option_map, IfOk, IfSome, Err, None, ok_or};
ghost use Rattle.std.specs.String.{string_bytes};
ghost use Rattle.clap.specs.Words.{first_of, found_of, rows_of};
ghost use Rattle.tap_name.specs.Name.{IsName};
ghost use Rattle.tap_host_line.specs.Words.{byte_in, members_file_by, members_file_in_rows, name_in_rows, node_asked_by, node_asked_in_rows};

use crate::command::matches;
use clap::ArgMatches;
use clap::error::ErrorKind;
use std::alloc::Global;
use std::error::Error;
use std::fmt;
use tap_name::{Name, Settings, read_name};
use tap_scenario::read_number;

/// What the words of a node's process say.
///
/// Rule: docs/NETWORK.md, "The process of a node".
#[derive(Clone, Copy, Debug)]
pub struct Asked {
    /// The settings of its network.
    pub settings: Settings,
    /// Its name, which is one of the settings.
    pub name: Name,
}

/// Why words are refused.
///
/// Rule: docs/NETWORK.md, "The process of a node".
#[derive(Clone, Copy, Debug, PartialEq, Eq)]
pub enum WordsRefusal {
    /// They aren't words of the program, or they ask for help or the version.
    Usage,
    /// Memory was refused.
    NoMemory,
}

impl fmt::Display for WordsRefusal {
    fn fmt<W: fmt::Write>(&self, f: &mut fmt::Formatter<W>) -> fmt::Result {
        match self {
            WordsRefusal::Usage => f.write_str("no words of the program"),
            WordsRefusal::NoMemory => f.write_str("no memory"),
        }
    }
}

impl Error for WordsRefusal {}

/// What the words of a command line, without the program's name, say.
///
/// `Usage` comes exactly if the command refuses the words, or if one is missing or out of its range.
///
/// Rule: docs/NETWORK.md, "The process of a node".
pub fn read_words(alloc: Global, words: &[String]) -> Result<Asked, WordsRefusal>
    ensures value { result ≢ Err WordsRefusal.NoMemory → result ≡ ok_or (node_asked_by (map string_bytes words.now)) WordsRefusal.Usage }
    ensures name { IfOk result (λ asked. IsName asked.settings asked.name) }
{
    let matches = accepted(alloc, words)?;
    match asked_in(&matches) {
        Some(asked) => Ok(asked),
        None => Err(WordsRefusal::Usage),
    }
}

/// The file that names the members with which the node begins, as the words name it: `None` exactly if they name none.
///
/// Words are refused as `read_words` refuses them.
///
/// Rule: docs/NETWORK.md, "The process of a node".
pub fn members_file<'a>(alloc: Global, words: &'a [String]) -> Result<Option<&'a str>, WordsRefusal>
    ensures value { IfOk result (λ file. option_map (λ f. f.now) file ≡ members_file_by (map string_bytes words.entry.now)) }
    ensures accepted { IfOk result (λ _. node_asked_by (map string_bytes words.entry.now) ≢ None) }
    ensures refused { result ≡ Err WordsRefusal.Usage → node_asked_by (map string_bytes words.entry.now) ≡ None }
{
    let matches = accepted(alloc, words)?;
    match asked_in(&matches) {
        Some(_) => Ok(matches.get_str("members")),
        None => Err(WordsRefusal::Usage),
    }
}

// What the command finds in the words that it takes.
fn accepted<'a>(alloc: Global, words: &'a [String]) -> Result<ArgMatches<'a>, WordsRefusal>
    ensures asked { IfOk result (λ m. node_asked_in_rows (rows_of (found_of m)) ≡ node_asked_by (map string_bytes words.entry.now)) }
    ensures members { IfOk result (λ m. members_file_in_rows (rows_of (found_of m)) ≡ members_file_by (map string_bytes words.entry.now)) }
    ensures refused { result ≡ Err WordsRefusal.Usage → node_asked_by (map string_bytes words.entry.now) ≡ None }
{
    match matches(alloc, words) {
        Ok(matches) => Ok(matches),
        Err(error) => match error.kind() {
            ErrorKind::OutOfMemory => Err(WordsRefusal::NoMemory),
            _ => Err(WordsRefusal::Usage),
        },
    }
}

// What the matches say.
fn asked_in(matches: &ArgMatches) -> Option<Asked>
    ensures value { result ≡ node_asked_in_rows (rows_of (found_of matches.now)) }
    ensures name { IfSome result (λ asked. IsName asked.settings asked.name) }
{
    let base = byte_at(matches, "base")?;
    let digits = byte_at(matches, "digits")?;
    let width = byte_at(matches, "width")?;
    let settings = Settings::new(base, digits, width)?;
    let name = name_at(matches, &settings)?;
    Some(Asked { settings, name })
}

// The number below 256 at an option.
fn byte_at(matches: &ArgMatches, id: &str) -> Option<u8>
    ensures { result ≡ byte_in (first_of id.now (rows_of (found_of matches.now))) }
{
    let text = matches.get_str(id)?;
    match read_number(text.as_bytes(), 255) {
        Some(number) => Some(number as u8),
        None => None,
    }
}

// The name at its option.
fn name_at(matches: &ArgMatches, settings: &Settings) -> Option<Name>
    ensures value { result ≡ name_in_rows settings.now (rows_of (found_of matches.now)) }
    ensures valid { IfSome result (IsName settings.now) }
{
    let text = matches.get_str("name")?;
    read_name(settings, text.as_bytes()).ok()
}
