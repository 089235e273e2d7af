ghost use Rattle.std.specs.Prelude.{◌≡◌, ◌≢◌, ◌≤◌, map, IfOk, IfSome, Err, ok_or};
ghost use Rattle.std.specs.String.{string_bytes};
ghost use Rattle.clap.specs.Words.{found_of, one_of, rows_of};
ghost use Rattle.tap_words.specs.Words.{asked_by, asked_of_rows, bool_of, joins_within, most_joins, number_of};

use crate::command::matches;
use clap::ArgMatches;
use clap::error::ErrorKind;
use std::alloc::Global;
use std::error::Error;
use std::fmt;

/// For how many joins a scenario may be made.
///
/// Rule: docs/FORMATS.md, "The words".
pub const MOST_JOINS: u32 = 100;

/// What the words of a command line ask for.
///
/// Rule: docs/FORMATS.md, "The words".
#[derive(Clone, Copy, Debug, PartialEq, Eq)]
pub struct Asked {
    /// Whether the text is to be brief.
    pub brief: bool,
    /// For how many joins a scenario is to be made. If there is none, one is read.
    pub make: Option<u32>,
    /// The seed that it is made from: 1 unless the words have another one.
    pub seed: u64,
}

/// Why words are refused.
///
/// Rule: docs/FORMATS.md, "The words".
#[derive(Clone, Copy, Debug, PartialEq, Eq)]
pub enum WordsRefusal {
    /// They aren't words of the program, or they ask for help.
    Usage,
    /// Memory was refused.
    NoMemory,
}

impl fmt::Display for WordsRefusal {
    fn fmt<W: fmt::Write>(&self, f: &mut fmt::Formatter<W>) -> fmt::Result {
        match self {
            WordsRefusal::Usage => f.write_str("no words of the program"),
            WordsRefusal::NoMemory => f.write_str("no memory"),
        }
    }
}

impl Error for WordsRefusal {}

/// What the words of a command line, without the program's name, ask for.
///
/// `Usage` comes exactly if the command refuses the words, or if the number after `--make` isn't 1 to [`MOST_JOINS`]. Which words
/// are accepted for sure says [`crate::plain_words_law`].
///
/// Rule: docs/FORMATS.md, "The words".
pub fn read_words(alloc: Global, words: &[String]) -> Result<Asked, WordsRefusal>
    ensures value { result ≢ Err WordsRefusal.NoMemory → result ≡ ok_or (asked_by (map string_bytes words.now)) WordsRefusal.Usage }
    ensures joins { IfOk result (λ asked. IfSome asked.make (λ joins. (1 ≤ joins) × (joins ≤ most_joins))) }
{
    match matches(alloc, words) {
        Ok(matches) => asked_in(&matches),
        Err(error) => match error.kind() {
            ErrorKind::OutOfMemory => Err(WordsRefusal::NoMemory),
            _ => Err(WordsRefusal::Usage),
        },
    }
}

// What the matches ask for.
fn asked_in(matches: &ArgMatches) -> Result<Asked, WordsRefusal>
    ensures value { result ≡ ok_or (asked_of_rows (rows_of (found_of matches.now))) WordsRefusal.Usage }
    ensures joins { IfOk result (λ asked. IfSome asked.make (λ joins. (1 ≤ joins) × (joins ≤ most_joins))) }
{
    Ok(Asked {
        brief: flag_at(matches, "brief"),
        make: joins_within(number_at(matches, "make"))?,
        seed: number_at(matches, "seed").unwrap_or(1),
    })
}

// Whether a flag is given.
fn flag_at(matches: &ArgMatches, id: &str) -> bool
    ensures { result ≡ bool_of (one_of id.now (rows_of (found_of matches.now))) }
{
    match matches.get_one::<bool>(id) {
        Some(flag) => flag,
        None => false,
    }
}

// The number at an option.
fn number_at(matches: &ArgMatches, id: &str) -> Option<u64>
    ensures { result ≡ number_of (one_of id.now (rows_of (found_of matches.now))) }
{
    matches.get_one::<u64>(id)
}

// The number of joins, refused if it isn't within its limits.
fn joins_within(number: Option<u64>) -> Result<Option<u32>, WordsRefusal>
    ensures value { result ≡ ok_or (joins_within number) WordsRefusal.Usage }
    ensures joins { IfOk result (λ make. IfSome make (λ joins. (1 ≤ joins) × (joins ≤ most_joins))) }
{
    let Some(joins) = number else {
        return Ok(None);
    };
    if joins < 1 || joins > MOST_JOINS as u64 {
        return Err(WordsRefusal::Usage);
    }
    Ok(Some(joins as u32))
}
