ghost use Rattle.std.specs.Prelude.{◌≡◌, false, map, IfOk};
ghost use Rattle.std.specs.String.{string_bytes};
ghost use Rattle.clap.specs.Words.{FailsBy, app_of, found_of, matches_of, rows_of, rule_of};
ghost use Rattle.tap_words.specs.Command.{bare_app, brief_rule, command_app, faults, make_rule, seed_rule};

use clap::{Arg, ArgAction, ArgMatches, Command, Error};
use std::alloc::{AllocError, Global};

fn brief_arg<'a>(alloc: Global) -> Arg<'a>
    ensures rule { rule_of result ≡ brief_rule }
    ensures local { result.global ≡ false }
{
    Arg::new(alloc, "brief")
        .long("brief")
        .action(ArgAction::SetTrue)
}

fn make_arg<'a>(alloc: Global) -> Arg<'a>
    ensures rule { rule_of result ≡ make_rule }
    ensures local { result.global ≡ false }
{
    Arg::new(alloc, "make")
        .long("make")
        .action(ArgAction::Set)
        .value_parser(clap::value_parser!(u64))
}

fn seed_arg<'a>(alloc: Global) -> Arg<'a>
    ensures rule { rule_of result ≡ seed_rule }
    ensures local { result.global ≡ false }
{
    Arg::new(alloc, "seed")
        .long("seed")
        .action(ArgAction::Set)
        .value_parser(clap::value_parser!(u64))
}

fn bare_command<'a>(alloc: Global) -> Command<'a>
    ensures { app_of result ≡ bare_app }
{
    Command::new(alloc, "tapestry").no_binary_name(true)
}

// The command: a flag and two options.
fn command<'a>(alloc: Global) -> Result<Command<'a>, AllocError>
    ensures { IfOk result (λ c. app_of c ≡ command_app) }
{
    bare_command(alloc)
        .arg(brief_arg(alloc))?
        .arg(make_arg(alloc))?
        .arg(seed_arg(alloc))
}

// What the command finds in the words, or why it refuses them.
pub(crate) fn matches<'a>(alloc: Global, words: &'a [String]) -> Result<ArgMatches<'a>, Error>
    ensures ok { IfOk result (λ m. rows_of (found_of m) ≡ matches_of command_app (map string_bytes words.entry.now)) }
    ensures faults { FailsBy (faults (map string_bytes words.entry.now)) result }
{
    command(alloc)?.try_get_matches_from(words)
}
