ghost use Rattle.std.specs.Prelude.{◌≡◌, false, map, IfOk};
ghost use Rattle.std.specs.String.{string_bytes};
ghost use Rattle.clap.specs.Words.{FailsBy, app_of, found_of, matches_of, rows_of, rule_of};
ghost use Rattle.tap_host_line.specs.Command.{bare_node_app, faults_of_node_words, node_app, option_rule};

use clap::{Arg, ArgAction, ArgMatches, Command, Error};
use std::alloc::{AllocError, Global};

// An option with one value, of which help says this.
fn option_arg<'a>(alloc: Global, name: &'a str, help: &'a str) -> Arg<'a>
    ensures rule { rule_of result ≡ option_rule name.now }
    ensures local { result.global ≡ false }
{
    Arg::new(alloc, name)
        .long(name)
        .action(ArgAction::Set)
        .help(help)
}

fn bare_command<'a>(alloc: Global) -> Command<'a>
    ensures { app_of result ≡ bare_node_app }
{
    Command::new(alloc, "tapestry_node")
        .no_binary_name(true)
        .about("Runs one node of Tapestry: reads lines, and prints what comes of them.")
        .version("0.1.0")
}

// The command: five options, help and the version.
fn command<'a>(alloc: Global) -> Result<Command<'a>, AllocError>
    ensures { IfOk result (λ c. app_of c ≡ node_app) }
{
    bare_command(alloc)
        .arg(option_arg(alloc, "base", "How many digits there are, 2 to 16"))?
        .arg(option_arg(alloc, "digits", "How many digits a name has, 1 to 40"))?
        .arg(option_arg(
            alloc,
            "width",
            "How many links a slot of a table has at most, 1 to 4",
        ))?
        .arg(option_arg(alloc, "name", "The node's name"))?
        .arg(option_arg(
            alloc,
            "members",
            "A file with the names of the members, if the node is one",
        ))
}

// What the command finds in the words, or why it refuses them.
pub(crate) fn matches<'a>(alloc: Global, words: &'a [String]) -> Result<ArgMatches<'a>, Error>
    ensures ok { IfOk result (λ m. rows_of (found_of m) ≡ matches_of node_app (map string_bytes words.entry.now)) }
    ensures faults { FailsBy (faults_of_node_words (map string_bytes words.entry.now)) result }
{
    command(alloc)?.try_get_matches_from(words)
}
