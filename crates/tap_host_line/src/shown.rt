ghost use Rattle.std.specs.Prelude.{map, IfOk};
ghost use Rattle.std.specs.String.{string_bytes};
ghost use Rattle.tap_host_line.specs.Command.{IsTextFor, faults_of_node_words};

use crate::command::matches;
use crate::memory::NoMemory;
use clap::Error;
use clap::error::ErrorKind;
use std::alloc::Global;

/// The text for which the words ask, of help or of the version, which its `Display` prints: `None` if they ask for neither.
///
/// `NoMemory` comes if memory was refused.
///
/// Rule: docs/NETWORK.md, "The process of a node".
pub fn text_asked(alloc: Global, words: &[String]) -> Result<Option<Error>, NoMemory>
    ensures { IfOk result (IsTextFor (faults_of_node_words (map string_bytes words.now))) }
{
    match matches(alloc, words) {
        Ok(_) => Ok(None),
        Err(error) => match error.kind() {
            ErrorKind::OutOfMemory => Err(NoMemory),
            ErrorKind::DisplayHelp | ErrorKind::DisplayVersion => Ok(Some(error)),
            _ => Ok(None),
        },
    }
}
