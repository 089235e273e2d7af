ghost use Rattle.std.specs.Prelude.{◌≤◌, All, IfOk, IfSome, length};
ghost use Rattle.tap_name.specs.Distinct.{AreDistinct};
ghost use Rattle.tap_name.specs.Name.{IsName};

use anyhow::{Result, bail};
use std::alloc::Global;
use tap_name::{List, Name, Settings, read_name};

// More members than this have no ties at rest here.
const MOST_MEMBERS: usize = 256;

// The members that these words name, none if a word is no name, one comes twice, or there are too many.
pub(crate) fn read_members(
    alloc: Global,
    settings: &Settings,
    words: &[&str],
) -> Result<Option<List<Name>>>
    ensures names { IfOk result (λ r. IfSome r (All (IsName settings.now))) }
    ensures distinct { IfOk result (λ r. IfSome r AreDistinct) }
    ensures few { IfOk result (λ r. IfSome r (λ members. length members ≤ 256)) }
{
    let mut members = List::new(alloc);
    for word in words {
        let Ok(name) = read_name(settings, word.as_bytes()) else {
            return Ok(None);
        };
        if members.len() >= MOST_MEMBERS {
            return Ok(None);
        }
        if members.as_slice().contains(&name) {
            return Ok(None);
        }
        let Ok(()) = members.push(name) else {
            bail!("no memory");
        };
    }
    Ok(Some(members))
}
