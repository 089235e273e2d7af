ghost use Rattle.std.specs.Prelude.{IfOk, IfErr};
ghost use Rattle.tap_scenario.specs.Scenario.{IsScript};
ghost use Rattle.tap_top.specs.Reading.{HasReadScript};
ghost use Rattle.tap_top.specs.Wanted.{IsUnread};

use crate::status::Status;
use std::alloc::Global;
use tap_io::{Source, Unread, read_all};
use tap_scenario::{ReadRefusal, Scenario, read};

/// The most bytes that a scenario's text may have.
///
/// Rule: docs/PROTOCOL.md, "Limits".
pub const MOST_BYTES: usize = 1_048_576;

// The scenario that all bytes of a source spell.
pub(crate) fn read_scenario<S: Source>(alloc: Global, source: &mut S) -> Result<Scenario, Status>
    ensures script { IfOk result (HasReadScript (S.state source.old) (S.state source.new)) }
    ensures valid { IfOk result IsScript }
    ensures unread { IfErr result (IsUnread (S.state source.old) (S.state source.new)) }
{
    let bytes = match read_all(alloc, source, MOST_BYTES) {
        Ok(bytes) => bytes,
        Err(Unread::Failed) => return Err(Status::ReadFault),
        Err(Unread::TooLong) => return Err(Status::TooLong),
        Err(Unread::NoMemory) => return Err(Status::NoMemory),
    };
    match read(alloc, bytes.as_slice()) {
        Ok(scenario) => Ok(scenario),
        Err(ReadRefusal::Fault(fault)) => Err(Status::NotScenario(fault)),
        Err(ReadRefusal::NoMemory) => Err(Status::NoMemory),
    }
}
