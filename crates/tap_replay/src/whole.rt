ghost use Rattle.std.specs.Prelude.{◌≡◌, IfSome};
ghost use Rattle.tap_engine.specs.World.{HasNodesOfLog, whole_log};
ghost use Rattle.tap_headline.specs.Runs.{HasHeadlineBy};
ghost use Rattle.tap_lawful.specs.Runs.{IsLawful};
ghost use Rattle.tap_replay.specs.Whole.{IsReplay};

use crate::end::{End, Turned};
use crate::player::Player;
use std::alloc::Global;
use tap_scenario::Scenario;
use tap_world::{NoMemory, World};

/// What a replay leaves: its world, and how it has ended.
///
/// Rule: docs/FORMATS.md, "The ways a run ends".
#[derive(Drop)]
pub struct Played {
    /// The world, whose log is that of the replay. There is none only if memory was refused, and the log is empty then.
    pub world: Option<World>,
    /// How the run has ended.
    pub end: End,
}

/// Runs a scenario to its end: the turns of a player, until the run is over.
///
/// `Done` comes exactly if every step was run, and `Spent` exactly if the next group would have sent more frames than may be sent; the
/// log ends with the record that says so. `NoMemory` comes only if memory was refused. The run takes memory of `alloc`.
///
/// After `Done` the nodes of the world are those of the system that its log has come to; after `Spent` it was stopped, and after `NoMemory` it
/// may have been. However the run has ended, its log is lawful and has the headline.
///
/// Rule: docs/FORMATS.md, "What comes next".
pub fn replay(alloc: Global, scenario: &Scenario) -> Played
    ensures left { IsReplay scenario.now result }
    ensures nodes { result.end ≡ End.Done → IfSome result.world HasNodesOfLog }
    ensures lawful { IfSome result.world (λ world. IsLawful (whole_log world)) }
    ensures headline { IfSome result.world (λ world. HasHeadlineBy scenario.now (whole_log world)) }
{
    let mut player = match Player::new(alloc, scenario) {
        Ok(player) => player,
        Err(NoMemory) => {
            return Played {
                world: None,
                end: End::NoMemory,
            };
        }
    };
    loop {
        if let Turned::Over(end) = player.turn(scenario) {
            return Played {
                world: Some(player.into_world()),
                end,
            };
        }
    }
}
