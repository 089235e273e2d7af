ghost use Rattle.std.specs.Prelude.{◌≡◌, ◌<◌, IfOk};
ghost use Rattle.tap_carried.specs.LogTurns.{beginning_records};
ghost use Rattle.tap_engine.specs.World.{whole_log};
ghost use Rattle.tap_headline.specs.Runs.{HasHeadlineBy};
ghost use Rattle.tap_lawful.specs.Runs.{IsLawful};
ghost use Rattle.tap_lawful.specs.Next.{beginning_in};
ghost use Rattle.tap_replay.specs.Player.{MayTurn, over_by};
ghost use Rattle.tap_replay.specs.Runs.{HasPlayed, TakesTurn};
ghost use Rattle.tap_lawful.specs.RunLaws.{left_in};

use crate::end::{End, Turned};
use crate::runs::Running;
use std::alloc::Global;
use std::marker::Model;
use tap_log::Log;
use tap_scenario::Scenario;
use tap_world::{NoMemory, World};

/// A player runs a scenario, one group of records at each turn. It takes the steps in their order, and after a step that chooses what
/// comes next, the frames that are taken one by one, or in a carried run the packets that arrive and the ticks.
///
/// Contracts see its world, and how the run has ended, if it has.
///
/// Rule: docs/FORMATS.md, "What comes next".
#[derive(Drop)]
pub struct Player {
    running: Running,
    over: Option<End>,
}

impl Model for Player {
    ghost use Rattle.tap_replay.specs.Player.{PlayerValue};
    ghost use Rattle.tap_replay.specs.Runs.{IsPlayer, world_of};

    ghost Value = { PlayerValue };

    ghost view = { λ p. record { world = world_of p.running; over = p.over } };

    ghost invariant = { λ p. IsPlayer p.running p.over };
}

impl Player {
    ghost use Rattle.std.specs.Prelude.{None, false};
    ghost use Rattle.tap_engine.specs.World.{HasBegun};

    /// A player before its first turn: the members are core nodes at rest, and the log has the record `Begin` alone, or with `Carrier` if
    /// the scenario is carried.
    ///
    /// Later turns take memory of `alloc`. `NoMemory` if memory was refused.
    pub fn new(alloc: Global, scenario: &Scenario) -> Result<Player, NoMemory>
        ensures world { scenario.now.carrier ≡ false → IfOk result (λ player. HasBegun (beginning_in scenario.now) player.world) }
        ensures log { IfOk result (λ player. whole_log player.world ≡ beginning_records scenario.now.carrier (beginning_in scenario.now)) }
        ensures over { IfOk result (λ player. player.over ≡ None) }
        ensures played { IfOk result (HasPlayed scenario.now) }
        ensures may { IfOk result (λ player. MayTurn scenario.now (whole_log player.world)) }
        ensures headline { IfOk result (λ player. HasHeadlineBy scenario.now (whole_log player.world)) }
    {
        let running = Running::new(alloc, scenario)?;
        Ok(Player {
            running,
            over: None,
        })
    }

    /// Adds the group that comes next: that of the frame, or in a carried run of the packet or tick, which is due by the last step, and if
    /// none is, that of the next step.
    ///
    /// `More` comes exactly if it has added one whole group and a further one comes after it. If none does, the turn has added
    /// `Finished` too, and answers `Over(Done)`. It answers `Over(Spent)` exactly if with this group more frames would be sent than
    /// may be: of the group it has added the step of a start alone, or in a carried run that a packet arrives, and then `Spent`.
    /// `Over(NoMemory)` comes only if memory was refused; it adds nothing, or in a carried run some first records of the group. A turn after
    /// `Over` answers the same again, and adds nothing.
    ///
    /// Condition: the log begins as the scenario does, its steps are the scenario's first ones, and they are all of them if it has
    /// `Finished`; so it is after each turn by the same scenario.
    pub fn turn(&mut self, scenario: &Scenario) -> Turned
        requires { MayTurn scenario.now (whole_log self.old.world) }
        ensures turns { TakesTurn scenario.now self.old result self.new }
        ensures over { self.new.over ≡ over_by result }
        ensures played { HasPlayed scenario.now self.new }
        ensures may { MayTurn scenario.now (whole_log self.new.world) }

        // The log is that of a run of a scenario.
        ensures lawful { IsLawful (whole_log self.new.world) }

        // At each moment of the log there is a core node, no table has a hole, each walk leads to the one root, and at rest each node that
        // is present is core, who departed is gone and each lookup is answered; and what is said of pointers, lookups, casts, sessions,
        // watch lists and the frames of joins holds. In a carried run each frame is taken at most once, and exactly once at rest.
        ensures headline { HasHeadlineBy scenario.now (whole_log self.new.world) }

        // So a caller that takes one turn after the other comes to an end.
        ensures less { result ≡ Turned.More → left_in scenario.now (whole_log self.new.world) < left_in scenario.now (whole_log self.old.world) }
    {
        // No effect at run time. The proof reads from this call that the scenario is within its limits.
        let _ = scenario.step_count();
        if let Some(end) = self.over {
            return Turned::Over(end);
        }
        let turned = self.running.turn(scenario);
        self.over = end_in(turned);
        turned
    }

    /// The world, whose nodes and log the turns have made.
    pub fn world(&self) -> &World
        ensures { result.now ≡ self.now.world }
    {
        self.running.world()
    }

    /// The whole log of the world.
    pub fn log(&self) -> &Log
        ensures { result.now.records ≡ whole_log self.now.world }
    {
        self.running.world().log()
    }

    /// Hands on the world, as the turns have left it.
    pub fn into_world(self) -> World
        ensures { result ≡ self.world }
    {
        let Player { running, .. } = self;
        running.into_world()
    }
}

// How a run is over after the answer of a turn, if it is.
fn end_in(turned: Turned) -> Option<End>
    ensures { result ≡ over_by turned }
{
    match turned {
        Turned::More => None,
        Turned::Over(end) => Some(end),
    }
}
