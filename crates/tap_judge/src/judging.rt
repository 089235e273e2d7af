ghost use Rattle.std.specs.Prelude.{◌≡◌, ◌-◌, ◌^◌, ◌<◌, IfOk, IfSome, None, length};
ghost use Rattle.tap_carried.specs.LogTurns.{beginning_records};
ghost use Rattle.tap_engine.specs.World.{whole_log};
ghost use Rattle.tap_lawful.specs.Next.{beginning_in};
ghost use Rattle.tap_lawful.specs.PlayedLaws.{BeginsWith};
ghost use Rattle.tap_lawful.specs.RunLaws.{left_in};
ghost use Rattle.tap_own_scripts.specs.Own.{own_script};
ghost use Rattle.tap_replay.specs.Player.{MayTurn};
ghost use Rattle.tap_replay.specs.Runs.{HasPlayed};
ghost use Rattle.tap_shape.specs.Shape.{IsShape};
ghost use Rattle.tap_judge.specs.Verdict.{IsVerdictOn};

use crate::comparing::{Compared, same_records};
use crate::own_run::own_scenario;
use crate::verdict::Verdict;
use std::alloc::Global;
use tap_log::Log;
use tap_replay::Player;
use tap_scenario::{NoMemory, Scenario};

/// Decides whether a log is lawful: that of a run of some scenario, however far it has come and however it has ended.
///
/// It makes the scenario of the log itself: of what it begins with and the steps that it has begun, up to the first `Finished`. The run of
/// this scenario is compared with the log, one turn after the other. The answer is exact, unless memory was refused, which `NoMemory`
/// says. It takes memory for the run, which is at most one group longer than what is the same.
///
/// Condition: the log is one whose text can be read, and has fewer than 2^32 - 1 records.
///
/// Rule: docs/FORMATS.md, "The judge".
pub fn judge(alloc: Global, log: &Log) -> Verdict
    requires shape { IsShape log.now.records }
    requires few { length log.now.records < 2 ^ 32 - 1 }
    ensures { IsVerdictOn log.now.records result }
{
    let scenario = match own_scenario(alloc, log.as_slice()) {
        Ok(scenario) => scenario,
        Err(NoMemory) => return Verdict::NoMemory,
    };
    match verdict_of_run(alloc, &scenario, log) {
        Ok(verdict) => verdict,
        Err(tap_replay::NoMemory) => Verdict::NoMemory,
    }
}

// The verdict by the run of the log's own scenario. The player is dropped in one place: what is shown of that is long.
fn verdict_of_run(
    alloc: Global,
    scenario: &Scenario,
    log: &Log,
) -> Result<Verdict, tap_replay::NoMemory>
    requires own { scenario.now ≡ own_script log.now.records }
    requires shape { IsShape log.now.records }
    requires few { length log.now.records < 2 ^ 32 - 1 }
    ensures { IfOk result (IsVerdictOn log.now.records) }
{
    let mut player = Player::new(alloc, scenario)?;
    Ok(verdict_from_beginning(&mut player, scenario, log))
}

// The verdict by a player that has taken no turn.
fn verdict_from_beginning(player: &mut Player, scenario: &Scenario, log: &Log) -> Verdict
    requires own { scenario.now ≡ own_script log.now.records }
    requires shape { IsShape log.now.records }
    requires few { length log.now.records < 2 ^ 32 - 1 }
    requires played { HasPlayed scenario.now player.old }
    requires begun { player.old.over ≡ None }
    requires may { MayTurn scenario.now (whole_log player.old.world) }
    requires beginning { whole_log player.old.world ≡ beginning_records scenario.now.carrier (beginning_in scenario.now) }
    ensures { IsVerdictOn log.now.records result }
{
    if player.log().len() == log.len() {
        return Verdict::Lawful;
    }
    play(player, scenario, log)
}

// Takes one turn after the other, up to the verdict.
fn play(player: &mut Player, scenario: &Scenario, log: &Log) -> Verdict
    requires own { scenario.now ≡ own_script log.now.records }
    requires few { length log.now.records < 2 ^ 32 - 1 }
    requires played { HasPlayed scenario.now player.old }
    requires begun { player.old.over ≡ None }
    requires may { MayTurn scenario.now (whole_log player.old.world) }
    requires begins { BeginsWith (whole_log player.old.world) log.now.records }
    requires more { length (whole_log player.old.world) < length log.now.records }
    ensures { IsVerdictOn log.now.records result }
{
    loop {
        if let Some(verdict) = verdict_after_turn(player, scenario, log) {
            return verdict;
        }
    }
}

// Takes a turn, and gives the verdict after it, if there is one.
fn verdict_after_turn(player: &mut Player, scenario: &Scenario, log: &Log) -> Option<Verdict>
    requires own { scenario.now ≡ own_script log.now.records }
    requires few { length log.now.records < 2 ^ 32 - 1 }
    requires played { HasPlayed scenario.now player.old }
    requires begun { player.old.over ≡ None }
    requires may { MayTurn scenario.now (whole_log player.old.world) }
    requires begins { BeginsWith (whole_log player.old.world) log.now.records }
    requires more { length (whole_log player.old.world) < length log.now.records }
    ensures verdict { IfSome result (IsVerdictOn log.now.records) }
    ensures played { HasPlayed scenario.now player.new }
    ensures begun { result ≡ None → player.new.over ≡ None }
    ensures may { MayTurn scenario.now (whole_log player.new.world) }
    ensures begins { result ≡ None → BeginsWith (whole_log player.new.world) log.now.records }
    ensures more { result ≡ None → length (whole_log player.new.world) < length log.now.records }
    ensures less { result ≡ None → left_in scenario.now (whole_log player.new.world) < left_in scenario.now (whole_log player.old.world) }
{
    // No effect at run time. The proof reads from this call that the scenario is within its limits.
    let _ = scenario.step_count();
    let seen = player.log().len();
    let turned = player.turn(scenario);
    let same = same_records(player.log().as_slice(), log.as_slice(), seen);
    let compared = Compared {
        carried: scenario.carrier(),
        all: log.len(),
    };
    compared.after(turned, player.log().len(), same)
}
