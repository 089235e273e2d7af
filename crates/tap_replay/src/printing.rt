ghost use Rattle.std.specs.Prelude.{◌≡◌, ◌<◌, ◌≤◌, None, length, fold, take};
ghost use Rattle.tap_io.specs.Sink.{SinkState};
ghost use Rattle.tap_engine.specs.World.{whole_log};
ghost use Rattle.tap_replay.specs.Player.{over_by};
ghost use Rattle.tap_lawful.specs.RunLaws.{left_in};
ghost use Rattle.tap_replay.specs.Runs.{HasPlayed};
ghost use Rattle.tap_report.specs.Reporter.{Reports, most_records, settings_after};
ghost use Rattle.tap_report.specs.Text.{IsPrintableLog};
ghost use Rattle.tap_report.specs.declared.mode.Mode.{Mode as ReportMode};
ghost use Rattle.tap_scenario.specs.Scenario.{IsScript};

use crate::end::Turned;
use crate::player::Player;
use tap_io::Sink;
use tap_log::Log;
use tap_report::Reporter;
use tap_scenario::Scenario;

/// Puts the records of a log from a place on, counted from 0, to a reporter to which those before it were put. What is then written is said
/// by `reports`, from whichever state of the sink the reporter began at: the texts of all records, or, after the first write that failed, some
/// first bytes of them.
///
/// Condition: the log can be printed, has fewer than 4,000,000,000 records, and not fewer than the place says.
///
/// Rule: docs/FORMATS.md, "The printed text".
pub fn put_from<K: Sink>(log: &Log, from: usize, reporter: &mut Reporter, sink: &mut K)
    requires printable { IsPrintableLog log.now.records }
    requires few { length log.now.records < most_records }
    requires from { from ≤ length log.now.records }
    requires put { reporter.old.records ≡ from }
    requires settings { reporter.old.settings ≡ fold settings_after None (take from log.now.records) }
    ensures put { reporter.new.records ≡ length log.now.records }
    ensures settings { reporter.new.settings ≡ fold settings_after None log.now.records }
    ensures reports { (mode : ReportMode) (first : SinkState)
        → Reports mode (take from log.now.records) first (K.state sink.old) reporter.old
        → Reports mode log.now.records first (K.state sink.new) reporter.new }
{
    reporter.put_all(&log.as_slice()[from..], sink);
}

/// Has a player take turns until `enough` records were added or the run is over, one turn at least, and puts the records that the turns have
/// added, also if memory was refused in the last one. The answer is that of the last turn: it doesn't depend on the sink. If the run goes on
/// then, fewer turns are left.
///
/// Records that are put together are written in fewer pieces. Whoever asks for one record has each turn put.
///
/// Condition: the player plays this scenario, its run isn't over, and all records so far were put to the reporter.
///
/// Rule: docs/FORMATS.md, "The printed text".
pub fn turns_and_put<K: Sink>(
    player: &mut Player,
    scenario: &Scenario,
    enough: usize,
    reporter: &mut Reporter,
    sink: &mut K,
) -> Turned
    requires valid { IsScript scenario.now }
    requires played { HasPlayed scenario.now player.old }
    requires begun { player.old.over ≡ None }
    requires put { reporter.old.records ≡ length (whole_log player.old.world) }
    requires settings { reporter.old.settings ≡ fold settings_after None (whole_log player.old.world) }
    ensures played { HasPlayed scenario.now player.new }
    ensures over { player.new.over ≡ over_by result }
    ensures put { reporter.new.records ≡ length (whole_log player.new.world) }
    ensures settings { reporter.new.settings ≡ fold settings_after None (whole_log player.new.world) }
    ensures reports { (mode : ReportMode) (first : SinkState)
        → Reports mode (whole_log player.old.world) first (K.state sink.old) reporter.old
        → Reports mode (whole_log player.new.world) first (K.state sink.new) reporter.new }
    ensures less { result ≡ Turned.More → left_in scenario.now (whole_log player.new.world) < left_in scenario.now (whole_log player.old.world) }
{
    let from = player.log().len();
    let turned = take_turns(player, scenario, from.saturating_add(enough));
    put_from(player.log(), from, reporter, sink);
    turned
}

// Takes turns until the log has so many records or the run is over, one at least.
fn take_turns(player: &mut Player, scenario: &Scenario, enough: usize) -> Turned
    requires valid { IsScript scenario.now }
    requires played { HasPlayed scenario.now player.old }
    requires begun { player.old.over ≡ None }
    ensures played { HasPlayed scenario.now player.new }
    ensures over { player.new.over ≡ over_by result }
    ensures front { take (length (whole_log player.old.world)) (whole_log player.new.world) ≡ whole_log player.old.world }
    ensures less { result ≡ Turned.More → left_in scenario.now (whole_log player.new.world) < left_in scenario.now (whole_log player.old.world) }
{
    loop {
        let turned = player.turn(scenario);
        if let Turned::Over(_) = turned {
            return turned;
        }
        if player.log().len() >= enough {
            return turned;
        }
    }
}
