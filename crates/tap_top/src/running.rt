ghost use Rattle.std.specs.Prelude.{◌≡◌, None, length, fold};
ghost use Rattle.tap_io.specs.Sink.{SinkState};
ghost use Rattle.tap_engine.specs.World.{whole_log};
ghost use Rattle.tap_replay.specs.Runs.{HasPlayed, LeavesWorld};
ghost use Rattle.tap_report.specs.Reporter.{Reports, settings_after};
ghost use Rattle.tap_report.specs.declared.mode.Mode.{Mode as ReportMode};
ghost use Rattle.tap_scenario.specs.Scenario.{IsScript};

use tap_io::Sink;
use tap_replay::{End, Player, Turned, turns_and_put};
use tap_report::Reporter;
use tap_scenario::Scenario;

// So many records or more are put together; fewer only at the end.
const PUT_TOGETHER: usize = 256;

// Plays a scenario to its end, and puts the records of some turns together once these are over.
pub(crate) fn play<K: Sink>(
    player: &mut Player,
    scenario: &Scenario,
    reporter: &mut Reporter,
    sink: &mut K,
) -> End
    requires valid { IsScript scenario.now }
    requires played { HasPlayed scenario.now player.old }
    requires begun { player.old.over ≡ None }
    requires put { reporter.old.records ≡ length (whole_log player.old.world) }
    requires settings { reporter.old.settings ≡ fold settings_after None (whole_log player.old.world) }
    ensures left { LeavesWorld scenario.now result player.new.world }
    ensures reports { (mode : ReportMode) (first : SinkState)
        → Reports mode (whole_log player.old.world) first (K.state sink.old) reporter.old
        → Reports mode (whole_log player.new.world) first (K.state sink.new) reporter.new }
{
    loop {
        if let Turned::Over(end) = turns_and_put(player, scenario, PUT_TOGETHER, reporter, sink) {
            return end;
        }
    }
}
