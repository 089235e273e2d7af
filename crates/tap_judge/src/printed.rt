ghost use Rattle.std.specs.Prelude.{◌≡◌, None, length, fold, IfOk, IfSome};
ghost use Rattle.tap_engine.specs.World.{whole_log};
ghost use Rattle.tap_io.specs.Sink.{SinkState};
ghost use Rattle.tap_replay.specs.Runs.{HasPlayed};
ghost use Rattle.tap_report.specs.Reporter.{Reports, settings_after};
ghost use Rattle.tap_report.specs.declared.mode.Mode.{Mode as ReportMode};
ghost use Rattle.tap_scenario.specs.Scenario.{IsScript};
ghost use Rattle.tap_judge.specs.Ending.{IsLawfulText};
ghost use Rattle.tap_judge.specs.Expected.{expected_state};

use crate::expected::Expected;
use crate::own_run::own_scenario;
use std::alloc::Global;
use tap_lawful_shapes::shapes_law;
use tap_replay::{End, NoMemory, Player, Turned, put_from, turns_and_put};
use tap_report::{Mode, Reporter};
use tap_scenario::Scenario;
use tap_shape::read_opening;

// So many bytes of the text are counted for each record of turns that are put together.
const BYTES_FOR_EACH: usize = 4_096;

// So many records are put together at most, but for those of the last turn.
const MOST_TOGETHER: usize = 256;

// How many records the log has of which the bytes are the text, if the run of the scenario that they tell prints them, however far it has come
// then. That log is lawful. The run is left once it has printed something else, or all of the bytes. If memory is refused in a turn, the answer is
// that, even if the bytes end before the records of that turn.
pub(crate) fn record_count_as_printed(alloc: Global, bytes: &[u8]) -> Result<Option<u32>, NoMemory>
    ensures { IfOk result (λ found. IfSome found (IsLawfulText bytes.now)) }
{
    match scenario_of_opening(alloc, bytes)? {
        Some(scenario) => record_count_of_run(alloc, &scenario, bytes),
        None => Ok(None),
    }
}

// The scenario that a text tells by the lines that open its log and begin its steps, if these are the text of a log.
fn scenario_of_opening(alloc: Global, bytes: &[u8]) -> Result<Option<Scenario>, NoMemory>
    ensures { IfOk result (λ found. IfSome found IsScript) }
{
    match read_opening(alloc, bytes)? {
        Some(log) => Ok(Some(own_scenario(alloc, log.as_slice())?)),
        None => Ok(None),
    }
}

// The same count for the run of this scenario. The player is dropped in one place: what is shown of that is long.
fn record_count_of_run(
    alloc: Global,
    scenario: &Scenario,
    bytes: &[u8],
) -> Result<Option<u32>, NoMemory>
    requires valid { IsScript scenario.now }
    ensures { IfOk result (λ found. IfSome found (IsLawfulText bytes.now)) }
{
    let mut player = Player::new(alloc, scenario)?;
    record_count_of_player(&mut player, scenario, bytes)
}

// The same count for a player that has taken no turn.
fn record_count_of_player(
    player: &mut Player,
    scenario: &Scenario,
    bytes: &[u8],
) -> Result<Option<u32>, NoMemory>
    requires valid { IsScript scenario.now }
    requires played { HasPlayed scenario.now player.old }
    requires begun { player.old.over ≡ None }
    ensures { IfOk result (λ found. IfSome found (IsLawfulText bytes.now)) }
{
    // No effect at run time. The proof reads from this call that the log is the one of which this is the text.
    shapes_law();
    let mut reporter = Reporter::new(Mode::Long);
    let mut text = Expected::new(bytes);
    put_from(player.log(), 0, &mut reporter, &mut text);
    play_on(player, scenario, &mut reporter, &mut text)?;
    if text.has_taken(bytes.len()) {
        return Ok(Some(player.log().len() as u32));
    }
    Ok(None)
}

// How many records, at least, of turns are put together while so many bytes are left: near the end of the text, those of one turn alone. No turn is
// taken whose records begin after the end of the text, unless the records before it have more bytes, one with another, than are counted for each.
// Such a text is read line by line.
fn records_together(left: usize) -> usize {
    (left / BYTES_FOR_EACH).min(MOST_TOGETHER)
}

// Takes turns while more bytes are expected, and puts their records, those of some turns together.
fn play_on(
    player: &mut Player,
    scenario: &Scenario,
    reporter: &mut Reporter,
    text: &mut Expected,
) -> Result<(), NoMemory>
    requires valid { IsScript scenario.now }
    requires played { HasPlayed scenario.now player.old }
    requires begun { player.old.over ≡ None }
    requires put { reporter.old.records ≡ length (whole_log player.old.world) }
    requires settings { reporter.old.settings ≡ fold settings_after None (whole_log player.old.world) }
    ensures played { HasPlayed scenario.now player.new }
    ensures reports { (mode : ReportMode) (first : SinkState)
        → Reports mode (whole_log player.old.world) first (expected_state text.old) reporter.old
        → Reports mode (whole_log player.new.world) first (expected_state text.new) reporter.new }
{
    while text.goes_on() {
        let enough = records_together(text.left());
        match turns_and_put(player, scenario, enough, reporter, text) {
            Turned::More => {}
            Turned::Over(End::NoMemory) => return Err(NoMemory),
            Turned::Over(_) => return Ok(()),
        }
    }
    Ok(())
}
