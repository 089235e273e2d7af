ghost use Rattle.std.specs.Prelude.{◌≡◌, ◌≢◌, ◌↔◌, ◌⊎◌, ◌+◌, [], IfSome, IsSome, IsTrue, MatchOption, None, map};
ghost use Rattle.std.specs.String.{string_bytes};
ghost use Rattle.tap_engine.specs.Kinds.{is_finished};
ghost use Rattle.tap_engine.specs.World.{HasNodesOfLog, whole_log};
ghost use Rattle.tap_io.specs.AllBytes.{HasReadAtMost, HasReadTooMany, HasReadUntilFault, HasReadWithoutFault};
ghost use Rattle.tap_io.specs.Faults.{HasRisen};
ghost use Rattle.tap_lawful.specs.Runs.{IsLawful};
ghost use Rattle.tap_replay.specs.Runs.{HasPlayed};
ghost use Rattle.tap_report.specs.Text.{IsPrintableLog};
ghost use Rattle.tap_scenario.specs.Scenario.{IsScript};
ghost use Rattle.tap_top.specs.Ending.{HasCause, HasCauseOf, HasRunAs, HasRunOf, HasWritten, LeavesWorld, log_of, mode_asked, text_of_run};
ghost use Rattle.tap_top.specs.FaultLine.{fault_line};
ghost use Rattle.tap_top.specs.AskedLog.{HasRunAll, HasRunShort, IsLogAsked, ends_spent};
ghost use Rattle.tap_top.specs.Limits.{most_bytes};
ghost use Rattle.tap_top.specs.Reading.{HasReadFault};
ghost use Rattle.tap_top.specs.Wanted.{AsksWithin, mode_of};
ghost use Rattle.tap_words.specs.Words.{asked_by};

use crate::fault_line::write_fault_line;
use crate::printing::flush_after;
use crate::running::play;
use crate::status::{Ended, Status};
use crate::wanted::{mode_of, wanted_scenario};
use std::alloc::{AllocError, Global};
use tap_io::{BufferedSink, Sink, Source};
use tap_replay::{NoMemory, Player, put_from};
use tap_report::{Mode, Reporter, Written};
use tap_scenario::{Fault, Scenario};
use tap_words::{Asked, WordsRefusal, read_words};

// How many bytes of text may wait to be written together.
const TEXT_ROOM: usize = 16_384;

// Ends without a run: writes the fault line alone.
fn end_without_run<K: Sink>(before: Status, sink: &mut K) -> Ended
    ensures world { result.world ≡ None }
    ensures before { result.before ≡ before }
    ensures written { HasWritten (K.state sink.old) (K.state sink.new) (fault_line before) before result.status }
{
    let written = write_fault_line(sink, Written::All, before);
    Ended {
        status: before.with_writing(written),
        before,
        world: None,
    }
}

// How a run has ended that was printed: with regard to writing, and without.
#[derive(Clone, Copy)]
struct Printed {
    status: Status,
    before: Status,
}

// Plays a scenario to its end, and writes the text of its log and the fault line, gathered into large pieces.
fn print_run<K: Sink>(
    player: &mut Player,
    scenario: &Scenario,
    mode: Mode,
    room: Vec<u8>,
    sink: &mut K,
) -> Printed
    requires valid { IsScript scenario.now }
    requires played { HasPlayed scenario.now player.old }
    requires begun { player.old.over ≡ None }
    ensures run { HasRunAs scenario.now result.before player.new.world }
    ensures written { HasWritten (K.state sink.old) (K.state sink.new)
        (text_of_run mode (whole_log player.new.world) result.before) result.before result.status }
{
    let mut text = BufferedSink::new(sink, room);
    let mut reporter = Reporter::new(mode);
    put_from(player.log(), 0, &mut reporter, &mut text);
    let before = Status::of(play(player, scenario, &mut reporter, &mut text));
    let finished = reporter.finish(&mut text);
    let so_far = write_fault_line(&mut text, finished, before);
    let written = flush_after(&mut text, so_far);
    // No effect at run time. The proof reads what the sink holds from this use of it.
    let _ = &*text.into_inner();
    Printed {
        status: before.with_writing(written),
        before,
    }
}

// Runs a scenario, and writes what is printed of it.
fn run_and_print<K: Sink>(alloc: Global, scenario: &Scenario, mode: Mode, sink: &mut K) -> Ended
    requires valid { IsScript scenario.now }
    ensures run { HasRunOf scenario.now result.before result.world }
    ensures world { LeavesWorld result.before result.world }
    ensures written { HasWritten (K.state sink.old) (K.state sink.new)
        (text_of_run mode (log_of result.world) result.before) result.before result.status }
{
    let room = match Vec::with_capacity(alloc, TEXT_ROOM) {
        Ok(room) => room,
        Err(AllocError) => return end_without_run(Status::NoMemory, sink),
    };
    let mut player = match Player::new(alloc, scenario) {
        Ok(player) => player,
        Err(NoMemory) => return end_without_run(Status::NoMemory, sink),
    };
    let printed = print_run(&mut player, scenario, mode, room, sink);
    Ended {
        status: printed.status,
        before: printed.before,
        world: Some(player.into_world()),
    }
}

// Runs and prints what the words ask for.
fn run_asked<S: Source, K: Sink>(
    alloc: Global,
    asked: &Asked,
    source: &mut S,
    sink: &mut K,
) -> Ended
    requires joins { AsksWithin asked.now }
    ensures cause { HasCauseOf asked.now (S.state source.old) (S.state source.new) result.world result.before }
    ensures world { LeavesWorld result.before result.world }
    ensures written { HasWritten (K.state sink.old) (K.state sink.new)
        (text_of_run (mode_of asked.now) (log_of result.world) result.before) result.before result.status }
{
    match wanted_scenario(alloc, asked, source) {
        Ok(scenario) => run_and_print(alloc, &scenario, mode_of(asked), sink),
        Err(before) => end_without_run(before, sink),
    }
}

// Runs and prints what the words ask for, if they are accepted.
fn run_words<S: Source, K: Sink>(
    alloc: Global,
    words: &[String],
    source: &mut S,
    sink: &mut K,
) -> Ended
    ensures cause { HasCause (asked_by (map string_bytes words.now)) (S.state source.old) (S.state source.new)
        result.world result.before }
    ensures world { LeavesWorld result.before result.world }
    ensures written { HasWritten (K.state sink.old) (K.state sink.new)
        (text_of_run (mode_asked (asked_by (map string_bytes words.now))) (log_of result.world) result.before)
        result.before result.status }
{
    match read_words(alloc, words) {
        Ok(asked) => run_asked(alloc, &asked, source, sink),
        Err(WordsRefusal::Usage) => end_without_run(Status::Usage, sink),
        Err(WordsRefusal::NoMemory) => end_without_run(Status::NoMemory, sink),
    }
}

/// Runs what the words of a command line ask for, and writes the text of its log to a sink, with a fault line after it if the log
/// doesn't say how it ended. A scenario is read from a source; with `--make` one is made, of which the summary is written, and the
/// source isn't touched.
///
/// The words come first, then the reading, the scenario, and then the run and the writing side by side: the records of some turns are
/// written together once these are over. The fault line is last. The first read that fails ends the reading, and the first write that fails ends
/// the writing, but not the run: the log and `before` don't depend on the sink. The log is that of the world that is left. If none
/// is left, it is empty; else it is lawful. If `before` is `Done`, the nodes of the world are those of the system that the log has come
/// to. If nothing is started but J joins, with N members and names that join, each of n digits, `before` is `Spent` only if the
/// scenario's limit of frames is below J · (16 · (N + 1)² + n + 2).
///
/// Rule: docs/FORMATS.md, "The fault line and the exit status".
pub fn run<S: Source, K: Sink>(
    alloc: Global,
    words: &Vec<String>,
    source: &mut S,
    sink: &mut K,
) -> Ended
    // Why it ends so, and what the world is that it leaves.
    ensures cause { HasCause (asked_by (map string_bytes words.now.items)) (S.state source.old) (S.state source.new)
        result.world result.before }
    // What is written: the text of the log and the fault line, or some first bytes of them.
    ensures written { HasWritten (K.state sink.old) (K.state sink.new)
        (text_of_run (mode_asked (asked_by (map string_bytes words.now.items))) (log_of result.world) result.before)
        result.before result.status }

    // The same, status by status.
    ensures usage { result.before ≡ Status.Usage → asked_by (map string_bytes words.now.items) ≡ None }
    ensures refused { asked_by (map string_bytes words.now.items) ≡ None → result.before ≢ Status.NoMemory → result.before ≡ Status.Usage }
    ensures done { result.before ≡ Status.Done → IfSome (asked_by (map string_bytes words.now.items))
        (λ asked. HasRunAll asked (S.state source.old) (S.state source.new) result.world) }
    ensures short { result.before ≡ Status.Spent → IfSome (asked_by (map string_bytes words.now.items))
        (λ asked. HasRunShort asked (S.state source.old) (S.state source.new) result.world) }
    ensures finished { (result.before ≡ Status.Done) ↔ IsTrue (is_finished (log_of result.world)) }
    ensures spent { (result.before ≡ Status.Spent) ↔ IsTrue (ends_spent (log_of result.world)) }
    ensures read_fault { result.before ≡ Status.ReadFault → HasReadUntilFault most_bytes (S.state source.old) (S.state source.new) }
    ensures too_long { result.before ≡ Status.TooLong → HasReadTooMany most_bytes (S.state source.old) (S.state source.new) }
    ensures not_scenario { (fault : Fault) → result.before ≡ Status.NotScenario fault
        → HasReadFault (S.state source.old) (S.state source.new) fault }
    ensures write_fault { result.status ≡ Status.WriteFault → HasRisen (K.state sink.old).faults (K.state sink.new).faults }
    ensures before { result.before ≢ Status.WriteFault }

    // No more is read than one byte past the limit of a text, and no byte past it unless the text is too long. A read that fails ends the reading:
    // the source counts a fault exactly if the status is `ReadFault`.
    ensures read { HasReadAtMost (most_bytes + 1) (S.state source.old) (S.state source.new) }
    ensures no_memory { result.before ≡ Status.NoMemory → HasReadWithoutFault most_bytes (S.state source.old) (S.state source.new) }
    ensures unfailed { result.before ≢ Status.ReadFault → (S.state source.new).faults ≡ (S.state source.old).faults }

    // The source isn't touched if the words are refused, or ask for a scenario to be made.
    ensures source { MatchOption (asked_by (map string_bytes words.now.items)) (S.state source.new ≡ S.state source.old)
        (λ asked. IsSome asked.make → S.state source.new ≡ S.state source.old) }

    // A world is left if a run has ended. If all steps were run, its nodes are those of the system that its log has come to.
    ensures world { LeavesWorld result.before result.world }
    ensures nodes { result.before ≡ Status.Done → IfSome result.world HasNodesOfLog }

    // Its log can be printed in each mode. If there is one, it is lawful: that of a run of a scenario.
    ensures printable { IsPrintableLog (log_of result.world) }
    ensures lawful { (log_of result.world ≡ []) ⊎ IsLawful (log_of result.world) }

    // The headline: there is no log, or it is that of a run. At each of its moments, however the run has ended, there is a core node, no table
    // has a hole, each walk finds the one root, and at rest each node that is present is core, who departed is gone, each lookup is answered and
    // pointers stand on their paths; a lookup made alone from a rest is exact, and what is said of other lookups, of root sets, casts, sessions,
    // watch lists and the frames of joins holds.
    ensures headline { (log_of result.world ≡ []) ⊎ IfSome (asked_by (map string_bytes words.now.items))
        (λ asked. IsLogAsked asked (S.state source.old) (S.state source.new) (log_of result.world)) }
{
    run_words(alloc, words.as_slice(), source, sink)
}
