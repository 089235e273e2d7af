// A world of one member, run by hand.
ghost use Rattle.std.specs.Prelude.{◌≡◌, ◌≤◌, ℕ, IsTrue, Some, false, not, length, option_and_then};
ghost use Rattle.std.specs.List.{list_any};
ghost use Rattle.tap_scenario.specs.Step.{IsStep};
ghost use Rattle.tap_log.specs.MoreRecords.{at_most_one};
ghost use Rattle.tap_log.specs.Log.{begun_steps, last_of};
ghost use Rattle.tap_log.specs.Reduced.{is_added};
ghost use Rattle.tap_engine.specs.Kinds.{begun_index, begun_indices, damages, finishes_run, is_finished, last_index, observes};
ghost use Rattle.tap_engine.specs.Outcome.{IsNextIndex, MayGoOn};

use crate::names::{name_of, settings_of, step_of};
use std::alloc::Global;
use std::process::Abort;
use tap_history::is_start;
use tap_log::{Record, Refusal};
use tap_name::{List, Name};
use tap_scenario::Step;
use tap_surrogate::Tables;
use tap_world::{Stop, World};

// More frames than a run of a test sends.
const MOST_FRAMES: usize = 100;

// The world of one member, 00, in which so many frames may be sent.
fn one_member(rt: &impl Abort, alloc: Global, frames: u32) -> World
    requires from { 1 ≤ frames }
    requires to { frames ≤ 100 }
{
    let settings = settings_of(rt, 2, 2, 1);
    let member = name_of(rt, &settings, "00");
    let mut members = List::new(alloc);
    members.push(member).expect(rt, "memory");
    World::new(alloc, &settings, frames, &members).expect(rt, "memory")
}

// ---- what the calls ask

// The step of a text, of the settings of a world.
fn step_in(rt: &impl Abort, world: &World, text: &str) -> Step
    ensures { IsStep world.now.beginning.settings false result }
{
    step_of(rt, &world.settings(), text)
}

// The index of a step that begins.
#[tactic(auto, unfolding(tap_engine::specs::Kinds::begun_index))]
fn begun_index(item: &Record) -> Option<u32>
    ensures { result ≡ begun_index item.now }
{
    match item {
        Record::Step { index, .. } => Some(*index),
        _ => None,
    }
}

// The index of the last step, 0 if none has begun.
fn last_index(records: &[Record]) -> u32
    ensures { result ≡ last_index records.now }
{
    let mut last = 0;
    for item in records {
        last = begun_index(item).unwrap_or(last);
    }
    last
}

// How many steps the record begins: one or none.
fn steps_in(item: &Record) -> usize
    ensures { result ≡ length (at_most_one (begun_index item.now)) }
{
    match begun_index(item) {
        Some(_) => 1,
        None => 0,
    }
}

// How many steps have begun.
fn steps_begun(records: &[Record]) -> usize
    ensures { result ≡ length (begun_indices records.now) }
{
    let mut count = 0;
    for item in records {
        count += steps_in(item);
    }
    count
}

// The index of the last step of a world, 0 if none has begun.
fn index_of_last(world: &World) -> u32
    ensures { result ≡ last_index world.now.log }
{
    last_index(world.log().as_slice())
}

// Whether so many steps have begun.
fn have_begun(world: &World, steps: u32) -> bool
    ensures { IsTrue result → (steps ≡ length (begun_steps world.now.log)) }
{
    steps_begun(world.log().as_slice()) == steps as usize
}

// Whether all steps were run, by the last record.
#[tactic(auto, unfolding(tap_engine::specs::Kinds::finishes_run))]
fn finishes(item: &Record) -> bool
    ensures { result ≡ finishes_run item.now }
{
    matches!(item, Record::Finished { .. })
}

// Whether some record says so.
fn has_finished(records: &[Record]) -> bool
    ensures { result ≡ list_any finishes_run records.now }
{
    records.iter().any(|item| finishes(item))
}

// Whether a world has finished.
fn is_over(world: &World) -> bool
    ensures { IsTrue (not result) → is_finished world.now.log ≡ false }
{
    has_finished(world.log().as_slice())
}

// Whether a world may go on.
fn may_go_on(world: &World) -> bool
    ensures { IsTrue result → MayGoOn world.now }
{
    match world.refused() {
        Some(_) => false,
        None => !is_over(world),
    }
}

// Whether this may be the index of the next step.
fn is_next(world: &World, index: u32) -> bool
    ensures { IsTrue result → IsNextIndex world.now index }
{
    index_of_last(world) < index && index <= 1_000_000
}

// Whether no index may come after that of the last step.
fn none_is_next(world: &World) -> bool
    ensures { IsTrue result → (index : ℕ) → IsNextIndex world.now index → ⊥ }
{
    index_of_last(world) >= 1_000_000
}

// Whether the last record is the step with this index.
fn ends_with_step(world: &World, index: u32) -> bool
    ensures { IsTrue result → (option_and_then begun_index (last_of world.now.log) ≡ Some index) }
{
    match world.log().as_slice().last() {
        Some(item) => is_index(begun_index(item), index),
        None => false,
    }
}

// Whether the index is there, and is this one.
fn is_index(found: Option<u32>, index: u32) -> bool
    ensures { IsTrue result → (found ≡ Some index) }
{
    match found {
        Some(found) => found == index,
        None => false,
    }
}

// Whether the step observes.
#[tactic(auto, unfolding(tap_engine::specs::Kinds::observes))]
fn observes(step: &Step) -> bool
    ensures { result ≡ observes step.now }
{
    matches!(
        step,
        Step::Walk { .. } | Step::Root { .. } | Step::Table { .. } | Step::Pointers { .. }
    )
}

// Whether it offers a damaged copy.
#[tactic(auto, unfolding(tap_engine::specs::Kinds::damages))]
fn damages(step: &Step) -> bool
    ensures { result ≡ damages step.now }
{
    matches!(step, Step::Garble { .. } | Step::Cut { .. })
}

// ---- the calls

// The world goes on, and its next step may have this index.
fn check_next(rt: &impl Abort, world: &World, index: u32)
    ensures goes_on { MayGoOn world.now }
    ensures next { IsNextIndex world.now index }
{
    assert!(rt; may_go_on(world));
    assert!(rt; is_next(world, index));
}

// A step has a node start something.
fn start(rt: &impl Abort, world: &mut World, index: u32, text: &str) {
    let step = step_in(rt, world, text);
    check_next(rt, world, index);
    assert!(rt; is_start(&step));
    world.start(index, &step).expect(rt, "a start");
}

// A step observes.
fn observe(rt: &impl Abort, world: &mut World, index: u32, text: &str) {
    let step = step_in(rt, world, text);
    check_next(rt, world, index);
    assert!(rt; observes(&step));
    world.observe(index, &step).expect(rt, "an observation");
}

// A step offers a damaged copy.
fn garble(rt: &impl Abort, world: &mut World, index: u32, text: &str) -> Result<(), Stop> {
    let step = step_in(rt, world, text);
    check_next(rt, world, index);
    assert!(rt; damages(&step));
    world.garble(index, &step)
}

// Takes the frame that was sent first.
fn deliver(rt: &impl Abort, world: &mut World) -> Result<(), Stop> {
    assert!(rt; may_go_on(world));
    world.deliver(0)
}

// A step begins the taking of frames, the oldest first.
#[tactic(auto, unfolding(tap_runs::specs::Course::is_choice))]
fn mark(rt: &impl Abort, world: &mut World, index: u32) {
    check_next(rt, world, index);
    world.mark(index, &Step::Settle).expect(rt, "a choice");
}

// Takes the oldest frame, if one is outstanding.
fn deliver_one(rt: &impl Abort, world: &mut World) {
    if !world.is_rest() {
        deliver(rt, world).expect(rt, "a delivery");
    }
}

// Takes frames, the oldest first, until none is outstanding.
fn settle(rt: &impl Abort, world: &mut World, index: u32) {
    mark(rt, world, index);
    for _turn in 0..MOST_FRAMES {
        deliver_one(rt, world);
    }
    assert!(rt; world.is_rest());
}

// All steps were run.
fn finish(rt: &impl Abort, world: &mut World, steps: u32) {
    assert!(rt; may_go_on(world));
    assert!(rt; have_begun(world, steps));
    world.finish(steps).expect(rt, "an end");
}

// The log has so many records.
fn check_log(rt: &impl Abort, world: &World, records: usize) {
    assert!(rt; world.log().len() == records);
}

// ---- the tests

// A node that isn't there joins.
fn start_join(rt: &impl Abort, world: &mut World, name: Name) {
    assert!(rt; world.node(name).is_none());
    start(rt, world, 1, "join 01 via 00");
}

// It has begun to join: one frame is outstanding, to the node that it knows.
fn see_joining(rt: &impl Abort, world: &World, name: Name) {
    assert!(rt; world.outstanding() == 1);
    assert!(rt; world.newest() == Some(0));
    assert!(rt; world.place_of(0) == Some(0));
    assert!(rt; world.node(name).is_some());
    assert!(rt; !world.is_core(name));
}

// It has joined, and all is at rest.
fn see_joined(rt: &impl Abort, world: &World, name: Name) {
    assert!(rt; world.is_rest());
    assert!(rt; world.newest() == None);
    assert!(rt; world.place_of(0) == None);
    assert!(rt; world.is_core(name));
    assert!(rt; world.table_of(name).is_some());
}

// The beginning, the join and its frame, the choice, eight frames that are taken, seven that are sent, that the node is core, what is
// seen, and the end.
#[test]
fn a_node_joins_and_is_seen(rt: HostRuntime) {
    let mut world = one_member(&rt, rt.alloc(), 100);
    let name = name_of(&rt, &world.settings(), "01");
    start_join(&rt, &mut world, name);
    see_joining(&rt, &world, name);
    settle(&rt, &mut world, 2);
    see_joined(&rt, &world, name);
    observe(&rt, &mut world, 3, "table 01");
    finish(&rt, &mut world, 3);
    check_log(&rt, &world, 23);
}

// The first step has the greatest index: it is taken, no index may come after it, and the run is finished.
#[test]
fn no_step_comes_after_the_greatest_index(rt: HostRuntime) {
    let mut world = one_member(&rt, rt.alloc(), 100);
    assert!(rt; !none_is_next(&world));
    start(&rt, &mut world, 1_000_000, "join 01 via 00");
    assert!(rt; none_is_next(&world));
    finish(&rt, &mut world, 1);
    check_log(&rt, &world, 4);
}

// A cut beyond the frame's bytes is refused.
fn cut(rt: &impl Abort, world: &mut World) {
    let refused = Err(Stop::Refused(Refusal::NoSuchByte(10)));
    assert!(rt; garble(rt, world, 4, "cut 0 99") == refused);
    assert!(rt; world.refused() == Some(Refusal::NoSuchByte(10)));
}

// The refusal that a call has answered is noted.
fn note(rt: &impl Abort, world: &mut World, index: u32) {
    let refusal = world.refused().expect(rt, "a refusal");
    assert!(rt; ends_with_step(world, index));
    world.note(index, refusal).expect(rt, "a note");
    assert!(rt; world.refused() == None);
}

// A copy with another byte is no frame; a cut beyond the frame's bytes is refused, and the refusal noted.
#[test]
fn damaged_copies_are_offered(rt: HostRuntime) {
    let mut world = one_member(&rt, rt.alloc(), 100);
    start(&rt, &mut world, 1, "join 01 via 00");
    assert!(rt; garble(&rt, &mut world, 2, "garble 0 0 255") == Ok(()));
    check_log(&rt, &world, 5);
    cut(&rt, &mut world);
    note(&rt, &mut world, 4);
    check_log(&rt, &world, 7);
    assert!(rt; world.outstanding() == 1);
}

// The first frame may be sent, and those of its receiver no more.
fn spend(rt: &impl Abort, world: &mut World) {
    start(rt, world, 1, "join 01 via 00");
    assert!(rt; deliver(rt, world) == Err(Stop::Spent));
    check_log(rt, world, 4);
}

#[test]
fn no_more_frames_are_sent_than_may_be(rt: HostRuntime) {
    let mut world = one_member(&rt, rt.alloc(), 1);
    spend(&rt, &mut world);
    assert!(rt; deliver(&rt, &mut world) == Err(Stop::Ended));
    check_log(&rt, &world, 4);
}

// ---- remarks

// A remark is added: that a packet is made.
#[tactic(auto, unfolding(tap_log::specs::Reduced::is_added))]
fn remark(rt: &impl Abort, world: &mut World, number: u32) -> Result<(), Stop> {
    assert!(rt; may_go_on(world));
    world.remark(Record::Packet {
        number,
        frame: 0,
        ack: false,
    })
}

// A remark is added before the first frame is taken, and one after that. They change nothing that is said of the plain records.
fn remark_twice(rt: &impl Abort, world: &mut World) {
    assert!(rt; remark(rt, world, 0) == Ok(()));
    assert!(rt; world.place_of(0) == Some(0));
    assert!(rt; deliver(rt, world) == Ok(()));
    assert!(rt; remark(rt, world, 1) == Ok(()));
    assert!(rt; world.place_of(0) == None);
    assert!(rt; world.place_of(1) == Some(0));
    assert!(rt; world.place_of(9) == None);
}

// The record at the place 3 is the first remark.
fn see_remark(rt: &impl Abort, world: &World) {
    assert!(rt;
        matches!(
            world.log().as_slice().get(3),
            Some(Record::Packet { number: 0, .. })
        )
    );
}

// Between the groups stand remarks: the beginning, the join and its frame, the choice, eight frames that are taken, seven that are sent,
// that the node is core, and two remarks.
#[test]
fn remarks_stand_between_groups(rt: HostRuntime) {
    let mut world = one_member(&rt, rt.alloc(), 100);
    start(&rt, &mut world, 1, "join 01 via 00");
    remark_twice(&rt, &mut world);
    settle(&rt, &mut world, 2);
    check_log(&rt, &world, 22);
    see_remark(&rt, &world);
    finish(&rt, &mut world, 2);
}

// After `Spent` no remark is added.
#[test]
fn no_remark_is_added_to_a_world_that_was_stopped(rt: HostRuntime) {
    let mut world = one_member(&rt, rt.alloc(), 1);
    spend(&rt, &mut world);
    assert!(rt; remark(&rt, &mut world, 0) == Err(Stop::Ended));
    check_log(&rt, &world, 4);
}
