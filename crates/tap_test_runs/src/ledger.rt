// What a ledger says while a node joins, another one leaves, and a pair is published.
ghost use Rattle.std.specs.Prelude.{◌≡◌, ◌&&◌, nat_lt};
ghost use Rattle.tap_log.specs.Counts.{sent_count};
ghost use Rattle.tap_log.specs.Kinds.{sent_number};
ghost use Rattle.tap_ledger.specs.Added.{is_plain, most_ledger_frames};
ghost use Rattle.tap_test_runs.specs.Single.{can_add_one, can_send, can_take_record, is_next, number_is_below};

use crate::names::{name_of, settings_of, step_of};
use std::alloc::Global;
use std::process::Abort;
use tap_ledger::Ledger;
use tap_log::{Bytes, NumberKind, Pair, Record, Refusal, number_in};
use tap_name::{List, Name};

// Whether the record may stand after the beginning of a log that isn't carried.
#[tactic(auto, unfolding(tap_ledger::specs::Added::is_plain))]
fn is_plain(item: &Record) -> bool
    ensures { result ≡ is_plain item.now }
{
    match item {
        Record::Begin { .. } | Record::Carrier | Record::Packet { .. } => false,
        Record::Arrived { .. } | Record::Ticked | Record::Lost { .. } => false,
        Record::RootsOf { .. } => false,
        _ => true,
    }
}

// Whether the number, if there is one, comes after so many that count from 0.
fn is_next(number: Option<u32>, count: u32) -> bool
    ensures { result ≡ is_next number count }
{
    match number {
        Some(number) => number == count,
        None => true,
    }
}

// Whether the number, if there is one, is below the bound.
fn is_below(number: Option<u32>, bound: u32) -> bool
    ensures { result ≡ number_is_below number bound }
{
    match number {
        Some(number) => number < bound,
        None => true,
    }
}

// Whether the frame that the record sends, if it sends one, is the next one, and one more may be sent.
fn is_numbered(ledger: &Ledger, item: &Record) -> bool
    ensures { result ≡ (is_next (sent_number item.now) (sent_count ledger.now.records)
        && nat_lt (sent_count ledger.now.records) most_ledger_frames) }
{
    is_next(number_in(NumberKind::Sent, item), ledger.sent()) && ledger.sent() < 4_000_000_000
}

// Whether the record is plain, and what it sends is numbered on.
fn can_send(ledger: &Ledger, item: &Record) -> bool
    ensures { result ≡ can_send ledger.now.records item.now }
{
    is_plain(item) && is_numbered(ledger, item)
}

// Whether what the record takes was sent, and it asks no lookup.
fn can_take(ledger: &Ledger, item: &Record) -> bool
    ensures { result ≡ can_take_record ledger.now.records item.now }
{
    is_below(number_in(NumberKind::Taken, item), ledger.sent())
        && number_in(NumberKind::Asked, item).is_none()
}

// Whether the record may be added.
fn can_add(ledger: &Ledger, item: &Record) -> bool
    ensures { result ≡ can_add_one ledger.now.records item.now }
{
    can_send(ledger, item) && can_take(ledger, item)
}

// Adds a record, which may be added.
pub(crate) fn add(rt: &impl Abort, ledger: &mut Ledger, item: Record) {
    ledger.reserve(1).expect(rt, "memory");
    assert!(rt; can_add(ledger, &item));
    ledger.push_reserved(item);
}

// Adds the record of a step.
pub(crate) fn add_step(rt: &impl Abort, ledger: &mut Ledger, text: &str) {
    let step = step_of(rt, &ledger.settings(), text);
    add(rt, ledger, Record::Step { index: 1, step });
}

// Adds that a frame is sent: that a node is core, from 00 to 10.
pub(crate) fn add_sent(rt: &impl Abort, alloc: Global, ledger: &mut Ledger, number: u32) {
    let bytes = Bytes::copy_of(alloc, &[1, 6, 0, 0, 0, 0, 1, 0]).expect(rt, "memory");
    add(rt, ledger, Record::Sent { number, bytes });
}

// A ledger of two members, 00 and 01.
pub(crate) fn begun(rt: &impl Abort, alloc: Global) -> Ledger {
    let settings = settings_of(rt, 2, 2, 1);
    let mut members = List::new(alloc);
    members
        .push(name_of(rt, &settings, "00"))
        .expect(rt, "memory");
    members
        .push(name_of(rt, &settings, "01"))
        .expect(rt, "memory");
    Ledger::new(alloc, &settings, 100, &members).expect(rt, "memory")
}

// The name of a text, of the settings of a ledger.
pub(crate) fn name_in(rt: &impl Abort, ledger: &Ledger, text: &str) -> Name {
    name_of(rt, &ledger.settings(), text)
}

// Two frames are sent, and the first is taken: the other one is found by its place, and the place by its number.
fn send_two_take_one(rt: &impl Abort, alloc: Global, ledger: &mut Ledger) {
    add_step(rt, ledger, "join 10 via 00");
    add_sent(rt, alloc, ledger, 0);
    add_sent(rt, alloc, ledger, 1);
    add(rt, ledger, Record::Taken { number: 0 });
}

// What is said of the frame that is left.
fn see_one_frame(rt: &impl Abort, ledger: &Ledger) {
    assert!(rt; ledger.sent() == 2);
    assert!(rt; ledger.outstanding() == 1);
    assert!(rt; !ledger.is_rest());
    assert!(rt; ledger.place_of(1) == Some(0));
    assert!(rt; ledger.newest() == Some(0));
}

// A cut beyond its bytes is refused.
fn see_refusal(rt: &impl Abort, alloc: Global, ledger: &Ledger) {
    let bytes = ledger.bytes_at(0).expect(rt, "a frame");
    assert!(rt; bytes.len() == 8);
    let step = step_of(rt, &ledger.settings(), "cut 0 9");
    let refusal = ledger.refusal(alloc, &step).expect(rt, "memory");
    assert!(rt; refusal == Some(Refusal::NoSuchByte(8)));
}

#[test]
fn frames_are_found_by_their_places_until_they_are_taken(rt: HostRuntime) {
    let mut ledger = begun(&rt, rt.alloc());
    send_two_take_one(&rt, rt.alloc(), &mut ledger);
    see_one_frame(&rt, &ledger);
    see_refusal(&rt, rt.alloc(), &ledger);
}

// A node begins to join: it is present, and not core yet.
fn start_join(rt: &impl Abort, alloc: Global, ledger: &mut Ledger, name: Name) {
    add_step(rt, ledger, "join 10 via 00");
    add_sent(rt, alloc, ledger, 0);
    assert!(rt; ledger.is_present(&name));
    assert!(rt; !ledger.is_core(&name));
}

// Its join ends: it is core.
fn end_join(rt: &impl Abort, ledger: &mut Ledger, name: Name) {
    add(rt, ledger, Record::Taken { number: 0 });
    add(rt, ledger, Record::Core { name });
    assert!(rt; ledger.is_core(&name));
}

// It leaves: it departs.
fn start_leave(rt: &impl Abort, alloc: Global, ledger: &mut Ledger, name: Name) {
    add_step(rt, ledger, "leave 10");
    add_sent(rt, alloc, ledger, 1);
    assert!(rt; ledger.departing() == Some(name));
    assert!(rt; ledger.core_count() == 3);
}

// It is gone.
fn end_leave(rt: &impl Abort, ledger: &mut Ledger, name: Name) {
    add(rt, ledger, Record::Gone { name });
    assert!(rt; ledger.core().len() == 2);
    assert!(rt; ledger.was_present(&name));
    assert!(rt; ledger.name_count() == 3);
    assert!(rt; !ledger.is_abandoned(&name));
}

#[test]
fn a_joined_node_is_core_and_a_leaver_departs(rt: HostRuntime) {
    let mut ledger = begun(&rt, rt.alloc());
    let name = name_in(&rt, &ledger, "10");
    start_join(&rt, rt.alloc(), &mut ledger, name);
    end_join(&rt, &mut ledger, name);
    start_leave(&rt, rt.alloc(), &mut ledger, name);
    end_leave(&rt, &mut ledger, name);
}

// A pair is published.
fn publish(rt: &impl Abort, ledger: &mut Ledger) {
    let object = name_in(rt, ledger, "11");
    let server = name_in(rt, ledger, "01");
    add_step(rt, ledger, "publish 11 at 01");
    add(rt, ledger, Record::Published { object, server });
    assert!(rt; ledger.is_published(&Pair { object, server }));
}

#[test]
fn a_published_pair_is_kept(rt: HostRuntime) {
    let mut ledger = begun(&rt, rt.alloc());
    publish(&rt, &mut ledger);
    assert!(rt; ledger.log().len() == 3);
    assert!(rt; ledger.tickets() == 0);
    assert!(rt; ledger.casts() == 0);
}

// A remark is added where there is room for two more, and takes none of it.
#[tactic(auto, unfolding(tap_log::specs::Reduced::is_added))]
fn remark(rt: &impl Abort, ledger: &mut Ledger) {
    let packet = Record::Packet {
        number: 0,
        frame: 0,
        ack: false,
    };
    ledger.reserve(2).expect(rt, "memory");
    assert!(rt; ledger.remark(packet) == Ok(()));
    assert!(rt; ledger.spare() == 2);
}

// A remark is added where there is room for one more, and takes it.
#[tactic(auto, unfolding(tap_log::specs::Reduced::is_added))]
fn remark_reserved(rt: &impl Abort, ledger: &mut Ledger) {
    ledger.reserve(1).expect(rt, "memory");
    ledger.remark_reserved(Record::Ticked);
    assert!(rt; ledger.spare() == 0);
}

// The join was accepted by the frame, though a remark stands before it.
fn see_remarks(rt: &impl Abort, ledger: &Ledger) {
    let name = name_in(rt, ledger, "10");
    assert!(rt; ledger.is_present(&name));
    assert!(rt; ledger.log().len() == 5);
    assert!(rt; ledger.place_of(0) == Some(0));
    assert!(rt; ledger.place_of(1) == None);
}

// The frame's record is the fourth one.
fn see_flight(rt: &impl Abort, ledger: &Ledger) {
    let flight = ledger.flight_at(0).expect(rt, "a frame");
    assert!(rt; flight.record_place == 3);
    assert!(rt; flight.bytes.len() == 8);
}

// Remarks stand in the whole log, where they were added. The last record, the frames and the room are as they were.
#[test]
fn remarks_stand_beside_the_plain_records(rt: HostRuntime) {
    let mut ledger = begun(&rt, rt.alloc());
    add_step(&rt, &mut ledger, "join 10 via 00");
    remark(&rt, &mut ledger);
    add_sent(&rt, rt.alloc(), &mut ledger, 0);
    remark_reserved(&rt, &mut ledger);
    see_remarks(&rt, &ledger);
    see_flight(&rt, &ledger);
}
