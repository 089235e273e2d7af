use std::alloc::Global;
use std::process::Abort;
use tap_log::{
    Bytes, Log, NameKind, NoMemory, NumberKind, Pair, Record, Refusal, accepts, begins_group,
    bytes_of, cast_count, is_added, is_carried, name_in, number_in, packet_count, published_pair,
    resent_count, sent_count, step_of, ticket_count, withdrawn_pair,
};
use tap_name::{List, Name, Settings};
use tap_scenario::Step;

// Refusals, and how they are printed.
const PRINTED: [(Refusal, &str); 15] = [
    (Refusal::NoSuchNode, "no such node"),
    (Refusal::NotCore, "not core"),
    (Refusal::NotAtRest(3), "not at rest 3"),
    (Refusal::NameTaken, "name taken"),
    (Refusal::TooManyNodes, "too many nodes"),
    (Refusal::LastNode, "last node"),
    (Refusal::AlreadyPublished, "already published"),
    (Refusal::NotPublished, "not published"),
    (Refusal::NoSuchFlight(4), "no such flight 4"),
    (Refusal::NoSuchByte(13), "no such byte 13"),
    (Refusal::Readable, "readable"),
    (Refusal::NotJoining, "not joining"),
    (Refusal::AlreadyAbandoned, "already abandoned"),
    (Refusal::TooManyPackets(300_000), "too many packets 300000"),
    (Refusal::NotInPrefix, "not in prefix"),
];

#[test]
fn grows_record_by_record(rt: HostRuntime) {
    let mut log = Log::new(rt.alloc());
    log.push(Record::Finished { steps: 3 })
        .expect(&rt, "memory");
    log.reserve(1).expect(&rt, "memory");
    log.push_reserved(Record::Refused {
        index: 7,
        refusal: Refusal::NoSuchNode,
    });
    assert!(rt; log.len() == 2);
    assert!(rt; matches!(log.at(0), Record::Finished { steps: 3 }));
    assert!(rt; matches!(log.at(1), Record::Refused { index: 7, .. }));
    assert!(rt; log.as_slice().len() == 2);
}

#[test]
fn want_of_memory_is_passed_on(rt: HostRuntime) {
    assert!(rt; NoMemory::from(tap_wire::NoMemory) == NoMemory);
    assert!(rt; NoMemory::from(tap_name::NoMemory) == NoMemory);
}

#[test]
fn a_taken_frame_begins_a_group_unless_it_is_carried(rt: HostRuntime) {
    let taken = Record::Taken { number: 0 };
    assert!(rt; begins_group(false, &taken));
    assert!(rt; !begins_group(true, &taken));
    assert!(rt; !accepts(false, &taken));
    assert!(rt; accepts(true, &taken));
}

fn sent(rt: &impl Abort, alloc: Global, bytes: &[u8]) -> Record {
    let bytes = Bytes::copy_of(alloc, bytes).expect(rt, "memory");
    Record::Sent { number: 7, bytes }
}

// Checks whether a record is the one of a frame of these bytes.
fn check_is_sent(rt: &impl Abort, alloc: Global, item: &Record, bytes: &[u8], same: bool) {
    let other = sent(rt, alloc, bytes);
    assert!(rt; (*item == other) == same);
}

// Checks that a record isn't the one that a frame of this number is taken.
fn check_not_taken(rt: &impl Abort, item: &Record, number: u32) {
    let other = Record::Taken { number };
    assert!(rt; *item != other);
}

#[test]
fn records_are_compared(rt: HostRuntime) {
    let first = sent(&rt, rt.alloc(), b"ab");
    check_is_sent(&rt, rt.alloc(), &first, b"ab", true);
    check_is_sent(&rt, rt.alloc(), &first, b"ac", false);
    check_not_taken(&rt, &first, 7);
    check_not_taken(&rt, &Record::Taken { number: 7 }, 8);
}

// Settings of base 2 with two digits.
fn settings(rt: &impl Abort) -> Settings {
    Settings::new(2, 2, 1).expect(rt, "settings")
}

// A name of two digits, of base 2.
fn name_at(rt: &impl Abort, first: u8, second: u8) -> Name {
    Name::from_digits(&settings(rt), &[first, second]).expect(rt, "a name")
}

fn push(rt: &impl Abort, log: &mut Log, item: Record) {
    log.push(item).expect(rt, "memory");
}

// One packet of a frame, and a step that makes another.
fn push_packet(rt: &impl Abort, log: &mut Log, number: u32) {
    push(
        rt,
        log,
        Record::Packet {
            number,
            frame: 7,
            ack: false,
        },
    );
    push(
        rt,
        log,
        Record::Step {
            index: number,
            step: Step::Tick,
        },
    );
}

// A carried log begins.
fn push_beginning(rt: &impl Abort, alloc: Global, log: &mut Log) {
    push(
        rt,
        log,
        Record::Begin {
            settings: settings(rt),
            frames: 9,
            members: List::new(alloc),
        },
    );
    push(rt, log, Record::Carrier);
}

// A lookup, a frame and a cast.
fn push_sendings(rt: &impl Abort, alloc: Global, log: &mut Log) {
    let asker = name_at(rt, 0, 1);
    let object = name_at(rt, 1, 1);
    push(
        rt,
        log,
        Record::Asked {
            ticket: 1,
            object,
            asker,
        },
    );
    push(rt, log, sent(rt, alloc, b"ab"));
    push(
        rt,
        log,
        Record::CastFrom {
            cast: 1,
            word: Bytes::copy_of(alloc, b"word").expect(rt, "memory"),
            level: 0,
            name: asker,
        },
    );
}

// A carried log: a lookup, a frame, a cast, and then one packet that is made and one that is made once more.
fn carried_log(rt: &impl Abort, alloc: Global) -> Log {
    let mut log = Log::new(alloc);
    push_beginning(rt, alloc, &mut log);
    push_sendings(rt, alloc, &mut log);
    push_packet(rt, &mut log, 0);
    push_packet(rt, &mut log, 1);
    log
}

#[test]
fn a_log_tells_its_counts_and_its_bytes(rt: HostRuntime) {
    let log = carried_log(&rt, rt.alloc());
    let records = log.as_slice();
    assert!(rt; is_carried(records));
    assert!(rt; bytes_of(records, 7) == Some(b"ab".as_slice()));
    assert!(rt; bytes_of(records, 1).is_none());
    assert!(rt; sent_count(records) == 1);
    assert!(rt; packet_count(records) == 2);
    assert!(rt; ticket_count(records) == 1);
    assert!(rt; cast_count(records) == 1);
    assert!(rt; resent_count(records) == 1);
}

#[test]
fn single_records_tell_numbers(rt: HostRuntime) {
    let lost = Record::Lost { packet: 4 };
    assert!(rt; number_in(NumberKind::Ended, &lost) == Some(4));
    assert!(rt; number_in(NumberKind::Arrived, &lost).is_none());
}

#[test]
fn single_records_tell_names(rt: HostRuntime) {
    let name = name_at(&rt, 0, 1);
    let gone = Record::Gone { name };
    assert!(rt; name_in(NameKind::Gone, &gone) == Some(name));
}

#[test]
fn single_records_tell_pairs(rt: HostRuntime) {
    let (object, server) = (name_at(&rt, 1, 1), name_at(&rt, 0, 1));
    let published = Record::Published { object, server };
    assert!(rt; published_pair(&published) == Some(Pair { object, server }));
    assert!(rt; withdrawn_pair(&published).is_none());
}

#[test]
fn a_tick_is_added_and_tells_no_step(rt: HostRuntime) {
    let ticked = Record::Ticked;
    assert!(rt; step_of(&ticked).is_none());
    assert!(rt; is_added(&ticked));
}

// Checks how a refusal is printed.
fn check_printed(rt: &impl Abort, alloc: Global, refusal: Refusal, text: &str) {
    let printed = refusal.to_string(alloc).expect(rt, "memory");
    assert!(rt; printed.as_str() == text, "{text}");
}

#[test]
fn refusals_are_printed(rt: HostRuntime) {
    for (refusal, text) in PRINTED.iter() {
        check_printed(&rt, rt.alloc(), *refusal, text);
    }
    let departing = Refusal::Departing(name_at(&rt, 0, 1));
    check_printed(&rt, rt.alloc(), departing, "departing 01");
}

#[test]
fn want_of_memory_is_printed(rt: HostRuntime) {
    let memory = NoMemory.to_string(rt.alloc()).expect(&rt, "memory");
    assert!(rt; memory.as_str() == "no memory");
}
