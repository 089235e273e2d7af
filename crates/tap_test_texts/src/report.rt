ghost use Rattle.tap_report.specs.Text.{IsPrintableLog};

use crate::report_checks::{
    ack, arrived, check_modes, check_text, data, log_of, name, settings, step, taken,
};
use std::alloc::Global;
use std::process::Abort;
use tap_io::MemorySink;
use tap_log::{Bytes, LinkLine, LinkWord, Log, NodeWord, Record, Refusal};
use tap_name::{List, Name, Settings, Slot};
use tap_report::{Mode, Reporter, Written, puts_write_the_text, write_text};
use tap_scenario::Step;

// A frame of one join, by its number.
fn frame_of_join(number: u32) -> &'static [u8] {
    match number {
        0 => &[1, 1, 0, 2, 0, 1, 0, 0, 0, 1],
        1 => &[1, 8, 0, 5, 0, 0, 0, 1, 0, 0, 0, 1, 1],
        2 => &[1, 3, 0, 5, 0, 0, 0, 1, 0, 0, 0, 1, 1],
        3 => &[1, 8, 0, 5, 0, 1, 0, 0, 0, 0, 0, 1, 1],
        4 => &[1, 4, 0, 4, 0, 1, 0, 0, 0, 0, 0, 1],
        5 => &[1, 7, 0, 0, 0, 0, 0, 1],
        6 => &[1, 6, 0, 0, 0, 0, 0, 1],
        _ => &[1, 7, 0, 0, 0, 1, 0, 0],
    }
}

fn sent(rt: &impl Abort, alloc: Global, number: u32) -> Record {
    let bytes = Bytes::copy_of(alloc, frame_of_join(number)).expect(rt, "memory");
    Record::Sent { number, bytes }
}

fn push(rt: &impl Abort, records: &mut Vec<Record>, item: Record) {
    records.push(item).expect(rt, "memory");
}

// The table of a node with one settled link, in the slot of level 1 and this digit.
fn table(rt: &impl Abort, alloc: Global, name: Name, digit: u8, target: Name) -> Record {
    let mut links = List::new(alloc);
    links
        .push(LinkLine {
            slot: Slot { level: 1, digit },
            name: target,
            kind: LinkWord::Settled,
        })
        .expect(rt, "memory");
    Record::TableOf {
        name,
        status: NodeWord::Core,
        links,
    }
}

// The records of one join after the beginning, up to the last frame.
fn join(rt: &impl Abort, alloc: Global, records: &mut Vec<Record>, old: Name, new: Name) {
    push(
        rt,
        records,
        step(
            1,
            Step::Join {
                name: new,
                via: old,
            },
        ),
    );
    push(rt, records, sent(rt, alloc, 0));
    push(rt, records, step(2, Step::Settle));
    push(rt, records, taken(0));
    push(rt, records, sent(rt, alloc, 1));
    push(rt, records, sent(rt, alloc, 2));
    push(rt, records, taken(1));
    push(rt, records, taken(2));
    push(rt, records, sent(rt, alloc, 3));
    push(rt, records, sent(rt, alloc, 4));
    push(rt, records, taken(3));
    push(rt, records, sent(rt, alloc, 5));
    push(rt, records, taken(4));
    push(rt, records, sent(rt, alloc, 6));
    push(rt, records, taken(5));
    push(rt, records, taken(6));
    push(rt, records, Record::Core { name: new });
    push(rt, records, sent(rt, alloc, 7));
    push(rt, records, taken(7));
}

// The tables of both nodes after the join, and the end.
fn tables_of_both(rt: &impl Abort, alloc: Global, records: &mut Vec<Record>, old: Name, new: Name) {
    push(rt, records, step(3, Step::Table { name: old }));
    push(rt, records, table(rt, alloc, old, 1, new));
    push(rt, records, step(4, Step::Table { name: new }));
    push(rt, records, table(rt, alloc, new, 0, old));
    push(rt, records, Record::Finished { steps: 4 });
}

// The log of one join.
fn log_of_join(rt: &impl Abort, alloc: Global) -> Log
    ensures { IsPrintableLog result.records }
{
    let settings = Settings::new(2, 2, 1).expect(rt, "settings");
    let (old, new) = (name(rt, &settings, "00"), name(rt, &settings, "01"));
    let mut records = Vec::new(alloc);
    join(rt, alloc, &mut records, old, new);
    tables_of_both(rt, alloc, &mut records, old, new);
    log_of(rt, alloc, &settings, &["00"], records)
}

#[test]
fn one_join_is_printed(rt: HostRuntime) {
    let log = log_of_join(&rt, rt.alloc());
    let long = "begin base 2 digits 2 width 1 frames 200000\nmember 00\n\
        step 1 join 01 via 00\nsent 0 seek 01 00 01010002000100000001\n\
        step 2 settle\ntaken 0\n\
        sent 1 link 00 01 01080005000000010000000101\n\
        sent 2 hello 00 01 01030005000000010000000101\ntaken 1\ntaken 2\n\
        sent 3 link 01 00 01080005000100000000000101\n\
        sent 4 heard 01 00 010400040001000000000001\ntaken 3\n\
        sent 5 release 00 01 0107000000000001\ntaken 4\n\
        sent 6 done 00 01 0106000000000001\ntaken 5\ntaken 6\ncore 01\n\
        sent 7 release 01 00 0107000000010000\ntaken 7\n\
        step 3 table 00\ntable 00 core links 1\nlink 1 1 01 settled\n\
        step 4 table 01\ntable 01 core links 1\nlink 1 0 00 settled\ndone 4\n";
    let brief = "begin base 2 digits 2 width 1 frames 200000\ncore 01\n\
        table 00 core links 1\nlink 1 1 01 settled\n\
        table 01 core links 1\nlink 1 0 00 settled\ndone 4\n";
    let summary = "nodes 2\nframes 8\nhops 0\nanswered 0\n";
    check_modes(&rt, rt.alloc(), &log, [long, brief, summary]);
    let (fails, begun) = ([2], "begin base");
    check_text(
        &rt,
        rt.alloc(),
        Mode::Brief,
        &log,
        &fails,
        Written::Failed,
        begun,
    );
}

// Up to the loss: the seek is repeated, and both of its packets arrive.
fn until_the_link_is_lost(
    rt: &impl Abort,
    alloc: Global,
    records: &mut Vec<Record>,
    old: Name,
    new: Name,
) {
    push(rt, records, Record::Carrier);
    push(
        rt,
        records,
        step(
            1,
            Step::Join {
                name: new,
                via: old,
            },
        ),
    );
    push(rt, records, sent(rt, alloc, 0));
    push(rt, records, data(0, 0));
    push(rt, records, step(2, Step::Repeat { place: 0 }));
    push(rt, records, data(1, 0));
    push(rt, records, step(3, Step::Deliver { place: 0 }));
    push(rt, records, arrived(0));
    push(rt, records, taken(0));
    push(rt, records, sent(rt, alloc, 1));
    push(rt, records, sent(rt, alloc, 2));
    push(rt, records, data(2, 1));
    push(rt, records, data(3, 2));
    push(rt, records, ack(4, 0));
    push(rt, records, step(4, Step::Deliver { place: 0 }));
    push(rt, records, arrived(1));
    push(rt, records, ack(5, 0));
    push(rt, records, step(5, Step::Lose { place: 0 }));
    push(rt, records, Record::Lost { packet: 2 });
}

// The newcomer takes the hello, and what it sends arrives.
fn until_the_hello_is_heard(rt: &impl Abort, alloc: Global, records: &mut Vec<Record>) {
    push(rt, records, step(6, Step::Settle));
    push(rt, records, arrived(3));
    push(rt, records, taken(2));
    push(rt, records, sent(rt, alloc, 3));
    push(rt, records, sent(rt, alloc, 4));
    push(rt, records, data(6, 3));
    push(rt, records, data(7, 4));
    push(rt, records, ack(8, 2));
    push(rt, records, arrived(4));
    push(rt, records, arrived(5));
    push(rt, records, arrived(6));
}

// The newcomer becomes core, though it hasn't taken the link yet.
fn until_it_is_core(rt: &impl Abort, alloc: Global, records: &mut Vec<Record>, new: Name) {
    push(rt, records, taken(3));
    push(rt, records, sent(rt, alloc, 5));
    push(rt, records, data(9, 5));
    push(rt, records, ack(10, 3));
    push(rt, records, arrived(7));
    push(rt, records, taken(4));
    push(rt, records, sent(rt, alloc, 6));
    push(rt, records, data(11, 6));
    push(rt, records, ack(12, 4));
    push(rt, records, arrived(8));
    push(rt, records, arrived(9));
    push(rt, records, taken(5));
    push(rt, records, ack(13, 5));
    push(rt, records, arrived(10));
    push(rt, records, arrived(11));
    push(rt, records, taken(6));
    push(rt, records, Record::Core { name: new });
    push(rt, records, ack(14, 6));
    push(rt, records, arrived(12));
    push(rt, records, arrived(13));
    push(rt, records, arrived(14));
}

// A tick sends the link again, and then nothing is under way.
fn after_a_tick(rt: &impl Abort, alloc: Global, records: &mut Vec<Record>, old: Name, new: Name) {
    push(rt, records, Record::Ticked);
    push(rt, records, data(15, 1));
    push(rt, records, arrived(15));
    push(rt, records, taken(1));
    push(rt, records, sent(rt, alloc, 7));
    push(rt, records, data(16, 7));
    push(rt, records, ack(17, 1));
    push(rt, records, arrived(16));
    push(rt, records, taken(7));
    push(rt, records, ack(18, 7));
    push(rt, records, arrived(17));
    push(rt, records, arrived(18));
    push(rt, records, step(7, Step::Table { name: old }));
    push(rt, records, table(rt, alloc, old, 1, new));
    push(rt, records, Record::Finished { steps: 7 });
}

// The log of one join that packets carry.
fn log_of_carried_join(rt: &impl Abort, alloc: Global) -> Log
    ensures { IsPrintableLog result.records }
{
    let settings = Settings::new(2, 2, 1).expect(rt, "settings");
    let (old, new) = (name(rt, &settings, "00"), name(rt, &settings, "01"));
    let mut records = Vec::new(alloc);
    until_the_link_is_lost(rt, alloc, &mut records, old, new);
    until_the_hello_is_heard(rt, alloc, &mut records);
    until_it_is_core(rt, alloc, &mut records, new);
    after_a_tick(rt, alloc, &mut records, old, new);
    log_of(rt, alloc, &settings, &["00"], records)
}

#[test]
fn a_carried_join_is_printed(rt: HostRuntime) {
    let log = log_of_carried_join(&rt, rt.alloc());
    let long =
        "begin base 2 digits 2 width 1 frames 200000\nmember 00\ncarrier\nstep 1 join 01 via 00\n\
        sent 0 seek 01 00 01010002000100000001\npacket 0 data 0\nstep 2 repeat 0\npacket 1 data 0\n\
        step 3 deliver 0\narrived 0\ntaken 0\nsent 1 link 00 01 01080005000000010000000101\n\
        sent 2 hello 00 01 01030005000000010000000101\npacket 2 data 1\npacket 3 data 2\npacket 4 ack 0\n\
        step 4 deliver 0\narrived 1\npacket 5 ack 0\nstep 5 lose 0\nlost 2\nstep 6 settle\narrived 3\n\
        taken 2\nsent 3 link 01 00 01080005000100000000000101\nsent 4 heard 01 00 010400040001000000000001\n\
        packet 6 data 3\npacket 7 data 4\npacket 8 ack 2\narrived 4\narrived 5\narrived 6\ntaken 3\n\
        sent 5 release 00 01 0107000000000001\npacket 9 data 5\npacket 10 ack 3\narrived 7\ntaken 4\n\
        sent 6 done 00 01 0106000000000001\npacket 11 data 6\npacket 12 ack 4\narrived 8\narrived 9\n\
        taken 5\npacket 13 ack 5\narrived 10\narrived 11\ntaken 6\ncore 01\npacket 14 ack 6\narrived 12\n\
        arrived 13\narrived 14\nticked\npacket 15 data 1\narrived 15\ntaken 1\n\
        sent 7 release 01 00 0107000000010000\npacket 16 data 7\npacket 17 ack 1\narrived 16\ntaken 7\n\
        packet 18 ack 7\narrived 17\narrived 18\nstep 7 table 00\ntable 00 core links 1\n\
        link 1 1 01 settled\ndone 7\n";
    let brief =
        "begin base 2 digits 2 width 1 frames 200000\ncarrier\ncore 01\ntable 00 core links 1\n\
        link 1 1 01 settled\ndone 7\n";
    let summary = "nodes 2\nframes 8\nhops 0\nanswered 0\n";
    check_modes(&rt, rt.alloc(), &log, [long, brief, summary]);
}

fn leaves_of(name: Name) -> Record {
    step(1, Step::Depart { name })
}

// Checks the summary of a beginning with these members and these records.
fn check_summary(rt: &impl Abort, alloc: Global, members: &[&str], rest: Vec<Record>, text: &str) {
    let settings = settings(rt);
    let log = log_of(rt, alloc, &settings, members, rest);
    check_text(rt, alloc, Mode::Summary, &log, &[], Written::All, text);
}

// Two of three nodes depart, one of them twice.
fn departures(rt: &impl Abort, alloc: Global) -> Vec<Record> {
    let first = name(rt, &settings(rt), "000");
    let second = name(rt, &settings(rt), "230");
    let refusal = Refusal::LastNode;
    let mut records = Vec::new(alloc);
    push(rt, &mut records, leaves_of(first));
    push(rt, &mut records, Record::Gone { name: first });
    push(rt, &mut records, leaves_of(second));
    push(rt, &mut records, Record::Refused { index: 2, refusal });
    push(rt, &mut records, Record::Gone { name: second });
    push(rt, &mut records, Record::Gone { name: first });
    records
}

// One node departs.
fn one_departure(rt: &impl Abort, alloc: Global) -> Vec<Record> {
    let name = name(rt, &settings(rt), "000");
    vec![in alloc; leaves_of(name), Record::Gone { name }].expect(rt, "memory")
}

#[test]
fn departed_nodes_are_counted(rt: HostRuntime) {
    let rest = departures(&rt, rt.alloc());
    let summary = "nodes 1\nframes 0\nhops 0\nanswered 0\n";
    check_summary(&rt, rt.alloc(), &["000", "230", "233"], rest, summary);
    let rest = one_departure(&rt, rt.alloc());
    let summary = "nodes 0\nframes 0\nhops 0\nanswered 0\n";
    check_summary(&rt, rt.alloc(), &[], rest, summary);
}

#[test]
fn an_empty_log_has_no_text(rt: HostRuntime) {
    let log = Log::new(rt.alloc());
    check_text(&rt, rt.alloc(), Mode::Summary, &log, &[], Written::All, "");
}

// A departure, within which a frame is taken.
fn push_departure(rt: &impl Abort, records: &mut Vec<Record>) {
    let leaver = name(rt, &settings(rt), "000");
    push(rt, records, leaves_of(leaver));
    push(rt, records, taken(0));
    push(rt, records, Record::Gone { name: leaver });
}

// In a carried log a step's group goes on when a frame is taken, which begins a group of its own in any other log.
#[test]
fn a_log_is_carried_where_carrier_is_second(rt: HostRuntime) {
    let mut rest = Vec::new(rt.alloc());
    push(&rt, &mut rest, Record::Carrier);
    push_departure(&rt, &mut rest);
    let summary = "nodes 1\nframes 0\nhops 0\nanswered 0\n";
    check_summary(&rt, rt.alloc(), &["000", "230"], rest, summary);
}

#[test]
fn a_log_is_not_carried_where_carrier_is_third(rt: HostRuntime) {
    let mut rest = Vec::new(rt.alloc());
    push(&rt, &mut rest, Record::Ticked);
    push(&rt, &mut rest, Record::Carrier);
    push_departure(&rt, &mut rest);
    let summary = "nodes 2\nframes 0\nhops 0\nanswered 0\n";
    check_summary(&rt, rt.alloc(), &["000", "230"], rest, summary);
}

#[test]
fn a_text_follows_only_what_was_written(rt: HostRuntime) {
    puts_write_the_text();
    assert!(rt; !Reporter::new(Mode::Long).is_full());
    let mut sink = MemorySink::new(rt.alloc(), 4, 100, &[3]).expect(&rt, "memory");
    assert!(rt; write_text(&mut sink, Written::All, b"tapestry") == Written::All);
    assert!(rt; write_text(&mut sink, Written::All, b": no memory") == Written::Failed);
    assert!(rt; write_text(&mut sink, Written::Failed, b"more") == Written::Failed);
    assert!(rt; sink.bytes() == b"tapestry".as_slice());
}
