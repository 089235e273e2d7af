use std::process::Abort;
use tap_outstanding::{Flight, MOST_SENT, Outstanding};

// Where the record of a frame stands, by its number.
fn record_of(number: u32) -> usize {
    7 + 2 * number as usize
}

// Sends a frame, which gets this number.
fn send(rt: &impl Abort, outstanding: &mut Outstanding, number: u32) {
    assert!(rt; outstanding.sent() < MOST_SENT);
    assert!(rt; outstanding.send(record_of(number)).expect(rt, "memory") == number);
}

// Takes the frame at a place, which is the one with this number.
fn take(rt: &impl Abort, outstanding: &mut Outstanding, place: u32, number: u32) {
    let flight = Some(Flight {
        number,
        record_place: record_of(number),
    });
    assert!(rt; outstanding.frame_at(place) == flight);
    assert!(rt; outstanding.place_of(number) == Some(place));
    assert!(rt; outstanding.take(place) == flight);
    assert!(rt; outstanding.place_of(number) == None);
}

// Sends frames, with the numbers 0 on.
fn send_all(rt: &impl Abort, outstanding: &mut Outstanding, count: u32) {
    for number in 0..count {
        send(rt, outstanding, number);
    }
}

// Takes frames from the middle, the front and the end, over more than two levels.
#[test]
fn places_follow_what_is_taken(rt: HostRuntime) {
    let mut outstanding = Outstanding::new(rt.alloc());
    assert!(rt; outstanding.is_empty());
    assert!(rt; outstanding.newest() == None);
    send_all(&rt, &mut outstanding, 600);
    assert!(rt; outstanding.sent() == 600);
    for (place, number) in &[
        (300, 300),
        (300, 301),
        (0, 0),
        (596, 599),
        (255, 256),
        (255, 257),
        (593, 598),
    ] {
        take(&rt, &mut outstanding, *place, *number);
    }
    assert!(rt; outstanding.len() == 593);
    assert!(rt; outstanding.newest() == Some(592));
    assert!(rt; outstanding.take(593) == None);
    assert!(rt; outstanding.place_of(597) == Some(592));
    assert!(rt; outstanding.place_of(600) == None);
    assert!(rt; !outstanding.is_empty());
}

// Frames for which room was made take no memory.
#[test]
fn room_is_made_at_once(rt: HostRuntime) {
    let mut outstanding = Outstanding::new(rt.alloc());
    outstanding.reserve(2).expect(&rt, "memory");
    assert!(rt; outstanding.send_reserved(7) == 0);
    assert!(rt; outstanding.send_reserved(9) == 1);
    take(&rt, &mut outstanding, 1, 1);
}
