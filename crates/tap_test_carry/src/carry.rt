use std::alloc::Global;
use std::process::Abort;
use tap_carry::{Await, Inbox, MOST_FRAMES, MOST_PACKETS, Net, Numbered, Outbox, Packet};
use tap_name::{Name, Settings};

// The digits of three nodes.
const ONE: [u8; 2] = [3, 0];

const TWO: [u8; 2] = [0, 2];

const SENDER: [u8; 2] = [1, 2];

// The frames that a carrier carries, and more turns than these take.
const FRAMES: u32 = 40;

const MOST_TURNS: u32 = 5_000;

// The name with these digits.
fn name_of(rt: &impl Abort, digits: &[u8]) -> Name {
    let settings = Settings::new(4, 2, 1).expect(rt, "settings");
    Name::from_digits(&settings, digits).expect(rt, "a name")
}

// Puts a packet, and gives its number.
fn put(rt: &impl Abort, net: &mut Net, packet: Packet) -> u32 {
    assert!(rt; net.made() < MOST_PACKETS);
    net.put(packet).expect(rt, "memory")
}

// Sends a frame, and gives its number for the receiver.
fn send(rt: &impl Abort, outbox: &mut Outbox, to: Name, frame: u32) -> u32 {
    assert!(rt; outbox.next() <= frame);
    assert!(rt; frame < MOST_FRAMES);
    outbox.send(to, frame).expect(rt, "memory")
}

// A number, from 1, that arrives.
fn arrived(rt: &impl Abort, inbox: &mut Inbox, from: Name, seq: u32) -> bool {
    assert!(rt; 1 <= seq);
    inbox.arrived(from, seq).expect(rt, "memory")
}

// What awaits are these frames, by their places.
fn check_places(rt: &impl Abort, outbox: &Outbox, frames: &[u32]) {
    assert!(rt; outbox.awaiting() == frames.len());
    let mut i = 0;
    for frame in frames {
        assert!(rt; i < outbox.awaiting());
        assert!(rt; outbox.await_at(i).frame == *frame);
        i += 1;
    }
}

// What awaits are these frames, all at once.
fn check_gathered(rt: &impl Abort, alloc: Global, outbox: &Outbox, frames: &[u32]) {
    let mut list = Vec::new(alloc);
    outbox.gather(&mut list).expect(rt, "memory");
    assert!(rt; list.len() == frames.len());
    let mut left = frames.iter();
    for item in &list {
        assert!(rt; left.next().copied() == Some(item.frame));
    }
}

// Sends frames, which get these numbers.
fn send_all(rt: &impl Abort, outbox: &mut Outbox, frames: &[([u8; 2], u32, u32)]) {
    for (to, frame, seq) in frames {
        let to = name_of(rt, to);
        assert!(rt; send(rt, outbox, to, *frame) == *seq);
    }
}

// Numbers are acknowledged, which were awaited or not.
fn acknowledge_all(rt: &impl Abort, outbox: &mut Outbox, numbers: &[([u8; 2], u32, bool)]) {
    for (from, seq, awaited) in numbers {
        let from = name_of(rt, from);
        assert!(rt; outbox.acked(from, *seq) == *awaited);
    }
}

// A frame awaits until its receiver acknowledges its number, once.
#[test]
fn an_outbox_keeps_what_awaits(rt: HostRuntime) {
    let mut outbox = Outbox::new(rt.alloc());
    assert!(rt; outbox.next() == 0);
    send_all(&rt, &mut outbox, &[(ONE, 3, 1), (TWO, 4, 1), (ONE, 9, 2)]);
    assert!(rt; outbox.next() == 10);
    check_places(&rt, &outbox, &[3, 4, 9]);
    let numbers = &[(TWO, 2, false), (ONE, 1, true), (ONE, 1, false)];
    acknowledge_all(&rt, &mut outbox, numbers);
    send_all(&rt, &mut outbox, &[(ONE, 10, 3)]);
    check_gathered(&rt, rt.alloc(), &outbox, &[4, 9, 10]);
}

// Sends a frame, which gets the next number, and acknowledges it at once if it is no fiftieth one.
fn send_one_of_many(rt: &impl Abort, outbox: &mut Outbox, to: Name, frame: u32) {
    assert!(rt; frame < MOST_FRAMES);
    let seq = frame + 1;
    assert!(rt; send(rt, outbox, to, frame) == seq);
    if frame % 50 > 0 {
        assert!(rt; outbox.acked(to, seq));
    }
}

// What was acknowledged is left out as acknowledgements come, and what awaits stays in its order.
#[test]
fn an_outbox_leaves_out_what_was_acknowledged(rt: HostRuntime) {
    let one = name_of(&rt, &ONE);
    let mut outbox = Outbox::new(rt.alloc());
    for frame in 0..200 {
        send_one_of_many(&rt, &mut outbox, one, frame);
    }
    check_places(&rt, &outbox, &[0, 50, 100, 150]);
}

// A number of a sender arrives for the first time once, in whatever order.
#[test]
fn an_inbox_tells_first_arrivals(rt: HostRuntime) {
    let mut inbox = Inbox::new(rt.alloc());
    for (from, seq, first) in &[
        (ONE, 3, true),
        (ONE, 1, true),
        (ONE, 3, false),
        (ONE, 5, true),
        (TWO, 5, true),
        (ONE, 2, true),
        (ONE, 3, false),
        (ONE, 1, false),
        (ONE, 4, true),
        (ONE, 5, false),
        (ONE, 6, true),
        (TWO, 1, true),
        (ONE, 4_294_967_295, true),
        (ONE, 4_294_967_295, false),
    ] {
        let from = name_of(&rt, from);
        assert!(rt; arrived(&rt, &mut inbox, from, *seq) == *first);
    }
}

// The first data packet of a frame from the one node to the other.
fn data_of(rt: &impl Abort, frame: u32) -> Packet {
    Packet {
        from: name_of(rt, &ONE),
        to: name_of(rt, &TWO),
        seq: 1,
        frame,
        ack: false,
    }
}

// A packet of this number, whose frame is ten more, is found at a place, and taken.
fn take_at(rt: &impl Abort, net: &mut Net, place: u32, number: u32) {
    assert!(rt; number < 5);
    let packet = data_of(rt, 10 + number);
    let there = Some(Numbered { number, packet });
    assert!(rt; net.look(place) == there);
    assert!(rt; net.take(place) == there);
}

// Puts five packets, whose frames are ten more than their numbers.
fn put_five(rt: &impl Abort, net: &mut Net) {
    for number in 0..5 {
        let packet = data_of(rt, 10 + number);
        assert!(rt; put(rt, net, packet) == number);
    }
}

// Packets are found at places in the order of their numbers.
#[test]
fn a_net_has_places(rt: HostRuntime) {
    let mut net = Net::new(rt.alloc());
    assert!(rt; net.look(0) == None);
    put_five(&rt, &mut net);
    for (place, number) in &[(1, 1), (1, 2), (2, 4), (0, 0), (0, 3)] {
        take_at(&rt, &mut net, *place, *number);
    }
    assert!(rt; net.take(0) == None);
    assert!(rt; net.len() == 0);
    assert!(rt; put(&rt, &mut net, data_of(&rt, 7)) == 5);
    assert!(rt; net.made() == 6);
}

// A sender and its two receivers, the packets between them, and the frames that were taken.
#[derive(Drop)]
struct Carrier {
    sender: Name,
    one: Name,
    two: Name,
    outbox: Outbox,
    inbox_one: Inbox,
    inbox_two: Inbox,
    net: Net,
    taken: Vec<u32>,
}

// The data packet of a frame that awaits.
fn packet_of(sender: Name, item: &Await) -> Packet {
    Packet {
        from: sender,
        to: item.to,
        seq: item.seq,
        frame: item.frame,
        ack: false,
    }
}

// The packet that acknowledges this one.
fn ack_of(packet: &Packet) -> Packet {
    Packet {
        from: packet.to,
        to: packet.from,
        seq: packet.seq,
        frame: packet.frame,
        ack: true,
    }
}

// Makes a packet for each frame that awaits.
fn tick(rt: &impl Abort, alloc: Global, carrier: &mut Carrier) {
    let mut list = Vec::new(alloc);
    carrier.outbox.gather(&mut list).expect(rt, "memory");
    for item in &list {
        let _ = put(rt, &mut carrier.net, packet_of(carrier.sender, item));
    }
}

// Whether a data packet arrives at its receiver for the first time.
fn is_first(rt: &impl Abort, carrier: &mut Carrier, packet: &Packet) -> bool {
    if packet.to == carrier.one {
        return arrived(rt, &mut carrier.inbox_one, packet.from, packet.seq);
    }
    arrived(rt, &mut carrier.inbox_two, packet.from, packet.seq)
}

// A data packet arrives, and is acknowledged.
fn deliver_data(rt: &impl Abort, carrier: &mut Carrier, packet: &Packet) {
    if is_first(rt, carrier, packet) {
        carrier.taken.push(packet.frame).expect(rt, "memory");
    }
    let _ = put(rt, &mut carrier.net, ack_of(packet));
}

// A packet arrives.
fn deliver(rt: &impl Abort, carrier: &mut Carrier, packet: &Packet) {
    if packet.ack {
        let _ = carrier.outbox.acked(packet.from, packet.seq);
    } else {
        deliver_data(rt, carrier, packet);
    }
}

// A packet that was taken is lost, repeated or arrives.
fn meet_fate(rt: &impl Abort, carrier: &mut Carrier, packet: &Packet, fate: u32) {
    if fate == 0 {
        return;
    }
    if fate == 1 {
        let _ = put(rt, &mut carrier.net, *packet);
    }
    deliver(rt, carrier, packet);
}

// Some packet is lost, repeated or arrives, or all that awaits is sent again.
fn turn(rt: &impl Abort, alloc: Global, carrier: &mut Carrier, draw: u32) {
    let count = carrier.net.len();
    if count == 0 {
        tick(rt, alloc, carrier);
        return;
    }
    if let Some(there) = carrier.net.take(draw % count) {
        meet_fate(rt, carrier, &there.packet, draw % 5);
    }
}

// Whether no frame awaits and no packet is under way.
fn is_done(carrier: &Carrier) -> bool {
    carrier.outbox.awaiting() == 0 && carrier.net.len() == 0
}

// Takes turns until no frame awaits and no packet is under way, and answers whether it came to that.
fn run(rt: &impl Abort, alloc: Global, carrier: &mut Carrier, seed: u32) -> bool {
    let mut draw = seed;
    for _ in 0..MOST_TURNS {
        draw = draw.wrapping_mul(1_664_525).wrapping_add(1_013_904_223);
        turn(rt, alloc, carrier, draw >> 8);
        if is_done(carrier) {
            return true;
        }
    }
    false
}

// Sends the frames of a carrier, each third one to the one receiver.
fn send_frames(rt: &impl Abort, outbox: &mut Outbox, one: Name, two: Name) {
    for frame in 0..FRAMES {
        let to = if frame % 3 == 0 { one } else { two };
        let _ = send(rt, outbox, to, frame);
    }
}

// A carrier that has sent its frames, of which no packet is made yet.
fn carrier_of(rt: &impl Abort, alloc: Global) -> Carrier {
    let one = name_of(rt, &ONE);
    let two = name_of(rt, &TWO);
    let mut outbox = Outbox::new(alloc);
    send_frames(rt, &mut outbox, one, two);
    Carrier {
        sender: name_of(rt, &SENDER),
        one,
        two,
        outbox,
        inbox_one: Inbox::new(alloc),
        inbox_two: Inbox::new(alloc),
        net: Net::new(alloc),
        taken: Vec::new(alloc),
    }
}

// What was taken is each frame once.
fn check_taken(rt: &impl Abort, taken: &mut Vec<u32>) {
    taken.sort().expect(rt, "memory");
    let mut next = 0;
    for frame in taken.as_slice() {
        assert!(rt; *frame == next);
        next = next.saturating_add(1);
    }
    assert!(rt; next == FRAMES);
}

// Whatever packets are lost, repeated and overtaken, each frame is taken once.
#[test]
fn each_frame_is_taken_once(rt: HostRuntime) {
    for seed in 0..64 {
        let mut carrier = carrier_of(&rt, rt.alloc());
        assert!(rt; run(&rt, rt.alloc(), &mut carrier, seed));
        check_taken(&rt, &mut carrier.taken);
    }
}
