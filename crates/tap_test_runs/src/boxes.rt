ghost use Rattle.std.specs.Prelude.{◌+◌, ◌≤◌, ℕ, List};
ghost use Rattle.tap_boxes.specs.Boxes.{outbox_of};

use std::process::Abort;
use tap_boxes::Boxes;
use tap_carry::{MOST_FRAMES, MOST_PACKETS, Numbered, Packet};
use tap_name::{Name, Settings};

// The name with these digits.
fn name_of(rt: &impl Abort, digits: &[u8]) -> Name {
    let settings = Settings::new(4, 2, 1).expect(rt, "settings");
    Name::from_digits(&settings, digits).expect(rt, "a name")
}

// Sends a frame, above all that were sent.
fn send(rt: &impl Abort, boxes: &mut Boxes, from: Name, to: Name, frame: u32) -> Packet
    requires { (name : List ℕ) → (outbox_of boxes.old.outboxes name).next ≤ frame }
    ensures { (name : List ℕ) → (outbox_of boxes.new.outboxes name).next ≤ frame + 1 }
{
    assert!(rt; boxes.awaiting() <= frame);
    assert!(rt; frame < MOST_FRAMES);
    boxes.send(from, to, frame).expect(rt, "memory")
}

// Puts a packet, and gives its number.
fn put(rt: &impl Abort, boxes: &mut Boxes, packet: Packet) -> u32 {
    assert!(rt; boxes.made() < MOST_PACKETS);
    boxes.put(packet).expect(rt, "memory")
}

// Whether a data packet arrives for the first time.
fn arrived(rt: &impl Abort, boxes: &mut Boxes, packet: &Packet) -> bool {
    assert!(rt; 1 <= packet.seq);
    boxes.arrived(packet).expect(rt, "memory")
}

// An acknowledgement arrives. The answer is how many frames await theirs.
fn acked(rt: &impl Abort, boxes: &mut Boxes, packet: &Packet) -> u32 {
    assert!(rt; 0 < boxes.awaiting());
    boxes.acked(packet);
    boxes.awaiting()
}

// What is gathered are these frames.
fn check_gathered(rt: &impl Abort, boxes: &Boxes, frames: &[u32]) {
    let packets = boxes.gather().expect(rt, "memory");
    assert!(rt; packets.len() == frames.len());
    let mut left = frames.iter();
    for packet in &packets {
        assert!(rt; left.next().copied() == Some(packet.frame));
    }
}

// A packet is put as the first one, and is taken from its place, where no other is.
fn put_and_take(rt: &impl Abort, boxes: &mut Boxes, packet: &Packet) {
    let there = Numbered {
        number: 0,
        packet: *packet,
    };
    assert!(rt; put(rt, boxes, *packet) == 0);
    assert!(rt; boxes.under_way() == 1);
    assert!(rt; boxes.take(0) == Some(there));
    assert!(rt; boxes.take(0) == None);
}

// The packet that acknowledges this one.
fn ack_of(packet: &Packet) -> Packet {
    Packet {
        from: packet.to,
        to: packet.from,
        seq: packet.seq,
        frame: packet.frame,
        ack: true,
    }
}

// A frame's packet is put, taken and arrives, once for the first time; its acknowledgement comes back.
#[test]
fn a_frame_is_carried(rt: HostRuntime) {
    let one = name_of(&rt, &[3, 0]);
    let two = name_of(&rt, &[0, 2]);
    let mut boxes = Boxes::new(rt.alloc());
    let packet = send(&rt, &mut boxes, one, two, 0);
    put_and_take(&rt, &mut boxes, &packet);
    assert!(rt; arrived(&rt, &mut boxes, &packet));
    assert!(rt; !arrived(&rt, &mut boxes, &packet));
    assert!(rt; acked(&rt, &mut boxes, &ack_of(&packet)) == 0);
}

// What awaits is gathered ascending by frame, not by node.
#[test]
fn what_awaits_is_gathered(rt: HostRuntime) {
    let one = name_of(&rt, &[3, 0]);
    let two = name_of(&rt, &[0, 2]);
    let mut boxes = Boxes::new(rt.alloc());
    let _ = send(&rt, &mut boxes, one, two, 0);
    let _ = send(&rt, &mut boxes, two, one, 1);
    let _ = send(&rt, &mut boxes, one, two, 2);
    check_gathered(&rt, &boxes, &[0, 1, 2]);
}
