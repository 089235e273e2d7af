ghost use Rattle.std.specs.Prelude.{◌≡◌, ◌+◌, ◌≤◌, ◌<◌, ◌++◌, [], map, AllPairs, IsTrue, if◌then◌else◌, IfOk, OnOk, None};
ghost use Rattle.std.specs.List.{IsDistinct};
ghost use Rattle.std.specs.List.Sorted.{IsPermutation};
ghost use Rattle.std.specs.Map.{keys_of, lookup};
ghost use Rattle.tap_carry.specs.Names.{is_name};
ghost use Rattle.tap_carry.specs.Outbox.{awaits_one, last_to, most_frames};
ghost use Rattle.tap_packets.specs.Matching.{IsAckedAt, SendsFrom, data_packet_of};
ghost use Rattle.tap_boxes.specs.Boxes.{outbox_in, outbox_of, packets_kept};

use crate::memory::NoMemory;
use indexmap::IndexMap;
use std::alloc::Global;
use std::marker::Model;
use tap_carry::{Await, Outbox, Packet};
use tap_name::Name;

// The outboxes of all nodes. That of a node is made as it first sends.
#[derive(Drop)]
pub(crate) struct Outboxes {
    boxes: IndexMap<Name, Outbox>,
    // How many frames await their acknowledgement in all.
    awaiting: u32,
}

impl Model for Outboxes {
    ghost use Rattle.tap_boxes.specs.Boxes.{OutboxesValue};

    ghost Value = { OutboxesValue };

    ghost view = { λ o. record { boxes = o.boxes.entries; awaiting = o.awaiting } };
}

impl Outboxes {
    // No node has sent anything. This takes no memory.
    pub(crate) fn new(alloc: Global) -> Outboxes
        ensures { result ≡ record { boxes = []; awaiting = 0 } }
    {
        Outboxes {
            boxes: IndexMap::new(alloc),
            awaiting: 0,
        }
    }

    // How many frames await their acknowledgement.
    pub(crate) fn awaiting(&self) -> u32
        ensures { result ≡ self.now.awaiting }
    {
        self.awaiting
    }

    // A node sends a frame, which awaits its acknowledgement from now on. The answer is its sequence number.
    pub(crate) fn send(
        &mut self,
        alloc: Global,
        from: Name,
        to: Name,
        frame: u32,
    ) -> Result<u32, NoMemory>
        requires above { (outbox_of self.old from).next ≤ frame }
        requires few { frame < most_frames }
        requires count { self.old.awaiting ≤ frame }
        ensures number { IfOk result (λ seq. seq ≡ last_to (outbox_of self.old from) to + 1) }
        ensures after { OnOk result (SendsFrom (outbox_of self.old) (outbox_of self.new) from to frame) }
        ensures awaiting { OnOk result (self.new.awaiting ≡ self.old.awaiting + 1) }
    {
        let seq = send_from(alloc, &mut self.boxes, from, to, frame)?;
        self.awaiting += 1;
        Ok(seq)
    }

    // A node takes the acknowledgement of a number from the receiver of that frame, which no longer awaits it.
    pub(crate) fn acked(&mut self, name: &Name, from: Name, seq: u32)
        requires { IsTrue (awaits_one (outbox_of self.old name.now) from seq) → 1 ≤ self.old.awaiting }
        ensures after { IsAckedAt (outbox_of self.old) (outbox_of self.new) name.now from seq }
        ensures awaiting { self.old.awaiting ≡
            self.new.awaiting + (if awaits_one (outbox_of self.old name.now) from seq then 1 else 0) }
    {
        let Some(outbox) = self.boxes.get_mut(name) else {
            return;
        };
        if outbox.acked(from, seq) {
            self.awaiting -= 1;
        }
    }

    // A data packet for each frame that awaits its acknowledgement, ascending by frame. No two outboxes have one name.
    pub(crate) fn gather(&self, alloc: Global) -> Result<Vec<Packet>, NoMemory>
        ensures names { IsDistinct is_name (keys_of self.now.boxes) }
        ensures all { IfOk result (λ packets. IsPermutation (packets_kept self.now) packets.items) }
        ensures sorted { IfOk result (λ packets. AllPairs (λ a b. a.frame ≤ b.frame) packets.items) }
    {
        // No effect at run time. The proof reads from this call that no two outboxes have one name.
        let _ = self.boxes.len();
        let mut packets = Vec::new(alloc);
        packets.reserve(self.awaiting as usize)?;
        let mut list = Vec::new(alloc);
        for (name, outbox) in &self.boxes {
            list.clear();
            outbox.gather(&mut list)?;
            add_packets(name, &list, &mut packets)?;
        }
        packets.sort_unstable_by_key(|packet| packet.frame);
        Ok(packets)
    }
}

// A node sends a frame. Its outbox is made if it hasn't one.
fn send_from(
    alloc: Global,
    boxes: &mut IndexMap<Name, Outbox>,
    from: Name,
    to: Name,
    frame: u32,
) -> Result<u32, NoMemory>
    requires above { (outbox_in boxes.old.entries from).next ≤ frame }
    requires few { frame < most_frames }
    ensures number { IfOk result (λ seq. seq ≡ last_to (outbox_in boxes.old.entries from) to + 1) }
    ensures after { OnOk result (SendsFrom (outbox_in boxes.old.entries) (outbox_in boxes.new.entries) from to frame) }
{
    if let Some(outbox) = boxes.get_mut(&from) {
        return Ok(outbox.send(to, frame)?);
    }
    send_first(alloc, boxes, from, to, frame)
}

// A node without an outbox sends a frame. Its outbox is made.
#[inline(never)]
fn send_first(
    alloc: Global,
    boxes: &mut IndexMap<Name, Outbox>,
    from: Name,
    to: Name,
    frame: u32,
) -> Result<u32, NoMemory>
    requires none { lookup (is_name from) boxes.old.entries ≡ None }
    requires few { frame < most_frames }
    ensures number { IfOk result (λ seq. seq ≡ last_to (outbox_in boxes.old.entries from) to + 1) }
    ensures after { OnOk result (SendsFrom (outbox_in boxes.old.entries) (outbox_in boxes.new.entries) from to frame) }
{
    let mut outbox = Outbox::new(alloc);
    let seq = outbox.send(to, frame)?;
    let _ = boxes.insert(from, outbox)?;
    Ok(seq)
}

// Adds a data packet for each of these frames, which the outbox of this name keeps.
fn add_packets(name: &Name, list: &[Await], packets: &mut Vec<Packet>) -> Result<(), NoMemory>
    ensures { OnOk result (packets.new.items ≡ packets.old.items ++ map (data_packet_of name.now) list.now) }
{
    packets.reserve(list.len())?;
    for item in list {
        packets.push_reserved(data_packet_of(name, item));
    }
    Ok(())
}

// The data packet of a frame that the outbox of this name keeps.
fn data_packet_of(name: &Name, item: &Await) -> Packet
    ensures { result ≡ data_packet_of name.now item.now }
{
    Packet {
        from: *name,
        to: item.to,
        seq: item.seq,
        frame: item.frame,
        ack: false,
    }
}
