ghost use Rattle.std.specs.Prelude.{◌≡◌, ◌≤◌, ◌<◌, List, map, length, not, slice_get, IsTrue, IfOk, IfSome, OnOk, OnErr};
ghost use Rattle.tap_carry.specs.Inbox.{has_arrived};
ghost use Rattle.tap_carry.specs.Net.{most_packets, packets_less};
ghost use Rattle.tap_carry.specs.Outbox.{most_frames};
ghost use Rattle.tap_history.specs.Moments.{awaiting};
ghost use Rattle.tap_log.specs.declared.record.Record.{Record};
ghost use Rattle.tap_name.specs.Settings.{SettingsValue};
ghost use Rattle.tap_packets.specs.Groups.{data_line};
ghost use Rattle.tap_packets.specs.Matching.{packet_along};
ghost use Rattle.tap_packets.specs.MayCome.{KeepsPackets};
ghost use Rattle.tap_packets.specs.Packets.{lines_under_way};
ghost use Rattle.tap_packets.specs.Sequence.{frame_ways};
ghost use Rattle.tap_boxes.specs.Boxes.{empty_boxes, inbox_of, outbox_of};
ghost use Rattle.tap_boxes.specs.Changes.{HasAcked, HasArrived, HasSent, is_awaited, packet_to_send, with_packet, without_packet};
ghost use Rattle.tap_boxes.specs.Kept.{KeepsBoxes};

use crate::inboxes::Inboxes;
use crate::memory::NoMemory;
use crate::outboxes::Outboxes;
use std::alloc::Global;
use std::marker::Model;
use tap_carry::{Await, Net, Numbered, Packet};
use tap_name::Name;

/// The outbox and the inbox of each node, and the net with the packets that are under way.
///
/// Contracts see the boxes by the names of their nodes, and the net. `KeepsBoxes` says that all of it is what a log tells.
///
/// A box is found by the hash of its name, and a packet by its place, in time that grows with the logarithm of how many were made. What
/// awaits is gathered by sorting it.
///
/// Rule: docs/PROTOCOL.md, "Packets".
#[derive(Drop)]
pub struct Boxes {
    alloc: Global,
    outboxes: Outboxes,
    inboxes: Inboxes,
    net: Net,
}

impl Model for Boxes {
    ghost use Rattle.tap_boxes.specs.Boxes.{BoxesValue};

    ghost Value = { BoxesValue };

    ghost view = { λ b. record { outboxes = b.outboxes; inboxes = b.inboxes; net = b.net } };
}

impl Boxes {
    /// Boxes in which nothing is. Later calls take memory of `alloc`.
    pub fn new(alloc: Global) -> Boxes
        ensures { result ≡ empty_boxes }
    {
        Boxes {
            alloc,
            outboxes: Outboxes::new(alloc),
            inboxes: Inboxes::new(alloc),
            net: Net::new(alloc),
        }
    }

    // ---- the net

    /// How many packets are under way.
    ///
    /// Rule: docs/FORMATS.md, "Groups and moments".
    pub fn under_way(&self) -> u32
        ensures count { result ≡ length self.now.net.packets }
        ensures lines { (p : SettingsValue) (sent log : List Record) → KeepsBoxes p sent log self.now →
            result ≡ length (lines_under_way log) }
    {
        self.net.len()
    }

    /// How many packets were made: the number of the next one, at most 4,294,967,295.
    ///
    /// Rule: docs/PROTOCOL.md, "Limits".
    pub fn made(&self) -> u32
        ensures count { result ≡ self.now.net.made }
        ensures most { result ≤ most_packets }
    {
        self.net.made()
    }

    /// The packet at a place of those under way, from 0 for the one that was made first, if there is one.
    pub fn look(&self, place: u32) -> Option<Numbered>
        ensures { result ≡ slice_get self.now.net.packets place }
    {
        self.net.look(place)
    }

    /// Takes the packet at a place out of the net, if there is one.
    #[inline(always)]
    pub fn take(&mut self, place: u32) -> Option<Numbered>
        ensures packet { result ≡ slice_get self.old.net.packets place }
        ensures after { self.new ≡ without_packet self.old place }
        ensures less { IfSome result (λ p. self.new.net.packets ≡ packets_less self.old.net.packets p.number) }
    {
        self.net.take(place)
    }

    /// Puts a packet into the net. The answer is its number. `NoMemory` only if memory was refused; nothing changes then.
    ///
    /// Condition: there is a number for it.
    #[inline(always)]
    pub fn put(&mut self, packet: Packet) -> Result<u32, NoMemory>
        requires { self.old.net.made < most_packets }
        ensures number { IfOk result (λ number. number ≡ self.old.net.made) }
        ensures after { OnOk result (self.new ≡ with_packet self.old packet) }
        ensures err { OnErr result (self.new ≡ self.old) }
    {
        Ok(self.net.put(packet)?)
    }

    // ---- the boxes

    /// How many frames await their acknowledgement.
    ///
    /// Rule: docs/FORMATS.md, "Groups and moments".
    pub fn awaiting(&self) -> u32
        ensures count { result ≡ self.now.outboxes.awaiting }
    {
        self.outboxes.awaiting()
    }

    /// A node sends a frame, which awaits its acknowledgement from now on. The answer is its data packet, which is to be put into the net.
    /// `NoMemory` only if memory was refused.
    ///
    /// Condition: the frame is above each that this node has sent, and no fewer frames were sent than await.
    pub fn send(&mut self, from: Name, to: Name, frame: u32) -> Result<Packet, NoMemory>
        requires above { (outbox_of self.old.outboxes from).next ≤ frame }
        requires few { frame < most_frames }
        requires count { self.old.outboxes.awaiting ≤ frame }
        ensures packet { IfOk result (λ packet. packet ≡ packet_to_send self.old from to frame) }
        ensures after { OnOk result (HasSent from to frame self.old self.new) }
        ensures net { self.new.net ≡ self.old.net }
    {
        let seq = self.outboxes.send(self.alloc, from, to, frame)?;
        Ok(Packet {
            from,
            to,
            seq,
            frame,
            ack: false,
        })
    }

    /// An acknowledgement arrives at the node to which it goes, which no longer awaits it.
    ///
    /// Condition: if the node awaits it, it is counted.
    #[inline(always)]
    pub fn acked(&mut self, packet: &Packet)
        requires { IsTrue (is_awaited self.old packet.now) → 1 ≤ self.old.outboxes.awaiting }
        ensures { HasAcked packet.now self.old self.new }
    {
        self.outboxes.acked(&packet.to, packet.from, packet.seq);
    }

    /// A data packet arrives at the node to which it goes. The answer is whether its frame does for the first time. `NoMemory` only if memory
    /// was refused.
    ///
    /// Condition: it has a sequence number of at least 1.
    #[inline(always)]
    pub fn arrived(&mut self, packet: &Packet) -> Result<bool, NoMemory>
        requires { 1 ≤ packet.now.seq }
        ensures first { IfOk result (λ first. first ≡
            not (has_arrived (inbox_of self.old.inboxes packet.now.to) packet.now.from packet.now.seq)) }
        ensures after { OnOk result (HasArrived packet.now self.old self.new) }
        ensures net { self.new.net ≡ self.old.net }
    {
        self.inboxes
            .arrived(self.alloc, packet.to, packet.from, packet.seq)
    }

    /// A data packet for each frame that awaits its acknowledgement, ascending by frame: what a tick sends once more. `NoMemory` only if
    /// memory was refused.
    ///
    /// Rule: docs/PROTOCOL.md, "Packets".
    pub fn gather(&self) -> Result<Vec<Packet>, NoMemory>
        ensures { (p : SettingsValue) (log : List Record) → KeepsBoxes p log log self.now → KeepsPackets log →
            IfOk result (λ packets. packets.items ≡ map (λ frame. packet_along (frame_ways p log) (data_line 0 frame)) (awaiting log)) }
    {
        self.outboxes.gather(self.alloc)
    }
}
