ghost use Rattle.std.specs.Prelude.{◌≡◌, ◌≤◌, ◌<◌, ◌+◌, ◌∷◌, List, [], not, false, length, slice_get, Some, IsTrue, IfOk, IfErr, OnOk};
ghost use Rattle.tap_boxes.specs.Boxes.{inbox_of};
ghost use Rattle.tap_boxes.specs.Changes.{HasAcked, HasArrived, is_awaited};
ghost use Rattle.tap_carry.specs.Inbox.{has_arrived};
ghost use Rattle.tap_carry.specs.Net.{most_packets};
ghost use Rattle.tap_carry.specs.declared.net.Numbered.{Numbered};
ghost use Rattle.tap_engine.specs.Outcome.{MayGoOn};
ghost use Rattle.tap_engine.specs.World.{HasBegun, whole_log};
ghost use Rattle.tap_log.specs.Counts.{packet_count, resends};
ghost use Rattle.tap_log.specs.declared.record.Record.{Record};
ghost use Rattle.tap_log.specs.declared.record.Record.TheVariants.{Arrived, Carrier as CarrierRecord, Lost};
ghost use Rattle.tap_history.specs.Moments.{awaiting};
ghost use Rattle.tap_name.specs.Settings.{SettingsValue};
ghost use Rattle.tap_packets.specs.Groups.{tick_group};
ghost use Rattle.tap_packets.specs.MayCome.{KeepsPackets};
ghost use Rattle.tap_packets.specs.Packets.{lines_under_way};
ghost use Rattle.tap_runs.specs.Beginning.{Beginning};
ghost use Rattle.tap_carrier.specs.Kept.{KeepsLog};
ghost use Rattle.tap_carrier.specs.Sending.{HasDropped, HasPut, RemarksAll, ack_of, put_record};

use std::alloc::Global;
use std::marker::Model;
use tap_boxes::{Boxes, NoMemory};
use tap_carry::{Numbered, Packet};
use tap_log::Record;
use tap_scenario::Step;
use tap_world::{Stop, World};

/// The carrier of a run: it keeps the boxes of all nodes and the packets that are under way, and adds to the log of a world what it does
/// with packets.
///
/// Contracts see the boxes by the names of their nodes, the net, and how many packets steps have made once more. `KeepsLog` says that all of
/// it is what a log tells.
///
/// A box is found by the hash of its name, and a packet by its place, in time that grows with the logarithm of how many were made. A tick
/// sorts all that awaits.
///
/// Want of memory may leave boxes ahead of the log. A carrier is used no more after a call that wasn't answered `Ok`.
///
/// Rule: docs/PROTOCOL.md, "Packets".
#[derive(Drop)]
pub struct Carrier {
    pub(crate) boxes: Boxes,
    // Whether the last step sends packets once more, and how many packets such steps have made.
    pub(crate) resending: bool,
    pub(crate) resent: u32,
}

impl Model for Carrier {
    ghost use Rattle.std.specs.Prelude.{◌≤◌};
    ghost use Rattle.tap_carrier.specs.Carrier.{CarrierValue};

    ghost Value = { CarrierValue };

    ghost view = { λ c. record { boxes = c.boxes; resending = c.resending; resent = c.resent } };

    ghost invariant = { λ c. c.resent ≤ c.boxes.net.made };
}

impl Carrier {
    /// A carrier for a world that has just begun: the log says from now on that it is carried. Nothing was sent, and no packet is under way.
    ///
    /// Later calls take memory of `alloc`. The one refusal is `NoMemory`, if memory was refused.
    ///
    /// Rule: docs/FORMATS.md, "Groups and moments".
    pub fn new(alloc: Global, world: &mut World) -> Result<Carrier, Stop>
        requires goes_on { MayGoOn world.old }
        requires runs { world.old.stopped ≡ false }
        ensures world { RemarksAll (CarrierRecord ∷ []) (Unit {0}) world.old result world.new }
        ensures keeps { (b : Beginning) → HasBegun b world.old → IfOk result (KeepsLog b.settings (whole_log world.new)) }
    {
        world.remark(Record::Carrier)?;
        Ok(Carrier {
            boxes: Boxes::new(alloc),
            resending: false,
            resent: 0,
        })
    }

    /// How many packets are under way.
    ///
    /// Rule: docs/FORMATS.md, "Groups and moments".
    pub fn under_way(&self) -> u32
        ensures count { result ≡ length self.now.boxes.net.packets }
        ensures lines { (p : SettingsValue) (log : List Record) → KeepsLog p log self.now → result ≡ length (lines_under_way log) }
    {
        self.boxes.under_way()
    }

    /// How many frames await their acknowledgement.
    ///
    /// Rule: docs/FORMATS.md, "Groups and moments".
    pub fn awaiting(&self) -> u32
        ensures count { result ≡ self.now.boxes.outboxes.awaiting }
        ensures frames { (p : SettingsValue) (log : List Record) → KeepsLog p log self.now → result ≡ length (awaiting log) }
    {
        self.boxes.awaiting()
    }

    /// A step begins: packets that are made from now on count as made once more exactly if it is one that sends packets once more.
    ///
    /// Rule: docs/FORMATS.md, "Refusals".
    #[tactic(auto, unfolding(tap_log::specs::Counts::resends))]
    pub fn begin(&mut self, step: &Step)
        ensures { self.new ≡ record self.old { resending = resends step.now } }
    {
        self.resending = matches!(step, Step::Tick | Step::Repeat { .. });
    }

    // Makes a packet: it is put into the net, and the log says so.
    #[inline(always)]
    pub(crate) fn put(&mut self, world: &mut World, packet: Packet) -> Result<(), Stop>
        requires goes_on { MayGoOn world.old }
        requires runs { world.old.stopped ≡ false }
        requires room { self.old.boxes.net.made < most_packets }
        ensures { RemarksAll (put_record self.old packet ∷ []) (HasPut packet self.old self.new) world.old result world.new }
    {
        let Packet { frame, ack, .. } = packet;
        let number = match self.boxes.put(packet) {
            Ok(number) => number,
            Err(NoMemory) => return Err(Stop::NoMemory),
        };
        if self.resending {
            self.resent += 1;
        }
        world.remark(Record::Packet { number, frame, ack })
    }

    // ---- packets that end, or are made once more

    // Takes the packet at a place out of the net.
    #[inline(always)]
    fn take(&mut self, place: u32) -> Numbered
        requires { place < length self.old.boxes.net.packets }
        ensures packet { slice_get self.old.boxes.net.packets place ≡ Some result }
        ensures gone { HasDropped result.number self.old self.new }
    {
        let Some(there) = self.boxes.take(place) else {
            unreachable!()
        };
        there
    }

    /// The packet at a place arrives: it is taken out of the net, and the log says so. The answer is the packet. The one refusal is
    /// `NoMemory`.
    ///
    /// Condition: there is a packet at this place, and the world goes on.
    #[inline(always)]
    pub fn arrive(&mut self, world: &mut World, place: u32) -> Result<Packet, Stop>
        requires goes_on { MayGoOn world.old }
        requires runs { world.old.stopped ≡ false }
        requires there { place < length self.old.boxes.net.packets }
        ensures packet { IfOk result (λ packet. (there : Numbered) →
            slice_get self.old.boxes.net.packets place ≡ Some there → packet ≡ there.packet) }
        ensures adds { (there : Numbered) → slice_get self.old.boxes.net.packets place ≡ Some there →
            RemarksAll (Arrived there.number ∷ []) (HasDropped there.number self.old self.new) world.old result world.new }
    {
        let there = self.take(place);
        world.remark(Record::Arrived {
            packet: there.number,
        })?;
        Ok(there.packet)
    }

    /// The packet at a place is lost, and the log says so. The one refusal is `NoMemory`.
    ///
    /// Condition: there is a packet at this place, and the world goes on.
    pub fn lose(&mut self, world: &mut World, place: u32) -> Result<(), Stop>
        requires goes_on { MayGoOn world.old }
        requires runs { world.old.stopped ≡ false }
        requires there { place < length self.old.boxes.net.packets }
        ensures { (there : Numbered) → slice_get self.old.boxes.net.packets place ≡ Some there →
            RemarksAll (Lost there.number ∷ []) (HasDropped there.number self.old self.new) world.old result world.new }
    {
        let there = self.take(place);
        world.remark(Record::Lost {
            packet: there.number,
        })
    }

    /// The packet at a place is made once more, and the log says so. The one refusal is `NoMemory`.
    ///
    /// Condition: there is a packet at this place, there is a number for the new one, and the world goes on.
    pub fn repeat(&mut self, world: &mut World, place: u32) -> Result<(), Stop>
        requires goes_on { MayGoOn world.old }
        requires runs { world.old.stopped ≡ false }
        requires there { place < length self.old.boxes.net.packets }
        requires room { self.old.boxes.net.made < most_packets }
        ensures { (there : Numbered) → slice_get self.old.boxes.net.packets place ≡ Some there →
            RemarksAll (put_record self.old there.packet ∷ []) (HasPut there.packet self.old self.new) world.old result world.new }
    {
        let Some(there) = self.boxes.look(place) else {
            unreachable!()
        };
        self.put(world, there.packet)
    }

    // ---- what a packet carries

    /// An acknowledgement has arrived at the node to which it goes, which no longer awaits it.
    ///
    /// Condition: if the node awaits it, it is counted.
    #[inline(always)]
    pub fn acked(&mut self, packet: &Packet)
        requires { IsTrue (is_awaited self.old.boxes packet.now) → 1 ≤ self.old.boxes.outboxes.awaiting }
        ensures boxes { HasAcked packet.now self.old.boxes self.new.boxes }
        ensures same { self.new ≡ record self.old { boxes = self.new.boxes } }
    {
        self.boxes.acked(packet);
    }

    /// A data packet has arrived at the node to which it goes. The answer is whether its frame does for the first time. The one refusal is
    /// `NoMemory`.
    ///
    /// Condition: it has a sequence number of at least 1.
    #[inline(always)]
    pub fn is_new(&mut self, packet: &Packet) -> Result<bool, Stop>
        requires { 1 ≤ packet.now.seq }
        ensures first { IfOk result (λ first. first ≡
            not (has_arrived (inbox_of self.old.boxes.inboxes packet.now.to) packet.now.from packet.now.seq)) }
        ensures after { OnOk result (HasArrived packet.now self.old.boxes self.new.boxes) }
        ensures same { self.new ≡ record self.old { boxes = self.new.boxes } }
        ensures memory { IfErr result (λ stop. stop ≡ Stop.NoMemory) }
    {
        match self.boxes.arrived(packet) {
            Ok(first) => Ok(first),
            Err(NoMemory) => Err(Stop::NoMemory),
        }
    }

    /// Makes the packet that acknowledges the frame of a data packet. The one refusal is `NoMemory`.
    ///
    /// Condition: there is a number for it, and the world goes on.
    pub fn acknowledge(&mut self, world: &mut World, packet: &Packet) -> Result<(), Stop>
        requires goes_on { MayGoOn world.old }
        requires runs { world.old.stopped ≡ false }
        requires room { self.old.boxes.net.made < most_packets }
        ensures { RemarksAll (put_record self.old (ack_of packet.now) ∷ []) (HasPut (ack_of packet.now) self.old self.new)
            world.old result world.new }
    {
        self.put(
            world,
            Packet {
                from: packet.to,
                to: packet.from,
                seq: packet.seq,
                frame: packet.frame,
                ack: true,
            },
        )
    }

    // ---- ticks

    /// A tick: the log says so, and a data packet is made for each frame that awaits its acknowledgement, ascending. The one refusal is
    /// `NoMemory`; some first records of its group may then be in the log.
    ///
    /// Condition: the carrier is what the log says, there are numbers for the packets, and the world goes on.
    ///
    /// Rule: docs/FORMATS.md, "What comes next".
    pub fn tick(&mut self, world: &mut World) -> Result<(), Stop>
        requires goes_on { MayGoOn world.old }
        requires runs { world.old.stopped ≡ false }
        requires keeps { KeepsLog world.old.beginning.settings (whole_log world.old) self.old }
        requires packets { KeepsPackets (whole_log world.old) }
        requires room { packet_count (whole_log world.old) + length (awaiting (whole_log world.old)) ≤ most_packets }
        ensures { RemarksAll (tick_group (whole_log world.old))
            (KeepsLog world.old.beginning.settings (whole_log world.new) self.new) world.old result world.new }
    {
        let packets = match self.boxes.gather() {
            Ok(packets) => packets,
            Err(NoMemory) => return Err(Stop::NoMemory),
        };
        world.remark(Record::Ticked)?;
        for packet in &packets {
            self.put(world, *packet)?;
        }
        Ok(())
    }
}
