ghost use Rattle.std.specs.Prelude.{◌≡◌, ◌==◌, ◌<◌, ◌≤◌, ℕ, [], length, slice_get, if◌then◌else◌, None, Some, IfOk, OnOk, OnErr, IfSome};
ghost use Rattle.tap_carry.specs.Net.{AreUnderWay, most_packets, packet_of, packets_less, put_with, taken_at};

use crate::memory::NoMemory;
use slab::Slab;
use std::alloc::Global;
use std::marker::Model;
use tap_name::Name;
use tap_outstanding::Outstanding;

/// How many packets may be put into a net.
///
/// Rule: docs/PROTOCOL.md, "Packets".
pub const MOST_PACKETS: u32 = 4_000_000_000;

// For so many packets places are made at once.
const PLACES: u32 = 64;

// The places of so many packets that have ended are forgotten.
const MOST_ENDED: u32 = 1_024;

/// A packet: it carries a frame, or the acknowledgement of one.
///
/// Rule: docs/PROTOCOL.md, "Packets".
#[derive(Clone, Copy, Debug, PartialEq, Eq)]
pub struct Packet {
    /// The node that sends the packet: the frame's sender, or its receiver if this acknowledges it.
    pub from: Name,
    /// The node that it goes to.
    pub to: Name,
    /// The sequence number of the frame, from 1.
    pub seq: u32,
    /// The number of the frame among all frames of the run.
    pub frame: u32,
    /// Whether this acknowledges the frame.
    pub ack: bool,
}

/// A packet with its number.
///
/// Rule: docs/PROTOCOL.md, "Packets".
#[derive(Clone, Copy, Debug, PartialEq, Eq)]
pub struct Numbered {
    /// How many packets were put before it.
    pub number: u32,
    /// The packet.
    pub packet: Packet,
}

/// The net: the packets that were put and not yet taken.
///
/// Contracts see how many were put, and those under way in the order of their numbers.
///
/// The places of the numbers under way are found as those of outstanding frames are, and with each number is kept the
/// key of its packet, which lies in a slab. So a call takes time that grows with the logarithm of how many were put. Some
/// 9 bytes are kept for each packet that was put since none was under way, or since shortly before that; and the packet itself
/// only while it is under way.
///
/// Rule: docs/PROTOCOL.md, "Packets".
#[derive(Drop)]
pub struct Net {
    alloc: Global,
    // So many packets were put before those that have places, and have ended.
    ended: u32,
    places: Outstanding,
    packets: Slab<Packet>,
    // For so many more packets there are places at least.
    room: u32,
}

impl Model for Net {
    ghost use Rattle.std.specs.Prelude.{◌+◌};
    ghost use Rattle.tap_carry.specs.Net.{NetValue};

    ghost Value = { NetValue };

    ghost use Rattle.tap_carry.specs.NetKept.{IsNet, packets_of};

    ghost view = { λ n. record { made = n.ended + n.places.sent; packets = packets_of n.ended n.packets n.places.frames } };

    ghost invariant = { λ n. IsNet n.ended n.places n.packets n.room };
}

impl Net {
    /// None put. This takes no memory; later calls take it of `alloc`.
    pub fn new(alloc: Global) -> Net
        ensures { result ≡ record { made = 0; packets = [] } }
    {
        Net {
            alloc,
            ended: 0,
            places: Outstanding::new(alloc),
            packets: Slab::new(alloc),
            room: 0,
        }
    }

    /// How many packets were put, which is the number of the next one.
    pub fn made(&self) -> u32
        ensures count { result ≡ self.now.made }
        ensures most { result ≤ most_packets }
    {
        self.ended + self.places.sent()
    }

    /// How many packets are under way.
    pub fn len(&self) -> u32
        ensures count { result ≡ length self.now.packets }
        ensures under_way { AreUnderWay self.now }
    {
        self.places.len()
    }

    /// Puts a packet, and gives its number, from 0. A refused call changes nothing.
    #[inline(always)]
    pub fn put(&mut self, packet: Packet) -> Result<u32, NoMemory>
        requires { self.old.made < most_packets }
        ensures number { IfOk result (λ number. number ≡ self.old.made) }
        ensures after { OnOk result (self.new ≡ put_with self.old packet) }
        ensures look_up { OnOk result ((n : ℕ) →
            packet_of self.new.packets n ≡
            (if n == self.old.made then Some packet else packet_of self.old.packets n)) }
        ensures err { OnErr result (self.new ≡ self.old) }
    {
        self.forget();
        self.put_next(packet)
    }

    // Forgets the places of packets that have ended, if none is under way and they are many.
    #[inline(always)]
    fn forget(&mut self)
        ensures { self.new ≡ self.old }
    {
        if !self.places.is_empty() {
            return;
        }
        let sent = self.places.sent();
        if sent < MOST_ENDED {
            return;
        }
        self.ended += sent;
        self.places = Outstanding::new(self.alloc);
        self.room = 0;
    }

    // Puts a packet, and gives its number.
    #[inline(always)]
    fn put_next(&mut self, packet: Packet) -> Result<u32, NoMemory>
        requires { self.old.made < most_packets }
        ensures number { IfOk result (λ number. number ≡ self.old.made) }
        ensures after { OnOk result (self.new ≡ put_with self.old packet) }
        ensures look_up { OnOk result ((n : ℕ) →
            packet_of self.new.packets n ≡
            (if n == self.old.made then Some packet else packet_of self.old.packets n)) }
        ensures err { OnErr result (self.new ≡ self.old) }
    {
        self.room = make_room(&mut self.places, self.room)?;
        self.packets.reserve(1)?;
        let key = self.packets.insert_reserved(packet);
        self.room -= 1;
        Ok(self.ended + self.places.send_reserved(key))
    }

    /// The packet at a place, from 0 for the least number, and `None` exactly if the place is at or above how many are
    /// under way.
    pub fn look(&self, place: u32) -> Option<Numbered>
        ensures { result ≡ slice_get self.now.packets place }
    {
        let flight = self.places.frame_at(place)?;
        let packet = *self.packets.get(flight.record_place)?;
        Some(Numbered {
            number: self.ended + flight.number,
            packet,
        })
    }

    /// Takes the packet at a place; the order of the others stays. `None` comes exactly if the place is at or above
    /// how many are under way, and then nothing changes.
    #[inline(always)]
    pub fn take(&mut self, place: u32) -> Option<Numbered>
        ensures packet { result ≡ slice_get self.old.packets place }
        ensures after { self.new ≡ taken_at self.old place }
        ensures less { IfSome result (λ p. self.new.packets ≡ packets_less self.old.packets p.number) }
        ensures look_up { IfSome result (λ p. (n : ℕ) →
            packet_of self.new.packets n ≡
            (if n == p.number then None else packet_of self.old.packets n)) }
        ensures none { result ≡ None → self.new ≡ self.old }
    {
        if place >= self.places.len() {
            return None;
        }
        let flight = self.places.take(place)?;
        let packet = self.packets[flight.record_place];
        let _ = self.packets.remove(flight.record_place);
        Some(Numbered {
            number: self.ended + flight.number,
            packet,
        })
    }
}

// Sees that there is room for one more packet, of which there was so much, and answers how much there is. It is made for several at
// once.
fn make_room(places: &mut Outstanding, room: u32) -> Result<u32, NoMemory>
    requires { room ≤ places.old.room }
    ensures sent { places.new.sent ≡ places.old.sent }
    ensures frames { places.new.frames ≡ places.old.frames }
    ensures ok { IfOk result (λ more. (1 ≤ more) × (more ≤ places.new.room)) }
    ensures err { OnErr result (places.new ≡ places.old) }
{
    if room > 0 {
        return Ok(room);
    }
    places.reserve(PLACES)?;
    Ok(PLACES)
}
