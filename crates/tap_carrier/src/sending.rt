ghost use Rattle.std.specs.Prelude.{◌≡◌, ◌<◌, ◌≤◌, ◌∷◌, [], false};
ghost use Rattle.tap_carry.specs.Net.{most_packets};
ghost use Rattle.tap_carry.specs.Outbox.{most_frames};
ghost use Rattle.tap_engine.specs.Outcome.{MayGoOn};
ghost use Rattle.tap_boxes.specs.Boxes.{outbox_of};
ghost use Rattle.tap_boxes.specs.Changes.{packet_to_send};
ghost use Rattle.tap_carrier.specs.Kept.{KeepsLog};
ghost use Rattle.tap_engine.specs.World.{whole_log};
ghost use Rattle.tap_carrier.specs.Sending.{HasCarried, HasHead, IsFrameOf, IsToCarry, RemarksAll, packets_since, put_record};

use crate::carrier::Carrier;
use tap_boxes::NoMemory;
use tap_carry::Packet;
use tap_log::Record;
use tap_name::{Name, Settings};
use tap_wire::decode_head;
use tap_world::{Stop, World};

// A frame that was sent: its number, its sender and its receiver.
#[derive(Clone, Copy)]
pub(crate) struct Sending {
    pub(crate) number: u32,
    pub(crate) from: Name,
    pub(crate) to: Name,
}

// The frame that a record sends, if it sends one.
#[tactic(auto, unfolding(tap_log::specs::Kinds::sent_number, tap_packets::specs::Sequence::sent_way, crate::specs::Sending::HasHead))]
fn sending_of(settings: &Settings, item: &Record) -> Option<Sending>
    requires { HasHead settings.now item.now }
    ensures { IsFrameOf settings.now item.now result }
{
    let Record::Sent { number, bytes } = item else {
        return None;
    };
    let Ok(head) = decode_head(settings, bytes.as_slice()) else {
        unreachable!()
    };
    Some(Sending {
        number: *number,
        from: head.from,
        to: head.to,
    })
}

impl Carrier {
    /// Makes a data packet for each frame that was sent from this place of the whole log on, and puts the frames into their senders' outboxes.
    /// The one refusal is `NoMemory`; some first ones of these packets are then in the log.
    ///
    /// Condition: outboxes are what the log says up to this place, and all else is what it says; there are numbers for the packets.
    ///
    /// Rule: docs/PROTOCOL.md, "Packets".
    pub fn carry_since(
        &mut self,
        world: &mut World,
        settings: &Settings,
        from: usize,
    ) -> Result<(), Stop>
        requires goes_on { MayGoOn world.old }
        requires runs { world.old.stopped ≡ false }
        requires carry { IsToCarry settings.now from world.old self.old }
        ensures { RemarksAll (packets_since from world.old) (KeepsLog settings.now (whole_log world.new) self.new)
            world.old result world.new }
    {
        let end = world.log().len();
        for place in from..end {
            if let Some(sending) = sending_of(settings, world.log().at(place)) {
                self.carry(world, sending)?;
            }
        }
        Ok(())
    }

    // Puts a frame into its sender's outbox, and makes its data packet.
    fn carry(&mut self, world: &mut World, sending: Sending) -> Result<(), Stop>
        requires goes_on { MayGoOn world.old }
        requires runs { world.old.stopped ≡ false }
        requires room { self.old.boxes.net.made < most_packets }
        requires above { (outbox_of self.old.boxes.outboxes sending.from).next ≤ sending.number }
        requires few { sending.number < most_frames }
        requires count { self.old.boxes.outboxes.awaiting ≤ sending.number }
        ensures { RemarksAll (put_record self.old (packet_to_send self.old.boxes sending.from sending.to sending.number) ∷ []) (HasCarried sending self.old self.new)
            world.old result world.new }
    {
        let packet = match self.boxes.send(sending.from, sending.to, sending.number) {
            Ok(packet) => packet,
            Err(NoMemory) => return Err(Stop::NoMemory),
        };
        self.put(world, packet)
    }
}
