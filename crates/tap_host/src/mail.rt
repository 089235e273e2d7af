ghost use Rattle.std.specs.Prelude.{◌≡◌, ◌+◌, ◌<◌, ◌≤◌, ◌++◌, length, nat_le, AllPairs, OnOk};
ghost use Rattle.tap_carry.specs.Outbox.{most_frames};
ghost use Rattle.tap_host_line.specs.Texts.{text_of_packet};
ghost use Rattle.tap_host.specs.Mail.{empty_mail, letter_in, mail_acked, mail_seen, mail_sent, posts, text_of_letters};

use crate::memory::NoMemory;
use std::alloc::Global;
use std::marker::Model;
use tap_carry::{Await, MOST_FRAMES, Outbox};
use tap_host_line::put_packet;
use tap_name::{Name, Settings};
use tap_wire::{Bytes, decode_head};

// The frames that await their acknowledgement, with their bytes: an outbox, and the bytes by the numbers of their frames. Contracts see the
// letters that await, in the order in which they were sent, the last number for each receiver, and how many were sent.
//
// Bytes stay in the list until nothing awaits, or until most of them no longer await, when they are left out before more are sent.
#[derive(Drop)]
pub(crate) struct Mail {
    alloc: Global,
    outbox: Outbox,
    // The number of each frame and its bytes, ascending.
    frames: Vec<(u32, Bytes)>,
}

impl Model for Mail {
    ghost use Rattle.std.specs.Prelude.{map};
    ghost use Rattle.tap_host.specs.Mail.{MailValue, letter_in};

    ghost Value = { MailValue };

    ghost view = { λ m. record {
      letters = map (letter_in m.frames.items) m.outbox.awaits;
      last = m.outbox.last;
      sent = m.outbox.next;
    } };

    ghost use Rattle.tap_host.specs.Mail.{AreNumbered};

    ghost invariant = { λ m. AreNumbered m.frames.items m.outbox.next };
}

impl Mail {
    // Nothing was sent. This takes no memory; later calls take it of `alloc`.
    pub(crate) fn new(alloc: Global) -> Mail
        ensures { mail_seen result ≡ empty_mail }
    {
        Mail {
            alloc,
            outbox: Outbox::new(alloc),
            frames: Vec::new(alloc),
        }
    }

    // How many letters await.
    pub(crate) fn awaiting(&self) -> usize
        ensures { result ≡ length self.now.letters }
    {
        self.outbox.awaiting()
    }

    // Whether so many more can be numbered.
    pub(crate) fn has_room(&self, count: usize) -> bool
        ensures { result ≡ nat_le (self.now.sent + count) most_frames }
    {
        count <= (MOST_FRAMES - self.outbox.next()) as usize
    }

    // Sends frames, each to the receiver that its head names, and adds the lines of their packets.
    pub(crate) fn send_all(
        &mut self,
        out: &mut Vec<u8>,
        settings: &Settings,
        frames: Vec<Bytes>,
    ) -> Result<(), NoMemory>
        requires { self.old.sent + length frames.items ≤ most_frames }
        ensures { OnOk result ((mail_seen self.new, out.new.items)
            ≡ posts settings.now (mail_seen self.old, out.old.items) frames.items) }
    {
        self.leave_out()?;
        for frame in frames {
            if let Ok(head) = decode_head(settings, frame.as_slice()) {
                self.send(out, head.to, frame)?;
            }
        }
        Ok(())
    }

    // Sends a frame, and adds the line of its packet.
    fn send(&mut self, out: &mut Vec<u8>, to: Name, frame: Bytes) -> Result<(), NoMemory>
        requires { self.old.sent < most_frames }
        ensures mail { OnOk result (mail_seen self.new ≡ mail_sent (mail_seen self.old) to frame) }
        ensures text { OnOk result (out.new.items ≡ out.old.items
            ++ text_of_packet to ((mail_seen self.old).last to + 1) frame) }
    {
        // It has no effect. The proof reads from this call that each frame that awaits has a number that was given before.
        let _given = self.outbox.awaiting();
        let number = self.outbox.next();
        let seq = self.outbox.send(to, number)?;
        put_packet(out, &to, seq, frame.as_slice())?;
        self.frames.push((number, frame))?;
        Ok(())
    }

    // Takes the acknowledgement of a number from its receiver.
    pub(crate) fn acked(&mut self, from: Name, seq: u32)
        ensures { mail_seen self.new ≡ mail_acked (mail_seen self.old) from seq }
    {
        let _awaited = self.outbox.acked(from, seq);
        self.leave_out_all();
    }

    // Leaves all bytes out if nothing awaits.
    fn leave_out_all(&mut self)
        ensures { self.new ≡ self.old }
    {
        if self.outbox.awaiting() == 0 {
            self.frames.clear();
        }
    }

    // Leaves out the bytes that no longer await, if they are most of them.
    fn leave_out(&mut self) -> Result<(), NoMemory>
        ensures { OnOk result (self.new ≡ self.old) }
    {
        if self.frames.len() / 2 <= self.outbox.awaiting() {
            return Ok(());
        }
        let mut awaits = Vec::new(self.alloc);
        self.outbox.gather(&mut awaits)?;
        let mut kept = Vec::new(self.alloc);
        for item in &awaits {
            let frame = Bytes::copy_of(self.alloc, frame_of(&self.frames, item))?;
            kept.push((item.frame, frame))?;
        }
        self.frames = kept;
        Ok(())
    }

    // Adds the line of a packet for each letter that awaits.
    pub(crate) fn put_all(&self, out: &mut Vec<u8>) -> Result<(), NoMemory>
        ensures { OnOk result (out.new.items ≡ out.old.items ++ text_of_letters self.now.letters) }
    {
        let mut awaits = Vec::new(self.alloc);
        self.outbox.gather(&mut awaits)?;
        for item in &awaits {
            put_packet(out, &item.to, item.seq, frame_of(&self.frames, item))?;
        }
        Ok(())
    }
}

// The bytes of a frame that awaits.
fn frame_of<'a>(frames: &'a [(u32, Bytes)], item: &Await) -> &'a [u8]
    requires { AllPairs (λ a b. a.0 < b.0) frames.now }
    ensures { result.now ≡ (letter_in frames.now item.now).frame }
{
    match frames.binary_search_by_key(&item.frame, |kept| kept.0) {
        Ok(at) => frames[at].1.as_slice(),
        Err(_) => &[],
    }
}
