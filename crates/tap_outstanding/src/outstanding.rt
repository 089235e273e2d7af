ghost use Rattle.std.specs.Prelude.{◌≡◌, ◌==◌, ◌+◌, ◌-◌, ◌<◌, ◌≤◌, max, [], length, slice_get, if◌then◌else◌, IfOk, OnOk, OnErr, Some, None, is_some};
ghost use Rattle.std.specs.Option.{option_map_or};
ghost use Rattle.tap_outstanding.specs.Outstanding.{AreOutstanding, frame_of_number, most_sent, place_of_number, sent_with, taken_at_place};

use crate::levels;
use crate::memory::NoMemory;
use std::alloc::Global;
use std::marker::Model;

/// How many frames may be sent.
///
/// Rule: docs/PROTOCOL.md, "Limits".
pub const MOST_SENT: u32 = 4_000_000_000;

/// A frame that is outstanding.
///
/// Rule: docs/FORMATS.md, "Groups and moments".
#[derive(Clone, Copy, Debug, PartialEq, Eq)]
pub struct Flight {
    /// The number of the frame: how many were sent before it.
    pub number: u32,
    /// Where the record of its sending stands, as it was given.
    pub record_place: usize,
}

/// The frames that were sent and not yet taken.
///
/// Contracts see how many were sent, the outstanding ones in the order in which they were sent, and for
/// how many more there is room.
///
/// The place of each frame's record is kept by the frame's number. Beside it lie marks, 1 for a frame
/// that is outstanding and 0 for one that was taken, and above them sums of eight, sums of these, and
/// so on, each once all eight are there. A call goes through the levels once at most, and through at most
/// eight counts of each. Nothing is moved, and fewer than 10 bytes are kept for each frame that was sent. Before
/// one number, which only grows, all frames are known to be taken, so that the oldest one is mostly found at
/// once, and a search goes from there up through no more levels than the frames that were sent since then fill.
/// Taking it moves that number on, which over all calls passes each frame once.
///
/// Rule: docs/FORMATS.md, "Groups and moments".
#[derive(Drop)]
pub struct Outstanding {
    records: Vec<usize>,
    // 1 for a frame that is outstanding, 0 for one that was taken.
    marks: Vec<u8>,
    sums: [Vec<u32>; 10],
    count: u32,
    room: usize,
    // No frame before this number is outstanding.
    low: usize,
}

impl Model for Outstanding {
    ghost use Rattle.std.specs.Prelude.{vec_len};
    ghost use Rattle.tap_outstanding.specs.KeptMarks.{IsKeptFrom};
    ghost use Rattle.tap_outstanding.specs.Outstanding.{OutstandingValue, flights_from};

    ghost Value = { OutstandingValue };

    ghost view = { λ o. record { sent = vec_len o.records; frames = flights_from 0 o.records.items o.marks.items; room = o.room } };

    ghost invariant = { λ o. IsKeptFrom o.records o.marks o.sums o.count o.room o.low };
}

impl Outstanding {
    /// None sent. This takes no memory; later calls take it of `alloc`.
    pub fn new(alloc: Global) -> Outstanding
        ensures { result ≡ record { sent = 0; frames = []; room = 0 } }
    {
        Outstanding {
            records: Vec::new(alloc),
            marks: Vec::new(alloc),
            sums: [
                Vec::new(alloc),
                Vec::new(alloc),
                Vec::new(alloc),
                Vec::new(alloc),
                Vec::new(alloc),
                Vec::new(alloc),
                Vec::new(alloc),
                Vec::new(alloc),
                Vec::new(alloc),
                Vec::new(alloc),
            ],
            count: 0,
            room: 0,
            low: 0,
        }
    }

    /// How many frames were sent, which is the number of the next one.
    pub fn sent(&self) -> u32
        ensures count { result ≡ self.now.sent }
        ensures most { result ≤ most_sent }
    {
        self.records.len() as u32
    }

    /// How many frames are outstanding.
    pub fn len(&self) -> u32
        ensures count { result ≡ length self.now.frames }
        ensures outstanding { AreOutstanding self.now }
    {
        self.count
    }

    /// Whether none is outstanding.
    pub fn is_empty(&self) -> bool
        ensures { result ≡ (length self.now.frames == 0) }
    {
        self.count == 0
    }

    /// Makes room for so many more frames, so that sending them takes no memory. A refused call changes
    /// nothing.
    pub fn reserve(&mut self, frames: u32) -> Result<(), NoMemory>
        ensures sent { self.new.sent ≡ self.old.sent }
        ensures frames { self.new.frames ≡ self.old.frames }
        ensures ok { OnOk result (self.new.room ≡ max self.old.room frames) }
        ensures err { OnErr result (self.new ≡ self.old) }
    {
        let more = frames as usize;
        if self.room < more {
            self.records.reserve(more)?;
            self.marks.reserve(more)?;
            levels::reserve(&mut self.sums, more)?;
            self.room = more;
        }
        Ok(())
    }

    /// Sends a frame whose record stands at this place, and gives its number. A refused call changes
    /// nothing.
    pub fn send(&mut self, record_place: usize) -> Result<u32, NoMemory>
        requires { self.old.sent < most_sent }
        ensures number { IfOk result (λ number. number ≡ self.old.sent) }
        ensures after { OnOk result (self.new ≡ sent_with self.old record_place) }
        ensures err { OnErr result (self.new ≡ self.old) }
    {
        self.reserve(1)?;
        Ok(self.send_reserved(record_place))
    }

    /// Sends a frame for which there is room, and gives its number. It takes no memory.
    #[inline(always)]
    pub fn send_reserved(&mut self, record_place: usize) -> u32
        requires few { self.old.sent < most_sent }
        requires room { 1 ≤ self.old.room }
        ensures number { result ≡ self.old.sent }
        ensures after { self.new ≡ sent_with self.old record_place }
    {
        let number = self.records.len();
        levels::raise(&mut self.marks, &mut self.sums);
        self.records.push_reserved(record_place);
        self.count += 1;
        self.room -= 1;
        number as u32
    }

    /// The outstanding frame at a place, from 0 for the oldest, and `None` exactly if the place is at or
    /// above their number.
    #[inline(always)]
    pub fn frame_at(&self, place: u32) -> Option<Flight>
        ensures { result ≡ slice_get self.now.frames place }
    {
        if place < self.count {
            let number = levels::find_after(&self.marks, &self.sums, self.low, place);
            Some(Flight {
                number: number as u32,
                record_place: self.records[number],
            })
        } else {
            None
        }
    }

    /// The place of the outstanding frame that was sent last, and `None` exactly if none is outstanding.
    pub fn newest(&self) -> Option<u32>
        ensures { result ≡ (if length self.now.frames == 0 then None else Some (length self.now.frames - 1)) }
    {
        self.count.checked_sub(1)
    }

    /// The place of the frame with this number, and `None` exactly if that frame isn't outstanding.
    pub fn place_of(&self, number: u32) -> Option<u32>
        ensures { result ≡ place_of_number self.now.frames number }
    {
        let number = number as usize;
        if levels::is_marked(&self.marks, number) {
            Some(levels::rank(&self.marks, &self.sums, number))
        } else {
            None
        }
    }

    /// The frame with this number, and `None` exactly if that frame isn't outstanding.
    pub fn frame_of(&self, number: u32) -> Option<Flight>
        ensures { result ≡ frame_of_number self.now.frames number }
    {
        let at = number as usize;
        if levels::is_marked(&self.marks, at) {
            Some(Flight {
                number,
                record_place: self.records[at],
            })
        } else {
            None
        }
    }

    /// Takes the frame at a place; the order of the others stays. `None` comes exactly if the place is at
    /// or above their number, and then nothing changes.
    pub fn take(&mut self, place: u32) -> Option<Flight>
        ensures frame { result ≡ slice_get self.old.frames place }
        ensures after { self.new ≡ taken_at_place self.old place }
    {
        if place >= self.count {
            return None;
        }
        let number = levels::find_after(&self.marks, &self.sums, self.low, place);
        levels::lower(&mut self.marks, &mut self.sums, number);
        self.low = levels::next_mark(&self.marks, self.low);
        self.count -= 1;
        let record_place = self.records[number];
        Some(Flight {
            number: number as u32,
            record_place,
        })
    }

    /// Takes the frame with this number, if it is outstanding, and answers whether it was; the order of the
    /// others stays.
    #[inline(always)]
    pub fn take_number(&mut self, number: u32) -> bool
        ensures taken { result ≡ is_some (place_of_number self.old.frames number) }
        ensures after { self.new ≡ option_map_or (taken_at_place self.old) (place_of_number self.old.frames number) self.old }
    {
        let number = number as usize;
        if !levels::is_marked(&self.marks, number) {
            return false;
        }
        levels::lower(&mut self.marks, &mut self.sums, number);
        self.low = levels::next_mark(&self.marks, self.low);
        self.count -= 1;
        true
    }
}
