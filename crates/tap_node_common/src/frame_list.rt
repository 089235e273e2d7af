ghost use Rattle.std.specs.Prelude.{◌≡◌, ◌==◌, ◌<◌, [], ◌∷◌, ◌++◌, length, slice_get, Some, OnOk};
ghost use Rattle.tap_wire.specs.Spelling.{IsFrame, spelling, tell_frame};

use std::alloc::Global;
use std::marker::Model;
use tap_name::{Name, Settings};
use tap_watch::Watch;
use tap_wire::{Bytes, Frame, NoMemory, TellFields, encode, encode_tell};

/// The frames of a step, in the order in which they are sent, each as its bytes.
///
/// Contracts see the list of the frames' bytes. A call that sends adds the spellings of its frames at the end; if memory is
/// refused to it, it isn't said which frames the list then has.
///
/// Rule: docs/PROTOCOL.md, "Steps of a node".
#[derive(Drop)]
pub struct FrameList {
    alloc: Global,
    frames: Vec<Bytes>,
}

impl Model for FrameList {
    ghost use Rattle.std.specs.Prelude.{List, ℕ};

    ghost Value = { List (List ℕ) };

    ghost view = { λ l. l.frames.items };
}

impl FrameList {
    /// No frame. This takes no memory; later calls take it of `alloc`.
    pub fn new(alloc: Global) -> FrameList
        ensures { result ≡ [] }
    {
        FrameList {
            alloc,
            frames: Vec::new(alloc),
        }
    }

    /// The frames with these bytes, in order. This takes no memory; later calls take it of `alloc`.
    pub fn from_frames(alloc: Global, frames: Vec<Bytes>) -> FrameList
        ensures { result ≡ frames.items }
    {
        FrameList { alloc, frames }
    }

    /// The number of frames.
    pub fn len(&self) -> usize
        ensures { result ≡ length self.now }
    {
        self.frames.len()
    }

    /// Whether there is no frame.
    pub fn is_empty(&self) -> bool
        ensures { result ≡ (length self.now == 0) }
    {
        self.frames.is_empty()
    }

    /// The bytes of the frame at a place, from 0.
    pub fn at(&self, i: usize) -> &[u8]
        requires { i < length self.now }
        ensures { slice_get self.now i ≡ Some result.now }
    {
        self.frames[i].as_slice()
    }

    /// The bytes of each frame, in order. It takes no memory.
    pub fn into_frames(self) -> Vec<Bytes>
        ensures { result.items ≡ self }
    {
        self.frames
    }

    // Adds a frame.
    pub(crate) fn push(&mut self, settings: &Settings, frame: &Frame) -> Result<(), NoMemory>
        requires { IsFrame settings.now frame.now }
        ensures { OnOk result (self.new ≡ self.old ++ spelling settings.now frame.now ∷ []) }
    {
        let bytes = encode(self.alloc, settings, frame)?;
        self.frames.push(bytes)?;
        Ok(())
    }

    // Adds a Tell, its watch list lent.
    pub(crate) fn push_tell(
        &mut self,
        settings: &Settings,
        from: &Name,
        to: &Name,
        fields: &TellFields,
        watch: &Watch,
    ) -> Result<(), NoMemory>
        requires { IsFrame settings.now (tell_frame from.now to.now fields.now watch.now) }
        ensures { OnOk result (self.new
            ≡ self.old ++ spelling settings.now (tell_frame from.now to.now fields.now watch.now) ∷ []) }
    {
        let bytes = encode_tell(self.alloc, settings, from, to, fields, watch)?;
        self.frames.push(bytes)?;
        Ok(())
    }
}
