ghost use Rattle.std.specs.Prelude.{◌≡◌, []};
ghost use Rattle.tap_node.specs.Outcome.{empty_turn};

use std::alloc::Global;
use tap_node_common::{FrameList, News};
use tap_wire::Bytes;

/// What a step of a node gives.
///
/// Rule: docs/PROTOCOL.md, "Steps of a node".
#[derive(Drop)]
pub struct Turn {
    /// The frames that are sent, in order, as bytes.
    pub sent: FrameList,
    /// The news.
    pub news: News,
}

impl Turn {
    /// A turn without frames and without news. This takes no memory; what is added to it takes memory of `alloc`.
    ///
    /// Rule: docs/PROTOCOL.md, "Steps of a node".
    #[inline(always)]
    pub fn empty(alloc: Global) -> Turn
        ensures { result ≡ empty_turn }
    {
        Turn {
            sent: FrameList::new(alloc),
            news: News::Nothing,
        }
    }

    /// Drops the frames. Those that are added from now on use the memory of this list, whose frames are dropped, too.
    ///
    /// Rule: docs/PROTOCOL.md, "Steps of a node".
    #[inline(always)]
    pub fn reuse(&mut self, alloc: Global, mut frames: Vec<Bytes>)
        ensures { self.new ≡ record self.old { sent = [] } }
    {
        frames.clear();
        self.sent = FrameList::from_frames(alloc, frames);
    }
}
