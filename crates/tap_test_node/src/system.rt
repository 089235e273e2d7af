use crate::held_node::HeldNode;
use std::alloc::Global;
use tap_name::{Name, Settings, read_name};
use tap_wire::Bytes;

/// A frame that is under way: how many were sent before it, and its bytes.
#[derive(Drop)]
pub(crate) struct SentFrame {
    pub(crate) number: u64,
    pub(crate) bytes: Bytes,
}

/// Nodes, and the frames that are under way, the oldest first.
#[derive(Drop)]
pub(crate) struct System {
    alloc: Global,
    settings: Settings,
    nodes: Vec<HeldNode>,
    under_way: Vec<SentFrame>,
    sent: u64,
}

impl System {
    /// No node, and no frame.
    pub(crate) fn new(alloc: Global, settings: Settings) -> System {
        System {
            alloc,
            settings,
            nodes: Vec::new(alloc),
            under_way: Vec::new(alloc),
            sent: 0,
        }
    }

    /// The settings of all names.
    pub(crate) fn settings(&self) -> &Settings {
        &self.settings
    }

    /// Adds a node, in place of the one of its name if there is one; none if memory is refused.
    pub(crate) fn add(&mut self, node: HeldNode) -> Option<()> {
        let name = node.node().name();
        if let Some(held) = self.node_named(name) {
            *held = node;
            return Some(());
        }
        self.nodes.push(node).ok()
    }

    /// The name that this text spells, if it is one.
    pub(crate) fn name(&self, text: &str) -> Option<Name> {
        read_name(&self.settings, text.as_bytes()).ok()
    }

    /// The node of this text's name, if there is one.
    pub(crate) fn node(&mut self, text: &str) -> Option<&mut HeldNode> {
        let name = self.name(text)?;
        self.node_named(name)
    }

    /// The node of this name, if there is one.
    pub(crate) fn node_named(&mut self, name: Name) -> Option<&mut HeldNode> {
        for held in self.nodes.iter_mut() {
            if held.node().name() == name {
                return Some(held);
            }
        }
        None
    }

    /// The number of the next frame that is sent, which is from then on counted as sent.
    pub(crate) fn next_number(&mut self) -> u64 {
        let number = self.sent;
        self.sent = number.saturating_add(1);
        number
    }

    /// Puts a frame under way; none if memory is refused.
    pub(crate) fn send(&mut self, frame: SentFrame) -> Option<()> {
        self.under_way.push(frame).ok()
    }

    /// Takes away the frame at this place of those under way.
    pub(crate) fn take_away(&mut self, place: usize) -> Option<SentFrame> {
        if place < self.under_way.len() {
            return Some(self.under_way.remove(place));
        }
        None
    }
}
