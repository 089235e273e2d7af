ghost use Rattle.std.specs.Prelude.{IfOk};
ghost use Rattle.tap_name.specs.Name.{IsName};

use crate::starts;
use crate::starts::check_room;
use anyhow::{Context, Result};
use std::alloc::Global;
use std::collections::VecDeque;
use tap_name::{List, Name, Settings, read_name};
use tap_node::{News, Node, Turn};
use tap_wire::{Bytes, Head, decode_head};

/// The news of a step, and the node that took it.
#[derive(Clone, Copy)]
pub(crate) struct NodeNews {
    pub(crate) node: Name,
    pub(crate) news: News,
}

/// Nodes, and the frames that are under way between them, the oldest first.
#[derive(Drop)]
pub(crate) struct Network {
    alloc: Global,
    settings: Settings,
    nodes: Vec<Node>,
    under_way: VecDeque<Bytes>,
}

impl Network {
    /// No node yet.
    pub(crate) fn new(alloc: Global, settings: Settings) -> Network {
        Network {
            alloc,
            settings,
            nodes: Vec::new(alloc),
            under_way: VecDeque::new(alloc),
        }
    }

    /// The nodes, in the order in which they came.
    pub(crate) fn nodes(&self) -> &[Node] {
        self.nodes.as_slice()
    }

    /// Adds a node that is there from the start, alone.
    pub(crate) fn add_member(&mut self, text: &[u8]) -> Result<()> {
        let name = self.name(text)?;
        let mut members = List::new(self.alloc);
        members.push(name)?;
        let node = Node::member(self.alloc, name, &self.settings, &members)?;
        self.nodes.push(node)?;
        Ok(())
    }

    /// Adds a node that joins by another, and gives the news of its start.
    pub(crate) fn add_joiner(&mut self, text: &[u8], via: &[u8]) -> Result<NodeNews> {
        let name = self.name(text)?;
        let via = self.name(via)?;
        let mut node = Node::joiner(self.alloc, name, &self.settings)?;
        check_room(&node)?;
        let turn = node.seek_by(via)?;
        self.nodes.push(node)?;
        self.send(name, turn)
    }

    /// Has a node publish an object, and gives the news of that.
    pub(crate) fn publish(&mut self, server: &[u8], object: &[u8]) -> Result<NodeNews> {
        let name = self.name(server)?;
        let turn = starts::publish(self.node(name)?, object)?;
        self.send(name, turn)
    }

    /// Has a node look an object up under a ticket, and gives the news of that: the answer, if the node itself knows it.
    pub(crate) fn find(&mut self, asker: &[u8], ticket: u32, object: &[u8]) -> Result<NodeNews> {
        let name = self.name(asker)?;
        let turn = starts::find(self.node(name)?, ticket, object)?;
        self.send(name, turn)
    }

    /// Delivers the oldest frame to its receiver, and gives its head and the news of the step; none if none is under way.
    pub(crate) fn deliver_next(&mut self) -> Result<Option<(Head, NodeNews)>> {
        let Some(bytes) = self.under_way.pop_front() else {
            return Ok(None);
        };
        let head = decode_head(&self.settings, bytes.as_slice())?;
        let node = self.node(head.to)?;
        check_room(node)?;
        let turn = node.take(bytes.as_slice())?;
        let news = self.send(head.to, turn)?;
        Ok(Some((head, news)))
    }

    // The name of this text.
    fn name(&self, text: &[u8]) -> Result<Name>
        ensures { IfOk result (IsName self.now.settings) }
    {
        Ok(read_name(&self.settings, text)?)
    }

    // The node of this name.
    fn node(&mut self, name: Name) -> Result<&mut Node> {
        node_named(&mut self.nodes, name).context("no such node")
    }

    // Puts the frames of a node's step under way, and gives its news.
    fn send(&mut self, node: Name, turn: Turn) -> Result<NodeNews> {
        let news = turn.news;
        for bytes in turn.sent.into_frames() {
            self.under_way.push_back(bytes)?;
        }
        Ok(NodeNews { node, news })
    }
}

// The node of this name.
fn node_named(nodes: &mut Vec<Node>, name: Name) -> Option<&mut Node> {
    for node in nodes.iter_mut() {
        if node.name() == name {
            return Some(node);
        }
    }
    None
}
