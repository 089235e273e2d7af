ghost use Rattle.std.specs.Prelude.{◌≡◌, ◌==◌, ◌≤◌, ℕ, List, None, Err, length, All, IfOk, IfSome, IsOkAnd, OnErr};
ghost use Rattle.std.specs.List.Sorted.{IsSorted, IsStrictlySortedBy};
ghost use Rattle.std.specs.Map.{keys_of};
ghost use Rattle.std.specs.Option.{ForSome, option_copied};
ghost use Rattle.tap_name.specs.Distinct.{AreDistinct};
ghost use Rattle.tap_name.specs.Name.{IsName};
ghost use Rattle.tap_name.specs.Order.{name_cmp, sorted};
ghost use Rattle.tap_wire.specs.Reading.{frame_of};
ghost use Rattle.tap_overlay.specs.Overlay.{is_core_node_status, member_at, node_among};
ghost use Rattle.tap_node.specs.Outcome.{MayWant, empty_turn, start_outcome, take_outcome};

use crate::fault::OverlayFault;
use crate::memory::only_memory;
use crate::start::Start;
use crate::step::{deliver_at, start_at, take_at};
use indexmap::IndexMap;
use std::alloc::Global;
use std::marker::Model;
use std::mem;
use tap_name::{List, Name, Settings};
use tap_node::{NoMemory, Node, NodeFault, NodeStatus, Turn};
use tap_surrogate::Tables;
use tap_table::Table;
use tap_wire::{Body, Bytes, Frame, decode_into};

/// All nodes of a run, each under its name: the members with which it begins, at rest, and those that have joined since. A node
/// that is gone, has ceased or has ended stays.
///
/// Contracts see the settings, and the nodes with their names, ascending by name.
///
/// The nodes lie in the order of their names, and a node is found by the hash of its name.
///
/// Rule: docs/PROTOCOL.md, "Nodes".
#[derive(Drop)]
pub struct Overlay {
    alloc: Global,
    settings: Settings,
    nodes: IndexMap<Name, Node>,
    // The list that was given back last: the frames of the next turn use its memory.
    frames: Vec<Bytes>,
    // The frame that was read last.
    read: Frame,
}

impl Model for Overlay {
    ghost use Rattle.tap_overlay.specs.Overlay.{AreNodesOf, OverlayValue};

    ghost Value = { OverlayValue };

    ghost view = { λ o. record { settings = o.settings; nodes = o.nodes.entries } };

    ghost invariant = { λ o. AreNodesOf o.settings o.nodes.entries };
}

impl Overlay {
    ghost use Rattle.tap_overlay.specs.Overlay.{HasNameAndSettings, IsAtRest, node_at};
    ghost use Rattle.tap_overlay.specs.Start.{MayStart, rule_start};
    ghost use Rattle.tap_overlay.specs.Step.{HasDelivered, HasFailed, HasJoined, MayDeliver, StepsAt};

    /// The overlay of these members at rest, and of nobody else. They are distinct names of the settings, 256 at most.
    ///
    /// Later calls take memory of `alloc`.
    pub fn at_rest(
        alloc: Global,
        settings: &Settings,
        members: &List<Name>,
    ) -> Result<Overlay, NoMemory>
        requires names { All (IsName settings.now) members.now }
        requires distinct { AreDistinct members.now }
        requires few { length members.now ≤ 256 }
        ensures { IfOk result (IsAtRest settings.now members.now) }
    {
        // In their order each of them is put last, and is quick to find its place among the others.
        let ascending = sorted(alloc, members)?;
        let nodes = members_at_rest(alloc, settings, &ascending)?;
        Ok(Overlay {
            alloc,
            settings: *settings,
            nodes,
            frames: Vec::new(alloc),
            read: Frame {
                from: Name::of(&[]),
                to: Name::of(&[]),
                body: Body::Done,
            },
        })
    }

    /// How many nodes there are. Their names ascend.
    pub fn len(&self) -> usize
        ensures value { result ≡ length self.now.nodes }
        ensures ascending { IsStrictlySortedBy name_cmp (keys_of self.now.nodes) }
    {
        self.nodes.len()
    }

    /// Whether there is no node.
    pub fn is_empty(&self) -> bool
        ensures { result ≡ (length self.now.nodes == 0) }
    {
        self.nodes.is_empty()
    }

    /// The node of a name, `None` exactly if there is none. It has this name and the settings.
    pub fn node(&self, name: &Name) -> Option<&Node>
        ensures value { option_copied result ≡ node_at self.now name.now }
        ensures own { IfSome result (λ node. HasNameAndSettings self.now.settings name.now node.now) }
    {
        self.nodes.get(name)
    }

    /// Adds a node and starts its join, by a node that it knows. Both are names of the settings, and the overlay has no node of
    /// the first one.
    ///
    /// A refused call leaves the overlay as it was.
    ///
    /// Rule: docs/PROTOCOL.md, "The start of a join".
    pub fn join(&mut self, name: Name, via: Name) -> Result<Turn, NoMemory>
        requires fresh { node_at self.old name ≡ None }
        requires name { IsName self.old.settings name }
        requires via { IsName self.old.settings via }
        ensures joined { IfOk result (HasJoined self.old.settings name via self.old.nodes self.new.nodes) }
        ensures settings { self.new.settings ≡ self.old.settings }
        ensures same { OnErr result (self.new ≡ self.old) }
    {
        let mut node = Node::joiner(self.alloc, name, &self.settings)?;
        match node.seek_by(via) {
            Ok(turn) => {
                self.nodes.insert_sorted(name, node)?;
                Ok(turn)
            }
            Err(fault) => Err(only_memory(fault)),
        }
    }

    /// The node of a name takes a frame, as bytes, and gives the frames that it sends, and the news (`Node::take`).
    ///
    /// `NoNode` comes exactly if there is no node of the name, and `NoRoom` exactly if it has no room for a step; neither changes
    /// anything. Else the node answers, and every other node is as it was. A node to which memory was refused has ended, and stays.
    pub fn take(&mut self, name: &Name, bytes: &[u8]) -> Result<Turn, OverlayFault>
        ensures step { StepsAt (λ node. take_outcome node bytes.now) self.old.nodes self.new.nodes name.now result }
        ensures settings { self.new.settings ≡ self.old.settings }
        ensures memory { result ≡ Err (OverlayFault.Node NodeFault.NoMemory) → ForSome (node_at self.old name.now) (λ node. MayWant node bytes.now) }
    {
        take_at(&mut self.nodes, name, bytes)
    }

    /// Gives back the list of a turn's frames: the next frame that is delivered uses its memory.
    ///
    /// Rule: docs/DECISIONS.md, "The logs of a run".
    #[inline(always)]
    pub fn give_back(&mut self, frames: Vec<Bytes>)
        ensures { self.new ≡ self.old }
    {
        self.frames = frames;
    }

    /// A frame is taken by the node to which it goes (`Node::take_read`), whose name is the answer: an empty turn is lent, which then
    /// has the frames that are sent, and the news.
    ///
    /// The bytes are a frame. Its receiver is there, takes steps and has room for one, and the frame isn't strange to it. Every other
    /// node is as it was.
    ///
    /// `NoMemory` is the one refusal. Either it comes as the frame is read, and nothing has changed, or the receiver has ended, and stays.
    #[inline(always)]
    pub fn deliver(&mut self, turn: &mut Turn, bytes: &[u8]) -> Result<Name, NoMemory>
        requires may { IsOkAnd (frame_of self.old.settings bytes.now) (MayDeliver self.old.nodes) }
        requires empty { turn.old ≡ empty_turn }
        ensures delivered { IfOk result (λ name. IsOkAnd (frame_of self.old.settings bytes.now)
            (HasDelivered self.old.nodes self.new.nodes turn.new name)) }
        ensures failed { OnErr result (HasFailed self.old.nodes self.new.nodes (frame_of self.old.settings bytes.now)) }
        ensures settings { self.new.settings ≡ self.old.settings }
    {
        decode_into(self.alloc, &self.settings, bytes, &mut self.read)?;
        turn.reuse(
            self.alloc,
            mem::replace(&mut self.frames, Vec::new(self.alloc)),
        );
        deliver_at(&mut self.nodes, turn, &self.read)?;
        Ok(self.read.to)
    }

    /// The node of a name starts something, and gives the frames that it sends, and the news.
    ///
    /// A join that is given up is of a joining node, and everything else of a core node, unless the node has ended. Objects are
    /// names of the settings.
    ///
    /// `NoNode` comes exactly if there is no node of the name, and `NoRoom` exactly if it has no room for a step; neither changes
    /// anything. Else the node answers, `Ended` or `NoMemory` as its one refusal, and every other node is as it was. A node to which
    /// memory was refused has ended, and stays.
    pub fn start(&mut self, name: &Name, start: &Start<'_>) -> Result<Turn, OverlayFault>
        requires { ForSome (node_at self.old name.now) (MayStart self.old.settings start.now) }
        ensures step { StepsAt (λ node. start_outcome node (rule_start start.now)) self.old.nodes self.new.nodes name.now result }
        ensures settings { self.new.settings ≡ self.old.settings }
    {
        start_at(&mut self.nodes, name, start)
    }
}

impl Tables for Overlay {
    ghost use Rattle.tap_overlay.specs.Overlay.{nodes_lent};

    ghost parameters = { λ o. o.settings };

    ghost nodes = { nodes_lent };

    fn settings(&self) -> Settings {
        self.settings
    }

    fn table_of(&self, name: Name) -> Option<&Table> {
        self.node(&name)?.table()
    }

    fn is_core(&self, name: Name) -> bool {
        match self.node(&name) {
            Some(node) => is_core_status(node.status()),
            None => false,
        }
    }
}

// Whether a node of this status counts as core: a leaving one does.
fn is_core_status(status: NodeStatus) -> bool
    ensures { result ≡ is_core_node_status status }
{
    match status {
        NodeStatus::Core | NodeStatus::Leaving => true,
        NodeStatus::Joining | NodeStatus::Gone | NodeStatus::Ceased | NodeStatus::Ended => false,
    }
}

// The members in ascending order.
fn sorted(alloc: Global, members: &List<Name>) -> Result<List<Name>, NoMemory>
    ensures { IfOk result (λ names. names ≡ sorted members.now) }
{
    let mut names = Vec::from_slice(alloc, members.as_slice())?;
    names.sort()?;
    Ok(List::from_vec(names))
}

// Each of these members at rest, under its name.
fn members_at_rest(
    alloc: Global,
    settings: &Settings,
    members: &List<Name>,
) -> Result<IndexMap<Name, Node>, NoMemory>
    requires names { All (IsName settings.now) members.now }
    requires distinct { AreDistinct members.now }
    requires few { length members.now ≤ 256 }
    ensures members { IfOk result (λ nodes. (name : List ℕ) → node_among nodes.entries name ≡ member_at settings.now members.now name) }
    ensures ascending { IfOk result (λ nodes. IsSorted name_cmp (keys_of nodes.entries)) }
{
    let mut nodes = IndexMap::new(alloc);
    for member in members.as_slice() {
        let node = Node::member(alloc, *member, settings, members)?;
        nodes.insert_sorted(*member, node)?;
    }
    Ok(nodes)
}
