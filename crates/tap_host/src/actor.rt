ghost use Rattle.std.specs.Bool.{OnTrue};
ghost use Rattle.std.specs.Prelude.{◌≡◌, ◌≤◌, true, false, length, All, Contains, IfOk, IsTrue};
ghost use Rattle.tap_name.specs.Distinct.{AreDistinct};
ghost use Rattle.tap_name.specs.Name.{IsName};
ghost use Rattle.tap_rule.specs.Node.{joiner, member_at_rest, settings_of};
ghost use Rattle.tap_node.specs.Node.{has_room_left, node_status, running};
ghost use Rattle.tap_node.specs.Outcome.{start_outcome, take_outcome};
ghost use Rattle.tap_host_line.specs.Line.{IsNodeStart, most_line_members};
ghost use Rattle.tap_host.specs.Actor.{ActsAs, below_after, below_given, has_start, is_new, is_of_join, start_of};

use crate::memory::NoMemory;
use crate::starting::begin;
use std::alloc::Global;
use std::marker::Model;
use tap_host_line::Start;
use tap_name::{List, Name, Settings};
use tap_node::{News, Node, NodeFault, NodeStatus, Turn};

// A node, and a number above those of all casts that it has met. Contracts see both.
#[derive(Drop)]
pub(crate) struct Actor {
    settings: Settings,
    node: Node,
    casts_below: u64,
}

impl Model for Actor {
    ghost use Rattle.tap_host.specs.Actor.{ActorValue};

    ghost Value = { ActorValue };

    ghost view = { λ a. record { node = a.node; casts_below = a.casts_below } };

    ghost use Rattle.tap_host.specs.Actor.{IsKept};

    ghost invariant = { λ a. IsKept a.settings a.node a.casts_below };
}

impl Actor {
    // A node that starts to join. Its name is one of the settings.
    pub(crate) fn joiner(alloc: Global, settings: &Settings, name: Name) -> Result<Actor, NoMemory>
        requires { IsName settings.now name }
        ensures { IfOk result (λ actor. actor ≡ record { node = running (joiner settings.now name); casts_below = 0 }) }
    {
        Ok(Actor {
            settings: *settings,
            node: Node::joiner(alloc, name, settings)?,
            casts_below: 0,
        })
    }

    // One of the members of a network at rest.
    pub(crate) fn member(
        alloc: Global,
        settings: &Settings,
        name: Name,
        members: &List<Name>,
    ) -> Result<Actor, NoMemory>
        requires names { All (IsName settings.now) members.now }
        requires distinct { AreDistinct members.now }
        requires member { Contains members.now name }
        requires few { length members.now ≤ most_line_members }
        ensures { IfOk result (λ actor. actor ≡ record { node = running (member_at_rest settings.now members.now name); casts_below = 0 }) }
    {
        Ok(Actor {
            settings: *settings,
            node: Node::member(alloc, name, settings, members)?,
            casts_below: 0,
        })
    }

    // The settings.
    pub(crate) fn settings(&self) -> Settings
        ensures { result ≡ settings_of self.now.node.state }
    {
        self.settings
    }

    // The node.
    pub(crate) fn node(&self) -> &Node
        ensures { result.now ≡ self.now.node }
    {
        &self.node
    }

    // Whether the node takes a step: there is room for one, and memory wasn't refused to it.
    pub(crate) fn is_ready(&self) -> bool
        ensures room { OnTrue result (has_room_left self.now.node ≡ true) }
        ensures runs { OnTrue result (self.now.node.ended ≡ false) }
    {
        self.node.room() && self.node.status() != NodeStatus::Ended
    }

    // Takes a frame, as bytes.
    pub(crate) fn take(&mut self, bytes: &[u8]) -> Result<Turn, NodeFault>
        requires room { IsTrue (has_room_left self.old.node) }
        ensures { ActsAs (take_outcome self.old.node bytes.now) self.old self.new result }
    {
        let taken = self.node.take(bytes);
        self.casts_below = below_after(self.casts_below, &taken);
        taken
    }

    // Whether its status has this start.
    pub(crate) fn has_start(&self, start: &Start) -> bool
        ensures { result ≡ has_start (node_status self.now.node) start.now }
    {
        has_start(self.node.status(), start)
    }

    // Whether a cast that is begun has a number above those of all that it has met.
    pub(crate) fn is_new(&self, start: &Start) -> bool
        ensures { result ≡ is_new self.now.casts_below start.now }
    {
        match start {
            Start::Cast { number, .. } => u64::from(*number) >= self.casts_below,
            _ => true,
        }
    }

    // Begins a start, which its status has.
    pub(crate) fn begin(&mut self, start: &Start) -> Result<Turn, NodeFault>
        requires room { IsTrue (has_room_left self.old.node) }
        requires there { has_start (node_status self.old.node) start.now ≡ true }
        requires new { is_new self.old.casts_below start.now ≡ true }
        requires valid { IsNodeStart (settings_of self.old.node.state) start.now }
        ensures { ActsAs (start_outcome self.old.node (start_of start.now)) self.old self.new result }
    {
        let begun = begin(&mut self.node, start);
        self.casts_below = below_after(self.casts_below, &begun);
        begun
    }
}

// A number above those of all casts that were met, after a step.
fn below_after(below: u64, given: &Result<Turn, NodeFault>) -> u64
    ensures { result ≡ below_given below given.now }
{
    match given {
        Ok(turn) => below_with(below, &turn.news),
        Err(_) => below,
    }
}

// The same, after the news of a step.
fn below_with(below: u64, news: &News) -> u64
    ensures { result ≡ below_after below news.now }
{
    match news {
        News::Cast {
            cast,
            reached: true,
            ..
        } => below.max(u64::from(*cast) + 1),
        _ => below,
    }
}

// Whether a node of this status has this start.
fn has_start(status: NodeStatus, start: &Start) -> bool
    ensures { result ≡ has_start status start.now }
{
    match status {
        NodeStatus::Joining => is_of_join(start),
        NodeStatus::Core => !is_of_join(start),
        _ => false,
    }
}

// Whether a start is one of a join.
fn is_of_join(start: &Start) -> bool
    ensures { result ≡ is_of_join start.now }
{
    match start {
        Start::Join { .. } | Start::Abandon => true,
        _ => false,
    }
}
