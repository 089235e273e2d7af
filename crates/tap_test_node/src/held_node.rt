ghost use Rattle.std.specs.Prelude.{◌≡◌, true, false, [], IfOk, IfSome, IsTrue};
ghost use Rattle.tap_name.specs.Name.{IsName};
ghost use Rattle.tap_rule.specs.Node.{settings_of};
ghost use Rattle.tap_rule.specs.Node.Status.{Core as CoreStatus, Joining as JoiningStatus};
ghost use Rattle.tap_node.specs.Node.{has_room_left};

use crate::members::read_members;
use anyhow::{Result, bail};
use std::alloc::Global;
use std::marker::Model;
use tap_name::{Name, Settings, are_word_bytes, read_name};
use tap_node::{Node, NodeFault, NodeStatus, Turn};

/// What a node answers.
pub(crate) type Answer = Result<Turn, NodeFault>;

/// A node, and the settings of its names. Contracts see the node.
#[derive(Drop)]
pub(crate) struct HeldNode {
    settings: Settings,
    node: Node,
}

impl Model for HeldNode {
    ghost use Rattle.std.specs.Prelude.{◌≡◌};
    ghost use Rattle.tap_node.specs.Node.{NodeValue};
    ghost use Rattle.tap_rule.specs.Node.{settings_of};

    ghost Value = { NodeValue };

    ghost view = { λ h. h.node };

    ghost invariant = { λ h. settings_of h.node.state ≡ h.settings };
}

impl HeldNode {
    /// A member at rest among those that these words name; none if they don't name it and others, each once.
    pub(crate) fn member(
        alloc: Global,
        settings: &Settings,
        name: &str,
        words: &[&str],
    ) -> Result<Option<HeldNode>>
        ensures { IfOk result (λ r. IfSome r (λ node. node.state.casts ≡ [])) }
    {
        let Ok(name) = read_name(settings, name.as_bytes()) else {
            return Ok(None);
        };
        let Some(members) = read_members(alloc, settings, words)? else {
            return Ok(None);
        };
        if !members.as_slice().contains(&name) {
            return Ok(None);
        }
        let Ok(node) = Node::member(alloc, name, settings, &members) else {
            bail!("no memory");
        };
        Ok(Some(HeldNode {
            settings: *settings,
            node,
        }))
    }

    /// A node that joins; none if this is no name.
    pub(crate) fn joiner(
        alloc: Global,
        settings: &Settings,
        name: &str,
    ) -> Result<Option<HeldNode>> {
        let Ok(name) = read_name(settings, name.as_bytes()) else {
            return Ok(None);
        };
        let Ok(node) = Node::joiner(alloc, name, settings) else {
            bail!("no memory");
        };
        Ok(Some(HeldNode {
            settings: *settings,
            node,
        }))
    }

    /// The node.
    pub(crate) fn node(&self) -> &Node {
        &self.node
    }

    /// Takes bytes as a frame; none if there is no room for a step.
    pub(crate) fn take(&mut self, bytes: &[u8]) -> Option<Answer> {
        if !self.node.room() {
            return None;
        }
        Some(self.node.take(bytes))
    }

    /// Starts what this word and those after the node's name say; none if they say nothing that it can start.
    pub(crate) fn start(&mut self, start: &str, more: &[&str]) -> Option<Answer> {
        match (start, more) {
            ("seek", [via]) => self.seeks(via),
            ("abandon", []) => self.gives_up(),
            ("publish", [object]) => self.publishes(object),
            ("withdraw", [object]) => self.withdraws(object),
            ("find", [ticket, object]) => self.asks(ticket, object),
            ("leave", []) => self.leaves(),
            _ => None,
        }
    }

    // The name of the settings that a text spells.
    fn name(&self, text: &str) -> Option<Name>
        ensures { IfSome result (IsName (settings_of self.now.state)) }
    {
        read_name(&self.settings, text.as_bytes()).ok()
    }

    // Whether it may start what a joining node can: it is one, and there is room for a step. One that has ended may, too.
    fn may_join(&self) -> bool
        ensures room { result ≡ true → IsTrue (has_room_left self.now) }
        ensures joining { result ≡ true → self.now.ended ≡ false → self.now.state.status ≡ JoiningStatus }
    {
        match self.node.status() {
            NodeStatus::Joining | NodeStatus::Ended => self.node.room(),
            _ => false,
        }
    }

    // The same of what a core node can start.
    fn may_act(&self) -> bool
        ensures room { result ≡ true → IsTrue (has_room_left self.now) }
        ensures core { result ≡ true → self.now.ended ≡ false → self.now.state.status ≡ CoreStatus }
    {
        match self.node.status() {
            NodeStatus::Core | NodeStatus::Ended => self.node.room(),
            _ => false,
        }
    }

    // Its join starts by a node that it knows.
    fn seeks(&mut self, via: &str) -> Option<Answer> {
        if !self.may_join() {
            return None;
        }
        let via = self.name(via)?;
        Some(self.node.seek_by(via))
    }

    // Its join is given up.
    fn gives_up(&mut self) -> Option<Answer> {
        if !self.may_join() {
            return None;
        }
        Some(self.node.abandon())
    }

    // It publishes an object.
    fn publishes(&mut self, object: &str) -> Option<Answer> {
        if !self.may_act() {
            return None;
        }
        let object = self.name(object)?;
        Some(self.node.publish(object))
    }

    // It withdraws an object.
    fn withdraws(&mut self, object: &str) -> Option<Answer> {
        if !self.may_act() {
            return None;
        }
        let object = self.name(object)?;
        Some(self.node.withdraw(object))
    }

    // It looks an object up.
    fn asks(&mut self, ticket: &str, object: &str) -> Option<Answer> {
        if !self.may_act() {
            return None;
        }
        let ticket = ticket.parse::<u32>().ok()?;
        let object = self.name(object)?;
        Some(self.node.find(ticket, object))
    }

    // It leaves.
    fn leaves(&mut self) -> Option<Answer> {
        if !self.may_act() {
            return None;
        }
        Some(self.node.leave())
    }

    // A member casts at once, as it is made; none if these are no cast. No cast is met by then, so that each is new to it.
    fn casts(&mut self, cast: u32, level: u8, word: &str) -> Option<Answer>
        requires { self.old.state.casts ≡ [] }
    {
        let word = word.as_bytes();
        if word.is_empty() || word.len() > 32 || !are_word_bytes(word) {
            return None;
        }
        if !self.may_act() || level > self.settings.digits() {
            return None;
        }
        Some(self.node.cast(cast, level, word))
    }
}

/// A member at rest among those that the words of `members` name, and what it answers as it begins the cast of the other words;
/// none if there is no such member or no such cast.
pub(crate) fn caster(
    alloc: Global,
    settings: &Settings,
    name: &str,
    cast: [&str; 3],
    members: &[&str],
) -> Result<Option<(HeldNode, Answer)>> {
    let (Ok(number), Ok(level)) = (cast[0].parse::<u32>(), cast[1].parse::<u8>()) else {
        return Ok(None);
    };
    let Some(mut node) = HeldNode::member(alloc, settings, name, members)? else {
        return Ok(None);
    };
    match node.casts(number, level, cast[2]) {
        Some(answer) => Ok(Some((node, answer))),
        None => Ok(None),
    }
}
