ghost use Rattle.std.specs.Prelude.{◌≡◌, ◌≢◌, ◌≤◌, false, None, IsTrue, Err};
ghost use Rattle.tap_name.specs.Name.{IsName};
ghost use Rattle.tap_name.specs.Word.{IsWord};
ghost use Rattle.tap_cast.specs.Casts.{level_of_cast};
ghost use Rattle.tap_rule.specs.Node.{settings_of};
ghost use Rattle.tap_rule.specs.Node.Status.{Core as CoreStatus, Joining as JoiningStatus};
ghost use Rattle.tap_rule.specs.Event.Start.{Abandon, Cast, Find, Join, Leave, Publish, Withdraw};
ghost use Rattle.tap_node.specs.Node.{has_room_left};
ghost use Rattle.tap_node.specs.Outcome.{AnswersAs, start_outcome};

use crate::fault::NodeFault;
use crate::node::Node;
use crate::state::turned;
use crate::turn::Turn;
use tap_core_node::CastCopy;
use tap_name::Name;
use tap_node_common::FrameList;
use tap_session::Parent;

// Each start does as the rule of a node says, and gives the frames that it sends, and the news.
impl Node {
    /// Starts the join of a joining node, by a node that it knows.
    ///
    /// `Ended` is its one refusal, and leaves the node as it was. `NoMemory` ends the node. There is room for a step.
    ///
    /// Rule: docs/PROTOCOL.md, "The start of a join".
    pub fn seek_by(&mut self, via: Name) -> Result<Turn, NodeFault>
        requires room { IsTrue (has_room_left self.old) }
        requires joining { self.old.ended ≡ false → self.old.state.status ≡ JoiningStatus }
        requires name { IsName (settings_of self.old.state) via }
        ensures { AnswersAs (start_outcome self.old (Join via)) self.old result self.new }
    {
        if self.is_ended() {
            return Err(NodeFault::Ended);
        }
        let sender = self.sender();
        let mut sent = FrameList::new(self.alloc);
        let news = self.state.join(&sender, &mut sent, via);
        turned(self.alloc, &mut self.state, sent, news)
    }

    /// Gives the join of a joining node up.
    ///
    /// `Ended` is its one refusal, and leaves the node as it was. `NoMemory` never comes. There is room for a step.
    ///
    /// Rule: docs/PROTOCOL.md, "Giving a join up".
    pub fn abandon(&mut self) -> Result<Turn, NodeFault>
        requires room { IsTrue (has_room_left self.old) }
        requires joining { self.old.ended ≡ false → self.old.state.status ≡ JoiningStatus }
        ensures outcome { AnswersAs (start_outcome self.old Abandon) self.old result self.new }
        ensures never { result ≢ Err NodeFault.NoMemory }
    {
        if self.is_ended() {
            return Err(NodeFault::Ended);
        }
        let sender = self.sender();
        let sent = FrameList::new(self.alloc);
        let news = self.state.abandon(&sender);
        Ok(Turn { sent, news })
    }

    /// A core node publishes an object.
    ///
    /// `Ended` is its one refusal, and leaves the node as it was. `NoMemory` ends the node. There is room for a step.
    ///
    /// Rule: docs/PROTOCOL.md, "Publication and withdrawal".
    pub fn publish(&mut self, object: Name) -> Result<Turn, NodeFault>
        requires room { IsTrue (has_room_left self.old) }
        requires core { self.old.ended ≡ false → self.old.state.status ≡ CoreStatus }
        requires name { IsName (settings_of self.old.state) object }
        ensures { AnswersAs (start_outcome self.old (Publish object)) self.old result self.new }
    {
        if self.is_ended() {
            return Err(NodeFault::Ended);
        }
        let sender = self.sender();
        let mut sent = FrameList::new(self.alloc);
        let news = self.state.publish(&sender, &mut sent, object);
        turned(self.alloc, &mut self.state, sent, news)
    }

    /// A core node withdraws an object.
    ///
    /// `Ended` is its one refusal, and leaves the node as it was. `NoMemory` ends the node. There is room for a step.
    ///
    /// Rule: docs/PROTOCOL.md, "Publication and withdrawal".
    pub fn withdraw(&mut self, object: Name) -> Result<Turn, NodeFault>
        requires room { IsTrue (has_room_left self.old) }
        requires core { self.old.ended ≡ false → self.old.state.status ≡ CoreStatus }
        requires name { IsName (settings_of self.old.state) object }
        ensures { AnswersAs (start_outcome self.old (Withdraw object)) self.old result self.new }
    {
        if self.is_ended() {
            return Err(NodeFault::Ended);
        }
        let sender = self.sender();
        let mut sent = FrameList::new(self.alloc);
        let news = self.state.withdraw(&sender, &mut sent, object);
        turned(self.alloc, &mut self.state, sent, news)
    }

    /// A core node looks an object up, under a ticket.
    ///
    /// `Ended` is its one refusal, and leaves the node as it was. `NoMemory` ends the node. There is room for a step.
    ///
    /// Rule: docs/PROTOCOL.md, "Find".
    pub fn find(&mut self, ticket: u32, object: Name) -> Result<Turn, NodeFault>
        requires room { IsTrue (has_room_left self.old) }
        requires core { self.old.ended ≡ false → self.old.state.status ≡ CoreStatus }
        requires name { IsName (settings_of self.old.state) object }
        ensures { AnswersAs (start_outcome self.old (Find ticket object)) self.old result self.new }
    {
        if self.is_ended() {
            return Err(NodeFault::Ended);
        }
        let sender = self.sender();
        let mut sent = FrameList::new(self.alloc);
        let news = self.state.find(&sender, &mut sent, ticket, object);
        turned(self.alloc, &mut self.state, sent, news)
    }

    /// A core node sends a word to the nodes that share so many digits with it, as the cast of this number, which it hasn't
    /// met.
    ///
    /// `Ended` is its one refusal, and leaves the node as it was. `NoMemory` ends the node. There is room for a step.
    ///
    /// Rule: docs/PROTOCOL.md, "Cast".
    pub fn cast(&mut self, cast: u32, level: u8, word: &[u8]) -> Result<Turn, NodeFault>
        requires room { IsTrue (has_room_left self.old) }
        requires core { self.old.ended ≡ false → self.old.state.status ≡ CoreStatus }
        requires level { level ≤ (settings_of self.old.state).digits }
        requires word { IsWord word.now }
        requires fresh { self.old.ended ≡ false → level_of_cast self.old.state.casts cast ≡ None }
        ensures { AnswersAs (start_outcome self.old (Cast cast level word.now)) self.old result self.new }
    {
        if self.is_ended() {
            return Err(NodeFault::Ended);
        }
        let sender = self.sender();
        let mut sent = FrameList::new(self.alloc);
        let copy = CastCopy {
            cast,
            level,
            parent: Parent::Root {
                joiner: sender.name,
            },
            depth: 0,
        };
        let news = self.state.cast(&sender, &mut sent, &copy, word);
        turned(self.alloc, &mut self.state, sent, news)
    }

    /// A core node leaves.
    ///
    /// `Ended` is its one refusal, and leaves the node as it was. `NoMemory` ends the node. There is room for a step.
    ///
    /// Rule: docs/PROTOCOL.md, "The start of a departure".
    pub fn leave(&mut self) -> Result<Turn, NodeFault>
        requires room { IsTrue (has_room_left self.old) }
        requires core { self.old.ended ≡ false → self.old.state.status ≡ CoreStatus }
        ensures { AnswersAs (start_outcome self.old Leave) self.old result self.new }
    {
        if self.is_ended() {
            return Err(NodeFault::Ended);
        }
        let sender = self.sender();
        let mut sent = FrameList::new(self.alloc);
        let news = self.state.leave(self.alloc, &sender, &mut sent);
        turned(self.alloc, &mut self.state, sent, news)
    }
}
