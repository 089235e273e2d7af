ghost use Rattle.std.specs.Prelude.{◌≡◌, ◌≤◌, ◌&&◌, nat_lt, true, false, length, All, Contains, IfOk, IsTrue, Err};
ghost use Rattle.std.specs.Option.{option_copied};
ghost use Rattle.tap_name.specs.Name.{IsName};
ghost use Rattle.tap_session.specs.Session.{most_sessions};
ghost use Rattle.tap_rule.specs.Node.{joiner, member_at_rest, name_of, settings_of};
ghost use Rattle.tap_rule.specs.Strange.{is_own_name, is_strange};
ghost use Rattle.tap_wire.specs.Spelling.{IsFrame};
ghost use Rattle.tap_node_common.specs.SoundNode.{join_sessions_limit, pairs_limit, stamp_limit};
ghost use Rattle.tap_node.specs.Node.{has_room_left, holders_lent, node_status, pointers_lent, running, table_lent};

use crate::fault::NodeFault;
use crate::state::State;
use crate::status::NodeStatus;
use crate::turn::Turn;
use std::alloc::Global;
use std::marker::Model;
use tap_core_node::CoreNode;
use tap_joining_node::JoiningNode;
use tap_multicast::Covers;
use tap_name::{List, Name, Settings};
use tap_node_common::{NoMemory, Sender, is_strange, is_strange_to_ended};
use tap_pointer::Pointers;
use tap_session::Sessions;
use tap_table::Table;
use tap_wire::{Frame, decode};

/// A node: one step after another, it takes frames as bytes, or starts something, and gives the frames that are then to be
/// sent, as bytes, and the news.
///
/// Contracts see its state as the rule of a node has it, and whether memory was refused in an earlier step. From then on it
/// has ended, and takes no step any more.
///
/// What it keeps is by its status: whatever a status has no use for can't be asked of it.
///
/// Rule: docs/PROTOCOL.md, "Nodes".
#[derive(Drop)]
pub struct Node {
    pub(crate) alloc: Global,
    pub(crate) sender: Sender,
    pub(crate) state: State,
}

impl Model for Node {
    ghost use Rattle.tap_node.specs.Node.{NodeValue};

    ghost Value = { NodeValue };

    ghost use Rattle.tap_node.specs.SeenNode.{IsKeptFor, node_value};

    ghost view = { λ n. node_value n.sender.settings n.sender.name n.state };

    ghost invariant = { λ n. IsKeptFor n.sender.settings n.sender.name (node_value n.sender.settings n.sender.name n.state) };
}

impl Node {
    ghost use Rattle.tap_name.specs.Distinct.{AreDistinct};
    ghost use Rattle.tap_node.specs.Outcome.{AnswersAs, MayWant, answer_lent, at_frame, empty_turn, is_taken, take_outcome};
    ghost use Rattle.tap_node_common.specs.Sender.{node_sender};

    /// One of the members with which an overlay begins: a core node, with its ties at rest.
    ///
    /// The members are distinct names of the settings, 256 at most, and the node is one of them.
    pub fn member(
        alloc: Global,
        name: Name,
        settings: &Settings,
        members: &List<Name>,
    ) -> Result<Node, NoMemory>
        requires names { All (IsName settings.now) members.now }
        requires distinct { AreDistinct members.now }
        requires member { Contains members.now name }
        requires few { length members.now ≤ 256 }
        ensures { IfOk result (λ node. node ≡ running (member_at_rest settings.now members.now name)) }
    {
        let core = CoreNode::member(alloc, name, settings, members)?;
        Ok(Node {
            alloc,
            sender: Sender {
                settings: *settings,
                name,
            },
            state: State::Core(core),
        })
    }

    /// A node that starts to join, with no links and no holders. It is a name of the settings.
    pub fn joiner(alloc: Global, name: Name, settings: &Settings) -> Result<Node, NoMemory>
        requires { IsName settings.now name }
        ensures { IfOk result (λ node. node ≡ running (joiner settings.now name)) }
    {
        let joining = JoiningNode::new(alloc, name, settings)?;
        Ok(Node {
            alloc,
            sender: Sender {
                settings: *settings,
                name,
            },
            state: State::Joining(joining),
        })
    }

    /// The name.
    pub fn name(&self) -> Name
        ensures { result ≡ name_of self.now.state }
    {
        self.sender.name
    }

    /// What it is. `Ended` exactly if an earlier call answered `NoMemory`.
    pub fn status(&self) -> NodeStatus
        ensures { result ≡ node_status self.now }
    {
        match &self.state {
            State::Joining(_) => NodeStatus::Joining,
            State::Core(_) => NodeStatus::Core,
            State::Leaving(_) => NodeStatus::Leaving,
            State::Gone(_) => NodeStatus::Gone,
            State::Ceased(_) => NodeStatus::Ceased,
            State::Ended(_) => NodeStatus::Ended,
        }
    }

    /// Its table, `None` exactly if its status is `Gone`, `Ceased` or `Ended`.
    pub fn table(&self) -> Option<&Table>
        ensures { option_copied result ≡ table_lent self.now }
    {
        match &self.state {
            State::Joining(node) => Some(node.joining.ties().table()),
            State::Core(node) => Some(node.core.ties().table()),
            State::Leaving(node) => Some(node.leaving.ties().table()),
            State::Gone(_) | State::Ceased(_) | State::Ended(_) => None,
        }
    }

    /// How many nodes have a link to it, as far as it knows, `None` exactly if its status is `Gone`, `Ceased` or `Ended`.
    pub fn holder_count(&self) -> Option<usize>
        ensures { result ≡ holders_lent self.now }
    {
        match &self.state {
            State::Joining(node) => Some(node.joining.ties().holder_count()),
            State::Core(node) => Some(node.core.ties().holder_count()),
            State::Leaving(node) => Some(node.leaving.ties().holder_count()),
            State::Gone(_) | State::Ceased(_) | State::Ended(_) => None,
        }
    }

    /// What it knows of pairs, `None` exactly if its status is `Gone`, `Ceased` or `Ended`.
    pub fn pointers(&self) -> Option<&Pointers>
        ensures { option_copied result ≡ pointers_lent self.now }
    {
        match &self.state {
            State::Joining(node) => Some(&node.pointers),
            State::Core(node) => Some(&node.parts.pointers),
            State::Leaving(node) => Some(&node.parts.pointers),
            State::Gone(_) | State::Ceased(_) | State::Ended(_) => None,
        }
    }

    /// Its sessions of joins.
    pub fn sessions(&self) -> &Sessions
        ensures { result.now ≡ self.now.state.sessions }
    {
        match &self.state {
            State::Joining(node) => &node.sessions,
            State::Core(node) => &node.parts.sessions,
            State::Leaving(node) => &node.parts.sessions,
            State::Gone(sessions) => sessions,
            State::Ceased(sessions) => sessions,
            State::Ended(sessions) => sessions,
        }
    }

    /// Whether it may take a further step: it has ended, or it has opened fewer than 500,000 sessions of joins and
    /// 500,001 of casts, has given a number below 4,000,000,000 last, and holds or has laid fewer than 10,000,000 pairs.
    pub fn room(&self) -> bool
        ensures { result ≡ has_room_left self.now }
    {
        match &self.state {
            State::Joining(node) => is_below_limits(
                node.sessions.opened(),
                0,
                node.stamp.last(),
                node.pointers.span(),
            ),
            State::Core(node) => is_below_limits(
                node.parts.sessions.opened(),
                node.parts.cast_sessions.opened(),
                node.parts.stamp.last(),
                node.parts.pointers.span(),
            ),
            State::Leaving(node) => is_below_limits(
                node.parts.sessions.opened(),
                node.parts.cast_sessions.opened(),
                node.parts.stamp.last(),
                node.parts.pointers.span(),
            ),
            State::Gone(sessions) => is_below_limits(sessions.opened(), 0, 0, 0),
            State::Ceased(sessions) => is_below_limits(sessions.opened(), 0, 0, 0),
            State::Ended(_) => true,
        }
    }

    /// Takes a frame, as bytes: it does as the rule of a node says, and gives the frames that it sends, and the news.
    ///
    /// A refusal leaves the node as it was. `Ended` goes before all others. `Wire` carries why the bytes are no frame,
    /// `NotMine` the receiver if it is another node, and `Strange` comes if the frame is strange to the node. `NoMemory` comes
    /// in place of the step, or if the frame has slots or links, to read which takes memory; then also in place of `NotMine` and
    /// `Strange`. A Cast has letters, which fit in place. `NoMemory` ends the node. There is room for a step.
    ///
    /// Rule: docs/PROTOCOL.md, "Steps of a node" and "Refused frames".
    #[inline(always)]
    pub fn take(&mut self, bytes: &[u8]) -> Result<Turn, NodeFault>
        requires room { IsTrue (has_room_left self.old) }
        ensures outcome { AnswersAs (take_outcome self.old bytes.now) self.old result self.new }
        ensures memory { result ≡ Err NodeFault.NoMemory → MayWant self.old bytes.now }
    {
        if self.is_ended() {
            return Err(NodeFault::Ended);
        }
        match decode(self.alloc, &self.sender.settings, bytes) {
            Ok(frame) => self.take_frame(&frame),
            Err(cause) => self.refuse(NodeFault::from(cause)),
        }
    }

    // Takes a frame that was read.
    fn take_frame(&mut self, frame: &Frame) -> Result<Turn, NodeFault>
        requires room { IsTrue (has_room_left self.old) }
        requires runs { self.old.ended ≡ false }
        requires frame { IsFrame (settings_of self.old.state) frame.now }
        ensures outcome { AnswersAs (at_frame self.old frame.now) self.old result self.new }
        ensures memory { result ≡ Err NodeFault.NoMemory → IsTrue (is_taken self.old.state frame.now) }
    {
        if frame.to != self.sender.name {
            return Err(NodeFault::NotMine(frame.to));
        }
        if self.is_strange(frame) {
            return Err(NodeFault::Strange);
        }
        let mut turn = Turn::empty(self.alloc);
        match self.take_read(&mut turn, frame) {
            Ok(()) => Ok(turn),
            Err(refused) => Err(NodeFault::from(refused)),
        }
    }

    /// Takes a frame that was read, is its own and isn't strange to it, as `take` does: an empty turn is lent, which then has the
    /// frames that are sent, and the news.
    ///
    /// `NoMemory` is its one refusal, and ends the node; what the turn then has isn't said. The node takes steps, and there is room
    /// for one.
    ///
    /// Rule: docs/PROTOCOL.md, "Steps of a node".
    #[inline(always)]
    pub fn take_read(&mut self, turn: &mut Turn, frame: &Frame) -> Result<(), NoMemory>
        requires room { IsTrue (has_room_left self.old) }
        requires runs { self.old.ended ≡ false }
        requires frame { IsFrame (settings_of self.old.state) frame.now }
        requires own { is_own_name self.old.state frame.now.to ≡ true }
        requires fits { is_strange self.old.state frame.now ≡ false }
        requires empty { turn.old ≡ empty_turn }
        ensures { AnswersAs (at_frame self.old frame.now) self.old (answer_lent result turn.new) self.new }
    {
        match self.state.take(self.alloc, &self.sender, turn, frame) {
            Ok(()) => Ok(()),
            Err(refused) => {
                self.state = State::ended(self.alloc);
                Err(refused)
            }
        }
    }

    // Who sends its frames.
    pub(crate) fn sender(&self) -> Sender
        ensures value { result ≡ node_sender self.now.state }
        ensures name { IsName result.settings result.name }
    {
        self.sender
    }

    // Whether memory was refused in an earlier step.
    pub(crate) fn is_ended(&self) -> bool
        ensures { result ≡ self.now.ended }
    {
        match &self.state {
            State::Ended(_) => true,
            State::Joining(_)
            | State::Core(_)
            | State::Leaving(_)
            | State::Gone(_)
            | State::Ceased(_) => false,
        }
    }

    // Whether a frame is strange to it.
    fn is_strange(&self, frame: &Frame) -> bool
        requires runs { self.now.ended ≡ false }
        requires frame { IsFrame (settings_of self.now.state) frame.now }
        ensures { result ≡ is_strange self.now.state frame.now }
    {
        match &self.state {
            State::Joining(node) => {
                let covers = Covers::new(self.alloc);
                is_strange(node.joining.ties().table(), &covers, frame)
            }
            State::Core(node) => is_strange(node.core.ties().table(), &node.parts.covers, frame),
            State::Leaving(node) => is_strange(
                node.leaving.ties().table(),
                &node.parts.covers,
                frame,
            ),
            State::Gone(_) | State::Ceased(_) => {
                is_strange_to_ended(&self.sender.settings, &self.sender.name, frame)
            }
            State::Ended(_) => unreachable!(),
        }
    }
}

// Whether fewer sessions of joins and of casts were opened, a lesser number was given, and fewer pairs are held or laid than
// there may be before a step.
fn is_below_limits(sessions: u32, cast_sessions: u32, stamp: u32, span: usize) -> bool
    ensures { result ≡ (nat_lt sessions join_sessions_limit && nat_lt cast_sessions most_sessions && nat_lt stamp stamp_limit
        && nat_lt span pairs_limit) }
{
    sessions < 500_000 && cast_sessions < 500_001 && stamp < 4_000_000_000 && span < 10_000_000
}
