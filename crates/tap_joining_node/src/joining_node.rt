ghost use Rattle.std.specs.Prelude.{◌≡◌, ◌≢◌, ◌+◌, ◌<◌, ◌≤◌, true, false, [], ◌∷◌, ◌++◌, length, IfOk, OnOk};
ghost use Rattle.tap_name.specs.Name.{IsName};
ghost use Rattle.tap_session.specs.Session.{most_sessions};
ghost use Rattle.tap_session.specs.Sessions.{opened_with};
ghost use Rattle.tap_table.specs.Table.{rows};
ghost use Rattle.tap_table.specs.Ties.{AreTies};
ghost use Rattle.tap_rule.specs.Answers.{takes_heard_or_ack};
ghost use Rattle.tap_rule.specs.Casts.{takes_cast_outside};
ghost use Rattle.tap_rule.specs.Ceasing.{ceases, starts_abandon};
ghost use Rattle.tap_rule.specs.FrameRules.{frame_at_joining};
ghost use Rattle.tap_rule.specs.Joining.{becomes_core, starts_join, takes_hello, takes_tell_joining};
ghost use Rattle.tap_rule.specs.Links.{takes_forget, takes_link_joining, takes_release};
ghost use Rattle.tap_rule.specs.Node.{joiner};
ghost use Rattle.tap_rule.specs.Node.Status.{Ceased as CeasedStatus};
ghost use Rattle.tap_rule.specs.Reaction.{message};
ghost use Rattle.tap_wire.specs.Spelling.{AreLinks};
ghost use Rattle.tap_wire.specs.declared.frame.Body.TheVariants as bodies;
ghost use Rattle.tap_node_common.specs.Sender.{message_bytes, sender_of};
ghost use Rattle.tap_node_common.specs.SoundNode.{HaveParents, MayTake};
ghost use Rattle.tap_node_common.specs.States.{ended_state};
ghost use Rattle.tap_joining_node.specs.State.{core_joined, joining_state};
ghost use Rattle.tap_node_common.specs.StepsAs.{FollowsAs, StepsAs};

use std::alloc::Global;
use tap_join::{Core, Joining};
use tap_link::{Cease, Forget, Release};
use tap_name::{List, Name, Offered, Settings};
use tap_node_common::{FrameList, News, NoMemory, Sender, take_answer};
use tap_pointer::Pointers;
use tap_register::Stamp;
use tap_session::{Parent, Sessions};
use tap_wire::{Body, Frame};

/// A node that joins.
///
/// Its fields are open, to the layers of a node alone: what they come to is the state of the node.
///
/// Rule: docs/PROTOCOL.md, "Nodes".
#[derive(Drop)]
pub struct JoiningNode {
    /// Where it takes memory.
    pub alloc: Global,
    /// Its ties, the joiners that it has greeted, and whether its join was given up.
    pub joining: Joining,
    /// The stamp, which gives the numbers of its words.
    pub stamp: Stamp,
    /// The sessions of joins.
    pub sessions: Sessions,
    /// It knows of no pair.
    pub pointers: Pointers,
}

/// What is left of a node that has joined: a core node is made of it.
///
/// Rule: docs/PROTOCOL.md, "Done".
#[derive(Drop)]
pub struct Joined {
    /// Its ties.
    pub core: Core,
    /// The stamp.
    pub stamp: Stamp,
    /// The sessions of joins.
    pub sessions: Sessions,
    /// It knows of no pair.
    pub pointers: Pointers,
}

impl JoiningNode {
    /// A node that starts to join, with no links and no holders. It is a name of the settings.
    pub fn new(alloc: Global, name: Name, settings: &Settings) -> Result<JoiningNode, NoMemory>
        requires { IsName settings.now name }
        ensures { IfOk result (λ node. joining_state node ≡ joiner settings.now name) }
    {
        Ok(JoiningNode {
            alloc,
            joining: Joining::start(alloc, name, settings)?,
            stamp: Stamp::new(),
            sessions: Sessions::new(alloc),
            pointers: Pointers::new(alloc, name),
        })
    }

    // Who sends its frames.
    fn sender(&self) -> Sender
        ensures value { result ≡ sender_of self.now.joining.ties.table }
        ensures valid { AreTies self.now.joining.ties }
        ensures name { IsName result.settings result.name }
    {
        Sender::of(self.joining.ties().table())
    }

    /// Takes a frame but a Done: it does as the rule of a node says. If memory is refused, the node is used no more.
    ///
    /// Rule: docs/PROTOCOL.md, "Steps of a node".
    #[tactic(auto, unfolding(tap_rule::specs::FrameRules::frame_at_joining))]
    pub fn take(&mut self, frame: &Frame, sent: &mut FrameList) -> Result<(), NoMemory>
        requires may { MayTake (joining_state self.old) frame.now }
        requires other { frame.now.body ≢ bodies.Done }
        ensures { OnOk result (FollowsAs (joining_state self.old)
            (frame_at_joining (joining_state self.old) frame.now.from frame.now.body) (joining_state self.new) sent.old sent.new News.Nothing) }
    {
        match &frame.body {
            Body::Tell {
                joiner,
                session,
                depth,
                ..
            } => self.on_tell(sent, frame.from, *joiner, *session, *depth),
            Body::Hello {
                session,
                core,
                links,
            } => self.on_hello(sent, frame.from, *session, *core, links),
            Body::Heard { session } | Body::Ack { session } => self.on_heard_or_ack(sent, *session),
            Body::Release => self.on_release(sent, Release { from: frame.from }),
            Body::Link { version, on } => {
                self.on_link(frame.from, *version, *on)?;
                Ok(())
            }
            Body::Forget => {
                self.on_forget(Forget { from: frame.from });
                Ok(())
            }
            Body::Cast { session, .. } => self.on_cast(sent, frame.from, *session),
            Body::Done => unreachable!(),
            Body::Seek { .. }
            | Body::Lay { .. }
            | Body::Find { .. }
            | Body::Answer { .. }
            | Body::Leave { .. }
            | Body::Left
            | Body::Gone
            | Body::CastAck { .. } => Ok(()),
        }
    }

    // Tell: it pins the joiner, and greets it once.
    fn on_tell(
        &mut self,
        sent: &mut FrameList,
        from: Name,
        joiner: Name,
        session: u32,
        depth: u16,
    ) -> Result<(), NoMemory>
        requires sender { IsName self.old.joining.ties.table.settings from }
        requires session { 1 ≤ session }
        requires name { IsName self.old.joining.ties.table.settings joiner }
        requires other { joiner ≢ self.old.joining.ties.table.owner }
        requires number { self.old.stamp < u32.MAX }
        requires room { self.old.sessions.opened < most_sessions }
        ensures { OnOk result (StepsAs (joining_state self.old) (takes_tell_joining (joining_state self.old) from
            (record { joiner = joiner; prefix = 0; level = 0; session = session; depth = depth }))
            (joining_state self.new) sent.old sent.new News.Nothing) }
    {
        let word = self.joining.ties_mut().pin(&mut self.stamp, joiner)?;
        let sender = self.sender();
        sender.send_word(sent, word)?;
        if self.joining.greet(joiner)? {
            let parent = Parent::Node {
                name: from,
                session,
            };
            self.greet(sent, &sender, joiner, parent, depth)?;
        } else {
            sender.send(sent, &from, Body::Ack { session })?;
        }
        Ok(())
    }

    // Greets a joiner, in a session that waits for its answer alone.
    fn greet(
        &mut self,
        sent: &mut FrameList,
        sender: &Sender,
        joiner: Name,
        parent: Parent,
        depth: u16,
    ) -> Result<(), NoMemory>
        requires sender { sender.now ≡ sender_of self.old.joining.ties.table }
        requires own { IsName sender.now.settings sender.now.name }
        requires name { IsName self.old.joining.ties.table.settings joiner }
        requires room { self.old.sessions.opened < most_sessions }
        ensures after { OnOk result (self.new ≡ record self.old { sessions = opened_with self.old.sessions parent depth 1 }) }
        ensures sent { OnOk result (sent.new ≡ sent.old ++ message_bytes sender.now
            (message joiner (bodies.Hello (self.old.sessions.opened + 1) false []) ∷ [])) }
    {
        let hello = Body::Hello {
            session: self.sessions.open(parent, depth, 1)?,
            core: false,
            links: List::new(self.alloc),
        };
        sender.send(sent, &joiner, hello)
    }

    // Hello: it takes the sender and then the links, and answers.
    fn on_hello(
        &mut self,
        sent: &mut FrameList,
        from: Name,
        session: u32,
        core: bool,
        links: &List<Offered>,
    ) -> Result<(), NoMemory>
        requires sender { IsName self.old.joining.ties.table.settings from }
        requires session { 1 ≤ session }
        requires links { AreLinks self.old.joining.ties.table.settings links.now }
        requires numbers { self.old.stamp + length links.now < u32.MAX }
        ensures { OnOk result (StepsAs (joining_state self.old) (takes_hello (joining_state self.old) from session core links.now)
            (joining_state self.new) sent.old sent.new News.Nothing) }
    {
        let words = self.joining.hello(&mut self.stamp, from, core, links)?;
        let sender = self.sender();
        sender.send_words(sent, words)?;
        sender.send(sent, &from, Body::Heard { session })?;
        Ok(())
    }

    // Heard or Ack: a session has one answer more, and after the last one its parent is answered.
    fn on_heard_or_ack(&mut self, sent: &mut FrameList, session: u32) -> Result<(), NoMemory>
        requires { HaveParents self.old.joining.ties.table.settings self.old.sessions }
        ensures { OnOk result (StepsAs (joining_state self.old) (takes_heard_or_ack (joining_state self.old) session)
            (joining_state self.new) sent.old sent.new News.Nothing) }
    {
        let sender = self.sender();
        take_answer(&mut self.sessions, &sender, sent, session)?;
        Ok(())
    }

    // Release: a pin on the sender is settled if its slot has room, and else dropped.
    fn on_release(&mut self, sent: &mut FrameList, by: Release<Name>) -> Result<(), NoMemory>
        requires name { IsName self.old.joining.ties.table.settings by.from }
        requires other { by.from ≢ self.old.joining.ties.table.owner }
        requires number { self.old.stamp < u32.MAX }
        ensures { OnOk result (StepsAs (joining_state self.old) (takes_release (joining_state self.old) by.from)
            (joining_state self.new) sent.old sent.new News.Nothing) }
    {
        let word = self.joining.ties_mut().release(&mut self.stamp, by);
        self.sender().send_word(sent, word)?;
        Ok(())
    }

    // Link: the register of its holders takes the word.
    fn on_link(&mut self, holder: Name, version: u32, on: bool) -> Result<(), NoMemory>
        requires name { IsName self.old.joining.ties.table.settings holder }
        requires other { holder ≢ self.old.joining.ties.table.owner }
        ensures { OnOk result (joining_state self.new ≡ (takes_link_joining (joining_state self.old) holder version on).state) }
    {
        self.joining.ties_mut().held(holder, version, on)?;
        Ok(())
    }

    // Forget: a pin on the sender is gone.
    fn on_forget(&mut self, by: Forget<Name>)
        requires name { IsName self.old.joining.ties.table.settings by.from }
        requires other { by.from ≢ self.old.joining.ties.table.owner }
        ensures { joining_state self.new ≡ (takes_forget (joining_state self.old) by.from).state }
    {
        self.joining.ties_mut().forget(by);
    }

    // Cast: it is answered.
    fn on_cast(&mut self, sent: &mut FrameList, from: Name, session: u32) -> Result<(), NoMemory>
        requires sender { IsName self.old.joining.ties.table.settings from }
        requires session { 1 ≤ session }
        ensures { OnOk result (StepsAs (joining_state self.old) (takes_cast_outside (joining_state self.old) from session)
            (joining_state self.new) sent.old sent.new News.Nothing) }
    {
        self.sender().send(sent, &from, Body::CastAck { session })?;
        Ok(())
    }

    /// Starts its join: a Seek, to the node that it knows.
    ///
    /// Rule: docs/PROTOCOL.md, "The start of a join".
    pub fn join(&self, sent: &mut FrameList, via: Name) -> Result<News, NoMemory>
        requires { IsName self.now.joining.ties.table.settings via }
        ensures { IfOk result (λ news. StepsAs (joining_state self.now) (starts_join (joining_state self.now) via)
            (joining_state self.now) sent.old sent.new news) }
    {
        let sender = self.sender();
        let joiner = sender.name;
        sender.send(sent, &via, Body::Seek { joiner })?;
        Ok(News::Nothing)
    }

    /// Gives its join up.
    ///
    /// Rule: docs/PROTOCOL.md, "Giving a join up".
    pub fn abandon(&mut self)
        ensures { joining_state self.new ≡ (starts_abandon (joining_state self.old)).state }
    {
        self.joining.abandon();
    }

    /// Takes a Done, if its join wasn't given up: it is core now, and releases its holders.
    ///
    /// Rule: docs/PROTOCOL.md, "Done".
    pub fn become_core(self, sent: &mut FrameList) -> Result<Joined, NoMemory>
        requires { self.joining.abandoned ≡ false }
        ensures { IfOk result (λ joined. StepsAs (joining_state self) (becomes_core (joining_state self)) (core_joined joined)
            sent.old sent.new News.Core) }
    {
        let sender = self.sender();
        let holders = self.joining.ties().holders_on(self.alloc)?;
        sender.send_each(sent, Body::Release, &holders)?;
        Ok(Joined {
            core: self.joining.finish(),
            stamp: self.stamp,
            sessions: self.sessions,
            pointers: self.pointers,
        })
    }

    /// Takes a Done, if its join was given up: it has ceased. A word for each link that there is none any more, and a Forget for
    /// each holder; its sessions are left.
    ///
    /// Rule: docs/PROTOCOL.md, "Done".
    pub fn cease(self, sent: &mut FrameList, by: Cease<Name>) -> Result<Sessions, NoMemory>
        requires abandoned { self.joining.abandoned ≡ true }
        requires owner { by.owner ≡ self.joining.ties.table.owner }
        requires numbers { self.stamp + length (rows self.joining.ties.table) ≤ u32.MAX }
        ensures { IfOk result (λ sessions. StepsAs (joining_state self) (ceases (joining_state self))
            (ended_state CeasedStatus self.joining.ties.table.settings self.joining.ties.table.owner sessions) sent.old sent.new News.Gone) }
    {
        let sender = self.sender();
        let mut stamp = self.stamp;
        let (words, holders) = self.joining.cease(&mut stamp, by)?;
        sender.send_words(sent, words)?;
        sender.send_each(sent, Body::Forget, &holders)?;
        Ok(self.sessions)
    }
}
