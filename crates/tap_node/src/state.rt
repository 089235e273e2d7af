ghost use Rattle.std.specs.Prelude.{◌≡◌, ◌≢◌, ℕ, ◌≤◌, List, true, IfOk, OnOk, OnErr, Ok, Err};
ghost use Rattle.tap_name.specs.Name.{IsName};
ghost use Rattle.tap_rule.specs.FrameRules.{frame_at_ceased};
ghost use Rattle.tap_name.specs.Word.{IsWord};
ghost use Rattle.tap_rule.specs.Event.Start.{Abandon, Cast, Find, Join, Leave, Publish, Withdraw};
ghost use Rattle.tap_rule.specs.Node.Status.{Ceased as CeasedStatus, Core as CoreStatus, Joining as JoiningStatus};
ghost use Rattle.tap_wire.specs.Spelling.{IsFrame};
ghost use Rattle.tap_wire.specs.declared.frame.Body.TheVariants as bodies;
ghost use Rattle.tap_core_node.specs.State.{core_state};
ghost use Rattle.tap_joining_node.specs.State.{core_joined};
ghost use Rattle.tap_node.specs.SeenNode.{FollowsFrom, IsEnded, IsHeldBy, StartsFrom, state_held};
ghost use Rattle.tap_node_common.specs.SoundNode.{HaveParents, IsSoundNode, MayTake, has_numbers_left};
ghost use Rattle.tap_node_common.specs.States.{ended_state};
ghost use Rattle.tap_node_common.specs.StepsAs.{FollowsAs};

use crate::fault::NodeFault;
use crate::turn::Turn;
use std::alloc::Global;
use std::mem;
use tap_core_node::{CastCopy, CoreNode};
use tap_joining_node::{Joined, JoiningNode};
use tap_leaving_node::LeavingNode;
use tap_link::Cease;
use tap_name::Name;
use tap_node_common::{FrameList, News, NoMemory, Sender, take_answer};
use tap_session::{Parent, Sessions};
use tap_wire::{Body, Frame};

// What a node keeps by its status; one that is gone or has ceased keeps its sessions.
#[derive(Drop)]
pub(crate) enum State {
    Joining(JoiningNode),
    Core(CoreNode),
    Leaving(LeavingNode),
    Gone(Sessions),
    Ceased(Sessions),
    // Memory was refused.
    Ended(Sessions),
}

impl State {
    // It has ended for want of memory.
    pub(crate) fn ended(alloc: Global) -> State
        ensures { IsEnded result }
    {
        State::Ended(Sessions::new(alloc))
    }

    // Does as the rule of a frame says that isn't strange. What changes the status is done by calls that aren't inlined, so that
    // other frames don't clear room for a second state.
    #[inline(never)]
    pub(crate) fn take(
        &mut self,
        alloc: Global,
        sender: &Sender,
        turn: &mut Turn,
        frame: &Frame,
    ) -> Result<(), NoMemory>
        requires held { IsHeldBy sender.now.settings sender.now.name self.old }
        requires may { MayTake (state_held sender.now.settings sender.now.name self.old) frame.now }
        requires nothing { turn.old.news ≡ News.Nothing }
        ensures { OnOk result (FollowsFrom sender.now.settings sender.now.name self.old self.new frame.now.from frame.now.body
            turn.old.sent turn.new.sent turn.new.news) }
    {
        match &frame.body {
            Body::Done => self.on_done(alloc, sender, turn),
            Body::Left => self.on_left(alloc, sender, turn, &frame.from),
            _ => self.on_other(sender, turn, frame),
        }
    }

    // Takes a Done.
    #[inline(never)]
    fn on_done(&mut self, alloc: Global, sender: &Sender, turn: &mut Turn) -> Result<(), NoMemory>
        requires held { IsHeldBy sender.now.settings sender.now.name self.old }
        requires sound { IsSoundNode (state_held sender.now.settings sender.now.name self.old) }
        requires room { has_numbers_left (state_held sender.now.settings sender.now.name self.old) ≡ true }
        ensures { (from : List ℕ) → OnOk result (FollowsFrom sender.now.settings sender.now.name self.old self.new from bodies.Done
            turn.old.sent turn.new.sent turn.new.news) }
    {
        let state = mem::replace(self, State::ended(alloc));
        let (next, news) = state.after_done(alloc, sender, &mut turn.sent)?;
        *self = next;
        turn.news = news;
        Ok(())
    }

    // Takes a Left.
    #[inline(never)]
    fn on_left(
        &mut self,
        alloc: Global,
        sender: &Sender,
        turn: &mut Turn,
        from: &Name,
    ) -> Result<(), NoMemory>
        requires held { IsHeldBy sender.now.settings sender.now.name self.old }
        requires sound { IsSoundNode (state_held sender.now.settings sender.now.name self.old) }
        requires room { has_numbers_left (state_held sender.now.settings sender.now.name self.old) ≡ true }
        ensures { OnOk result (FollowsFrom sender.now.settings sender.now.name self.old self.new from.now bodies.Left
            turn.old.sent turn.new.sent turn.new.news) }
    {
        let state = mem::replace(self, State::ended(alloc));
        let (next, news) = state.after_left(sender, &mut turn.sent, *from)?;
        *self = next;
        turn.news = news;
        Ok(())
    }

    // Does as the rule of a frame says after which the status is the same.
    fn on_other(&mut self, sender: &Sender, turn: &mut Turn, frame: &Frame) -> Result<(), NoMemory>
        requires held { IsHeldBy sender.now.settings sender.now.name self.old }
        requires may { MayTake (state_held sender.now.settings sender.now.name self.old) frame.now }
        requires no_done { frame.now.body ≢ bodies.Done }
        requires no_left { frame.now.body ≢ bodies.Left }
        requires nothing { turn.old.news ≡ News.Nothing }
        ensures { OnOk result (FollowsFrom sender.now.settings sender.now.name self.old self.new frame.now.from frame.now.body
            turn.old.sent turn.new.sent turn.new.news) }
    {
        match self {
            State::Joining(node) => node.take(frame, &mut turn.sent),
            State::Core(node) => node.take(frame, &mut turn.sent, &mut turn.news),
            State::Leaving(node) => node.take(frame, &mut turn.sent, &mut turn.news),
            State::Ceased(sessions) => take_ceased(sessions, sender, &mut turn.sent, frame),
            State::Gone(_) => Ok(()),
            State::Ended(_) => unreachable!(),
        }
    }

    // Done, which a joining node alone takes. A join that was given up ends with the node.
    fn after_done(
        self,
        alloc: Global,
        sender: &Sender,
        sent: &mut FrameList,
    ) -> Result<(State, News), NoMemory>
        requires held { IsHeldBy sender.now.settings sender.now.name self }
        requires sound { IsSoundNode (state_held sender.now.settings sender.now.name self) }
        requires room { has_numbers_left (state_held sender.now.settings sender.now.name self) ≡ true }
        ensures { (from : List ℕ) → IfOk result (λ r. FollowsFrom sender.now.settings sender.now.name self r.0 from bodies.Done
            sent.old sent.new r.1) }
    {
        let State::Joining(node) = self else {
            return Ok((self, News::Nothing));
        };
        if !node.joining.is_abandoned() {
            let joined = node.become_core(sent)?;
            return Ok((State::Core(core_of(alloc, joined)), News::Core));
        }
        let by = Cease { owner: sender.name };
        Ok((State::Ceased(node.cease(sent, by)?), News::Gone))
    }

    // Left, which a leaving node alone takes. After the last one it finishes.
    fn after_left(
        self,
        sender: &Sender,
        sent: &mut FrameList,
        from: Name,
    ) -> Result<(State, News), NoMemory>
        requires held { IsHeldBy sender.now.settings sender.now.name self }
        requires sound { IsSoundNode (state_held sender.now.settings sender.now.name self) }
        requires room { has_numbers_left (state_held sender.now.settings sender.now.name self) ≡ true }
        ensures { IfOk result (λ r. FollowsFrom sender.now.settings sender.now.name self r.0 from bodies.Left
            sent.old sent.new r.1) }
    {
        let State::Leaving(node) = self else {
            return Ok((self, News::Nothing));
        };
        let mut node = node;
        node.on_left(from);
        if node.is_free() {
            return Ok((State::Gone(node.finish(sent)?), News::Gone));
        }
        Ok((State::Leaving(node), News::Nothing))
    }

    // The start of a join, at a joining node.
    pub(crate) fn join(
        &mut self,
        sender: &Sender,
        sent: &mut FrameList,
        via: Name,
    ) -> Result<News, NoMemory>
        requires held { IsHeldBy sender.now.settings sender.now.name self.old }
        requires sound { IsSoundNode (state_held sender.now.settings sender.now.name self.old) }
        requires room { has_numbers_left (state_held sender.now.settings sender.now.name self.old) ≡ true }
        requires at { (state_held sender.now.settings sender.now.name self.old).status ≡ JoiningStatus }
        requires name { IsName sender.now.settings via }
        ensures { IfOk result (λ news. StartsFrom sender.now.settings sender.now.name self.old self.new (Join via) sent.old sent.new news) }
    {
        match self {
            State::Joining(node) => node.join(sent, via),
            _ => unreachable!(),
        }
    }

    // The join of a joining node is given up.
    pub(crate) fn abandon(&mut self, sender: &Sender) -> News
        requires held { IsHeldBy sender.now.settings sender.now.name self.old }
        requires sound { IsSoundNode (state_held sender.now.settings sender.now.name self.old) }
        requires room { has_numbers_left (state_held sender.now.settings sender.now.name self.old) ≡ true }
        requires at { (state_held sender.now.settings sender.now.name self.old).status ≡ JoiningStatus }
        ensures { (sent : List (List ℕ)) → StartsFrom sender.now.settings sender.now.name self.old self.new Abandon sent sent result }
    {
        match self {
            State::Joining(node) => node.abandon(),
            _ => unreachable!(),
        }
        News::Nothing
    }

    // A core node publishes an object.
    pub(crate) fn publish(
        &mut self,
        sender: &Sender,
        sent: &mut FrameList,
        object: Name,
    ) -> Result<News, NoMemory>
        requires held { IsHeldBy sender.now.settings sender.now.name self.old }
        requires sound { IsSoundNode (state_held sender.now.settings sender.now.name self.old) }
        requires room { has_numbers_left (state_held sender.now.settings sender.now.name self.old) ≡ true }
        requires at { (state_held sender.now.settings sender.now.name self.old).status ≡ CoreStatus }
        requires name { IsName sender.now.settings object }
        ensures { IfOk result (λ news. StartsFrom sender.now.settings sender.now.name self.old self.new (Publish object) sent.old sent.new news) }
    {
        match self {
            State::Core(node) => node.publish(sent, object),
            _ => unreachable!(),
        }
    }

    // A core node withdraws an object.
    pub(crate) fn withdraw(
        &mut self,
        sender: &Sender,
        sent: &mut FrameList,
        object: Name,
    ) -> Result<News, NoMemory>
        requires held { IsHeldBy sender.now.settings sender.now.name self.old }
        requires sound { IsSoundNode (state_held sender.now.settings sender.now.name self.old) }
        requires room { has_numbers_left (state_held sender.now.settings sender.now.name self.old) ≡ true }
        requires at { (state_held sender.now.settings sender.now.name self.old).status ≡ CoreStatus }
        requires name { IsName sender.now.settings object }
        ensures { IfOk result (λ news. StartsFrom sender.now.settings sender.now.name self.old self.new (Withdraw object) sent.old sent.new news) }
    {
        match self {
            State::Core(node) => node.withdraw(sent, object),
            _ => unreachable!(),
        }
    }

    // A core node looks an object up.
    pub(crate) fn find(
        &mut self,
        sender: &Sender,
        sent: &mut FrameList,
        ticket: u32,
        object: Name,
    ) -> Result<News, NoMemory>
        requires held { IsHeldBy sender.now.settings sender.now.name self.old }
        requires sound { IsSoundNode (state_held sender.now.settings sender.now.name self.old) }
        requires room { has_numbers_left (state_held sender.now.settings sender.now.name self.old) ≡ true }
        requires at { (state_held sender.now.settings sender.now.name self.old).status ≡ CoreStatus }
        requires name { IsName sender.now.settings object }
        ensures { IfOk result (λ news. StartsFrom sender.now.settings sender.now.name self.old self.new (Find ticket object) sent.old sent.new news) }
    {
        match self {
            State::Core(node) => node.find(sent, ticket, object),
            _ => unreachable!(),
        }
    }

    // A core node begins a cast.
    pub(crate) fn cast(
        &mut self,
        sender: &Sender,
        sent: &mut FrameList,
        copy: &CastCopy,
        word: &[u8],
    ) -> Result<News, NoMemory>
        requires held { IsHeldBy sender.now.settings sender.now.name self.old }
        requires sound { IsSoundNode (state_held sender.now.settings sender.now.name self.old) }
        requires room { has_numbers_left (state_held sender.now.settings sender.now.name self.old) ≡ true }
        requires at { (state_held sender.now.settings sender.now.name self.old).status ≡ CoreStatus }
        requires level { copy.now.level ≤ sender.now.settings.digits }
        requires root { copy.now.parent ≡ Parent.Root sender.now.name }
        requires depth { copy.now.depth ≡ 0 }
        requires word { IsWord word.now }
        ensures { IfOk result (λ news. StartsFrom sender.now.settings sender.now.name self.old self.new (Cast copy.now.cast copy.now.level word.now) sent.old sent.new news) }
    {
        match self {
            State::Core(node) => node.cast(sent, copy, word),
            _ => unreachable!(),
        }
    }

    // A core node leaves.
    pub(crate) fn leave(
        &mut self,
        alloc: Global,
        sender: &Sender,
        sent: &mut FrameList,
    ) -> Result<News, NoMemory>
        requires held { IsHeldBy sender.now.settings sender.now.name self.old }
        requires sound { IsSoundNode (state_held sender.now.settings sender.now.name self.old) }
        requires room { has_numbers_left (state_held sender.now.settings sender.now.name self.old) ≡ true }
        requires at { (state_held sender.now.settings sender.now.name self.old).status ≡ CoreStatus }
        ensures { IfOk result (λ news. StartsFrom sender.now.settings sender.now.name self.old self.new Leave sent.old sent.new news) }
    {
        let state = mem::replace(self, State::ended(alloc));
        let (next, news) = state.after_leave(alloc, sender, sent)?;
        *self = next;
        Ok(news)
    }

    // The start of a departure, at a core node. Without holders it finishes at once.
    fn after_leave(
        self,
        alloc: Global,
        sender: &Sender,
        sent: &mut FrameList,
    ) -> Result<(State, News), NoMemory>
        requires held { IsHeldBy sender.now.settings sender.now.name self }
        requires sound { IsSoundNode (state_held sender.now.settings sender.now.name self) }
        requires room { has_numbers_left (state_held sender.now.settings sender.now.name self) ≡ true }
        requires at { (state_held sender.now.settings sender.now.name self).status ≡ CoreStatus }
        ensures { IfOk result (λ r. StartsFrom sender.now.settings sender.now.name self r.0 Leave sent.old sent.new r.1) }
    {
        let State::Core(node) = self else {
            unreachable!()
        };
        let (core, parts) = node.into_parts();
        let mut node = LeavingNode::start(alloc, core, parts)?;
        if node.is_free() {
            return Ok((State::Gone(node.finish(sent)?), News::Gone));
        }
        node.send_notices(sent)?;
        Ok((State::Leaving(node), News::Nothing))
    }
}

// The core node of a node that has joined.
fn core_of(alloc: Global, joined: Joined) -> CoreNode
    ensures { core_state result ≡ core_joined joined }
{
    CoreNode::new(
        alloc,
        joined.core,
        joined.stamp,
        joined.sessions,
        joined.pointers,
    )
}

// What a step gives that has these frames and this news; if memory was refused, the node ends.
#[inline(always)]
pub(crate) fn turned(
    alloc: Global,
    state: &mut State,
    sent: FrameList,
    news: Result<News, NoMemory>,
) -> Result<Turn, NodeFault>
    ensures made { IfOk news (λ n. result ≡ Ok (record { sent = sent; news = n })) }
    ensures same { OnOk news (state.new ≡ state.old) }
    ensures refused { OnErr news (result ≡ Err NodeFault.NoMemory) }
    ensures ends { OnErr news (IsEnded state.new) }
{
    match news {
        Ok(news) => Ok(Turn { sent, news }),
        Err(refused) => {
            *state = State::ended(alloc);
            Err(NodeFault::from(refused))
        }
    }
}

// A frame at a node that has ceased.
#[inline(never)]
#[tactic(auto, unfolding(tap_rule::specs::FrameRules::frame_at_ceased))]
fn take_ceased(
    sessions: &mut Sessions,
    sender: &Sender,
    sent: &mut FrameList,
    frame: &Frame,
) -> Result<(), NoMemory>
    requires own { IsName sender.now.settings sender.now.name }
    requires parents { HaveParents sender.now.settings sessions.old }
    requires frame { IsFrame sender.now.settings frame.now }
    ensures { OnOk result (FollowsAs (ended_state CeasedStatus sender.now.settings sender.now.name sessions.old)
        (frame_at_ceased (ended_state CeasedStatus sender.now.settings sender.now.name sessions.old) frame.now.from frame.now.body)
        (ended_state CeasedStatus sender.now.settings sender.now.name sessions.new) sent.old sent.new News.Nothing) }
{
    let from = frame.from;
    match &frame.body {
        Body::Tell { session, .. } => {
            let session = *session;
            sender.send(sent, &from, Body::Ack { session })?;
        }
        Body::Heard { session } | Body::Ack { session } => {
            take_answer(sessions, sender, sent, *session)?;
        }
        Body::Link { version: _, on } => {
            if *on {
                sender.send(sent, &from, Body::Forget)?;
            }
        }
        Body::Cast { session, .. } => {
            let session = *session;
            sender.send(sent, &from, Body::CastAck { session })?;
        }
        Body::Seek { .. }
        | Body::Hello { .. }
        | Body::Done
        | Body::Release
        | Body::Lay { .. }
        | Body::Find { .. }
        | Body::Answer { .. }
        | Body::Leave { .. }
        | Body::Left
        | Body::Gone
        | Body::Forget
        | Body::CastAck { .. } => {}
    }
    Ok(())
}
