ghost use Rattle.std.specs.Prelude.{◌≡◌, ◌≢◌, ℕ, ◌+◌, ◌*◌, ◌<◌, ◌≤◌, true, Some, List, ◌++◌, All, Contains, IfOk, IfSome, OnOk};
ghost use Rattle.tap_name.specs.Distinct.{AreDistinct};
ghost use Rattle.tap_name.specs.Name.{IsName};
ghost use Rattle.tap_pointer.specs.Pointers.{held_or_laid_count, pair_of};
ghost use Rattle.tap_pointer.specs.Reconcile.{AreLaidBeside, AreLaidBut};
ghost use Rattle.tap_rule.specs.Answers.{takes_heard_or_ack};
ghost use Rattle.tap_rule.specs.FrameRules.{frame_at_core};
ghost use Rattle.tap_rule.specs.Leaving.{takes_gone, takes_leave};
ghost use Rattle.tap_rule.specs.Links.{takes_forget, takes_link, takes_release};
ghost use Rattle.tap_rule.specs.Node.{member_at_rest};
ghost use Rattle.tap_rule.specs.Pointers.{lays_due, starts_find, starts_publish, starts_withdraw, takes_find, takes_lay, with_reconciled};
ghost use Rattle.tap_wire.specs.Spelling.{IsLevel};
ghost use Rattle.tap_node_common.specs.Bodies.{IsCastBody, IsFindBody, IsLayBody, IsTellBody};
ghost use Rattle.tap_node_common.specs.Sender.{lay_bytes, sender_of};
ghost use Rattle.tap_node_common.specs.SoundNode.{AreNamedHops, IsSoundNode, MayTake, PairsHaveNames, has_numbers_left};
ghost use Rattle.tap_node_common.specs.States.{newly_core};
ghost use Rattle.tap_node_common.specs.StepsAs.{FollowsAs};
ghost use Rattle.tap_core_node.specs.Primaries.{IsLevelOfLeave, has_other_primary, level_of_leave};
ghost use Rattle.tap_core_node.specs.State.{core_state};

use crate::casting::CastCopy;
use crate::covering::Request;
use std::alloc::Global;
use tap_depart::told_leave;
use tap_join::Core;
use tap_link::{Forget, Release};
use tap_name::{List, Name, Settings};
use tap_node_common::{
    FrameList, News, NoMemory, NodeParts, Sender, TakenFind, TakenLay, ask, hear_and_release,
    reconcile, reconcile_at, reconcile_pair, take_answer, take_find, take_lay,
};
use tap_pointer::Pointers;
use tap_register::Stamp;
use tap_session::{Parent, Sessions};
use tap_table::{Table, Ties};
use tap_wire::{Body, Frame};

/// A node that takes full part.
///
/// Its fields are open, to the layers of a node alone: what they come to is the state of the node.
///
/// Rule: docs/PROTOCOL.md, "Nodes".
#[derive(Drop)]
pub struct CoreNode {
    /// Where it takes memory.
    pub alloc: Global,
    /// Its ties.
    pub core: Core,
    /// What it keeps beside them.
    pub parts: NodeParts,
}

impl CoreNode {
    /// A core node that covers nobody and has met no cast. This takes no memory.
    pub fn new(
        alloc: Global,
        core: Core,
        stamp: Stamp,
        sessions: Sessions,
        pointers: Pointers,
    ) -> CoreNode
        ensures { core_state result ≡ newly_core core stamp sessions pointers }
    {
        CoreNode {
            alloc,
            core,
            parts: NodeParts::new(alloc, stamp, sessions, pointers),
        }
    }

    /// One of the members with which an overlay begins: a core node, with its ties at rest.
    ///
    /// The members are distinct names of the settings, and the node is one of them.
    pub fn member(
        alloc: Global,
        name: Name,
        settings: &Settings,
        members: &List<Name>,
    ) -> Result<CoreNode, NoMemory>
        requires names { All (IsName settings.now) members.now }
        requires distinct { AreDistinct members.now }
        requires member { Contains members.now name }
        ensures { IfOk result (λ node. core_state node ≡ member_at_rest settings.now members.now name) }
    {
        let ties = Ties::at_rest(alloc, name, settings, members)?;
        Ok(CoreNode::new(
            alloc,
            Core::at_rest(ties),
            Stamp::new(),
            Sessions::new(alloc),
            Pointers::new(alloc, name),
        ))
    }

    pub(crate) fn sender(&self) -> Sender
        ensures value { result ≡ sender_of self.now.core.table }
        ensures name { IsName result.settings result.name }
    {
        Sender::of(self.core.ties().table())
    }

    /// Takes a frame: it does as the rule of a node says, and leaves what it notes in `news`. If memory is refused, the node is used
    /// no more.
    ///
    /// Rule: docs/PROTOCOL.md, "Steps of a node".
    #[tactic(auto, unfolding(tap_rule::specs::FrameRules::frame_at_core))]
    pub fn take(
        &mut self,
        frame: &Frame,
        sent: &mut FrameList,
        news: &mut News,
    ) -> Result<(), NoMemory>
        requires { MayTake (core_state self.old) frame.now }
        ensures { OnOk result (FollowsAs (core_state self.old)
            (frame_at_core (core_state self.old) frame.now.from frame.now.body) (core_state self.new) sent.old sent.new news.new) }
    {
        *news = News::Nothing;
        match &frame.body {
            Body::Seek { .. } => self.on_seek(frame, sent),
            Body::Tell { .. } => self.on_tell(frame, sent),
            Body::Heard { session } | Body::Ack { session } => self.on_heard_or_ack(sent, *session),
            Body::Release => self.on_release(sent, Release { from: frame.from }),
            Body::Link { version, on } => self.on_link(sent, frame.from, *version, *on),
            Body::Lay { .. } => self.on_lay(frame, sent),
            Body::Find { .. } => self.on_find(frame, sent),
            Body::Answer { ticket, server } => {
                *news = News::Answered {
                    ticket: *ticket,
                    server: *server,
                };
                Ok(())
            }
            Body::Leave { replacement } => self.on_leave(sent, frame.from, *replacement),
            Body::Gone => self.on_gone(sent, frame.from),
            Body::Forget => {
                self.on_forget(Forget { from: frame.from });
                Ok(())
            }
            Body::Cast { .. } => self.on_cast(frame, sent, news),
            Body::CastAck { session } => self.on_cast_ack(sent, *session, news),
            Body::Hello { .. } | Body::Done | Body::Left => Ok(()),
        }
    }

    // Takes a Tell.
    fn on_tell(&mut self, frame: &Frame, sent: &mut FrameList) -> Result<(), NoMemory>
        requires may { MayTake (core_state self.old) frame.now }
        requires kind { IsTellBody frame.now.body }
        ensures { OnOk result (FollowsAs (core_state self.old)
            (frame_at_core (core_state self.old) frame.now.from frame.now.body) (core_state self.new) sent.old sent.new News.Nothing) }
    {
        let from = frame.from;
        let Body::Tell {
            joiner,
            prefix,
            level,
            session,
            depth,
            watch,
        } = &frame.body
        else {
            unreachable!()
        };
        let parent = Parent::Node {
            name: from,
            session: *session,
        };
        let request = Request {
            joiner: *joiner,
            prefix: *prefix,
            level: *level,
            parent,
            depth: *depth,
        };
        self.pin_and_cover(sent, &request, watch)
    }

    // Heard or Ack: a session of joins has one answer more, and after the last one its parent is answered.
    fn on_heard_or_ack(&mut self, sent: &mut FrameList, session: u32) -> Result<(), NoMemory>
        requires { IsSoundNode (core_state self.old) }
        ensures { OnOk result (FollowsAs (core_state self.old) (Some (takes_heard_or_ack (core_state self.old) session))
            (core_state self.new) sent.old sent.new News.Nothing) }
    {
        let sender = self.sender();
        take_answer(&mut self.parts.sessions, &sender, sent, session)?;
        Ok(())
    }

    // Link: a new one is answered with a Release.
    fn on_link(
        &mut self,
        sent: &mut FrameList,
        holder: Name,
        version: u32,
        on: bool,
    ) -> Result<(), NoMemory>
        requires sound { IsSoundNode (core_state self.old) }
        requires name { IsName self.old.core.table.settings holder }
        requires other { holder ≢ self.old.core.table.owner }
        ensures { OnOk result (FollowsAs (core_state self.old)
            (Some (takes_link (core_state self.old) holder version on)) (core_state self.new) sent.old sent.new News.Nothing) }
    {
        hear_and_release(self.core.ties_mut(), sent, holder, version, on)?;
        Ok(())
    }

    // Forget: a pin on the sender is gone.
    fn on_forget(&mut self, by: Forget<Name>)
        requires sound { IsSoundNode (core_state self.old) }
        requires name { IsName self.old.core.table.settings by.from }
        requires other { by.from ≢ self.old.core.table.owner }
        ensures { (before : List (List ℕ)) → FollowsAs (core_state self.old) (Some (takes_forget (core_state self.old) by.from))
            (core_state self.new) before before News.Nothing }
    {
        self.core.ties_mut().forget(by);
    }

    // Release: a pin on the sender is settled if its slot has room, and else dropped. If the slot's primary is another one
    // now, pairs may be wanted elsewhere.
    fn on_release(&mut self, sent: &mut FrameList, by: Release<Name>) -> Result<(), NoMemory>
        requires sound { IsSoundNode (core_state self.old) }
        requires room { has_numbers_left (core_state self.old) ≡ true }
        requires name { IsName self.old.core.table.settings by.from }
        requires other { by.from ≢ self.old.core.table.owner }
        ensures { OnOk result (FollowsAs (core_state self.old) (Some (takes_release (core_state self.old) by.from))
            (core_state self.new) sent.old sent.new News.Nothing) }
    {
        let from = by.from;
        let before = self.core.ties().table().near(&from).primary();
        let word = self.core.ties_mut().release(&mut self.parts.stamp, by);
        self.sender().send_word(sent, word)?;
        let after = self.core.ties().table().near(&from).primary();
        if before == after {
            return Ok(());
        }
        let level = self.core.ties().table().owner().lcp(&from) as u8;
        self.reconcile_at(sent, level)?;
        Ok(())
    }

    // Lays all pairs as wanted, if no pair needs it but those whose way passes a level.
    fn reconcile_at(&mut self, sent: &mut FrameList, level: u8) -> Result<(), NoMemory>
        requires owner { self.old.core.table.owner ≡ self.old.parts.pointers.owner }
        requires names { PairsHaveNames self.old.core.table.settings self.old.parts.pointers }
        requires hops { AreNamedHops self.old.core.table.settings self.old.parts.pointers }
        requires numbers { self.old.parts.stamp + 2 * held_or_laid_count self.old.parts.pointers.pairs ≤ u32.MAX }
        requires others { AreLaidBeside self.old.core.table level self.old.parts.pointers }
        ensures after { OnOk result (core_state self.new ≡ with_reconciled (core_state self.old)) }
        ensures sent { OnOk result (sent.new
            ≡ sent.old ++ lay_bytes (sender_of self.old.core.table) (lays_due (core_state self.old))) }
    {
        let table = self.core.ties().table();
        reconcile_at(
            &mut self.parts.pointers,
            table,
            &mut self.parts.stamp,
            sent,
            level,
        )
    }

    // Lays all pairs as wanted.
    fn reconcile(&mut self, sent: &mut FrameList) -> Result<(), NoMemory>
        requires owner { self.old.core.table.owner ≡ self.old.parts.pointers.owner }
        requires names { PairsHaveNames self.old.core.table.settings self.old.parts.pointers }
        requires hops { AreNamedHops self.old.core.table.settings self.old.parts.pointers }
        requires numbers { self.old.parts.stamp + 2 * held_or_laid_count self.old.parts.pointers.pairs ≤ u32.MAX }
        ensures after { OnOk result (core_state self.new ≡ with_reconciled (core_state self.old)) }
        ensures sent { OnOk result (sent.new
            ≡ sent.old ++ lay_bytes (sender_of self.old.core.table) (lays_due (core_state self.old))) }
    {
        let table = self.core.ties().table();
        reconcile(&mut self.parts.pointers, table, &mut self.parts.stamp, sent)
    }

    // Lays all pairs as wanted. If a level is given, no pair needs it but those whose way passes this level.
    fn reconcile_beside(&mut self, sent: &mut FrameList, level: Option<u8>) -> Result<(), NoMemory>
        requires owner { self.old.core.table.owner ≡ self.old.parts.pointers.owner }
        requires names { PairsHaveNames self.old.core.table.settings self.old.parts.pointers }
        requires hops { AreNamedHops self.old.core.table.settings self.old.parts.pointers }
        requires numbers { self.old.parts.stamp + 2 * held_or_laid_count self.old.parts.pointers.pairs ≤ u32.MAX }
        requires others { IfSome level (λ l. AreLaidBeside self.old.core.table l self.old.parts.pointers) }
        ensures after { OnOk result (core_state self.new ≡ with_reconciled (core_state self.old)) }
        ensures sent { OnOk result (sent.new
            ≡ sent.old ++ lay_bytes (sender_of self.old.core.table) (lays_due (core_state self.old))) }
    {
        match level {
            Some(level) => self.reconcile_at(sent, level),
            None => self.reconcile(sent),
        }
    }

    // Lays the pair of an object that it serves itself as wanted, if no other pair needs it.
    fn reconcile_own(&mut self, sent: &mut FrameList, object: Name) -> Result<(), NoMemory>
        requires owner { self.old.core.table.owner ≡ self.old.parts.pointers.owner }
        requires names { PairsHaveNames self.old.core.table.settings self.old.parts.pointers }
        requires hops { AreNamedHops self.old.core.table.settings self.old.parts.pointers }
        requires numbers { self.old.parts.stamp + 2 ≤ u32.MAX }
        requires others { AreLaidBut self.old.core.table (pair_of object self.old.core.table.owner) self.old.parts.pointers }
        ensures after { OnOk result (core_state self.new ≡ with_reconciled (core_state self.old)) }
        ensures sent { OnOk result (sent.new
            ≡ sent.old ++ lay_bytes (sender_of self.old.core.table) (lays_due (core_state self.old))) }
    {
        let table = self.core.ties().table();
        let own = table.owner();
        reconcile_pair(
            &mut self.parts.pointers,
            table,
            &mut self.parts.stamp,
            sent,
            object,
            own,
        )
    }

    // Takes a Lay.
    fn on_lay(&mut self, frame: &Frame, sent: &mut FrameList) -> Result<(), NoMemory>
        requires may { MayTake (core_state self.old) frame.now }
        requires kind { IsLayBody frame.now.body }
        ensures { OnOk result (FollowsAs (core_state self.old)
            (frame_at_core (core_state self.old) frame.now.from frame.now.body) (core_state self.new) sent.old sent.new News.Nothing) }
    {
        let from = frame.from;
        let Body::Lay {
            object,
            server,
            level,
            version,
            on,
        } = &frame.body
        else {
            unreachable!()
        };
        let lay = TakenLay {
            from,
            object: *object,
            server: *server,
            level: *level,
            version: *version,
            on: *on,
        };
        self.apply_lay(sent, &lay)
    }

    // Takes a Find.
    fn on_find(&mut self, frame: &Frame, sent: &mut FrameList) -> Result<(), NoMemory>
        requires may { MayTake (core_state self.old) frame.now }
        requires kind { IsFindBody frame.now.body }
        ensures { OnOk result (FollowsAs (core_state self.old)
            (frame_at_core (core_state self.old) frame.now.from frame.now.body) (core_state self.new) sent.old sent.new News.Nothing) }
    {
        let Body::Find {
            ticket,
            object,
            asker,
            level,
        } = &frame.body
        else {
            unreachable!()
        };
        let find = TakenFind {
            ticket: *ticket,
            object: *object,
            asker: *asker,
            level: *level,
        };
        self.route_find(sent, &find)
    }

    // Lay: the register of the pair takes it, and the pair is laid as wanted.
    fn apply_lay(&mut self, sent: &mut FrameList, lay: &TakenLay) -> Result<(), NoMemory>
        requires sound { IsSoundNode (core_state self.old) }
        requires room { has_numbers_left (core_state self.old) ≡ true }
        requires object { IsName self.old.core.table.settings lay.now.object }
        requires server { IsName self.old.core.table.settings lay.now.server }
        requires level { IsLevel self.old.core.table.settings lay.now.level }
        ensures { OnOk result (FollowsAs (core_state self.old) (Some
            (takes_lay (core_state self.old) lay.now.from (pair_of lay.now.object lay.now.server) lay.now.level lay.now.version lay.now.on))
            (core_state self.new) sent.old sent.new News.Nothing) }
    {
        let table = self.core.ties().table();
        take_lay(
            &mut self.parts.pointers,
            table,
            &mut self.parts.stamp,
            sent,
            lay,
        )?;
        Ok(())
    }

    // Find: it is answered if a server is held or this is the root, and goes on if not.
    fn route_find(&self, sent: &mut FrameList, find: &TakenFind) -> Result<(), NoMemory>
        requires sound { IsSoundNode (core_state self.now) }
        requires object { IsName self.now.core.table.settings find.now.object }
        requires asker { IsName self.now.core.table.settings find.now.asker }
        requires level { find.now.level ≤ self.now.core.table.settings.digits }
        ensures { OnOk result (FollowsAs (core_state self.now)
            (Some (takes_find (core_state self.now) find.now.ticket find.now.object find.now.asker find.now.level)) (core_state self.now) sent.old sent.new News.Nothing) }
    {
        take_find(&self.parts.pointers, self.core.ties().table(), sent, find)?;
        Ok(())
    }

    // Leave: it marks the leaver, takes the replacement if its slot wants one, and answers. If another node is the slot's
    // primary, it stays so, and no replacement is wanted.
    fn on_leave(
        &mut self,
        sent: &mut FrameList,
        from: Name,
        replacement: Option<Name>,
    ) -> Result<(), NoMemory>
        requires sound { IsSoundNode (core_state self.old) }
        requires room { has_numbers_left (core_state self.old) ≡ true }
        requires name { IsName self.old.core.table.settings from }
        requires other { from ≢ self.old.core.table.owner }
        requires replacement { IfSome replacement (IsName self.old.core.table.settings) }
        ensures { OnOk result (FollowsAs (core_state self.old) (Some (takes_leave (core_state self.old) from replacement))
            (core_state self.new) sent.old sent.new News.Nothing) }
    {
        let other = has_other_primary(self.core.ties().table(), &from);
        let level = level_of_leave(self.core.ties().table(), &from, &replacement);
        let word = told_leave(
            self.core.ties_mut(),
            &mut self.parts.stamp,
            from,
            replacement,
        )?;
        let sender = self.sender();
        sender.send_word(sent, word)?;
        sender.send(sent, &from, Body::Left)?;
        if other {
            return Ok(());
        }
        self.reconcile_beside(sent, level)?;
        Ok(())
    }

    // Gone: its link to the sender is taken out. That mostly leaves the slot's primary as it was, since the link was marked.
    fn on_gone(&mut self, sent: &mut FrameList, from: Name) -> Result<(), NoMemory>
        requires sound { IsSoundNode (core_state self.old) }
        requires room { has_numbers_left (core_state self.old) ≡ true }
        requires name { IsName self.old.core.table.settings from }
        requires other { from ≢ self.old.core.table.owner }
        ensures { OnOk result (FollowsAs (core_state self.old) (Some (takes_gone (core_state self.old) from))
            (core_state self.new) sent.old sent.new News.Nothing) }
    {
        let old_primary = self.core.ties().table().near(&from).primary();
        self.core.ties_mut().remove_settled(from);
        let new_primary = self.core.ties().table().near(&from).primary();
        if old_primary == new_primary {
            return Ok(());
        }
        self.reconcile(sent)?;
        Ok(())
    }

    // Takes a Cast.
    #[inline(never)]
    fn on_cast(
        &mut self,
        frame: &Frame,
        sent: &mut FrameList,
        news: &mut News,
    ) -> Result<(), NoMemory>
        requires may { MayTake (core_state self.old) frame.now }
        requires kind { IsCastBody frame.now.body }
        requires nothing { news.old ≡ News.Nothing }
        ensures { OnOk result (FollowsAs (core_state self.old)
            (frame_at_core (core_state self.old) frame.now.from frame.now.body) (core_state self.new) sent.old sent.new news.new) }
    {
        let from = frame.from;
        let Body::Cast {
            cast,
            level,
            session,
            depth,
            word,
        } = &frame.body
        else {
            unreachable!()
        };
        let parent = Parent::Node {
            name: from,
            session: *session,
        };
        let copy = CastCopy {
            cast: *cast,
            level: *level,
            parent,
            depth: *depth,
        };
        self.note_cast(sent, &copy, word.as_slice(), news)
    }

    /// It publishes an object.
    ///
    /// Rule: docs/PROTOCOL.md, "Publication and withdrawal".
    pub fn publish(&mut self, sent: &mut FrameList, object: Name) -> Result<News, NoMemory>
        requires sound { IsSoundNode (core_state self.old) }
        requires room { has_numbers_left (core_state self.old) ≡ true }
        requires object { IsName self.old.core.table.settings object }
        ensures { IfOk result (λ news. FollowsAs (core_state self.old) (Some (starts_publish (core_state self.old) object))
            (core_state self.new) sent.old sent.new news) }
    {
        self.parts.pointers.publish(object)?;
        self.reconcile_own(sent, object)?;
        Ok(News::Nothing)
    }

    /// It withdraws an object.
    ///
    /// Rule: docs/PROTOCOL.md, "Publication and withdrawal".
    pub fn withdraw(&mut self, sent: &mut FrameList, object: Name) -> Result<News, NoMemory>
        requires sound { IsSoundNode (core_state self.old) }
        requires room { has_numbers_left (core_state self.old) ≡ true }
        requires object { IsName self.old.core.table.settings object }
        ensures { IfOk result (λ news. FollowsAs (core_state self.old) (Some (starts_withdraw (core_state self.old) object))
            (core_state self.new) sent.old sent.new news) }
    {
        self.parts.pointers.withdraw(object);
        self.reconcile_own(sent, object)?;
        Ok(News::Nothing)
    }

    /// It looks an object up, under a ticket.
    ///
    /// Rule: docs/PROTOCOL.md, "Find".
    pub fn find(&self, sent: &mut FrameList, ticket: u32, object: Name) -> Result<News, NoMemory>
        requires sound { IsSoundNode (core_state self.now) }
        requires object { IsName self.now.core.table.settings object }
        ensures { IfOk result (λ news. FollowsAs (core_state self.now) (Some (starts_find (core_state self.now) ticket object))
            (core_state self.now) sent.old sent.new news) }
    {
        let table = self.core.ties().table();
        ask(&self.parts.pointers, table, sent, ticket, object)
    }

    /// Its ties, and what it keeps beside them: a leaving node is made of both.
    ///
    /// Rule: docs/PROTOCOL.md, "The start of a departure".
    pub fn into_parts(self) -> (Core, NodeParts)
        ensures { result ≡ (self.core, self.parts) }
    {
        (self.core, self.parts)
    }
}

// Whether the slot in which a name stands has a primary that is another node.
fn has_other_primary(table: &Table, name: &Name) -> bool
    requires name { IsName table.now.settings name.now }
    requires other { name.now ≢ table.now.owner }
    ensures { result ≡ has_other_primary table.now name.now }
{
    match table.near(name).primary() {
        Some(primary) => primary != *name,
        None => false,
    }
}

// The level of the slot of a leaver, unless a replacement stands at another level.
fn level_of_leave(table: &Table, leaver: &Name, replacement: &Option<Name>) -> Option<u8>
    ensures value { result ≡ level_of_leave table.now leaver.now replacement.now }
    ensures level { IfSome result (IsLevelOfLeave table.now leaver.now replacement.now) }
{
    let owner = table.owner();
    let level = owner.lcp(leaver);
    match replacement {
        Some(next) => {
            if owner.lcp(next) == level {
                Some(level as u8)
            } else {
                None
            }
        }
        None => Some(level as u8),
    }
}
