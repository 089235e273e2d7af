ghost use Rattle.std.specs.Prelude.{◌≡◌, ◌≢◌, ◌==◌, ◌+◌, ◌*◌, ◌≤◌, ◌++◌, true, length, map, IfOk, OnOk};
ghost use Rattle.tap_name.specs.Name.{IsName};
ghost use Rattle.tap_depart.specs.Leaving.{left_by, started_leaving};
ghost use Rattle.tap_pointer.specs.Pointers.{pair_of, held_or_laid_count};
ghost use Rattle.tap_table.specs.Table.{rows};
ghost use Rattle.tap_table.specs.Ties.{AreTies};
ghost use Rattle.tap_rule.specs.FrameRules.{frame_at_leaving};
ghost use Rattle.tap_rule.specs.Leaving.{finishes, leave_for, with_departure};
ghost use Rattle.tap_rule.specs.Links.{takes_link};
ghost use Rattle.tap_rule.specs.Node.Status.{Gone as GoneStatus};
ghost use Rattle.tap_rule.specs.Pointers.{reconciles, takes_find, takes_lay};
ghost use Rattle.tap_rule.specs.Reaction.{sends};
ghost use Rattle.tap_wire.specs.declared.frame.Body.TheVariants as bodies;
ghost use Rattle.tap_wire.specs.Spelling.{IsLevel};
ghost use Rattle.tap_node_common.specs.Bodies.{IsFindBody, IsLayBody};
ghost use Rattle.tap_node_common.specs.Sender.{message_bytes, sender_of};
ghost use Rattle.tap_node_common.specs.SoundNode.{AreNamedHops, IsSoundNode, MayTake, PairsHaveNames, has_numbers_left};
ghost use Rattle.tap_node_common.specs.States.{core_state_of, ended_state};
ghost use Rattle.tap_node_common.specs.StepsAs.{FollowsAs, StepsAs};
ghost use Rattle.tap_leaving_node.specs.State.{leaving_state};

use std::alloc::Global;
use tap_depart::Leaving;
use tap_join::Core;
use tap_name::Name;
use tap_node_common::{
    FrameList, News, NoMemory, NodeParts, Sender, TakenFind, TakenLay, hear_and_release, reconcile,
    take_find, take_lay,
};
use tap_session::Sessions;
use tap_wire::{Body, Frame};

/// A node that has told its holders that it will go.
///
/// Its fields are open, to the layers of a node alone: what they come to is the state of the node.
///
/// Rule: docs/PROTOCOL.md, "Nodes".
#[derive(Drop)]
pub struct LeavingNode {
    /// Where it takes memory.
    pub alloc: Global,
    /// Its ties, and the holders whose answer it awaits.
    pub leaving: Leaving,
    /// What it keeps beside them.
    pub parts: NodeParts,
}

impl LeavingNode {
    /// A core node leaves: it publishes nothing any more, and awaits its holders. If memory is refused, there is no node any more.
    ///
    /// Rule: docs/PROTOCOL.md, "The start of a departure".
    pub fn start(alloc: Global, core: Core, parts: NodeParts) -> Result<LeavingNode, NoMemory>
        ensures after { IfOk result (λ node. leaving_state node ≡ with_departure (core_state_of core parts)) }
        ensures notices { IfOk result (λ node. node.leaving ≡ started_leaving core) }
    {
        let mut parts = parts;
        parts.pointers.drop_all();
        let leaving = Leaving::start(alloc, core.leave())?;
        Ok(LeavingNode {
            alloc,
            leaving,
            parts,
        })
    }

    // Who sends its frames.
    fn sender(&self) -> Sender
        ensures value { result ≡ sender_of self.now.leaving.ties.table }
        ensures valid { AreTies self.now.leaving.ties }
        ensures name { IsName result.settings result.name }
    {
        Sender::of(self.leaving.ties().table())
    }

    /// Whether it awaits nobody, and so finishes.
    pub fn is_free(&self) -> bool
        ensures { result ≡ (length self.now.leaving.awaited == 0) }
    {
        self.leaving.awaited() == 0
    }

    /// Takes a frame but a Left: it does as the rule of a node says, and leaves what it notes in `news`. If memory is refused, the
    /// node is used no more.
    ///
    /// Rule: docs/PROTOCOL.md, "Steps of a node".
    #[tactic(auto, unfolding(tap_rule::specs::FrameRules::frame_at_leaving))]
    pub fn take(
        &mut self,
        frame: &Frame,
        sent: &mut FrameList,
        news: &mut News,
    ) -> Result<(), NoMemory>
        requires may { MayTake (leaving_state self.old) frame.now }
        requires other { frame.now.body ≢ bodies.Left }
        ensures { OnOk result (FollowsAs (leaving_state self.old)
            (frame_at_leaving (leaving_state self.old) frame.now.from frame.now.body) (leaving_state self.new) sent.old sent.new news.new) }
    {
        *news = News::Nothing;
        match &frame.body {
            Body::Link { version, on } => self.on_link(sent, frame.from, *version, *on),
            Body::Lay { .. } => self.on_lay(frame, sent),
            Body::Find { .. } => self.on_find(frame, sent),
            Body::Answer { ticket, server } => {
                *news = News::Answered {
                    ticket: *ticket,
                    server: *server,
                };
                Ok(())
            }
            Body::Left => unreachable!(),
            Body::Seek { .. }
            | Body::Tell { .. }
            | Body::Hello { .. }
            | Body::Heard { .. }
            | Body::Ack { .. }
            | Body::Done
            | Body::Release
            | Body::Leave { .. }
            | Body::Gone
            | Body::Forget
            | Body::Cast { .. }
            | Body::CastAck { .. } => Ok(()),
        }
    }

    // Link: a new one is answered with a Release.
    fn on_link(
        &mut self,
        sent: &mut FrameList,
        holder: Name,
        version: u32,
        on: bool,
    ) -> Result<(), NoMemory>
        requires name { IsName self.old.leaving.ties.table.settings holder }
        requires other { holder ≢ self.old.leaving.ties.table.owner }
        ensures { OnOk result (StepsAs (leaving_state self.old) (takes_link (leaving_state self.old) holder version on)
            (leaving_state self.new) sent.old sent.new News.Nothing) }
    {
        hear_and_release(self.leaving.ties_mut(), sent, holder, version, on)?;
        Ok(())
    }

    // Takes a Lay.
    fn on_lay(&mut self, frame: &Frame, sent: &mut FrameList) -> Result<(), NoMemory>
        requires may { MayTake (leaving_state self.old) frame.now }
        requires kind { IsLayBody frame.now.body }
        ensures { OnOk result (FollowsAs (leaving_state self.old)
            (frame_at_leaving (leaving_state self.old) frame.now.from frame.now.body) (leaving_state self.new) sent.old sent.new News.Nothing) }
    {
        let from = frame.from;
        let Body::Lay {
            object,
            server,
            level,
            version,
            on,
        } = &frame.body
        else {
            unreachable!()
        };
        let lay = TakenLay {
            from,
            object: *object,
            server: *server,
            level: *level,
            version: *version,
            on: *on,
        };
        self.apply_lay(sent, &lay)
    }

    // Takes a Find.
    fn on_find(&mut self, frame: &Frame, sent: &mut FrameList) -> Result<(), NoMemory>
        requires may { MayTake (leaving_state self.old) frame.now }
        requires kind { IsFindBody frame.now.body }
        ensures { OnOk result (FollowsAs (leaving_state self.old)
            (frame_at_leaving (leaving_state self.old) frame.now.from frame.now.body) (leaving_state self.new) sent.old sent.new News.Nothing) }
    {
        let Body::Find {
            ticket,
            object,
            asker,
            level,
        } = &frame.body
        else {
            unreachable!()
        };
        let find = TakenFind {
            ticket: *ticket,
            object: *object,
            asker: *asker,
            level: *level,
        };
        self.route_find(sent, &find)
    }

    // Lay: the register of its sender takes it, and its pair is laid as wanted.
    fn apply_lay(&mut self, sent: &mut FrameList, lay: &TakenLay) -> Result<(), NoMemory>
        requires sound { IsSoundNode (leaving_state self.old) }
        requires room { has_numbers_left (leaving_state self.old) ≡ true }
        requires object { IsName self.old.leaving.ties.table.settings lay.now.object }
        requires server { IsName self.old.leaving.ties.table.settings lay.now.server }
        requires level { IsLevel self.old.leaving.ties.table.settings lay.now.level }
        ensures { OnOk result (StepsAs (leaving_state self.old) (reconciles
            (takes_lay (leaving_state self.old) lay.now.from (pair_of lay.now.object lay.now.server) lay.now.level lay.now.version lay.now.on))
            (leaving_state self.new) sent.old sent.new News.Nothing) }
    {
        let table = self.leaving.ties().table();
        take_lay(
            &mut self.parts.pointers,
            table,
            &mut self.parts.stamp,
            sent,
            lay,
        )?;
        Ok(())
    }

    // Find: it is answered, or it goes on.
    fn route_find(&self, sent: &mut FrameList, find: &TakenFind) -> Result<(), NoMemory>
        requires sound { IsSoundNode (leaving_state self.now) }
        requires object { IsName self.now.leaving.ties.table.settings find.now.object }
        requires asker { IsName self.now.leaving.ties.table.settings find.now.asker }
        requires level { find.now.level ≤ self.now.leaving.ties.table.settings.digits }
        ensures { OnOk result (StepsAs (leaving_state self.now) (takes_find (leaving_state self.now) find.now.ticket find.now.object find.now.asker find.now.level)
            (leaving_state self.now) sent.old sent.new News.Nothing) }
    {
        take_find(
            &self.parts.pointers,
            self.leaving.ties().table(),
            sent,
            find,
        )?;
        Ok(())
    }

    /// Takes a Left: the sender is awaited no more.
    ///
    /// Rule: docs/PROTOCOL.md, "Left".
    pub fn on_left(&mut self, from: Name)
        ensures { self.new ≡ record self.old { leaving = left_by self.old.leaving from } }
    {
        self.leaving.left(from);
    }

    /// Sends the notices of its start, and lays all pairs as wanted. It has just started.
    ///
    /// The stamp has two numbers left for each pair that is held or laid. If memory is refused, the node is used no more.
    ///
    /// Rule: docs/PROTOCOL.md, "The start of a departure".
    pub fn send_notices(&mut self, sent: &mut FrameList) -> Result<(), NoMemory>
        requires notices { self.old.leaving.notices ≡ (started_leaving self.old.leaving.ties).notices }
        requires owner { self.old.parts.pointers.owner ≡ self.old.leaving.ties.table.owner }
        requires pairs { PairsHaveNames self.old.leaving.ties.table.settings self.old.parts.pointers }
        requires hops { AreNamedHops self.old.leaving.ties.table.settings self.old.parts.pointers }
        requires numbers { self.old.parts.stamp + 2 * held_or_laid_count self.old.parts.pointers.pairs ≤ u32.MAX }
        ensures { OnOk result (StepsAs (leaving_state self.old)
            (reconciles (sends (leaving_state self.old) (map leave_for self.old.leaving.notices)))
            (leaving_state self.new) sent.old sent.new News.Nothing) }
    {
        self.send_leaves(sent)?;
        let table = self.leaving.ties().table();
        reconcile(&mut self.parts.pointers, table, &mut self.parts.stamp, sent)?;
        Ok(())
    }

    // Sends the notices of its start.
    fn send_leaves(&self, sent: &mut FrameList) -> Result<(), NoMemory>
        requires notices { self.now.leaving.notices ≡ (started_leaving self.now.leaving.ties).notices }
        ensures { OnOk result (sent.new
            ≡ sent.old ++ message_bytes (sender_of self.now.leaving.ties.table) (map leave_for self.now.leaving.notices)) }
    {
        let sender = self.sender();
        for i in 0..self.leaving.notice_count() {
            let notice = self.leaving.notice_at(i);
            let body = Body::Leave {
                replacement: notice.replacement,
            };
            sender.send(sent, &notice.to, body)?;
        }
        Ok(())
    }

    /// It finishes: a word for each link that there is none any more, a Gone for each holder, and its pointers are cleared. Its
    /// sessions are left.
    ///
    /// It awaits nobody. The stamp has a number left for each link, and for each pair that is held or laid.
    ///
    /// Rule: docs/PROTOCOL.md, "Left".
    pub fn finish(self, sent: &mut FrameList) -> Result<Sessions, NoMemory>
        requires awaits { length self.leaving.awaited ≡ 0 }
        requires pairs { PairsHaveNames self.leaving.ties.table.settings self.parts.pointers }
        requires hops { AreNamedHops self.leaving.ties.table.settings self.parts.pointers }
        requires numbers { self.parts.stamp + length (rows self.leaving.ties.table) + held_or_laid_count self.parts.pointers.pairs ≤ u32.MAX }
        ensures { IfOk result (λ sessions. StepsAs (leaving_state self) (finishes (leaving_state self))
            (ended_state GoneStatus self.leaving.ties.table.settings self.leaving.ties.table.owner sessions) sent.old sent.new News.Gone) }
    {
        let sender = self.sender();
        let LeavingNode { leaving, parts, .. } = self;
        let NodeParts {
            mut stamp,
            mut pointers,
            sessions,
            ..
        } = parts;
        let (words, holders) = leaving.finish(&mut stamp)?;
        sender.send_words(sent, words)?;
        sender.send_each(sent, Body::Gone, &holders)?;
        let lays = pointers.clear(&mut stamp)?;
        sender.send_lays(sent, &lays)?;
        Ok(sessions)
    }
}
