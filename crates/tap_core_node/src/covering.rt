ghost use Rattle.std.specs.Prelude.{◌≡◌, ◌≢◌, ◌==◌, ◌+◌, ◌<◌, ◌≤◌, true, if◌then◌else◌, Some, List, [], ◌∷◌, ◌++◌, length, All, OnOk};
ghost use Rattle.tap_name.specs.Name.{IsName};
ghost use Rattle.tap_session.specs.Session.{most_sessions};
ghost use Rattle.tap_multicast.specs.Covers.{MayCover};
ghost use Rattle.tap_table.specs.ByName.{targets_by_name};
ghost use Rattle.tap_table.specs.Table.{pinned};
ghost use Rattle.tap_rule.specs.Covering.{answers_awaited, covers, pins_and_covers, spreads};
ghost use Rattle.tap_rule.specs.FrameRules.{frame_at_core};
ghost use Rattle.tap_rule.specs.Reaction.{message};
ghost use Rattle.tap_rule.specs.Strange.{most_depth};
ghost use Rattle.tap_wire.specs.Layout.{most_links, most_slots};
ghost use Rattle.tap_wire.specs.Spelling.{AreLinks, AreSlots};
ghost use Rattle.tap_node_common.specs.Bodies.{IsSeekBody};
ghost use Rattle.tap_node_common.specs.Sender.{message_bytes};
ghost use Rattle.tap_node_common.specs.SoundNode.{IsParent, IsSoundNode, MayTake, has_numbers_left};
ghost use Rattle.tap_node_common.specs.StepsAs.{FollowsAs, StepsAs};
ghost use Rattle.tap_core_node.specs.Requests.{asked_with};
ghost use Rattle.tap_core_node.specs.State.{core_state};

use crate::core_node::CoreNode;
use tap_join::Sought;
use tap_multicast::{Covered, Target};
use tap_name::{List, Name, Offered};
use tap_node_common::{FrameList, News, NoMemory, Sender};
use tap_session::Parent;
use tap_watch::Watch;
use tap_wire::{Body, Frame, TellFields};

// What a core node is asked to do for a joiner: to cover it, with its prefix, from a level on; who is answered in the end;
// and the depth.
#[derive(Clone, Copy)]
pub(crate) struct Request {
    pub(crate) joiner: Name,
    pub(crate) prefix: u8,
    pub(crate) level: u8,
    pub(crate) parent: Parent,
    pub(crate) depth: u16,
}

impl CoreNode {
    // Takes a Seek: it goes on to the primary of the joiner's slot, or else the node is the joiner's surrogate.
    pub(crate) fn on_seek(&mut self, frame: &Frame, sent: &mut FrameList) -> Result<(), NoMemory>
        requires may { MayTake (core_state self.old) frame.now }
        requires kind { IsSeekBody frame.now.body }
        ensures { OnOk result (FollowsAs (core_state self.old)
            (frame_at_core (core_state self.old) frame.now.from frame.now.body) (core_state self.new) sent.old sent.new News.Nothing) }
    {
        let Body::Seek { joiner } = &frame.body else {
            unreachable!()
        };
        let joiner = *joiner;
        match self.core.seek(&joiner) {
            Sought::Forward(next) => {
                self.sender().send(sent, &next, Body::Seek { joiner })?;
                Ok(())
            }
            Sought::Surrogate(prefix) => {
                let settings = self.core.ties().table().settings();
                let watch = Watch::full(self.alloc, &joiner, &settings, prefix as usize)?;
                let request = Request {
                    joiner,
                    prefix,
                    level: prefix,
                    parent: Parent::Root { joiner },
                    depth: 0,
                };
                self.pin_and_cover(sent, &request, &watch)
            }
        }
    }

    // It pins the joiner and covers it.
    pub(crate) fn pin_and_cover(
        &mut self,
        sent: &mut FrameList,
        request: &Request,
        watch: &Watch,
    ) -> Result<(), NoMemory>
        requires sound { IsSoundNode (core_state self.old) }
        requires room { has_numbers_left (core_state self.old) ≡ true }
        requires name { IsName self.old.core.table.settings request.now.joiner }
        requires other { request.now.joiner ≢ self.old.core.table.owner }
        requires fits { MayCover (pinned self.old.core.table request.now.joiner) watch.now request.now.joiner request.now.prefix request.now.level }
        requires slots { length watch.now ≤ most_slots self.old.core.table.settings }
        requires few { length (targets_by_name (pinned self.old.core.table request.now.joiner)) ≤ most_links }
        requires parent { IsParent self.old.core.table.settings request.now.parent }
        requires depth { request.now.depth < most_depth }
        ensures { OnOk result (FollowsAs (core_state self.old)
            (Some (pins_and_covers (core_state self.old) (asked_with request.now watch.now)))
            (core_state self.new) sent.old sent.new News.Nothing) }
    {
        let joiner = request.joiner;
        let word = self.core.ties_mut().pin(&mut self.parts.stamp, joiner)?;
        self.sender().send_word(sent, word)?;
        self.cover(sent, request, watch)?;
        Ok(())
    }

    // It covers the joiner, which it has pinned.
    fn cover(
        &mut self,
        sent: &mut FrameList,
        request: &Request,
        watch: &Watch,
    ) -> Result<(), NoMemory>
        requires fits { MayCover self.old.core.table watch.now request.now.joiner request.now.prefix request.now.level }
        requires slots { length watch.now ≤ most_slots self.old.core.table.settings }
        requires few { length (targets_by_name self.old.core.table) ≤ most_links }
        requires parent { IsParent self.old.core.table.settings request.now.parent }
        requires depth { request.now.depth < most_depth }
        requires room { self.old.parts.sessions.opened < most_sessions }
        ensures { OnOk result (StepsAs (core_state self.old)
            (covers (core_state self.old) (asked_with request.now watch.now))
            (core_state self.new) sent.old sent.new News.Nothing) }
    {
        let table = self.core.ties().table();
        match self.parts.covers.cover(
            request.joiner,
            request.prefix,
            request.level,
            watch,
            table,
        )? {
            Covered::Already => self.sender().answer(sent, &request.parent),
            Covered::Now {
                first,
                offer,
                targets,
                left,
            } => self.spread(sent, request, first, offer, &targets, &left),
        }
    }

    // It greets the joiner if the cover is the first, and tells the targets of it, in a session that waits for all of
    // them; if there is nobody to wait for, the parent is answered at once.
    fn spread(
        &mut self,
        sent: &mut FrameList,
        request: &Request,
        first: bool,
        offer: List<Offered>,
        targets: &List<Target>,
        left: &Watch,
    ) -> Result<(), NoMemory>
        requires joiner { IsName self.old.core.table.settings request.now.joiner }
        requires prefix { request.now.prefix < self.old.core.table.settings.digits }
        requires parent { IsParent self.old.core.table.settings request.now.parent }
        requires depth { request.now.depth < most_depth }
        requires offer { AreLinks self.old.core.table.settings offer }
        requires names { All (λ target. IsName self.old.core.table.settings target.to) targets.now }
        requires above { All (λ target. request.now.prefix < target.level) targets.now }
        requires within { All (λ target. target.level ≤ self.old.core.table.settings.digits) targets.now }
        requires slots { AreSlots self.old.core.table.settings request.now.prefix left.now }
        requires few { length targets.now ≤ most_links }
        requires room { self.old.parts.sessions.opened < most_sessions }
        ensures { OnOk result (StepsAs (core_state self.old)
            (spreads (core_state self.old) (asked_with request.now left.now) first offer targets.now left.now)
            (core_state self.new) sent.old sent.new News.Nothing) }
    {
        let sender = self.sender();
        let waiting = answers_awaited(first, targets.len() as u32);
        if waiting == 0 {
            return sender.answer(sent, &request.parent);
        }
        let session = self
            .parts
            .sessions
            .open(request.parent, request.depth, waiting)?;
        greet(&sender, sent, &request.joiner, session, first, offer)?;
        let fields = TellFields {
            joiner: request.joiner,
            prefix: request.prefix,
            level: request.level,
            session,
            depth: request.depth + 1,
        };
        sent.send_tells(&sender.settings, &sender.name, &fields, left, targets)?;
        Ok(())
    }
}

// The joiner is greeted if the cover is the first, with the links that are offered.
fn greet(
    sender: &Sender,
    sent: &mut FrameList,
    joiner: &Name,
    session: u32,
    first: bool,
    offer: List<Offered>,
) -> Result<(), NoMemory>
    requires own { IsName sender.now.settings sender.now.name }
    requires joiner { IsName sender.now.settings joiner.now }
    requires session { 1 ≤ session }
    requires offer { AreLinks sender.now.settings offer }
    ensures { OnOk result (sent.new ≡ sent.old ++ message_bytes sender.now
        (if first then message joiner.now (Body.Hello session true offer) ∷ [] else [])) }
{
    if !first {
        return Ok(());
    }
    let hello = Body::Hello {
        session,
        core: true,
        links: offer,
    };
    sender.send(sent, joiner, hello)
}

// How many answers a cover waits for: one of each target, and if it is the first, one of the joiner.
fn answers_awaited(first: bool, targets: u32) -> u32
    requires { targets < u32.MAX }
    ensures { result ≡ answers_awaited first targets }
{
    if first { targets + 1 } else { targets }
}
