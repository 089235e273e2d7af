ghost use Rattle.std.specs.Prelude.{◌≡◌, ◌-◌, ◌||◌, ◌<◌, ◌≤◌, true, Some, ◌++◌, length, map, All, IfOk, OnOk};
ghost use Rattle.std.specs.List.{slice_index_or};
ghost use Rattle.tap_name.specs.Name.{IsName};
ghost use Rattle.tap_name.specs.Word.{IsWord};
ghost use Rattle.tap_session.specs.Session.{most_sessions};
ghost use Rattle.tap_rule.specs.Casts.{cast_for, cast_news, casts, is_root, next_cast_session, takes_cast_ack, with_cast_session};
ghost use Rattle.tap_rule.specs.Strange.{most_depth};
ghost use Rattle.tap_wire.specs.Spelling.{IsLevel};
ghost use Rattle.tap_node_common.specs.Sender.{message_bytes, sender_of};
ghost use Rattle.tap_node_common.specs.SoundNode.{IsParent, IsSoundNode, has_numbers_left};
ghost use Rattle.tap_node_common.specs.StepsAs.{FollowsAs, news_seen};
ghost use Rattle.tap_core_node.specs.Requests.{copied_with};
ghost use Rattle.tap_core_node.specs.State.{core_state};

use crate::core_node::CoreNode;
use tap_cast::{CastTarget, CastTurn};
use tap_name::List;
use tap_node_common::{CastFields, FrameList, News, NoMemory};
use tap_session::{Answered, Parent};
use tap_wire::Bytes;

/// A copy of a cast but its word.
///
/// Rule: docs/PROTOCOL.md, "Cast".
#[derive(Clone, Copy)]
pub struct CastCopy {
    /// The cast's number, any number.
    pub cast: u32,
    /// The level from which the node goes on, up to the number of digits.
    pub level: u8,
    /// Who is answered in the end.
    pub parent: Parent,
    /// How many Casts led from the first node to this one.
    pub depth: u16,
}

impl CoreNode {
    /// Takes a copy of a cast, or starts one: if a level of at most this one is kept, it is answered at once. Else the node goes on
    /// with it. Its depth is below 65,535.
    ///
    /// Rule: docs/PROTOCOL.md, "Cast".
    pub fn cast(
        &mut self,
        sent: &mut FrameList,
        copy: &CastCopy,
        word: &[u8],
    ) -> Result<News, NoMemory>
        requires sound { IsSoundNode (core_state self.old) }
        requires room { has_numbers_left (core_state self.old) ≡ true }
        requires level { copy.now.level ≤ self.old.core.table.settings.digits }
        requires parent { IsParent self.old.core.table.settings copy.now.parent }
        requires depth { copy.now.depth < most_depth }
        requires word { IsWord word.now }
        ensures { IfOk result (λ news. FollowsAs (core_state self.old) (Some (casts (core_state self.old) (copied_with copy.now word.now)))
            (core_state self.new) sent.old sent.new news) }
    {
        let mut news = News::Nothing;
        self.note_cast(sent, copy, word, &mut news)?;
        Ok(news)
    }

    // Takes a copy of a cast or starts one, and notes what there is to say of it.
    pub(crate) fn note_cast(
        &mut self,
        sent: &mut FrameList,
        copy: &CastCopy,
        word: &[u8],
        news: &mut News,
    ) -> Result<(), NoMemory>
        requires sound { IsSoundNode (core_state self.old) }
        requires room { has_numbers_left (core_state self.old) ≡ true }
        requires level { copy.now.level ≤ self.old.core.table.settings.digits }
        requires parent { IsParent self.old.core.table.settings copy.now.parent }
        requires depth { copy.now.depth < most_depth }
        requires word { IsWord word.now }
        requires nothing { news.old ≡ News.Nothing }
        ensures { OnOk result (FollowsAs (core_state self.old) (Some (casts (core_state self.old) (copied_with copy.now word.now)))
            (core_state self.new) sent.old sent.new news.new) }
    {
        let table = self.core.ties().table();
        match self.parts.casts.cast(copy.cast, copy.level, table)? {
            CastTurn::Already => {
                self.sender().answer_cast(sent, &copy.parent)?;
                Ok(())
            }
            CastTurn::Now { first, targets } => {
                if targets.is_empty() {
                    self.sender().answer_cast(sent, &copy.parent)?;
                    *news = cast_news(copy.cast, first, is_root(&copy.parent));
                    return Ok(());
                }
                self.spread_cast(sent, copy, word, &targets)?;
                *news = cast_news(copy.cast, first, false);
                Ok(())
            }
        }
    }

    // The targets are sent the cast, in a session that waits for them.
    fn spread_cast(
        &mut self,
        sent: &mut FrameList,
        copy: &CastCopy,
        word: &[u8],
        targets: &List<CastTarget>,
    ) -> Result<(), NoMemory>
        requires depth { copy.now.depth < most_depth }
        requires word { IsWord word.now }
        requires names { All (λ target. IsName self.old.core.table.settings target.to) targets.now }
        requires levels { All (λ target. IsLevel self.old.core.table.settings target.level) targets.now }
        requires some { 1 ≤ length targets.now }
        requires few { length targets.now < u32.MAX }
        requires room { self.old.parts.cast_sessions.opened < most_sessions }
        ensures after { OnOk result (core_state self.new
            ≡ with_cast_session (core_state self.old) (copied_with copy.now word.now) (length targets.now)) }
        ensures sent { OnOk result (sent.new ≡ sent.old ++ message_bytes (sender_of self.old.core.table)
            (map (cast_for (copied_with copy.now word.now) (next_cast_session (core_state self.old))) targets.now)) }
    {
        let sender = self.sender();
        let waiting = targets.len() as u32;
        let session = self
            .parts
            .cast_sessions
            .open(copy.parent, copy.depth, waiting)?;
        self.parts.cast_numbers.push(copy.cast)?;
        let letters = Bytes::copy_of(self.alloc, word)?;
        let fields = CastFields {
            cast: copy.cast,
            session,
            depth: copy.depth + 1,
            word: letters,
        };
        sent.send_casts(&sender.settings, &sender.name, fields, targets)?;
        Ok(())
    }

    // CastAck: the session of this number has one answer more. The last one is passed on, and at the root the cast is
    // closed.
    #[inline(never)]
    pub(crate) fn on_cast_ack(
        &mut self,
        sent: &mut FrameList,
        session: u32,
        news: &mut News,
    ) -> Result<(), NoMemory>
        requires sound { IsSoundNode (core_state self.old) }
        requires nothing { news.old ≡ News.Nothing }
        ensures { OnOk result (FollowsAs (core_state self.old) (Some (takes_cast_ack (core_state self.old) session))
            (core_state self.new) sent.old sent.new news.new) }
    {
        match self.parts.cast_sessions.answered(session) {
            Answered::Closed(parent) => {
                self.sender().answer_cast(sent, &parent)?;
                let cast = cast_of(self.parts.cast_numbers.as_slice(), session);
                *news = cast_news(cast, false, is_root(&parent));
                Ok(())
            }
            Answered::Open | Answered::Unknown => Ok(()),
        }
    }
}

// The cast of a session that was opened, by its number, from 1.
fn cast_of(numbers: &[u32], session: u32) -> u32
    requires given { 1 ≤ session }
    requires within { session ≤ length numbers.now }
    ensures { result ≡ slice_index_or numbers.now (session - 1) 0 }
{
    numbers[session as usize - 1]
}

// Whether a parent is the root: then the cast is closed, and nobody is answered.
fn is_root(parent: &Parent) -> bool
    ensures { result ≡ is_root parent.now }
{
    match parent {
        Parent::Root { joiner: _ } => true,
        Parent::Node {
            name: _,
            session: _,
        } => false,
    }
}

// The news of a cast, if it has reached the node or is closed.
fn cast_news(cast: u32, reached: bool, closed: bool) -> News
    ensures { result ≡ news_seen (cast_news cast reached closed) }
{
    if reached || closed {
        News::Cast {
            cast,
            reached,
            closed,
        }
    } else {
        News::Nothing
    }
}
