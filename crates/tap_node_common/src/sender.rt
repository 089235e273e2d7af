ghost use Rattle.std.specs.Prelude.{◌≡◌, [], ◌∷◌, ◌++◌, All, IfSome, OnOk};
ghost use Rattle.tap_join.specs.Hello.{words_of};
ghost use Rattle.tap_name.specs.Name.{IsName};
ghost use Rattle.tap_table.specs.Table.{IsTable};
ghost use Rattle.tap_rule.specs.Answers.{answer_for};
ghost use Rattle.tap_rule.specs.Casts.{cast_answer};
ghost use Rattle.tap_rule.specs.Reaction.{message, to_each};
ghost use Rattle.tap_wire.specs.Spelling.{IsBody};
ghost use Rattle.tap_node_common.specs.Sender.{IsLayOf, lay_bytes, message_bytes, sender_of, word_bytes};
ghost use Rattle.tap_node_common.specs.SoundNode.{IsParent};

use crate::frame_list::FrameList;
use crate::memory::NoMemory;
use tap_name::{List, Name, Settings};
use tap_pointer::Lay;
use tap_session::Parent;
use tap_table::{Table, Tie};
use tap_wire::Body;

/// Who sends the frames of a step. It is a name of its settings.
///
/// Contracts see its two fields. A call that sends adds the bytes of its frames at the end of the list; if memory is refused to
/// it, it isn't said which frames the list then has.
///
/// Rule: docs/PROTOCOL.md, "Steps of a node".
#[derive(Clone, Copy)]
pub struct Sender {
    /// The settings.
    pub settings: Settings,
    /// The name.
    pub name: Name,
}

impl Sender {
    /// The node whose table this is.
    pub fn of(table: &Table) -> Sender
        ensures value { result ≡ sender_of table.now }
        ensures table { IsTable table.now }
        ensures name { IsName result.settings result.name }
    {
        Sender {
            settings: table.settings(),
            name: table.owner(),
        }
    }

    /// Sends a frame to a name of the settings. Each field of the body keeps its rule.
    pub fn send(&self, sent: &mut FrameList, to: &Name, body: Body) -> Result<(), NoMemory>
        requires own { IsName self.now.settings self.now.name }
        requires to { IsName self.now.settings to.now }
        requires body { IsBody self.now.settings body }
        ensures { OnOk result (sent.new ≡ sent.old ++ message_bytes self.now (message to.now body ∷ [])) }
    {
        sent.send(&self.settings, &self.name, to, body)?;
        Ok(())
    }

    /// Sends each of these names the same, in their order.
    pub fn send_each(
        &self,
        sent: &mut FrameList,
        body: Body,
        names: &List<Name>,
    ) -> Result<(), NoMemory>
        requires own { IsName self.now.settings self.now.name }
        requires to { All (IsName self.now.settings) names.now }
        requires body { IsBody self.now.settings body }
        ensures { OnOk result (sent.new ≡ sent.old ++ message_bytes self.now (to_each body names.now)) }
    {
        sent.send_each(&self.settings, &self.name, body, names)?;
        Ok(())
    }

    /// Sends the Link of a word, if there is one.
    pub fn send_word(&self, sent: &mut FrameList, word: Option<Tie>) -> Result<(), NoMemory>
        requires own { IsName self.now.settings self.now.name }
        requires to { IfSome word (λ w. IsName self.now.settings w.to) }
        ensures { OnOk result (sent.new ≡ sent.old ++ word_bytes self.now (words_of word)) }
    {
        sent.send_link(&self.settings, &self.name, word)?;
        Ok(())
    }

    /// Sends the Links of these words, ascending by receiver; those to one receiver keep their order.
    pub fn send_words(&self, sent: &mut FrameList, words: List<Tie>) -> Result<(), NoMemory>
        requires own { IsName self.now.settings self.now.name }
        requires to { All (λ w. IsName self.now.settings w.to) words }
        ensures { OnOk result (sent.new ≡ sent.old ++ word_bytes self.now words) }
    {
        sent.send_links(&self.settings, &self.name, words)?;
        Ok(())
    }

    /// Sends these Lays, in their order.
    pub fn send_lays(&self, sent: &mut FrameList, lays: &List<Lay>) -> Result<(), NoMemory>
        requires own { IsName self.now.settings self.now.name }
        requires lays { All (IsLayOf self.now.settings) lays.now }
        ensures { OnOk result (sent.new ≡ sent.old ++ lay_bytes self.now lays.now) }
    {
        sent.send_lays(&self.settings, &self.name, lays)?;
        Ok(())
    }

    /// Answers the parent of a session of joins: with an Ack of the parent's session, and at the root with a Done for the joiner.
    ///
    /// Rule: docs/PROTOCOL.md, "Sessions".
    pub fn answer(&self, sent: &mut FrameList, parent: &Parent) -> Result<(), NoMemory>
        requires own { IsName self.now.settings self.now.name }
        requires parent { IsParent self.now.settings parent.now }
        ensures { OnOk result (sent.new ≡ sent.old ++ message_bytes self.now (answer_for parent.now ∷ [])) }
    {
        match parent {
            Parent::Root { joiner } => self.send(sent, joiner, Body::Done),
            Parent::Node { name, session } => self.send(
                sent,
                name,
                Body::Ack { session: *session },
            ),
        }
    }

    /// Answers the parent of a session of casts, with a CastAck of the parent's session; at the root nobody is answered.
    ///
    /// Rule: docs/PROTOCOL.md, "CastAck".
    pub fn answer_cast(&self, sent: &mut FrameList, parent: &Parent) -> Result<(), NoMemory>
        requires own { IsName self.now.settings self.now.name }
        requires parent { IsParent self.now.settings parent.now }
        ensures { OnOk result (sent.new ≡ sent.old ++ message_bytes self.now (cast_answer parent.now)) }
    {
        match parent {
            Parent::Root { joiner: _ } => Ok(()),
            Parent::Node { name, session } => self.send(
                sent,
                name,
                Body::CastAck { session: *session },
            ),
        }
    }
}
