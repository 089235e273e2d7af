ghost use Rattle.std.specs.Prelude.{◌≡◌, ◌++◌, OnOk};
ghost use Rattle.tap_session.specs.Sessions.{answer_to, answered_at, session_of};
ghost use Rattle.tap_rule.specs.Answers.{answer_sends};
ghost use Rattle.tap_name.specs.Name.{IsName};
ghost use Rattle.tap_node_common.specs.Sender.{message_bytes};
ghost use Rattle.tap_node_common.specs.SoundNode.{HaveParents};

use crate::frame_list::FrameList;
use crate::memory::NoMemory;
use crate::sender::Sender;
use tap_session::{Answered, Sessions};

/// Takes a Heard or an Ack: the session of joins of this number, if it is open, has one answer more. After the last one it closes,
/// and its parent is answered.
///
/// Rule: docs/PROTOCOL.md, "Heard and Ack".
pub fn take_answer(
    sessions: &mut Sessions,
    sender: &Sender,
    sent: &mut FrameList,
    session: u32,
) -> Result<(), NoMemory>
    requires own { IsName sender.now.settings sender.now.name }
    requires parents { HaveParents sender.now.settings sessions.old }
    ensures after { sessions.new ≡ answered_at sessions.old session }
    ensures sent { OnOk result (sent.new
        ≡ sent.old ++ message_bytes sender.now (answer_sends (answer_to (session_of sessions.old.sessions session)))) }
{
    match sessions.answered(session) {
        Answered::Closed(parent) => sender.answer(sent, &parent),
        Answered::Open | Answered::Unknown => Ok(()),
    }
}
