ghost use Rattle.std.specs.Prelude.{◌≡◌, ◌≢◌, ◌&&◌, [], ◌∷◌, ◌++◌, if◌then◌else◌, OnOk};
ghost use Rattle.tap_name.specs.Name.{IsName};
ghost use Rattle.tap_name.specs.Order.{name_cmp};
ghost use Rattle.tap_register.specs.Registers.{is_newer};
ghost use Rattle.tap_table.specs.Ties.{held_word};
ghost use Rattle.tap_rule.specs.Reaction.{message};
ghost use Rattle.tap_node_common.specs.Sender.{message_bytes, sender_of};

use crate::frame_list::FrameList;
use crate::memory::NoMemory;
use crate::sender::Sender;
use tap_name::Name;
use tap_table::Ties;
use tap_wire::Body;

/// Takes a Link at a core or leaving node: the register of its holders takes the word, and a new link is answered with a Release.
/// The holder is a name of the settings, and not the node.
///
/// Rule: docs/PROTOCOL.md, "Link".
pub fn hear_and_release(
    ties: &mut Ties,
    sent: &mut FrameList,
    holder: Name,
    version: u32,
    on: bool,
) -> Result<(), NoMemory>
    requires name { IsName ties.old.table.settings holder }
    requires other { holder ≢ ties.old.table.owner }
    ensures after { OnOk result (ties.new ≡ held_word ties.old holder version on) }
    ensures sent { OnOk result (sent.new ≡ sent.old ++ message_bytes (sender_of ties.old.table)
        (if is_newer name_cmp ties.old.holders holder version && on then message holder Body.Release ∷ [] else [])) }
{
    let newer = ties.held(holder, version, on)?;
    if !newer || !on {
        return Ok(());
    }
    Sender::of(ties.table()).send(sent, &holder, Body::Release)
}
