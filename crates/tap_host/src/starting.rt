ghost use Rattle.std.specs.Prelude.{◌≡◌, true, IsTrue};
ghost use Rattle.tap_rule.specs.Node.{settings_of};
ghost use Rattle.tap_node.specs.Node.{has_room_left, node_status};
ghost use Rattle.tap_node.specs.Outcome.{AnswersAs, start_outcome};
ghost use Rattle.tap_host_line.specs.Line.{IsNodeStart};
ghost use Rattle.tap_host.specs.Actor.{IsUnmet, has_start, start_of};

use tap_host_line::Start;
use tap_node::{Node, NodeFault, Turn};

// Begins a start, which the status of the node has.
pub(crate) fn begin(node: &mut Node, start: &Start) -> Result<Turn, NodeFault>
    requires room { IsTrue (has_room_left node.old) }
    requires there { has_start (node_status node.old) start.now ≡ true }
    requires valid { IsNodeStart (settings_of node.old.state) start.now }
    requires unmet { IsUnmet node.old.state.casts start.now }
    ensures { AnswersAs (start_outcome node.old (start_of start.now)) node.old result node.new }
{
    match start {
        Start::Join { via } => node.seek_by(*via),
        Start::Abandon => node.abandon(),
        Start::Publish { object } => node.publish(*object),
        Start::Withdraw { object } => node.withdraw(*object),
        Start::Find { ticket, object } => node.find(*ticket, *object),
        Start::Leave => node.leave(),
        Start::Cast {
            number,
            level,
            word,
        } => node.cast(*number, *level, word.as_slice()),
    }
}
