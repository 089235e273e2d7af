ghost use Rattle.std.specs.Prelude.{◌≡◌, Some, Err, IsSomeAnd, IsTrue};
ghost use Rattle.std.specs.Option.{ForSome};
ghost use Rattle.tap_rule.specs.Node.{settings_of};
ghost use Rattle.tap_node.specs.Node.{has_room_left};
ghost use Rattle.tap_node.specs.Outcome.{AnswersAs, MayWant, answer_lent, empty_turn, start_outcome, take_outcome};
ghost use Rattle.tap_overlay.specs.Overlay.{node_among};
ghost use Rattle.tap_overlay.specs.Start.{MayStart, rule_start};
ghost use Rattle.tap_overlay.specs.Step.{Heeds, IfRoom, MayHeed, StepsAt, answer_given};

use crate::fault::OverlayFault;
use crate::start::Start;
use indexmap::IndexMap;
use tap_name::Name;
use tap_node::{NoMemory, Node, NodeFault, Turn};
use tap_wire::Frame;

// The node of a name takes a frame.
pub(crate) fn take_at(
    nodes: &mut IndexMap<Name, Node>,
    name: &Name,
    bytes: &[u8],
) -> Result<Turn, OverlayFault>
    ensures step { StepsAt (λ node. take_outcome node bytes.now) nodes.old.entries nodes.new.entries name.now result }
    ensures memory { result ≡ Err (OverlayFault.Node NodeFault.NoMemory) → ForSome (node_among nodes.old.entries name.now) (λ node. MayWant node bytes.now) }
{
    if let Some(node) = nodes.get_mut(name) {
        return take_if_room(node, bytes);
    }
    Err(OverlayFault::NoNode)
}

// The receiver of a frame takes it.
#[inline(always)]
pub(crate) fn deliver_at(
    nodes: &mut IndexMap<Name, Node>,
    turn: &mut Turn,
    frame: &Frame,
) -> Result<(), NoMemory>
    requires may { IsSomeAnd (node_among nodes.old.entries frame.now.to) (MayHeed frame.now) }
    requires empty { turn.old ≡ empty_turn }
    ensures { Heeds nodes.old.entries nodes.new.entries (answer_lent result turn.new) frame.now }
{
    let Some(node) = nodes.get_mut(&frame.to) else {
        unreachable!()
    };
    node.take_read(turn, frame)
}

// The node of a name starts something.
pub(crate) fn start_at(
    nodes: &mut IndexMap<Name, Node>,
    name: &Name,
    start: &Start<'_>,
) -> Result<Turn, OverlayFault>
    requires { ForSome (node_among nodes.old.entries name.now) (λ node. MayStart (settings_of node.state) start.now node) }
    ensures { StepsAt (λ node. start_outcome node (rule_start start.now)) nodes.old.entries nodes.new.entries name.now result }
{
    if let Some(node) = nodes.get_mut(name) {
        return start_if_room(node, start);
    }
    Err(OverlayFault::NoNode)
}

// A node takes a frame, if it has room for a step.
#[inline(always)]
fn take_if_room(node: &mut Node, bytes: &[u8]) -> Result<Turn, OverlayFault>
    ensures step { IfRoom (take_outcome node.old bytes.now) node.old node.new result }
    ensures memory { result ≡ Err (OverlayFault.Node NodeFault.NoMemory) → MayWant node.old bytes.now }
{
    if !node.room() {
        return Err(OverlayFault::NoRoom);
    }
    answer_given(node.take(bytes))
}

// A node starts something, if it has room for a step.
fn start_if_room(node: &mut Node, start: &Start<'_>) -> Result<Turn, OverlayFault>
    requires { MayStart (settings_of node.old.state) start.now node.old }
    ensures { IfRoom (start_outcome node.old (rule_start start.now)) node.old node.new result }
{
    if !node.room() {
        return Err(OverlayFault::NoRoom);
    }
    answer_given(start_of(node, start))
}

// A node starts something.
fn start_of(node: &mut Node, start: &Start<'_>) -> Result<Turn, NodeFault>
    requires room { IsTrue (has_room_left node.old) }
    requires may { MayStart (settings_of node.old.state) start.now node.old }
    ensures { AnswersAs (start_outcome node.old (rule_start start.now)) node.old result node.new }
{
    match start {
        Start::Abandon => node.abandon(),
        Start::Publish { object } => node.publish(*object),
        Start::Withdraw { object } => node.withdraw(*object),
        Start::Find { ticket, object } => node.find(*ticket, *object),
        Start::Leave => node.leave(),
        Start::Cast { cast, level, word } => node.cast(*cast, *level, *word),
    }
}

// The answer of a node as the overlay gives it.
fn answer_given(answer: Result<Turn, NodeFault>) -> Result<Turn, OverlayFault>
    ensures { result ≡ answer_given answer }
{
    match answer {
        Ok(turn) => Ok(turn),
        Err(fault) => Err(OverlayFault::Node(fault)),
    }
}
