ghost use Rattle.std.specs.Prelude.{◌≡◌, IfOk, IsTrue, OnOk};
ghost use Rattle.tap_name.specs.Name.{IsName};
ghost use Rattle.tap_rule.specs.Node.{settings_of};
ghost use Rattle.tap_rule.specs.Node.Status.{Core as CoreStatus};
ghost use Rattle.tap_node.specs.Node.{has_room_left};

use anyhow::{Context, Result, bail};
use tap_name::{Name, read_name};
use tap_node::{Node, NodeStatus, Turn};

/// Has a core node publish the object of this text.
pub(crate) fn publish(node: &mut Node, object: &[u8]) -> Result<Turn> {
    check_core(node)?;
    check_room(node)?;
    let object = object_of(node, object)?;
    Ok(node.publish(object)?)
}

/// Has a core node look the object of this text up, under this ticket.
pub(crate) fn find(node: &mut Node, ticket: u32, object: &[u8]) -> Result<Turn> {
    check_core(node)?;
    check_room(node)?;
    let object = object_of(node, object)?;
    Ok(node.find(ticket, object)?)
}

/// The node has room for a step, or there is an error.
pub(crate) fn check_room(node: &Node) -> Result<()>
    ensures { OnOk result (IsTrue (has_room_left node.now)) }
{
    if !node.room() {
        bail!("no room");
    }
    Ok(())
}

// The node is core, or there is an error. It has not ended then, either.
fn check_core(node: &Node) -> Result<()>
    ensures { OnOk result (node.now.state.status ≡ CoreStatus) }
{
    match node.status() {
        NodeStatus::Core => Ok(()),
        _ => bail!("not core"),
    }
}

// The object of this text, a name of the settings of the node's table. A node that is gone, has ceased or has ended has no table.
fn object_of(node: &Node, text: &[u8]) -> Result<Name>
    ensures { IfOk result (IsName (settings_of node.now.state)) }
{
    let table = node.table().context("no table")?;
    Ok(read_name(&table.settings(), text)?)
}
