ghost use Rattle.std.specs.Prelude.{◌≡◌, ◌+◌, ◌*◌, ◌≤◌, ◌++◌, length, IfOk, OnOk};
ghost use Rattle.tap_name.specs.Name.{IsName};
ghost use Rattle.tap_pointer.specs.Pointers.{held_or_laid_count, pair_of};
ghost use Rattle.tap_pointer.specs.Reconcile.{AreLaid, AreLaidBeside, AreLaidBut, reconcile_lays, reconciled};
ghost use Rattle.tap_rule.specs.Pointers.{starts_find, takes_find};
ghost use Rattle.tap_wire.specs.Spelling.{IsLevel};
ghost use Rattle.tap_node_common.specs.Pointing.{EachStepsAs, lay_taken};
ghost use Rattle.tap_node_common.specs.Sender.{lay_bytes, sender_of};
ghost use Rattle.tap_node_common.specs.SoundNode.{AreNamedHops, PairsHaveNames};

use crate::frame_list::FrameList;
use crate::memory::NoMemory;
use crate::news::News;
use crate::sender::Sender;
use tap_name::Name;
use tap_pointer::Pointers;
use tap_register::Stamp;
use tap_table::{Next, Table};
use tap_wire::Body;

/// Lays all pairs as wanted, and sends the Lays that this takes, with the next numbers of the stamp.
///
/// The table is the node's. The pairs are of names, and laid on to names; the stamp has two numbers left for each pair that is held
/// or laid. Once memory was refused, the pointers are used no more.
///
/// Rule: docs/PROTOCOL.md, "Pointers".
pub fn reconcile(
    pointers: &mut Pointers,
    table: &Table,
    stamp: &mut Stamp,
    sent: &mut FrameList,
) -> Result<(), NoMemory>
    requires owner { table.now.owner ≡ pointers.old.owner }
    requires names { PairsHaveNames table.now.settings pointers.old }
    requires hops { AreNamedHops table.now.settings pointers.old }
    requires numbers { stamp.old + 2 * held_or_laid_count pointers.old.pairs ≤ u32.MAX }
    ensures after { OnOk result (pointers.new ≡ reconciled table.now pointers.old) }
    ensures stamped { OnOk result (stamp.new ≡ stamp.old + length (reconcile_lays table.now stamp.old pointers.old)) }
    ensures sent { OnOk result (sent.new
        ≡ sent.old ++ lay_bytes (sender_of table.now) (reconcile_lays table.now stamp.old pointers.old)) }
{
    // The contract of this call says that the pointers are in order.
    let _owner = pointers.owner();
    let lays = pointers.reconcile(table, stamp)?;
    Sender::of(table).send_lays(sent, &lays)
}

/// Does what `reconcile` does, if no pair needs it but those whose way passes this level: each other pair is laid as wanted. So it
/// serves after a step that changed primaries of this level alone.
///
/// Rule: docs/PROTOCOL.md, "Pointers".
pub fn reconcile_at(
    pointers: &mut Pointers,
    table: &Table,
    stamp: &mut Stamp,
    sent: &mut FrameList,
    level: u8,
) -> Result<(), NoMemory>
    requires owner { table.now.owner ≡ pointers.old.owner }
    requires names { PairsHaveNames table.now.settings pointers.old }
    requires hops { AreNamedHops table.now.settings pointers.old }
    requires numbers { stamp.old + 2 * held_or_laid_count pointers.old.pairs ≤ u32.MAX }
    requires others { AreLaidBeside table.now level pointers.old }
    ensures after { OnOk result (pointers.new ≡ reconciled table.now pointers.old) }
    ensures stamped { OnOk result (stamp.new ≡ stamp.old + length (reconcile_lays table.now stamp.old pointers.old)) }
    ensures sent { OnOk result (sent.new
        ≡ sent.old ++ lay_bytes (sender_of table.now) (reconcile_lays table.now stamp.old pointers.old)) }
{
    // The contract of this call says that the pointers are in order.
    let _owner = pointers.owner();
    let lays = pointers.reconcile_at(table, stamp, level)?;
    Sender::of(table).send_lays(sent, &lays)
}

/// Does what `reconcile` does, if no pair but this one needs it: each other pair is laid as wanted. It looks at this pair alone, and
/// two numbers of the stamp are enough.
///
/// Rule: docs/PROTOCOL.md, "Pointers".
pub fn reconcile_pair(
    pointers: &mut Pointers,
    table: &Table,
    stamp: &mut Stamp,
    sent: &mut FrameList,
    object: Name,
    server: Name,
) -> Result<(), NoMemory>
    requires owner { table.now.owner ≡ pointers.old.owner }
    requires names { PairsHaveNames table.now.settings pointers.old }
    requires hops { AreNamedHops table.now.settings pointers.old }
    requires numbers { stamp.old + 2 ≤ u32.MAX }
    requires others { AreLaidBut table.now (pair_of object server) pointers.old }
    ensures after { OnOk result (pointers.new ≡ reconciled table.now pointers.old) }
    ensures stamped { OnOk result (stamp.new ≡ stamp.old + length (reconcile_lays table.now stamp.old pointers.old)) }
    ensures sent { OnOk result (sent.new
        ≡ sent.old ++ lay_bytes (sender_of table.now) (reconcile_lays table.now stamp.old pointers.old)) }
{
    // The contract of this call says that the pointers are in order.
    let _owner = pointers.owner();
    let lays = pointers.reconcile_pair(table, stamp, object, server)?;
    Sender::of(table).send_lays(sent, &lays)
}

/// A Lay, as it is taken.
///
/// Rule: docs/PROTOCOL.md, "Lay".
#[derive(Clone, Copy)]
pub struct TakenLay {
    /// Who sent it.
    pub from: Name,
    /// The object of the pair.
    pub object: Name,
    /// The server of the pair.
    pub server: Name,
    /// The level from which the receiver goes on, from 1 to the number of digits.
    pub level: u8,
    /// The number of the Lay among its sender's.
    pub version: u32,
    /// Whether the sender has laid the pair on to the receiver, or has it there no more.
    pub on: bool,
}

/// Takes a Lay at a core or leaving node: the register of the pair and the sender takes it, and the pair is laid as wanted.
///
/// The table is the node's. Each pair is of names and laid as wanted, on to names, and the stamp has two numbers left. Once memory
/// was refused, the pointers are used no more.
///
/// Rule: docs/PROTOCOL.md, "Lay".
pub fn take_lay(
    pointers: &mut Pointers,
    table: &Table,
    stamp: &mut Stamp,
    sent: &mut FrameList,
    lay: &TakenLay,
) -> Result<(), NoMemory>
    requires owner { table.now.owner ≡ pointers.old.owner }
    requires names { PairsHaveNames table.now.settings pointers.old }
    requires hops { AreNamedHops table.now.settings pointers.old }
    requires laid { AreLaid table.now pointers.old }
    requires numbers { stamp.old + 2 ≤ u32.MAX }
    requires object { IsName table.now.settings lay.now.object }
    requires server { IsName table.now.settings lay.now.server }
    requires level { IsLevel table.now.settings lay.now.level }
    ensures after { OnOk result (pointers.new ≡ reconciled table.now (lay_taken pointers.old lay.now)) }
    ensures stamped { OnOk result (stamp.new
        ≡ stamp.old + length (reconcile_lays table.now stamp.old (lay_taken pointers.old lay.now))) }
    ensures sent { OnOk result (sent.new
        ≡ sent.old ++ lay_bytes (sender_of table.now) (reconcile_lays table.now stamp.old (lay_taken pointers.old lay.now))) }
{
    // The contract of this call says that the pointers are in order.
    let _owner = pointers.owner();
    let lays = pointers.take_lay(
        table,
        stamp,
        lay.from,
        lay.object,
        lay.server,
        lay.level,
        lay.version,
        lay.on,
    )?;
    Sender::of(table).send_lays(sent, &lays)
}

/// A Find, as it is taken.
///
/// Rule: docs/PROTOCOL.md, "Find".
#[derive(Clone, Copy)]
pub struct TakenFind {
    /// The number of the lookup at its asker.
    pub ticket: u32,
    /// The object.
    pub object: Name,
    /// Who looks it up.
    pub asker: Name,
    /// The level from which the receiver goes on, from 1 to the number of digits.
    pub level: u8,
}

/// Takes a Find at a core or leaving node: the asker is answered with the least server that is held for the object. Without one the
/// Find goes on, and at the root the answer has none.
///
/// The table is the node's, and the pairs are of names.
///
/// Rule: docs/PROTOCOL.md, "Find".
pub fn take_find(
    pointers: &Pointers,
    table: &Table,
    sent: &mut FrameList,
    find: &TakenFind,
) -> Result<(), NoMemory>
    requires names { PairsHaveNames table.now.settings pointers.now }
    requires object { IsName table.now.settings find.now.object }
    requires asker { IsName table.now.settings find.now.asker }
    requires level { find.now.level ≤ table.now.settings.digits }
    ensures { OnOk result (EachStepsAs table.now pointers.now
        (λ node. takes_find node find.now.ticket find.now.object find.now.asker find.now.level) sent.old sent.new News.Nothing) }
{
    let sender = Sender::of(table);
    let ticket = find.ticket;
    if let Some(server) = pointers.lookup(find.object) {
        let server = Some(server);
        return sender.send(sent, &find.asker, Body::Answer { ticket, server });
    }
    match table.next_hop(&find.object, find.level as usize) {
        Next::Root => {
            let server = None;
            sender.send(sent, &find.asker, Body::Answer { ticket, server })
        }
        Next::Hop { to, level } => {
            let body = Body::Find {
                ticket,
                object: find.object,
                asker: find.asker,
                level,
            };
            sender.send(sent, &to, body)
        }
    }
}

/// Starts a lookup at a core node: the least server that is held for the object answers it. Without one a Find goes on, and at the
/// root it is answered with none.
///
/// The table is the node's, and the pairs are of names.
///
/// Rule: docs/PROTOCOL.md, "Find".
pub fn ask(
    pointers: &Pointers,
    table: &Table,
    sent: &mut FrameList,
    ticket: u32,
    object: Name,
) -> Result<News, NoMemory>
    requires names { PairsHaveNames table.now.settings pointers.now }
    requires object { IsName table.now.settings object }
    ensures { IfOk result (λ news. EachStepsAs table.now pointers.now (λ node. starts_find node ticket object) sent.old sent.new news) }
{
    if let Some(server) = pointers.lookup(object) {
        let server = Some(server);
        return Ok(News::Answered { ticket, server });
    }
    match table.next_hop(&object, 0) {
        Next::Root => {
            let server = None;
            Ok(News::Answered { ticket, server })
        }
        Next::Hop { to, level } => {
            let body = Body::Find {
                ticket,
                object,
                asker: table.owner(),
                level,
            };
            Sender::of(table).send(sent, &to, body)?;
            Ok(News::Nothing)
        }
    }
}
