ghost use Rattle.std.specs.Prelude.{◌≡◌, ◌≤◌, [], not, IfOk, OnOk, None};
ghost use Rattle.std.specs.Map.{lookup};
ghost use Rattle.tap_carry.specs.Inbox.{has_arrived};
ghost use Rattle.tap_carry.specs.Names.{is_name};
ghost use Rattle.tap_packets.specs.Matching.{ArrivesAt};
ghost use Rattle.tap_boxes.specs.Boxes.{inbox_of};

use crate::memory::NoMemory;
use indexmap::IndexMap;
use std::alloc::Global;
use std::marker::Model;
use tap_carry::Inbox;
use tap_name::Name;

// The inboxes of all nodes. That of a node is made as a frame first arrives at it.
#[derive(Drop)]
pub(crate) struct Inboxes {
    boxes: IndexMap<Name, Inbox>,
}

impl Model for Inboxes {
    ghost use Rattle.tap_boxes.specs.Boxes.{InboxesValue};

    ghost Value = { InboxesValue };

    ghost view = { λ i. i.boxes.entries };
}

impl Inboxes {
    // Nothing has arrived at any node. This takes no memory.
    pub(crate) fn new(alloc: Global) -> Inboxes
        ensures { result ≡ [] }
    {
        Inboxes {
            boxes: IndexMap::new(alloc),
        }
    }

    // A number of a sender arrives at the node of this name. The answer is whether it does for the first time.
    pub(crate) fn arrived(
        &mut self,
        alloc: Global,
        name: Name,
        from: Name,
        seq: u32,
    ) -> Result<bool, NoMemory>
        requires { 1 ≤ seq }
        ensures first { IfOk result (λ first. first ≡ not (has_arrived (inbox_of self.old name) from seq)) }
        ensures after { OnOk result (ArrivesAt (inbox_of self.old) (inbox_of self.new) name from seq) }
    {
        if let Some(inbox) = self.boxes.get_mut(&name) {
            return Ok(inbox.arrived(from, seq)?);
        }
        self.arrived_first(alloc, name, from, seq)
    }

    // A number of a sender arrives at a node without an inbox, which is made.
    #[inline(never)]
    fn arrived_first(
        &mut self,
        alloc: Global,
        name: Name,
        from: Name,
        seq: u32,
    ) -> Result<bool, NoMemory>
        requires none { lookup (is_name name) self.old ≡ None }
        requires some { 1 ≤ seq }
        ensures first { IfOk result (λ first. first ≡ not (has_arrived (inbox_of self.old name) from seq)) }
        ensures after { OnOk result (ArrivesAt (inbox_of self.old) (inbox_of self.new) name from seq) }
    {
        let mut inbox = Inbox::new(alloc);
        let first = inbox.arrived(from, seq)?;
        let _ = self.boxes.insert(name, inbox)?;
        Ok(first)
    }
}
