ghost use Rattle.std.specs.Prelude.{◌≡◌, true, false, is_some, None, Some, Err, IfOk, IsErr};
ghost use Rattle.tap_wire.specs.Reading.{frame_of};
ghost use Rattle.tap_history.specs.Refusals.{first_refusal};
ghost use Rattle.tap_runs.specs.Damage.{damage_record};
ghost use Rattle.tap_overlay.specs.Overlay.{node_at};
ghost use Rattle.tap_engine.specs.Kinds.{damages};
ghost use Rattle.tap_engine.specs.Working.{CopiesAt, IsWire};

use crate::damage::{Damage, damaged};
use crate::engine::Engine;
use crate::stop::{NoMemory, Stop};
use tap_log::Record;
use tap_name::Name;
use tap_node::NodeFault;
use tap_overlay::OverlayFault;
use tap_scenario::Step;
use tap_wire::{WireFault, decode_head};

// The damaged copies.
impl Engine {
    ghost use Rattle.tap_engine.specs.KeptEngine.{AreReady, LeadsTo, world_value};
    ghost use Rattle.tap_engine.specs.Outcome.{IsNextIndex, unless_refused};

    /// A step offers a damaged copy of an outstanding frame to its receiver: its group is the step, and why the copy is no frame. The
    /// frame stays outstanding, and no node changes.
    ///
    /// The index is above that of the last step, from 1 on, and 1,000,000 at most. No refusal is left to be noted, and the log hasn't its
    /// end.
    ///
    /// `Refused` comes exactly if the step is refused, with the first refusal whose cause holds: the step is added alone. `NoMemory`
    /// adds nothing, and the engine takes no further call. No other answer comes.
    ///
    /// Rule: docs/FORMATS.md, "The course of a run".
    pub fn garble(&mut self, index: u32, step: &Step) -> Result<(), Stop>
        requires ready { AreReady self.old }
        requires next { IsNextIndex (world_value self.old None false) index }
        requires kind { damages step.now ≡ true }
        ensures leads { LeadsTo (unless_refused (world_value self.old None false) index step.now (first_refusal self.old.ledger.records step.now))
            self.old result self.new }
        ensures alone { self.new ≡ record self.old { ledger = self.new.ledger } }
        ensures added { self.new.ledger.added ≡ self.old.ledger.added }
    {
        if let Some(refusal) = self.refusal_of(step)? {
            self.add_step(index, step);
            return Err(Stop::Refused(refusal));
        }
        let item = self.garbled(step)?;
        self.add_step_with(index, step, item)?;
        Ok(())
    }

    // Why the damaged copy that a step makes is no frame, as its receiver answers.
    fn garbled(&mut self, step: &Step) -> Result<Record, NoMemory>
        requires ready { AreReady self.old }
        requires accepted { first_refusal self.old.ledger.records step.now ≡ None }
        requires kind { damages step.now ≡ true }
        ensures garbled { IfOk result (λ item. Some item ≡ damage_record self.old.settings self.old.ledger.records step.now) }
        ensures same { self.new ≡ self.old }
    {
        let (place, damage) = damage_of(step);
        let Some(flight) = self.ledger.flight_at(place) else {
            unreachable!()
        };
        let number = flight.number;
        let Ok(head) = decode_head(&self.settings, flight.bytes) else {
            unreachable!()
        };
        let copy = damaged(self.alloc, flight.bytes, &damage)?;
        let fault = self.offer(&head.to, copy.as_slice());
        Ok(Record::Garbled { number, fault })
    }

    // Offers bytes that are no frame to the node of a name, which is there: it says why they are none, which takes no memory.
    fn offer(&mut self, name: &Name, bytes: &[u8]) -> WireFault
        requires ready { AreReady self.old }
        requires there { is_some (node_at self.old.overlay name.now) ≡ true }
        requires unread { IsErr (frame_of self.old.settings bytes.now) }
        ensures fault { frame_of self.old.settings bytes.now ≡ Err result }
        ensures same { self.new ≡ self.old }
    {
        match self.overlay.take(name, bytes) {
            Ok(_) => unreachable!(),
            Err(fault) => wire_fault(fault),
        }
    }
}

// Why bytes are no frame, as the node has answered that has taken them.
fn wire_fault(fault: OverlayFault) -> WireFault
    requires { IsWire fault }
    ensures { fault ≡ OverlayFault.Node (NodeFault.Wire result) }
{
    match fault {
        OverlayFault::Node(fault) => match fault {
            NodeFault::Wire(fault) => fault,
            NodeFault::NotMine(_) | NodeFault::Strange | NodeFault::NoMemory | NodeFault::Ended => {
                unreachable!()
            }
        },
        OverlayFault::NoNode | OverlayFault::NoRoom => unreachable!(),
    }
}

// The place of the frame that a step copies which offers a damaged one, and how it damages the copy.
#[tactic(auto, unfolding(crate::specs::Kinds::damages))]
fn damage_of(step: &Step) -> (u32, Damage)
    requires { damages step.now ≡ true }
    ensures { CopiesAt step.now result }
{
    match step {
        Step::Garble { place, at, byte } => {
            let damage = Damage::Byte {
                at: *at,
                byte: *byte,
            };
            (*place, damage)
        }
        Step::Cut { place, bytes } => (*place, Damage::Cut { bytes: *bytes }),
        _ => unreachable!(),
    }
}
