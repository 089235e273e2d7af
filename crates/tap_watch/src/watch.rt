ghost use Rattle.std.specs.Prelude.{◌≡◌, ◌↔◌, ◌+◌, ◌-◌, ◌*◌, ◌<◌, [], ◌++◌, length, IsTrue, IfOk, IfSome, IsNone, OnOk, OnErr, All, Contains, slice_get, Some};
ghost use Rattle.tap_name.specs.declared.slot.Slot.{Slot};
ghost use Rattle.tap_name.specs.Name.{IsName};
ghost use Rattle.tap_name.specs.Slot.{Precedes};
ghost use Rattle.tap_watch.specs.Watch.{SlotsAscend, IsWatched, with_last, without};
ghost use Rattle.tap_watch.specs.Level.{full_slots, level_slots};

use crate::memory::NoMemory;
use std::alloc::Global;
use std::marker::Model;
use tap_name::{Name, Settings, Slot};

/// The slots of a joiner that nobody has filled yet, each at most once, ascending by level, then digit.
///
/// Rule: docs/PROTOCOL.md, "Watch lists".
#[derive(Debug, Drop)]
pub struct Watch {
    slots: Vec<Slot>,
}

impl Model for Watch {
    ghost use Rattle.std.specs.Prelude.{List};
    ghost use Rattle.tap_name.specs.declared.slot.Slot.{Slot};
    ghost use Rattle.tap_watch.specs.Watch.{SlotsAscend};

    ghost Value = { List Slot };

    ghost view = { λ w. w.slots.items };

    ghost invariant = { λ w. SlotsAscend w.slots.items };
}

impl Watch {
    /// The watch with no slot. It takes no memory yet.
    pub fn new(alloc: Global) -> Watch
        ensures { result ≡ [] }
    {
        Watch {
            slots: Vec::new(alloc),
        }
    }

    /// All slots of the levels up to `prefix`, but the joiner's own: those that have the joiner's digit at their level.
    ///
    /// Rule: docs/PROTOCOL.md, "Watch lists".
    pub fn full(
        alloc: Global,
        joiner: &Name,
        settings: &Settings,
        prefix: usize,
    ) -> Result<Watch, NoMemory>
        requires is_name { IsName settings.now joiner.now }
        requires within { prefix < settings.now.digits }
        ensures slots { IfOk result (λ w. w ≡ full_slots settings.now joiner.now prefix) }
        ensures watched { IfOk result (λ w. (s : Slot) → Contains w s ↔ IsWatched settings.now joiner.now prefix s) }
        ensures len { IfOk result (λ w. length w ≡ (prefix + 1) * (settings.now.base - 1)) }
    {
        let base = settings.base();
        let count = (prefix + 1) * (base as usize - 1);
        let mut slots = Vec::with_capacity(alloc, count)?;
        for level in 0..prefix + 1 {
            push_level(&mut slots, level as u8, joiner.digit(level), base)?;
        }
        Ok(Watch { slots })
    }

    /// The watch of a vector's slots, which ascend strictly, by level and then digit. It takes no memory.
    pub fn from_vec(slots: Vec<Slot>) -> Watch
        requires { SlotsAscend slots.items }
        ensures { result ≡ slots.items }
    {
        Watch { slots }
    }

    /// The number of slots.
    pub fn len(&self) -> usize
        ensures { result ≡ length self.now }
    {
        self.slots.len()
    }

    /// The slot at a place, from 0.
    pub fn at(&self, i: usize) -> Slot
        requires { i < length self.now }
        ensures { slice_get self.now i ≡ Some result }
    {
        self.slots[i]
    }

    /// The slots, lent.
    pub fn as_slice(&self) -> &[Slot]
        ensures value { result.now ≡ self.now }
        ensures ascending { SlotsAscend self.now }
    {
        self.slots.as_slice()
    }

    /// Whether the slot is there.
    pub fn has(&self, slot: Slot) -> bool
        ensures { IsTrue result ↔ Contains self.now slot }
    {
        self.place_of(slot).is_some()
    }

    /// Takes the slot away, and tells whether it was there.
    pub fn strike(&mut self, slot: Slot) -> bool
        ensures was { IsTrue result ↔ Contains self.old slot }
        ensures left { self.new ≡ without slot self.old }
    {
        match self.place_of(slot) {
            Some(place) => {
                self.slots.remove(place);
                true
            }
            None => false,
        }
    }

    /// A second watch with the same slots.
    pub fn copy(&self) -> Result<Watch, NoMemory>
        ensures { IfOk result (λ w. w ≡ self.now) }
    {
        Ok(Watch {
            slots: self.slots.clone()?,
        })
    }

    /// Adds a slot that stands after all others. A refused call changes nothing.
    pub fn push_last(&mut self, slot: Slot) -> Result<(), NoMemory>
        requires { All (λ s. Precedes s slot) self.old }
        ensures ok { OnOk result (self.new ≡ with_last self.old slot) }
        ensures err { OnErr result (self.new ≡ self.old) }
    {
        self.slots.push(slot)?;
        Ok(())
    }

    // The place of a slot.
    fn place_of(&self, slot: Slot) -> Option<usize>
        ensures some { IfSome result (λ i. slice_get self.now i ≡ Some slot) }
        ensures none { IsNone result → (Contains self.now slot → ⊥) }
    {
        self.slots.binary_search(&slot).ok()
    }
}

// Adds the slots of a level, but the one of the joiner's own digit.
fn push_level(slots: &mut Vec<Slot>, level: u8, own: u8, base: u8) -> Result<(), NoMemory>
    ensures { OnOk result (slots.new.items ≡ slots.old.items ++ level_slots level own base) }
{
    for digit in 0..base {
        if digit != own {
            slots.push(Slot { level, digit })?;
        }
    }
    Ok(())
}
