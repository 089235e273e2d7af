ghost use Rattle.std.specs.Prelude.{◌≡◌, true, [], None, IfOk, OnOk, OnErr};
ghost use Rattle.std.specs.List.{list_any};
ghost use Rattle.tap_name.specs.Order.{name_cmp};
ghost use Rattle.tap_register.specs.Registers.{entry_of, is_newer};
ghost use Rattle.tap_pointer.specs.Pointers.{change_between, is_held, is_held_or_laid, level_held, nothing_known, with_lay, with_laid, with_published};

use crate::change::Change;
use crate::hop::Hop;
use std::alloc::Global;
use tap_name::Name;
use tap_register::{Entry, Registers};
use tap_table::NoMemory;

// What the newest Lay of a sender said: whether it has laid the pair here, and at which level.
#[derive(Clone, Copy, Debug, PartialEq, Eq)]
pub(crate) struct Pointer {
    pub(crate) level: u8,
    pub(crate) on: bool,
}

// What a node knows of a pair: whether it publishes the object itself, the register of each sender, and where the pair is
// laid on to.
#[derive(Drop)]
pub(crate) struct PairState {
    pub(crate) published: bool,
    pub(crate) registers: Registers<Name, Pointer>,
    pub(crate) laid: Option<Hop>,
}

impl PairState {
    // Nothing is known. This takes no memory.
    pub(crate) fn new(alloc: Global) -> PairState
        ensures { result ≡ nothing_known }
    {
        PairState {
            published: false,
            registers: Registers::new(alloc),
            laid: None,
        }
    }

    // Sets whether the node publishes the object.
    pub(crate) fn set_published(&mut self, published: bool) -> Change
        ensures after { self.new ≡ with_published self.old published }
        ensures change { result ≡ change_between self.old (with_published self.old published) }
    {
        let was = self.is_held_or_laid();
        self.published = published;
        Change {
            was,
            is: self.is_held_or_laid(),
        }
    }

    // Sets where the pair is laid on to.
    pub(crate) fn set_laid(&mut self, laid: &Option<Hop>) -> Change
        ensures after { self.new ≡ with_laid self.old laid.now }
        ensures change { result ≡ change_between self.old (with_laid self.old laid.now) }
    {
        let was = self.is_held_or_laid();
        self.laid = *laid;
        Change {
            was,
            is: self.is_held_or_laid(),
        }
    }

    // Takes a Lay, and answers whether it was newer than what the sender's register has.
    pub(crate) fn take(
        &mut self,
        from: Name,
        version: u32,
        pointer: Pointer,
    ) -> Result<(bool, Change), NoMemory>
        ensures answer { IfOk result (λ r. r.0 ≡ is_newer name_cmp self.old.registers from version) }
        ensures change { IfOk result (λ r. r.1 ≡ change_between self.old (with_lay self.old from version pointer)) }
        ensures after { OnOk result (self.new ≡ with_lay self.old from version pointer) }
        ensures same { OnErr result (self.new ≡ self.old) }
        ensures new_sender { OnErr result (entry_of name_cmp self.old.registers from ≡ None) }
    {
        let was = self.is_held_or_laid();
        let newer = self.registers.apply(from, version, pointer)?;
        let change = Change {
            was,
            is: self.is_held_or_laid(),
        };
        Ok((newer, change))
    }

    // Whether the pair is held: the node publishes it, or the register of a sender is on.
    pub(crate) fn is_held(&self) -> bool
        ensures { result ≡ is_held self.now }
    {
        if self.published {
            return true;
        }
        is_any_on(self.registers.as_slice())
    }

    // Whether the pair is held or laid.
    pub(crate) fn is_held_or_laid(&self) -> bool
        ensures { result ≡ is_held_or_laid self.now }
    {
        self.is_held() || self.laid.is_some()
    }

    // The level at which the pair is held.
    pub(crate) fn level_held(&self) -> Option<u8>
        ensures { result ≡ level_held self.now }
    {
        if self.published {
            return Some(0);
        }
        let mut least = None;
        for register in self.registers.as_slice() {
            if register.value.on {
                let level = register.value.level;
                least = Some(least.unwrap_or(level).min(level));
            }
        }
        least
    }
}

// Whether a register is on.
fn is_any_on(registers: &[Entry<Name, Pointer>]) -> bool
    ensures { result ≡ list_any (λ r. r.value.on) registers.now }
{
    registers.iter().any(|register| register.value.on)
}
