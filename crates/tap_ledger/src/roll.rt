ghost use Rattle.std.specs.Prelude.{◌≡◌, ◌≤◌, ◌+◌, max, IfOk, OnOk, OnErr};
ghost use Rattle.tap_ledger.specs.NameLists.{RollValue, lists_after, lists_of_members};

use crate::names::Names;
use crate::steps::{departs, joins};
use std::alloc::Global;
use std::marker::Model;
use tap_log::{NameKind, NoMemory, Record, name_in};
use tap_name::Name;
use tap_scenario::Step;

// The names that a log tells of, by what it tells of them, with room that was made for more of each.
#[derive(Drop)]
pub(crate) struct Roll {
    core: Names,
    present: Names,
    names: Names,
    gone: Names,
    abandoned: Names,
    departed: Names,
    room: usize,
}

impl Model for Roll {
    ghost use Rattle.std.specs.Prelude.{◌≤◌};
    ghost use Rattle.tap_ledger.specs.NameLists.{RollValue};

    ghost Value = { RollValue };

    ghost view = { λ r. record {
      lists = record {
        core = r.core.names;
        present = r.present.names;
        names = r.names.names;
        gone = r.gone.names;
        abandoned = r.abandoned.names;
        departed = r.departed.names;
      };
      room = r.room;
    } };

    ghost invariant = { λ r. (r.room ≤ r.core.room) × (r.room ≤ r.present.room) × (r.room ≤ r.names.room)
        × (r.room ≤ r.gone.room) × (r.room ≤ r.abandoned.room) × (r.room ≤ r.departed.room) };
}

impl Roll {
    // The members, who are there from the beginning.
    pub(crate) fn of(alloc: Global, members: &[Name]) -> Result<Roll, NoMemory>
        ensures { IfOk result (λ r. r ≡ record { lists = lists_of_members members.now; room = 0 }) }
    {
        Ok(Roll {
            core: Names::of(alloc, members)?,
            present: Names::of(alloc, members)?,
            names: Names::each_once(alloc, members)?,
            gone: Names::new(alloc),
            abandoned: Names::new(alloc),
            departed: Names::new(alloc),
            room: 0,
        })
    }

    // The core nodes.
    pub(crate) fn core(&self) -> &Names
        ensures { result.now.names ≡ self.now.lists.core }
    {
        &self.core
    }

    // The nodes that are present.
    pub(crate) fn present(&self) -> &Names
        ensures { result.now.names ≡ self.now.lists.present }
    {
        &self.present
    }

    // The names that were ever present, each once.
    pub(crate) fn names(&self) -> &Names
        ensures { result.now.names ≡ self.now.lists.names }
    {
        &self.names
    }

    // The nodes that are to give up joining, or have.
    pub(crate) fn abandoned(&self) -> &Names
        ensures { result.now.names ≡ self.now.lists.abandoned }
    {
        &self.abandoned
    }

    // The nodes whose departure was accepted.
    pub(crate) fn departed(&self) -> &Names
        ensures { result.now.names ≡ self.now.lists.departed }
    {
        &self.departed
    }

    // Makes room for so many more names in each list. A refused call changes no list.
    pub(crate) fn reserve(&mut self, more: usize) -> Result<(), NoMemory>
        ensures lists { self.new.lists ≡ self.old.lists }
        ensures ok { OnOk result (self.new.room ≡ max self.old.room more) }
        ensures err { OnErr result (self.new.room ≡ self.old.room) }
    {
        if self.room < more {
            self.core.reserve(more)?;
            self.present.reserve(more)?;
            self.names.reserve(more)?;
            self.gone.reserve(more)?;
            self.abandoned.reserve(more)?;
            self.departed.reserve(more)?;
            self.room = more;
        }
        Ok(())
    }

    // Follows one more record, which accepts this step, if it accepts one. It takes no memory.
    pub(crate) fn change(&mut self, accepted: &Option<Step>, item: &Record)
        requires { 1 ≤ self.old.room }
        ensures lists { self.new.lists ≡ lists_after self.old.lists accepted.now item.now }
        ensures room { self.new.room + 1 ≡ self.old.room }
    {
        self.room -= 1;
        self.core.change(
            name_in(NameKind::Core, item),
            &self.gone,
            name_in(NameKind::Gone, item),
        );
        self.present
            .change(joins(accepted), &self.gone, name_in(NameKind::Gone, item));
        self.names.add_new(joins(accepted));
        self.gone.push_some(name_in(NameKind::Gone, item));
        self.abandoned.push_some(name_in(NameKind::Abandoned, item));
        self.departed.push_some(departs(accepted));
    }
}
