ghost use Rattle.std.specs.Prelude.{◌≡◌, ◌≤◌, ◌+◌, max, [], ◌∷◌, ◌++◌, fold, length, IfOk, OnOk, OnErr};
ghost use Rattle.tap_name.specs.Names.{has_name, names_without};
ghost use Rattle.tap_log.specs.MoreRecords.{at_most_one};
ghost use Rattle.tap_history.specs.Names.{with_name};
ghost use Rattle.tap_ledger.specs.NameLists.{NamesValue, names_changed};

use std::alloc::Global;
use std::collections::HashSet;
use std::marker::Model;
use tap_log::NoMemory;
use tap_name::Name;

// Names in order, with room that was made for more, and the set of them, in which a name is found by its hash.
#[derive(Drop)]
pub(crate) struct Names {
    items: Vec<Name>,
    found: HashSet<Name>,
    room: usize,
}

impl Model for Names {
    ghost use Rattle.std.specs.Prelude.{◌+◌, ◌≤◌, vec_len, vec_capacity};
    ghost use Rattle.std.specs.HashSet.{spare};
    ghost use Rattle.tap_ledger.specs.NameLists.{HaveSame, NamesValue};

    ghost Value = { NamesValue };

    ghost view = { λ n. record { names = n.items.items; room = n.room } };

    ghost invariant = { λ n. record {
      in_list : vec_len n.items + n.room ≤ vec_capacity n.items;
      in_set : n.room ≤ spare n.found;
      same : HaveSame n.items.items n.found.keys;
    } };
}

impl Names {
    // No name. It takes no memory yet.
    pub(crate) fn new(alloc: Global) -> Names
        ensures { result ≡ record { names = []; room = 0 } }
    {
        Names {
            items: Vec::new(alloc),
            found: HashSet::new(alloc),
            room: 0,
        }
    }

    // These names.
    pub(crate) fn of(alloc: Global, names: &[Name]) -> Result<Names, NoMemory>
        ensures { IfOk result (λ n. n ≡ record { names = names.now; room = 0 }) }
    {
        let mut all = Names::new(alloc);
        for name in names {
            all.add(*name)?;
        }
        Ok(all)
    }

    // These names, each once.
    pub(crate) fn each_once(alloc: Global, names: &[Name]) -> Result<Names, NoMemory>
        ensures { IfOk result (λ n. n ≡ record { names = fold with_name [] names.now; room = 0 }) }
    {
        let mut all = Names::new(alloc);
        for name in names {
            if !all.has(name) {
                all.add(*name)?;
            }
        }
        Ok(all)
    }

    pub(crate) fn len(&self) -> usize
        ensures { result ≡ length self.now.names }
    {
        self.items.len()
    }

    pub(crate) fn as_slice(&self) -> &[Name]
        ensures { result.now ≡ self.now.names }
    {
        self.items.as_slice()
    }

    pub(crate) fn has(&self, name: &Name) -> bool
        ensures { result ≡ has_name self.now.names name.now }
    {
        !self.items.is_empty() && self.found.contains(name)
    }

    // Makes room for so many more names. A refused call changes nothing.
    pub(crate) fn reserve(&mut self, more: usize) -> Result<(), NoMemory>
        ensures names { self.new.names ≡ self.old.names }
        ensures ok { OnOk result (self.new.room ≡ max self.old.room more) }
        ensures err { OnErr result (self.new ≡ self.old) }
    {
        if self.room < more {
            self.items.reserve(more)?;
            self.found.reserve(more)?;
            self.room = more;
        }
        Ok(())
    }

    // Adds a name at the end, and makes room for it if there is none.
    fn add(&mut self, name: Name) -> Result<(), NoMemory>
        ensures names { OnOk result (self.new.names ≡ self.old.names ++ name ∷ []) }
        ensures room { OnOk result (self.new.room + 1 ≡ max self.old.room 1) }
    {
        self.reserve(1)?;
        self.push(name);
        Ok(())
    }

    // Adds a name for which there is room.
    fn push(&mut self, name: Name)
        requires { 1 ≤ self.old.room }
        ensures names { self.new.names ≡ self.old.names ++ name ∷ [] }
        ensures room { self.new.room + 1 ≡ self.old.room }
    {
        self.room -= 1;
        self.items.push_reserved(name);
        self.found.insert(name).unwrap();
    }

    // Adds a name, if there is one.
    pub(crate) fn push_some(&mut self, name: Option<Name>)
        requires { 1 ≤ self.old.room }
        ensures names { self.new.names ≡ self.old.names ++ at_most_one name }
        ensures room { self.old.room ≤ self.new.room + 1 }
    {
        match name {
            Some(name) => self.push(name),
            None => {}
        }
    }

    // Adds a name, if there is one and it is new.
    pub(crate) fn add_new(&mut self, name: Option<Name>)
        requires { 1 ≤ self.old.room }
        ensures names { self.new.names ≡ fold with_name self.old.names (at_most_one name) }
        ensures room { self.old.room ≤ self.new.room + 1 }
    {
        match name {
            Some(name) => {
                if !self.has(&name) {
                    self.push(name);
                }
            }
            None => {}
        }
    }

    // Takes a name away, wherever it stands.
    fn remove(&mut self, name: Name)
        ensures names { self.new.names ≡ names_without self.old.names (name ∷ []) }
        ensures room { self.new.room ≡ self.old.room }
    {
        self.items.retain(|other| name != *other);
        self.found.remove(&name);
    }

    // Takes a name away, if there is one.
    fn remove_some(&mut self, name: Option<Name>)
        ensures names { self.new.names ≡ names_without self.old.names (at_most_one name) }
        ensures room { self.new.room ≡ self.old.room }
    {
        match name {
            Some(name) => self.remove(name),
            None => {}
        }
    }

    // Adds a name, if there is one that isn't gone.
    fn push_unless_gone(&mut self, came: Option<Name>, gone: &Names)
        requires { 1 ≤ self.old.room }
        ensures names { self.new.names ≡ self.old.names ++ names_without (at_most_one came) gone.now.names }
        ensures room { self.old.room ≤ self.new.room + 1 }
    {
        match came {
            Some(name) => {
                if !gone.has(&name) {
                    self.push(name);
                }
            }
            None => {}
        }
    }

    // Adds a name that came, unless it is gone, and takes away one that goes.
    pub(crate) fn change(&mut self, came: Option<Name>, gone: &Names, goes: Option<Name>)
        requires { 1 ≤ self.old.room }
        ensures names { self.new.names ≡ names_changed self.old.names came gone.now.names goes }
        ensures room { self.old.room ≤ self.new.room + 1 }
    {
        self.push_unless_gone(came, gone);
        self.remove_some(goes);
    }
}
