ghost use Rattle.std.specs.Prelude.{◌≡◌, ◌≤◌, ◌<◌, ◌+◌, ◌-◌, max, [], ◌∷◌, ◌++◌, length, OnOk, OnErr, slice_get, Some};
ghost use Rattle.tap_log.specs.Log.{LogValue};

use crate::record::Record;
use std::alloc::{AllocError, AllocFailed, Global};
use std::error::Error;
use std::fmt;
use std::marker::Model;

/// Memory was refused.
///
/// Rule: docs/DECISIONS.md, "The logs of a run".
#[derive(Clone, Copy, Debug, PartialEq, Eq)]
pub struct NoMemory;

impl fmt::Display for NoMemory {
    fn fmt<W: fmt::Write>(&self, f: &mut fmt::Formatter<W>) -> fmt::Result {
        f.write_str("no memory")
    }
}

impl Error for NoMemory {}

impl From<AllocError> for NoMemory {
    fn from(_: AllocError) -> NoMemory {
        NoMemory
    }
}

impl<T: Drop> From<AllocFailed<T>> for NoMemory {
    fn from(_: AllocFailed<T>) -> NoMemory {
        NoMemory
    }
}

impl From<tap_name::NoMemory> for NoMemory {
    fn from(_: tap_name::NoMemory) -> NoMemory {
        NoMemory
    }
}

impl From<tap_wire::NoMemory> for NoMemory {
    fn from(_: tap_wire::NoMemory) -> NoMemory {
        NoMemory
    }
}

/// A list of records, which only grows. Contracts see the records, and for how many more there is room.
///
/// Rule: docs/FORMATS.md, "Groups and moments".
#[derive(Debug, Drop)]
pub struct Log {
    items: Vec<Record>,
    spare: usize,
}

impl Model for Log {
    ghost use Rattle.std.specs.Prelude.{◌+◌, ◌≤◌, vec_len, vec_capacity};
    ghost use Rattle.tap_log.specs.Log.{LogValue};

    ghost Value = { LogValue };

    ghost view = { λ l. record { records = l.items.items; spare = l.spare } };

    ghost invariant = { λ l. vec_len l.items + l.spare ≤ vec_capacity l.items };
}

impl Log {
    /// The log with no record. It takes no memory yet.
    ///
    /// Rule: docs/FORMATS.md, "Groups and moments".
    pub fn new(alloc: Global) -> Log
        ensures { result ≡ record { records = []; spare = 0 } }
    {
        Log {
            items: Vec::new(alloc),
            spare: 0,
        }
    }

    /// The number of records.
    ///
    /// Rule: docs/FORMATS.md, "Groups and moments".
    pub fn len(&self) -> usize
        ensures { result ≡ length self.now.records }
    {
        self.items.len()
    }

    /// The record at a place, from 0.
    ///
    /// Rule: docs/FORMATS.md, "Groups and moments".
    pub fn at(&self, i: usize) -> &Record
        requires { i < length self.now.records }
        ensures { slice_get self.now.records i ≡ Some result.now }
    {
        &self.items[i]
    }

    /// The records, lent.
    ///
    /// Rule: docs/FORMATS.md, "Groups and moments".
    pub fn as_slice(&self) -> &[Record]
        ensures { result.now ≡ self.now.records }
    {
        self.items.as_slice()
    }

    /// Adds a record at the end. A refused push changes nothing.
    ///
    /// Rule: docs/FORMATS.md, "Groups and moments".
    pub fn push(&mut self, item: Record) -> Result<(), NoMemory>
        ensures ok { OnOk result (self.new.records ≡ self.old.records ++ item ∷ []) }
        ensures spare { OnOk result (self.new.spare ≡ self.old.spare - 1) }
        ensures err { OnErr result (self.new ≡ self.old) }
    {
        self.items.push(item)?;
        self.spare = self.spare.saturating_sub(1);
        Ok(())
    }

    /// Makes room for so many more records. A refused call changes nothing.
    ///
    /// Rule: docs/DECISIONS.md, "The logs of a run".
    pub fn reserve(&mut self, more: usize) -> Result<(), NoMemory>
        ensures records { self.new.records ≡ self.old.records }
        ensures ok { OnOk result (self.new.spare ≡ max self.old.spare more) }
        ensures err { OnErr result (self.new ≡ self.old) }
    {
        if self.spare < more {
            self.items.reserve(more)?;
            self.spare = more;
        }
        Ok(())
    }

    /// Adds a record for which there is room. It takes no memory.
    ///
    /// Rule: docs/DECISIONS.md, "The logs of a run".
    #[inline(always)]
    pub fn push_reserved(&mut self, item: Record)
        requires { 1 ≤ self.old.spare }
        ensures records { self.new.records ≡ self.old.records ++ item ∷ [] }
        ensures spare { self.new.spare + 1 ≡ self.old.spare }
    {
        self.spare -= 1;
        self.items.push_reserved(item);
    }
}
