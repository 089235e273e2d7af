ghost use Rattle.std.specs.Prelude.{◌≡◌, ◌==◌, ◌<◌, ◌≤◌, ◌∷◌, ◌++◌, All, insert, vec_len, if◌then◌else◌, None, Some};
ghost use Rattle.std.specs.Prelude.{[], length, slice_get, IfOk, IfErr, OnOk, OnErr};
ghost use Rattle.std.specs.Option.{option_map};
ghost use Rattle.std.specs.Ordering.{is_eq};
ghost use Rattle.std.specs.declared.cmp.Ordering.TheVariants.{Less};
ghost use Rattle.tap_register.specs.Registers.{IsAscending, IsAt, IsGap, applied, entry_of, is_newer, newest};

use crate::memory::NoMemory;
use std::alloc::Global;
use std::marker::Model;

/// What a register keeps: the newest write to its key.
///
/// Rule: docs/PROTOCOL.md, "Versions".
#[derive(Clone, Copy, Debug, PartialEq, Eq)]
pub struct Entry<K, V> {
    /// The key that was written to.
    pub key: K,
    /// The number that the writer gave the write. Of two writes to a key the one with the greater
    /// version is newer.
    pub version: u32,
    /// The value that was written.
    pub value: V,
}

/// Registers of which the last writer wins: under each key the value of the greatest version that
/// was applied.
///
/// Contracts see the list of entries, which ascends strictly by the keys' order. Two keys are the
/// same if their comparison answers `Equal`.
///
/// The entries lie in one sorted vector. A look-up compares the key with about log n of the n
/// others, and takes no memory. A newer version of a key that is there is written in its place; a
/// new key moves the entries after it.
///
/// Rule: docs/PROTOCOL.md, "Versions".
#[derive(Drop)]
pub struct Registers<K: Ord + Copy, V: Copy> {
    entries: Vec<Entry<K, V>>,
}

impl<K: Ord + Copy, V: Copy> Model for Registers<K, V> {
    ghost use Rattle.std.specs.Prelude.{List};
    ghost use Rattle.tap_register.specs.declared.registers.Entry.{Entry};
    ghost use Rattle.tap_register.specs.Registers.{IsAscending};

    ghost Value = { List (Entry K V) };

    ghost view = { λ r. r.entries.items };

    ghost invariant = { λ r. IsAscending K.cmp r.entries.items };
}

impl<K: Ord + Copy, V: Copy> Registers<K, V> {
    /// No registers. This takes no memory; later calls take it of `alloc`.
    pub fn new(alloc: Global) -> Registers<K, V>
        ensures { result ≡ [] }
    {
        Registers {
            entries: Vec::new(alloc),
        }
    }

    /// Keeps the value under the key if the key is absent or its version is less, and answers
    /// whether it was kept.
    ///
    /// A write that is older than the one that is kept, or as old, is answered `Ok(false)`. That and
    /// `Err` leave all as it was, and `Err` comes only at a new key.
    pub fn apply(&mut self, key: K, version: u32, value: V) -> Result<bool, NoMemory>
        ensures answer { IfOk result (λ newer. newer ≡ is_newer K.cmp self.old key version) }
        ensures after { OnOk result (self.new ≡ applied K.cmp self.old key version value) }
        // Each key keeps its newest write.
        ensures look_up { OnOk result ((other : K) →
            entry_of K.cmp self.new other ≡
            (if is_eq (K.cmp key other)
            then Some (newest (entry_of K.cmp self.old key) (record { key = key; version = version; value = value }))
            else entry_of K.cmp self.old other)) }
        ensures same { OnErr result (self.new ≡ self.old) }
        // Only a new key wants memory.
        ensures new_key { OnErr result (entry_of K.cmp self.old key ≡ None) }
    {
        let entry = Entry {
            key,
            version,
            value,
        };
        match search(&self.entries, &key) {
            Ok(at) => {
                if self.entries[at].version >= version {
                    return Ok(false);
                }
                self.entries[at] = entry;
                Ok(true)
            }
            Err(at) => {
                put_in(&mut self.entries, at, entry)?;
                Ok(true)
            }
        }
    }

    /// Adds an entry whose key is above all others. A refused call changes nothing.
    pub fn push_last(&mut self, key: K, version: u32, value: V) -> Result<(), NoMemory>
        requires { All (λ e. K.cmp e.key key ≡ Less) self.old }
        ensures ok { OnOk result (self.new ≡ self.old ++ record { key = key; version = version; value = value } ∷ []) }
        ensures err { OnErr result (self.new ≡ self.old) }
    {
        self.entries.push(Entry {
            key,
            version,
            value,
        })?;
        Ok(())
    }

    /// The value that is kept under the key, and `None` exactly if the key is absent.
    pub fn get(&self, key: K) -> Option<V>
        ensures { result ≡ option_map (λ e. e.value) (entry_of K.cmp self.now key) }
    {
        match search(&self.entries, &key) {
            Ok(at) => Some(self.entries[at].value),
            Err(_) => None,
        }
    }

    /// How many keys there are.
    pub fn len(&self) -> usize
        ensures count { result ≡ length self.now }
        ensures ascending { IsAscending K.cmp self.now }
    {
        self.entries.len()
    }

    /// Whether there is no key.
    pub fn is_empty(&self) -> bool
        ensures { result ≡ (length self.now == 0) }
    {
        self.entries.is_empty()
    }

    /// The entry at a place, counted from 0 in ascending order of keys.
    pub fn entry_at(&self, i: usize) -> Entry<K, V>
        requires { i < length self.now }
        ensures { slice_get self.now i ≡ Some result }
    {
        self.entries[i]
    }

    /// All entries, in ascending order of keys.
    pub fn as_slice(&self) -> &[Entry<K, V>]
        ensures entries { result.now ≡ self.now }
        ensures ascending { IsAscending K.cmp self.now }
    {
        self.entries.as_slice()
    }
}

// The place of the key's entry, or else the place where it would go.
fn search<K: Ord + Copy, V: Copy>(entries: &[Entry<K, V>], key: &K) -> Result<usize, usize>
    requires { IsAscending K.cmp entries.now }
    ensures found { IfOk result (λ at. IsAt K.cmp entries.now key.now at) }
    ensures absent { IfErr result (λ at. IsGap K.cmp entries.now key.now at) }
{
    entries.binary_search_by(|entry| entry.key.cmp(key))
}

// Puts an entry in at a place. Most registers keep one key, so that there is room for no more than the first one at first.
fn put_in<T: Copy>(entries: &mut Vec<T>, at: usize, entry: T) -> Result<(), NoMemory>
    requires { at ≤ vec_len entries.old }
    ensures items { OnOk result (entries.new.items ≡ insert entries.old.items at entry) }
    ensures same { OnErr result (entries.new.items ≡ entries.old.items) }
{
    if entries.is_empty() {
        entries.reserve_exact(1)?;
    }
    entries.insert(at, entry)?;
    Ok(())
}
