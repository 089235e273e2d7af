ghost use Rattle.std.specs.Prelude.{◌≡◌, ◌≢◌, ◌+◌, ◌<◌, ◌≤◌, ◌&&◌, [], length, count_by, map, filter, slice_get, Some, None, false, All, Contains, IsOk, IsSome, IsTrue, IfOk, OnOk, OnErr};
ghost use Rattle.tap_link.specs.LinkSet.{is_pinned, is_settled, is_settled_or_leaving};
ghost use Rattle.tap_name.specs.Name.{IsName};
ghost use Rattle.tap_register.specs.Registers.{entry_of, is_newer};
ghost use Rattle.tap_register.specs.Stamp.{HasGivenAtMost};
ghost use Rattle.tap_table.specs.ByName.{targets_by_name};
ghost use Rattle.tap_table.specs.Table.{empty_table, has_room_near, kind_in, links_near, name_cmp, rows};
ghost use Rattle.tap_table.specs.Ties.{AreTies, forgotten, held_word, holders_on, marked, off_ties, offer_tells, offered, pin_tells, pinned, release_tells, released, removed, stamp_after};

use crate::memory::NoMemory;
use crate::off::off_ties;
use crate::rest::{holders_over, sorted_names, table_over};
use crate::table::Table;
use crate::tie::Tie;
use std::alloc::Global;
use std::marker::Model;
use tap_link::{Cease, Forget, Release, Released};
use tap_name::{List, Name, Settings};
use tap_register::{Entry, Registers, Stamp};

/// The links of a node in both directions: its table, and the nodes that have it in theirs.
///
/// These nodes, the holders, tell it so by words with versions, of which the newest of each holder
/// counts. In turn each change of the table that adds a link, or drops one at a release, gives the
/// word for its target, with the next number of the node's stamp.
///
/// Rule: docs/PROTOCOL.md, "Links in both directions".
#[derive(Drop)]
pub struct Ties {
    table: Table,
    holders: Registers<Name, bool>,
}

impl Model for Ties {
    ghost use Rattle.tap_table.specs.Ties.{TiesValue};

    ghost Value = { TiesValue };

    ghost view = { λ t. record { table = t.table; holders = t.holders } };

    ghost use Rattle.tap_table.specs.Ties.{AreTies};

    ghost invariant = { λ t. AreTies (record { table = t.table; holders = t.holders }) };
}

impl Ties {
    ghost use Rattle.tap_name.specs.Distinct.{AreDistinct};
    ghost use Rattle.tap_table.specs.Members.{AreAtRest, ties_at_rest};

    /// No links and no holders. The owner is a name of the settings.
    pub fn new(alloc: Global, owner: Name, settings: &Settings) -> Result<Ties, NoMemory>
        requires { IsName settings.now owner }
        ensures value { IfOk result (λ ties. ties
            ≡ record { table = empty_table settings.now owner; holders = [] }) }
        ensures valid { IfOk result AreTies }
    {
        Ok(Ties {
            table: Table::new(alloc, owner, settings)?,
            holders: Registers::new(alloc),
        })
    }

    /// The ties of an owner in an overlay whose members have all joined.
    ///
    /// Each slot of the table has settled links to the least members that fit it, as many as the
    /// width of the settings allows. The holders are the members whose own tables, so made, have a link
    /// to the owner, all of them heard of with version 0. The members are distinct names of the
    /// settings, and the owner is one of them.
    ///
    /// Rule: docs/PROTOCOL.md, "Slots and tables".
    pub fn at_rest(
        alloc: Global,
        owner: Name,
        settings: &Settings,
        members: &List<Name>,
    ) -> Result<Ties, NoMemory>
        requires names { All (IsName settings.now) members.now }
        requires distinct { AreDistinct members.now }
        requires owner { Contains members.now owner }
        ensures rest { IfOk result (AreAtRest settings.now owner members.now) }
        ensures value { IfOk result (λ ties. ties ≡ ties_at_rest settings.now owner members.now) }
        ensures valid { IfOk result AreTies }
    {
        let sorted = sorted_names(alloc, members)?;
        let names = sorted.as_slice();
        Ok(Ties {
            table: table_over(alloc, owner, settings, names)?,
            holders: holders_over(alloc, &owner, settings, names)?,
        })
    }

    /// The table.
    pub fn table(&self) -> &Table
        ensures value { result.now ≡ self.now.table }
        ensures valid { AreTies self.now }
    {
        &self.table
    }

    /// The newest word of each node that has ever said that it has a link to the owner, or has it no
    /// more, in ascending order of these nodes.
    pub fn holders(&self) -> &[Entry<Name, bool>]
        ensures value { result.now ≡ self.now.holders }
        ensures valid { AreTies self.now }
    {
        self.holders.as_slice()
    }

    /// How many holders have a link to the owner.
    pub fn holder_count(&self) -> usize
        ensures { result ≡ length (holders_on self.now) }
    {
        count_on(self.holders.as_slice())
    }

    /// A holder that has a link to the owner, by its place in ascending order of these, from 0.
    pub fn holder_at(&self, i: usize) -> Name
        requires { i < length (holders_on self.now) }
        ensures { slice_get (holders_on self.now) i ≡ Some result }
    {
        holder_on(self.holders.as_slice(), i)
    }

    /// The holders that have a link to the owner, ascending: `holder_at` of each place, in one pass.
    pub fn holders_on(&self, alloc: Global) -> Result<List<Name>, NoMemory>
        ensures { IfOk result (λ names. names ≡ holders_on self.now) }
    {
        let names = names_on(alloc, self.holders.as_slice())?;
        Ok(List::from_vec(names))
    }

    /// The words for the targets of all links, ascending, that the owner has no link to them any more,
    /// with the next numbers of its stamp. The links stay: they end with the owner.
    ///
    /// If memory is refused, the stamp may have given some of the numbers. It has a number left for each
    /// link.
    pub fn off_ties(&self, alloc: Global, stamp: &mut Stamp) -> Result<List<Tie>, NoMemory>
        requires numbers { stamp.old + length (rows self.now.table) ≤ u32.MAX }
        ensures words { IfOk result (λ words. words ≡ off_ties stamp.old (targets_by_name self.now.table)) }
        ensures stamped { IfOk result (λ words. stamp.new ≡ stamp.old + length (targets_by_name self.now.table)) }
        ensures given { HasGivenAtMost (length (targets_by_name self.now.table)) stamp.old stamp.new }
    {
        let words = off_ties(alloc, stamp, &self.table)?;
        Ok(List::from_vec(words))
    }

    /// Pins a target as the table does, and gives the word for it exactly if it was added.
    ///
    /// `NoMemory` comes only if a link would be added to four links or more. If memory is refused, all
    /// stays as it was. The target is a name of the settings, and not the owner.
    pub fn pin(&mut self, stamp: &mut Stamp, target: Name) -> Result<Option<Tie>, NoMemory>
        requires name { IsName self.old.table.settings target }
        requires other { target ≢ self.old.table.owner }
        requires number { stamp.old < u32.MAX }
        ensures answer { IfOk result (λ tie. tie ≡ pin_tells self.old stamp.old target) }
        ensures after { OnOk result (self.new ≡ pinned self.old target) }
        ensures stamped { OnOk result (stamp.new ≡ stamp_after stamp.old (pin_tells self.old stamp.old target)) }
        ensures same { OnErr result (self.new ≡ self.old) }
        ensures same_stamp { OnErr result (stamp.new ≡ stamp.old) }
        ensures inline { length (links_near self.old.table target) < 4 → IsOk result }
        ensures linked { IsSome (kind_in self.old.table target) → IsOk result }
        ensures owner { self.new.table.owner ≡ self.old.table.owner }
        ensures settings { self.new.table.settings ≡ self.old.table.settings }
    {
        if !self.table.pin(target)? {
            return Ok(None);
        }
        Ok(Some(Tie {
            to: target,
            version: stamp.next(),
            on: true,
        }))
    }

    /// Offers a target to the table, and gives the word for it exactly if it was added.
    ///
    /// `NoMemory` comes only if a link would be added to four links or more. If memory is refused, all
    /// stays as it was. The target is a name of the settings, and not the owner.
    pub fn offer(&mut self, stamp: &mut Stamp, target: Name) -> Result<Option<Tie>, NoMemory>
        requires name { IsName self.old.table.settings target }
        requires other { target ≢ self.old.table.owner }
        requires number { stamp.old < u32.MAX }
        ensures answer { IfOk result (λ tie. tie ≡ offer_tells self.old stamp.old target) }
        ensures after { OnOk result (self.new ≡ offered self.old target) }
        ensures stamped { OnOk result (stamp.new ≡ stamp_after stamp.old (offer_tells self.old stamp.old target)) }
        ensures same { OnErr result (self.new ≡ self.old) }
        ensures same_stamp { OnErr result (stamp.new ≡ stamp.old) }
        ensures inline { length (links_near self.old.table target) < 4 → IsOk result }
        ensures linked { IsSome (kind_in self.old.table target) → IsOk result }
        ensures full { ¬ (IsTrue (has_room_near self.old.table target)) → IsOk result }
        ensures owner { self.new.table.owner ≡ self.old.table.owner }
        ensures settings { self.new.table.settings ≡ self.old.table.settings }
    {
        if !self.table.offer(target)? {
            return Ok(None);
        }
        Ok(Some(Tie {
            to: target,
            version: stamp.next(),
            on: true,
        }))
    }

    /// Takes the release of a node as the table does, and gives the word for it exactly if the pin on it
    /// was dropped; if none was, no number of the stamp is used. Without a pin on the sender nothing
    /// changes. The sender is a name of the settings, and not the owner.
    pub fn release(&mut self, stamp: &mut Stamp, by: Release<Name>) -> Option<Tie>
        requires name { IsName self.old.table.settings by.from }
        requires other { by.from ≢ self.old.table.owner }
        requires number { stamp.old < u32.MAX }
        ensures answer { result ≡ release_tells self.old stamp.old by.from }
        ensures after { self.new ≡ released self.old by.from }
        ensures stamped { stamp.new ≡ stamp_after stamp.old result }
        ensures same_stamp { result ≡ None → stamp.new ≡ stamp.old }
        ensures nothing { is_pinned (kind_in self.old.table by.from) ≡ false → self.new ≡ self.old }
        ensures holders { self.new.holders ≡ self.old.holders }
        ensures owner { self.new.table.owner ≡ self.old.table.owner }
        ensures settings { self.new.table.settings ≡ self.old.table.settings }
    {
        let to = by.from;
        match self.table.release(by) {
            Released::Dropped => Some(Tie {
                to,
                version: stamp.next(),
                on: false,
            }),
            Released::Settled | Released::Nothing => None,
        }
    }

    /// Takes the word of a holder, that it has a link to the owner or has it no more, and answers
    /// whether the word is newer than all of this holder that were taken. An older one changes
    /// nothing, nor does one for which memory is refused, which only the first word of a holder can be.
    /// The holder is a name of the settings, and not the owner.
    pub fn held(&mut self, holder: Name, version: u32, on: bool) -> Result<bool, NoMemory>
        requires name { IsName self.old.table.settings holder }
        requires other { holder ≢ self.old.table.owner }
        ensures answer { IfOk result (λ newer. newer ≡ is_newer name_cmp self.old.holders holder version) }
        ensures after { OnOk result (self.new ≡ held_word self.old holder version on) }
        ensures same { OnErr result (self.new ≡ self.old) }
        ensures new_holder { OnErr result (entry_of name_cmp self.old.holders holder ≡ None) }
        ensures table { self.new.table ≡ self.old.table }
    {
        Ok(self.holders.apply(holder, version, on)?)
    }

    /// Marks the link to a target as leaving: true exactly if it was settled and not leaving. The
    /// target is a name of the settings, and not the owner.
    pub fn mark_leaving(&mut self, target: Name) -> bool
        requires name { IsName self.old.table.settings target }
        requires other { target ≢ self.old.table.owner }
        ensures answer { result ≡ is_settled (kind_in self.old.table target) }
        ensures after { self.new ≡ marked self.old target }
        ensures owner { self.new.table.owner ≡ self.old.table.owner }
        ensures settings { self.new.table.settings ≡ self.old.table.settings }
    {
        self.table.mark_leaving(target)
    }

    /// Takes out the link to a target that is settled or leaving: true exactly if it was. The
    /// target is a name of the settings, and not the owner.
    pub fn remove_settled(&mut self, target: Name) -> bool
        requires name { IsName self.old.table.settings target }
        requires other { target ≢ self.old.table.owner }
        ensures answer { result ≡ is_settled_or_leaving (kind_in self.old.table target) }
        ensures after { self.new ≡ removed self.old target }
        ensures owner { self.new.table.owner ≡ self.old.table.owner }
        ensures settings { self.new.table.settings ≡ self.old.table.settings }
    {
        self.table.remove_settled(target)
    }

    /// Ends the pin on a node that gave up joining: true exactly if it was pinned. The sender is a
    /// name of the settings, and not the owner.
    pub fn forget(&mut self, by: Forget<Name>) -> bool
        requires name { IsName self.old.table.settings by.from }
        requires other { by.from ≢ self.old.table.owner }
        ensures answer { result ≡ is_pinned (kind_in self.old.table by.from) }
        ensures after { self.new ≡ forgotten self.old by.from }
        ensures owner { self.new.table.owner ≡ self.old.table.owner }
        ensures settings { self.new.table.settings ≡ self.old.table.settings }
    {
        self.table.forget(by)
    }

    /// Ends all links, with the owner. It takes no memory.
    ///
    /// It consumes the ties, so there is no value of which an `ensures` could speak.
    pub fn cease(self, by: &Cease<Name>)
        requires { by.now.owner ≡ self.table.owner }
    {
        let Ties { table, holders: _ } = self;
        table.cease(by);
    }
}

// How many holders have a link.
fn count_on(holders: &[Entry<Name, bool>]) -> usize
    ensures { result ≡ count_by (λ e. e.value) holders.now }
{
    holders.iter().filter(|holder| holder.value).count()
}

// The holders that have a link.
fn names_on(alloc: Global, holders: &[Entry<Name, bool>]) -> Result<Vec<Name>, NoMemory>
    ensures { IfOk result (λ names. names.items ≡ map (λ e. e.key) (filter (λ e. e.value) holders.now)) }
{
    Ok(
        holders
            .iter()
            .filter(|holder| holder.value)
            .map(|holder| holder.key)
            .collect(alloc)?,
    )
}

// A holder that has a link, by its place among these.
fn holder_on(holders: &[Entry<Name, bool>], i: usize) -> Name
    requires { i < length (filter (λ e. e.value) holders.now) }
    ensures { slice_get (map (λ e. e.key) (filter (λ e. e.value) holders.now)) i ≡ Some result }
{
    let mut left = i;
    for holder in holders {
        if holder.value {
            if left == 0 {
                return holder.key;
            }
            left -= 1;
        }
    }
    unreachable!()
}
