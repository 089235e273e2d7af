ghost use Rattle.std.specs.Prelude.{◌≡◌, ◌==◌, ℕ, List, [], ◌≢◌, ◌≤◌, ◌<◌, ◌↔◌, ◌+◌, ◌*◌, ◌&&◌, length, map, drop, slice_get, slice_index, false, Some, IsOk, IsSome, IsTrue, IfOk, OnOk, OnErr};
ghost use Rattle.std.specs.List.{slice_index_or};
ghost use Rattle.std.specs.Option.{is_none};
ghost use Rattle.tap_link.specs.LinkSet.{is_pinned, is_settled, is_settled_or_leaving, least_settled, released_as};
ghost use Rattle.tap_name.specs.Name.{IsName};
ghost use Rattle.tap_table.specs.Next.{HopsTo, IsHop, TakesOwnFrom, can_take, hop_to, next_from, primary_at, taken_digit};
ghost use Rattle.tap_table.specs.Table.{HasNoLinksFrom, IsTable, empty_table, forgotten, has_room_near, kind_in, links_at, links_near, marked, near, offered, pinned, place_of, released, removed, rows, set_at, slot_number};
ghost use Rattle.tap_table.specs.ByName.{range_by_name};
ghost use Rattle.tap_table.specs.Row.{row_of, rows_numbered};

use crate::memory::NoMemory;
use crate::next::Next;
use crate::row::Row;
use crate::rows::Rows;
use crate::sets::Sets;
use crate::slot_range::SlotRange;
use std::alloc::Global;
use std::marker::Model;
use tap_link::{Cease, Forget, Kind, LinkSet, Release, Released};
use tap_name::{Name, Settings, Slot, next_cyclic};

/// The links of a node, its owner, to other nodes.
///
/// Each link stands in the slot of its target: the level is the number of digits that the owner and
/// the target share, and the digit is the target's after them. Each slot has a link set, and all
/// of them are made with the table: a slot is found by its number, and no look-up
/// takes memory. With base 16 and 8 digits there are 128 sets.
///
/// Rule: docs/PROTOCOL.md, "Slots and tables".
#[derive(Drop)]
pub struct Table {
    owner: Name,
    settings: Settings,
    sets: Sets,
}

impl Model for Table {
    ghost use Rattle.tap_table.specs.Table.{TableValue, AreSets, table_of};

    ghost Value = { TableValue };

    ghost view = { λ t. table_of t.owner t.settings t.sets };

    ghost invariant = { λ t. AreSets t.owner t.settings t.sets };
}

// Where a link stands: the number of its slot, and its place in the slot's set.
#[derive(Clone, Copy)]
struct Place {
    number: usize,
    link: usize,
}

impl Table {
    ghost use Rattle.tap_table.specs.Place.{IsPlace};

    /// The table of an owner, without links. The owner is a name of the settings.
    pub fn new(alloc: Global, owner: Name, settings: &Settings) -> Result<Table, NoMemory>
        requires { IsName settings.now owner }
        ensures value { IfOk result (λ table. table ≡ empty_table settings.now owner) }
        ensures valid { IfOk result IsTable }
    {
        let slots = settings.base() as usize * settings.digits() as usize;
        Ok(Table {
            owner,
            settings: *settings,
            sets: Sets::new(alloc, slots, settings.width())?,
        })
    }

    /// The node whose table this is.
    pub fn owner(&self) -> Name
        ensures value { result ≡ self.now.owner }
        ensures valid { IsTable self.now }
    {
        self.owner
    }

    /// The settings of the names in it.
    pub fn settings(&self) -> Settings
        ensures value { result ≡ self.now.settings }
        ensures valid { IsTable self.now }
    {
        self.settings
    }

    /// How many links there are, of all kinds.
    pub fn len(&self) -> usize
        ensures { result ≡ length (rows self.now) }
    {
        self.sets.links()
    }

    /// Whether there is no link.
    pub fn is_empty(&self) -> bool
        ensures { result ≡ (length (rows self.now) == 0) }
    {
        self.len() == 0
    }

    /// A link by its place, from 0, in ascending order of slot, then target.
    ///
    /// It walks over the slots up to the link's. Who wants all links steps through them by `rows`.
    pub fn row_at(&self, i: usize) -> Row
        requires { i < length (rows self.now) }
        ensures { slice_get (rows self.now) i ≡ Some (row_of result) }
    {
        let place = self.place_of_link(i);
        self.row(place.number, place.link)
    }

    /// The links one after another, in ascending order of slot, then target. To go over all of them takes
    /// time linear in slots and links, and no memory.
    pub fn rows(&self) -> Rows<'_>
        ensures { result ≡ rows self.now }
    {
        Rows::new(self)
    }

    // A link by the number of its slot, and its place among the links there.
    pub(crate) fn row(&self, number: usize, link: usize) -> Row
        requires slot { number < length self.now.slots }
        requires link { link < length (slice_index_or self.now.slots number []) }
        ensures { slice_get (rows_numbered self.now number) link ≡ Some (row_of result) }
    {
        let base = self.settings.base() as usize;
        let set = &self.sets.as_slice()[number];
        Row {
            slot: Slot {
                level: (number / base) as u8,
                digit: (number % base) as u8,
            },
            target: set.target_at(link),
            kind: set.kind_at(link),
        }
    }

    // The links of all slots, by the slots' numbers.
    pub(crate) fn sets(&self) -> &[LinkSet<Name>]
        ensures { map (λ s. s.links) result.now ≡ self.now.slots }
    {
        self.sets.as_slice()
    }

    /// The slot of a link by its place, from 0, in ascending order of slot, then target.
    ///
    /// It walks over the slots, as `row_at` does.
    pub fn slot_at(&self, i: usize) -> Slot
        requires { i < length (rows self.now) }
        ensures { slice_get (map (λ r. r.slot) (rows self.now)) i ≡ Some result }
    {
        self.row_at(i).slot
    }

    /// The target of a link by its place, from 0, in ascending order of slot, then target.
    ///
    /// It walks over the slots, as `row_at` does.
    pub fn target_at(&self, i: usize) -> Name
        requires { i < length (rows self.now) }
        ensures { slice_get (map (λ r. r.entry.target) (rows self.now)) i ≡ Some result }
    {
        self.row_at(i).target
    }

    /// The kind of a link by its place, from 0, in ascending order of slot, then target.
    ///
    /// It walks over the slots, as `row_at` does.
    pub fn kind_at(&self, i: usize) -> Kind
        requires { i < length (rows self.now) }
        ensures { slice_get (map (λ r. r.entry.kind) (rows self.now)) i ≡ Some result }
    {
        self.row_at(i).kind
    }

    // The place of a link in its slot, from its place among all links.
    fn place_of_link(&self, i: usize) -> Place
        requires { i < length (rows self.now) }
        ensures { IsPlace self.now i result }
    {
        let sets = self.sets.as_slice();
        let mut link = i;
        for (number, set) in sets.iter().enumerate() {
            let links = set.len();
            if link < links {
                return Place { number, link };
            }
            link -= links;
        }
        unreachable!()
    }

    /// The links of a slot. Its level is below the number of digits, and its digit below the base.
    pub fn slot(&self, slot: Slot) -> &LinkSet<Name>
        requires level { slot.level < self.now.settings.digits }
        requires digit { slot.digit < self.now.settings.base }
        ensures { result.now ≡ set_at self.now slot }
    {
        let number = slot.level as usize * self.settings.base() as usize + slot.digit as usize;
        &self.sets.as_slice()[number]
    }

    /// The links of the slot in which a name stands. The name is one of the settings, and not the
    /// owner.
    pub fn near(&self, name: &Name) -> &LinkSet<Name>
        requires name { IsName self.now.settings name.now }
        requires other { name.now ≢ self.now.owner }
        ensures { result.now ≡ near self.now name.now }
    {
        let number = self.number_of(name);
        &self.sets.as_slice()[number]
    }

    /// The slots in the order of the names that fit them, in ranges, of which this is one by its place,
    /// from 0 and below twice the number of digits: up the levels over the digits below the owner's,
    /// then down the levels over those above it.
    ///
    /// Who goes through the ranges in turn, through the slots of each and through the links of each slot
    /// sees all links in ascending order of their targets.
    pub fn range_by_name(&self, i: usize) -> SlotRange
        requires { i < 2 * self.now.settings.digits }
        ensures value { result ≡ range_by_name self.now.settings self.now.owner i }
        ensures level { result.level < self.now.settings.digits }
        ensures end { result.to ≤ self.now.settings.base }
    {
        let digits = self.settings.digits() as usize;
        if i < digits {
            return SlotRange {
                level: i as u8,
                from: 0,
                to: self.owner.digit(i),
            };
        }
        let level = 2 * digits - 1 - i;
        SlotRange {
            level: level as u8,
            from: self.owner.digit(level) + 1,
            to: self.settings.base(),
        }
    }

    /// Whether a slot of this level or a deeper one may have a link: `false` only if none has. It looks
    /// at no slot, and stays `true` if links have ended.
    ///
    /// Most names share few digits, so that the deep levels of a table have no link. Whoever goes over
    /// the levels stops at the first one for which this is `false`. The level is at most the number of
    /// digits.
    pub fn may_have_links_from(&self, level: usize) -> bool
        requires level { level ≤ self.now.settings.digits }
        ensures { result ≡ false → HasNoLinksFrom self.now level }
    {
        let digits = self.settings.digits();
        prove!(digits <= 40);
        let first = level * self.settings.base() as usize;
        first < self.sets.empty_from()
    }

    /// The least target in a slot that is settled and not leaving, `None` exactly if there is
    /// none. The slot's level is below the number of digits, and its digit below the base.
    pub fn primary(&self, slot: Slot) -> Option<Name>
        requires level { slot.level < self.now.settings.digits }
        requires digit { slot.digit < self.now.settings.base }
        ensures { result ≡ least_settled (links_at self.now slot) }
    {
        self.slot(slot).primary()
    }

    /// The kind of the link to a target, `None` exactly if the table has no link to it.
    pub fn kind_of(&self, target: Name) -> Option<Kind>
        ensures { result ≡ kind_in self.now target }
    {
        let number = self.number_of(&target);
        self.sets.as_slice().get(number)?.kind_of(target)
    }

    /// Pins a target that the table has no link to, and answers whether it had none.
    ///
    /// `NoMemory` comes only if a link would be added to four links or more, and always if it would be
    /// added to 2^54. A table that is refused memory stays as it was. The target is a name of
    /// the settings, and not the owner.
    pub fn pin(&mut self, target: Name) -> Result<bool, NoMemory>
        requires name { IsName self.old.settings target }
        requires other { target ≢ self.old.owner }
        ensures answer { IfOk result (λ added. added ≡ is_none (kind_in self.old target)) }
        ensures after { OnOk result (self.new ≡ pinned self.old target) }
        ensures same { OnErr result (self.new ≡ self.old) }
        ensures inline { length (links_near self.old target) < 4 → IsOk result }
        ensures linked { IsSome (kind_in self.old target) → IsOk result }
        ensures owner { self.new.owner ≡ self.old.owner }
        ensures settings { self.new.settings ≡ self.old.settings }
    {
        let number = self.number_of(&target);
        self.sets.pin(number, target)
    }

    /// Settles on a target that the table has no link to if its slot has room for a settled link,
    /// and answers whether it did. There is room if fewer links of the slot are settled and not leaving
    /// than the width of the settings.
    ///
    /// `NoMemory` comes only if a link would be added to four links or more, and always if it would be
    /// added to 2^54. A table that is refused memory stays as it was. The target is a name of
    /// the settings, and not the owner.
    pub fn offer(&mut self, target: Name) -> Result<bool, NoMemory>
        requires name { IsName self.old.settings target }
        requires other { target ≢ self.old.owner }
        ensures answer { IfOk result (λ added. added
            ≡ (is_none (kind_in self.old target) && has_room_near self.old target)) }
        ensures after { OnOk result (self.new ≡ offered self.old target) }
        ensures same { OnErr result (self.new ≡ self.old) }
        ensures inline { length (links_near self.old target) < 4 → IsOk result }
        ensures linked { IsSome (kind_in self.old target) → IsOk result }
        ensures full { ¬ (IsTrue (has_room_near self.old target)) → IsOk result }
        ensures owner { self.new.owner ≡ self.old.owner }
        ensures settings { self.new.settings ≡ self.old.settings }
    {
        let number = self.number_of(&target);
        self.sets.offer(number, target)
    }

    /// Takes the release of a node: a pin on it becomes a settled link if its slot has room for one,
    /// and is dropped otherwise. `Nothing` exactly if the sender isn't pinned. The sender is
    /// a name of the settings, and not the owner.
    pub fn release(&mut self, by: Release<Name>) -> Released
        requires name { IsName self.old.settings by.from }
        requires other { by.from ≢ self.old.owner }
        ensures answer { result
            ≡ released_as (is_pinned (kind_in self.old by.from)) (has_room_near self.old by.from) }
        ensures after { self.new ≡ released self.old by.from }
        ensures nothing { result ≡ Released.Nothing → self.new ≡ self.old }
        ensures owner { self.new.owner ≡ self.old.owner }
        ensures settings { self.new.settings ≡ self.old.settings }
    {
        let number = self.number_of(&by.from);
        self.sets.release(number, by)
    }

    /// Ends the pin on a node that gave up joining: true exactly if it was pinned. The sender is a
    /// name of the settings, and not the owner.
    pub fn forget(&mut self, by: Forget<Name>) -> bool
        requires name { IsName self.old.settings by.from }
        requires other { by.from ≢ self.old.owner }
        ensures answer { result ≡ is_pinned (kind_in self.old by.from) }
        ensures after { self.new ≡ forgotten self.old by.from }
        ensures owner { self.new.owner ≡ self.old.owner }
        ensures settings { self.new.settings ≡ self.old.settings }
    {
        let number = self.number_of(&by.from);
        self.sets.forget(number, by)
    }

    /// Marks the link to a target as leaving: true exactly if it was settled and not leaving. The
    /// target is a name of the settings, and not the owner.
    pub fn mark_leaving(&mut self, target: Name) -> bool
        requires name { IsName self.old.settings target }
        requires other { target ≢ self.old.owner }
        ensures answer { result ≡ is_settled (kind_in self.old target) }
        ensures after { self.new ≡ marked self.old target }
        ensures owner { self.new.owner ≡ self.old.owner }
        ensures settings { self.new.settings ≡ self.old.settings }
    {
        let number = self.number_of(&target);
        self.sets.mark_leaving(number, target)
    }

    /// Takes out the link to a target that is settled or leaving: true exactly if it was. The
    /// target is a name of the settings, and not the owner.
    pub fn remove_settled(&mut self, target: Name) -> bool
        requires name { IsName self.old.settings target }
        requires other { target ≢ self.old.owner }
        ensures answer { result ≡ is_settled_or_leaving (kind_in self.old target) }
        ensures after { self.new ≡ removed self.old target }
        ensures owner { self.new.owner ≡ self.old.owner }
        ensures settings { self.new.settings ≡ self.old.settings }
    {
        let number = self.number_of(&target);
        self.sets.remove_settled(number, target)
    }

    /// Ends all links, with the owner of the table. It takes no memory.
    ///
    /// It consumes the table, so there is no value of which an `ensures` could speak.
    pub fn cease(self, by: &Cease<Name>)
        requires { by.now.owner ≡ self.owner }
    {
        let Table {
            owner: _,
            settings: _,
            sets,
        } = self;
        sets.cease(by);
    }

    /// Where a message towards an object goes next, from a level on: 0 at its first node.
    ///
    /// At each level the digits are tried cyclically from the object's. The first one that is the
    /// owner's own, or whose slot has a primary, is taken: if it is the owner's own, the next level follows,
    /// and else the message hops to the primary, which goes on at the next level. `Root`
    /// exactly if the owner's own digit is taken at each level from this one on.
    ///
    /// The node of a hop is settled in the table and not leaving, and shares one digit less with the
    /// owner than the hop's level says, which is above the level given.
    ///
    /// The object has as many digits as a name, all below the base, and the level is at most their
    /// number.
    ///
    /// Rule: docs/PROTOCOL.md, "Next hops".
    pub fn next_hop(&self, object: &Name, level: usize) -> Next
        requires name { IsName self.now.settings object.now }
        requires level { level ≤ self.now.settings.digits }
        ensures value { result ≡ next_from self.now level (drop level object.now) }
        ensures root { (result ≡ Next.Root) ↔ TakesOwnFrom self.now level object.now }
        ensures hop { (to : List ℕ) (next : ℕ) →
            ((result ≡ Next.Hop to next) ↔ HopsTo self.now level object.now to next) }
        ensures node { (to : List ℕ) (next : ℕ) → result ≡ Next.Hop to next → IsHop self.now level to next }
    {
        self.next_from(object, level)
    }

    // Where a message goes next, by the definition.
    fn next_from(&self, object: &Name, level: usize) -> Next
        requires name { IsName self.now.settings object.now }
        requires level { level ≤ self.now.settings.digits }
        ensures value { result ≡ next_from self.now level (drop level object.now) }
        ensures valid { IsTable self.now }
    {
        for at in level..object.len() {
            if !self.may_have_links_from(at) {
                return Next::Root;
            }
            let digit = self.taken_digit(at, object.digit(at));
            if digit != self.owner.digit(at) {
                return self.hop(at, digit);
            }
        }
        Next::Root
    }

    // The hop to the primary of a slot, from its level.
    fn hop(&self, level: usize, digit: u8) -> Next
        requires level { level < self.now.settings.digits }
        requires digit { digit < self.now.settings.base }
        ensures { result ≡ hop_to (primary_at self.now level digit) (level + 1) }
    {
        let slot = self.slot_on(level, digit);
        match self.primary(slot) {
            Some(to) => Next::Hop {
                to,
                level: slot.level + 1,
            },
            None => Next::Root,
        }
    }

    // The slot of a level and a digit.
    fn slot_on(&self, level: usize, digit: u8) -> Slot
        requires { level < self.now.settings.digits }
        ensures value { result ≡ record { level = level; digit = digit } }
        ensures level { result.level < 40 }
    {
        // A name has at most 40 digits, so that a level fits a byte.
        let digits = self.settings.digits();
        prove!(digits <= 40);
        Slot {
            level: level as u8,
            digit,
        }
    }

    // Whether a message may take a digit at a level: the owner's own, or one whose slot has a
    // primary.
    fn can_take(&self, level: usize, digit: u8) -> bool
        requires level { level < self.now.settings.digits }
        requires digit { digit < self.now.settings.base }
        ensures { result ≡ can_take self.now level digit }
    {
        if self.owner.digit(level) == digit {
            return true;
        }
        let number = level * self.settings.base() as usize + digit as usize;
        self.sets.has_primary(number)
    }

    // The first digit, cyclically from the wanted one, that a message may take at a level.
    fn taken_digit(&self, level: usize, wanted: u8) -> u8
        requires level { level < self.now.settings.digits }
        requires wanted { wanted < self.now.settings.base }
        ensures value { result ≡ taken_digit self.now level wanted }
        ensures below { result < self.now.settings.base }
    {
        let base = self.settings.base();
        let mut digit = wanted;
        for _tried in 0..base {
            if self.can_take(level, digit) {
                return digit;
            }
            digit = next_cyclic(base, digit);
        }
        digit
    }

    // The number of the slot in which a name stands; past the last slot for the owner.
    fn number_of(&self, name: &Name) -> usize
        ensures { result ≡ slot_number self.now.settings.base (place_of self.now.owner name.now) }
    {
        let level = self.owner.lcp(name);
        level * self.settings.base() as usize + digit_or_zero(name, level) as usize
    }
}

// The digit at a place, and 0 past the last.
fn digit_or_zero(name: &Name, at: usize) -> u8
    ensures value { result ≡ slice_index name.now at }
    ensures is_digit { result < 16 }
{
    if at < name.len() { name.digit(at) } else { 0 }
}
