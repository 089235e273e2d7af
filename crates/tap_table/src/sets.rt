ghost use Rattle.std.specs.Prelude.{◌≡◌, ◌<◌, ◌≤◌, ◌↔◌, ◌&&◌, [], length, replicate, slice_set, Err, IsOk, IsNone, IsSome, IsTrue, IfOk, OnOk, OnErr};
ghost use Rattle.std.specs.Option.{is_none};
ghost use Rattle.tap_link.specs.LinkSet.{forgotten, has_room, is_pinned, is_settled, is_settled_or_leaving, kind_of, marked, offered, pinned, released, released_as, removed};
ghost use Rattle.tap_table.specs.Sets.{AreEmptyFrom, all_links, has_primary, most_links_of_slot, most_slots_of_table, set_in};
ghost use Rattle.tap_table.specs.Table.{name_cmp};

use crate::memory::{NoMemory, Refused};
use std::alloc::Global;
use std::marker::Model;
use tap_link::{Cease, Forget, LinkSet, Release, Released};
use tap_name::Name;

// No slot has more links than this many. No memory holds so many, and the links of all slots are
// counted in 64 bits.
const MOST_LINKS_OF_SLOT: usize = 1 << 54;

// The link sets of the slots of a table by the slots' numbers, how many links they have in all, and a number from
// which on none of them has a link: the deep levels of most tables are empty, and are passed over at once. Which sets
// have a primary stands beside them, so that a message passes over those that have none without a look at their links.
#[derive(Drop)]
pub(crate) struct Sets {
    sets: Vec<LinkSet<Name>>,
    links: usize,
    empty_from: usize,
    with_primary: Vec<bool>,
}

impl Model for Sets {
    ghost use Rattle.std.specs.Prelude.{List, ℕ};
    ghost use Rattle.tap_link.specs.LinkSet.{LinkSetValue};
    ghost use Rattle.tap_table.specs.Sets.{SetsAreKept};

    ghost Value = { List (LinkSetValue (List ℕ)) };

    ghost view = { λ s. s.sets.items };

    ghost invariant = { λ s. SetsAreKept s.sets.items s.links s.empty_from s.with_primary.items };
}

impl Sets {
    // So many sets without links, each of this width.
    pub(crate) fn new(alloc: Global, slots: usize, width: u8) -> Result<Sets, NoMemory>
        requires { slots ≤ most_slots_of_table }
        ensures { IfOk result (λ sets. sets ≡ replicate slots (record { width = width; links = [] })) }
    {
        let mut sets = Vec::new(alloc);
        sets.resize_with(slots, || LinkSet::new(alloc, width))?;
        Ok(Sets {
            sets,
            links: 0,
            empty_from: 0,
            with_primary: vec![in alloc; false; slots]?,
        })
    }

    // How many links all sets have.
    pub(crate) fn links(&self) -> usize
        ensures { result ≡ all_links self.now }
    {
        self.links
    }

    // A number from which on no set has a link: past each set to which one was ever added.
    pub(crate) fn empty_from(&self) -> usize
        ensures { AreEmptyFrom self.now result }
    {
        self.empty_from
    }

    // Whether the set of a number has a primary.
    pub(crate) fn has_primary(&self, number: usize) -> bool
        requires { number < length self.now }
        ensures { result ≡ has_primary (set_in self.now number) }
    {
        self.with_primary[number]
    }

    // All sets, by their numbers.
    pub(crate) fn as_slice(&self) -> &[LinkSet<Name>]
        ensures { result.now ≡ self.now }
    {
        self.sets.as_slice()
    }

    // The calls of one set, by its number. Each also keeps the count of all links.
    pub(crate) fn pin(&mut self, number: usize, target: Name) -> Result<bool, NoMemory>
        requires { number < length self.old }
        ensures answer { IfOk result (λ added. added ≡ is_none (kind_of name_cmp (set_in self.old number).links target)) }
        ensures after { OnOk result (self.new
            ≡ slice_set self.old number (pinned name_cmp (set_in self.old number) target)) }
        ensures same { OnErr result (self.new ≡ self.old) }
        ensures inline { length (set_in self.old number).links < 4 → IsOk result }
        ensures linked { IsSome (kind_of name_cmp (set_in self.old number).links target) → IsOk result }
    {
        let set = &mut self.sets[number];
        let before = set.len();
        let added = pin_in(set, target)?;
        let now = set.len();
        self.with_primary[number] = set.has_primary();
        self.links = self.links - before + now;
        let empty_from = past(self.empty_from, number);
        self.empty_from = empty_from;
        Ok(added)
    }

    pub(crate) fn offer(&mut self, number: usize, target: Name) -> Result<bool, NoMemory>
        requires { number < length self.old }
        ensures answer { IfOk result (λ added. added
            ≡ (is_none (kind_of name_cmp (set_in self.old number).links target) && has_room (set_in self.old number))) }
        ensures after { OnOk result (self.new
            ≡ slice_set self.old number (offered name_cmp (set_in self.old number) target)) }
        ensures same { OnErr result (self.new ≡ self.old) }
        ensures inline { length (set_in self.old number).links < 4 → IsOk result }
        ensures linked { IsSome (kind_of name_cmp (set_in self.old number).links target) → IsOk result }
        ensures full { ¬ (IsTrue (has_room (set_in self.old number))) → IsOk result }
    {
        let set = &mut self.sets[number];
        let before = set.len();
        let added = offer_in(set, target)?;
        let now = set.len();
        self.with_primary[number] = set.has_primary();
        self.links = self.links - before + now;
        let empty_from = past(self.empty_from, number);
        self.empty_from = empty_from;
        Ok(added)
    }

    pub(crate) fn release(&mut self, number: usize, by: Release<Name>) -> Released
        requires { number < length self.old }
        ensures answer { let set = set_in self.old number in
            result ≡ released_as (is_pinned (kind_of name_cmp set.links by.from)) (has_room set) }
        ensures after { self.new
            ≡ slice_set self.old number (released name_cmp (set_in self.old number) by.from) }
    {
        let set = &mut self.sets[number];
        let before = set.len();
        let answer = set.release(by);
        let now = set.len();
        self.with_primary[number] = set.has_primary();
        self.links = self.links - before + now;
        answer
    }

    pub(crate) fn forget(&mut self, number: usize, by: Forget<Name>) -> bool
        requires { number < length self.old }
        ensures answer { result ≡ is_pinned (kind_of name_cmp (set_in self.old number).links by.from) }
        ensures after { self.new
            ≡ slice_set self.old number (forgotten name_cmp (set_in self.old number) by.from) }
    {
        let set = &mut self.sets[number];
        let before = set.len();
        let answer = set.forget(by);
        let now = set.len();
        self.with_primary[number] = set.has_primary();
        self.links = self.links - before + now;
        answer
    }

    pub(crate) fn mark_leaving(&mut self, number: usize, target: Name) -> bool
        requires { number < length self.old }
        ensures answer { result ≡ is_settled (kind_of name_cmp (set_in self.old number).links target) }
        ensures after { self.new
            ≡ slice_set self.old number (marked name_cmp (set_in self.old number) target) }
    {
        let set = &mut self.sets[number];
        let answer = set.mark_leaving(target);
        self.with_primary[number] = set.has_primary();
        answer
    }

    pub(crate) fn remove_settled(&mut self, number: usize, target: Name) -> bool
        requires { number < length self.old }
        ensures answer { result ≡ is_settled_or_leaving (kind_of name_cmp (set_in self.old number).links target) }
        ensures after { self.new
            ≡ slice_set self.old number (removed name_cmp (set_in self.old number) target) }
    {
        let set = &mut self.sets[number];
        let before = set.len();
        let answer = set.remove_settled(target);
        let now = set.len();
        self.with_primary[number] = set.has_primary();
        self.links = self.links - before + now;
        answer
    }

    // Ends all links. It consumes the sets, so there is no value of which an `ensures` could speak.
    pub(crate) fn cease(self, by: &Cease<Name>) {
        let Sets {
            sets,
            links: _,
            empty_from: _,
            with_primary: _,
        } = self;
        for set in sets {
            set.cease(by);
        }
    }
}

// The number from which on no set has a link, after one was added to the set of this number.
fn past(empty_from: usize, number: usize) -> usize
    requires { number < most_slots_of_table }
    ensures after { number < result }
    ensures least { empty_from ≤ result }
{
    if empty_from <= number {
        number + 1
    } else {
        empty_from
    }
}

// Pins a target in a link set, as the set does, if it has few enough links: it is refused as one too many exactly if the slot has
// all that it may have and no link to the target.
fn pin_in(set: &mut LinkSet<Name>, target: Name) -> Result<bool, Refused>
    requires { length set.old.links ≤ most_links_of_slot }
    ensures answer { IfOk result (λ added. added ≡ is_none (kind_of name_cmp set.old.links target)) }
    ensures after { OnOk result (set.new ≡ pinned name_cmp set.old target) }
    ensures same { OnErr result (set.new ≡ set.old) }
    ensures inline { length set.old.links < 4 → IsOk result }
    ensures linked { IsSome (kind_of name_cmp set.old.links target) → IsOk result }
    ensures few { length set.new.links ≤ most_links_of_slot }
    ensures too_many { (result ≡ Err Refused.TooMany)
        ↔ ((length set.old.links ≡ most_links_of_slot) × IsNone (kind_of name_cmp set.old.links target)) }
{
    if set.len() < MOST_LINKS_OF_SLOT {
        return Ok(set.pin(target)?);
    }
    match set.kind_of(target) {
        Some(_) => Ok(false),
        None => Err(Refused::TooMany),
    }
}

// Offers a target to a link set, as the set does, if it has few enough links: it is refused as one too many exactly if the slot has
// all that it may have, no link to the target, and room for a settled one.
fn offer_in(set: &mut LinkSet<Name>, target: Name) -> Result<bool, Refused>
    requires { length set.old.links ≤ most_links_of_slot }
    ensures answer { IfOk result (λ added. added
        ≡ (is_none (kind_of name_cmp set.old.links target) && has_room set.old)) }
    ensures after { OnOk result (set.new ≡ offered name_cmp set.old target) }
    ensures same { OnErr result (set.new ≡ set.old) }
    ensures inline { length set.old.links < 4 → IsOk result }
    ensures linked { IsSome (kind_of name_cmp set.old.links target) → IsOk result }
    ensures full { ¬ (IsTrue (has_room set.old)) → IsOk result }
    ensures few { length set.new.links ≤ most_links_of_slot }
    ensures too_many { (result ≡ Err Refused.TooMany)
        ↔ ((length set.old.links ≡ most_links_of_slot) × IsNone (kind_of name_cmp set.old.links target) × IsTrue (has_room set.old)) }
{
    if set.len() < MOST_LINKS_OF_SLOT {
        return Ok(set.offer(target)?);
    }
    if set.kind_of(target).is_some() || !set.has_room() {
        return Ok(false);
    }
    Err(Refused::TooMany)
}
