ghost use Rattle.std.specs.Prelude.{◌≡◌, ◌<◌, ◌↔◌, ◌&&◌, [], length, map, is_some, Some, IsOk, IsNone, IsSome, IfOk, IfSome, OnErr, OnOk, IsTrue, slice_get};
ghost use Rattle.std.specs.Option.{is_none};
ghost use Rattle.tap_link.specs.LinkSet.{LinkSetValue, IsLinkSet, kind_of, is_pinned, is_settled, is_settled_or_leaving, settled_count, has_room, least_settled, IsLeastSettled, released_as, pinned, offered, released, forgotten, marked, removed};

use crate::kind::{Kind, Released};
use crate::link::Link;
use crate::memory::NoMemory;
use crate::places::Places;
use crate::word::{Cease, Forget, Release};
use std::alloc::Global;
use std::marker::Model;

/// Links with distinct targets, in ascending order of their targets.
///
/// At most `width` of them are settled and not leaving. The first four links need no memory. A set
/// may be dropped whole, and its pins then end with it; no call takes a single pin out but at a
/// word of its target.
///
/// Rule: docs/PROTOCOL.md, "Links".
#[derive(Drop)]
pub struct LinkSet<K: Ord + Copy> {
    width: u8,
    // How many of the links are settled and not leaving. It is asked at each release and each offer.
    settled: u8,
    places: Places<K>,
}

impl<K: Ord + Copy> Model for LinkSet<K> {
    ghost use Rattle.tap_link.specs.LinkSet.{LinkSetValue, IsCounted};

    ghost Value = { LinkSetValue K };

    ghost view = { λ s. record { width = s.width; links = s.places } };

    ghost invariant = { λ s. IsCounted K.cmp (record { width = s.width; links = s.places }) s.settled };
}

impl<K: Ord + Copy> LinkSet<K> {
    /// A set without links, that may have so many settled links that aren't leaving.
    pub fn new(alloc: Global, width: u8) -> LinkSet<K>
        ensures { result ≡ record { width = width; links = [] } }
    {
        LinkSet {
            width,
            settled: 0,
            places: Places::new(alloc),
        }
    }

    /// How many links there are, of all kinds.
    pub fn len(&self) -> usize
        ensures count { result ≡ length self.now.links }
        ensures valid { IsLinkSet K.cmp self.now }
    {
        self.places.len()
    }

    /// Whether there is no link.
    pub fn is_empty(&self) -> bool
        ensures { IsTrue result ↔ (self.now.links ≡ []) }
    {
        self.places.len() == 0
    }

    /// The target of a link by its place in ascending order, from 0.
    pub fn target_at(&self, i: usize) -> K
        requires { i < length self.now.links }
        ensures { slice_get (map (λ e. e.target) self.now.links) i ≡ Some result }
    {
        self.places.link_at(i).target()
    }

    /// The kind of a link by its place in ascending order of targets, from 0.
    pub fn kind_at(&self, i: usize) -> Kind
        requires { i < length self.now.links }
        ensures { slice_get (map (λ e. e.kind) self.now.links) i ≡ Some result }
    {
        self.places.link_at(i).kind()
    }

    /// The kind of the link to this target, `None` exactly if no link names it.
    pub fn kind_of(&self, target: K) -> Option<Kind>
        ensures kind { result ≡ kind_of K.cmp self.now.links target }
        ensures valid { IsLinkSet K.cmp self.now }
    {
        match self.places.search(&target) {
            Ok(at) => Some(self.places.link_at(at).kind()),
            Err(_) => None,
        }
    }

    /// Pins a target that is absent, and answers whether it was.
    ///
    /// `NoMemory` comes only if a link would be added to four links or more. A set that is refused
    /// memory stays as it was.
    pub fn pin(&mut self, target: K) -> Result<bool, NoMemory>
        ensures answer { IfOk result (λ added. added ≡ is_none (kind_of K.cmp self.old.links target)) }
        ensures after { OnOk result (self.new ≡ pinned K.cmp self.old target) }
        ensures same { OnErr result (self.new ≡ self.old) }
        ensures inline { length self.old.links < 4 → IsOk result }
        ensures linked { IsSome (kind_of K.cmp self.old.links target) → IsOk result }
    {
        match self.places.search(&target) {
            Ok(_) => Ok(false), // some link names it
            Err(at) => {
                self.places.insert(at, Link::pin(target))?;
                Ok(true)
            }
        }
    }

    /// Settles on a target that is absent if there is room for a settled link, and answers
    /// whether it did. There is room if fewer than `width` links are settled and not leaving.
    ///
    /// `NoMemory` comes only if a link would be added to four links or more. A set that is refused
    /// memory stays as it was.
    pub fn offer(&mut self, target: K) -> Result<bool, NoMemory>
        ensures answer { IfOk result (λ added. added
            ≡ (is_none (kind_of K.cmp self.old.links target) && has_room self.old)) }
        ensures after { OnOk result (self.new ≡ offered K.cmp self.old target) }
        ensures same { OnErr result (self.new ≡ self.old) }
        ensures inline { length self.old.links < 4 → IsOk result }
        ensures linked { IsSome (kind_of K.cmp self.old.links target) → IsOk result }
        ensures full { ¬ (IsTrue (has_room self.old)) → IsOk result }
    {
        if !self.has_room() {
            return Ok(false);
        }
        match self.places.search(&target) {
            Ok(_) => Ok(false),
            Err(at) => {
                self.places.insert(at, Link::settled(target))?;
                self.settled += 1;
                Ok(true)
            }
        }
    }

    /// Takes the release of a node: a pin on it becomes a settled link if there is room for one,
    /// and is dropped otherwise. `Nothing` exactly if the sender isn't pinned.
    pub fn release(&mut self, by: Release<K>) -> Released
        ensures answer { result
            ≡ released_as (is_pinned (kind_of K.cmp self.old.links by.from)) (has_room self.old) }
        ensures after { self.new ≡ released K.cmp self.old by.from }
        ensures nothing { result ≡ Released.Nothing → self.new ≡ self.old }
    {
        let Ok(at) = self.places.search(&by.from) else {
            return Released::Nothing;
        };
        match self.places.link_at(at).kind() {
            Kind::Settled | Kind::Leaving => Released::Nothing,
            Kind::Pin => {
                if self.has_room() {
                    self.places.settle(at, by);
                    self.settled += 1;
                    Released::Settled
                } else {
                    self.places.remove(at).spend(by);
                    Released::Dropped
                }
            }
        }
    }

    /// Ends the pin on a node that gave up joining: true exactly if it was pinned.
    pub fn forget(&mut self, by: Forget<K>) -> bool
        ensures answer { result ≡ is_pinned (kind_of K.cmp self.old.links by.from) }
        ensures after { self.new ≡ forgotten K.cmp self.old by.from }
    {
        let Ok(at) = self.places.search(&by.from) else {
            return false;
        };
        match self.places.link_at(at).kind() {
            Kind::Settled | Kind::Leaving => false,
            Kind::Pin => {
                self.places.remove(at).forget(by);
                true
            }
        }
    }

    /// Marks the link to a target as leaving: true exactly if it was settled and not leaving.
    pub fn mark_leaving(&mut self, target: K) -> bool
        ensures answer { result ≡ is_settled (kind_of K.cmp self.old.links target) }
        ensures after { self.new ≡ marked K.cmp self.old target }
    {
        let Ok(at) = self.places.search(&target) else {
            return false;
        };
        match self.places.link_at(at).kind() {
            Kind::Pin | Kind::Leaving => false,
            Kind::Settled => {
                self.places.mark_leaving(at);
                self.settled -= 1;
                true
            }
        }
    }

    /// Takes out the link to a target that is settled or leaving: true exactly if it was.
    pub fn remove_settled(&mut self, target: K) -> bool
        ensures answer { result ≡ is_settled_or_leaving (kind_of K.cmp self.old.links target) }
        ensures after { self.new ≡ removed K.cmp self.old target }
    {
        let Ok(at) = self.places.search(&target) else {
            return false;
        };
        match self.places.link_at(at).kind() {
            Kind::Pin => false,
            Kind::Settled => {
                self.places.remove(at).discard();
                self.settled -= 1;
                true
            }
            Kind::Leaving => {
                self.places.remove(at).discard();
                true
            }
        }
    }

    /// The least target that is settled and not leaving, `None` exactly if there is none.
    pub fn primary(&self) -> Option<K>
        ensures value { result ≡ least_settled self.now.links }
        ensures least { IfSome result (IsLeastSettled K.cmp self.now.links) }
        ensures none { IsNone result ↔ (settled_count self.now.links ≡ 0) }
    {
        for at in 0..self.places.len() {
            let link = self.places.link_at(at);
            if link.is_settled() {
                return Some(link.target());
            }
        }
        None
    }

    /// Whether there is a primary: a link that is settled and not leaving.
    pub fn has_primary(&self) -> bool
        ensures { result ≡ is_some (least_settled self.now.links) }
    {
        0 < self.settled
    }

    /// Ends all links, with the node that holds them. It takes no memory.
    ///
    /// It consumes the set, so there is no value of which an `ensures` could speak.
    pub fn cease(self, by: &Cease<K>) {
        let LinkSet {
            width: _,
            settled: _,
            mut places,
        } = self;
        places.cease(by);
    }

    /// Whether one more link may be settled: fewer than `width` links are settled and not leaving.
    pub fn has_room(&self) -> bool
        ensures { result ≡ has_room self.now }
    {
        self.settled < self.width
    }
}
