ghost use Rattle.std.specs.Prelude.{◌≡◌, ◌<◌, ◌≤◌, [], length, IsOk, OnOk, OnErr, IfOk, IfErr, Some, slice_get, slice_set, insert, remove};
ghost use Rattle.std.specs.declared.cmp.Ordering.TheVariants.{Equal};
ghost use Rattle.std.specs.Option.{ForSome};
ghost use Rattle.tap_link.specs.Entry.{settled, leaving};
ghost use Rattle.tap_link.specs.LinkSet.{LinksAscend};
ghost use Rattle.tap_link.specs.Places.{StandsAt, IsGapFor};

use crate::kind::Kind;
use crate::link::Link;
use crate::memory::NoMemory;
use crate::word::{Cease, Release};
use smallvec::SmallVec;
use std::alloc::Global;
use std::cmp::Ordering;
use std::marker::Model;

// The links of a set in their order, of which the first four need no memory. Each place in use has
// a link: the vector's elements are options only because it fills its free places with a default.
#[derive(Drop)]
pub(crate) struct Places<K: Ord + Copy> {
    links: SmallVec<Option<Link<K>>, 4>,
}

impl<K: Ord + Copy> Model for Places<K> {
    ghost use Rattle.std.specs.Prelude.{List};
    ghost use Rattle.tap_link.specs.Entry.{LinkEntry};
    ghost use Rattle.tap_link.specs.Places.{present, IsFull};

    ghost Value = { List (LinkEntry K) };

    ghost view = { λ p. present p.links.items };

    ghost invariant = { λ p. IsFull p.links };
}

impl<K: Ord + Copy> Places<K> {
    pub(crate) fn new(alloc: Global) -> Places<K>
        ensures { result ≡ [] }
    {
        Places {
            links: SmallVec::new(alloc),
        }
    }

    pub(crate) fn len(&self) -> usize
        ensures { result ≡ length self.now }
    {
        self.links.len()
    }

    pub(crate) fn link_at(&self, at: usize) -> &Link<K>
        requires { at < length self.now }
        ensures { slice_get self.now at ≡ Some result.now }
    {
        match &self.links[at] {
            Some(link) => link,
            None => unreachable!(),
        }
    }

    // Where the link to the target is, or where it would go. It halves what is left to look at.
    pub(crate) fn search(&self, target: &K) -> Result<usize, usize>
        requires { LinksAscend K.cmp self.now }
        ensures found { IfOk result (StandsAt K.cmp self.now target.now) }
        ensures absent { IfErr result (IsGapFor K.cmp self.now target.now) }
    {
        let mut low = 0;
        let mut high = self.len();
        while low < high {
            let at = low + (high - low) / 2;
            match target.cmp(self.link_at(at).lent_target()) {
                Ordering::Less => high = at,
                Ordering::Equal => return Ok(at),
                Ordering::Greater => low = at + 1,
            }
        }
        Err(low)
    }

    // Puts a link in at its place.
    pub(crate) fn insert(&mut self, at: usize, link: Link<K>) -> Result<(), NoMemory>
        requires { at ≤ length self.old }
        ensures ok { OnOk result (self.new ≡ insert self.old at link) }
        ensures err { OnErr result (self.new ≡ self.old) }
        ensures inline { length self.old < 4 → IsOk result }
    {
        self.links.insert(at, Some(link))?;
        Ok(())
    }

    // Takes a link out.
    pub(crate) fn remove(&mut self, at: usize) -> Link<K>
        requires { at < length self.old }
        ensures taken { slice_get self.old at ≡ Some result }
        ensures rest { self.new ≡ remove self.old at }
    {
        match self.links.remove(at) {
            Some(link) => link,
            None => unreachable!(),
        }
    }

    // Settles a pin at its target's release.
    pub(crate) fn settle(&mut self, at: usize, by: Release<K>)
        requires within { at < length self.old }
        requires pinned { ForSome (slice_get self.old at) (λ e. e.kind ≡ Kind.Pin) }
        requires by_target { ForSome (slice_get self.old at) (λ e. K.cmp by.from e.target ≡ Equal) }
        ensures { ForSome (slice_get self.old at) (λ e. self.new ≡ slice_set self.old at (settled e)) }
    {
        let Some(place) = self.links.get_mut(at) else {
            unreachable!()
        };
        match place.take() {
            Some(link) => *place = Some(link.settle(by)),
            None => unreachable!(),
        }
    }

    // Marks a settled link as leaving.
    pub(crate) fn mark_leaving(&mut self, at: usize)
        requires within { at < length self.old }
        requires settled { ForSome (slice_get self.old at) (λ e. e.kind ≡ Kind.Settled) }
        ensures { ForSome (slice_get self.old at) (λ e. self.new ≡ slice_set self.old at (leaving e)) }
    {
        let Some(place) = self.links.get_mut(at) else {
            unreachable!()
        };
        match place {
            Some(link) => link.mark_leaving(),
            None => unreachable!(),
        }
    }

    // Takes all links out and ends each.
    pub(crate) fn cease(&mut self, by: &Cease<K>)
        ensures { self.new ≡ [] }
    {
        while let Some(place) = self.links.pop() {
            match place {
                Some(link) => link.cease(by),
                None => unreachable!(),
            }
        }
    }
}
