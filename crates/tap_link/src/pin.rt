ghost use Rattle.std.specs.Prelude.{◌≡◌, false};
ghost use Rattle.std.specs.declared.cmp.Ordering.TheVariants.{Equal};

use crate::settled::Settled;
use crate::word::{Cease, Forget, Release};
use std::marker::Model;

/// A link that stays until its target ends it.
///
/// It can be neither copied nor dropped, so each pin that is made has to be spent: by a word of its
/// target, or with the node that holds it.
///
/// Rule: docs/PROTOCOL.md, "Links".
pub struct Pin<K: Ord + Copy> {
    target: K,
}

impl<K: Ord + Copy> Model for Pin<K> {
    ghost Value = { K };

    ghost view = { λ p. p.target };
}

impl<K: Ord + Copy> Pin<K> {
    /// A pin on this target.
    pub fn of(target: K) -> Pin<K>
        ensures { result ≡ target }
    {
        Pin { target }
    }

    /// The node that is pinned.
    pub fn target(&self) -> K
        ensures { result ≡ self.now }
    {
        self.target
    }

    // The node that is pinned, lent.
    pub(crate) fn lent_target(&self) -> &K
        ensures { result.now ≡ self.now }
    {
        &self.target
    }

    /// Turns the pin into a settled link to its target, at the target's release.
    pub fn settle(self, by: Release<K>) -> Settled<K>
        requires { K.cmp by.from self ≡ Equal }
        ensures target { result.target ≡ self }
        ensures staying { result.leaving ≡ false }
    {
        let Pin { target } = self;
        Settled::on(target)
    }

    /// Ends the pin at its target's release.
    ///
    /// That the pin is gone is the whole of what this call does, so it has no `ensures`.
    pub fn spend(self, by: Release<K>)
        requires { K.cmp by.from self ≡ Equal }
    {
        self.end();
    }

    /// Ends a pin whose target gave up joining.
    ///
    /// That the pin is gone is the whole of what this call does, so it has no `ensures`.
    pub fn forget(self, by: Forget<K>)
        requires { K.cmp by.from self ≡ Equal }
    {
        self.end();
    }

    /// Ends the pin with the node that holds it. It takes no memory.
    ///
    /// That the pin is gone is the whole of what this call does, so it has no `ensures`.
    pub fn cease(self, by: &Cease<K>) {
        self.end();
    }

    // Ends the pin without a word, with the link that holds it.
    pub(crate) fn end(self) {
        let Pin { target: _ } = self;
    }
}
