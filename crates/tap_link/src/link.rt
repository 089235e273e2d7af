ghost use Rattle.std.specs.Prelude.{◌≡◌, ◌≢◌, Some};
ghost use Rattle.std.specs.declared.cmp.Ordering.TheVariants.{Equal};
ghost use Rattle.tap_link.specs.LinkSet.{is_settled};

use crate::kind::Kind;
use crate::pin::Pin;
use crate::settled::Settled;
use crate::word::{Cease, Forget, Release};
use std::marker::Model;

// What a link of a set holds.
enum Held<K: Ord + Copy> {
    Pin(Pin<K>),
    Settled(Settled<K>),
}

// A link of a set. A pin that is still in it ends when the link is dropped, so that a set may be
// dropped whole.
pub(crate) struct Link<K: Ord + Copy> {
    held: Held<K>,
}

impl<K: Ord + Copy> Drop for Link<K> {
    fn drop(self) {
        let Link { held } = self;
        match held {
            Held::Pin(pin) => pin.end(),
            Held::Settled(_) => {}
        }
    }
}

impl<K: Ord + Copy> Model for Link<K> {
    ghost use Rattle.tap_link.specs.Entry.{LinkEntry};

    ghost Value = { LinkEntry K };

    ghost use Rattle.tap_link.specs.Link.{entry_held};

    ghost view = { λ l. entry_held l.held };
}

impl<K: Ord + Copy> Link<K> {
    pub(crate) fn pin(target: K) -> Link<K>
        ensures target { result.target ≡ target }
        ensures kind { result.kind ≡ Kind.Pin }
    {
        Link {
            held: Held::Pin(Pin::of(target)),
        }
    }

    pub(crate) fn settled(target: K) -> Link<K>
        ensures target { result.target ≡ target }
        ensures kind { result.kind ≡ Kind.Settled }
    {
        Link {
            held: Held::Settled(Settled::on(target)),
        }
    }

    pub(crate) fn target(&self) -> K
        ensures { result ≡ self.now.target }
    {
        match &self.held {
            Held::Pin(pin) => pin.target(),
            Held::Settled(settled) => settled.target(),
        }
    }

    // The target, lent.
    pub(crate) fn lent_target(&self) -> &K
        ensures { result.now ≡ self.now.target }
    {
        match &self.held {
            Held::Pin(pin) => pin.lent_target(),
            Held::Settled(settled) => settled.lent_target(),
        }
    }

    pub(crate) fn kind(&self) -> Kind
        ensures { result ≡ self.now.kind }
    {
        match &self.held {
            Held::Pin(_) => Kind::Pin,
            Held::Settled(settled) => {
                if settled.is_leaving() {
                    Kind::Leaving
                } else {
                    Kind::Settled
                }
            }
        }
    }

    // Whether the link is settled and not leaving.
    pub(crate) fn is_settled(&self) -> bool
        ensures { result ≡ is_settled (Some self.now.kind) }
    {
        self.kind().is_settled()
    }

    // Settles a pin at its target's release.
    pub(crate) fn settle(self, by: Release<K>) -> Link<K>
        requires pinned { self.kind ≡ Kind.Pin }
        requires by_target { K.cmp by.from self.target ≡ Equal }
        ensures target { result.target ≡ self.target }
        ensures kind { result.kind ≡ Kind.Settled }
    {
        let Link { held } = self;
        match held {
            Held::Pin(pin) => Link {
                held: Held::Settled(pin.settle(by)),
            },
            Held::Settled(_) => unreachable!(),
        }
    }

    // Marks a settled link as leaving.
    pub(crate) fn mark_leaving(&mut self)
        requires settled { self.old.kind ≡ Kind.Settled }
        ensures target { self.new.target ≡ self.old.target }
        ensures kind { self.new.kind ≡ Kind.Leaving }
    {
        match &mut self.held {
            Held::Pin(_) => unreachable!(),
            Held::Settled(settled) => settled.mark_leaving(),
        }
    }

    // Spends a pin at its target's release.
    pub(crate) fn spend(self, by: Release<K>)
        requires pinned { self.kind ≡ Kind.Pin }
        requires by_target { K.cmp by.from self.target ≡ Equal }
    {
        let Link { held } = self;
        match held {
            Held::Pin(pin) => pin.spend(by),
            Held::Settled(_) => unreachable!(),
        }
    }

    // Spends a pin whose target gave up joining.
    pub(crate) fn forget(self, by: Forget<K>)
        requires pinned { self.kind ≡ Kind.Pin }
        requires by_target { K.cmp by.from self.target ≡ Equal }
    {
        let Link { held } = self;
        match held {
            Held::Pin(pin) => pin.forget(by),
            Held::Settled(_) => unreachable!(),
        }
    }

    // Lets a link go that is no pin.
    pub(crate) fn discard(self)
        requires { self.kind ≢ Kind.Pin }
    {}

    // Ends the link with the node that holds it.
    pub(crate) fn cease(self, by: &Cease<K>) {
        let Link { held } = self;
        match held {
            Held::Pin(pin) => pin.cease(by),
            Held::Settled(_) => {}
        }
    }
}
