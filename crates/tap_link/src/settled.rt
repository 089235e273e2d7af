ghost use Rattle.std.specs.Prelude.{◌≡◌, false, true};

use std::marker::Model;

/// A link to a node that has joined. It may be dropped.
///
/// Rule: docs/PROTOCOL.md, "Links".
#[derive(Drop)]
pub struct Settled<K: Ord + Copy> {
    target: K,
    leaving: bool,
}

impl<K: Ord + Copy> Model for Settled<K> {
    ghost use Rattle.tap_link.specs.SettledLink.{SettledValue};

    ghost Value = { SettledValue K };

    ghost view = { λ s. record { target = s.target; leaving = s.leaving } };
}

impl<K: Ord + Copy> Settled<K> {
    // A settled link to a node that stays.
    pub(crate) fn on(target: K) -> Settled<K>
        ensures target { result.target ≡ target }
        ensures staying { result.leaving ≡ false }
    {
        Settled {
            target,
            leaving: false,
        }
    }

    /// The node that is linked to.
    pub fn target(&self) -> K
        ensures { result ≡ self.now.target }
    {
        self.target
    }

    // The node that is linked to, lent.
    pub(crate) fn lent_target(&self) -> &K
        ensures { result.now ≡ self.now.target }
    {
        &self.target
    }

    /// Whether the node has said that it will leave.
    pub fn is_leaving(&self) -> bool
        ensures { result ≡ self.now.leaving }
    {
        self.leaving
    }

    /// Notes that the node has said that it will leave.
    pub fn mark_leaving(&mut self)
        ensures target { self.new.target ≡ self.old.target }
        ensures leaving { self.new.leaving ≡ true }
    {
        self.leaving = true;
    }
}
