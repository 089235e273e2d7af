ghost use Rattle.std.specs.Prelude.{◌≡◌, ◌≢◌};
ghost use Rattle.tap_name.specs.Name.{IsName};
ghost use Rattle.tap_join.specs.Seek.{sought};

use crate::sought::Sought;
use std::marker::Model;
use tap_name::Name;
use tap_table::Ties;

/// A node that has joined. Contracts see its ties.
///
/// Rule: docs/PROTOCOL.md, "Joining".
#[derive(Drop)]
pub struct Core {
    ties: Ties,
}

impl Model for Core {
    ghost use Rattle.tap_table.specs.Ties.{TiesValue};

    ghost Value = { TiesValue };

    ghost view = { λ c. c.ties };
}

impl Core {
    ghost use Rattle.std.specs.Borrow.{sem};
    ghost use Rattle.tap_join.specs.Lending.{LendsCoreTies};

    /// The core node with these ties: a member from the start has those of an overlay at rest.
    pub fn at_rest(ties: Ties) -> Core
        ensures { result ≡ ties }
    {
        Core { ties }
    }

    /// The ties.
    pub fn ties(&self) -> &Ties
        ensures { result.now ≡ self.now }
    {
        &self.ties
    }

    /// The ties, to be changed.
    pub fn ties_mut(&mut self) -> &mut Ties
        ensures* lends { sem 𝓛 (LendsCoreTies self.entry result) }
        ensures value { result.now ≡ self.old }
    {
        &mut self.ties
    }

    /// What the node does with a joining node that seeks its place: it sends it on exactly if the
    /// seeker's slot has a primary, to that one. Else it is the surrogate, with the number of digits that
    /// the two share. The seeker is a name of the settings, and not the owner.
    ///
    /// Rule: docs/PROTOCOL.md, "Joining".
    pub fn seek(&self, joiner: &Name) -> Sought
        requires name { IsName self.now.table.settings joiner.now }
        requires other { joiner.now ≢ self.now.table.owner }
        ensures { result ≡ sought self.now.table joiner.now }
    {
        let table = self.ties.table();
        match table.near(joiner).primary() {
            Some(to) => Sought::Forward(to),
            None => Sought::Surrogate(table.owner().lcp(joiner) as u8),
        }
    }

    /// The ties, as the node starts to leave.
    pub fn leave(self) -> Ties
        ensures { result ≡ self }
    {
        self.ties
    }
}
