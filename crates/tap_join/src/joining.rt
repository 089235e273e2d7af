ghost use Rattle.std.specs.Prelude.{◌≡◌, ◌+◌, ◌<◌, ◌≤◌, true, not, length, All, IfOk, OnOk, OnErr};
ghost use Rattle.tap_name.specs.Name.{IsName};
ghost use Rattle.tap_name.specs.Names.{has_name};
ghost use Rattle.tap_table.specs.ByName.{targets_by_name};
ghost use Rattle.tap_table.specs.Table.{rows};
ghost use Rattle.tap_table.specs.Ties.{holders_on, off_ties};
ghost use Rattle.tap_join.specs.Hello.{after_hello, hello_tells};
ghost use Rattle.tap_join.specs.Joining.{given_up, started_joining, with_greeted};

use crate::core_node::Core;
use crate::hello::{take_link, take_links};
use std::alloc::Global;
use std::marker::Model;
use tap_link::Cease;
use tap_name::{List, Name, Offered, Settings};
use tap_register::Stamp;
use tap_table::{NoMemory, Tie, Ties};

/// A node that joins: its ties, with all pins that it took while joining, the joining nodes that it has
/// greeted, and whether its join was given up.
///
/// Rule: docs/PROTOCOL.md, "Joining".
#[derive(Drop)]
pub struct Joining {
    alloc: Global,
    ties: Ties,
    greeted: Vec<Name>,
    abandoned: bool,
}

impl Model for Joining {
    ghost use Rattle.tap_join.specs.Joining.{JoiningValue};

    ghost Value = { JoiningValue };

    ghost view = { λ j. record { ties = j.ties; greeted = j.greeted.items; abandoned = j.abandoned } };
}

impl Joining {
    ghost use Rattle.std.specs.Borrow.{sem};
    ghost use Rattle.tap_join.specs.Lending.{LendsJoiningTies};

    /// Starts the join of a node, which has no links and no holders yet. It is a name of the settings.
    pub fn start(alloc: Global, name: Name, settings: &Settings) -> Result<Joining, NoMemory>
        requires { IsName settings.now name }
        ensures { IfOk result (λ joining. joining ≡ started_joining settings.now name) }
    {
        Ok(Joining {
            alloc,
            ties: Ties::new(alloc, name, settings)?,
            greeted: Vec::new(alloc),
            abandoned: false,
        })
    }

    /// The ties.
    pub fn ties(&self) -> &Ties
        ensures { result.now ≡ self.now.ties }
    {
        &self.ties
    }

    /// The ties, to be changed. The nodes greeted stay, and whether the join was given up.
    pub fn ties_mut(&mut self) -> &mut Ties
        ensures* lends { sem 𝓛 (LendsJoiningTies self.entry result) }
        ensures value { result.now ≡ self.old.ties }
    {
        &mut self.ties
    }

    /// Greets another joining node: `Ok(true)` exactly at the first call for it that wasn't refused.
    /// A refused call changes nothing, and only a first one is refused.
    pub fn greet(&mut self, joiner: Name) -> Result<bool, NoMemory>
        ensures answer { IfOk result (λ first. first ≡ not (has_name self.old.greeted joiner)) }
        ensures after { OnOk result (self.new ≡ with_greeted self.old joiner) }
        ensures same { OnErr result (self.new ≡ self.old) }
        ensures once { OnErr result (not (has_name self.old.greeted joiner) ≡ true) }
    {
        if self.greeted.contains(&joiner) {
            return Ok(false);
        }
        self.greeted.push(joiner)?;
        Ok(true)
    }

    /// Takes a Hello, and gives the words for the nodes to which a link was added, in the order of the
    /// names in the Hello.
    ///
    /// The node offers itself the sender if that is a core node, and pins it otherwise. Then it takes the
    /// links in their order: it offers itself those that are known to be core nodes, and pins the others.
    /// Its own name is passed over.
    ///
    /// Once memory was refused, some of the names may have been taken, and the node is used no more. The
    /// sender and the links are names of the settings, and the stamp has a number left for each of them.
    ///
    /// Rule: docs/PROTOCOL.md, "Joining".
    pub fn hello(
        &mut self,
        stamp: &mut Stamp,
        from: Name,
        core: bool,
        links: &List<Offered>,
    ) -> Result<List<Tie>, NoMemory>
        requires sender { IsName self.old.ties.table.settings from }
        requires names { All (λ link. IsName self.old.ties.table.settings link.name) links.now }
        requires numbers { stamp.old + length links.now < u32.MAX }
        ensures answer { IfOk result (λ told. told ≡ hello_tells self.old.ties stamp.old from core links.now) }
        ensures after { OnOk result (self.new
            ≡ record self.old { ties = after_hello self.old.ties from core links.now }) }
        ensures stamped { IfOk result (λ told. stamp.new ≡ stamp.old + length told) }
        ensures owner { self.new.ties.table.owner ≡ self.old.ties.table.owner }
        ensures settings { self.new.ties.table.settings ≡ self.old.ties.table.settings }
    {
        let sender = Offered {
            name: from,
            settled: core,
        };
        let mut told = Vec::new(self.alloc);
        take_link(&mut self.ties, stamp, &sender, &mut told)?;
        take_links(&mut self.ties, stamp, links.as_slice(), &mut told)?;
        Ok(List::from_vec(told))
    }

    /// Ends the join: the node is a core node, with the same ties. It takes no memory.
    pub fn finish(self) -> Core
        ensures { result ≡ self.ties }
    {
        Core::at_rest(self.ties)
    }

    /// Gives the join up. Until it ends the node goes on as before.
    pub fn abandon(&mut self)
        ensures { self.new ≡ given_up self.old }
    {
        self.abandoned = true;
    }

    /// Whether the join was given up.
    pub fn is_abandoned(&self) -> bool
        ensures { result ≡ self.now.abandoned }
    {
        self.abandoned
    }

    /// Ends a join that was given up, and the node with it: the words for the targets of its links,
    /// ascending, that it has no link to them any more, with the next numbers of its stamp, and the holders
    /// that are on, ascending, each of which is sent a Forget.
    ///
    /// All links end with the node. It has ended too if memory is refused, when its stamp may have
    /// given some of the numbers. The stamp has a number left for each link.
    ///
    /// Rule: docs/PROTOCOL.md, "Joining".
    pub fn cease(
        self,
        stamp: &mut Stamp,
        by: Cease<Name>,
    ) -> Result<(List<Tie>, List<Name>), NoMemory>
        requires abandoned { self.abandoned ≡ true }
        requires owner { by.owner ≡ self.ties.table.owner }
        requires numbers { stamp.old + length (rows self.ties.table) ≤ u32.MAX }
        ensures links { IfOk result (λ sent. sent.0 ≡ off_ties stamp.old (targets_by_name self.ties.table)) }
        ensures forget { IfOk result (λ sent. sent.1 ≡ holders_on self.ties) }
        ensures stamped { IfOk result (λ sent. stamp.new ≡ stamp.old + length (targets_by_name self.ties.table)) }
    {
        let links = self.ties.off_ties(self.alloc, stamp)?;
        let holders = self.ties.holders_on(self.alloc)?;
        let Joining {
            alloc: _,
            ties,
            greeted: _,
            abandoned: _,
        } = self;
        ties.cease(&by);
        Ok((links, holders))
    }
}
