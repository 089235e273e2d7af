ghost use Rattle.std.specs.Prelude.{◌≡◌, ◌<◌, IfOk, IfSome, MatchOption, Some, ◌∷◌, [], map, filter, slice_index};
ghost use Rattle.tap_name.specs.Name.{IsName};
ghost use Rattle.tap_name.specs.Root.{first_of};
ghost use Rattle.tap_surrogate.specs.Nodes.{IsCore, IsLeast, IsLeastLink, core_links};
ghost use Rattle.tap_surrogate.specs.Walk.{hop, walk};

use crate::memory::NoMemory;
use crate::tables::Tables;
use std::alloc::Global;
use std::marker::Model;
use tap_link::LinkSet;
use tap_name::{List, Name, Slot, next_cyclic};
use tap_table::Table;

/// One step of a walk.
///
/// Rule: docs/PROTOCOL.md, "Walks".
#[derive(Clone, Copy, Debug, PartialEq, Eq)]
pub enum Step1 {
    /// The walk has hopped to this node.
    Hop(Name),
    /// The walk stands at this node for all levels that are left: it is the root.
    Root(Name),
}

/// A walk of an object from node to node, by surrogate routing.
///
/// At each level the digits are tried cyclically from the object's. The first one that is the
/// node's own, or whose slot has a link to a core node, is taken: for its own digit the walk stays,
/// else it hops to the least of these nodes.
///
/// Rule: docs/PROTOCOL.md, "Walks".
#[derive(Debug, Drop)]
pub struct Walk {
    node: Name,
    level: u8,
    object: Name,
}

impl Model for Walk {
    ghost use Rattle.tap_surrogate.specs.Standing.{WalkValue};

    ghost Value = { WalkValue };

    ghost view = { λ w. record { node = w.node; level = w.level; object = w.object } };
}

impl Walk {
    ghost use Rattle.tap_surrogate.specs.Standing.{IsStanding, path_left};
    ghost use Rattle.tap_surrogate.specs.Step1.{IsWalkHop, IsWalkStep};

    /// The walk of an object that stands at a node and has made no hop.
    pub fn new(from: Name, object: Name) -> Walk
        ensures { result ≡ record { node = from; level = 0; object = object } }
    {
        Walk {
            node: from,
            level: 0,
            object,
        }
    }

    /// The node where the walk stands.
    pub fn node(&self) -> Name
        ensures { result ≡ self.now.node }
    {
        self.node
    }

    /// Makes the next hop of the walk over the tables of nodes, or says that the walk stands at the
    /// root. Asked again at the root, it says so again. No memory.
    ///
    /// The walk stands at a core node, and its object is a name of the settings.
    pub fn next<T: Tables>(&mut self, tables: &T) -> Step1
        requires { IsStanding (T.parameters tables.now) (T.nodes tables.now) self.old }
        ensures step { IsWalkStep (T.parameters tables.now) (T.nodes tables.now) self.old self.new result }
        ensures standing { IsStanding (T.parameters tables.now) (T.nodes tables.now) self.new }
    {
        match self.after_hop(tables) {
            Some(after) => {
                let to = after.node;
                *self = after;
                Step1::Hop(to)
            }
            None => {
                self.level = tables.settings().digits();
                Step1::Root(self.node)
            }
        }
    }

    // The walk after its next hop, `None` if it stays for all levels that are left.
    fn after_hop<T: Tables>(&self, tables: &T) -> Option<Walk>
        requires { IsStanding (T.parameters tables.now) (T.nodes tables.now) self.now }
        ensures { let p = T.parameters tables.now in let nodes = T.nodes tables.now in
            MatchOption result
            (path_left p.base (core_links nodes) self.now ≡ self.now.node ∷ [])
            (λ after. IsWalkHop p nodes self.now after) }
    {
        let Some(table) = tables.table_of(self.node) else {
            unreachable!()
        };
        for level in self.level..table.settings().digits() {
            if !table.may_have_links_from(level as usize) {
                // No slot of the levels that are left has a link.
                return None;
            }
            let own = self.node.digit(level as usize);
            let wanted = self.object.digit(level as usize);
            if let Some(to) = hop_at(tables, table, level, own, wanted) {
                return Some(Walk {
                    node: to,
                    level: level + 1,
                    object: self.object,
                });
            }
        }
        None
    }
}

/// The nodes of the whole walk of an object from a core node: this node first, the root last.
///
/// The object is a name of the settings.
///
/// Rule: docs/PROTOCOL.md, "Walks".
pub fn walk_path<T: Tables>(
    alloc: Global,
    tables: &T,
    from: Name,
    object: Name,
) -> Result<List<Name>, NoMemory>
    requires from { IsCore (T.nodes tables.now) from }
    requires object { IsName (T.parameters tables.now) object }
    ensures { let base = (T.parameters tables.now).base in
        IfOk result (λ path. path ≡ walk base (core_links (T.nodes tables.now)) from object) }
{
    let mut path = List::new(alloc);
    let mut walk = Walk::new(from, object);
    loop {
        path.push(walk.node())?;
        if let Step1::Root(_) = walk.next(tables) {
            return Ok(path);
        }
    }
}

// The hop of a walk at a level, from the node whose table and own digit this is; `None` if the walk stays.
fn hop_at<T: Tables>(tables: &T, table: &Table, level: u8, own: u8, wanted: u8) -> Option<Name>
    requires table { (T.nodes tables.now).table_of table.now.owner ≡ Some table.now }
    requires settings { table.now.settings ≡ T.parameters tables.now }
    requires level { level < (T.parameters tables.now).digits }
    requires own { own ≡ slice_index table.now.owner level }
    requires wanted { wanted < (T.parameters tables.now).base }
    ensures core { IfSome result (IsCore (T.nodes tables.now)) }
    ensures least { IfSome result (IsLeastLink (T.nodes tables.now) table.now.owner) }
    ensures value { let base = (T.parameters tables.now).base in
        result ≡ hop base (core_links (T.nodes tables.now)) table.now.owner level wanted }
{
    let base = table.settings().base();
    let mut digit = wanted;
    while digit != own {
        // Most slots have no link.
        let links = table.slot(Slot { level, digit });
        if !links.is_empty() {
            if let Some(to) = first_core(tables, links) {
                return Some(to);
            }
        }
        digit = next_cyclic(base, digit);
    }
    None
}

// The first core node among the targets of links, which is the least one.
fn first_core<T: Tables>(tables: &T, links: &LinkSet<Name>) -> Option<Name>
    ensures core { IfSome result (IsCore (T.nodes tables.now)) }
    ensures least { IfSome result
        (IsLeast (filter (T.nodes tables.now).core (map (λ e. e.target) links.now.links))) }
    ensures value { result
        ≡ first_of (filter (T.nodes tables.now).core (map (λ e. e.target) links.now.links)) }
{
    for at in 0..links.len() {
        let target = links.target_at(at);
        if tables.is_core(target) {
            return Some(target);
        }
    }
    None
}
