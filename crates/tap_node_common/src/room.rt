ghost use Rattle.std.specs.Prelude.{◌≡◌, ◌≤◌, [], ◌∷◌, length, map};
ghost use Rattle.tap_table.specs.Table.{rows};
ghost use Rattle.tap_wire.specs.Spelling.{AreLinks};
ghost use Rattle.tap_rule.specs.Strange.{is_too_many, most_links_kept};
ghost use Rattle.tap_node_common.specs.Strangers.{IsFor, IsValid, is_known_to, new_among, new_beside, table_known};

use crate::known::Known;
use tap_name::{Name, Offered};
use tap_wire::MOST_LINKS;

// Whether a link to this name may be one too many.
pub(crate) fn has_no_room(known: Known<'_>, name: &Name) -> bool
    requires valid { IsValid known }
    requires few { length (rows (table_known known)) ≤ most_links_kept }
    ensures { IsFor known.entry (λ node. is_too_many node (name.now ∷ [])) result }
{
    MOST_LINKS < known.links() + new_links(known, name)
}

// How many links to this name may be added: one if it is neither the node's own nor linked.
fn new_links(known: Known<'_>, name: &Name) -> usize
    ensures { result ≡ new_beside (table_known known.entry) name.now }
{
    if is_known(known, name) { 0 } else { 1 }
}

// Whether a name is the node's own or linked.
fn is_known(known: Known<'_>, name: &Name) -> bool
    ensures { result ≡ is_known_to (table_known known.entry) name.now }
{
    *name == known.owner() || known.kind_of(name).is_some()
}

// Whether links to the sender of a Hello and to all its names may be too many. If even all of them fit, none is looked up.
#[inline(never)]
pub(crate) fn has_no_room_for(known: Known<'_>, from: &Name, links: &[Offered]) -> bool
    requires valid { IsValid known }
    requires few { length (rows (table_known known)) ≤ most_links_kept }
    requires links { AreLinks (table_known known).settings links.now }
    ensures { IsFor known.entry (λ node. is_too_many node (from.now ∷ map (λ link. link.name) links.now)) result }
{
    let with_sender = known.links() + new_links(known, from);
    if with_sender + links.len() <= MOST_LINKS {
        return false;
    }
    MOST_LINKS < with_sender + others_new(known, from, links)
}

// How many of these names but the sender are neither the node's own nor linked.
fn others_new(known: Known<'_>, from: &Name, links: &[Offered]) -> usize
    ensures { result ≡ new_among (table_known known.entry) from.now links.now }
{
    links
        .iter()
        .filter(|link| !(link.name == *from || is_known(known, &link.name)))
        .count()
}
