ghost use Rattle.std.specs.Prelude.{◌≡◌, ◌≤◌, ◌||◌, [], length};
ghost use Rattle.tap_name.specs.Name.{IsName};
ghost use Rattle.tap_table.specs.Table.{empty_table, rows};
ghost use Rattle.tap_wire.specs.Spelling.{IsBody};
ghost use Rattle.tap_rule.specs.Strange.{is_leaving, is_no_pin, is_strange, is_strange_body, is_strange_seek, is_strange_tell, is_too_many, most_links_kept, names_to_link};
ghost use Rattle.tap_node_common.specs.Strangers.{IsFor, IsForNode, IsValid, table_known};

use crate::known::Known;
use crate::room::{has_no_room, has_no_room_for};
use tap_link::Kind;
use tap_multicast::Covers;
use tap_name::{Name, Settings};
use tap_table::Table;
use tap_wire::{Body, Frame};

// The depth that no frame goes beyond.
const MOST_DEPTH: u16 = 65_535;

/// Whether a frame is strange to a node with this table and these covers, which then refuses it. The table has at most 255
/// links, and the frame's body keeps the rules of its fields. It takes no memory.
///
/// Rule: docs/PROTOCOL.md, "Strange frames".
#[inline(always)]
pub fn is_strange(table: &Table, covers: &Covers, frame: &Frame) -> bool
    requires few { length (rows table.now) ≤ most_links_kept }
    requires body { IsBody table.now.settings frame.now.body }
    ensures { IsForNode table.now covers.now (λ node. is_strange node frame.now) result }
{
    frame.from == table.owner() || is_strange_from_another(Known::Kept { table, covers }, frame)
}

/// Whether a frame is strange to a node of this name that has ended, and so has no links and covers nobody. The name is one of
/// the settings, and the frame's body keeps the rules of its fields. It takes no memory.
///
/// Rule: docs/PROTOCOL.md, "Strange frames".
pub fn is_strange_to_ended(settings: &Settings, name: &Name, frame: &Frame) -> bool
    requires name { IsName settings.now name.now }
    requires body { IsBody settings.now frame.now.body }
    ensures { IsForNode (empty_table settings.now name.now) [] (λ node. is_strange node frame.now) result }
{
    frame.from == *name || is_strange_from_another(Known::Nothing { settings, name }, frame)
}

// Whether a frame that isn't from the node itself is strange to it: by what it says, or by the names that it could link.
#[inline(always)]
#[tactic(auto, unfolding(tap_rule::specs::Strange::is_strange_body, tap_rule::specs::Strange::names_to_link))]
fn is_strange_from_another(known: Known<'_>, frame: &Frame) -> bool
    requires valid { IsValid known }
    requires few { length (rows (table_known known)) ≤ most_links_kept }
    requires body { IsBody (table_known known).settings frame.now.body }
    ensures { IsFor known.entry (λ node. is_strange_body node frame.now.body
        || is_too_many node (names_to_link frame.now.from frame.now.body)) result }
{
    match &frame.body {
        Body::Seek { joiner } => is_strange_seek(known, joiner) || has_no_room(known, joiner),
        Body::Tell {
            joiner,
            prefix,
            depth,
            ..
        } => is_strange_tell(known, joiner, *prefix, *depth) || has_no_room(known, joiner),
        Body::Hello { links, .. } => has_no_room_for(known, &frame.from, links.as_slice()),
        Body::Leave {
            replacement: Some(name),
        } => has_no_room(known, name),
        Body::Cast { depth, .. } => *depth == MOST_DEPTH,
        _ => false,
    }
}

// A Seek is strange of the node itself, of a joiner that it covers, and of one that it links to as leaving.
fn is_strange_seek(known: Known<'_>, joiner: &Name) -> bool
    ensures { IsFor known.entry (λ node. is_strange_seek node joiner.now) result }
{
    *joiner == known.owner() || known.covers(joiner) || is_leaving(known.kind_of(joiner))
}

// A Tell is strange of the node itself, of a joiner that it links to otherwise than by a pin, with a prefix above what the
// two share, and at the greatest depth.
fn is_strange_tell(known: Known<'_>, joiner: &Name, prefix: u8, depth: u16) -> bool
    ensures { IsFor known.entry (λ node. is_strange_tell node joiner.now prefix depth) result }
{
    let owner = known.owner();
    *joiner == owner
        || is_no_pin(known.kind_of(joiner))
        || owner.lcp(joiner) < prefix as usize
        || depth == MOST_DEPTH
}

// Whether a link is leaving.
fn is_leaving(kind: Option<Kind>) -> bool
    ensures { result ≡ is_leaving kind }
{
    match kind {
        Some(Kind::Leaving) => true,
        Some(Kind::Pin) | Some(Kind::Settled) | None => false,
    }
}

// Whether a link is there and is no pin.
fn is_no_pin(kind: Option<Kind>) -> bool
    ensures { result ≡ is_no_pin kind }
{
    match kind {
        Some(Kind::Settled) | Some(Kind::Leaving) => true,
        Some(Kind::Pin) | None => false,
    }
}
