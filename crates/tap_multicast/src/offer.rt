ghost use Rattle.std.specs.Prelude.{◌≡◌, ◌<◌, ◌≤◌, ◌++◌, ◌&&◌, ◌||◌, All, IfOk, OnOk, is_some};
ghost use Rattle.std.specs.List.{flat_map};
ghost use Rattle.tap_link.specs.LinkSet.{least_settled};
ghost use Rattle.tap_name.specs.Name.{IsName};
ghost use Rattle.tap_table.specs.ByName.{slots_in};
ghost use Rattle.tap_table.specs.Members.{is_slot};
ghost use Rattle.tap_table.specs.Table.{links_at};
ghost use Rattle.tap_multicast.specs.Covers.{MayWatch};
ghost use Rattle.tap_multicast.specs.Offer.{has_slot, left, offer, offers, unanswered};
ghost use Rattle.tap_multicast.specs.Slots.{offered_among, offered_in};

use crate::cover::{Cover, is_primary};
use std::alloc::Global;
use tap_link::{Kind, LinkSet};
use tap_name::{Name, Offered, Slot, slot_of};
use tap_table::{NoMemory, SlotRange, Table};
use tap_watch::Watch;

// What a cover offers the joiner, ascending by name.
pub(crate) fn offer(
    alloc: Global,
    table: &Table,
    watch: &Watch,
    cover: &Cover,
) -> Result<Vec<Offered>, NoMemory>
    ensures { IfOk result (λ list. list.items ≡ offer table.now watch.now cover.now) }
{
    let mut offer = Vec::new(alloc);
    if cover.first {
        let ranges = 2 * table.settings().digits() as usize;
        for i in 0..ranges {
            push_range(
                &mut offer,
                table,
                watch,
                cover.joiner,
                table.range_by_name(i),
            )?;
        }
    }
    Ok(offer)
}

// Adds what is offered in these slots.
fn push_range(
    offer: &mut Vec<Offered>,
    table: &Table,
    watch: &Watch,
    joiner: Name,
    range: SlotRange,
) -> Result<(), NoMemory>
    requires level { range.level < table.now.settings.digits }
    requires end { range.to ≤ table.now.settings.base }
    ensures { OnOk result (offer.new.items
        ≡ offer.old.items ++ flat_map (offered_in table.now watch.now joiner) (slots_in range)) }
{
    if !table.may_have_links_from(range.level as usize) {
        return Ok(());
    }
    for digit in range.from..range.to {
        let slot = Slot {
            level: range.level,
            digit,
        };
        push_slot(offer, watch, joiner, slot, table.slot(slot))?;
    }
    Ok(())
}

// Adds what is offered among the links of this slot.
fn push_slot(
    offer: &mut Vec<Offered>,
    watch: &Watch,
    joiner: Name,
    slot: Slot,
    set: &LinkSet<Name>,
) -> Result<(), NoMemory>
    ensures { OnOk result (offer.new.items ≡ offer.old.items
        ++ offered_among joiner (is_some (least_settled set.now.links) && has_slot watch.now slot) set.now.links) }
{
    let primary = set.primary();
    let answered = is_watched(watch, slot, &primary);
    for at in 0..set.len() {
        let name = set.target_at(at);
        let kind = set.kind_at(at);
        if offers(&joiner, answered, &primary, &name, kind) {
            offer.push(Offered {
                name,
                settled: kind.is_settled(),
            })?;
        }
    }
    Ok(())
}

// Whether a slot that has this primary is watched, and so is answered.
fn is_watched(watch: &Watch, slot: Slot, primary: &Option<Name>) -> bool
    ensures { result ≡ (is_some primary.now && has_slot watch.now slot) }
{
    primary.is_some() && watch.has(slot)
}

// Whether a link is offered that stands in a slot with this primary, which is answered or not.
fn offers(joiner: &Name, answered: bool, primary: &Option<Name>, target: &Name, kind: Kind) -> bool
    ensures { result ≡ offers joiner.now answered primary.now (record { target = target.now; kind = kind }) }
{
    (kind.is_pin() && *joiner != *target) || (answered && is_primary(primary, target))
}

// The watch that a cover leaves.
pub(crate) fn left_watch(
    alloc: Global,
    table: &Table,
    watch: &Watch,
    cover: &Cover,
) -> Result<Watch, NoMemory>
    requires joiner { IsName table.now.settings cover.now.joiner }
    requires prefix { cover.now.prefix < table.now.settings.digits }
    requires watched { All (MayWatch table.now.settings.base cover.now.prefix) watch.now }
    ensures { IfOk result (λ w. w ≡ left table.now watch.now cover.now) }
{
    if cover.first {
        return unanswered(alloc, table, watch, cover);
    }
    let left = watch.as_slice().to_vec(alloc)?;
    Ok(Watch::from_vec(left))
}

// The slots of a watch that the owner of the table doesn't answer.
fn unanswered(alloc: Global, table: &Table, watch: &Watch, cover: &Cover) -> Result<Watch, NoMemory>
    requires joiner { IsName table.now.settings cover.now.joiner }
    requires prefix { cover.now.prefix < table.now.settings.digits }
    requires watched { All (MayWatch table.now.settings.base cover.now.prefix) watch.now }
    ensures { IfOk result (λ w. w ≡ unanswered table.now cover.now.joiner watch.now) }
{
    let own = slot_of(&cover.joiner, &table.owner());
    let mut left = Vec::new(alloc);
    for slot in watch.as_slice() {
        if !answers(table, own, *slot) {
            left.push(*slot)?;
        }
    }
    Ok(Watch::from_vec(left))
}

// Whether the owner of a table answers a slot of a joiner, at which it has this slot itself.
fn answers(table: &Table, own: Option<Slot>, slot: Slot) -> bool
    requires level { slot.level < table.now.settings.digits }
    requires digit { slot.digit < table.now.settings.base }
    ensures { result ≡ (is_slot slot own || is_some (least_settled (links_at table.now slot))) }
{
    is_own(own, slot) || table.primary(slot).is_some()
}

// Whether the owner has this slot itself.
fn is_own(own: Option<Slot>, slot: Slot) -> bool
    ensures { result ≡ is_slot slot own }
{
    match own {
        Some(own) => own == slot,
        None => false,
    }
}
