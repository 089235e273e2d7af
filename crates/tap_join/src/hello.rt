ghost use Rattle.std.specs.Prelude.{◌≡◌, ◌<◌, ◌≤◌, ◌+◌, ◌++◌, length, All, IfOk, OnOk};
ghost use Rattle.tap_name.specs.Name.{IsName};
ghost use Rattle.tap_table.specs.Ties.{stamp_after};
ghost use Rattle.tap_join.specs.Hello.{after_links, links_tell, offered_tells, with_offered, words_of};

use tap_name::Offered;
use tap_register::Stamp;
use tap_table::{NoMemory, Tie, Ties};

// Takes the names of a Hello, one after another, and adds the words for those to which a link was added.
pub(crate) fn take_links(
    ties: &mut Ties,
    stamp: &mut Stamp,
    links: &[Offered],
    told: &mut Vec<Tie>,
) -> Result<(), NoMemory>
    requires names { All (λ link. IsName ties.old.table.settings link.name) links.now }
    requires numbers { stamp.old + length links.now ≤ u32.MAX }
    ensures after { OnOk result (ties.new ≡ after_links ties.old links.now) }
    ensures told { OnOk result (told.new.items ≡ told.old.items ++ links_tell ties.old stamp.old links.now) }
    ensures stamped { OnOk result (stamp.new ≡ stamp.old + length (links_tell ties.old stamp.old links.now)) }
    ensures owner { ties.new.table.owner ≡ ties.old.table.owner }
    ensures settings { ties.new.table.settings ≡ ties.old.table.settings }
{
    for link in links {
        take_link(ties, stamp, link, told)?;
    }
    Ok(())
}

// Takes one name of a Hello, and adds the word for it if a link was added.
pub(crate) fn take_link(
    ties: &mut Ties,
    stamp: &mut Stamp,
    link: &Offered,
    told: &mut Vec<Tie>,
) -> Result<(), NoMemory>
    requires name { IsName ties.old.table.settings link.now.name }
    requires number { stamp.old < u32.MAX }
    ensures after { OnOk result (ties.new ≡ with_offered ties.old link.now) }
    ensures told { OnOk result (told.new.items ≡ told.old.items ++ words_of (offered_tells ties.old stamp.old link.now)) }
    ensures stamped { OnOk result (stamp.new ≡ stamp.old + length (words_of (offered_tells ties.old stamp.old link.now))) }
    ensures owner { ties.new.table.owner ≡ ties.old.table.owner }
    ensures settings { ties.new.table.settings ≡ ties.old.table.settings }
{
    if let Some(tie) = link_to(ties, stamp, link)? {
        told.push(tie)?;
    }
    Ok(())
}

// Offers or pins one name of a Hello, and gives the word for it if a link was added.
fn link_to(ties: &mut Ties, stamp: &mut Stamp, link: &Offered) -> Result<Option<Tie>, NoMemory>
    requires name { IsName ties.old.table.settings link.now.name }
    requires number { stamp.old < u32.MAX }
    ensures answer { IfOk result (λ tie. tie ≡ offered_tells ties.old stamp.old link.now) }
    ensures after { OnOk result (ties.new ≡ with_offered ties.old link.now) }
    ensures stamped { OnOk result (stamp.new ≡ stamp_after stamp.old (offered_tells ties.old stamp.old link.now)) }
    ensures owner { ties.new.table.owner ≡ ties.old.table.owner }
    ensures settings { ties.new.table.settings ≡ ties.old.table.settings }
{
    if link.name == ties.table().owner() {
        return Ok(None);
    }
    if link.settled {
        ties.offer(stamp, link.name)
    } else {
        ties.pin(stamp, link.name)
    }
}
