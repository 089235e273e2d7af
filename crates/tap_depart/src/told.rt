ghost use Rattle.std.specs.Prelude.{◌≡◌, ◌≢◌, ◌<◌, None, IsOk, IfOk, IfSome, OnOk, OnErr};
ghost use Rattle.tap_name.specs.Name.{IsName};
ghost use Rattle.tap_table.specs.Ties.{marked, stamp_after};
ghost use Rattle.tap_depart.specs.ToldLeave.{taken_in, told_leave, told_leave_tells};

use tap_name::Name;
use tap_register::Stamp;
use tap_table::{NoMemory, Tie, Ties};

/// Takes the notice of a leaving node at one of its holders, and gives the word for the replacement
/// exactly if a link to it was added.
///
/// The settled link to the leaver is marked as leaving. If the leaver's slot then has no settled
/// link that isn't leaving, and a replacement is given, the holder offers itself the replacement,
/// unless it is that node.
///
/// `NoMemory` comes only for a replacement. The link to the leaver is then marked all the same, and
/// nothing else has changed. The leaver and the replacement are names of the settings, and the leaver
/// isn't the holder.
///
/// Rule: docs/PROTOCOL.md, "Departure".
pub fn told_leave(
    ties: &mut Ties,
    stamp: &mut Stamp,
    leaver: Name,
    replacement: Option<Name>,
) -> Result<Option<Tie>, NoMemory>
    requires name { IsName ties.old.table.settings leaver }
    requires other { leaver ≢ ties.old.table.owner }
    requires replacement { IfSome replacement (IsName ties.old.table.settings) }
    requires number { stamp.old < u32.MAX }
    ensures answer { IfOk result (λ tie. tie ≡ told_leave_tells ties.old stamp.old leaver replacement) }
    ensures after { OnOk result (ties.new ≡ told_leave ties.old leaver replacement) }
    ensures stamped { OnOk result (stamp.new ≡ stamp_after stamp.old (told_leave_tells ties.old stamp.old leaver replacement)) }
    ensures refused { OnErr result (ties.new ≡ marked ties.old leaver) }
    ensures same_stamp { OnErr result (stamp.new ≡ stamp.old) }
    ensures unasked { taken_in (marked ties.old leaver) leaver replacement ≡ None → IsOk result }
    ensures owner { ties.new.table.owner ≡ ties.old.table.owner }
    ensures settings { ties.new.table.settings ≡ ties.old.table.settings }
{
    ties.mark_leaving(leaver);
    match wanted(ties, &leaver, replacement) {
        Some(name) => ties.offer(stamp, name),
        None => Ok(None),
    }
}

// The replacement that a holder takes which has marked the leaver.
fn wanted(ties: &Ties, leaver: &Name, replacement: Option<Name>) -> Option<Name>
    requires name { IsName ties.now.table.settings leaver.now }
    requires other { leaver.now ≢ ties.now.table.owner }
    ensures { result ≡ taken_in ties.now leaver.now replacement }
{
    let name = replacement?;
    let table = ties.table();
    if table.near(leaver).primary().is_some() || name == table.owner() {
        return None;
    }
    Some(name)
}
