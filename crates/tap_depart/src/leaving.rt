ghost use Rattle.std.specs.Prelude.{◌≡◌, ◌==◌, ◌+◌, ◌<◌, ◌≤◌, map, length, slice_get, Some, IfOk, IfErr};
ghost use Rattle.tap_table.specs.ByName.{targets_by_name};
ghost use Rattle.tap_table.specs.Table.{rows};
ghost use Rattle.tap_table.specs.Ties.{holders_on, off_ties};
ghost use Rattle.tap_depart.specs.Leaving.{left_by, notice_for, started_leaving};

use crate::notice::Notice;
use crate::replacement::replacement_for;
use std::alloc::Global;
use std::marker::Model;
use tap_name::{List, Name};
use tap_register::Stamp;
use tap_table::{NoMemory, Table, Tie, Ties};

/// A node that leaves in order: its ties, the notices for its holders, and the holders that haven't
/// answered theirs.
///
/// The notices are those of the start, whatever happens to the ties afterwards.
///
/// Rule: docs/PROTOCOL.md, "Departure".
#[derive(Drop)]
pub struct Leaving {
    alloc: Global,
    ties: Ties,
    notices: Vec<Notice>,
    awaited: Vec<Name>,
}

impl Model for Leaving {
    ghost use Rattle.tap_depart.specs.Leaving.{LeavingValue};

    ghost Value = { LeavingValue };

    ghost view = { λ l. record { ties = l.ties; notices = l.notices.items; awaited = l.awaited.items } };
}

impl Leaving {
    ghost use Rattle.std.specs.Borrow.{sem};
    ghost use Rattle.tap_depart.specs.Lending.{LendsLeavingTies};

    /// Starts the departure of a node: it awaits each holder that is on, and has a notice for each of
    /// them. If memory is refused, the ties come back as they were.
    pub fn start(alloc: Global, ties: Ties) -> Result<Leaving, Ties>
        ensures value { IfOk result (λ leaving. leaving ≡ started_leaving ties) }
        ensures back { IfErr result (λ back. back ≡ ties) }
    {
        match start_lists(alloc, &ties) {
            Ok((notices, awaited)) => Ok(Leaving {
                alloc,
                ties,
                notices,
                awaited,
            }),
            Err(NoMemory) => Err(ties),
        }
    }

    /// How many notices there are: one for each holder that was on at the start.
    pub fn notice_count(&self) -> usize
        ensures { result ≡ length self.now.notices }
    {
        self.notices.len()
    }

    /// A notice by its place in ascending order of the holders, from 0.
    pub fn notice_at(&self, i: usize) -> Notice
        requires { i < length self.now.notices }
        ensures { slice_get self.now.notices i ≡ Some result }
    {
        self.notices[i]
    }

    /// Takes the answer of a holder, and answers whether no holder is awaited after it. A holder that
    /// isn't awaited changes nothing.
    pub fn left(&mut self, holder: Name) -> bool
        ensures answer { result ≡ (length (left_by self.old holder).awaited == 0) }
        ensures after { self.new ≡ left_by self.old holder }
    {
        self.awaited.retain(|name| *name != holder);
        self.awaited.is_empty()
    }

    /// How many holders are awaited.
    pub fn awaited(&self) -> usize
        ensures { result ≡ length self.now.awaited }
    {
        self.awaited.len()
    }

    /// The ties.
    pub fn ties(&self) -> &Ties
        ensures { result.now ≡ self.now.ties }
    {
        &self.ties
    }

    /// The ties, to be changed. The notices and the awaited holders stay.
    pub fn ties_mut(&mut self) -> &mut Ties
        ensures* lends { sem 𝓛 (LendsLeavingTies self.entry result) }
        ensures value { result.now ≡ self.old.ties }
    {
        &mut self.ties
    }

    /// Ends the node, once no holder is awaited: the words for the targets of its links, ascending, that
    /// it has no link to them any more, with the next numbers of its stamp, and the holders that are on,
    /// ascending, each of which is sent a Gone.
    ///
    /// All links end with the node. It has ended too if memory is refused, when its stamp may have given
    /// some of the numbers. The stamp has a number left for each link.
    pub fn finish(self, stamp: &mut Stamp) -> Result<(List<Tie>, List<Name>), NoMemory>
        requires awaits { length self.awaited ≡ 0 }
        requires numbers { stamp.old + length (rows self.ties.table) ≤ u32.MAX }
        ensures links { IfOk result (λ sent. sent.0 ≡ off_ties stamp.old (targets_by_name self.ties.table)) }
        ensures gone { IfOk result (λ sent. sent.1 ≡ holders_on self.ties) }
        ensures stamped { IfOk result (λ sent. stamp.new ≡ stamp.old + length (targets_by_name self.ties.table)) }
    {
        let links = self.ties.off_ties(self.alloc, stamp)?;
        let holders = self.ties.holders_on(self.alloc)?;
        Ok((links, holders))
    }
}

// The notices for the holders that are on, and these holders.
fn start_lists(alloc: Global, ties: &Ties) -> Result<(Vec<Notice>, Vec<Name>), NoMemory>
    ensures notices { IfOk result (λ lists. lists.0.items ≡ map (notice_for ties.now.table) (holders_on ties.now)) }
    ensures awaited { IfOk result (λ lists. lists.1.items ≡ holders_on ties.now) }
{
    let holders = ties.holders_on(alloc)?;
    let notices = notices_for(alloc, ties.table(), holders.as_slice())?;
    Ok((notices, holders.into_vec()))
}

// A notice for each of these holders.
fn notices_for(alloc: Global, table: &Table, holders: &[Name]) -> Result<Vec<Notice>, NoMemory>
    ensures { IfOk result (λ notices. notices.items ≡ map (notice_for table.now) holders.now) }
{
    let mut notices = Vec::new(alloc);
    for holder in holders {
        notices.push(Notice {
            to: *holder,
            replacement: replacement_for(table, holder),
        })?;
    }
    Ok(notices)
}
