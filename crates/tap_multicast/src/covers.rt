ghost use Rattle.std.specs.Prelude.{◌≡◌, false, [], IfOk, OnOk, OnErr};
ghost use Rattle.tap_table.specs.Levels.{is_kept};
ghost use Rattle.tap_multicast.specs.Covers.{MayCover, covered, level_kept, with_cover};

use crate::cover::Cover;
use crate::offer::{left_watch, offer};
use crate::target::Target;
use crate::targets::targets;
use std::alloc::Global;
use std::collections::BTreeMap;
use std::marker::Model;
use tap_name::{List, Name, Offered};
use tap_table::{NoMemory, Table, is_kept, sent_from};
use tap_watch::Watch;

/// What a word of a joiner makes a core node do.
///
/// Rule: docs/PROTOCOL.md, "Covers".
#[derive(Debug)]
pub enum Covered {
    /// Nothing: the node covers the joiner at this level or a lesser one.
    Already,
    /// It covers the joiner now.
    Now {
        /// Whether it didn't cover the joiner before.
        first: bool,
        /// The links that it offers the joiner, ascending by name; none unless the cover is the first.
        offer: List<Offered>,
        /// The nodes that it tells of the joiner, ascending by name.
        targets: List<Target>,
        /// The slots that the joiner still waits for, which the targets are told.
        left: Watch,
    },
}

/// The joiners that a core node covers, each with the least level at which it has covered it.
///
/// Contracts see the joiners, ascending, each with its level.
///
/// Rule: docs/PROTOCOL.md, "Covers".
#[derive(Drop)]
pub struct Covers {
    alloc: Global,
    levels: BTreeMap<Name, u8>,
}

impl Model for Covers {
    ghost use Rattle.tap_multicast.specs.Covers.{CoversValue};

    ghost Value = { CoversValue };

    ghost view = { λ c. c.levels.entries };
}

impl Covers {
    /// No joiner is covered. This takes no memory; later calls take it of `alloc`.
    pub fn new(alloc: Global) -> Covers
        ensures { result ≡ [] }
    {
        Covers {
            alloc,
            levels: BTreeMap::new(alloc),
        }
    }

    /// The level at which a joiner is covered, `None` exactly if no cover of it is kept.
    pub fn level_of(&self, joiner: Name) -> Option<u8>
        ensures { result ≡ level_kept self.now joiner }
    {
        self.levels.get(&joiner).copied()
    }

    /// Takes a word of a joiner, with its prefix, a level and a watch, and answers what the owner of the
    /// table does: `Already` exactly if the level that is kept is at most this one.
    ///
    /// Else the level is kept, and the slots of the levels from this one up to the one that was kept before,
    /// or to the last if none was, are covered: the targets are their primaries and pins. The first cover
    /// also introduces the pins of the levels from the prefix up to this one, strikes the watched slots that
    /// it answers, and offers all pins and the primaries of these slots. The joiner itself is neither told
    /// nor offered.
    ///
    /// The joiner is pinned in the table. Its prefix is at most the level, and at most the number of digits that
    /// it shares with the owner; the level is at most the number of digits of a name. Each slot of the watch has a
    /// level at most the prefix, and a digit below the base. If memory is refused, nothing changes; if the answer is
    /// `Already`, none is wanted.
    pub fn cover(
        &mut self,
        joiner: Name,
        prefix: u8,
        level: u8,
        watch: &Watch,
        table: &Table,
    ) -> Result<Covered, NoMemory>
        requires { MayCover table.now watch.now joiner prefix level }
        ensures answer { IfOk result (λ turn. turn ≡ covered self.old table.now watch.now joiner prefix level) }
        ensures after { OnOk result (self.new ≡ with_cover self.old joiner level) }
        ensures same { OnErr result (self.new ≡ self.old) }
        // If the answer is `Already`, no memory is wanted.
        ensures known { OnErr result (is_kept (level_kept self.old joiner) level ≡ false) }
    {
        let kept = self.level_of(joiner);
        if is_kept(kept, level) {
            return Ok(Covered::Already);
        }
        let cover = Cover {
            joiner,
            first: kept.is_none(),
            prefix,
            level,
            before: sent_from(table.settings().digits(), kept),
        };
        let offer = offer(self.alloc, table, watch, &cover)?;
        let targets = targets(self.alloc, table, &cover)?;
        let left = left_watch(self.alloc, table, watch, &cover)?;
        self.levels.insert(joiner, level)?;
        Ok(Covered::Now {
            first: cover.first,
            offer: List::from_vec(offer),
            targets: List::from_vec(targets),
            left,
        })
    }
}
