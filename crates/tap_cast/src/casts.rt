ghost use Rattle.std.specs.Prelude.{◌≡◌, ◌==◌, ◌≤◌, false, [], if◌then◌else◌, IfOk, OnOk, OnErr};
ghost use Rattle.tap_table.specs.Levels.{is_kept};
ghost use Rattle.tap_cast.specs.Casts.{level_of_cast, turn_of, with_cast};

use crate::target::CastTarget;
use crate::targets::cast_targets;
use std::alloc::Global;
use std::collections::BTreeMap;
use std::marker::Model;
use tap_name::List;
use tap_table::{NoMemory, Table, is_kept, sent_from};

/// What a copy of a cast makes a node do.
///
/// Rule: docs/PROTOCOL.md, "Casts".
#[derive(Debug, PartialEq)]
pub enum CastTurn {
    /// Nothing: the node has cast it at this level or a lesser one.
    Already,
    /// It casts now.
    Now {
        /// Whether it is the first copy that it has met.
        first: bool,
        /// The nodes to which it sends the cast on, ascending.
        targets: List<CastTarget>,
    },
}

/// The casts that a node has met, each with the least level at which it has cast it.
///
/// Contracts see the casts, ascending by number, each with its level.
///
/// Rule: docs/PROTOCOL.md, "Casts".
#[derive(Drop)]
pub struct Casts {
    alloc: Global,
    levels: BTreeMap<u32, u8>,
}

impl Model for Casts {
    ghost use Rattle.tap_cast.specs.Casts.{CastsValue};

    ghost Value = { CastsValue };

    ghost view = { λ c. c.levels.entries };
}

impl Casts {
    /// No cast was met. This takes no memory; later calls take it of `alloc`.
    pub fn new(alloc: Global) -> Casts
        ensures { result ≡ [] }
    {
        Casts {
            alloc,
            levels: BTreeMap::new(alloc),
        }
    }

    /// The level that is kept of a cast, `None` exactly if no copy of it was met.
    pub fn level_of(&self, cast: u32) -> Option<u8>
        ensures { result ≡ level_of_cast self.now cast }
    {
        self.levels.get(&cast).copied()
    }

    /// Takes a copy of a cast at a level, which is at most the number of digits, and answers what the
    /// node does: `Already` exactly if a level of at most this one is kept.
    ///
    /// Else the level is kept, and the cast goes on over the levels from this one up to the one that
    /// was kept before, or to the last if none was: in each slot of these levels to the primary, or if
    /// there is none to all pins. If memory is refused, nothing changes; if the answer is `Already`, none is wanted.
    pub fn cast(&mut self, cast: u32, level: u8, table: &Table) -> Result<CastTurn, NoMemory>
        requires { level ≤ table.now.settings.digits }
        ensures turn { IfOk result (λ turn. turn ≡ turn_of self.old table.now cast level) }
        ensures after { OnOk result (self.new ≡ with_cast self.old cast level) }
        ensures same { OnErr result (self.new ≡ self.old) }
        // If the answer is `Already`, no memory is wanted.
        ensures known { OnErr result (is_kept (level_of_cast self.old cast) level ≡ false) }
    {
        let kept = self.level_of(cast);
        if is_kept(kept, level) {
            return Ok(CastTurn::Already);
        }
        let targets = cast_targets(
            self.alloc,
            table,
            level,
            sent_from(table.settings().digits(), kept),
        )?;
        self.levels.insert(cast, level)?;
        Ok(CastTurn::Now {
            first: kept.is_none(),
            targets: List::from_vec(targets),
        })
    }
}
