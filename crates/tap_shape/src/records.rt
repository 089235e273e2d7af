ghost use Rattle.std.specs.Prelude.{◌≡◌, [], ◌∷◌, ◌++◌, IfOk, OnOk, OnErr};
ghost use Rattle.tap_log.specs.Kinds.{is_carried};

use std::alloc::Global;
use std::marker::Model;
use tap_log::{Log, NoMemory, Record, is_carried};

// The records of a log that is read. Contracts see them as a list.
#[derive(Drop)]
pub(crate) struct Records {
    log: Log,
}

impl Model for Records {
    ghost use Rattle.std.specs.Prelude.{List};
    ghost use Rattle.tap_log.specs.declared.record.Record.{Record};

    ghost Value = { List Record };

    ghost view = { λ r. r.log.records };
}

impl Records {
    // None.
    pub(crate) fn new(alloc: Global) -> Records
        ensures { result ≡ [] }
    {
        Records {
            log: Log::new(alloc),
        }
    }

    // None, with room for so many.
    pub(crate) fn with_room(alloc: Global, room: usize) -> Result<Records, NoMemory>
        ensures { IfOk result (λ records. records ≡ []) }
    {
        let mut log = Log::new(alloc);
        log.reserve(room)?;
        Ok(Records { log })
    }

    // Adds a record at the end. A refused push changes nothing.
    #[inline(always)]
    pub(crate) fn push(&mut self, item: Record) -> Result<(), NoMemory>
        ensures ok { OnOk result (self.new ≡ self.old ++ item ∷ []) }
        ensures err { OnErr result (self.new ≡ self.old) }
    {
        self.log.push(item)
    }

    // Whether packets carry the frames of the run.
    #[inline(always)]
    pub(crate) fn is_carried(&self) -> bool
        ensures { result ≡ is_carried self.now }
    {
        is_carried(self.log.as_slice())
    }

    // The log of these records.
    pub(crate) fn into_log(self) -> Log
        ensures { result.records ≡ self }
    {
        self.log
    }
}
