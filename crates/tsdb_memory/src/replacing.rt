//! Files are replaced: by the output of a compaction, or by none. Depends on `logged_memory`.
ghost use Rattle.std.specs.Prelude.{◌≤◌, OnOk};
ghost use Rattle.tsdb_memory.specs.Replacing.{IsReplacement, replacement_bytes};

use crate::logged_memory::LoggedMemory;
use tsdb_base::{Memory, Stamp};
use tsdb_log::LogRecord;
use tsdb_outside::{Failed, Journal, StoreFault};

/// How many bytes the record of a replacement has with its length and a gate, without those of its inputs.
const REPLACED_BYTES: usize = 39;

/// How many bytes the number of an input has.
const INPUT_BYTES: usize = 8;

impl<J: Journal> LoggedMemory<J> {
    ghost use Rattle.tsdb_memory.specs.Commands.{IsPrepared};
    ghost use Rattle.tsdb_memory.specs.LogState.{framed_room};
    ghost use Rattle.tsdb_memory.specs.Replacing.{IsReplaced};

    /// Makes room for the record of a replacement of so many files.
    pub fn reserve_replaced(&mut self, inputs: usize) -> Result<(), Memory>
        ensures kept { IsPrepared self.old self.new }
        ensures room { OnOk result (replacement_bytes inputs ≤ framed_room self.new) }
    {
        let Some(bytes) = inputs.checked_mul(INPUT_BYTES) else {
            return Err(Memory);
        };
        let Some(bytes) = bytes.checked_add(REPLACED_BYTES) else {
            return Err(Memory);
        };
        Ok(self.framed.reserve(bytes)?)
    }

    /// The files that the record names are replaced by its output, if it has one. `listed` is the least stamp at
    /// which a file was frozen that is listed then. It takes no memory.
    pub fn append_replaced(&mut self, item: &LogRecord, listed: Option<Stamp>) -> Result<(), Failed>
        requires { IsReplacement (framed_room self.old) item.now }
        ensures { IsReplaced self.old self.new item.now listed result }
    {
        match self.append(item) {
            Ok(()) => self.memory.finish_replaced(listed),
            Err(StoreFault::Failed) => return Err(Failed),
            Err(StoreFault::Memory) => unreachable!(),
        }
        Ok(())
    }
}
