//! What becomes of a pair of points: it is frozen, and then in files. Depends on `logged_memory`.
ghost use Rattle.std.specs.Prelude.{◌≡◌, ◌≢◌, ◌<◌, ◌≤◌, [], OnOk, length};
ghost use Rattle.tsdb_memory.specs.Answers.{IsFreezeAnswer, answer_by};
ghost use Rattle.tsdb_memory.specs.Changes.{HasFrozen, MemoryAfter};
ghost use Rattle.tsdb_memory.specs.Fits.{HasNoPairPoint};
ghost use Rattle.tsdb_log.specs.declared.record.LogRecord.{LogRecord};
ghost use Rattle.tsdb_memory.specs.Store.{frozen_with_working};
ghost use Rattle.tsdb_state.specs.Jobs.{flushed_bytes};
ghost use Rattle.tsdb_base.specs.Limits.{max_frozen};

use crate::logged_memory::{LoggedMemory, answer_of};
use tsdb_base::{Answer, FileNumber, Memory, Stamp};
use tsdb_log::LogRecord;
use tsdb_outside::{Failed, Journal, StoreFault};

/// How many bytes the record of a flush has with its length and a gate.
const FLUSHED_BYTES: usize = 22;

impl<J: Journal> LoggedMemory<J> {
    ghost use Rattle.tsdb_memory.specs.Commands.{CanStop, HasCommandEffect, IsPrepared};
    ghost use Rattle.tsdb_memory.specs.Flushes.{IsFlushed};
    ghost use Rattle.tsdb_memory.specs.LogState.{memory_of, framed_room};

    /// Freezes the working pair, which has a point: it stands behind the frozen ones, of which at most one may be there
    /// before. The series and the stamp stay, and a new working pair has no point.
    pub fn freeze(&mut self) -> Answer
        requires room { length (memory_of self.old).frozen < max_frozen }
        requires some { ¬ HasNoPairPoint (memory_of self.old).working }
        ensures answer { IsFreezeAnswer result }
        ensures command { HasCommandEffect self.old self.new LogRecord.Freeze CanStop result }
        ensures series { (memory_of self.new).series ≡ (memory_of self.old).series }
        ensures stamp { (memory_of self.new).stamp ≡ (memory_of self.old).stamp }
        ensures frozen { result ≡ Answer.Done → (memory_of self.new).frozen ≡ frozen_with_working (memory_of self.old) }
        ensures unfrozen { result ≢ Answer.Done → (memory_of self.new).frozen ≡ (memory_of self.old).frozen }
        ensures working { result ≡ Answer.Done → (memory_of self.new).working ≡ [] }
        ensures memory { MemoryAfter HasFrozen (memory_of self.old) (memory_of self.new) result }
    {
        answer_of(self.write_freeze())
    }

    fn write_freeze(&mut self) -> Result<(), StoreFault>
        requires room { length (memory_of self.old).frozen < max_frozen }
        requires some { ¬ HasNoPairPoint (memory_of self.old).working }
        ensures command { HasCommandEffect self.old self.new LogRecord.Freeze CanStop (answer_by result) }
        ensures series { (memory_of self.new).series ≡ (memory_of self.old).series }
        ensures stamp { (memory_of self.new).stamp ≡ (memory_of self.old).stamp }
        ensures frozen { answer_by result ≡ Answer.Done
            → (memory_of self.new).frozen ≡ frozen_with_working (memory_of self.old) }
        ensures unfrozen { answer_by result ≢ Answer.Done
            → (memory_of self.new).frozen ≡ (memory_of self.old).frozen }
        ensures working { answer_by result ≡ Answer.Done → (memory_of self.new).working ≡ [] }
        ensures memory { MemoryAfter HasFrozen (memory_of self.old) (memory_of self.new) (answer_by result) }
    {
        let freezing = self.memory.prepare_freeze()?;
        self.append(&LogRecord::Freeze)?;
        self.memory.finish_freeze(freezing);
        Ok(())
    }

    /// Makes room for the record of a flush.
    pub fn reserve_flushed(&mut self) -> Result<(), Memory>
        ensures kept { IsPrepared self.old self.new }
        ensures same { memory_of self.new ≡ memory_of self.old }
        ensures room { OnOk result (flushed_bytes ≤ framed_room self.new) }
    {
        Ok(self.framed.reserve(FLUSHED_BYTES)?)
    }

    /// The oldest frozen pair is in these files; a part without points has none, and the number 0. `listed` is the least
    /// stamp at which a file was frozen that is listed then. It takes no memory.
    pub fn append_flushed(
        &mut self,
        sequence: FileNumber,
        unsequence: FileNumber,
        listed: Option<Stamp>,
    ) -> Result<(), Failed>
        requires some { 0 < length (memory_of self.old).frozen }
        requires room { flushed_bytes ≤ framed_room self.old }
        ensures { IsFlushed self.old self.new sequence unsequence listed result }
    {
        let item = LogRecord::Flushed {
            sequence,
            unsequence,
        };
        match self.append(&item) {
            Ok(()) => self.memory.finish_flushed(listed),
            Err(StoreFault::Failed) => return Err(Failed),
            Err(StoreFault::Memory) => unreachable!(),
        }
        Ok(())
    }
}
