//! The replay of the records that change memory alone: a creation, a deletion and a freeze. Depends on `opening`.
ghost use Rattle.std.specs.Prelude.{◌<◌, ◌↔◌, IsTrue};
ghost use Rattle.tsdb_log.specs.declared.record.LogRecord.{LogRecord};
ghost use Rattle.tsdb_redo.specs.Changes.{IsCreation, IsDeletion, IsFreezing};
ghost use Rattle.tsdb_redo.specs.Redone.{IsRedone};
ghost use Rattle.tsdb_base.specs.Limits.{end_of_numbers};

use crate::fault::RedoFault;
use crate::opening::Opening;
use tsdb_base::limits::{END_OF_NUMBERS, MAX_FROZEN};
use tsdb_base::{Range, suits};
use tsdb_model::Schema;
use tsdb_path::Path;

/// The greatest stamp, at which no change has a replay.
const LAST_STAMP: u64 = END_OF_NUMBERS;

impl Opening {
    /// Whether one more command can be counted.
    pub(crate) fn has_stamp(&self) -> bool
        ensures { IsTrue result ↔ (self.now.memory.stamp < end_of_numbers) }
    {
        self.memory.stamp() < LAST_STAMP
    }

    /// A series joins.
    pub(crate) fn redo_create(&mut self, schema: Schema) -> Result<(), RedoFault>
        ensures { IsRedone self.old self.new (LogRecord.Create schema.path schema.data_type schema.encoding) result }
    {
        if !self.can_create(&schema) {
            return Err(RedoFault::NoReplay);
        }
        self.memory.prepare_create()?;
        self.memory.finish_create(schema);
        Ok(())
    }

    /// Whether the series is well-formed and not there, and can be counted.
    fn can_create(&self, schema: &Schema) -> bool
        ensures { IsTrue result ↔ IsCreation self.now.memory schema.now }
    {
        if schema.path.nodes() < 3 {
            return false;
        }
        if !suits(schema.data_type, schema.encoding) {
            return false;
        }
        if self.memory.series(&schema.path).is_some() {
            return false;
        }
        self.has_stamp()
    }

    /// Points of a series are deleted.
    pub(crate) fn redo_delete(&mut self, path: Path, range: &Range) -> Result<(), RedoFault>
        ensures { IsRedone self.old self.new (LogRecord.Delete path range.now) result }
    {
        if !self.can_delete(&path) {
            return Err(RedoFault::NoReplay);
        }
        self.memory.prepare_delete(range)?;
        self.memory.finish_delete(path, range, self.files.least);
        Ok(())
    }

    /// Whether the series is there, and a deletion can be counted.
    fn can_delete(&self, path: &Path) -> bool
        ensures { IsTrue result ↔ IsDeletion self.now.memory path.now }
    {
        if self.memory.series(path).is_none() {
            return false;
        }
        self.has_stamp()
    }

    /// The working pair is frozen.
    pub(crate) fn redo_freeze(&mut self) -> Result<(), RedoFault>
        ensures { IsRedone self.old self.new LogRecord.Freeze result }
    {
        if !self.can_freeze() {
            return Err(RedoFault::NoReplay);
        }
        let freezing = self.memory.prepare_freeze()?;
        self.memory.finish_freeze(freezing);
        Ok(())
    }

    /// Whether the working pair has a point, and there is a place for one more frozen pair.
    fn can_freeze(&self) -> bool
        ensures { IsFreezing self.now.memory result }
    {
        if self.memory.frozen().len() >= MAX_FROZEN {
            return false;
        }
        !self.memory.is_idle()
    }
}
