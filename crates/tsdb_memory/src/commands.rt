//! The changes of a user: a series is created, a row inserted, points deleted. Depends on `logged_memory`.
ghost use Rattle.std.specs.Prelude.{List as ListOf, ℕ, ℤ, ◌≡◌, ◌≢◌, ◌<◌, ◌≤◌, ◌≤ℤ◌, All, AllPairs, IfOk, IsSome, None, OnOk, length, slice_get};
ghost use Rattle.std.specs.Option.{IsSomeAnd};
ghost use Rattle.tsdb_log.specs.declared.record.LogRecord.{LogRecord};
ghost use Rattle.tsdb_memory.specs.Answers.{IsAccepted, IsCreateAnswer, IsDeleteAnswer, answer_by};
ghost use Rattle.tsdb_base.specs.declared.point.Range.{Range as RangeOf};
ghost use Rattle.tsdb_log.specs.declared.record.CellRecord.{CellRecord as CellOf};
ghost use Rattle.tsdb_memory.specs.Changes.{HasCreated, HasDeleted, HasInserted, MemoryAfter};
ghost use Rattle.tsdb_memory.specs.Commands.{IsCreateRecord, IsDeleteRecord, IsInsertion, create_record as record_of};
ghost use Rattle.tsdb_model.specs.Commands.{IsSchema};
ghost use Rattle.tsdb_memory.specs.Model.{IsFitting};
ghost use Rattle.tsdb_memory.specs.StateOfMemory.{number_of};
ghost use Rattle.tsdb_memtable.specs.Pairs.{spare_of};
ghost use Rattle.tsdb_base.specs.Limits.{end_of_numbers};

use crate::logged_memory::{LoggedMemory, answer_of};
use tsdb_base::limits::END_OF_NUMBERS;
use tsdb_base::{Answer, List, Memory, Range, Stamp, Time};
use tsdb_log::{CellRecord, LogRecord};
use tsdb_model::Schema;
use tsdb_outside::{Journal, StoreFault};
use tsdb_path::Path;

/// The last stamp.
const LAST_STAMP: u64 = END_OF_NUMBERS;

impl<J: Journal> LoggedMemory<J> {
    ghost use Rattle.tsdb_memory.specs.Commands.{NeedsNothing, HasCommandEffect, IsPrepared, create_record};
    ghost use Rattle.tsdb_memory.specs.LogState.{memory_of};

    /// Creates a series, which is numbered behind the others.
    pub fn create(&mut self, schema: &Schema) -> Answer
        requires { IsSchema schema.now }
        ensures answer { IsCreateAnswer (memory_of self.old) schema.now.path result }
        ensures command { HasCommandEffect self.old self.new (create_record schema.now) NeedsNothing result }
        ensures memory { MemoryAfter (HasCreated schema.now) (memory_of self.old) (memory_of self.new) result }
    {
        let counter = self.memory.stamp();
        if self.memory.series(&schema.path).is_some() {
            return Answer::Exists;
        }
        if counter == LAST_STAMP {
            return Answer::Full { counter };
        }
        answer_of(self.write_create(schema))
    }

    fn write_create(&mut self, schema: &Schema) -> Result<(), StoreFault>
        requires formed { IsSchema schema.now }
        requires free { number_of (memory_of self.old).series schema.now.path ≡ None }
        requires stamp { (memory_of self.old).stamp < end_of_numbers }
        ensures command { HasCommandEffect self.old self.new (create_record schema.now) NeedsNothing (answer_by result) }
        ensures memory { MemoryAfter (HasCreated schema.now) (memory_of self.old) (memory_of self.new)
            (answer_by result) }
    {
        let item = self.prepare_create(schema)?;
        let item = self.log_record(item)?;
        self.memory.finish_create(created_by(item));
        Ok(())
    }

    /// Takes the memory of a creation: that of its record, and of a place for its series.
    fn prepare_create(&mut self, schema: &Schema) -> Result<LogRecord, Memory>
        ensures kept { IsPrepared self.old self.new }
        ensures item { IfOk result (λ item. item ≡ create_record schema.now) }
        ensures place { OnOk result (0 < (memory_of self.new).places.series) }
    {
        self.memory.prepare_create()?;
        Ok(LogRecord::Create {
            path: schema.path.copy()?,
            data_type: schema.data_type,
            encoding: schema.encoding,
        })
    }
}

impl<J: Journal> LoggedMemory<J> {
    ghost use Rattle.tsdb_memory.specs.Commands.{HasLeast, HasCommandEffect, IsPrepared};
    ghost use Rattle.tsdb_memory.specs.LogState.{memory_of};

    /// Deletes the points of a series in a range. `listed` is the least stamp at which a listed file was frozen.
    pub fn delete(&mut self, series: &Path, range: &Range, listed: Option<Stamp>) -> Answer
        ensures answer { IsDeleteAnswer (memory_of self.old) series.now result }
        ensures command { HasCommandEffect self.old self.new (LogRecord.Delete series.now range.now)
            (HasLeast listed) result }
        ensures memory { MemoryAfter (HasDeleted series.now range.now listed) (memory_of self.old) (memory_of self.new)
            result }
    {
        let counter = self.memory.stamp();
        if self.memory.series(series).is_none() {
            return Answer::NoPath;
        }
        if counter == LAST_STAMP {
            return Answer::Full { counter };
        }
        answer_of(self.write_delete(series, range, listed))
    }

    fn write_delete(
        &mut self,
        series: &Path,
        range: &Range,
        listed: Option<Stamp>,
    ) -> Result<(), StoreFault>
        requires there { IsSome (number_of (memory_of self.old).series series.now) }
        requires stamp { (memory_of self.old).stamp < end_of_numbers }
        ensures command { HasCommandEffect self.old self.new (LogRecord.Delete series.now range.now) (HasLeast listed)
            (answer_by result) }
        ensures memory { MemoryAfter (HasDeleted series.now range.now listed) (memory_of self.old) (memory_of self.new)
            (answer_by result) }
    {
        let item = self.prepare_delete(series, range)?;
        let item = self.log_record(item)?;
        self.memory.finish_delete(deleted_by(item), range, listed);
        Ok(())
    }

    /// Takes the memory of a deletion: that of its record, and of its mark.
    fn prepare_delete(&mut self, series: &Path, range: &Range) -> Result<LogRecord, Memory>
        ensures kept { IsPrepared self.old self.new }
        ensures item { IfOk result (λ item. item ≡ LogRecord.Delete series.now range.now) }
        ensures place { OnOk result (range.now.from ≤ℤ range.now.to → 0 < (memory_of self.new).marks.spare) }
    {
        self.memory.prepare_delete(range)?;
        Ok(LogRecord::Delete {
            path: series.copy()?,
            range: *range,
        })
    }
}

impl<J: Journal> LoggedMemory<J> {
    ghost use Rattle.tsdb_memory.specs.Commands.{CanPut, HasCommandEffect, IsPrepared};
    ghost use Rattle.tsdb_memory.specs.LogState.{memory_of};

    /// Inserts the cells of a row, which are of different series of the device.
    pub fn insert(&mut self, device: &Path, time: Time, cells: List<CellRecord>) -> Answer
        requires few { length cells ≤ 1000 }
        requires differ { AllPairs (λ cell other. cell.series.0 ≢ other.series.0) cells }
        requires there { All (λ cell. IsSomeAnd (slice_get (memory_of self.old).series cell.series.0)
            (IsFitting device.now cell)) cells }
        ensures answer { IsAccepted (memory_of self.old).stamp result }
        ensures command { HasCommandEffect self.old self.new (LogRecord.Insert time cells) (CanPut time cells) result }
        ensures memory { MemoryAfter (HasInserted device.now time cells) (memory_of self.old) (memory_of self.new) result }
    {
        let counter = self.memory.stamp();
        if counter == LAST_STAMP {
            return Answer::Full { counter };
        }
        answer_of(self.write_insert(device, time, cells))
    }

    fn write_insert(
        &mut self,
        device: &Path,
        time: Time,
        cells: List<CellRecord>,
    ) -> Result<(), StoreFault>
        requires few { length cells ≤ 1000 }
        requires differ { AllPairs (λ cell other. cell.series.0 ≢ other.series.0) cells }
        requires there { All (λ cell. IsSomeAnd (slice_get (memory_of self.old).series cell.series.0)
            (IsFitting device.now cell)) cells }
        requires stamp { (memory_of self.old).stamp < end_of_numbers }
        ensures command { HasCommandEffect self.old self.new (LogRecord.Insert time cells) (CanPut time cells)
            (answer_by result) }
        ensures memory { MemoryAfter (HasInserted device.now time cells) (memory_of self.old) (memory_of self.new)
            (answer_by result) }
    {
        let item = self.prepare_insert(time, cells)?;
        let item = self.log_record(item)?;
        self.memory.finish_insert(device, time, inserted_by(item));
        Ok(())
    }

    /// Takes the memory of a row: that of a point more of each series that has no room for one.
    fn prepare_insert(&mut self, time: Time, cells: List<CellRecord>) -> Result<LogRecord, Memory>
        ensures kept { IsPrepared self.old self.new }
        ensures item { IfOk result (λ item. item ≡ LogRecord.Insert time cells) }
        ensures place { OnOk result (All (λ cell. 0 < spare_of cell.series.0 (memory_of self.new).working) cells) }
    {
        self.memory.prepare_insert(cells.items())?;
        Ok(LogRecord::Insert { time, cells })
    }
}

/// The series that a record creates.
fn created_by(item: LogRecord) -> Schema
    requires { IsCreateRecord item }
    ensures { record_of result ≡ item }
{
    match item {
        LogRecord::Create {
            path,
            data_type,
            encoding,
        } => Schema {
            path,
            data_type,
            encoding,
        },
        _ => unreachable!(),
    }
}

/// The path of the series of which a record deletes points.
fn deleted_by(item: LogRecord) -> Path
    requires { IsDeleteRecord item }
    ensures { (range : RangeOf) (path : ListOf ℕ) → item ≡ LogRecord.Delete path range → result ≡ path }
{
    match item {
        LogRecord::Delete { path, range: _ } => path,
        _ => unreachable!(),
    }
}

/// The cells that a record inserts.
fn inserted_by(item: LogRecord) -> List<CellRecord>
    requires { IsInsertion item }
    ensures { (time : ℤ) (cells : ListOf CellOf) → item ≡ LogRecord.Insert time cells → result ≡ cells }
{
    match item {
        LogRecord::Insert { time: _, cells } => cells,
        _ => unreachable!(),
    }
}
