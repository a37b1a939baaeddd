//! The parts of a snapshot, read and written. Depends on `snapshot` and `part`.
ghost use Rattle.std.specs.Prelude.{◌≡◌, ℕ, ◌+◌, ◌<◌, ◌≤◌, ◌∷◌, ◌++◌, List, length, OnOk, OnErr};
ghost use Rattle.std.specs.Vec.{vec_capacity};
ghost use Rattle.tsdb_fields.specs.Reading.{Reads};
ghost use Rattle.tsdb_log.specs.declared.record.LogRecord.{LogRecord};
ghost use Rattle.tsdb_log.specs.SnapshotLaws.{schema_rows, watermark_rows, mark_rows, listed_rows, point_rows, table_rows};
ghost use Rattle.tsdb_log.specs.SnapshotLaws.{byte_field, frozen_pair_rows, IsByte, some_schema, some_watermark, some_mark, some_listed};
ghost use Rattle.tsdb_log.specs.SnapshotLaws.{some_point, some_table, some_frozen_pair};
ghost use Rattle.tsdb_log.specs.Snapshots.{frozen_fields, front_fields, listed_fields, mark_fields, pair_fields};
ghost use Rattle.tsdb_log.specs.Snapshots.{point_fields, schema_fields, snapshot_fields, table_fields, watermark_fields};
ghost use Rattle.tsdb_log.specs.Snapshots.{AreFrozen, IsFileRecord, IsMark, IsPairRecord, IsPoint, IsSchemaRecord};
ghost use Rattle.tsdb_log.specs.Snapshots.{IsTable, IsWatermark};
ghost use Rattle.tsdb_log.specs.Snapshots.{IsFront, IsSnapshot, most_pairs};
ghost use Rattle.tsdb_log.specs.Spelling.{joined_fields};
ghost use Rattle.tsdb_log.specs.Steps.{ReadsFields, ReadsRecord};

use crate::part::{Part, put_bytes, read_part, read_parts, write_both, write_parts};
use crate::record::LogRecord;
use crate::snapshot::{
    FileRecord, MarkRecord, PairRecord, SchemaRecord, Snapshot, TableRecord, WatermarkRecord,
};
use std::alloc::Global;
use tsdb_base::{
    DataType, Encoding, FileNumber, List, Memory, Point, SeriesId, Stamp, Time, Value,
};
use tsdb_fields::{FieldFault, Rest};
use tsdb_path::Path;

impl Part for SchemaRecord {
    ghost fields = { schema_fields };

    ghost is_part = { IsSchemaRecord };

    ghost rows = { schema_rows };

    ghost some = { some_schema };

    fn read<'a>(alloc: Global, rest: Rest<'a>) -> Result<(SchemaRecord, Rest<'a>), FieldFault> {
        let ((path, (data_type, encoding)), behind) = read_part::<(Path, (DataType, Encoding))>(
            alloc, rest,
        )?;
        let schema = SchemaRecord {
            path,
            data_type,
            encoding,
        };
        Ok((schema, behind))
    }

    fn write(&self, into: &mut Vec<u8>) -> Result<(), Memory> {
        write_both(&self.path, &(self.data_type, self.encoding), into)
    }
}

impl Part for WatermarkRecord {
    ghost fields = { watermark_fields };

    ghost is_part = { IsWatermark };

    ghost rows = { watermark_rows };

    ghost some = { some_watermark };

    fn read<'a>(alloc: Global, rest: Rest<'a>) -> Result<(WatermarkRecord, Rest<'a>), FieldFault> {
        let ((device, time), behind) = read_part::<(Path, Time)>(alloc, rest)?;
        Ok((WatermarkRecord { device, time }, behind))
    }

    fn write(&self, into: &mut Vec<u8>) -> Result<(), Memory> {
        write_both(&self.device, &self.time, into)
    }
}

impl Part for MarkRecord {
    ghost fields = { mark_fields };

    ghost is_part = { IsMark };

    ghost rows = { mark_rows };

    ghost some = { some_mark };

    fn read<'a>(alloc: Global, rest: Rest<'a>) -> Result<(MarkRecord, Rest<'a>), FieldFault> {
        let ((path, (from, (to, version))), behind) = read_part::<(Path, (Time, (Time, u64)))>(
            alloc, rest,
        )?;
        let mark = MarkRecord {
            path,
            from,
            to,
            version: Stamp(version),
        };
        Ok((mark, behind))
    }

    fn write(&self, into: &mut Vec<u8>) -> Result<(), Memory> {
        write_both(&self.path, &(self.from, (self.to, self.version.0)), into)
    }
}

impl Part for FileRecord {
    ghost fields = { listed_fields };

    ghost is_part = { IsFileRecord };

    ghost rows = { listed_rows };

    ghost some = { some_listed };

    fn read<'a>(alloc: Global, rest: Rest<'a>) -> Result<(FileRecord, Rest<'a>), FieldFault> {
        let ((number, born), behind) = read_part::<(u64, u64)>(alloc, rest)?;
        let file = FileRecord {
            number: FileNumber(number),
            born: Stamp(born),
        };
        Ok((file, behind))
    }

    fn write(&self, into: &mut Vec<u8>) -> Result<(), Memory> {
        write_both(&self.number.0, &self.born.0, into)
    }
}

impl Part for Point {
    ghost fields = { point_fields };

    ghost is_part = { IsPoint };

    ghost rows = { point_rows };

    ghost some = { some_point };

    fn read<'a>(alloc: Global, rest: Rest<'a>) -> Result<(Point, Rest<'a>), FieldFault> {
        let ((time, value), behind) = read_part::<(Time, Value)>(alloc, rest)?;
        Ok((Point { time, value }, behind))
    }

    fn write(&self, into: &mut Vec<u8>) -> Result<(), Memory> {
        write_both(&self.time, &self.value, into)
    }
}

impl Part for TableRecord {
    ghost fields = { table_fields };

    ghost is_part = { IsTable };

    ghost rows = { table_rows };

    ghost some = { some_table };

    fn read<'a>(alloc: Global, rest: Rest<'a>) -> Result<(TableRecord, Rest<'a>), FieldFault> {
        let ((series, points), behind) = read_part::<(u64, List<Point>)>(alloc, rest)?;
        let table = TableRecord {
            series: SeriesId(series),
            points,
        };
        Ok((table, behind))
    }

    fn write(&self, into: &mut Vec<u8>) -> Result<(), Memory> {
        write_both(&self.series.0, &self.points, into)
    }
}

impl Part for PairRecord {
    ghost fields = { pair_fields };

    ghost is_part = { IsPairRecord };

    ghost rows = { frozen_pair_rows };

    ghost some = { some_frozen_pair };

    fn read<'a>(alloc: Global, rest: Rest<'a>) -> Result<(PairRecord, Rest<'a>), FieldFault> {
        let ((born, (sequence, unsequence)), behind) = read_part::<
            (u64, (List<TableRecord>, List<TableRecord>)),
        >(alloc, rest)?;
        let pair = PairRecord {
            born: Stamp(born),
            sequence,
            unsequence,
        };
        Ok((pair, behind))
    }

    fn write(&self, into: &mut Vec<u8>) -> Result<(), Memory> {
        self.born.0.write(into)?;
        write_both(&self.sequence, &self.unsequence, into)
    }
}

fn read_byte<'a>(rest: Rest<'a>) -> Result<(u8, Rest<'a>), FieldFault>
    ensures exact { Reads byte_field IsByte rest.entry (λ byte. byte) result }
{
    let at = rest.at;
    match rest.bytes {
        [byte, bytes @ ..] => Ok((*byte, Rest { at: at + 1, bytes })),
        _ => Err(FieldFault::Bad { at }),
    }
}

/// Frozen pairs behind their number in one byte.
fn read_frozen<'a>(
    alloc: Global,
    rest: Rest<'a>,
) -> Result<(List<PairRecord>, Rest<'a>), FieldFault>
    ensures exact { ReadsFields frozen_fields AreFrozen rest.entry (λ pairs. pairs) result }
{
    let (count, behind) = read_byte(rest)?;
    let (pairs, behind) = read_parts(alloc, count as u64, behind)?;
    Ok((List::of(pairs), behind))
}

/// The numbers of a snapshot.
type Numbers = (u64, (u64, u64));

/// What stands behind them, before the frozen pairs.
type Lists = (
    List<SchemaRecord>,
    (
        List<WatermarkRecord>,
        (List<MarkRecord>, (List<FileRecord>, List<FileRecord>)),
    ),
);

/// The record of a snapshot, whose kind stands before these bytes.
pub(crate) fn read_snapshot<'a>(
    alloc: Global,
    bytes: &'a [u8],
) -> Result<(LogRecord, Rest<'a>), FieldFault>
    ensures exact { ReadsRecord (7 ∷ bytes.now) result }
{
    let rest = Rest { at: 1, bytes };
    let ((numbers, lists), behind) = read_part::<(Numbers, Lists)>(alloc, rest)?;
    let (frozen, behind) = read_frozen(alloc, behind)?;
    let (tables, behind) = read_part::<(List<TableRecord>, List<TableRecord>)>(alloc, behind)?;
    let (generation, (stamp, next_file)) = numbers;
    let (schemas, (watermarks, (marks, (sequence, unsequence)))) = lists;
    let (working_sequence, working_unsequence) = tables;
    let snapshot = Snapshot {
        generation,
        stamp: Stamp(stamp),
        next_file,
        schemas,
        watermarks,
        marks,
        sequence,
        unsequence,
        frozen,
        working_sequence,
        working_unsequence,
    };
    Ok((LogRecord::Snapshot(snapshot), behind))
}

/// Appends what stands before the frozen pairs.
fn write_front(snapshot: &Snapshot, into: &mut Vec<u8>) -> Result<(), Memory>
    ensures ok { OnOk result (into.new.items ≡ into.old.items ++ joined_fields (front_fields snapshot.now)) }
    ensures is { OnOk result (IsFront snapshot.now) }
    ensures room { OnErr result
        (vec_capacity into.old < length into.old.items + length (joined_fields (front_fields snapshot.now))) }
    ensures capacity { vec_capacity into.old ≤ vec_capacity into.new }
{
    let numbers = (snapshot.generation, (snapshot.stamp.0, snapshot.next_file));
    numbers.write(into)?;
    write_both(&snapshot.schemas, &snapshot.watermarks, into)?;
    snapshot.marks.write(into)?;
    write_both(&snapshot.sequence, &snapshot.unsequence, into)
}

/// Appends frozen pairs behind their number in one byte.
fn write_frozen(pairs: &[PairRecord], into: &mut Vec<u8>) -> Result<(), Memory>
    requires { length pairs.now ≤ most_pairs }
    ensures ok { OnOk result (into.new.items ≡ into.old.items ++ joined_fields (frozen_fields pairs.now)) }
    ensures are { OnOk result (AreFrozen pairs.now) }
    ensures room { OnErr result
        (vec_capacity into.old < length into.old.items + length (joined_fields (frozen_fields pairs.now))) }
    ensures capacity { vec_capacity into.old ≤ vec_capacity into.new }
{
    put_bytes(&[pairs.len() as u8], into)?;
    write_parts(pairs, into)
}

/// Appends what a snapshot says, behind its kind.
pub(crate) fn write_snapshot(snapshot: &Snapshot, into: &mut Vec<u8>) -> Result<(), Memory>
    requires { length snapshot.now.frozen ≤ most_pairs }
    ensures ok { OnOk result (into.new.items ≡ into.old.items ++ joined_fields (snapshot_fields snapshot.now)) }
    ensures is { OnOk result (IsSnapshot snapshot.now) }
    ensures room { OnErr result
        (vec_capacity into.old < length into.old.items + length (joined_fields (snapshot_fields snapshot.now))) }
    ensures capacity { vec_capacity into.old ≤ vec_capacity into.new }
{
    write_front(snapshot, into)?;
    write_frozen(snapshot.frozen.items(), into)?;
    write_both(
        &snapshot.working_sequence,
        &snapshot.working_unsequence,
        into,
    )
}
