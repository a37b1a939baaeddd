//! Reading a record. Depends on `record`, `part`, `snapshot_parts`, `kind` and `fault`.
ghost use Rattle.std.specs.Prelude.{◌≡◌, ℕ, ◌∷◌, true, false, Err, IfOk};
ghost use Rattle.tsdb_log.specs.declared.record.LogRecord.{LogRecord};
ghost use Rattle.tsdb_log.specs.Places.{AreFieldsNearTheirEnd, BeginNoRecord, IsBadRecord, IsReadAs};
ghost use Rattle.tsdb_log.specs.Spelling.{files_fields, spelling, AreFiles, IsRecord};
ghost use Rattle.tsdb_log.specs.Steps.{ReadsFields, ReadsRecord};

use crate::fault::LogFault;
use crate::kind::{
    CREATE_KIND, DELETE_KIND, FLUSHED_KIND, FREEZE_KIND, INSERT_KIND, REPLACED_KIND, SNAPSHOT_KIND,
};
use crate::part::{read_part, read_parts};
use crate::record::LogRecord;
use crate::snapshot_parts::read_snapshot;
use std::alloc::Global;
use tsdb_base::{FileNumber, List, Memory, Range, Space, Stamp};
use tsdb_fields::{FieldFault, Rest, read_field, read_path};

/// The record that creates a series, whose kind stands before these bytes.
fn read_create<'a>(alloc: Global, bytes: &'a [u8]) -> Result<(LogRecord, Rest<'a>), FieldFault>
    ensures exact { ReadsRecord (1 ∷ bytes.now) result }
{
    let rest = Rest { at: 1, bytes };
    let (path, behind) = read_path(alloc, rest)?;
    let (data_type, behind) = read_field(alloc, behind)?;
    let (encoding, behind) = read_field(alloc, behind)?;
    let item = LogRecord::Create {
        path,
        data_type,
        encoding,
    };
    Ok((item, behind))
}

/// The record that inserts a row, whose kind stands before these bytes.
fn read_insert<'a>(alloc: Global, bytes: &'a [u8]) -> Result<(LogRecord, Rest<'a>), FieldFault>
    ensures exact { ReadsRecord (2 ∷ bytes.now) result }
{
    let rest = Rest { at: 1, bytes };
    let (time, behind) = read_field(alloc, rest)?;
    let (count, behind) = read_field::<u16>(alloc, behind)?;
    let (cells, behind) = read_parts(alloc, count as u64, behind)?;
    let item = LogRecord::Insert {
        time,
        cells: List::of(cells),
    };
    Ok((item, behind))
}

/// The record that deletes points of a series, whose kind stands before these bytes.
fn read_delete<'a>(alloc: Global, bytes: &'a [u8]) -> Result<(LogRecord, Rest<'a>), FieldFault>
    ensures exact { ReadsRecord (3 ∷ bytes.now) result }
{
    let rest = Rest { at: 1, bytes };
    let (path, behind) = read_path(alloc, rest)?;
    let (from, behind) = read_field(alloc, behind)?;
    let (to, behind) = read_field(alloc, behind)?;
    let item = LogRecord::Delete {
        path,
        range: Range { from, to },
    };
    Ok((item, behind))
}

/// The record of a flush, whose kind stands before these bytes.
fn read_flushed<'a>(alloc: Global, bytes: &'a [u8]) -> Result<(LogRecord, Rest<'a>), FieldFault>
    ensures exact { ReadsRecord (5 ∷ bytes.now) result }
{
    let rest = Rest { at: 1, bytes };
    let (sequence, behind) = read_field(alloc, rest)?;
    let (unsequence, behind) = read_field(alloc, behind)?;
    let item = LogRecord::Flushed {
        sequence: FileNumber(sequence),
        unsequence: FileNumber(unsequence),
    };
    Ok((item, behind))
}

/// Files behind their number.
fn read_files<'a>(alloc: Global, rest: Rest<'a>) -> Result<(List<FileNumber>, Rest<'a>), FieldFault>
    ensures exact { ReadsFields files_fields AreFiles rest.entry (λ files. files) result }
{
    let (count, behind) = read_field::<u32>(alloc, rest)?;
    let (files, behind) = read_parts(alloc, count as u64, behind)?;
    Ok((List::of(files), behind))
}

/// The record of a replacement, whose kind stands before these bytes.
fn read_replaced<'a>(alloc: Global, bytes: &'a [u8]) -> Result<(LogRecord, Rest<'a>), FieldFault>
    ensures exact { ReadsRecord (6 ∷ bytes.now) result }
{
    let rest = Rest { at: 1, bytes };
    let ((born, (space, (place, output))), behind) = read_part::<(u64, (Space, (u64, u64)))>(
        alloc, rest,
    )?;
    let (sequence, behind) = read_files(alloc, behind)?;
    let (unsequence, behind) = read_files(alloc, behind)?;
    let item = LogRecord::Replaced {
        born: Stamp(born),
        space,
        place,
        output: FileNumber(output),
        sequence,
        unsequence,
    };
    Ok((item, behind))
}

/// The record that bytes begin with, and what stands behind it.
fn read_first<'a>(alloc: Global, payload: &'a [u8]) -> Result<(LogRecord, Rest<'a>), FieldFault>
    ensures exact { ReadsRecord payload.now result }
{
    let Some((kind, bytes)) = payload.split_first() else {
        return Err(FieldFault::Bad { at: 0 });
    };
    match *kind {
        CREATE_KIND => read_create(alloc, bytes),
        INSERT_KIND => read_insert(alloc, bytes),
        DELETE_KIND => read_delete(alloc, bytes),
        FREEZE_KIND => Ok((LogRecord::Freeze, Rest { at: 1, bytes })),
        FLUSHED_KIND => read_flushed(alloc, bytes),
        REPLACED_KIND => read_replaced(alloc, bytes),
        SNAPSHOT_KIND => read_snapshot(alloc, bytes),
        _ => Err(FieldFault::Bad { at: 0 }),
    }
}

/// Reads a record. It is `Bad` exactly where no record has these bytes, with the place of the first field that is none,
/// or of the first byte after the last field. It takes time and memory linear in the bytes.
pub fn read_record(alloc: Global, payload: &[u8]) -> Result<LogRecord, LogFault>
    ensures record { IfOk result IsRecord }
    ensures found { IfOk result (λ item. payload.now ≡ spelling item) }
    ensures bad { (at : ℕ) → result ≡ Err (LogFault.Bad at) → IsBadRecord payload.now at }
    ensures good { (item : LogRecord) → IsRecord item → payload.now ≡ spelling item → IsReadAs item result }
{
    let (item, rest) = read_first(alloc, payload)?;
    if !rest.bytes.is_empty() {
        return Err(LogFault::Bad { at: rest.at });
    }
    Ok(item)
}

/// The most bytes of a field: those of a text, and of its length before it.
const MAX_FIELD_BYTES: u64 = 65_537;

/// Whether a record may begin with these bytes. It is false exactly where the first field that is none has so many
/// bytes behind it that it is not only cut. It takes time and memory linear in the bytes.
pub fn may_begin(alloc: Global, bytes: &[u8]) -> Result<bool, Memory>
    ensures none { IfOk result (λ may. may ≡ false → BeginNoRecord bytes.now) }
    ensures near { IfOk result (λ may. may ≡ true → AreFieldsNearTheirEnd bytes.now) }
{
    let size = bytes.len() as u64;
    if size < MAX_FIELD_BYTES {
        return Ok(true);
    }
    match read_record(alloc, bytes) {
        Ok(item) => {
            drop(item);
            Ok(true)
        }
        Err(LogFault::Bad { at }) => Ok(size - MAX_FIELD_BYTES < at),
        Err(LogFault::Memory) => Err(Memory),
    }
}
