//! Writing a record. Depends on `record`, `part`, `snapshot_parts` and `kind`.
ghost use Rattle.std.specs.Prelude.{◌≡◌, ◌+◌, ◌<◌, ◌≤◌, ◌∷◌, ◌++◌, length, All, IfOk, OnErr, OnOk};
ghost use Rattle.std.specs.Vec.{vec_capacity};
ghost use Rattle.tsdb_log.specs.Spelling.{joined_fields, cells_fields, files_fields, most_cells, most_files, spelling};
ghost use Rattle.tsdb_log.specs.Spelling.{AreFiles, HasFewParts, IsCell, IsRecord};

use crate::kind::{
    CREATE_KIND, DELETE_KIND, FLUSHED_KIND, FREEZE_KIND, INSERT_KIND, REPLACED_KIND, SNAPSHOT_KIND,
};
use crate::part::{Part, put_bytes, write_both, write_parts};
use crate::record::{CellRecord, LogRecord};
use crate::snapshot_parts::write_snapshot;
use std::alloc::Global;
use tsdb_base::{FileNumber, Memory, Range, Time};
use tsdb_path::Path;

/// Appends the kind of a record, and two parts of it.
fn write_of_kind<A: Part, B: Part>(
    kind: u8,
    first: &A,
    second: &B,
    into: &mut Vec<u8>,
) -> Result<(), Memory>
    ensures ok { OnOk result (into.new.items
        ≡ into.old.items ++ (kind ∷ joined_fields (A.fields first.now ++ B.fields second.now))) }
    ensures is { OnOk result (A.is_part first.now × B.is_part second.now) }
    ensures room { OnErr result (vec_capacity into.old
        < length into.old.items + length (kind ∷ joined_fields (A.fields first.now ++ B.fields second.now))) }
    ensures capacity { vec_capacity into.old ≤ vec_capacity into.new }
{
    put_bytes(&[kind], into)?;
    write_both(first, second, into)
}

/// Appends cells behind their number.
fn write_cells(cells: &[CellRecord], into: &mut Vec<u8>) -> Result<(), Memory>
    requires { length cells.now ≤ most_cells }
    ensures ok { OnOk result (into.new.items ≡ into.old.items ++ joined_fields (cells_fields cells.now)) }
    ensures are { OnOk result (All IsCell cells.now) }
    ensures room { OnErr result
        (vec_capacity into.old < length into.old.items + length (joined_fields (cells_fields cells.now))) }
    ensures capacity { vec_capacity into.old ≤ vec_capacity into.new }
{
    put_bytes(&(cells.len() as u16).to_be_bytes(), into)?;
    write_parts(cells, into)
}

/// Appends files behind their number.
fn write_files(files: &[FileNumber], into: &mut Vec<u8>) -> Result<(), Memory>
    requires { length files.now ≤ most_files }
    ensures ok { OnOk result (into.new.items ≡ into.old.items ++ joined_fields (files_fields files.now)) }
    ensures are { OnOk result (AreFiles files.now) }
    ensures room { OnErr result
        (vec_capacity into.old < length into.old.items + length (joined_fields (files_fields files.now))) }
    ensures capacity { vec_capacity into.old ≤ vec_capacity into.new }
{
    put_bytes(&(files.len() as u32).to_be_bytes(), into)?;
    write_parts(files, into)
}

/// Appends the record that inserts a row.
fn write_insert(time: Time, cells: &[CellRecord], into: &mut Vec<u8>) -> Result<(), Memory>
    requires { length cells.now ≤ most_cells }
    ensures ok { OnOk result (into.new.items ≡ into.old.items ++ spelling (LogRecord.Insert time cells.now)) }
    ensures is { OnOk result (IsRecord (LogRecord.Insert time cells.now)) }
    ensures room { OnErr result (vec_capacity into.old
        < length into.old.items + length (spelling (LogRecord.Insert time cells.now))) }
    ensures capacity { vec_capacity into.old ≤ vec_capacity into.new }
{
    put_bytes(&[INSERT_KIND], into)?;
    time.write(into)?;
    write_cells(cells, into)
}

/// Appends the record that deletes points of a series.
fn write_delete(path: &Path, range: &Range, into: &mut Vec<u8>) -> Result<(), Memory>
    ensures ok { OnOk result (into.new.items ≡ into.old.items ++ spelling (LogRecord.Delete path.now range.now)) }
    ensures is { OnOk result (IsRecord (LogRecord.Delete path.now range.now)) }
    ensures room { OnErr result (vec_capacity into.old
        < length into.old.items + length (spelling (LogRecord.Delete path.now range.now))) }
    ensures capacity { vec_capacity into.old ≤ vec_capacity into.new }
{
    put_bytes(&[DELETE_KIND], into)?;
    path.write(into)?;
    write_both(&range.from, &range.to, into)
}

/// Appends the inputs of a replacement, those of the sequence space first.
fn write_inputs(
    sequence: &[FileNumber],
    unsequence: &[FileNumber],
    into: &mut Vec<u8>,
) -> Result<(), Memory>
    requires sequence { length sequence.now ≤ most_files }
    requires unsequence { length unsequence.now ≤ most_files }
    ensures ok { OnOk result (into.new.items
        ≡ into.old.items ++ joined_fields (files_fields sequence.now ++ files_fields unsequence.now)) }
    ensures are { OnOk result (AreFiles sequence.now × AreFiles unsequence.now) }
    ensures room { OnErr result (vec_capacity into.old < length into.old.items
        + length (joined_fields (files_fields sequence.now ++ files_fields unsequence.now))) }
    ensures capacity { vec_capacity into.old ≤ vec_capacity into.new }
{
    write_files(sequence, into)?;
    write_files(unsequence, into)
}

/// Appends the bytes of a record, and takes no memory where they fit the room that `into` has. It needs at most 65,535
/// cells, at most 4,294,967,295 inputs of each space, and at most 255 frozen pairs. After `Memory` it may have appended
/// some of them.
pub fn append_record(item: &LogRecord, into: &mut Vec<u8>) -> Result<(), Memory>
    requires { HasFewParts item.now }
    ensures ok { OnOk result (into.new.items ≡ into.old.items ++ spelling item.now) }
    ensures record { OnOk result (IsRecord item.now) }
    ensures room { OnErr result (vec_capacity into.old < length into.old.items + length (spelling item.now)) }
    ensures capacity { vec_capacity into.old ≤ vec_capacity into.new }
{
    match item {
        LogRecord::Create {
            path,
            data_type,
            encoding,
        } => write_of_kind(CREATE_KIND, path, &(*data_type, *encoding), into),
        LogRecord::Insert { time, cells } => write_insert(*time, cells.items(), into),
        LogRecord::Delete { path, range } => write_delete(path, range, into),
        LogRecord::Freeze => put_bytes(&[FREEZE_KIND], into),
        LogRecord::Flushed {
            sequence,
            unsequence,
        } => write_of_kind(FLUSHED_KIND, &sequence.0, &unsequence.0, into),
        LogRecord::Replaced {
            born,
            space,
            place,
            output,
            sequence,
            unsequence,
        } => {
            write_of_kind(REPLACED_KIND, &born.0, &(*space, (*place, output.0)), into)?;
            write_inputs(sequence.items(), unsequence.items(), into)
        }
        LogRecord::Snapshot(snapshot) => {
            put_bytes(&[SNAPSHOT_KIND], into)?;
            write_snapshot(snapshot, into)
        }
    }
}

/// The bytes of a record. It needs what `append_record` needs.
pub fn write_record(alloc: Global, item: &LogRecord) -> Result<Vec<u8>, Memory>
    requires { HasFewParts item.now }
    ensures ok { IfOk result (λ bytes. bytes.items ≡ spelling item.now) }
    ensures record { OnOk result (IsRecord item.now) }
{
    let mut bytes = Vec::new(alloc);
    append_record(item, &mut bytes)?;
    Ok(bytes)
}
