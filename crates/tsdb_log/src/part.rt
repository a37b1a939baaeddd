//! Parts of records, each written in fields one behind another. Numbers, names and values are parts, two parts one
//! behind the other are one, and so are parts behind their number. Depends on `record`, tsdb_fields,
//! tsdb_path and tsdb_base.
ghost use Rattle.std.specs.Prelude.{◌≡◌, ℕ, ◌+◌, ◌<◌, ◌≤◌, List, [], ◌∷◌, ◌++◌, length, All, OnOk, OnErr, FitsSigned};
ghost use Rattle.std.specs.Int.{w64};
ghost use Rattle.std.specs.List.{flat_map};
ghost use Rattle.std.specs.Vec.{vec_capacity};
ghost use Rattle.tsdb_base.specs.Fields.{number64, type_field, encoding_field, value_field};
ghost use Rattle.tsdb_base.specs.Plain.{plain_i64, plain_text, AreValues, IsText};
ghost use Rattle.tsdb_base.specs.Values.{IsValue};
ghost use Rattle.tsdb_path.specs.Nodes.{IsPath};
ghost use Rattle.tsdb_fields.specs.Reading.{Reads};
ghost use Rattle.tsdb_log.specs.PartLaws.{number_rows, time_rows, path_rows, type_rows, encoding_rows, space_rows, typed_rows};
ghost use Rattle.tsdb_log.specs.PartLaws.{pair_rows, counted_rows, some_number, some_time, some_path, some_type};
ghost use Rattle.tsdb_log.specs.PartLaws.{some_encoding, some_space, some_typed, some_pair, none_counted};
ghost use Rattle.tsdb_log.specs.PartLaws.{cell_rows, file_rows, some_cell, some_file};
ghost use Rattle.tsdb_log.specs.Rows.{both, field, AreBoth, IsAny, IsNumber64, IsRowForm};
ghost use Rattle.tsdb_log.specs.Snapshots.{counted_fields, typed_fields, AreCounted};
ghost use Rattle.tsdb_log.specs.Spelling.{joined_fields, cell_fields, file_fields, space_field, IsCell, IsFileField};
ghost use Rattle.tsdb_log.specs.Steps.{IsMissingField, ReadsFields};

use crate::record::CellRecord;
use std::alloc::Global;
use std::marker::PhantomData;
use tsdb_base::{
    DataType, Encoding, FileNumber, List, Memory, SeriesId, Space, Time, Value, encoding_byte,
    type_byte,
};
use tsdb_fields::{FieldFault, FieldReader, Rest, read_field, read_fields, read_path, read_value};
use tsdb_path::Path;

/// What is written in fields, one behind another.
pub(crate) trait Part: Drop + Sized {
    /// The fields of a part.
    ghost fields: { Self → List (List ℕ) };

    /// What its bytes can hold.
    ghost is_part: { Self → Type 0 };

    /// The part that the bytes begin with, and what stands behind it.
    fn read<'a>(alloc: Global, rest: Rest<'a>) -> Result<(Self, Rest<'a>), FieldFault>
        ensures exact { ReadsFields fields is_part rest.entry (λ part. part) result };

    /// Appends the bytes of the part. Where they fit the room that `into` has, it takes no memory.
    fn write(&self, into: &mut Vec<u8>) -> Result<(), Memory>
        ensures ok { OnOk result (into.new.items ≡ into.old.items ++ joined_fields (fields self.now)) }
        ensures is { OnOk result (is_part self.now) }
        ensures room { OnErr result
            (vec_capacity into.old < length into.old.items + length (joined_fields (fields self.now))) }
        ensures capacity { vec_capacity into.old ≤ vec_capacity into.new };

    /// No part begins another, and none goes further than one that stands there.
    ghost rows: { IsRowForm fields is_part };

    /// There is a part.
    ghost some: { (part : Self) × is_part part };
}

/// Appends these bytes. Where they fit the room that `into` has, it takes no memory.
pub(crate) fn put_bytes(bytes: &[u8], into: &mut Vec<u8>) -> Result<(), Memory>
    ensures ok { OnOk result (into.new.items ≡ into.old.items ++ bytes.now) }
    ensures room { OnErr result (vec_capacity into.old < length into.old.items + length bytes.now) }
    ensures capacity { vec_capacity into.old ≤ vec_capacity into.new }
{
    into.extend_from_slice(bytes)?;
    Ok(())
}

/// Appends two bytes of length, the higher first, and the bytes of a path or a text.
fn put_text(bytes: &[u8], into: &mut Vec<u8>) -> Result<(), Memory>
    requires { IsText bytes.now }
    ensures ok { OnOk result (into.new.items ≡ into.old.items ++ plain_text bytes.now) }
    ensures room { OnErr result (vec_capacity into.old < length into.old.items + length (plain_text bytes.now)) }
    ensures capacity { vec_capacity into.old ≤ vec_capacity into.new }
{
    put_bytes(&(bytes.len() as u16).to_be_bytes(), into)?;
    put_bytes(bytes, into)
}

fn space_byte(space: Space) -> u8
    ensures { space_field space ≡ result ∷ [] }
{
    match space {
        Space::Sequence => 0,
        Space::Unsequence => 1,
    }
}

/// Appends the bytes of a value, whose type is known from elsewhere.
fn put_value(value: &Value, into: &mut Vec<u8>) -> Result<(), Memory>
    ensures ok { OnOk result (into.new.items ≡ into.old.items ++ value_field value.now) }
    ensures is { IsValue value.now }
    ensures room { OnErr result (vec_capacity into.old < length into.old.items + length (value_field value.now)) }
    ensures capacity { vec_capacity into.old ≤ vec_capacity into.new }
{
    match value {
        Value::Bool(truth) => put_bytes(&[u8::from(*truth)], into),
        Value::I32(number) => put_bytes(&number.to_be_bytes(), into),
        Value::I64(number) => put_bytes(&number.to_be_bytes(), into),
        Value::Text(text) => put_text(text.bytes(), into),
    }
}

impl Part for u64 {
    ghost fields = { field number64 };

    ghost is_part = { IsNumber64 };

    ghost rows = { number_rows };

    ghost some = { some_number };

    fn read<'a>(alloc: Global, rest: Rest<'a>) -> Result<(u64, Rest<'a>), FieldFault> {
        read_field(alloc, rest)
    }

    fn write(&self, into: &mut Vec<u8>) -> Result<(), Memory> {
        let number = *self;
        put_bytes(&number.to_be_bytes(), into)
    }
}

impl Part for Time {
    ghost fields = { field plain_i64 };

    ghost is_part = { FitsSigned w64 };

    ghost rows = { time_rows };

    ghost some = { some_time };

    fn read<'a>(alloc: Global, rest: Rest<'a>) -> Result<(Time, Rest<'a>), FieldFault> {
        read_field(alloc, rest)
    }

    fn write(&self, into: &mut Vec<u8>) -> Result<(), Memory> {
        let number = *self;
        put_bytes(&number.to_be_bytes(), into)
    }
}

impl Part for Path {
    ghost fields = { field plain_text };

    ghost is_part = { IsPath };

    ghost rows = { path_rows };

    ghost some = { some_path };

    fn read<'a>(alloc: Global, rest: Rest<'a>) -> Result<(Path, Rest<'a>), FieldFault> {
        read_path(alloc, rest)
    }

    fn write(&self, into: &mut Vec<u8>) -> Result<(), Memory> {
        put_text(self.bytes(), into)
    }
}

impl Part for DataType {
    ghost fields = { field type_field };

    ghost is_part = { IsAny };

    ghost rows = { type_rows };

    ghost some = { some_type };

    fn read<'a>(alloc: Global, rest: Rest<'a>) -> Result<(DataType, Rest<'a>), FieldFault> {
        read_field(alloc, rest)
    }

    fn write(&self, into: &mut Vec<u8>) -> Result<(), Memory> {
        put_bytes(&[type_byte(*self)], into)
    }
}

impl Part for Encoding {
    ghost fields = { field encoding_field };

    ghost is_part = { IsAny };

    ghost rows = { encoding_rows };

    ghost some = { some_encoding };

    fn read<'a>(alloc: Global, rest: Rest<'a>) -> Result<(Encoding, Rest<'a>), FieldFault> {
        read_field(alloc, rest)
    }

    fn write(&self, into: &mut Vec<u8>) -> Result<(), Memory> {
        put_bytes(&[encoding_byte(*self)], into)
    }
}

fn read_space<'a>(rest: Rest<'a>) -> Result<(Space, Rest<'a>), FieldFault>
    ensures exact { Reads space_field IsAny rest.entry (λ space. space) result }
{
    let at = rest.at;
    match rest.bytes {
        [0, bytes @ ..] => Ok((Space::Sequence, Rest { at: at + 1, bytes })),
        [1, bytes @ ..] => Ok((Space::Unsequence, Rest { at: at + 1, bytes })),
        _ => Err(FieldFault::Bad { at }),
    }
}

impl Part for Space {
    ghost fields = { field space_field };

    ghost is_part = { IsAny };

    ghost rows = { space_rows };

    ghost some = { some_space };

    fn read<'a>(_alloc: Global, rest: Rest<'a>) -> Result<(Space, Rest<'a>), FieldFault> {
        read_space(rest)
    }

    fn write(&self, into: &mut Vec<u8>) -> Result<(), Memory> {
        put_bytes(&[space_byte(*self)], into)
    }
}

impl Part for Value {
    ghost fields = { typed_fields };

    ghost is_part = { IsValue };

    ghost rows = { typed_rows };

    ghost some = { some_typed };

    fn read<'a>(alloc: Global, rest: Rest<'a>) -> Result<(Value, Rest<'a>), FieldFault> {
        let (data_type, behind) = read_field::<DataType>(alloc, rest)?;
        let (value, behind) = read_value(alloc, data_type, behind)?;
        Ok((value, behind))
    }

    fn write(&self, into: &mut Vec<u8>) -> Result<(), Memory> {
        put_bytes(&[type_byte(self.data_type())], into)?;
        put_value(self, into)
    }
}

/// The part that is left first. It takes no room for what is not there.
pub(crate) fn read_part<'a, T: Part>(
    alloc: Global,
    rest: Rest<'a>,
) -> Result<(T, Rest<'a>), FieldFault>
    ensures exact { ReadsFields T.fields T.is_part rest.entry (λ part. part) result }
{
    T::read(alloc, rest)
}

/// Appends the bytes of one part and then of another.
pub(crate) fn write_both<A: Part, B: Part>(
    first: &A,
    second: &B,
    into: &mut Vec<u8>,
) -> Result<(), Memory>
    ensures ok { OnOk result
        (into.new.items ≡ into.old.items ++ joined_fields (A.fields first.now ++ B.fields second.now)) }
    ensures is { OnOk result (A.is_part first.now × B.is_part second.now) }
    ensures room { OnErr result (vec_capacity into.old
        < length into.old.items + length (joined_fields (A.fields first.now ++ B.fields second.now))) }
    ensures capacity { vec_capacity into.old ≤ vec_capacity into.new }
{
    first.write(into)?;
    second.write(into)
}

impl<A: Part, B: Part> Part for (A, B) {
    ghost fields = { both A.fields B.fields };

    ghost is_part = { AreBoth A.is_part (λ _. B.is_part) };

    ghost rows = { pair_rows A.fields B.fields A.is_part B.is_part A.rows B.rows };

    ghost some = { some_pair A.is_part B.is_part A.some B.some };

    fn read<'a>(alloc: Global, rest: Rest<'a>) -> Result<((A, B), Rest<'a>), FieldFault> {
        let (first, behind) = A::read(alloc, rest)?;
        let (second, behind) = B::read(alloc, behind)?;
        Ok(((first, second), behind))
    }

    fn write(&self, into: &mut Vec<u8>) -> Result<(), Memory> {
        write_both(&self.0, &self.1, into)
    }
}

/// Reads parts of one type.
#[derive(Drop)]
struct PartReader<T> {
    of: PhantomData<T>,
}

impl<T: Part> FieldReader for PartReader<T> {
    type Field = T;

    ghost spelling = { λ part. joined_fields (T.fields part) };

    ghost is_field = { λ _. T.is_part };

    ghost is_bad = { λ _. IsMissingField T.fields T.is_part };

    fn read<'a>(&self, alloc: Global, rest: Rest<'a>) -> Result<(T, Rest<'a>), FieldFault> {
        T::read(alloc, rest)
    }
}

/// So many parts. It takes room for those alone that are there.
pub(crate) fn read_parts<'a, T: Part>(
    alloc: Global,
    count: u64,
    rest: Rest<'a>,
) -> Result<(Vec<T>, Rest<'a>), FieldFault>
    ensures exact { ReadsFields (flat_map T.fields) (AreValues T.is_part count) rest.entry
        (λ parts. parts.items) result }
{
    let reader = PartReader::<T> { of: PhantomData };
    read_fields(&reader, alloc, count, rest)
}

/// Appends the bytes of parts, one behind another.
pub(crate) fn write_parts<T: Part>(parts: &[T], into: &mut Vec<u8>) -> Result<(), Memory>
    ensures ok { OnOk result (into.new.items ≡ into.old.items ++ joined_fields (flat_map T.fields parts.now)) }
    ensures are { OnOk result (All T.is_part parts.now) }
    ensures room { OnErr result
        (vec_capacity into.old < length into.old.items + length (joined_fields (flat_map T.fields parts.now))) }
    ensures capacity { vec_capacity into.old ≤ vec_capacity into.new }
{
    for part in parts {
        part.write(into)?;
    }
    Ok(())
}

impl<T: Part> Part for List<T> {
    ghost fields = { counted_fields T.fields };

    ghost is_part = { AreCounted T.is_part };

    ghost rows = { counted_rows T.fields T.is_part T.rows };

    ghost some = { none_counted T.is_part };

    fn read<'a>(alloc: Global, rest: Rest<'a>) -> Result<(List<T>, Rest<'a>), FieldFault> {
        let (count, behind) = read_field::<u64>(alloc, rest)?;
        let (parts, behind) = read_parts(alloc, count, behind)?;
        Ok((List::of(parts), behind))
    }

    fn write(&self, into: &mut Vec<u8>) -> Result<(), Memory> {
        let parts = self.items();
        put_bytes(&(parts.len() as u64).to_be_bytes(), into)?;
        write_parts(parts, into)
    }
}

impl Part for CellRecord {
    ghost fields = { cell_fields };

    ghost is_part = { IsCell };

    ghost rows = { cell_rows };

    ghost some = { some_cell };

    fn read<'a>(alloc: Global, rest: Rest<'a>) -> Result<(CellRecord, Rest<'a>), FieldFault> {
        let ((series, value), behind) = read_part::<(u64, Value)>(alloc, rest)?;
        let cell = CellRecord {
            series: SeriesId(series),
            value,
        };
        Ok((cell, behind))
    }

    fn write(&self, into: &mut Vec<u8>) -> Result<(), Memory> {
        write_both(&self.series.0, &self.value, into)
    }
}

impl Part for FileNumber {
    ghost fields = { file_fields };

    ghost is_part = { IsFileField };

    ghost rows = { file_rows };

    ghost some = { some_file };

    fn read<'a>(alloc: Global, rest: Rest<'a>) -> Result<(FileNumber, Rest<'a>), FieldFault> {
        let (number, behind) = read_part::<u64>(alloc, rest)?;
        Ok((FileNumber(number), behind))
    }

    fn write(&self, into: &mut Vec<u8>) -> Result<(), Memory> {
        self.0.write(into)
    }
}
