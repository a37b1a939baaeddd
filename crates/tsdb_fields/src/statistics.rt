//! The fields of statistics. Depends on `reading`, `writing`, `rest` and `fault`.
ghost use Rattle.std.specs.Prelude.{◌≡◌, ◌++◌, ◌&&◌, OnOk, OnErr};
ghost use Rattle.tsdb_base.specs.Fields.{number64, pair_field, value_field, IsPair};
ghost use Rattle.tsdb_base.specs.Growth.{GrewByPrefix};
ghost use Rattle.tsdb_base.specs.Plain.{plain_i64};
ghost use Rattle.tsdb_base.specs.Values.{IsValueOf};
ghost use Rattle.tsdb_fields.specs.Reading.{Reads, ReadsParts};
ghost use Rattle.tsdb_fields.specs.Statistics.{optional_field, optional_sum, stats_field, IsExtremeOf, IsStatsOf};
ghost use Rattle.tsdb_fields.specs.Statistics.{IsSumIf, is_numeric as numeric};

use crate::fault::FieldFault;
use crate::reading::{read_field, read_value};
use crate::rest::Rest;
use crate::writing::write_value;
use std::alloc::Global;
use tsdb_base::{DataType, Memory, PlainValue, Stats, Value};

/// Appends the bytes of the number of points and of both times.
fn write_times(stats: &Stats, into: &mut Vec<u8>) -> Result<(), Memory>
    ensures ok { OnOk result (into.new.items ≡ into.old.items ++
        (number64 stats.now.count ++ plain_i64 stats.now.start ++ plain_i64 stats.now.end)) }
    ensures memory { OnErr result (GrewByPrefix into.old.items
        (number64 stats.now.count ++ plain_i64 stats.now.start ++ plain_i64 stats.now.end) into.new.items) }
{
    stats.count.put(into)?;
    stats.start.put(into)?;
    stats.end.put(into)
}

/// Appends the bytes of two values.
fn write_values(first: &Value, last: &Value, into: &mut Vec<u8>) -> Result<(), Memory>
    ensures ok { OnOk result (into.new.items ≡ into.old.items ++ (value_field first.now ++ value_field last.now)) }
    ensures memory { OnErr result
        (GrewByPrefix into.old.items (value_field first.now ++ value_field last.now) into.new.items) }
{
    write_value(first, into)?;
    write_value(last, into)
}

/// Appends the bytes of a value, if there is one.
fn write_optional(value: &Option<Value>, into: &mut Vec<u8>) -> Result<(), Memory>
    ensures ok { OnOk result (into.new.items ≡ into.old.items ++ optional_field value.now) }
    ensures memory { OnErr result (GrewByPrefix into.old.items (optional_field value.now) into.new.items) }
{
    match value {
        Some(value) => write_value(value, into),
        None => Ok(()),
    }
}

/// Appends the bytes of two values, each if there is one.
fn write_extremes(
    least: &Option<Value>,
    greatest: &Option<Value>,
    into: &mut Vec<u8>,
) -> Result<(), Memory>
    ensures ok { OnOk result
        (into.new.items ≡ into.old.items ++ (optional_field least.now ++ optional_field greatest.now)) }
    ensures memory { OnErr result
        (GrewByPrefix into.old.items (optional_field least.now ++ optional_field greatest.now) into.new.items) }
{
    write_optional(least, into)?;
    write_optional(greatest, into)
}

/// Appends the bytes of a sum, if there is one.
fn write_sum(sum: &Option<i128>, into: &mut Vec<u8>) -> Result<(), Memory>
    ensures ok { OnOk result (into.new.items ≡ into.old.items ++ optional_sum sum.now) }
    ensures memory { OnErr result (GrewByPrefix into.old.items (optional_sum sum.now) into.new.items) }
{
    match sum {
        Some(sum) => sum.put(into),
        None => Ok(()),
    }
}

/// Appends the bytes of what only numbers have.
fn write_numbers(stats: &Stats, into: &mut Vec<u8>) -> Result<(), Memory>
    ensures ok { OnOk result (into.new.items ≡ into.old.items ++ (optional_field stats.now.least
        ++ optional_field stats.now.greatest ++ optional_sum stats.now.sum)) }
    ensures memory { OnErr result (GrewByPrefix into.old.items (optional_field stats.now.least
        ++ optional_field stats.now.greatest ++ optional_sum stats.now.sum) into.new.items) }
{
    write_extremes(&stats.least, &stats.greatest, into)?;
    write_sum(&stats.sum, into)
}

/// Appends the bytes of statistics. After `Memory` it has appended a prefix of them at most.
pub fn write_stats(stats: &Stats, into: &mut Vec<u8>) -> Result<(), Memory>
    ensures ok { OnOk result (into.new.items ≡ into.old.items ++ stats_field stats.now) }
    ensures memory { OnErr result (GrewByPrefix into.old.items (stats_field stats.now) into.new.items) }
{
    write_times(stats, into)?;
    write_values(&stats.first, &stats.last, into)?;
    write_numbers(stats, into)
}

/// Reads two values of this type.
fn read_values<'a>(
    alloc: Global,
    data_type: DataType,
    rest: Rest<'a>,
) -> Result<((Value, Value), Rest<'a>), FieldFault>
    ensures parts { ReadsParts (pair_field value_field value_field)
        (IsPair (IsValueOf data_type) (IsValueOf data_type)) rest.entry (λ values. values) result }
{
    let (first, behind) = read_value(alloc, data_type, rest)?;
    let (last, behind) = read_value(alloc, data_type, behind)?;
    Ok(((first, last), behind))
}

/// Reads a value of this type, if it is a type of numbers.
fn read_extreme<'a>(
    alloc: Global,
    data_type: DataType,
    rest: Rest<'a>,
) -> Result<(Option<Value>, Rest<'a>), FieldFault>
    ensures exact { Reads optional_field (IsExtremeOf data_type) rest.entry (λ value. value) result }
{
    match data_type {
        DataType::Boolean | DataType::Text => Ok((None, rest)),
        DataType::Int32 | DataType::Int64 => {
            let (value, behind) = read_value(alloc, data_type, rest)?;
            Ok((Some(value), behind))
        }
    }
}

/// Reads two values of this type, if it is a type of numbers.
fn read_extremes<'a>(
    alloc: Global,
    data_type: DataType,
    rest: Rest<'a>,
) -> Result<((Option<Value>, Option<Value>), Rest<'a>), FieldFault>
    ensures parts { ReadsParts (pair_field optional_field optional_field)
        (IsPair (IsExtremeOf data_type) (IsExtremeOf data_type)) rest.entry (λ values. values) result }
{
    let (least, behind) = read_extreme(alloc, data_type, rest)?;
    let (greatest, behind) = read_extreme(alloc, data_type, behind)?;
    Ok(((least, greatest), behind))
}

/// Whether values of the type are numbers.
fn is_numeric(data_type: DataType) -> bool
    ensures { result ≡ numeric data_type }
{
    match data_type {
        DataType::Boolean | DataType::Text => false,
        DataType::Int32 | DataType::Int64 => true,
    }
}

/// Whether statistics of values of the type have a sum, where those of numbers do or do not.
fn has_sum(data_type: DataType, sums: bool) -> bool
    ensures { result ≡ (sums && numeric data_type) }
{
    sums && is_numeric(data_type)
}

/// Reads a sum, where one is to be there.
fn read_sum<'a>(
    alloc: Global,
    there: bool,
    rest: Rest<'a>,
) -> Result<(Option<i128>, Rest<'a>), FieldFault>
    ensures exact { Reads optional_sum (IsSumIf there) rest.entry (λ sum. sum) result }
{
    if !there {
        return Ok((None, rest));
    }
    let (sum, behind) = read_field(alloc, rest)?;
    Ok((Some(sum), behind))
}

/// Reads what only numbers have, if the type is one of numbers: the least and the greatest value, and the sum or none.
fn read_numbers<'a>(
    alloc: Global,
    data_type: DataType,
    sums: bool,
    rest: Rest<'a>,
) -> Result<(((Option<Value>, Option<Value>), Option<i128>), Rest<'a>), FieldFault>
    ensures parts { ReadsParts (pair_field (pair_field optional_field optional_field) optional_sum)
        (IsPair (IsPair (IsExtremeOf data_type) (IsExtremeOf data_type)) (IsSumIf (sums && numeric data_type)))
        rest.entry (λ numbers. numbers) result }
{
    let (extremes, behind) = read_extremes(alloc, data_type, rest)?;
    let (sum, behind) = read_sum(alloc, has_sum(data_type, sums), behind)?;
    Ok(((extremes, sum), behind))
}

/// Reads statistics of values of this type, with the sum of numbers or without. A fault has the place of a part.
fn read_parts<'a>(
    alloc: Global,
    data_type: DataType,
    sums: bool,
    rest: Rest<'a>,
) -> Result<(Stats, Rest<'a>), FieldFault>
    ensures parts { ReadsParts stats_field (IsStatsOf sums data_type) rest.entry (λ stats. stats) result }
{
    let ((count, (start, end)), behind) = read_field(alloc, rest)?;
    let ((first, last), behind) = read_values(alloc, data_type, behind)?;
    let (((least, greatest), sum), behind) = read_numbers(alloc, data_type, sums, behind)?;
    let stats = Stats {
        count,
        start,
        end,
        first,
        last,
        least,
        greatest,
        sum,
    };
    Ok((stats, behind))
}

/// Reads statistics of values of this type, with the sum of numbers or without.
pub fn read_stats<'a>(
    alloc: Global,
    data_type: DataType,
    sums: bool,
    rest: Rest<'a>,
) -> Result<(Stats, Rest<'a>), FieldFault>
    ensures exact { Reads stats_field (IsStatsOf sums data_type) rest.entry (λ stats. stats) result }
{
    match read_parts(alloc, data_type, sums, rest) {
        Err(FieldFault::Bad { .. }) => Err(FieldFault::Bad { at: rest.at }),
        outcome => outcome,
    }
}
