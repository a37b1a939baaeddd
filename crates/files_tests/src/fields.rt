//! Tests of tsdb_fields. Depends on `samples`.

use super::samples::{five, old_five, push, text};
use std::alloc::Global;
use tsdb_base::{DataType, Encoding, PlainValue, Stats, Value};
use tsdb_fields::{
    FieldFault, Rest, read_field, read_name, read_path, read_stats, read_value, write_name,
    write_path, write_stats, write_value,
};
use tsdb_path::{Name, Path};

/// These bytes, of which the first stands at 70.
fn rest(bytes: &[u8]) -> Rest<'_> {
    Rest { at: 70, bytes }
}

#[derive(Clone, Copy)]
enum Field {
    Path(&'static [u8]),
    Name(&'static [u8]),
    Kind(DataType, Encoding, u64),
    Numbers(u32, u16),
    Value(i32),
    /// The statistics of the one point 1, 5 of INT64.
    Five,
    /// The same without their sum.
    OldFive,
    /// The statistics of two texts.
    Texts,
}

/// The statistics of `b` and no bytes, at the times -1 and 2.
fn texts(alloc: Global) -> Option<Stats> {
    let first = text(alloc, b"b")?;
    let last = text(alloc, b"")?;
    Some(Stats {
        count: 2,
        start: -1,
        end: 2,
        first,
        last,
        least: None,
        greatest: None,
        sum: None,
    })
}

/// Appends the statistics, and says whether they are there.
fn put_stats(alloc: Global, stats: Option<Stats>, into: &mut Vec<u8>) -> bool {
    let mut list = Vec::new(alloc);
    push(&mut list, stats);
    match list.as_slice() {
        [stats] => write_stats(stats, into).is_ok(),
        _ => false,
    }
}

/// What is left behind the value, if it is what was read.
fn behind<'a, T: PartialEq + Drop>(
    read: Result<(T, Rest<'a>), FieldFault>,
    wanted: Option<T>,
) -> Option<Rest<'a>> {
    match (read, wanted) {
        (Ok((found, behind)), Some(wanted)) => (found == wanted).then_some(behind),
        _ => None,
    }
}

/// A path, a name, each type and each encoding with a place behind them, two numbers, and a value.
const FIELDS: [Field; 8] = [
    Field::Path(b"root.g.d"),
    Field::Name(b"s"),
    Field::Kind(DataType::Int64, Encoding::Plain, 18),
    Field::Kind(DataType::Boolean, Encoding::Rle, 1),
    Field::Kind(DataType::Int32, Encoding::Ts2diff, 2),
    Field::Kind(DataType::Text, Encoding::Dictionary, 3),
    Field::Numbers(1, 7),
    Field::Value(-2),
];

/// What these fields are written as, one behind another.
const BYTES: [u8; 63] = *b"\x00\x08root.g.d\x00\x01s\
\x02\x00\x00\x00\x00\x00\x00\x00\x00\x12\
\x00\x02\x00\x00\x00\x00\x00\x00\x00\x01\
\x01\x04\x00\x00\x00\x00\x00\x00\x00\x02\
\x05\x01\x00\x00\x00\x00\x00\x00\x00\x03\
\x00\x00\x00\x01\x00\x07\xff\xff\xff\xfe";

impl Field {
    /// Appends the field, and says whether it is there.
    fn put(self, alloc: Global, into: &mut Vec<u8>) -> bool {
        match self {
            Field::Path(bytes) => match Path::read(alloc, bytes) {
                Ok(path) => write_path(&path, into).is_ok(),
                Err(_) => false,
            },
            Field::Name(bytes) => match Name::read(alloc, bytes) {
                Ok(name) => write_name(&name, into).is_ok(),
                Err(_) => false,
            },
            Field::Kind(data_type, encoding, place) => {
                (data_type, (encoding, place)).put(into).is_ok()
            }
            Field::Numbers(wide, narrow) => (wide, narrow).put(into).is_ok(),
            Field::Value(number) => write_value(&Value::I32(number), into).is_ok(),
            Field::Five => put_stats(alloc, Some(five()), into),
            Field::OldFive => put_stats(alloc, Some(old_five()), into),
            Field::Texts => put_stats(alloc, texts(alloc), into),
        }
    }

    /// What is left behind the field, if it comes next.
    fn behind<'a>(self, alloc: Global, rest: Rest<'a>) -> Option<Rest<'a>> {
        match self {
            Field::Path(bytes) => behind(read_path(alloc, rest), Path::read(alloc, bytes).ok()),
            Field::Name(bytes) => behind(read_name(alloc, rest), Name::read(alloc, bytes).ok()),
            Field::Kind(data_type, encoding, place) => {
                behind(
                    read_field(alloc, rest),
                    Some((data_type, (encoding, place))),
                )
            }
            Field::Numbers(wide, narrow) => {
                behind(read_field(alloc, rest), Some((wide, narrow)))
            }
            Field::Value(number) => {
                behind(
                    read_value(alloc, DataType::Int32, rest),
                    Some(Value::I32(number)),
                )
            }
            Field::Five => behind(read_stats(alloc, DataType::Int64, true, rest), Some(five())),
            Field::OldFive => behind(
                read_stats(alloc, DataType::Int64, false, rest),
                Some(old_five()),
            ),
            Field::Texts => behind(read_stats(alloc, DataType::Text, true, rest), texts(alloc)),
        }
    }
}

/// Whether the fields are written as these bytes.
fn are_written(alloc: Global, fields: &[Field], bytes: &[u8]) -> bool {
    let mut found = Vec::new(alloc);
    let mut is_whole = true;
    for field in fields {
        is_whole &= field.put(alloc, &mut found);
    }
    is_whole && found.as_slice() == bytes
}

/// Whether these bytes from 70 on are read as the fields, up to their end.
fn are_read(alloc: Global, fields: &[Field], bytes: &[u8]) -> bool {
    let mut left = Some(rest(bytes));
    for field in fields {
        left = match left {
            Some(rest) => field.behind(alloc, rest),
            None => None,
        };
    }
    match left {
        Some(rest) => rest.at == (bytes.len() as u64).saturating_add(70) && rest.bytes.is_empty(),
        None => false,
    }
}

#[test]
fn fields_one_behind_another(rt: HostRuntime) {
    let alloc = rt.alloc();
    assert!(rt; are_written(alloc, &FIELDS, &BYTES) && are_read(alloc, &FIELDS, &BYTES));
}

/// The bytes of the statistics of the one point 1, 5: the number, both times, four times the value, and the sum.
const NUMBERS: [u8; 72] = [
    0, 0, 0, 0, 0, 0, 0, 1, 0, 0, 0, 0, 0, 0, 0, 1, 0, 0, 0, 0, 0, 0, 0, 1, 0, 0, 0, 0, 0, 0, 0, 5,
    0, 0, 0, 0, 0, 0, 0, 5, 0, 0, 0, 0, 0, 0, 0, 5, 0, 0, 0, 0, 0, 0, 0, 5, 0, 0, 0, 0, 0, 0, 0, 0,
    0, 0, 0, 0, 0, 0, 0, 5,
];

/// The bytes of the statistics of texts.
const TEXTS: [u8; 29] = [
    0, 0, 0, 0, 0, 0, 0, 2, 255, 255, 255, 255, 255, 255, 255, 255, 0, 0, 0, 0, 0, 0, 0, 2, 0, 1,
    b'b', 0, 0,
];

#[test]
fn statistics_of_numbers(rt: HostRuntime) {
    let alloc = rt.alloc();
    let five = [Field::Five];
    assert!(rt; are_written(alloc, &five, &NUMBERS) && are_read(alloc, &five, &NUMBERS));
    let (old, old_bytes) = ([Field::OldFive], NUMBERS.split_at(56).0);
    assert!(rt; are_written(alloc, &old, old_bytes) && are_read(alloc, &old, old_bytes));
}

#[test]
fn statistics_of_texts(rt: HostRuntime) {
    let alloc = rt.alloc();
    let texts = [Field::Texts];
    assert!(rt; are_written(alloc, &texts, &TEXTS) && are_read(alloc, &texts, &TEXTS));
}
