//! The values of points, by type and encoding. It depends on `examples` and `tsdb_pages`.
use crate::examples::{BEYOND_IN_RUN, MAX_VALUES};
use std::alloc::Global;
use tsdb_base::{DataType, DecodeFault, Encoding, Point, Value, suits};
use tsdb_pages::{HasValue, decode, encode_into};

/// Appends the bytes of the values, and says whether they are there.
fn put<T: HasValue>(
    alloc: Global,
    data_type: DataType,
    encoding: Encoding,
    items: &[T],
    into: &mut Vec<u8>,
) -> bool {
    suits(data_type, encoding)
        && items.len() <= MAX_VALUES
        && items
            .iter()
            .all(|item| item.value().data_type() == data_type)
        && encode_into(alloc, data_type, encoding, items, into).is_ok()
}

/// Whether the values of these items were read.
fn are_values<T: HasValue>(read: Result<Vec<Value>, DecodeFault>, items: &[T]) -> bool {
    match read {
        Ok(values) => values.iter().eq(items.iter().map(|item| item.value())),
        Err(_) => false,
    }
}

/// Whether the values encode to exactly these bytes, and the bytes decode to them.
fn is_pair<T: HasValue>(
    alloc: Global,
    data_type: DataType,
    encoding: Encoding,
    items: &[T],
    bytes: &[u8],
) -> bool {
    let mut into = Vec::new(alloc);
    put(alloc, data_type, encoding, items, &mut into)
        && into.as_slice() == bytes
        && suits(data_type, encoding)
        && are_values(decode(alloc, data_type, encoding, bytes), items)
}

const POINTS: [Point; 2] = [
    Point {
        time: 3,
        value: Value::I64(7),
    },
    Point {
        time: 9,
        value: Value::I64(7),
    },
];

#[test]
fn the_values_of_points(rt: HostRuntime) {
    assert!(rt;
        is_pair(
            rt.alloc(),
            DataType::Int64,
            Encoding::Rle,
            &POINTS,
            b"\x02\x02\x0e"
        )
    );
}

/// Bytes of an INT64 value are those of no INT32 value.
#[test]
fn a_value_of_another_type(rt: HostRuntime) {
    let read = decode(rt.alloc(), DataType::Int32, Encoding::Rle, BEYOND_IN_RUN);
    assert!(rt; read.err() == Some(DecodeFault::Bad));
}
