//! Tests of tsdb_pages. Depends on `samples`.

use super::samples::{Row, expect_none, first_wrong, points};
use std::alloc::Global;
use std::test::Fail;
use tsdb_base::{DataType, Encoding, Point, Value, suits};
use tsdb_pages::{PageFault, are_points, read_page, write_page};

/// The body of the page of the one point 1, 5 as INT64 PLAIN.
const WORKED_BODY: [u8; 15] = *b"\x00\x00\x00\x02\x01\x02\x01\x00\x00\x00\x00\x00\x00\x00\x05";

/// The body of a page, if the points are those of one.
fn write(
    alloc: Global,
    points: &[Point],
    data_type: DataType,
    encoding: Encoding,
) -> Option<Vec<u8>> {
    if suits(data_type, encoding) && are_points(points, data_type) {
        write_page(alloc, points, data_type, encoding).ok()
    } else {
        None
    }
}

/// Whether the body is read as these points.
fn is_read_as(
    alloc: Global,
    body: &[u8],
    points: &[Point],
    data_type: DataType,
    encoding: Encoding,
) -> bool {
    match read_page(alloc, body, data_type, encoding) {
        Ok(read) => read.as_slice() == points,
        Err(_) => false,
    }
}

/// Whether the point 1, 5 is written as the worked body, and read from it.
fn is_worked(alloc: Global) -> bool {
    let points = [Point {
        time: 1,
        value: Value::I64(5),
    }];
    match write(alloc, &points, DataType::Int64, Encoding::Plain) {
        Some(body) => {
            body.as_slice() == WORKED_BODY.as_slice()
                && is_read_as(
                    alloc,
                    &WORKED_BODY,
                    &points,
                    DataType::Int64,
                    Encoding::Plain,
                )
        }
        None => false,
    }
}

#[test]
fn worked_page(rt: HostRuntime) {
    assert!(rt; is_worked(rt.alloc()));
}

/// A type and an encoding that suits it. Pages of it come back, and 1,001 points are no page.
impl Row for (DataType, Encoding) {
    fn is_right(&self, alloc: Global) -> bool {
        let (data_type, encoding) = *self;
        let mut points = points(alloc, data_type, -500, 1001);
        let is_page = are_points(&points, data_type);
        let _ = points.pop();
        match write(alloc, &points, data_type, encoding) {
            Some(body) => {
                points.len() == 1000
                    && is_read_as(alloc, &body, &points, data_type, encoding)
                    && !is_page
            }
            None => false,
        }
    }
}

/// Ten pairs of type and encoding suit.
const PAIRS: &[(DataType, Encoding)] = &[
    (DataType::Boolean, Encoding::Plain),
    (DataType::Boolean, Encoding::Rle),
    (DataType::Int32, Encoding::Plain),
    (DataType::Int32, Encoding::Rle),
    (DataType::Int32, Encoding::Ts2diff),
    (DataType::Int64, Encoding::Plain),
    (DataType::Int64, Encoding::Rle),
    (DataType::Int64, Encoding::Ts2diff),
    (DataType::Text, Encoding::Plain),
    (DataType::Text, Encoding::Dictionary),
];

#[test]
fn full_pages(rt: HostRuntime) -> Result<(), Fail> {
    expect_none(first_wrong(rt.alloc(), PAIRS))
}

/// Why bodies of INT64 PLAIN are refused, and which.
const REFUSED: &[(&str, &[u8])] = &[
    ("no bytes", b""),
    ("times cut off", b"\x00\x00\x00\x05\x01\x02\x00"),
    ("no points", b"\x00\x00\x00\x01\x00\x00"),
    (
        "times that stand still",
        b"\x00\x00\x00\x04\x02\x02\x00\x00\x02\x00\x00\x00\x00\x00\x00\x00\x05\x00\x00\x00\x00\x00\x00\x00\x05",
    ),
    (
        "two times and one value",
        b"\x00\x00\x00\x04\x02\x02\x02\x00\x01\x00\x00\x00\x00\x00\x00\x00\x05",
    ),
    (
        "a byte left over",
        b"\x00\x00\x00\x02\x01\x02\x01\x00\x00\x00\x00\x00\x00\x00\x05\x00",
    ),
];

/// Whether no page has this body.
fn is_refused(alloc: Global, body: &[u8], data_type: DataType, encoding: Encoding) -> bool {
    matches!(
        read_page(alloc, body, data_type, encoding),
        Err(PageFault::Bad)
    )
}

impl Row for (&'static str, &'static [u8]) {
    fn is_right(&self, alloc: Global) -> bool {
        is_refused(alloc, self.1, DataType::Int64, Encoding::Plain)
    }
}

#[test]
fn refused_bodies(rt: HostRuntime) -> Result<(), Fail> {
    expect_none(first_wrong(rt.alloc(), REFUSED))
}

/// Runs suit no texts, so no page of texts is written in runs.
#[test]
fn texts_in_runs_are_refused(rt: HostRuntime) {
    assert!(rt; is_refused(rt.alloc(), &WORKED_BODY, DataType::Text, Encoding::Rle));
}

const STILL: [Point; 2] = [
    Point {
        time: 1,
        value: Value::I64(5),
    },
    Point {
        time: 1,
        value: Value::I64(6),
    },
];

#[test]
fn times_that_stand_still(rt: HostRuntime) {
    assert!(rt; !are_points(&STILL, DataType::Int64));
}
