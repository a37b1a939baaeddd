//! The points of one series in one space, a list in order of time. It depends on `tsdb_base`.
ghost use Rattle.std.specs.Prelude.{◌≡◌, ◌↔◌, IsTrue, ◌+◌, ◌<◌, ◌≤◌, length, take, drop, vec_len, vec_capacity};
ghost use Rattle.std.specs.List.{filter};
ghost use Rattle.tsdb_base.specs.Limits.{max_point_bytes};
ghost use Rattle.tsdb_memtable.specs.Limits.{max_bytes};
ghost use Rattle.tsdb_base.specs.Points.{IsRising};
ghost use Rattle.tsdb_memtable.specs.Points.{is_before, is_after, is_outside, is_point_within, with_point};
ghost use Rattle.tsdb_memtable.specs.Points.{point_bytes as bytes_of_point, counted_bytes as bytes_of_points};
ghost use Rattle.tsdb_memtable.specs.Steps.{is_from, is_until};

use std::mem;
use tsdb_base::{Point, Range, Time, Value};

/// How many bytes a point counts: 8 for its time, and 1, 4, 8 or the text's length for its value.
pub(crate) fn point_bytes(point: &Point) -> u64
    ensures value { result ≡ bytes_of_point point.now }
    ensures most { result ≤ max_point_bytes }
{
    let value = match &point.value {
        Value::Bool(_) => 1,
        Value::I32(_) => 4,
        Value::I64(_) => 8,
        Value::Text(text) => text.bytes().len() as u64,
    };
    8 + value
}

/// How many bytes the points count.
pub(crate) fn bytes_of(points: &[Point]) -> u64
    requires { bytes_of_points points.now ≤ max_bytes }
    ensures { result ≡ bytes_of_points points.now }
{
    let mut bytes = 0;
    for point in points {
        bytes += point_bytes(point);
    }
    bytes
}

/// Whether the point is before the time.
fn is_early(point: &Point, time: Time) -> bool
    ensures { result ≡ is_before time point.now }
{
    point.time < time
}

/// Whether the point is after the time.
fn is_late(point: &Point, time: Time) -> bool
    ensures { result ≡ is_after time point.now }
{
    time < point.time
}

/// Whether the point is at the time.
fn is_at(point: &Point, time: Time) -> bool
    ensures { IsTrue result ↔ (point.now.time ≡ time) }
{
    point.time == time
}

/// Whether the point is not in the range.
fn is_apart(point: &Point, range: &Range) -> bool
    ensures { result ≡ is_outside range.now point.now }
{
    point.time < range.from || range.to < point.time
}

/// How many points are before the time.
fn count_before(points: &[Point], time: Time) -> usize
    requires { IsRising points.now }
    ensures bound { result ≤ length points.now }
    ensures front { take result points.now ≡ filter (is_before time) points.now }
    ensures back { drop result points.now ≡ filter (is_from time) points.now }
{
    match points.last() {
        Some(last) if is_early(last, time) => points.len(),
        _ => points.partition_point(|point| is_early(point, time)),
    }
}

/// The points at the time and after it.
fn from_time(points: &[Point], time: Time) -> &[Point]
    requires { IsRising points.now }
    ensures value { result.now ≡ filter (is_from time) points.now }
    ensures rising { IsRising result.now }
{
    let (_, points) = points.split_at(count_before(points, time));
    points
}

/// The points before the time and at it.
fn until_time(points: &[Point], time: Time) -> &[Point]
    requires { IsRising points.now }
    ensures { result.now ≡ filter (is_until time) points.now }
{
    let count = points.partition_point(|point| !is_late(point, time));
    let (points, _) = points.split_at(count);
    points
}

/// Puts the point, in place of one at its time, and returns how many bytes that one counted.
pub(crate) fn put(points: &mut Vec<Point>, point: Point) -> u64
    requires rising { IsRising points.old.items }
    requires room { vec_len points.old < vec_capacity points.old }
    ensures items { points.new.items ≡ with_point point points.old.items }
    ensures rising { IsRising points.new.items }
    ensures bytes { bytes_of_points points.new.items + result
        ≡ bytes_of_points points.old.items + bytes_of_point point }
    ensures len { vec_len points.new ≤ vec_len points.old + 1 }
    ensures capacity { vec_capacity points.new ≡ vec_capacity points.old }
{
    let at = count_before(points.as_slice(), point.time);
    if at < points.len() && is_at(&points[at], point.time) {
        let replaced = mem::replace(&mut points[at], point);
        return point_bytes(&replaced);
    }
    let Ok(()) = points.insert(at, point) else {
        unreachable!()
    };
    0
}

/// Removes the points in the range, and returns how many bytes they counted.
pub(crate) fn erase(points: &mut Vec<Point>, range: &Range) -> u64
    requires rising { IsRising points.old.items }
    requires most { bytes_of_points points.old.items ≤ max_bytes }
    ensures items { points.new.items ≡ filter (is_outside range.now) points.old.items }
    ensures rising { IsRising points.new.items }
    ensures bytes { bytes_of_points points.new.items + result ≡ bytes_of_points points.old.items }
    ensures len { vec_len points.new ≤ vec_len points.old }
    ensures capacity { vec_capacity points.new ≡ vec_capacity points.old }
{
    let within = slice(points.as_slice(), range);
    if within.is_empty() {
        return 0;
    }
    let bytes = bytes_of(within);
    points.retain(|point| is_apart(point, range));
    bytes
}

/// The points in the range.
pub(crate) fn slice<'a>(points: &'a [Point], range: &Range) -> &'a [Point]
    requires { IsRising points.now }
    ensures { result.now ≡ filter (is_point_within range.now) points.now }
{
    until_time(from_time(points, range.from), range.to)
}
