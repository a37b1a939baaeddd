//! Tests of tsdb_stats. Depends on `samples`.

use super::samples::{Row, expect_none, first_wrong, five, is_same, old_five, points, push};
use std::alloc::Global;
use std::test::Fail;
use tsdb_base::{DataType, Point, Stats, Value};
use tsdb_stats::{join, stats_of};

/// The statistics of a list that is not empty.
fn stats(points: &[Point]) -> Option<Stats> {
    if points.is_empty() {
        None
    } else {
        stats_of(points).ok()
    }
}

/// The statistics of each of these lists. There are fewer where memory ran out.
fn each_stats(alloc: Global, lists: &[&[Point]]) -> Vec<Stats> {
    let mut all = Vec::new(alloc);
    for points in lists {
        push(&mut all, stats(points));
    }
    all
}

/// INT64 values at the times 1, 2 and on, the first and the last, the least and the greatest of them, and their sum.
#[derive(Clone, Copy)]
struct Summary(&'static [i64], [i64; 4], i128);

/// The points of such values.
fn points_of(alloc: Global, numbers: &[i64]) -> Vec<Point> {
    let mut points = Vec::new(alloc);
    let mut time = 1i64;
    for number in numbers {
        let value = Value::I64(*number);
        push(&mut points, Some(Point { time, value }));
        time = time.wrapping_add(1);
    }
    points
}

impl Row for Summary {
    fn is_right(&self, alloc: Global) -> bool {
        let Summary(numbers, [first, last, least, greatest], sum) = *self;
        let wanted = Stats {
            count: numbers.len() as u64,
            start: 1,
            end: numbers.len() as i64,
            first: Value::I64(first),
            last: Value::I64(last),
            least: Some(Value::I64(least)),
            greatest: Some(Value::I64(greatest)),
            sum: Some(sum),
        };
        is_same(stats(&points_of(alloc, numbers)), &wanted)
    }
}

const LISTS: &[Summary] = &[
    Summary(&[5], [5, 5, 5, 5], 5),
    Summary(
        &[3, i64::MIN, 7, 7],
        [3, 7, i64::MIN, 7],
        -9_223_372_036_854_775_791,
    ),
    Summary(
        &[0, i64::MAX, -1],
        [0, -1, -1, i64::MAX],
        9_223_372_036_854_775_806,
    ),
    Summary(&[7, 6, 6, 8, 7], [7, 7, 6, 8], 34),
    Summary(
        &[i64::MAX, i64::MAX],
        [i64::MAX, i64::MAX, i64::MAX, i64::MAX],
        18_446_744_073_709_551_614,
    ),
    Summary(
        &[i64::MIN, i64::MIN],
        [i64::MIN, i64::MIN, i64::MIN, i64::MIN],
        -18_446_744_073_709_551_616,
    ),
];

#[test]
fn statistics_of_numbers(rt: HostRuntime) -> Result<(), Fail> {
    expect_none(first_wrong(rt.alloc(), LISTS))
}

/// Whether the statistics of 1,000 points before a cut and behind it, joined, are those of all.
fn are_joined(alloc: Global, cut: usize) -> bool {
    let points = points(alloc, DataType::Int64, 1, 1000);
    let (before, behind) = points.split_at(cut.min(points.len()));
    let all = each_stats(alloc, &[before, behind, points.as_slice()]);
    match all.as_slice() {
        [left, right, whole] => {
            left.count <= 1000 && right.count <= 1000 && is_same(join(left, right).ok(), whole)
        }
        _ => false,
    }
}

#[test]
fn joined_statistics_are_those_of_the_whole(rt: HostRuntime) {
    assert!(rt; are_joined(rt.alloc(), 500));
}

/// The sum of these statistics behind one another.
fn joined_sum(left: &Stats, right: &Stats) -> Option<i128> {
    if left.count > 1000 || right.count > 1000 {
        return None;
    }
    match join(left, right) {
        Ok(stats) => stats.sum,
        Err(_) => None,
    }
}

/// Joined statistics have a sum where both have one.
#[test]
fn a_missing_sum_stays_missing(rt: HostRuntime) {
    assert_eq!(rt; joined_sum(&five(), &five()), Some(10));
    assert_eq!(rt; joined_sum(&five(), &old_five()), None);
    assert_eq!(rt; joined_sum(&old_five(), &five()), None);
}

/// Texts have no sum.
#[test]
fn texts_have_no_sum(rt: HostRuntime) {
    let alloc = rt.alloc();
    let points = points(alloc, DataType::Text, 1, 3);
    assert!(rt; stats(&points).is_some_and(|stats| stats.sum.is_none()));
}
