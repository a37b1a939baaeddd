//! Watermarks, and a pair of memtables with worked points.

use std::alloc::Global;
use tsdb_base::{Point, Range, SeriesId, Space, Time, Value};
use tsdb_memtable::{Pair, Watermarks, space_of};
use tsdb_path::Path;

const MIN: Time = Time::MIN;

const MAX: Time = Time::MAX;

/// Times raised one after another, and the watermark after each. At first none is raised.
const RAISES: &[(Option<Time>, Option<Time>)] = &[
    (None, None),
    (Some(MIN), Some(MIN)),
    (Some(20), Some(20)),
    (Some(15), Some(20)),
    (Some(20), Some(20)),
    (Some(MAX), Some(MAX)),
];

/// Makes a place for the device's watermark, and raises it where there is a time. A test sees where it is not raised.
fn raise(watermarks: &mut Watermarks, device: &Path, time: Option<Time>) {
    if let Ok(()) = watermarks.reserve(device)
        && let Some(time) = time
    {
        watermarks.raise(device, time);
    }
}

/// Whether the device has no watermark at first, then the wanted one after each raise, and no other device has one.
fn rises_as_wanted(watermarks: &mut Watermarks, device: &Path, other: &Path) -> bool {
    let mut is_right = watermarks.get(device).is_none();
    for (time, wanted) in RAISES {
        raise(watermarks, device, *time);
        is_right = is_right
            && watermarks.reserve(other).is_ok()
            && watermarks.get(device) == *wanted
            && watermarks.get(other).is_none();
    }
    is_right
}

fn new_watermarks_rise(alloc: Global) -> bool {
    match (
        Path::read(alloc, b"root.g.d"),
        Path::read(alloc, b"root.g.e"),
    ) {
        (Ok(device), Ok(other)) => rises_as_wanted(&mut Watermarks::new(alloc), &device, &other),
        _ => false,
    }
}

#[test]
fn watermarks_rise(rt: HostRuntime) {
    assert!(rt; new_watermarks_rise(rt.alloc()));
}

/// A watermark, a time, and the space that a point at it goes to.
const SPACES: &[(Option<Time>, Time, Space)] = &[
    (None, MIN, Space::Sequence),
    (Some(MIN), MIN, Space::Unsequence),
    (Some(20), 19, Space::Unsequence),
    (Some(20), 20, Space::Unsequence),
    (Some(20), 21, Space::Sequence),
    (Some(MAX), MAX, Space::Unsequence),
];

/// The first row of the table whose point goes to the other space.
fn first_wrong_space() -> Option<usize> {
    for (place, (watermark, time, wanted)) in SPACES.iter().enumerate() {
        if space_of(*watermark, *time) != *wanted {
            return Some(place);
        }
    }
    None
}

#[test]
fn spaces_by_the_watermark(rt: HostRuntime) {
    let wrong = first_wrong_space();
    assert_eq!(rt; wrong, None);
}

fn crosses_threads<T: Send + Sync>(_value: &T) {}

/// Time and value of a point.
type Worked = (Time, i64);

/// Points of series 7 that are put one after another, where the watermark is 20: in order, late, at a time that has
/// one, at the watermark, next to it, and at both ends of time.
const PUTS: &[Worked] = &[
    (21, 1),
    (30, 2),
    (25, 3),
    (21, 4),
    (20, 5),
    (MIN, 6),
    (MAX, 7),
    (19, 8),
    (MIN, 9),
];

fn range((from, to): (Time, Time)) -> Range {
    Range { from, to }
}

/// Puts a point. Whether it goes where its time says: late ones, up to 20, to the space out of order.
fn puts(pair: &mut Pair, watermarks: &Watermarks, device: &Path, (time, value): Worked) -> bool {
    match pair.provide(SeriesId(7)) {
        Ok(()) => {
            let value = Value::I64(value);
            let space = pair.put(watermarks, device, SeriesId(7), Point { time, value });
            (space == Space::Unsequence) == (time <= 20)
        }
        Err(_) => false,
    }
}

fn puts_all(pair: &mut Pair, watermarks: &Watermarks, device: &Path) -> bool {
    for worked in PUTS {
        if !puts(pair, watermarks, device, *worked) {
            return false;
        }
    }
    true
}

/// A space, a range, and the points of series 7 there.
type Slice = (Space, (Time, Time), &'static [Worked]);

/// An empty range, a time with and one without a point, ranges that begin or end at a point, and all times.
const SLICES: &[Slice] = &[
    (Space::Sequence, (25, 20), &[]),
    (Space::Sequence, (22, 24), &[]),
    (Space::Sequence, (25, 25), &[(25, 3)]),
    (Space::Sequence, (21, 25), &[(21, 4), (25, 3)]),
    (Space::Sequence, (26, MAX), &[(30, 2), (MAX, 7)]),
    (
        Space::Sequence,
        (MIN, MAX),
        &[(21, 4), (25, 3), (30, 2), (MAX, 7)],
    ),
    (Space::Unsequence, (MIN, MAX), &[(MIN, 9), (19, 8), (20, 5)]),
    (Space::Unsequence, (MIN, 19), &[(MIN, 9), (19, 8)]),
];

/// What is there once the times from 20 to 25 are erased.
const ERASED: &[Slice] = &[
    (Space::Sequence, (MIN, MAX), &[(30, 2), (MAX, 7)]),
    (Space::Unsequence, (MIN, MAX), &[(MIN, 9), (19, 8)]),
];

fn are_points(points: &[Point], wanted: &[Worked]) -> bool {
    for (place, point) in points.iter().enumerate() {
        let is_wanted = match (&point.value, wanted.get(place)) {
            (Value::I64(found), Some((time, value))) => point.time == *time && *found == *value,
            _ => false,
        };
        if !is_wanted {
            return false;
        }
    }
    points.len() == wanted.len()
}

/// Whether the pair has all these points of series 7, none of series 8, and so many of them in its spaces.
fn has(pair: &Pair, slices: &[Slice], (early, late): (u64, u64)) -> bool {
    for (space, ends, wanted) in slices {
        if !are_points(pair.slice(*space, SeriesId(7), &range(*ends)), wanted)
            || !pair.slice(*space, SeriesId(8), &range(*ends)).is_empty()
        {
            return false;
        }
    }
    pair.points(Space::Sequence) == early
        && pair.points(Space::Unsequence) == late
        && pair.bytes() == early.saturating_add(late).saturating_mul(16)
}

/// Whether a new pair has the points, and those that are not erased of a series that has some and of one that has none.
fn is_as_worked(alloc: Global, watermarks: &Watermarks, device: &Path) -> bool {
    let mut pair = Pair::new(alloc);
    crosses_threads(&pair);
    let is_put = puts_all(&mut pair, watermarks, device) && has(&pair, SLICES, (4, 3));
    pair.erase(SeriesId(7), &range((20, 25)));
    pair.erase(SeriesId(8), &range((20, 25)));
    is_put && has(&pair, ERASED, (2, 2))
}

/// The same for a device whose watermark is 20.
fn is_worked(alloc: Global) -> bool {
    let mut watermarks = Watermarks::new(alloc);
    match Path::read(alloc, b"root.g.d") {
        Ok(device) => {
            raise(&mut watermarks, &device, Some(20));
            is_as_worked(alloc, &watermarks, &device)
        }
        Err(_) => false,
    }
}

#[test]
fn pair_of_worked_points(rt: HostRuntime) {
    assert!(rt; is_worked(rt.alloc()));
}
