//! Marks of a series among those of others, step by step.

use std::alloc::Global;
use tsdb_base::{Range, Stamp, Time};
use tsdb_marks::{Mark, Marks};
use tsdb_path::Path;

const MIN: Time = Time::MIN;

const MAX: Time = Time::MAX;

/// Makes a place for the mark, and adds it where it is newer than all. Whether it was added.
fn add(marks: &mut Marks, mark: Mark) -> bool {
    let version = mark.version.0;
    if let Ok(()) = marks.reserve()
        && marks.marks().iter().all(|kept| kept.version.0 < version)
    {
        marks.add(mark);
        true
    } else {
        false
    }
}

/// Adds the mark of a path.
fn add_at(
    marks: &mut Marks,
    alloc: Global,
    path: &[u8],
    (from, to): (Time, Time),
    version: u64,
) -> bool {
    match Path::read(alloc, path) {
        Ok(path) => add(
            marks,
            Mark {
                path,
                from,
                to,
                version: Stamp(version),
            },
        ),
        Err(_) => false,
    }
}

/// Whether the marks have these versions.
fn have_versions(marks: &[Mark], versions: &[u64]) -> bool {
    for (place, mark) in marks.iter().enumerate() {
        if versions.get(place) != Some(&mark.version.0) {
            return false;
        }
    }
    marks.len() == versions.len()
}

/// Whether the marks of these series alone have these versions.
fn keeps(marks: &Marks, series: &[Path], versions: &[u64]) -> bool {
    match marks.only(series) {
        Ok(only) => have_versions(only.marks(), versions),
        Err(_) => false,
    }
}

/// A step of a test, and what is wanted of it.
#[derive(Clone, Copy)]
enum Step {
    /// A mark of this path, range and version is added.
    Add(&'static [u8], (Time, Time), u64),
    /// The marks up to this version are dropped, or all.
    Purge(Option<Stamp>),
    /// The marks have these versions.
    Has(&'static [u64]),
    /// The marks of the paths from one place to another have these versions.
    Only((usize, usize), &'static [u64]),
    /// Whether a point of the series survives.
    Survives(Time, Stamp, bool),
    /// Whether a mark covers a point of the series at some time of the range.
    Meets((Time, Time), Stamp, bool),
}

/// Takes a step with marks of the series, which is among the paths, and says whether it came out as wanted.
fn is_right(alloc: Global, marks: &mut Marks, series: &Path, paths: &[Path], step: Step) -> bool {
    match step {
        Step::Add(path, range, version) => add_at(marks, alloc, path, range, version),
        Step::Purge(version) => {
            marks.purge(version);
            true
        }
        Step::Has(versions) => have_versions(marks.marks(), versions),
        Step::Only((first, end), versions) => match paths.get(first..end) {
            Some(asked) => keeps(marks, asked, versions),
            None => false,
        },
        Step::Survives(time, born, wanted) => marks.survives(series, time, born) == wanted,
        Step::Meets((from, to), born, wanted) => {
            marks.meets(series, &Range { from, to }, born) == wanted
        }
    }
}

/// The first of the steps that comes out otherwise.
fn first_wrong_step(
    alloc: Global,
    marks: &mut Marks,
    series: &Path,
    paths: &[Path],
    steps: &[Step],
) -> Option<usize> {
    for (place, step) in steps.iter().enumerate() {
        if !is_right(alloc, marks, series, paths, *step) {
            return Some(place);
        }
    }
    None
}

/// A series with marks between another one, which stands there twice, and a device.
const PATHS: &[&[u8]] = &[b"root.g.d.st", b"root.g.d.s", b"root.g.d.st", b"root.g.d"];

/// Adds the paths to the list. Whether there was memory for them.
fn add_paths(alloc: Global, list: &mut Vec<Path>) -> bool {
    for path in PATHS {
        let is_added = match Path::read(alloc, path) {
            Ok(path) => list.push(path).is_ok(),
            Err(_) => false,
        };
        if !is_added {
            return false;
        }
    }
    true
}

/// The first wrong one of the steps with new marks.
fn first_wrong(alloc: Global, steps: &[Step]) -> Option<usize> {
    let mut paths = Vec::new(alloc);
    let are_read = add_paths(alloc, &mut paths);
    match paths.get(1) {
        Some(series) if are_read => {
            first_wrong_step(alloc, &mut Marks::new(alloc), series, &paths, steps)
        }
        _ => Some(0),
    }
}

/// One mark, which covers the series until it is purged.
const ONE_MARK: &[Step] = &[
    Step::Add(b"root.g.d.s", (1, 5), 4),
    Step::Survives(3, Stamp(3), false),
    Step::Survives(3, Stamp(4), true),
    Step::Survives(0, Stamp(3), true),
    Step::Survives(1, Stamp(3), false),
    Step::Survives(5, Stamp(3), false),
    Step::Survives(6, Stamp(3), true),
    Step::Only((1, 2), &[4]),
    Step::Purge(Some(Stamp(4))),
    Step::Has(&[]),
    Step::Survives(3, Stamp(3), true),
    Step::Only((1, 2), &[]),
];

#[test]
fn one_mark(rt: HostRuntime) {
    let wrong = first_wrong(rt.alloc(), ONE_MARK);
    assert_eq!(rt; wrong, None);
}

/// Marks whose ranges touch, lie in one another, are equal, are empty, and reach both ends of time.
const MANY_MARKS: &[Step] = &[
    Step::Add(b"root.g.d.s", (1, 5), 1),
    Step::Add(b"root.g.d.s", (6, 9), 2),
    Step::Add(b"root.g.d.s", (3, 7), 3),
    Step::Survives(7, Stamp(2), false),
    Step::Survives(8, Stamp(2), true),
    Step::Add(b"root.g.d.st", (2, 8), 4),
    Step::Survives(8, Stamp(2), true),
    Step::Add(b"root.g.d.s", (4, 4), 5),
    Step::Add(b"root.g.d.s", (4, 4), 6),
    Step::Survives(4, Stamp(5), false),
    Step::Survives(4, Stamp(6), true),
    Step::Add(b"root.g.d.s", (9, 2), 7),
    Step::Survives(5, Stamp(3), true),
    Step::Add(b"root.g.d.s", (MIN, 0), 8),
    Step::Add(b"root.g.d.st", (MIN, MAX), 9),
    Step::Purge(Some(Stamp(3))),
    Step::Survives(1, Stamp(0), true),
    Step::Add(b"root.g.d.s", (8, MAX), 10),
    Step::Add(b"root.g.d.s", (MAX, MAX), 11),
    Step::Add(b"root.g.d.s", (MIN, MIN), 12),
    Step::Has(&[4, 5, 6, 7, 8, 9, 10, 11, 12]),
    Step::Survives(MIN, Stamp(11), false),
    Step::Survives(MIN + 1, Stamp(8), true),
    Step::Survives(MAX, Stamp(10), false),
    Step::Survives(MAX - 1, Stamp(10), true),
    Step::Meets((0, 3), Stamp(7), true),
    Step::Meets((1, 3), Stamp(7), false),
    Step::Meets((3, 0), Stamp(0), false),
    Step::Meets((1, 8), Stamp(9), true),
    Step::Only((2, 4), &[4, 9]),
    Step::Only((0, 3), &[4, 5, 6, 7, 8, 9, 10, 11, 12]),
    Step::Purge(None),
    Step::Survives(MIN, Stamp(0), true),
];

#[test]
fn many_marks(rt: HostRuntime) {
    let wrong = first_wrong(rt.alloc(), MANY_MARKS);
    assert_eq!(rt; wrong, None);
}
