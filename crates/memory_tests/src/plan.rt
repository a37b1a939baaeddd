//! Worked plans, and plans at the limits.

use std::alloc::Global;
use tsdb_base::{FileNumber, List, Stamp};
use tsdb_path::Path;
use tsdb_plan::{
    FileEntry, Hull, cross, ends_are_greatest, firsts_are_least, have_rising_hulls, inner,
    shorter_are_eligible,
};

const HALF: u64 = 134_217_728;

fn crosses_threads<T: Send + Sync>(_value: &T) {}

/// The least and the greatest time of a device in a file, where it has any.
type Times = Option<(i64, i64)>;

/// A file: its length, whether it is claimed, and the times of the devices `a` and `b`.
type File = (u64, bool, Times, Times);

/// The first file of an inner plan and its end.
type Inner = (usize, usize);

/// How many late files a cross plan has, and its first early file and their end.
type Cross = (usize, usize, usize);

/// Adds the hull of a device that has times. Whether there was memory for it.
fn add_hull(alloc: Global, hulls: &mut Vec<Hull>, name: u8, times: Times) -> bool {
    let Some((from, to)) = times else {
        return true;
    };
    match Path::read(alloc, &[b'r', b'o', b'o', b't', b'.', name]) {
        Ok(device) => hulls.push(Hull { device, from, to }).is_ok(),
        Err(_) => false,
    }
}

fn add_file(alloc: Global, list: &mut Vec<FileEntry>, (size, claimed, a, b): File) -> bool {
    let mut hulls = Vec::new(alloc);
    let is_whole = add_hull(alloc, &mut hulls, b'a', a) && add_hull(alloc, &mut hulls, b'b', b);
    let entry = FileEntry {
        number: FileNumber(1),
        born: Stamp(1),
        size,
        points: 1,
        hulls: List::of(hulls),
        claimed,
    };
    list.push(entry).is_ok() && is_whole
}

/// Adds the files to the list. Whether there was memory for them.
fn add_files(alloc: Global, list: &mut Vec<FileEntry>, files: &[File]) -> bool {
    for file in files {
        if !add_file(alloc, list, *file) {
            return false;
        }
    }
    true
}

/// The plan that is wanted.
#[derive(Clone, Copy)]
enum Wanted {
    Inner(Option<Inner>),
    Cross(Option<Cross>),
}

/// Files in time order, late files, and their plan.
type Row<'a> = (&'a [File], &'a [File], Wanted);

fn is_inner_plan(files: &[FileEntry], wanted: Option<Inner>) -> bool {
    match inner(files) {
        Some(run) => wanted == Some((run.first, run.end)),
        None => wanted.is_none(),
    }
}

/// Whether the hulls rise, and the cross plan is this one.
fn is_cross_plan(early: &[FileEntry], late: &[FileEntry], wanted: Option<Cross>) -> bool {
    if !have_rising_hulls(early) || !have_rising_hulls(late) {
        return false;
    }
    match cross(early, late) {
        Some(run) => wanted == Some((run.prefix, run.first, run.end)),
        None => wanted.is_none(),
    }
}

/// Whether the plan is the one that is wanted.
fn is_plan(early: &[FileEntry], late: &[FileEntry], wanted: Wanted) -> bool {
    match wanted {
        Wanted::Inner(run) => is_inner_plan(early, run),
        Wanted::Cross(run) => is_cross_plan(early, late, run),
    }
}

/// Whether the files of the row are planned as it is wanted.
fn is_planned(alloc: Global, (early, late, wanted): Row) -> bool {
    let mut sequence = Vec::new(alloc);
    let mut unsequence = Vec::new(alloc);
    let is_made = add_files(alloc, &mut sequence, early) && add_files(alloc, &mut unsequence, late);
    crosses_threads(&sequence);
    is_made && is_plan(&sequence, &unsequence, wanted)
}

/// The first row of the table that is planned otherwise.
fn first_wrong(alloc: Global, rows: &[Row]) -> Option<usize> {
    for (place, row) in rows.iter().enumerate() {
        if !is_planned(alloc, *row) {
            return Some(place);
        }
    }
    None
}

/// Times that no inner plan looks at.
const A: Times = Some((0, 1));

const INNER: &[Row] = &[
    (
        &[
            (200_000_000, false, A, None),
            (100_000_000, false, A, None),
            (100_000_000, false, A, None),
        ],
        &[],
        Wanted::Inner(Some((1, 3))),
    ),
    (
        &[(300, false, A, None); 11],
        &[],
        Wanted::Inner(Some((0, 10))),
    ),
    (
        &[
            (300, false, A, None),
            (300, true, A, None),
            (300, false, A, None),
        ],
        &[],
        Wanted::Inner(None),
    ),
    (
        &[(HALF, false, A, None), (HALF, false, A, None)],
        &[],
        Wanted::Inner(Some((0, 2))),
    ),
    (
        &[(HALF + 1, false, A, None), (HALF, false, A, None)],
        &[],
        Wanted::Inner(None),
    ),
    (
        &[
            (u64::MAX, false, A, None),
            (u64::MAX, false, A, None),
            (1, false, A, None),
            (HALF, false, A, None),
            (1, true, A, None),
        ],
        &[],
        Wanted::Inner(Some((2, 4))),
    ),
    (&[], &[], Wanted::Inner(None)),
];

#[test]
fn inner_plans_at_the_limits(rt: HostRuntime) {
    let wrong = first_wrong(rt.alloc(), INNER);
    assert_eq!(rt; wrong, None);
}

const LARGE: u64 = 100_000_000;

const ONE: &[File] = &[(LARGE, false, Some((3, 5)), None)];

const TWO: &[File] = &[
    (1, false, Some((0, 5)), None),
    (1, false, Some((10, 20)), None),
];

/// Times around those above.
const AROUND: Times = Some((0, 9));

const LATE: &[File] = &[(LARGE, false, AROUND, None), (LARGE, false, AROUND, None)];

// The last three late files lie between two files, at both ends of their times, and behind them.
const BY_HULLS: &[Row] = &[
    (ONE, LATE, Wanted::Cross(Some((1, 0, 1)))),
    (ONE, &[], Wanted::Cross(None)),
    (&[], LATE, Wanted::Cross(Some((2, 0, 0)))),
    (
        TWO,
        &[(1, false, Some((6, 9)), None)],
        Wanted::Cross(Some((1, 1, 1))),
    ),
    (
        TWO,
        &[(1, false, Some((5, 10)), None)],
        Wanted::Cross(Some((1, 0, 2))),
    ),
    (
        TWO,
        &[(1, false, Some((21, 30)), None)],
        Wanted::Cross(Some((1, 2, 2))),
    ),
];

#[test]
fn cross_plans_by_hulls(rt: HostRuntime) {
    let wrong = first_wrong(rt.alloc(), BY_HULLS);
    assert_eq!(rt; wrong, None);
}

// The last four are at the limit of bytes, and have lengths that no sum holds.
const BY_BYTES_AND_CLAIMS: &[Row] = &[
    (
        ONE,
        &[(1, false, AROUND, None), (1, true, AROUND, None)],
        Wanted::Cross(Some((1, 0, 1))),
    ),
    (
        ONE,
        &[(1, true, AROUND, None), (1, false, AROUND, None)],
        Wanted::Cross(None),
    ),
    (
        ONE,
        &[(2 * HALF - LARGE, false, AROUND, None)],
        Wanted::Cross(Some((1, 0, 1))),
    ),
    (
        ONE,
        &[(2 * HALF - LARGE + 1, false, AROUND, None)],
        Wanted::Cross(None),
    ),
    (ONE, &[(u64::MAX, false, AROUND, None)], Wanted::Cross(None)),
    (
        &[
            (u64::MAX, false, Some((3, 5)), None),
            (1, false, Some((6, 8)), None),
        ],
        &[(1, false, AROUND, None)],
        Wanted::Cross(None),
    ),
];

#[test]
fn cross_plans_by_bytes_and_claims(rt: HostRuntime) {
    let wrong = first_wrong(rt.alloc(), BY_BYTES_AND_CLAIMS);
    assert_eq!(rt; wrong, None);
    firsts_are_least();
    ends_are_greatest();
    shorter_are_eligible();
}
