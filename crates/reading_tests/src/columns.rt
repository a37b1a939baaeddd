//! What streams give: worked values, the ends of a range, pages that are not read, late pages that span the series, and
//! calls of a port that fail.

use crate::files::Pair;
use crate::streams::{Sources, Stored, read_stored};
use std::alloc::Global;
use std::test::Fail;
use tsdb_base::Time;
use tsdb_outside::StoreFault;

/// Two files with pages at 1, 2 and 5, 6 and at 2, 3 and 6, 8, and points in memory at 3 and 9.
const SOURCES: Sources = Sources {
    files: [
        Stored {
            born: 10,
            pages: [&[(1, 11), (2, 12)], &[(5, 15), (6, 16)]],
        },
        Stored {
            born: 20,
            pages: [&[(2, 22), (3, 23)], &[(6, 26), (8, 28)]],
        },
    ],
    part: &[(3, 33), (9, 39)],
    part_born: 30,
    // The first is older than the newer file, the second than the part in memory.
    deletions: &[(5, 6, 15), (8, 9, 25)],
};

/// A range, how many bytes are read, the most points that are held behind a pull, and the points in the range.
type Case = (Time, Time, u64, u64, &'static [Pair]);

/// The bytes that are read of the indexes of both files: of each all but its two pages, with three statistics.
const INDEXES: u64 = 618;

/// The bytes that are read of the first page of a file, whose end the index says.
const FIRST: u64 = 30;

/// The bytes that are read of the last page of a file: 24 for each point, and 64.
const LAST: u64 = 112;

const WHOLE: &[Pair] = &[(1, 11), (2, 22), (3, 33), (6, 26), (9, 39)];

/// The bytes that are read where all pages are.
const ALL: u64 = INDEXES + 2 * FIRST + 2 * LAST;

const CASES: &[Case] = &[
    // At 2 the newer file wins, and at 3 the part in memory. 5 is deleted. At 6 the older point is deleted and the
    // newer one is not. At 8 a later deletion meets the newer file, and at 9 it is older than the part in memory.
    (0, 10, ALL, 5, WHOLE),
    (Time::MIN, Time::MAX, ALL, 5, WHOLE),
    (2, 3, INDEXES + 2 * FIRST, 2, &[(2, 22), (3, 33)]),
    (1, 1, INDEXES + FIRST, 0, &[(1, 11)]),
    (6, 6, INDEXES + 2 * LAST, 0, &[(6, 26)]),
    (9, 9, INDEXES, 0, &[(9, 39)]),
    (4, 5, INDEXES + LAST, 0, &[]),
];

/// A file with pages at 0, 2 and 4, 6, and a late one, whose first page at 1, 5 spans both, with another at 6, 7.
const LATE: Sources = Sources {
    files: [
        Stored {
            born: 10,
            pages: [&[(0, 10), (2, 12)], &[(4, 14), (6, 16)]],
        },
        Stored {
            born: 20,
            pages: [&[(1, 21), (5, 25)], &[(6, 26), (7, 27)]],
        },
    ],
    part: &[],
    part_born: 30,
    deletions: &[],
};

/// Behind a pull at most the rest of one page of each file is held: first 2, and 1 and 5.
const LATE_CASES: &[Case] = &[
    (
        0,
        10,
        ALL,
        3,
        &[
            (0, 10),
            (1, 21),
            (2, 12),
            (4, 14),
            (5, 25),
            (6, 26),
            (7, 27),
        ],
    ),
    (0, 2, INDEXES + 2 * FIRST, 2, &[(0, 10), (1, 21), (2, 12)]),
    // The late page spans the time, and has no point at it.
    (3, 3, INDEXES + FIRST, 0, &[]),
];

/// The place of the first case in which something else is read.
fn first_wrong(alloc: Global, sources: &Sources, cases: &[Case]) -> Result<Option<usize>, Fail> {
    for (place, case) in cases.iter().enumerate() {
        let (read, bytes) = read_stored(alloc, sources, (case.0, case.1), u64::MAX)?;
        let same = read.found.as_slice() == case.4 && read.fault.is_none();
        if !same || bytes != case.2 || read.held != case.3 {
            return Ok(Some(place));
        }
    }
    Ok(None)
}

/// Which calls of the port fail, from the first to the second, and how many points are found before. Of the calls up to
/// the twelfth two store the files and five open each of them. A page takes two calls.
static FAILURES: [(u64, u64, usize); 3] = [(3, 16, 0), (17, 18, 2), (19, 20, 3)];

/// The first number of a call that fails where something else is found, or another fault comes.
fn first_wrong_failure(alloc: Global, rows: &[(u64, u64, usize)]) -> Result<Option<u64>, Fail> {
    for row in rows {
        for failing in row.0..=row.1 {
            let (read, _bytes) = read_stored(alloc, &SOURCES, (0, 10), failing)?;
            let same = read.found.len() == row.2 && WHOLE.starts_with(&read.found);
            if !same || read.fault != Some(StoreFault::Failed) {
                return Ok(Some(failing));
            }
        }
    }
    Ok(None)
}

#[test]
fn a_stream_gives_the_winners_that_survive(rt: HostRuntime) -> Result<(), Fail> {
    assert_eq!(rt; first_wrong(rt.alloc(), &SOURCES, CASES)?, None);
    assert_eq!(rt; first_wrong(rt.alloc(), &LATE, LATE_CASES)?, None);
    Ok(())
}

#[test]
fn each_call_of_the_port_that_fails_ends_the_stream(rt: HostRuntime) -> Result<(), Fail> {
    let alloc = rt.alloc();
    assert_eq!(rt; first_wrong_failure(alloc, &FAILURES)?, None);
    // A whole read makes 20 calls.
    let (read, _bytes) = read_stored(alloc, &SOURCES, (0, 10), 21)?;
    assert!(rt; read.fault.is_none());
    Ok(())
}
