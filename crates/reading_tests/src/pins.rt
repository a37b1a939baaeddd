//! Aggregates and how many bytes are read for them, a select at one time, and calls of a port that fail.

use crate::asking::{Answer, ask_stored};
use crate::queries::Query;
use std::alloc::Global;
use std::test::Fail;
use tsdb_base::{Aggregate, Time};
use tsdb_outside::StoreFault;

/// What is asked, what comes, and how many bytes are read for it.
type Case = (Query, Answer, u64);

/// The names of the series in the index: `root.g.d` and `s`, each behind its length in two bytes.
const NAMES: u64 = 2 + 8 + 2 + 1;

/// Statistics of INT64: the count, the first and the last time, four values, and the sum.
const STATISTICS: u64 = 7 * 8 + 16;

/// The root with its one pointer, and the tail behind it.
const ROOT: u64 = 1 + 4 + NAMES + 8;

const TAIL: u64 = 8 + 6;

/// The leaf with the one entry: names, type, encoding and place, the statistics of all points, and those of each page
/// with its place.
const LEAF_WITHOUT_PAGES: u64 = 1 + 2 + NAMES + 1 + 1 + 8 + STATISTICS + 4;

const LEAF: u64 = LEAF_WITHOUT_PAGES + 2 * PAGE_IN_LEAF;

const PAGE_IN_LEAF: u64 = 8 + STATISTICS;

/// What is read of the index of two pages: the tail, the head of 7 bytes, the root, and the leaf.
const INDEX: u64 = TAIL + 7 + ROOT + LEAF;

/// A page of 1,000 points without its times: its head, the length of the times, and their values, in PLAIN behind how
/// many there are.
const PAGE_WITHOUT_TIMES: u64 = 1 + 4 + 4 + 2 + 1000 * 8;

/// What is read of the first page. Its end is where the next one begins. Of times that rise by 1 from 1, TS_2DIFF has
/// their number in two bytes, the first one, the least difference and the width 0 in one each, and no offsets.
const FIRST: u64 = PAGE_WITHOUT_TIMES + 2 + 1 + 1 + 1;

/// What is read of the second page, whose first time takes two bytes. The index does not say where the last page ends:
/// 24 bytes for each point and 64 are read, and these go on to the end of the file.
const SECOND: u64 = PAGE_WITHOUT_TIMES + 2 + 2 + 1 + 1 + LEAF + ROOT + TAIL;

/// How many points lie at the times 1 to 2,000, which are two pages.
const COUNT: Query = Query {
    last: 2_000,
    part: &[],
    deleted: &[],
    times: (1, 2_000),
    aggregate: Some(Aggregate::Count),
    streams: false,
};

/// The same, where a later point at 1 is in memory.
const OF_PART: Query = Query {
    part: &[(1, -7)],
    times: (Time::MIN, Time::MAX),
    ..COUNT
};

/// The least value then.
const LEAST: Query = Query {
    aggregate: Some(Aggregate::MinValue),
    ..OF_PART
};

/// The sum of the times 1 to 2,000, which are the values.
const SUM: Query = Query {
    aggregate: Some(Aggregate::Sum),
    ..COUNT
};

/// The sum then.
const SUM_OF_PART: Query = Query {
    aggregate: Some(Aggregate::Sum),
    ..OF_PART
};

/// The second page does not lie in the range.
const WITHOUT_LAST: Query = Query {
    times: (1, 1_999),
    ..COUNT
};

const DELETED: Query = Query {
    deleted: &[(1_500, 1_500, 7)],
    ..COUNT
};

const CASES: &[Case] = &[
    // Both pages lie in the range, so neither is read.
    (COUNT, Answer::Value(2_000), INDEX),
    (WITHOUT_LAST, Answer::Value(1_999), INDEX + SECOND),
    // The part in memory meets the first page alone.
    (OF_PART, Answer::Value(2_000), INDEX + FIRST),
    (LEAST, Answer::Value(-7), INDEX + FIRST),
    (SUM, Answer::Sum(2_001_000), INDEX),
    (SUM_OF_PART, Answer::Sum(2_000_992), INDEX + FIRST),
    // The mark meets the second page alone.
    (DELETED, Answer::Value(1_999), INDEX + SECOND),
];

/// The place of the first case in which something else comes.
fn first_wrong(alloc: Global, cases: &[Case]) -> Result<Option<usize>, Fail> {
    for (place, case) in cases.iter().enumerate() {
        let (answer, bytes) = ask_stored(alloc, &case.0, u64::MAX)?;
        if answer != case.1 || bytes != case.2 {
            return Ok(Some(place));
        }
    }
    Ok(None)
}

#[test]
fn an_aggregate_reads_the_pages_that_are_not_clean(rt: HostRuntime) -> Result<(), Fail> {
    assert_eq!(rt; first_wrong(rt.alloc(), CASES)?, None);
    Ok(())
}

/// The rows at one time of 100 pages.
const ONE_TIME: Query = Query {
    last: 100_000,
    times: (50, 50),
    aggregate: None,
    ..COUNT
};

/// Of a file of 1.6 MB less than 100,000 bytes are read: its index and the first page.
#[test]
fn a_select_at_one_time_reads_one_page(rt: HostRuntime) -> Result<(), Fail> {
    let (answer, bytes) = ask_stored(rt.alloc(), &ONE_TIME, u64::MAX)?;
    assert_eq!(rt; answer, Answer::Rows(1, 50, 50));
    assert_eq!(rt; bytes, INDEX + 98 * PAGE_IN_LEAF + FIRST);
    assert!(rt; bytes < 100_000);
    Ok(())
}

/// The rows at one time of two pages.
const OF_TWO: Query = Query {
    times: (3, 3),
    aggregate: None,
    ..COUNT
};

/// The first number of a call in the range whose failure gives something else than a fault.
fn first_unheard(alloc: Global, query: &Query, first: u64, last: u64) -> Result<Option<u64>, Fail> {
    for failing in first..=last {
        let (answer, _bytes) = ask_stored(alloc, query, failing)?;
        if answer != Answer::Fault(StoreFault::Failed) {
            return Ok(Some(failing));
        }
    }
    Ok(None)
}

/// The first call stores the file. Those up to the eighth read it, and the next one, which removes it, fails no answer.
#[test]
fn each_call_of_the_port_that_fails_fails_the_answer(rt: HostRuntime) -> Result<(), Fail> {
    let alloc = rt.alloc();
    assert_eq!(rt; first_unheard(alloc, &LEAST, 2, 9)?, Some(9));
    assert_eq!(rt; first_unheard(alloc, &OF_TWO, 2, 9)?, Some(9));
    Ok(())
}

/// The stream at one time, at which a later point is in memory.
const REPLACED: Query = Query {
    last: 10,
    part: &[(10, 2)],
    deleted: &[],
    times: (10, 10),
    aggregate: None,
    streams: true,
};

/// The stream of two pages without what is deleted.
const STREAM: Query = Query {
    last: 2_000,
    part: &[(2_001, -1)],
    deleted: &[(1, 999, 7)],
    times: (2, 3_000),
    aggregate: None,
    streams: true,
};

#[test]
fn a_stream_of_a_pin_gives_the_points_of_its_column(rt: HostRuntime) -> Result<(), Fail> {
    let alloc = rt.alloc();
    let (replaced, _bytes) = ask_stored(alloc, &REPLACED, u64::MAX)?;
    assert_eq!(rt; replaced, Answer::Rows(1, 10, 2));
    let (stream, _bytes) = ask_stored(alloc, &STREAM, u64::MAX)?;
    assert_eq!(rt; stream, Answer::Rows(1_002, 1_000, 1_000));
    Ok(())
}
