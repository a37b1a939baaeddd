//! Worked merges, and sources that fail.
ghost use Rattle.std.specs.Prelude.{None};

use std::alloc::Global;
use tsdb_base::{Point, Value, is_rising};
use tsdb_merge::{ListPoints, Merge, Points, PullFault};

fn crosses_threads<T: Send>(_value: &T) {}

/// A point whose value says which source it is of.
pub fn point(time: i64, source: u8) -> Point {
    Point {
        time,
        value: Value::I64(i64::from(source)),
    }
}

/// What a pull gives: time and source of a point, or the end.
pub type Pulled = Option<(i64, u8)>;

/// Whether this was pulled.
pub fn is_pulled(found: &Option<Point>, wanted: Pulled) -> bool {
    match (found, wanted) {
        (Some(point), Some((time, source))) => {
            point.time == time && matches!(point.value, Value::I64(of) if of == i64::from(source))
        }
        (None, None) => true,
        _ => false,
    }
}

/// Adds a source of these points. Whether their times rise, and there was memory.
fn add_list(sources: &mut Vec<ListPoints>, points: Vec<Point>) -> bool {
    is_rising(&points) && sources.push(ListPoints::new(points)).is_ok()
}

/// Adds the points that a table has for a source.
fn add_source(
    alloc: Global,
    sources: &mut Vec<ListPoints>,
    table: &[(u8, i64)],
    source: u8,
) -> bool {
    let mut points = Vec::new(alloc);
    let mut is_whole = true;
    for (of, time) in table {
        if *of == source {
            is_whole = points.push(point(*time, source)).is_ok() && is_whole;
        }
    }
    add_list(sources, points) && is_whole
}

/// Adds so many sources.
fn add_sources(
    alloc: Global,
    sources: &mut Vec<ListPoints>,
    table: &[(u8, i64)],
    count: u8,
) -> bool {
    for source in 0..count {
        if !add_source(alloc, sources, table, source) {
            return false;
        }
    }
    true
}

/// Whether the merge gives this, pull after pull.
fn gives(merge: &mut Merge<ListPoints>, wanted: &[Pulled]) -> bool {
    for pulled in wanted {
        let is_right = match merge.pull() {
            Ok(found) => is_pulled(&found, *pulled),
            Err(_) => false,
        };
        if !is_right {
            return false;
        }
    }
    true
}

/// Whether the merge of a table gives this. The table has a point for each pair of a source and a time.
fn merges(alloc: Global, table: &[(u8, i64)], count: u8, wanted: &[Pulled]) -> bool {
    let mut sources = Vec::new(alloc);
    let is_made = add_sources(alloc, &mut sources, table, count);
    match Merge::new(alloc, sources) {
        Ok(mut merge) => {
            crosses_threads(&merge);
            is_made && gives(&mut merge, wanted)
        }
        Err(_) => false,
    }
}

/// Sources as a table, how many there are, and what is pulled from their merge.
type MergeRow = (&'static [(u8, i64)], u8, &'static [Pulled]);

const MERGES: &[MergeRow] = &[
    (
        &[(0, 1), (1, 2), (2, 2)],
        3,
        &[Some((1, 0)), Some((2, 2)), None],
    ),
    (
        &[(0, i64::MIN), (1, i64::MIN), (0, i64::MAX), (1, i64::MAX)],
        2,
        &[Some((i64::MIN, 1)), Some((i64::MAX, 1)), None],
    ),
    (&[], 0, &[None]),
];

/// The first row of the table that is merged otherwise.
fn first_wrong_merge(alloc: Global) -> Option<usize> {
    for (row, (table, count, wanted)) in MERGES.iter().enumerate() {
        if !merges(alloc, table, *count, wanted) {
            return Some(row);
        }
    }
    None
}

/// Whether times one behind the other rise, and times that are equal do not.
fn tells_rising(alloc: Global) -> bool {
    let mut sources = Vec::new(alloc);
    add_source(alloc, &mut sources, &[(0, 1), (0, 2)], 0)
        && !add_source(alloc, &mut sources, &[(0, 1), (0, 1)], 0)
}

#[test]
fn the_last_source_wins(rt: HostRuntime) {
    let wrong = first_wrong_merge(rt.alloc());
    assert!(rt; tells_rising(rt.alloc()));
    assert_eq!(rt; wrong, None);
}

/// Each kind of fault.
pub const FAULTS: &[PullFault] = &[
    PullFault::Failed,
    PullFault::Damaged { at: 7 },
    PullFault::Memory,
];

/// Two points of a source, in order of time. It answers a fault behind some of them, and then goes on. No contract is
/// told what is in it.
#[derive(Clone, Copy)]
struct Failing {
    /// How many points are left.
    left: u64,
    before: u64,
    fault: PullFault,
    failures: u64,
    damages: u64,
}

impl Points for Failing {
    ghost left = { λ _. None };

    ghost most = { λ f. f.left };

    ghost failures = { λ f. f.failures };

    ghost damages = { λ f. f.damages };

    fn pull(&mut self) -> Result<Option<Point>, PullFault> {
        self.before = self.before.wrapping_sub(1);
        if self.before == u64::MAX {
            match self.fault {
                PullFault::Failed => self.failures = self.failures.saturating_add(1),
                PullFault::Damaged { at: _ } => self.damages = self.damages.saturating_add(1),
                PullFault::Memory => {}
            }
            return Err(self.fault);
        }
        match self.left.checked_sub(1) {
            Some(left) => {
                self.left = left;
                Ok(Some(point(if left == 2 { 0 } else { 1 }, 0)))
            }
            None => Ok(None),
        }
    }

    ghost rising = { λ _. tt };
}

/// A source that fails behind so many points.
fn source(before: u64, fault: PullFault) -> Failing {
    Failing {
        left: 2,
        before,
        fault,
        failures: 0,
        damages: 0,
    }
}

/// Whether the merge meets this fault within four pulls and answers it from then on, or meets none where none is
/// wanted.
fn meets(merge: &mut Merge<Failing>, wanted: Option<PullFault>) -> bool {
    let mut met = None;
    let mut is_repeated = true;
    for _ in 0..4 {
        let fault = merge.pull().err();
        is_repeated = is_repeated && (met.is_none() || fault == met);
        met = met.or(fault);
    }
    is_repeated && met == wanted
}

/// Whether the merge of two sources, of which the second fails behind so many points, meets this.
fn merge_meets(alloc: Global, before: u64, fault: PullFault, wanted: Option<PullFault>) -> bool {
    match Vec::from_slice(alloc, &[source(100, fault), source(before, fault)]) {
        Ok(sources) => match Merge::new(alloc, sources) {
            Ok(mut merge) => meets(&mut merge, wanted),
            Err(_) => false,
        },
        Err(_) => false,
    }
}

/// The first of these faults that is not repeated, behind however many points it comes. A source that would fail at its
/// fourth pull is never asked for it.
fn first_wrong_fault(alloc: Global) -> Option<usize> {
    for (place, fault) in FAULTS.iter().enumerate() {
        if !merge_meets(alloc, 0, *fault, Some(*fault))
            || !merge_meets(alloc, 2, *fault, Some(*fault))
            || !merge_meets(alloc, 3, *fault, None)
        {
            return Some(place);
        }
    }
    None
}

#[test]
fn a_fault_is_repeated(rt: HostRuntime) {
    let wrong = first_wrong_fault(rt.alloc());
    assert_eq!(rt; wrong, None);
}
