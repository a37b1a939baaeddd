//! Pages of which nothing is told, as those of a real file, and aggregates over them: which pages are loaded, and loads
//! that fail. The program folds the pages of a pin by another body.
ghost use Rattle.std.specs.Prelude.{◌≡◌, replicate};
ghost use Rattle.tsdb_merge.specs.Causes.{HasPullCause};
ghost use Rattle.reading_tests.specs.Pages.{page};

use std::alloc::{AllocError, Global};
use std::marker::Brand;
use std::sync::ledger::{Blank, Ledger};
use std::test::Fail;
use tsdb_aggregate::{Loader, Piece, aggregate};
use tsdb_base::{Aggregate, Figure, Memory, Point, Range, Steps, Value};
use tsdb_merge::PullFault;
use tsdb_stats::stats_of;

/// The fault of a load, and how many loads come before it.
#[derive(Clone, Copy)]
struct Fault {
    before: u64,
    fault: PullFault,
}

/// No load fails.
const NEVER: Fault = Fault {
    before: u64::MAX,
    fault: PullFault::Memory,
};

/// How many loads there were, and the faults that they met.
#[derive(Drop)]
struct Calls {
    count: u64,
    fault: Fault,
    failures: u64,
    damages: u64,
}

impl Calls {
    /// One call more, which may be the one that fails.
    fn next(&mut self) -> Result<(), PullFault>
        ensures { HasPullCause self.old.failures self.new.failures self.old.damages self.new.damages result }
    {
        let before = self.count;
        self.count = before.saturating_add(1);
        if before != self.fault.before {
            return Ok(());
        }
        match self.fault.fault {
            PullFault::Failed => self.failures = self.failures.saturating_add(1),
            PullFault::Damaged { at: _ } => self.damages = self.damages.saturating_add(1),
            PullFault::Memory => {}
        }
        Err(self.fault.fault)
    }
}

/// Pages in memory of which no contract is told what is in them. Each load ticks, also where it fails.
#[derive(Drop)]
struct Pages<'a, K: Ledger> {
    lists: &'a [Vec<Point>],
    count: usize,
    loads: Steps<K>,
    calls: Calls,
}

/// The same points once more, if there is such a list.
fn copy_points(alloc: Global, lists: &[Vec<Point>], place: usize) -> Result<Vec<Point>, Memory> {
    let mut copy = Vec::new(alloc);
    if let Some(points) = lists.get(place) {
        for point in points {
            copy.push(Point {
                time: point.time,
                value: point.value.copy()?,
            })?;
        }
    }
    Ok(copy)
}

/// The points of a page, where the call does not fail.
fn read(
    alloc: Global,
    lists: &[Vec<Point>],
    place: usize,
    calls: &mut Calls,
) -> Result<Vec<Point>, PullFault>
    ensures { HasPullCause calls.old.failures calls.new.failures calls.old.damages calls.new.damages result }
{
    calls.next()?;
    Ok(copy_points(alloc, lists, place)?)
}

impl<K: Ledger> Loader for Pages<'_, K> {
    ghost state = { λ pages. record {
      held = replicate pages.count page;
      failures = pages.calls.failures;
      damages = pages.calls.damages;
      loads = pages.loads;
    } };

    fn load<L: Ledger>(
        &mut self,
        alloc: Global,
        piece: usize,
        pages: &mut Steps<L>,
    ) -> Result<Vec<Point>, PullFault> {
        self.loads.tick();
        pages.tick();
        read(alloc, self.lists, piece, &mut self.calls)
    }
}

/// An answer, and how often a page was loaded for it.
#[derive(Drop)]
struct Answered {
    answer: Result<Option<Figure>, PullFault>,
    calls: u64,
}

fn answer_with<K: Ledger, L: Ledger>(
    alloc: Global,
    name: Aggregate,
    pieces: &[Piece],
    lists: &[Vec<Point>],
    range: &Range,
    fault: Fault,
    own: Blank,
    blank: Blank,
) -> Answered
    requires own_name { own.name ≡ K.name }
    requires own_parts { own.parts ≡ K.parts }
    requires own_one { own.parts ≡ 1 }
    requires name { blank.name ≡ L.name }
    requires parts { blank.parts ≡ L.parts }
    requires one { blank.parts ≡ 1 }
{
    let mut steps = Steps::<L>::new(blank);
    let mut loader = Pages {
        lists,
        count: pieces.len(),
        loads: Steps::<K>::new(own),
        calls: Calls {
            count: 0,
            fault,
            failures: 0,
            damages: 0,
        },
    };
    let answer = aggregate(alloc, name, pieces, range, &mut loader, &mut steps);
    Answered {
        answer,
        calls: loader.calls.count,
    }
}

/// The aggregate of pages, each with the piece at its place.
fn answer(
    alloc: Global,
    name: Aggregate,
    pieces: &[Piece],
    lists: &[Vec<Point>],
    range: &Range,
    fault: Fault,
) -> Answered {
    answer_with::<Brand, Brand>(
        alloc,
        name,
        pieces,
        lists,
        range,
        fault,
        Blank::new(1),
        Blank::new(1),
    )
}

/// Points at the times from `from` to `to`, `step` apart.
fn points(alloc: Global, from: i64, to: i64, step: i64, source: i64) -> Result<Vec<Point>, Fail> {
    let mut list = Vec::new(alloc);
    let mut time = from;
    for _ in 0..2000u32 {
        if time > to {
            return Ok(list);
        }
        let value = Value::I64(time.wrapping_mul(7).wrapping_add(source.wrapping_mul(5)) & 15);
        list.push(Point { time, value }).map_err(AllocError::from)?;
        time = time.wrapping_add(step);
    }
    Ok(list)
}

/// First time, last time and step of a list of points, and the source that its values tell.
type Shape = (i64, i64, i64, i64);

/// A list for each shape.
fn lists_of(alloc: Global, shapes: &[Shape]) -> Result<Vec<Vec<Point>>, Fail> {
    let mut lists = Vec::new(alloc);
    for (from, to, step, source) in shapes {
        lists
            .push(points(alloc, *from, *to, *step, *source)?)
            .map_err(AllocError::from)?;
    }
    Ok(lists)
}

/// The shapes of pages, the source of each, and which of them no other page meets.
type Of = (&'static [Shape], &'static [u32], &'static [bool]);

/// Pages, what is asked of them, over which times, the answer, and how often a page is loaded. Where the answer is a
/// fault, the last of these loads meets it.
type Case = (Of, Aggregate, i64, i64, Result<Option<i64>, PullFault>, u64);

/// A piece for each list. It is clean where no other one meets it and the range has it.
fn pieces_of(
    alloc: Global,
    lists: &[Vec<Point>],
    of: Of,
    range: &Range,
) -> Result<Vec<Piece>, Fail> {
    let (_, sources, alone) = of;
    let mut pieces = Vec::new(alloc);
    for (place, list) in lists.iter().enumerate() {
        if list.is_empty() {
            return Err("no points".into());
        }
        let mut piece = Piece {
            stats: stats_of(list)?,
            source: sources.get(place).copied().unwrap_or(0),
            clean: alone.get(place).copied().unwrap_or(false),
        };
        let hull = piece.hull();
        piece.clean = piece.clean && range.from <= hull.from && hull.to <= range.to;
        pieces.push(piece)?;
    }
    Ok(pieces)
}

/// Two pages of 1,000 points each.
const TWO: Of = (
    &[(1, 1000, 1, 0), (1001, 2000, 1, 0)],
    &[0, 0],
    &[true, true],
);

/// The same, and a late point, which the first page meets. Its value is 12.
const POINT: Of = (
    &[(1, 1000, 1, 0), (1001, 2000, 1, 0), (1, 1, 1, 1)],
    &[0, 0, 1],
    &[false, true, false],
);

/// Three pages of one source under two late ones of another, which span the series.
const LATE: Of = (
    &[
        (0, 9, 1, 0),
        (10, 19, 1, 0),
        (20, 29, 1, 0),
        (0, 14, 2, 1),
        (16, 28, 2, 1),
    ],
    &[0, 0, 0, 1, 1],
    &[],
);

const FAILED: Result<Option<i64>, PullFault> = Err(PullFault::Failed);

const DAMAGED: Result<Option<i64>, PullFault> = Err(PullFault::Damaged { at: 7 });

const MEMORY: Result<Option<i64>, PullFault> = Err(PullFault::Memory);

const CASES: &[Case] = &[
    (TWO, Aggregate::Count, 1, 2000, Ok(Some(2000)), 0),
    (TWO, Aggregate::Count, 1, 1999, Ok(Some(1999)), 1),
    (TWO, Aggregate::MaxTime, 1, 1999, Ok(Some(1999)), 1),
    (TWO, Aggregate::Sum, 1, 2000, Ok(Some(15_000)), 0),
    (POINT, Aggregate::Count, 1, 2000, Ok(Some(2000)), 2),
    // The late 12 stands for the first 7.
    (POINT, Aggregate::Sum, 1, 2000, Ok(Some(15_005)), 2),
    (POINT, Aggregate::FirstValue, 1, 2000, Ok(Some(12)), 2),
    (POINT, Aggregate::Count, 5, 4, Ok(Some(0)), 0),
    // The first value needs one page of each source.
    (LATE, Aggregate::Count, 0, 29, Ok(Some(30)), 5),
    (LATE, Aggregate::MinTime, 0, 29, Ok(Some(0)), 2),
    (LATE, Aggregate::FirstValue, 0, 29, Ok(Some(5)), 2),
    (LATE, Aggregate::MaxTime, 0, 12, Ok(Some(12)), 3),
    (LATE, Aggregate::Count, 0, 29, FAILED, 1),
    (LATE, Aggregate::Count, 0, 29, DAMAGED, 3),
    (LATE, Aggregate::Count, 0, 29, MEMORY, 5),
];

/// The fault of the case's last load, if the answer is one.
fn fault_of(case: &Case) -> Fault {
    match case.4 {
        Ok(_) => NEVER,
        Err(fault) => Fault {
            before: case.5.saturating_sub(1),
            fault,
        },
    }
}

fn is_wanted(found: &Answered, case: &Case) -> bool {
    let same = match (&found.answer, case.4) {
        (Ok(Some(Figure::Value(Value::I64(found)))), Ok(Some(wanted))) => *found == wanted,
        (Ok(Some(Figure::Sum(found))), Ok(Some(wanted))) => *found == i128::from(wanted),
        (Ok(None), Ok(None)) => true,
        (Err(found), Err(wanted)) => *found == wanted,
        _ => false,
    };
    same && found.calls == case.5
}

/// Whether the answer and the number of loads are as wanted.
fn is_answered(alloc: Global, case: &Case) -> Result<bool, Fail> {
    let range = Range {
        from: case.2,
        to: case.3,
    };
    let (shapes, _, _) = case.0;
    let lists = lists_of(alloc, shapes)?;
    let pieces = pieces_of(alloc, &lists, case.0, &range)?;
    let found = answer(alloc, case.1, &pieces, &lists, &range, fault_of(case));
    Ok(is_wanted(&found, case))
}

/// The place of the first case in which something else comes.
fn first_wrong(alloc: Global, cases: &[Case]) -> Result<Option<usize>, Fail> {
    for (place, case) in cases.iter().enumerate() {
        if !is_answered(alloc, case)? {
            return Ok(Some(place));
        }
    }
    Ok(None)
}

#[test]
fn pages_are_loaded_only_where_they_must_be(rt: HostRuntime) -> Result<(), Fail> {
    assert_eq!(rt; first_wrong(rt.alloc(), CASES)?, None);
    Ok(())
}
