//! Runs one behind another on a store, and what stops leave of it, as tables that one walker reads. Depends on `runs`
//! and `places`.
use super::places::{NEW, Store, place_of};
use super::runs::{Left, Run, is_done, is_right, left_by, script_of};
use mem_outside::{MemPlace, StopKind};
use std::alloc::Global;
use std::process::Abort;
use std::slice;
use tsdb_base::Memory;
use tsdb_outside::Place;

/// A store, and runs on it one behind another.
pub type Course<'a> = (Store, &'a [Run]);

/// The first of these runs on the place that leaves something else.
fn first_wrong<P: Place>(alloc: Global, place: &mut P, runs: &[Run]) -> Option<usize> {
    for (at, run) in runs.iter().enumerate() {
        if !is_right(alloc, place, run) {
            return Some(at);
        }
    }
    None
}

/// The store behind a course, or the first of its runs that leaves something else.
fn place_behind(alloc: Global, course: &Course) -> Result<MemPlace, usize> {
    let (store, runs) = course;
    match place_of(alloc, store) {
        Ok(mut place) => match first_wrong(alloc, &mut place, runs) {
            None => Ok(place),
            Some(at) => Err(at),
        },
        Err(_) => Err(0),
    }
}

/// The first run of a course that leaves something else.
pub fn wrong_run(alloc: Global, course: &Course) -> Option<usize> {
    place_behind(alloc, course).err()
}

/// Expects that each run of these courses leaves what it should.
pub fn expect(rt: &impl Abort, alloc: Global, courses: &[Course]) {
    for (at, course) in courses.iter().enumerate() {
        assert_eq!(rt; wrong_run(alloc, course), None, "course {at}");
    }
}

/// Expects that each of these runs leaves what it should on a new store.
pub fn expect_each(rt: &impl Abort, alloc: Global, runs: &[Run]) {
    for (at, run) in runs.iter().enumerate() {
        let course = (NEW, slice::from_ref(run));
        assert!(rt; wrong_run(alloc, &course).is_none(), "run {at}");
    }
}

/// At how many moments the store behind a course can be stopped.
pub fn moments_behind(alloc: Global, course: &Course) -> Option<u64> {
    match place_behind(alloc, course) {
        Ok(place) => Some(place.moments()),
        Err(_) => None,
    }
}

/// What a select may return behind a stop, and the moments of the stop: from one on, and before another one.
pub type Shown = (&'static str, u64, u64);

/// Stops of the store behind a course, of each kind and at each moment.
#[derive(Clone, Copy)]
pub struct Stops {
    pub course: Course<'static>,
    /// The first moment of a stop.
    pub first: u64,
    /// What a select may return behind a stop, the oldest first.
    pub shown: &'static [Shown],
    /// How many places a later stop may go back in it at most.
    pub back: usize,
}

const KINDS: &[StopKind] = &[StopKind::Written, StopKind::Unwritten, StopKind::Scrambled];

/// What a select returned alone, between the heading of its session and the order.
pub fn rows_in(printed: &[u8]) -> Option<&[u8]> {
    let rows = printed.strip_prefix(b"session 1\n".as_slice())?;
    rows.strip_suffix(b"order 1\n".as_slice())
}

/// Which of these rows a run of a select alone returned, if it may at the moment.
fn shown_in(left: &Left, moment: u64, shown: &[Shown]) -> Option<usize> {
    let found = rows_in(left.sink.bytes());
    for (at, (rows, from, before)) in shown.iter().enumerate() {
        let may_be = is_done(left) && *from <= moment && moment < *before;
        if may_be && found == Some(rows.as_bytes()) {
            return Some(at);
        }
    }
    None
}

/// The same of a select on the place.
fn shown_on<P: Place>(alloc: Global, place: &mut P, moment: u64, shown: &[Shown]) -> Option<usize> {
    match left_by(alloc, place, script_of(alloc, "S")) {
        Ok(left) => shown_in(&left, moment, shown),
        Err(_) => None,
    }
}

/// The store behind a stop.
fn stopped_at(place: &MemPlace, moment: u64, kind: StopKind) -> Result<MemPlace, Memory> {
    if moment >= place.moments() {
        return Err(Memory);
    }
    place.after_stop(moment, kind)
}

/// Which of these a select behind a stop returns.
fn shown_behind(
    alloc: Global,
    place: &MemPlace,
    moment: u64,
    kind: StopKind,
    shown: &[Shown],
) -> Option<usize> {
    match stopped_at(place, moment, kind) {
        Ok(mut stopped) => shown_on(alloc, &mut stopped, moment, shown),
        Err(_) => None,
    }
}

/// The first moment of a stop behind which a select returns something else.
fn first_lost_in(alloc: Global, place: &MemPlace, stops: &Stops) -> Option<u64> {
    let mut latest = 0;
    for moment in stops.first..place.moments() {
        for kind in KINDS {
            match shown_behind(alloc, place, moment, *kind, stops.shown) {
                Some(at) if latest <= at.saturating_add(stops.back) => latest = latest.max(at),
                _ => return Some(moment),
            }
        }
    }
    None
}

/// The same of the store behind the course; the greatest moment where a run of the course leaves something else.
fn first_lost(alloc: Global, stops: &Stops) -> Option<u64> {
    match place_behind(alloc, &stops.course) {
        Ok(place) => first_lost_in(alloc, &place, stops),
        Err(_) => Some(u64::MAX),
    }
}

/// Expects that these stops leave what they should.
pub fn expect_kept(rt: &impl Abort, alloc: Global, all: &[Stops]) {
    for (at, stops) in all.iter().enumerate() {
        assert_eq!(rt; first_lost(alloc, stops), None, "stops {at}");
    }
}
