//! Courses of a log over a place in memory: the steps that it takes, what is there then, and what stops leave of it.
ghost use Rattle.std.specs.Prelude.{IfOk};
ghost use Rattle.tsdb_frames.specs.Log.{IsFrame};

use crate::slots::{Content, EMPTY, place_of, scan_in};
use mem_outside::{MemPlace, StopKind};
use std::alloc::Global;
use tsdb_base::Memory;
use tsdb_frames::{Frame, Frames, ScanRefused, frame};
use tsdb_outside::{Journal, Place, Slot};

// A call of a log, and what comes of it.
#[derive(Clone, Copy)]
pub(crate) enum Step {
    // A record is added. Or it is not: without a gate in doubt, or with one.
    Added(&'static [u8]),
    Refused(&'static [u8]),
    Doubted(&'static [u8]),
    // The log turns over with a record. Or it does not: without a gate in doubt, or with one.
    Turned(&'static [u8]),
    TurnRefused(&'static [u8]),
    TurnDoubted(&'static [u8]),
    // No gate is in doubt any more, or one still is.
    Settled,
    Unsettled,
}

// The frame of a record. Each course has short ones.
fn frame_of(alloc: Global, payload: &[u8]) -> Result<Vec<u8>, Memory>
    ensures { IfOk result (λ framed. IsFrame framed.items) }
{
    if payload.is_empty() || payload.len() > 1000 {
        return Err(Memory);
    }
    frame(alloc, payload)
}

// Makes the call of a step. Whether it succeeds.
fn succeeds<J: Journal>(alloc: Global, log: &mut Frames<J>, step: &Step) -> Result<bool, Memory> {
    let (turns, payload) = match step {
        Step::Added(payload) | Step::Refused(payload) | Step::Doubted(payload) => (false, payload),
        Step::Turned(payload) | Step::TurnRefused(payload) | Step::TurnDoubted(payload) => {
            (true, payload)
        }
        Step::Settled | Step::Unsettled => return Ok(log.settle().is_ok()),
    };
    let framed = frame_of(alloc, payload)?;
    let answer = match turns {
        true => log.turn_over(&framed),
        false => log.append(&framed),
    };
    Ok(answer.is_ok())
}

// Whether the call of a step is to succeed, and whether a gate is to be in doubt behind it.
fn outcome_of(step: &Step) -> (bool, bool) {
    match step {
        Step::Added(_) | Step::Turned(_) | Step::Settled => (true, false),
        Step::Refused(_) | Step::TurnRefused(_) => (false, false),
        Step::Doubted(_) | Step::TurnDoubted(_) | Step::Unsettled => (false, true),
    }
}

// Takes steps. Whether each comes as it should.
fn come_so<J: Journal>(alloc: Global, log: &mut Frames<J>, steps: &[Step]) -> bool {
    for step in steps {
        let (success, doubt) = outcome_of(step);
        if succeeds(alloc, log, step) != Ok(success) || log.doubt() != doubt {
            return false;
        }
    }
    true
}

// The same in slot A of a place.
pub(crate) fn come_so_in<P: Place>(alloc: Global, place: &mut P, steps: &[Step]) -> bool {
    let Ok((journal, files)) = place.take_up(b"d") else {
        return false;
    };
    match Frames::scan(alloc, journal, Slot::A) {
        Ok((mut log, _frames)) => {
            let is_right = come_so(alloc, &mut log, steps);
            place.put_down(log.end(), files);
            is_right
        }
        Err(ScanRefused { journal, fault: _ }) => {
            place.put_down(journal, files);
            false
        }
    }
}

// Whether a slot of a place has this many bytes.
fn has_length<P: Place>(place: &mut P, slot: Slot, bytes: u64) -> bool {
    let Ok((mut journal, files)) = place.take_up(b"d") else {
        return false;
    };
    let length = journal.length(slot);
    place.put_down(journal, files);
    length == Ok(bytes)
}

// Whether the records begin with these bytes, one each.
fn begin_with(frames: &[Frame], firsts: &[u8]) -> bool {
    for (index, frame) in frames.iter().enumerate() {
        if frame.payload.items().first() != firsts.get(index) {
            return false;
        }
    }
    frames.len() == firsts.len()
}

// Whether a slot of a place has records that begin with one of these rows of bytes.
fn has_one_of<P: Place>(alloc: Global, place: &mut P, slot: Slot, rows: &[&[u8]]) -> bool {
    match scan_in(alloc, place, slot) {
        Ok(frames) => rows.iter().any(|row| begin_with(&frames, row)),
        Err(_) => false,
    }
}

// From this moment on a stop leaves in a slot records that begin with one of these rows of bytes. Before the first of a
// table it leaves no record.
pub(crate) type Left = (u64, &'static [&'static [u8]]);

// What stops of these kinds leave in a slot.
pub(crate) type Stops = (&'static [StopKind], Slot, &'static [Left]);

pub(crate) const EACH: &[StopKind] = &[StopKind::Written, StopKind::Unwritten, StopKind::Scrambled];

pub(crate) const WRITTEN: &[StopKind] = &[StopKind::Written];

// Those that do not leave what is written until it is synced.
pub(crate) const SYNCED: &[StopKind] = &[StopKind::Unwritten, StopKind::Scrambled];

// What a stop at this moment may leave.
fn left_at(table: &[Left], moment: u64) -> &'static [&'static [u8]] {
    let mut left: &'static [&'static [u8]] = &[&[]];
    for (from, rows) in table {
        if *from <= moment {
            left = *rows;
        }
    }
    left
}

// The place behind a stop.
fn stopped_at(place: &MemPlace, moment: u64, kind: StopKind) -> Result<MemPlace, Memory> {
    if moment >= place.moments() {
        return Err(Memory);
    }
    place.after_stop(moment, kind)
}

// Whether a stop of this kind at this moment leaves in a slot what the table says.
fn leaves(
    alloc: Global,
    place: &MemPlace,
    moment: u64,
    kind: StopKind,
    slot: Slot,
    table: &[Left],
) -> bool {
    match stopped_at(place, moment, kind) {
        Ok(mut stopped) => has_one_of(alloc, &mut stopped, slot, left_at(table, moment)),
        Err(_) => false,
    }
}

// Whether stops leave what they should, at these moments or, where none is named, at each.
fn all_leave(alloc: Global, place: &MemPlace, at: &[u64], stops: &[Stops]) -> bool {
    for (kinds, slot, table) in stops {
        for kind in *kinds {
            for moment in 0..place.moments() {
                let is_stopped = at.is_empty() || at.contains(&moment);
                if is_stopped && !leaves(alloc, place, moment, *kind, *slot, table) {
                    return false;
                }
            }
        }
    }
    true
}

// A log in slot A of a place.
#[derive(Clone, Copy)]
pub(crate) struct Course {
    // What the place has, and the numbers of its calls that fail.
    pub(crate) a: Content,
    pub(crate) b: Content,
    pub(crate) fails: &'static [u64],
    pub(crate) steps: &'static [Step],
    // How many moments it has behind the steps, and what a slot has then: its bytes, and what its records begin with.
    pub(crate) moments: u64,
    pub(crate) slot: Slot,
    pub(crate) length: u64,
    pub(crate) records: &'static [u8],
    // The moments at which it is stopped, or none for each, and what stops leave.
    pub(crate) at: &'static [u64],
    pub(crate) stops: &'static [Stops],
}

// A log without a record, which takes no step.
pub(crate) const STILL: Course = Course {
    a: Content::Bytes(&[0]),
    b: EMPTY,
    fails: &[],
    steps: &[],
    moments: 1,
    slot: Slot::A,
    length: 1,
    records: &[],
    at: &[],
    stops: &[],
};

// Whether a course goes as it should in its place.
fn goes_so(alloc: Global, place: &mut MemPlace, course: &Course) -> bool {
    come_so_in(alloc, place, course.steps)
        && place.moments() == course.moments
        && has_length(place, course.slot, course.length)
        && has_one_of(alloc, place, course.slot, &[course.records])
        && all_leave(alloc, place, course.at, course.stops)
}

pub(crate) fn is_right(alloc: Global, course: &Course) -> bool {
    match place_of(alloc, &course.a, &course.b, course.fails) {
        Ok(mut place) => goes_so(alloc, &mut place, course),
        Err(_) => false,
    }
}

// The first course that goes otherwise.
pub(crate) fn first_wrong(alloc: Global, courses: &[Course]) -> Option<usize> {
    for (index, course) in courses.iter().enumerate() {
        if !is_right(alloc, course) {
            return Some(index);
        }
    }
    None
}
