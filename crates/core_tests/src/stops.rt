//! Each moment of each step of a list stopped in each way: the records that are left are those before the step, or
//! those behind it, or some between. Depends on `stored`.
use crate::cases::{DONE, FLUSH, FREEZE, OK};
use crate::places::place_of;
use crate::stored::{Came, Step, Stored, close_stored, open_stored};
use mem_outside::{MemPlace, StopKind};
use std::alloc::Global;
use std::test::Fail;
use tsdb_frames::{Frame, Frames};
use tsdb_outside::{Files, Journal, Place, Slot};

/// The most points of a pair.
pub const LIMIT: u64 = 2;

/// A step, what comes of it, and how many records the log has behind it.
pub type Row = (Step, Came, usize);

/// Steps that all change something: files of one part and of two, a flush that is given up, a mark over a file, and a
/// row that freezes the pair before it.
pub const STEPS: &[Row] = &[
    (Step::Ask("Cs"), OK, 1),
    (Step::Ask("Ct"), OK, 2),
    (Step::Write("I2s", 3), OK, 3),
    (FREEZE, OK, 4),
    (FLUSH, DONE, 5),
    (Step::Write("I1s", 8), OK, 6),
    (Step::Write("I3t", 9), OK, 7),
    (Step::Write("I3s", 10), OK, 9),
    (Step::Ask("D12s"), OK, 10),
    (FREEZE, OK, 11),
    (Step::GiveUp, Came::Ended(None), 11),
    (Step::Sweep, Came::Swept(Ok(2)), 11),
    (FLUSH, DONE, 12),
    (FLUSH, DONE, 13),
    (Step::Ask("D13t"), OK, LAST),
];

/// How many records the log has behind these steps.
pub const LAST: usize = 14;

const KINDS: [StopKind; 3] = [StopKind::Written, StopKind::Unwritten, StopKind::Scrambled];

/// Whether each of so many steps comes as its row says.
fn follows<J: Journal, F: Files>(
    alloc: Global,
    core: &mut Stored<J, F>,
    rows: &[Row],
    count: usize,
) -> Result<bool, Fail> {
    for (step, wanted, _) in rows.iter().take(count) {
        if core.go(alloc, *step)? != *wanted {
            return Ok(false);
        }
    }
    Ok(true)
}

/// A new place, the core of which was led through so many steps. None where one did not come as it should.
fn led_through(alloc: Global, rows: &[Row], count: usize) -> Result<Option<MemPlace>, Fail> {
    let mut place = place_of(alloc, &[])?;
    let mut core = open_stored(alloc, &mut place, LIMIT, 1)?;
    let came = follows(alloc, &mut core, rows, count);
    close_stored(&mut place, core);
    Ok(came?.then_some(place))
}

/// The records of the log that a stop leaves, where it can be read.
fn left_by(
    alloc: Global,
    place: &MemPlace,
    moment: u64,
    kind: StopKind,
) -> Result<Option<Vec<Frame>>, Fail> {
    if place.moments() == 0 {
        return Ok(None);
    }
    let mut left = place.after_stop(moment, kind)?;
    let (journal, _files) = left.take_up(b"d")?;
    let Ok((_, records)) = Frames::scan(alloc, journal, Slot::A) else {
        return Ok(None);
    };
    Ok(Some(records))
}

/// Whether these are the first of the records.
fn are_first(left: &[Frame], records: &[Frame]) -> bool {
    for (place, frame) in left.iter().enumerate() {
        match records.get(place) {
            Some(record) if record.payload.items() == frame.payload.items() => (),
            _ => return false,
        }
    }
    true
}

/// Whether a stop at this moment, of each kind, leaves the first of the records that the log has at last, from the
/// least number of them to the most.
pub fn leaves(
    alloc: Global,
    place: &MemPlace,
    moment: u64,
    least: usize,
    most: usize,
) -> Result<bool, Fail> {
    let last = place.moments().saturating_sub(1);
    let Some(records) = left_by(alloc, place, last, StopKind::Written)? else {
        return Ok(false);
    };
    for kind in &KINDS {
        match left_by(alloc, place, moment, *kind)? {
            Some(left) if least <= left.len() && left.len() <= most && are_first(&left, &records) =>
                (),
            _ => return Ok(false),
        }
    }
    Ok(true)
}

/// The first moment from this one on at which a stop leaves fewer records than before the step or more than behind it,
/// or the last, if a stop leaves other ones than those behind the step there.
fn first_other(
    alloc: Global,
    place: &MemPlace,
    from: u64,
    before: usize,
    after: usize,
) -> Result<Option<u64>, Fail> {
    let last = place.moments().saturating_sub(1);
    for moment in from..last {
        if !leaves(alloc, place, moment, before, after)? {
            return Ok(Some(moment));
        }
    }
    Ok((!leaves(alloc, place, last, after, after)?).then_some(last))
}

/// The first step, counted from 1, in which a stop leaves what it should not, with the moment of the stop.
fn first_wrong_step(alloc: Global, rows: &[Row]) -> Result<Option<(usize, u64)>, Fail> {
    let mut before = 0;
    let mut from = 0u64;
    for (at, (_, _, after)) in rows.iter().enumerate() {
        let count = at.saturating_add(1);
        let Some(place) = led_through(alloc, rows, count)? else {
            return Ok(Some((count, 0)));
        };
        if let Some(moment) = first_other(alloc, &place, from, before, *after)? {
            return Ok(Some((count, moment)));
        }
        before = *after;
        from = place.moments().saturating_sub(1);
    }
    Ok(None)
}

#[test]
fn stops_at_each_moment(rt: HostRuntime) -> Result<(), Fail> {
    assert_eq!(&rt;
        first_wrong_step(rt.alloc(), STEPS)?,
        None,
        "the step and its moment"
    );
    Ok(())
}
