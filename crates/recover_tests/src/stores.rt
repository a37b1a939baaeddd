//! Stores with files that are opened, and damaged ones, over places in memory.
use mem_outside::{Fails, MemPlace, StopKind};
use std::alloc::Global;
use std::test::Fail;
use tsdb_base::{FileNumber, Space};
use tsdb_core::{Core, Options};
use tsdb_outside::{Files, Journal, Place};
use tsdb_recover::{OpenFault, OpenRefused, Part, recover};

/// The log of a created series and an insert at time 1, but for its last gate.
const LOG: [u8; 53] = [
    1, 0, 0, 0, 15, 1, 0, 10, 114, 111, 111, 116, 46, 103, 46, 100, 46, 115, 2, 0, // at 0
    1, 0, 0, 0, 28, 2, 0, 0, 0, 0, 0, 0, 0, 1, 0, 1, 0, 0, 0, 0, 0, 0, 0, 0, 2, 0, 0, 0, 0, 0, 0,
    0, 5, // at 20
];

/// No more records: a closed gate.
pub(crate) const NOTHING: [u8; 1] = [0];

/// A freeze at 53, and a flush to file 1 at 59.
const FLUSHED: [u8; 29] = [
    1, 0, 0, 0, 1, 4, 1, 0, 0, 0, 17, 5, 0, 0, 0, 0, 0, 0, 0, 1, 0, 0, 0, 0, 0, 0, 0, 0, 0,
];

/// A freeze and a flush to file 5; an insert at time 0, a freeze and a flush to the unsequence file 3.
pub(crate) const LATE: [u8; 90] = [
    1, 0, 0, 0, 1, 4, 1, 0, 0, 0, 17, 5, 0, 0, 0, 0, 0, 0, 0, 5, 0, 0, 0, 0, 0, 0, 0, 0, // at 53
    1, 0, 0, 0, 28, 2, 0, 0, 0, 0, 0, 0, 0, 0, 0, 1, 0, 0, 0, 0, 0, 0, 0, 0, 2, 0, 0, 0, 0, 0, 0,
    0, 9, // at 81
    1, 0, 0, 0, 1, 4, 1, 0, 0, 0, 17, 5, 0, 0, 0, 0, 0, 0, 0, 0, 0, 0, 0, 0, 0, 0, 0, 3, 0, // at 114
];

/// The same, where the second flush names file 5 again.
const TWICE: [u8; 90] = [
    1, 0, 0, 0, 1, 4, 1, 0, 0, 0, 17, 5, 0, 0, 0, 0, 0, 0, 0, 5, 0, 0, 0, 0, 0, 0, 0, 0, // at 53
    1, 0, 0, 0, 28, 2, 0, 0, 0, 0, 0, 0, 0, 0, 0, 1, 0, 0, 0, 0, 0, 0, 0, 0, 2, 0, 0, 0, 0, 0, 0,
    0, 9, // at 81
    1, 0, 0, 0, 1, 4, 1, 0, 0, 0, 17, 5, 0, 0, 0, 0, 0, 0, 0, 0, 0, 0, 0, 0, 0, 0, 0, 5, 0, // at 114
];

/// A freeze and a flush to file 5; an insert at time 2, a freeze and a flush to file 3, which stands behind file 5.
const TWO: [u8; 90] = [
    1, 0, 0, 0, 1, 4, 1, 0, 0, 0, 17, 5, 0, 0, 0, 0, 0, 0, 0, 5, 0, 0, 0, 0, 0, 0, 0, 0, // at 53
    1, 0, 0, 0, 28, 2, 0, 0, 0, 0, 0, 0, 0, 2, 0, 1, 0, 0, 0, 0, 0, 0, 0, 0, 2, 0, 0, 0, 0, 0, 0,
    0, 9, // at 81
    1, 0, 0, 0, 1, 4, 1, 0, 0, 0, 17, 5, 0, 0, 0, 0, 0, 0, 0, 3, 0, 0, 0, 0, 0, 0, 0, 0, 0, // at 114
];

/// The same, and at 142 files 5 and 3 become file 6.
const REPLACED: [u8; 145] = [
    1, 0, 0, 0, 1, 4, 1, 0, 0, 0, 17, 5, 0, 0, 0, 0, 0, 0, 0, 5, 0, 0, 0, 0, 0, 0, 0, 0, // at 53
    1, 0, 0, 0, 28, 2, 0, 0, 0, 0, 0, 0, 0, 2, 0, 1, 0, 0, 0, 0, 0, 0, 0, 0, 2, 0, 0, 0, 0, 0, 0,
    0, 9, // at 81
    1, 0, 0, 0, 1, 4, 1, 0, 0, 0, 17, 5, 0, 0, 0, 0, 0, 0, 0, 3, 0, 0, 0, 0, 0, 0, 0, 0, // at 114
    1, 0, 0, 0, 50, 6, 0, 0, 0, 0, 0, 0, 0, 3, 0, 0, 0, 0, 0, 0, 0, 0, 0, 0, 0, 0, 0, 0, 0, 0, 6,
    0, 0, 0, 2, 0, 0, 0, 0, 0, 0, 0, 5, 0, 0, 0, 0, 0, 0, 0, 3, 0, 0, 0, 0, 0, // at 142
];

/// The file of the device `root.g.d` with INT64 PLAIN measurement `s` and the one point 1, 5: its head, a group at 7, a
/// chunk at 18, a page at 24, a leaf at 44, a root at 194, and the tail at 220.
const FILE: [u8; 234] = *b"TsFile\x51\
\x47\x00\x08root.g.d\
\x43\x00\x01s\x02\x00\
\x50\x00\x00\x00\x0f\x00\x00\x00\x02\x01\x02\x01\x00\x00\x00\x00\x00\x00\x00\x05\
\x49\x00\x01\x00\x08root.g.d\x00\x01s\x02\x00\x00\x00\x00\x00\x00\x00\x00\x12\
\x00\x00\x00\x00\x00\x00\x00\x01\x00\x00\x00\x00\x00\x00\x00\x01\x00\x00\x00\x00\x00\x00\x00\x01\
\x00\x00\x00\x00\x00\x00\x00\x05\x00\x00\x00\x00\x00\x00\x00\x05\
\x00\x00\x00\x00\x00\x00\x00\x05\x00\x00\x00\x00\x00\x00\x00\x05\
\x00\x00\x00\x01\x00\x00\x00\x00\x00\x00\x00\x18\
\x00\x00\x00\x00\x00\x00\x00\x01\x00\x00\x00\x00\x00\x00\x00\x01\x00\x00\x00\x00\x00\x00\x00\x01\
\x00\x00\x00\x00\x00\x00\x00\x05\x00\x00\x00\x00\x00\x00\x00\x05\
\x00\x00\x00\x00\x00\x00\x00\x05\x00\x00\x00\x00\x00\x00\x00\x05\
\x52\x00\x00\x00\x01\x00\x08root.g.d\x00\x01s\x00\x00\x00\x00\x00\x00\x00\x2c\
\x00\x00\x00\x00\x00\x00\x00\xc2TsFile";

/// A stored file: its number, how many bytes of `FILE` it has, and one byte that differs, where its place lies in
/// these.
pub(crate) type Stored = (u64, usize, usize, u8);

/// What came of a store: its stamp, and how many frozen pairs, sequence files and unsequence files the core has; or
/// where it is damaged.
#[derive(Clone, Copy, Debug, PartialEq, Eq)]
pub(crate) enum Outcome {
    Opened(u64, u64, usize, usize),
    Log(u64),
    File(u64, u64),
    Failed,
    Memory,
}

/// The bytes of a stored file.
fn bytes_of(alloc: Global, stored: &Stored) -> Result<Vec<u8>, Fail> {
    let mut bytes = FILE.to_vec(alloc)?;
    bytes.truncate(stored.1);
    if let Some(byte) = bytes.get_mut(stored.2) {
        *byte = stored.3;
    }
    Ok(bytes)
}

/// A place with a log that ends with these bytes, and with these files, of whose calls these fail.
pub(crate) fn place_of(
    alloc: Global,
    ending: &[u8],
    stored: &[Stored],
    fails: &[u64],
) -> Result<MemPlace, Fail> {
    let mut log = LOG.to_vec(alloc)?;
    for byte in ending {
        log.push(*byte)?;
    }
    let mut files = Vec::new(alloc);
    for file in stored {
        let bytes = bytes_of(alloc, file)?;
        files.push((FileNumber(file.0), bytes))?;
    }
    let fails = Fails {
        journal: Vec::new(alloc),
        files: fails.to_vec(alloc)?,
    };
    Ok(MemPlace::new(alloc, [log, vec![in alloc; 0]?], files, fails)?)
}

fn shown<J: Journal, F: Files>(core: &Core<J, F>) -> Outcome {
    Outcome::Opened(
        core.memory().stamp(),
        core.frozen(),
        core.entries(Space::Sequence).len(),
        core.entries(Space::Unsequence).len(),
    )
}

fn refused(fault: OpenFault) -> Outcome {
    match fault {
        OpenFault::Damaged {
            part: Part::Log,
            at,
        } => Outcome::Log(at),
        OpenFault::Damaged {
            part: Part::File(number),
            at,
        } => Outcome::File(number.0, at),
        OpenFault::Failed => Outcome::Failed,
        OpenFault::Memory => Outcome::Memory,
    }
}

/// How many files are at rest, where that is answered.
pub(crate) fn count_files<F: Files>(files: &mut F) -> Option<usize> {
    match files.list() {
        Ok(numbers) => Some(numbers.len()),
        Err(_) => None,
    }
}

/// Opens the store of a journal and its files, and closes it.
pub(crate) fn open_and_close<J: Journal, F: Files>(
    alloc: Global,
    journal: J,
    files: &mut F,
) -> (J, Outcome) {
    match recover(alloc, journal, files, Options { pair_points: 10 }) {
        Ok(core) => {
            let outcome = shown(&core);
            (core.close(files), outcome)
        }
        Err(OpenRefused { journal, fault }) => (journal, refused(fault)),
    }
}

/// What comes of the store of a place, and how many files it has then.
fn open<P: Place>(alloc: Global, place: &mut P) -> Result<(Outcome, Option<usize>), Fail> {
    let (journal, files) = place.take_up(b"d")?;
    let mut files = files;
    let (journal, outcome) = open_and_close(alloc, journal, &mut files);
    let left = count_files(&mut files);
    place.put_down(journal, files);
    Ok((outcome, left))
}

/// How a log ends, the stored files, what comes of the store, and how many files it has then.
type Case = (&'static [u8], &'static [Stored], Outcome, usize);

const CASES: [Case; 26] = [
    (&NOTHING, &[], Outcome::Opened(2, 0, 0, 0), 0),
    (
        &FLUSHED,
        &[(1, 234, 234, 0)],
        Outcome::Opened(2, 0, 1, 0),
        1,
    ),
    // missing
    (&FLUSHED, &[], Outcome::File(1, 0), 0),
    // cut, in the tail
    (&FLUSHED, &[(1, 233, 234, 0)], Outcome::File(1, 219), 1),
    // no byte
    (&FLUSHED, &[(1, 0, 234, 0)], Outcome::File(1, 0), 1),
    // one byte of each part: the head, the group, the chunk, the page, the leaf, the root, the tail
    (&FLUSHED, &[(1, 234, 0, 0)], Outcome::File(1, 0), 1),
    (&FLUSHED, &[(1, 234, 7, 0)], Outcome::File(1, 7), 1),
    (&FLUSHED, &[(1, 234, 18, 0)], Outcome::File(1, 18), 1),
    (&FLUSHED, &[(1, 234, 24, 0)], Outcome::File(1, 24), 1),
    (&FLUSHED, &[(1, 234, 44, 0)], Outcome::File(1, 44), 1),
    (&FLUSHED, &[(1, 234, 194, 0)], Outcome::File(1, 194), 1),
    (&FLUSHED, &[(1, 234, 233, 0)], Outcome::File(1, 220), 1),
    // a good page that is not what its leaf says
    (&FLUSHED, &[(1, 234, 43, 6)], Outcome::File(1, 44), 1),
    // the file of another number
    (&FLUSHED, &[(2, 234, 234, 0)], Outcome::File(1, 0), 1),
    // files that no list has: whole, cut, empty
    (
        &FLUSHED,
        &[
            (1, 234, 234, 0),
            (2, 234, 234, 0),
            (3, 40, 40, 0),
            (9_223_372_036_854_775_807, 0, 0, 0),
        ],
        Outcome::Opened(2, 0, 1, 0),
        1,
    ),
    (
        &NOTHING,
        &[(1, 234, 234, 0)],
        Outcome::Opened(2, 0, 0, 0),
        0,
    ),
    // the log before the files
    (&TWICE, &[(5, 100, 100, 0)], Outcome::Log(120), 1),
    // sequence files before unsequence files
    (&LATE, &[], Outcome::File(5, 0), 0),
    (
        &LATE,
        &[(3, 100, 100, 0), (5, 233, 233, 0)],
        Outcome::File(5, 219),
        2,
    ),
    (&LATE, &[(5, 234, 234, 0)], Outcome::File(3, 0), 1),
    (
        &LATE,
        &[(3, 234, 24, 0), (5, 234, 234, 0)],
        Outcome::File(3, 24),
        2,
    ),
    (
        &LATE,
        &[(3, 234, 234, 0), (5, 234, 234, 0)],
        Outcome::Opened(3, 0, 1, 1),
        2,
    ),
    // in the order of the list
    (
        &TWO,
        &[(3, 100, 100, 0), (5, 233, 233, 0)],
        Outcome::File(5, 219),
        2,
    ),
    (
        &TWO,
        &[(3, 233, 233, 0), (5, 234, 234, 0)],
        Outcome::File(3, 219),
        2,
    ),
    // files that were listed once: they go, but not while the file in their place is missing
    (
        &REPLACED,
        &[(3, 234, 234, 0), (5, 100, 100, 0), (6, 234, 234, 0)],
        Outcome::Opened(3, 0, 1, 0),
        1,
    ),
    (
        &REPLACED,
        &[(3, 234, 234, 0), (5, 234, 234, 0)],
        Outcome::File(6, 0),
        2,
    ),
];

/// The first of the stores of which something else comes.
fn first_wrong(alloc: Global, cases: &[Case]) -> Result<Option<usize>, Fail> {
    for (index, (ending, stored, wanted, left)) in cases.iter().enumerate() {
        let mut place = place_of(alloc, ending, stored, &[])?;
        if open(alloc, &mut place)? != (*wanted, Some(*left)) {
            return Ok(Some(index));
        }
    }
    Ok(None)
}

#[test]
fn damage_is_answered_with_its_part_and_place(rt: HostRuntime) -> Result<(), Fail> {
    assert_eq!(rt; first_wrong(rt.alloc(), &CASES)?, None);
    Ok(())
}

/// A file and a file that no list has.
pub(crate) const WITH_STRAY: [Stored; 2] = [(1, 234, 234, 0), (2, 234, 234, 0)];

/// What comes of the store while this call on its files fails, and after that.
fn with_failing(alloc: Global, call: u64) -> Result<(Outcome, Outcome, Option<usize>), Fail> {
    let mut place = place_of(alloc, &FLUSHED, &WITH_STRAY, &[call])?;
    let (outcome, _) = open(alloc, &mut place)?;
    let (later, left) = open(alloc, &mut place)?;
    Ok((outcome, later, left))
}

/// The first of the calls from 1 to this one whose failure is not answered, or after which the store is not opened
/// whole.
fn first_unanswered(alloc: Global, last: u64) -> Result<Option<u64>, Fail> {
    let whole = Outcome::Opened(2, 0, 1, 0);
    for call in 1..=last {
        if with_failing(alloc, call)? != (Outcome::Failed, whole, Some(1)) {
            return Ok(Some(call));
        }
    }
    Ok(None)
}

// An opening of this store makes ten calls on its files.
#[test]
fn each_failing_call_is_answered_and_nothing_is_lost(rt: HostRuntime) -> Result<(), Fail> {
    assert_eq!(rt; first_unanswered(rt.alloc(), 11)?, Some(11));
    Ok(())
}

/// What comes of the store that a stop leaves.
fn stopped_at(
    alloc: Global,
    place: &MemPlace,
    moment: u64,
    kind: StopKind,
) -> Result<(Outcome, Option<usize>), Fail> {
    if moment >= place.moments() {
        return Err(Fail::from("a moment of the place"));
    }
    let mut stopped = place.after_stop(moment, kind)?;
    open(alloc, &mut stopped)
}

/// The first moment at which a stop of an opening leaves a store of which something else comes.
fn first_lost(
    alloc: Global,
    place: &MemPlace,
    kind: StopKind,
    whole: (Outcome, Option<usize>),
) -> Result<Option<u64>, Fail> {
    for moment in 0..place.moments() {
        if stopped_at(alloc, place, moment, kind)? != whole {
            return Ok(Some(moment));
        }
    }
    Ok(None)
}

/// How a log ends, the stored files, what comes of the store, and at how many moments its opening can be stopped. Each
/// has one file then.
type Stopped = (&'static [u8], &'static [Stored], Outcome, u64);

/// The last call that changes something removes the last file that no list has. Files that were replaced go one by one.
const STOPPED: [Stopped; 2] = [
    (&FLUSHED, &WITH_STRAY, Outcome::Opened(2, 0, 1, 0), 11),
    (
        &REPLACED,
        &[(3, 234, 234, 0), (5, 234, 234, 0), (6, 234, 234, 0)],
        Outcome::Opened(3, 0, 1, 0),
        13,
    ),
];

/// Whether an opening of the store can be stopped at so many moments, and what a stop at any of them leaves is opened
/// as the store itself.
fn is_done_again(alloc: Global, stopped: &Stopped) -> Result<bool, Fail> {
    let (ending, stored, outcome, moments) = stopped;
    let whole = (*outcome, Some(1));
    let mut place = place_of(alloc, ending, stored, &[])?;
    if open(alloc, &mut place)? != whole || place.moments() != *moments {
        return Ok(false);
    }
    for kind in [StopKind::Written, StopKind::Unwritten, StopKind::Scrambled] {
        if first_lost(alloc, &place, kind, whole)?.is_some() {
            return Ok(false);
        }
    }
    Ok(true)
}

#[test]
fn stopped_opening_is_done_again(rt: HostRuntime) -> Result<(), Fail> {
    for stopped in &STOPPED {
        assert!(rt; is_done_again(rt.alloc(), stopped)?);
    }
    Ok(())
}
