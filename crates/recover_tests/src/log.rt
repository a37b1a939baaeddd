//! Logs that are read and replayed, and damaged ones, over places in memory.
use mem_outside::{Fails, MemPlace};
use std::alloc::Global;
use std::test::Fail;
use tsdb_base::Space;
use tsdb_outside::Place;
use tsdb_recover::{OpenFault, OpenRefused, Part, read_log};
use tsdb_redo::Opening;

/// A log as its format describes it: a created series and an insert of 5 at time 1, whose pair is flushed to sequence
/// file 1; then an insert of 5 at time 2, whose pair is flushed to sequence file 2; and a closed gate.
const WORKED: [u8; 143] = [
    1, 0, 0, 0, 15, 1, 0, 10, 114, 111, 111, 116, 46, 103, 46, 100, 46, 115, 2, 0, // at 0
    1, 0, 0, 0, 28, 2, 0, 0, 0, 0, 0, 0, 0, 1, 0, 1, 0, 0, 0, 0, 0, 0, 0, 0, 2, 0, 0, 0, 0, 0, 0,
    0, 5, // at 20
    1, 0, 0, 0, 1, 4, // at 53
    1, 0, 0, 0, 17, 5, 0, 0, 0, 0, 0, 0, 0, 1, 0, 0, 0, 0, 0, 0, 0, 0, // at 59
    1, 0, 0, 0, 28, 2, 0, 0, 0, 0, 0, 0, 0, 2, 0, 1, 0, 0, 0, 0, 0, 0, 0, 0, 2, 0, 0, 0, 0, 0, 0,
    0, 5, // at 81
    1, 0, 0, 0, 1, 4, // at 114
    1, 0, 0, 0, 17, 5, 0, 0, 0, 0, 0, 0, 0, 2, 0, 0, 0, 0, 0, 0, 0, 0, // at 120
    0, // at 142
];

/// A place with these bytes in slot A, the journal of which fails at its first write or sync: a log is only read.
fn place_of(alloc: Global, bytes: &[u8]) -> Result<MemPlace, Fail> {
    let slots = [bytes.to_vec(alloc)?, vec![in alloc; 0]?];
    let fails = Fails {
        journal: vec![in alloc; 1]?,
        files: Vec::new(alloc),
    };
    Ok(MemPlace::new(alloc, slots, Vec::new(alloc), fails)?)
}

/// What came of a log: its stamp, and how many frozen pairs and sequence files it has; or the place where it is
/// damaged.
#[derive(Clone, Copy, Debug, PartialEq, Eq)]
enum Outcome {
    Read(u64, usize, usize),
    Damaged(u64),
    Other,
}

fn shown(opening: &Opening) -> Outcome {
    Outcome::Read(
        opening.memory().stamp(),
        opening.memory().frozen().len(),
        opening.files(Space::Sequence).len(),
    )
}

fn refused(fault: OpenFault) -> Outcome {
    match fault {
        OpenFault::Damaged {
            part: Part::Log,
            at,
        } => Outcome::Damaged(at),
        _ => Outcome::Other,
    }
}

/// Reads the log of a place.
fn read<P: Place>(alloc: Global, place: &mut P) -> Result<Outcome, Fail> {
    let (journal, files) = place.take_up(b"d")?;
    match read_log(alloc, journal) {
        Ok((log, opening)) => {
            place.put_down(log.end(), files);
            Ok(shown(&opening))
        }
        Err(outcome) => {
            let OpenRefused { journal, fault } = outcome;
            place.put_down(journal, files);
            Ok(refused(fault))
        }
    }
}

/// What comes of so many bytes of the worked log with other bytes at a place, which may pass its end.
fn outcome_of(alloc: Global, length: usize, at: usize, bytes: &[u8]) -> Result<Outcome, Fail> {
    let mut log = WORKED.to_vec(alloc)?;
    log.truncate(length);
    for (index, byte) in bytes.iter().enumerate() {
        match log.get_mut(at.saturating_add(index)) {
            Some(old) => *old = *byte,
            None => log.push(*byte)?,
        }
    }
    let mut place = place_of(alloc, &log)?;
    read(alloc, &mut place)
}

/// So many bytes of the worked log with other bytes at a place, and what comes of it: a damaged log has the place of
/// the gate of the first record that is torn or has no replay. Each kind of record is there with a replay and without
/// one.
type Case = (usize, usize, &'static [u8], Outcome);

const CASES: [Case; 24] = [
    (53, 53, &[0], Outcome::Read(2, 0, 0)),
    // torn at the gate of the insert
    (40, 0, &[], Outcome::Damaged(20)),
    // with that gate closed the series is there, without a point
    (40, 20, &[0], Outcome::Read(1, 0, 0)),
    // a series that is not there
    (143, 43, &[1], Outcome::Damaged(20)),
    // the type of a shorter value
    (143, 44, &[1], Outcome::Damaged(20)),
    // an encoding that does not suit the type; the record behind it is torn
    (143, 19, &[1, 1, 255], Outcome::Damaged(0)),
    // a freeze where there is no point
    (143, 4, &[1, 4, 0], Outcome::Damaged(0)),
    // a length of 0
    (143, 4, &[0], Outcome::Damaged(0)),
    // bytes of no kind
    (143, 25, &[9], Outcome::Damaged(20)),
    // no byte
    (0, 0, &[], Outcome::Damaged(0)),
    // a freeze
    (59, 59, &[0], Outcome::Read(2, 1, 0)),
    // a flush to file 1, to a file of no number, of a part that is empty, and where no pair is frozen
    (81, 81, &[0], Outcome::Read(2, 0, 1)),
    (143, 65, &[128], Outcome::Damaged(59)),
    (143, 80, &[2], Outcome::Damaged(59)),
    (
        53,
        53,
        &[
            1, 0, 0, 0, 17, 5, 0, 0, 0, 0, 0, 0, 0, 1, 0, 0, 0, 0, 0, 0, 0, 0, 0,
        ],
        Outcome::Damaged(53),
    ),
    // two files
    (143, 0, &[], Outcome::Read(3, 0, 2)),
    // a series that is there
    (
        142,
        142,
        b"\x01\x00\x00\x00\x0f\x01\x00\x0aroot.g.d.s\x02\x00\x00",
        Outcome::Damaged(142),
    ),
    // a deletion of all its points
    (
        142,
        142,
        b"\x01\x00\x00\x00\x1d\x03\x00\x0aroot.g.d.s\x80\0\0\0\0\0\0\0\x7f\xff\xff\xff\xff\xff\xff\xff\0",
        Outcome::Read(4, 0, 2),
    ),
    // of a series that is not there
    (
        142,
        142,
        b"\x01\x00\x00\x00\x1d\x03\x00\x0aroot.g.d.t\x80\0\0\0\0\0\0\0\x7f\xff\xff\xff\xff\xff\xff\xff\0",
        Outcome::Damaged(142),
    ),
    // files 1 and 2 become file 3, which is born at 3 as file 2 is
    (
        142,
        142,
        &[
            1, 0, 0, 0, 50, 6, 0, 0, 0, 0, 0, 0, 0, 3, 0, 0, 0, 0, 0, 0, 0, 0, 0, 0, 0, 0, 0, 0, 0,
            0, 3, 0, 0, 0, 2, 0, 0, 0, 0, 0, 0, 0, 1, 0, 0, 0, 0, 0, 0, 0, 2, 0, 0, 0, 0, 0,
        ],
        Outcome::Read(3, 0, 1),
    ),
    // they do not stand side by side so
    (
        142,
        142,
        &[
            1, 0, 0, 0, 50, 6, 0, 0, 0, 0, 0, 0, 0, 3, 0, 0, 0, 0, 0, 0, 0, 0, 0, 0, 0, 0, 0, 0, 0,
            0, 3, 0, 0, 0, 2, 0, 0, 0, 0, 0, 0, 0, 2, 0, 0, 0, 0, 0, 0, 0, 1, 0, 0, 0, 0, 0,
        ],
        Outcome::Damaged(142),
    ),
    // a number that a record has named
    (
        142,
        142,
        &[
            1, 0, 0, 0, 50, 6, 0, 0, 0, 0, 0, 0, 0, 3, 0, 0, 0, 0, 0, 0, 0, 0, 0, 0, 0, 0, 0, 0, 0,
            0, 2, 0, 0, 0, 2, 0, 0, 0, 0, 0, 0, 0, 1, 0, 0, 0, 0, 0, 0, 0, 2, 0, 0, 0, 0, 0,
        ],
        Outcome::Damaged(142),
    ),
    // an empty snapshot
    (
        142,
        142,
        &[
            1, 0, 0, 0, 82, 7, 0, 0, 0, 0, 0, 0, 0, 1, 0, 0, 0, 0, 0, 0, 0, 0, 0, 0, 0, 0, 0, 0, 0,
            1, 0, 0, 0, 0, 0, 0, 0, 0, 0, 0, 0, 0, 0, 0, 0, 0, 0, 0, 0, 0, 0, 0, 0, 0, 0, 0, 0, 0,
            0, 0, 0, 0, 0, 0, 0, 0, 0, 0, 0, 0, 0, 0, 0, 0, 0, 0, 0, 0, 0, 0, 0, 0, 0, 0, 0, 0, 0,
            0,
        ],
        Outcome::Damaged(142),
    ),
    // a freeze where there is no point, and a torn record behind it
    (142, 142, &[1, 0, 0, 0, 1, 4, 1, 0], Outcome::Damaged(142)),
];

/// The first of the logs of which something else comes.
fn first_wrong(alloc: Global, cases: &[Case]) -> Result<Option<usize>, Fail> {
    for (case, (length, at, bytes, wanted)) in cases.iter().enumerate() {
        if outcome_of(alloc, *length, *at, bytes)? != *wanted {
            return Ok(Some(case));
        }
    }
    Ok(None)
}

#[test]
fn damage_is_answered_with_its_place(rt: HostRuntime) -> Result<(), Fail> {
    assert_eq!(rt; first_wrong(rt.alloc(), &CASES)?, None);
    Ok(())
}
