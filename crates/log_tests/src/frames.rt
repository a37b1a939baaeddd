//! Slots as bytes, cuts of a log, and stops at each moment of appends, over places in memory.
use crate::courses::{
    Course, EACH, STILL, SYNCED, Step, WRITTEN, come_so_in, first_wrong, is_right,
};
use crate::slots::Content::Bytes;
use crate::slots::Seen::{Closed, Records, Torn, TornAt};
use crate::slots::{EMPTY, Reading, WHOLE, first_misread, place_of, scan_in};
use mem_outside::{MemJournal, MemPlace};
use std::alloc::Global;
use tsdb_frames::Frame;
use tsdb_outside::{Journal, Place, Slot};

// The log of a created series and an insert, as its format describes them.
const CREATED: [u8; 15] = *b"\x01\x00\x0aroot.g.d.s\x02\x00";

const INSERTED: [u8; 28] = [
    2, 0, 0, 0, 0, 0, 0, 0, 1, 0, 1, 0, 0, 0, 0, 0, 0, 0, 0, 2, 0, 0, 0, 0, 0, 0, 0, 5,
];

const WORKED: [u8; 54] = [
    1, 0, 0, 0, 15, 1, 0, 10, 114, 111, 111, 116, 46, 103, 46, 100, 46, 115, 2, 0, // at 0
    1, 0, 0, 0, 28, 2, 0, 0, 0, 0, 0, 0, 0, 1, 0, 1, 0, 0, 0, 0, 0, 0, 0, 0, 2, 0, 0, 0, 0, 0, 0,
    0, 5, // at 20
    0, // at 53
];

// Three records, of one, two and three bytes.
const THREE: [u8; 22] = [
    1, 0, 0, 0, 1, 7, // at 0
    1, 0, 0, 0, 2, 8, 8, // at 6
    1, 0, 0, 0, 3, 9, 9, 9, // at 13
    0,
];

static SLOTS: [Reading; 14] = [
    (Bytes(&[]), WHOLE, Torn),
    (Bytes(&[0]), WHOLE, Closed),
    // What stands behind a closed gate is nothing, be it open or torn.
    (Bytes(&[2, 0, 0, 0, 1, 7, 0]), WHOLE, Closed),
    (Bytes(&[0, 1, 1]), WHOLE, Closed),
    (Bytes(&[1, 0, 0, 0, 1, 7, 255, 1, 9]), WHOLE, Records(1, 1)),
    // A length of 0, one that leaves the slot, and one that leaves no gate in it.
    (Bytes(&[1, 0, 0, 0, 0, 0, 0]), WHOLE, Torn),
    (Bytes(&[1, 255, 255, 255, 255, 7, 0]), WHOLE, Torn),
    (Bytes(&[1, 0, 0, 0, 1, 7]), WHOLE, Torn),
    // A last record that cannot be read is no end of the log.
    (Bytes(&[1, 0, 0, 0, 1, 7, 1, 0]), WHOLE, TornAt(1, 6)),
    (Bytes(&WORKED), (40, 40), TornAt(15, 20)),
    // A log that is cut is torn at its last open gate.
    (Bytes(&THREE), (0, 6), Torn),
    (Bytes(&THREE), (7, 13), TornAt(1, 6)),
    (Bytes(&THREE), (14, 21), TornAt(1, 13)),
    (Bytes(&THREE), (22, 22), Records(1, 3)),
];

#[test]
fn slots_are_read_up_to_the_first_closed_gate(rt: HostRuntime) {
    assert_eq!(rt; first_misread(rt.alloc(), &SLOTS), None);
}

// Whether slot A has the bytes of the worked log.
fn has_worked_bytes(journal: &mut MemJournal) -> bool {
    let mut bytes = [7; 54];
    match journal.length(Slot::A) {
        Ok(54) => journal.read_at(Slot::A, 0, &mut bytes).is_ok() && bytes == WORKED,
        _ => false,
    }
}

// Whether the records are those of the worked log.
fn are_worked(frames: &[Frame]) -> bool {
    match frames {
        [first, second] => {
            first.at == 0
                && first.payload.items() == CREATED.as_slice()
                && second.at == 20
                && second.payload.items() == INSERTED.as_slice()
        }
        _ => false,
    }
}

// Whether a place has the bytes and the records of the worked log.
fn has_worked_log(alloc: Global, place: &mut MemPlace) -> bool {
    let Ok((mut journal, files)) = place.take_up(b"d") else {
        return false;
    };
    let has_bytes = has_worked_bytes(&mut journal);
    place.put_down(journal, files);
    match scan_in(alloc, place, Slot::A) {
        Ok(frames) => has_bytes && are_worked(&frames),
        Err(_) => false,
    }
}

// Whether it has where the worked log is written there.
fn gets_worked_log(alloc: Global) -> bool {
    match place_of(alloc, &Bytes(&[0]), &EMPTY, &[]) {
        Ok(mut place) => {
            come_so_in(alloc, &mut place, &WORKED_RECORDS) && has_worked_log(alloc, &mut place)
        }
        Err(_) => false,
    }
}

static WORKED_RECORDS: [Step; 2] = [Step::Added(&CREATED), Step::Added(&INSERTED)];

#[test]
fn worked_log_is_written_and_read(rt: HostRuntime) {
    assert!(rt; gets_worked_log(rt.alloc()));
}

// A gate counts from its write on where the stop leaves what was written, and else from its sync on.
static THREE_ADDED: Course = Course {
    steps: &[Step::Added(&[1]), Step::Added(&[2, 2]), Step::Added(&[3])],
    moments: 13,
    length: 20,
    records: &[1, 2, 3],
    stops: &[
        (
            WRITTEN,
            Slot::A,
            &[(3, &[&[1]]), (7, &[&[1, 2]]), (11, &[&[1, 2, 3]])],
        ),
        (
            SYNCED,
            Slot::A,
            &[(4, &[&[1]]), (8, &[&[1, 2]]), (12, &[&[1, 2, 3]])],
        ),
    ],
    ..STILL
};

#[test]
fn stops_leave_the_acknowledged_records_or_one_more(rt: HostRuntime) {
    assert!(rt; is_right(rt.alloc(), &THREE_ADDED));
}

// The sync of the second record's gate fails. The gate is closed by the ninth and tenth call.
static SECOND_IN_DOUBT: Course = Course {
    fails: &[8],
    steps: &[Step::Added(&[1]), Step::Doubted(&[2, 2]), Step::Added(&[3])],
    moments: 15,
    length: 14,
    records: &[1, 3],
    stops: &[
        (
            WRITTEN,
            Slot::A,
            &[
                (3, &[&[1]]),
                (7, &[&[1, 2]]),
                (9, &[&[1]]),
                (13, &[&[1, 3]]),
            ],
        ),
        (SYNCED, Slot::A, &[(4, &[&[1]]), (14, &[&[1, 3]])]),
    ],
    ..STILL
};

#[test]
fn next_append_closes_a_gate_in_doubt(rt: HostRuntime) {
    assert!(rt; is_right(rt.alloc(), &SECOND_IN_DOUBT));
}

// A call of the first of two appends fails, before its gate or at it.
const BEFORE_THE_GATE: Course = Course {
    steps: &[Step::Refused(&[1]), Step::Added(&[3])],
    length: 7,
    records: &[3],
    ..STILL
};

const AT_THE_GATE: Course = Course {
    steps: &[Step::Doubted(&[1]), Step::Added(&[3])],
    ..BEFORE_THE_GATE
};

// Until the second one is added a stop leaves no record or one of both.
const UNTIL_THEN: &[&[u8]] = &[&[], &[1], &[3]];

static FAULTS: [Course; 5] = [
    Course {
        fails: &[1],
        moments: 6,
        stops: &[(EACH, Slot::A, &[(0, UNTIL_THEN), (5, &[&[3]])])],
        ..BEFORE_THE_GATE
    },
    Course {
        fails: &[2],
        moments: 7,
        stops: &[(EACH, Slot::A, &[(0, UNTIL_THEN), (6, &[&[3]])])],
        ..BEFORE_THE_GATE
    },
    // Two calls close the gate.
    Course {
        fails: &[3],
        moments: 10,
        stops: &[(EACH, Slot::A, &[(0, UNTIL_THEN), (9, &[&[3]])])],
        ..AT_THE_GATE
    },
    Course {
        fails: &[4],
        moments: 11,
        stops: &[(EACH, Slot::A, &[(0, UNTIL_THEN), (10, &[&[3]])])],
        ..AT_THE_GATE
    },
    // While the gate cannot be closed nothing else is written.
    Course {
        fails: &[4, 5, 7],
        steps: &[
            Step::Doubted(&[1]),
            Step::Doubted(&[3]),
            Step::Doubted(&[3]),
            Step::Added(&[3]),
        ],
        moments: 14,
        ..AT_THE_GATE
    },
];

#[test]
fn faults_at_a_gate_leave_it_in_doubt(rt: HostRuntime) {
    assert_eq!(rt; first_wrong(rt.alloc(), &FAULTS), None);
}

// Four calls of the append, two of each settling that found a doubt. A stop then leaves no record.
static SETTLED: Course = Course {
    fails: &[4, 6],
    steps: &[
        Step::Settled,
        Step::Doubted(&[1]),
        Step::Unsettled,
        Step::Settled,
    ],
    moments: 9,
    length: 7,
    stops: &[(EACH, Slot::A, &[(0, &[&[], &[1]]), (8, &[&[]])])],
    ..STILL
};

#[test]
fn settling_closes_a_gate_in_doubt(rt: HostRuntime) {
    assert!(rt; is_right(rt.alloc(), &SETTLED));
}
