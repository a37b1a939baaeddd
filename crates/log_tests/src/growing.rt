//! Logs around 65,536 bytes, where a slot begins to grow ahead and where a piece ends that is read, and around the end
//! of what a slot grew by, over places in memory.
use crate::courses::{Course, EACH, STILL, Step, first_wrong, is_right};
use crate::slots::Content::Record;
use crate::slots::Seen::{Records, Torn, TornAt};
use crate::slots::{Reading, first_misread};
use tsdb_outside::Slot;

// A quarter of 65,536 bytes.
const QUARTER: u64 = 16_384;

const PIECE: u64 = 65_536;

// A record of one byte, whose frame has 6, is added behind a long one: four calls add it, and one or more write zeros.
const ADDED: Course = Course {
    steps: &[Step::Added(&[7])],
    records: &[3, 7],
    ..STILL
};

static GROWS: [Course; 6] = [
    Course {
        a: Record(65_529, &[0]),
        moments: 5,
        length: 65_541,
        ..ADDED
    },
    Course {
        a: Record(65_530, &[0]),
        moments: 6,
        length: 65_536 + QUARTER,
        ..ADDED
    },
    Course {
        a: Record(65_600, &[0; 6]),
        moments: 6,
        length: 65_611 + 16_402,
        ..ADDED
    },
    Course {
        a: Record(65_600, &[0; 7]),
        moments: 5,
        length: 65_612,
        ..ADDED
    },
    // From 262,144 bytes on the zeros are whole pieces.
    Course {
        a: Record(524_281, &[0]),
        moments: 6,
        length: 524_287 + PIECE,
        ..ADDED
    },
    Course {
        a: Record(524_282, &[0]),
        moments: 7,
        length: 524_288 + 2 * PIECE,
        ..ADDED
    },
];

#[test]
fn slots_of_65_536_bytes_grow_ahead_by_a_quarter(rt: HostRuntime) {
    assert_eq!(rt; first_wrong(rt.alloc(), &GROWS), None);
}

// Where a call that writes zeros fails, the record is added all the same, and no zeros are written before the next one.
const ADDED_ALL_THE_SAME: Course = Course {
    steps: &[Step::Added(&[7]), Step::Added(&[8])],
    records: &[3, 7, 8],
    ..ADDED
};

static FAULTS: [Course; 2] = [
    Course {
        a: Record(65_530, &[0]),
        fails: &[1],
        moments: 10,
        length: 65_548,
        ..ADDED_ALL_THE_SAME
    },
    // What was written of the zeros is there.
    Course {
        a: Record(600_000, &[0]),
        fails: &[2],
        moments: 11,
        length: 600_006 + PIECE,
        ..ADDED_ALL_THE_SAME
    },
];

#[test]
fn a_fault_of_growing_is_none_of_the_record_and_ends_it(rt: HostRuntime) {
    assert_eq!(rt; first_wrong(rt.alloc(), &FAULTS), None);
}

// The zeros are the first call, the frame is synced by the third, and its gate by the fifth.
static STOPPED: Course = Course {
    a: Record(65_530, &[0]),
    moments: 6,
    length: 65_536 + QUARTER,
    at: &[0, 1, 2, 3, 4, 5],
    stops: &[(
        EACH,
        Slot::A,
        &[(0, &[&[3]]), (4, &[&[3], &[3, 7]]), (5, &[&[3, 7]])],
    )],
    ..ADDED
};

#[test]
fn stops_while_a_slot_grows_leave_its_records(rt: HostRuntime) {
    assert!(rt; is_right(rt.alloc(), &STOPPED));
}

// A turn into a slot that is long, and a record behind it: the slot is as long as it was.
static TURNED: Course = Course {
    b: Record(65_600, &[0]),
    steps: &[Step::Turned(&[7]), Step::Added(&[8])],
    moments: 11,
    slot: Slot::B,
    length: 65_606,
    records: &[7, 8],
    ..STILL
};

#[test]
fn a_turn_knows_how_long_its_slot_is(rt: HostRuntime) {
    assert!(rt; is_right(rt.alloc(), &TURNED));
}

// The bytes of a record of ten, with its gate and the closed one behind it.
const SECOND: [u8; 16] = [1, 0, 0, 0, 10, 8, 8, 8, 8, 8, 8, 8, 8, 8, 8, 0];

// A piece has 65,536 bytes, of which a gate, a length and the next gate take 6, and the next piece twice as many. A
// record is read with its gate behind it, and torn without. Then a piece ends before a second record, at its gate, in
// it and behind it.
static PIECES: [Reading; 20] = [
    (Record(65_530, &[0]), (0, 0), Torn),
    (Record(65_530, &[0]), (1, 1), Records(65_530, 1)),
    (Record(65_531, &[0]), (0, 0), Torn),
    (Record(65_531, &[0]), (1, 1), Records(65_531, 1)),
    (Record(131_066, &[0]), (0, 0), Torn),
    (Record(131_066, &[0]), (1, 1), Records(131_066, 1)),
    (Record(131_067, &[0]), (0, 0), Torn),
    (Record(131_067, &[0]), (1, 1), Records(131_067, 1)),
    (Record(65_515, &SECOND), (1, 15), TornAt(65_515, 65_520)),
    (Record(65_515, &SECOND), (16, 16), Records(65_515, 2)),
    (Record(65_516, &SECOND), (1, 15), TornAt(65_516, 65_521)),
    (Record(65_516, &SECOND), (16, 16), Records(65_516, 2)),
    (Record(65_526, &SECOND), (1, 15), TornAt(65_526, 65_531)),
    (Record(65_526, &SECOND), (16, 16), Records(65_526, 2)),
    (Record(65_530, &SECOND), (1, 15), TornAt(65_530, 65_535)),
    (Record(65_530, &SECOND), (16, 16), Records(65_530, 2)),
    (Record(65_531, &SECOND), (1, 15), TornAt(65_531, 65_536)),
    (Record(65_531, &SECOND), (16, 16), Records(65_531, 2)),
    (Record(131_055, &SECOND), (1, 15), TornAt(131_055, 131_060)),
    (Record(131_055, &SECOND), (16, 16), Records(131_055, 2)),
];

#[test]
fn records_around_the_end_of_a_piece(rt: HostRuntime) {
    assert_eq!(rt; first_misread(rt.alloc(), &PIECES), None);
}
