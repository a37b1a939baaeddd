//! Logs that turn over to the other slot, with stops at each moment and each call failing in turn, over places in
//! memory.
use crate::courses::{Course, EACH, STILL, Step, Stops, first_wrong, is_right};
use crate::slots::Content::Bytes;
use crate::slots::EMPTY;
use mem_outside::StopKind;
use tsdb_outside::Slot;

// A log with one record, and one that was given up. The first turns over into the slot of the other, and a record is
// added to it then.
const TURNS: Course = Course {
    a: Bytes(&[1, 0, 0, 0, 1, 1, 0]),
    b: Bytes(&[1, 0, 0, 0, 1, 9, 0]),
    steps: &[Step::Turned(&[7]), Step::Added(&[8])],
    moments: 11,
    slot: Slot::B,
    length: 13,
    records: &[7, 8],
    ..STILL
};

// What stops leave in the slot that it was in, and in the other one: byte 0 is closed by the first two calls, the frame
// is written by the next two, and the gate is opened by the fifth and sixth. A gate counts from its write on where the
// stop leaves what was written.
const STOPS: [Stops; 4] = [
    (EACH, Slot::A, &[(0, &[&[1]])]),
    (
        &[StopKind::Written],
        Slot::B,
        &[(0, &[&[9]]), (1, &[&[]]), (5, &[&[7]]), (9, &[&[7, 8]])],
    ),
    (
        &[StopKind::Unwritten],
        Slot::B,
        &[(0, &[&[9]]), (2, &[&[]]), (6, &[&[7]]), (10, &[&[7, 8]])],
    ),
    (
        &[StopKind::Scrambled],
        Slot::B,
        &[(0, &[&[9]]), (1, &[&[]]), (6, &[&[7]]), (10, &[&[7, 8]])],
    ),
];

static STOPPED: Course = Course {
    stops: &STOPS,
    ..TURNS
};

#[test]
fn stops_leave_the_old_log_until_the_new_one_is_there(rt: HostRuntime) {
    assert!(rt; is_right(rt.alloc(), &STOPPED));
}

// A byte 0 that was read as closed is left alone, and a slot without a byte gets one.
static INTO_SLOTS: [Course; 4] = [
    Course {
        b: Bytes(&[0]),
        moments: 9,
        ..TURNS
    },
    Course {
        b: Bytes(&[2, 1, 1]),
        moments: 9,
        ..TURNS
    },
    Course { b: EMPTY, ..TURNS },
    Course {
        b: Bytes(&[1, 1]),
        ..TURNS
    },
];

#[test]
fn closed_byte_is_left_alone(rt: HostRuntime) {
    assert_eq!(rt; first_wrong(rt.alloc(), &INTO_SLOTS), None);
}

// A turn that fails, with or without a doubt; a record that is added; and a turn.
const BEFORE_THE_GATE: Course = Course {
    steps: &[
        Step::TurnRefused(&[7]),
        Step::Added(&[8]),
        Step::Turned(&[6]),
    ],
    length: 7,
    records: &[6],
    ..TURNS
};

const AT_THE_GATE: Course = Course {
    steps: &[
        Step::TurnDoubted(&[7]),
        Step::Added(&[8]),
        Step::Turned(&[6]),
    ],
    ..BEFORE_THE_GATE
};

// A course whose call of the first number fails, whose record is added by the call of the second number, and whose last
// call has the third. Stops leave in the slot that the log is in until it turns over its record, and the added one from
// then on. In the other slot they leave the log that was given up, no record, or that of the turn that failed; from
// when the record is added on never that; and at last the record of the second turn.
macro_rules! fails {
    ($failing:literal, $added:literal, $last:literal, $steps:ident) => {
        Course {
            fails: &[$failing],
            moments: $last + 1,
            stops: &[
                (
                    EACH,
                    Slot::A,
                    &[
                        (0, &[&[1]]),
                        ($added - 1, &[&[1], &[1, 8]]),
                        ($added, &[&[1, 8]]),
                    ],
                ),
                (
                    EACH,
                    Slot::B,
                    &[
                        (0, &[&[9], &[], &[7]]),
                        ($added, &[&[9], &[]]),
                        ($last - 1, &[&[9], &[], &[6]]),
                        ($last, &[&[6]]),
                    ],
                ),
            ],
            ..$steps
        }
    };
}

// The record is added by four calls behind the one that failed, and the two that close a doubt. The second turn takes
// four, and two more where byte 0 is not known to be closed.
static FAULTS: [Course; 6] = [
    fails!(1, 5, 11, BEFORE_THE_GATE),
    fails!(2, 6, 12, BEFORE_THE_GATE),
    fails!(3, 7, 11, BEFORE_THE_GATE),
    fails!(4, 8, 12, BEFORE_THE_GATE),
    fails!(5, 11, 15, AT_THE_GATE),
    fails!(6, 12, 16, AT_THE_GATE),
];

#[test]
fn each_call_of_a_turn_fails_in_turn(rt: HostRuntime) {
    assert_eq!(rt; first_wrong(rt.alloc(), &FAULTS), None);
}
