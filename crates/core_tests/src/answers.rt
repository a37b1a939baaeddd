//! Answers and counts of a core, and the limits of a pair at their edges. Depends on `cases`.
use crate::cases::{Case, End, FREEZE, OK, WAITS, assert_cases};
use crate::stored::{Came, Step};
use std::test::Fail;
use tsdb_base::Answer;

const NO_PATH: Came = Came::Answered(Some(Answer::NoPath));

const EXISTS: Came = Came::Answered(Some(Answer::Exists));

const CASES: &[Case] = &[
    // A new store has no series, no pair and the stamp 0. A freeze of an empty pair does nothing.
    Case {
        limit: 9,
        next: 4,
        steps: &[
            (Step::Ask("D09s"), NO_PATH),
            (FREEZE, OK),
            (Step::Ask("I1s"), NO_PATH),
        ],
        end: End::Counts([0, 0, 0, 0, 0]),
    },
    // A refused row does not freeze, and a refused command draws no stamp.
    Case {
        limit: 1,
        next: 4,
        steps: &[
            (Step::Ask("Cs"), OK),
            (Step::Ask("Cs"), EXISTS),
            (Step::Ask("I1s"), OK),
            (Step::Ask("I2st"), NO_PATH),
            (Step::Ask("I3t"), NO_PATH),
        ],
        end: End::Counts([0, 1, 0, 0, 2]),
    },
    // A row is whole in one pair, also one that is greater than the limit; the born is that of the last command.
    Case {
        limit: 1,
        next: 4,
        steps: &[(Step::Asks(&["Cs", "Ct", "I1st", "I2s", "I2st"]), OK)],
        end: End::Counts([2, 0, 2, 4, 5]),
    },
    // The last row is one above the first limit. A point that is replaced counts in the row.
    Case {
        limit: 2,
        next: 4,
        steps: &[(Step::Asks(&["Cs", "I1s", "I1s", "I2s", "I3s"]), OK)],
        end: End::Counts([1, 1, 0, 4, 5]),
    },
    Case {
        limit: 3,
        next: 4,
        steps: &[(Step::Asks(&["Cs", "I1s", "I1s", "I2s", "I3s"]), OK)],
        end: End::Counts([0, 3, 0, 0, 5]),
    },
];

#[test]
fn answers_and_counts(rt: HostRuntime) -> Result<(), Fail> {
    assert_cases(&rt, rt.alloc(), CASES, 0)
}

const NO_FLUSH: Came = Came::Needs(Some(false));

const FLUSH_FIRST: Came = Came::Needs(Some(true));

/// Whether a row of one cell and one of two need a flush after each word. A third pair may not be frozen.
const NEEDS: &[Case] = &[Case {
    limit: 2,
    next: 4,
    steps: &[
        (Step::Asks(&["Cs", "I1s", "F", "I2s"]), OK),
        (Step::Needs("I9st"), NO_FLUSH),
        (FREEZE, OK),
        (Step::Needs("I9s"), NO_FLUSH),
        (Step::Needs("I9st"), NO_FLUSH),
        (Step::Ask("I3s"), OK),
        (Step::Needs("I9s"), NO_FLUSH),
        (Step::Needs("I9st"), FLUSH_FIRST),
        (Step::Ask("I4s"), OK),
        (Step::Needs("I9s"), FLUSH_FIRST),
        (Step::Needs("I9st"), FLUSH_FIRST),
        (FREEZE, WAITS),
    ],
    end: End::Counts([2, 2, 0, 3, 5]),
}];

#[test]
fn rows_that_need_a_flush(rt: HostRuntime) -> Result<(), Fail> {
    assert_cases(&rt, rt.alloc(), NEEDS, 0)
}

/// Two frozen pairs, and a working pair of 1,023 of the longest texts, have place for a text of 58,367 bytes and for
/// none of one more. Each text counts 8 bytes for its time: 1,023 of 65,543 bytes and one of 58,375 are 67,108,864, the
/// most of a pair.
const TEXTS: &[Case] = &[Case {
    limit: 1_000_000,
    next: 4,
    steps: &[
        (Step::Asks(&["Ct", "I1t", "F", "I2t", "F"]), OK),
        (
            Step::Line("create timeseries root.g.d.s with datatype=TEXT,encoding=PLAIN"),
            OK,
        ),
        (Step::Texts(1_023), OK),
        (Step::TextNeeds(58_367), NO_FLUSH),
        (Step::TextNeeds(58_368), FLUSH_FIRST),
    ],
    end: End::Counts([2, 1_020, 3, 3, 1_027]),
}];

#[test]
fn limit_in_bytes(rt: HostRuntime) -> Result<(), Fail> {
    assert_cases(&rt, rt.alloc(), TEXTS, 0)
}
