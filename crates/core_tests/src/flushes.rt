//! Flushes of a core: their ends, what is listed then, and a journal that fails while one is committed. Depends on
//! `cases`.
use crate::cases::{Case, DONE, End, FLUSH, OK, WAITS, assert_cases};
use crate::stored::{Came, Step};
use std::test::Fail;
use tsdb_core::{Commit, CoreFault};

/// A series with a value at time 1 in a frozen pair.
const ONE_FROZEN: Step = Step::Asks(&["Cs", "I1s", "F"]);

const FAILED: Came = Came::Ended(Some(Commit::Device));

/// The last number that a file can have.
const LAST_NUMBER: u64 = 0x7fff_ffff_ffff_ffff;

const FULL: Came = Came::NotTaken(CoreFault::Full {
    counter: LAST_NUMBER,
});

const CASES: &[Case] = &[
    // A pair is taken from its stamp on. A second job of it finds it frozen no longer.
    Case {
        limit: 9,
        next: 1,
        steps: &[
            (ONE_FROZEN, OK),
            (Step::Flush(1), Came::NotDue),
            (
                Step::Twice,
                Came::EndedTwice(Some(Commit::Done), Some(Commit::Gone)),
            ),
            (FLUSH, Came::NotDue),
            (Step::Look, Came::Has(0, 1, 1)),
            (Step::Sweep, Came::Swept(Ok(1))),
        ],
        end: End::Listing(
            "sequence 1 born 2 points 1 from 1 to 1\nfrozen 0\nworking 0 0\nmarks 0\n",
        ),
    },
    // The row that needs a third frozen pair waits for a flush.
    Case {
        limit: 1,
        next: 1,
        steps: &[
            (Step::Asks(&["Cs", "I1s", "I2s", "I3s"]), OK),
            (Step::Ask("I4s"), WAITS),
            (FLUSH, DONE),
            (Step::Ask("I4s"), OK),
        ],
        end: End::Listing(
            "sequence 1 born 2 points 1 from 1 to 1\nfrozen 2\nworking 1 0\nmarks 0\n",
        ),
    },
    // No two numbers are left. A pair that is not due is not full.
    Case {
        limit: 9,
        next: LAST_NUMBER,
        steps: &[
            (ONE_FROZEN, OK),
            (Step::Flush(1), Came::NotDue),
            (FLUSH, FULL),
        ],
        end: End::Listing("frozen 1\nworking 0 0\nmarks 0\n"),
    },
    // The last two numbers are left, of which one is drawn.
    Case {
        limit: 9,
        next: LAST_NUMBER - 1,
        steps: &[
            (ONE_FROZEN, OK),
            (Step::Asks(&["I2s", "F"]), OK),
            (FLUSH, DONE),
            (FLUSH, FULL),
        ],
        end: End::Listing(
            "sequence 9223372036854775806 born 2 points 1 from 1 to 1\nfrozen 1\nworking 0 0\nmarks 0\n",
        ),
    },
    // A flush that is given up leaves the pair frozen.
    Case {
        limit: 9,
        next: 1,
        steps: &[
            (Step::Asks(&["Cs", "I5s", "F"]), OK),
            (Step::GiveUp, Came::Ended(None)),
            (Step::Sweep, Came::Swept(Ok(1))),
            (Step::Sweep, Came::Swept(Ok(0))),
            (FLUSH, DONE),
            (Step::Asks(&["I3s", "I7s", "F"]), OK),
            (FLUSH, DONE),
        ],
        end: End::Listing(
            "sequence 2 born 2 points 1 from 5 to 5\n\
            sequence 3 born 4 points 1 from 7 to 7\n\
            unsequence 4 born 4 points 1 from 3 to 3\n\
            frozen 0\nworking 0 0\nmarks 0\n",
        ),
    },
];

#[test]
fn flushes_and_listings(rt: HostRuntime) -> Result<(), Fail> {
    assert_cases(&rt, rt.alloc(), CASES, 0)
}

/// A commit that fails leaves the pair frozen, and its file on the way out. The next flush draws another number.
const RETRIED: &[Case] = &[Case {
    limit: 9,
    next: 1,
    steps: &[
        (ONE_FROZEN, OK),
        (FLUSH, FAILED),
        (Step::Look, Came::Has(1, 1, 0)),
        (FLUSH, DONE),
        (Step::Sweep, Came::Swept(Ok(1))),
    ],
    end: End::Listing("sequence 2 born 2 points 1 from 1 to 1\nfrozen 0\nworking 0 0\nmarks 0\n"),
}];

// The three records before it are twelve calls, and its own four.
#[test]
fn journal_that_fails_at_a_commit(rt: HostRuntime) -> Result<(), Fail> {
    for call in 13..17 {
        assert_cases(&rt, rt.alloc(), RETRIED, call)?;
    }
    Ok(())
}

/// Where the last call of a commit fails its record is in doubt, and its file stays until a command is accepted.
const DOUBTED: &[Case] = &[Case {
    limit: 9,
    next: 1,
    steps: &[
        (ONE_FROZEN, OK),
        (FLUSH, FAILED),
        (Step::Sweep, Came::Swept(Ok(0))),
        (Step::Ask("I2s"), OK),
        (Step::Sweep, Came::Swept(Ok(1))),
    ],
    end: End::Listing("frozen 1\nworking 1 0\nmarks 0\n"),
}];

#[test]
fn file_in_doubt_is_not_swept(rt: HostRuntime) -> Result<(), Fail> {
    assert_cases(&rt, rt.alloc(), DOUBTED, 16)
}
