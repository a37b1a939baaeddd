//! Courses whose values are worked out by hand. Depends on `course`.
use crate::course::Step::{Compact, Create, Delete, Flush, Put, Sweep};
use crate::course::{Case, Compacted, Course, Seen, first_wrong};
use crate::jobs::Began::{Job, NoPlan, Not};
use crate::jobs::{Kind, Rows};
use std::alloc::Global;
use std::test::Fail;
use tsdb_base::Space;
use tsdb_core::CoreFault;
use tsdb_outside::Failed;

const INNER: Kind = Kind::Inner(Space::Sequence);

const LATE: Kind = Kind::Inner(Space::Unsequence);

const COMMITTED: Option<Result<(), Failed>> = Some(Ok(()));

/// A compaction of two sequence files.
const COURSE: Course<'static> = Course {
    before: &[Create, Put(1, 1), Flush, Put(2, 2), Flush],
    kind: INNER,
    meanwhile: &[],
    written: &[],
    commits: true,
    behind: &[],
    times: [1, 2, 3],
};

/// Its rows, under a pin and behind it.
const BOTH: Option<Rows> = Some(Rows([Some(1), Some(2), None], 2));

/// What is seen of it.
const SEEN: Seen = Seen {
    compacted: Compacted(Job(3, [1, 2, 0, 0], 3), Some(2), COMMITTED),
    pinned: BOTH,
    swept: [Ok(0), Ok(2)],
    rows: BOTH,
};

const TWO_FILES: &str =
    "sequence 1 born 2 points 1 from 1 to 1\nsequence 2 born 3 points 1 from 2 to 2\nfrozen 0\nworking 0 0\nmarks 0\n";

/// Each of these runs on a store of its own.
const CASES: [Case<'static>; 3] = [
    // A pin of two files, a frozen pair and a working one stays over each kind of step: its value at 10 is written
    // anew, a row freezes its pair, its points from 5 to 20 are deleted, its pairs are flushed, and its files go into a
    // cross compaction, whose output goes with two newer files into an inner one. That one drops what is deleted, and a
    // sweep leaves the files of the pin alone.
    Case {
        course: Course {
            before: &[
                Create,
                Put(10, 1),
                Put(3, 6),
                Flush,
                Put(5, 2),
                Flush,
                Put(15, 3),
                Put(40, 8),
                Put(20, 4),
            ],
            kind: Kind::Cross,
            meanwhile: &[Put(10, 7), Put(50, 9), Delete(5, 20), Flush, Flush, Flush],
            behind: &[Compact(INNER), Sweep],
            times: [10, 20, 40],
            ..COURSE
        },
        seen: Seen {
            compacted: Compacted(Job(7, [1, 2, 0, 0], 3), Some(3), COMMITTED),
            pinned: Some(Rows([Some(1), Some(4), Some(8)], 6)),
            swept: [Ok(0), Ok(2)],
            rows: Some(Rows([None, None, Some(8)], 3)),
        },
        listing: "sequence 7 born 10 points 3 from 3 to 50\nunsequence 5 born 8 points 2 from 10 to 20\n\
            frozen 0\nworking 0 0\nmarks 1\n",
    },
    // The late file, 2, lies before all sequence files, so the run of these is empty. The late files 4 and 5 become one
    // while the cross job is out, and a file is flushed once its output is written. The late list is 2, 4, 5, then 2, 6,
    // 7, and then 6, 7. The pin still has file 2.
    Case {
        course: Course {
            before: &[Create, Put(10, 1), Flush, Put(5, 2), Flush],
            kind: Kind::Cross,
            meanwhile: &[Put(6, 3), Flush, Put(7, 4), Flush, Compact(LATE)],
            written: &[Put(7, 5), Flush],
            times: [5, 7, 10],
            ..COURSE
        },
        seen: Seen {
            compacted: Compacted(Job(3, [2, 0, 0, 0], 3), Some(1), COMMITTED),
            pinned: Some(Rows([Some(2), None, Some(1)], 2)),
            swept: [Ok(2), Ok(1)],
            rows: Some(Rows([Some(2), Some(5), Some(1)], 4)),
        },
        listing: "sequence 3 born 3 points 1 from 5 to 5\nsequence 1 born 2 points 1 from 10 to 10\n\
            unsequence 6 born 5 points 2 from 6 to 7\nunsequence 7 born 6 points 1 from 7 to 7\n\
            frozen 0\nworking 0 0\nmarks 0\n",
    },
    // A job of sequence files has the whole list, so no other is planned of it. Given up, it leaves its files, and its
    // output goes.
    Case {
        course: Course {
            meanwhile: &[Compact(INNER)],
            commits: false,
            ..COURSE
        },
        seen: Seen {
            compacted: Compacted(Job(3, [1, 2, 0, 0], 3), Some(2), None),
            swept: [Ok(1), Ok(0)],
            ..SEEN
        },
        listing: TWO_FILES,
    },
];

/// The first of the cases that is not as it says.
fn first_apart(alloc: Global, cases: &[Case<'_>]) -> Result<Option<usize>, Fail> {
    for (index, case) in cases.iter().enumerate() {
        if first_wrong(alloc, 1, &[*case], &[], &[])?.is_some() {
            return Ok(Some(index));
        }
    }
    Ok(None)
}

#[test]
fn compactions_under_pins(rt: HostRuntime) -> Result<(), Fail> {
    assert_eq!(rt; first_apart(rt.alloc(), &CASES)?, None);
    Ok(())
}

/// The last number that a file can have.
const LAST_NUMBER: u64 = 0x7fff_ffff_ffff_ffff;

/// No two numbers are left.
const FULL: [Case<'static>; 1] = [Case {
    course: COURSE,
    seen: Seen {
        compacted: Compacted(
            Not(CoreFault::Full {
                counter: LAST_NUMBER,
            }),
            None,
            None,
        ),
        swept: [Ok(0), Ok(0)],
        ..SEEN
    },
    listing: "sequence 9223372036854775805 born 2 points 1 from 1 to 1\n\
        sequence 9223372036854775806 born 3 points 1 from 2 to 2\nfrozen 0\nworking 0 0\nmarks 0\n",
}];

/// The last number that may be drawn is left.
const LAST: [Case<'static>; 1] = [Case {
    course: COURSE,
    seen: Seen {
        compacted: Compacted(
            Job(3, [LAST_NUMBER - 3, LAST_NUMBER - 2, 0, 0], LAST_NUMBER - 1),
            Some(2),
            COMMITTED,
        ),
        ..SEEN
    },
    listing: "sequence 9223372036854775806 born 3 points 2 from 1 to 2\nfrozen 0\nworking 0 0\nmarks 0\n",
}];

#[test]
fn numbers_at_their_end(rt: HostRuntime) -> Result<(), Fail> {
    let alloc = rt.alloc();
    assert_eq!(rt; first_wrong(alloc, LAST_NUMBER - 2, &FULL, &[], &[])?, None);
    assert_eq!(rt; first_wrong(alloc, LAST_NUMBER - 3, &LAST, &[], &[])?, None);
    Ok(())
}

/// The inputs of a compaction that came to nothing are free: the next one of them draws another number.
const AGAIN: Case<'static> = Case {
    course: Course {
        before: &[],
        ..COURSE
    },
    seen: Seen {
        compacted: Compacted(Job(3, [1, 2, 0, 0], 4), Some(2), COMMITTED),
        ..SEEN
    },
    listing: "sequence 4 born 3 points 2 from 1 to 2\nfrozen 0\nworking 0 0\nmarks 0\n",
};

/// A commit that failed.
const NOT_COMMITTED: Compacted = Compacted(Job(3, [1, 2, 0, 0], 3), Some(2), Some(Err(Failed)));

/// It leaves the lists as they were, and the output on its way out.
const RETRIED: [Case<'static>; 2] = [
    Case {
        course: COURSE,
        seen: Seen {
            compacted: NOT_COMMITTED,
            swept: [Ok(1), Ok(0)],
            ..SEEN
        },
        listing: TWO_FILES,
    },
    AGAIN,
];

/// Where a commit fails as its gate is opened its record is in doubt, and its output stays until a command is accepted.
const DOUBTED: [Case<'static>; 2] = [
    Case {
        course: COURSE,
        seen: Seen {
            compacted: NOT_COMMITTED,
            swept: [Ok(0), Ok(0)],
            ..SEEN
        },
        listing: TWO_FILES,
    },
    Case {
        course: Course {
            before: &[Put(4, 4)],
            kind: LATE,
            ..COURSE
        },
        seen: Seen {
            compacted: Compacted(NoPlan, None, None),
            pinned: Some(Rows([Some(1), Some(2), None], 3)),
            swept: [Ok(1), Ok(0)],
            rows: Some(Rows([Some(1), Some(2), None], 3)),
        },
        listing: "sequence 1 born 2 points 1 from 1 to 1\nsequence 2 born 3 points 1 from 2 to 2\n\
            frozen 0\nworking 1 0\nmarks 0\n",
    },
];

/// An output that cannot be written is none, and its job is given up.
const NOT_WRITTEN: [Case<'static>; 2] = [
    Case {
        course: COURSE,
        seen: Seen {
            compacted: Compacted(Job(3, [1, 2, 0, 0], 3), None, None),
            swept: [Ok(0), Ok(0)],
            ..SEEN
        },
        listing: TWO_FILES,
    },
    AGAIN,
];

// The seven records before it are 28 calls, and its own are four, of which the two that open its gate leave it in
// doubt.
#[test]
fn journal_that_fails_at_a_commit(rt: HostRuntime) -> Result<(), Fail> {
    for call in 29..33 {
        let cases = if call < 31 { &RETRIED } else { &DOUBTED };
        let other = first_wrong(rt.alloc(), 1, cases, &[call], &[])?;
        assert_eq!(rt; other, None, "call {call}");
    }
    Ok(())
}

// The two files before it are two calls; the run reads both and puts its output by fifteen.
#[test]
fn files_that_fail_at_a_run(rt: HostRuntime) -> Result<(), Fail> {
    for call in 3..18 {
        let other = first_wrong(rt.alloc(), 1, &NOT_WRITTEN, &[], &[call])?;
        assert_eq!(rt; other, None, "call {call}");
    }
    Ok(())
}
