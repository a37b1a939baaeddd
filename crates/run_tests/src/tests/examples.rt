//! Worked examples with files: what is flushed, late points, listings, and numbers at their end.
use super::courses::{Course, Stops, expect, expect_each, expect_kept, wrong_run};
use super::places::{NEW, Store, failing};
use super::runs::{NO_CALL, Run};
use super::stores::expect_answered;
use std::alloc::Global;

const SMALL: &[&str] = &["run", "--pair", "4", "--workers", "0", "d"];

/// Runs, each on a new store.
static ROWS: [Run; 15] = [
    // A point at the last flushed time goes to the unsequence part, and wins.
    Run::Replies(
        "C; I 1 5; flush; I 1 6; S; show files",
        "ok / ok / ok / ok / time,s / 1,6 / rows 1 / sequence 1 born 2 points 1 from 1 to 1 / frozen 0 / \
         working 0 1 / marks 0",
    ),
    // The least and the greatest time, on both sides of a flush.
    Run::Replies(
        "C; I -9223372036854775808 1; I 9223372036854775807 2; flush; I 9223372036854775807 3; S",
        "ok / ok / ok / ok / ok / time,s / -9223372036854775808,1 / 9223372036854775807,3 / rows 2",
    ),
    // A delete between a flush and a late point, and one behind both.
    Run::Replies(
        "C; I 1 5; flush; delete from root.g.d.s where time<=1; I 1 6; S; flush; S; \
         delete from root.g.d.s where time<=1; S",
        "ok / ok / ok / ok / ok / time,s / 1,6 / rows 1 / ok / time,s / 1,6 / rows 1 / ok / time,s / rows 0",
    ),
    // A pair of four points is full: the third one flushes the oldest.
    Run::RepliesTo(
        SMALL,
        "C; I 1 1; I 2 2; I 3 3; I 4 4; I 5 5; I 6 6; I 7 7; I 8 8; I 9 9; I 10 10; I 11 11; I 12 12; \
         I 13 13; show files",
        "ok / ok / ok / ok / ok / ok / ok / ok / ok / ok / ok / ok / ok / ok / \
         sequence 1 born 5 points 4 from 1 to 4 / frozen 2 / working 1 0 / marks 0",
    ),
    // A flush of an empty pair writes nothing.
    Run::Replies(
        "flush; C; flush; show files",
        "ok / ok / ok / frozen 0 / working 0 0 / marks 0",
    ),
    // A late point is in a file of its own, and a mark stands for what it deletes in files.
    Run::Replies(
        "C; I 10 1; flush; I 5 2; I 20 3; flush; delete from root.g.d.s where time>=20; S; show files",
        "ok / ok / ok / ok / ok / ok / ok / time,s / 5,2 / 10,1 / rows 2 / \
         sequence 1 born 2 points 1 from 10 to 10 / sequence 2 born 4 points 1 from 20 to 20 / \
         unsequence 3 born 4 points 1 from 5 to 5 / frozen 0 / working 0 0 / marks 1",
    ),
    // Aggregates over files and memory.
    Run::Replies(
        "C; I 1 5; I 2 7; flush; I 1 -7; select count(s),min_value(s),last_value(s) from root.g.d; \
         select count(s) from root.g.d where time<2",
        "ok / ok / ok / ok / ok / count(s),min_value(s),last_value(s) / 2,-7,7 / count(s) / 1",
    ),
    // A sum of 64-bit numbers has 128 bits; it is none over no points.
    Run::Replies(
        "C; I 1 9223372036854775807; I 2 9223372036854775807; flush; select sum(s) from root.g.d; \
         select sum(s),count(s) from root.g.d where time>2",
        "ok / ok / ok / ok / sum(s) / 18446744073709551614 / sum(s),count(s) / null,0",
    ),
    // The sum over a late point that meets statistics, over both spaces, and behind each compaction.
    Run::Replies(
        "C; I 1 5; I 2 -9223372036854775808; flush; I 1 7; I 3 4; flush; select sum(s) from root.g.d; \
         compact inner sequence; select sum(s) from root.g.d; compact cross; select SUM(s) from root.g.d",
        "ok / ok / ok / ok / ok / ok / ok / sum(s) / -9223372036854775797 / ok / sum(s) / -9223372036854775797 / \
         ok / sum(s) / -9223372036854775797",
    ),
    // A cross compaction of a late file that meets no sequence file: its output stands between two files.
    Run::Replies(
        "C; create timeseries root.g.e.s with datatype=INT64,encoding=PLAIN; I 10 1; \
         insert into root.g.e(timestamp,s) values(100,1); flush; I 30 1; \
         insert into root.g.e(timestamp,s) values(200,1); flush; I 20 1; flush; compact cross; show files",
        "ok / ok / ok / ok / ok / ok / ok / ok / ok / ok / ok / \
         sequence 1 born 4 points 2 from 10 to 100 / sequence 4 born 7 points 1 from 20 to 20 / \
         sequence 2 born 6 points 2 from 30 to 200 / frozen 0 / working 0 0 / marks 0",
    ),
    // Late files become one, and then a sequence file. What is in files, a later value wins over what it meets.
    Run::Replies(
        "C; I 10 1; flush; I 5 2; flush; I 5 3; I 10 4; flush; compact inner unsequence; S; compact cross; S; \
         compact cross; compact inner sequence; show files",
        "ok / ok / ok / ok / ok / ok / ok / ok / ok / time,s / 5,3 / 10,4 / rows 2 / ok / time,s / 5,3 / 10,4 / \
         rows 2 / ok / ok / sequence 5 born 5 points 2 from 5 to 10 / frozen 0 / working 0 0 / marks 0",
    ),
    // A compaction whose inputs have no surviving point leaves no file.
    Run::Replies(
        "C; I 1 1; flush; I 2 2; flush; delete from root.g.d.s; compact inner sequence; S; show files",
        "ok / ok / ok / ok / ok / ok / ok / time,s / rows 0 / frozen 0 / working 0 0 / marks 0",
    ),
    // Values of each type at the ends of their range, in memory and in a file.
    Run::Replies(
        "create timeseries root.g.d.b with datatype=BOOLEAN,encoding=RLE; \
         create timeseries root.g.d.i with datatype=int32,encoding=ts_2diff; \
         create timeseries root.g.d.t with datatype=TEXT,encoding=DICTIONARY; \
         insert into root.g.d(timestamp,b,i,t) values(7,true,+05,'a'); \
         insert into root.g.d(timestamp,b,i,t) values(-2,FALSE,-2147483648,\"it's\"); select b,i,t from root.g.d; \
         flush; insert into root.g.d(timestamp,b,i,t) values(3,TRUE,2147483647,''); select b,i,t from root.g.d; \
         select count(b),first_value(b),last_value(t),min_time(t),max_time(i),min_value(i),max_value(i) from root.g.d",
        "ok / ok / ok / ok / ok / time,b,i,t / -2,false,-2147483648,'it''s' / 7,true,5,'a' / rows 2 / ok / ok / \
         time,b,i,t / -2,false,-2147483648,'it''s' / 3,true,2147483647,'' / 7,true,5,'a' / rows 3 / \
         count(b),first_value(b),last_value(t),min_time(t),max_time(i),min_value(i),max_value(i) / \
         3,false,'a',-2,7,-2147483648,2147483647",
    ),
    // A least value and a sum of texts are refused, and so is a number that does not fit its series.
    Run::Replies(
        "create timeseries root.g.d.t with datatype=TEXT,encoding=DICTIONARY; \
         create timeseries root.g.d.i with datatype=INT32,encoding=RLE; \
         select min_value(t) from root.g.d; select sum(t) from root.g.d; \
         insert into root.g.d(timestamp,i) values(1,2147483648); select i from root.g.d",
        "ok / ok / type / type / type / time,i / rows 0",
    ),
    // Refusals say nothing of where points are.
    Run::Replies(
        "C; I 1 5; flush; select x from root.g.d; C; insert into root.g.e(time,s) values(1,1); \
         insert into root.g.d(time,s) values(1,'a'); S",
        "ok / ok / ok / path / exists / path / type / time,s / 1,5 / rows 1",
    ),
];

#[test]
fn files_and_memory(rt: HostRuntime) {
    expect_each(&rt, rt.alloc(), &ROWS);
}

static ONE_STORE: [Course<'static>; 2] = [
    // The watermark of the device stays where it was, although its last point is gone; what was not flushed is in the
    // log.
    (
        NEW,
        &[
            Run::Replies(
                "C; I 10 1; flush; I 20 1; flush; I 15 1; flush; delete from root.g.d.s where time=20; I 30 9",
                "ok / ok / ok / ok / ok / ok / ok / ok / ok",
            ),
            Run::Replies(
                "delete from root.g.d.s where time>20; I 15 2; I 16 3; S",
                "ok / ok / ok / time,s / 10,1 / 15,2 / 16,3 / rows 3",
            ),
            Run::RepliesTo(
                SMALL,
                "S; show files",
                "time,s / 10,1 / 15,2 / 16,3 / rows 3 / sequence 1 born 2 points 1 from 10 to 10 / \
                 sequence 2 born 3 points 1 from 20 to 20 / unsequence 3 born 4 points 1 from 15 to 15 / frozen 0 / \
                 working 0 2 / marks 2",
            ),
            Run::RepliesTo(
                SMALL,
                "flush; S; show files",
                "ok / time,s / 10,1 / 15,2 / 16,3 / rows 3 / sequence 1 born 2 points 1 from 10 to 10 / \
                 sequence 2 born 3 points 1 from 20 to 20 / unsequence 3 born 4 points 1 from 15 to 15 / \
                 unsequence 4 born 9 points 2 from 15 to 16 / frozen 0 / working 0 0 / marks 2",
            ),
        ],
    ),
    // With a compaction in the first run. No file has a point behind 15 then, and the watermark is still 20.
    (
        NEW,
        &[
            Run::Replies(
                "C; I 10 1; flush; I 20 1; flush; I 15 1; flush; delete from root.g.d.s where time=20; \
                 compact inner sequence",
                "ok / ok / ok / ok / ok / ok / ok / ok / ok",
            ),
            Run::Replies(
                "I 15 2; I 16 3; S; show files",
                "ok / ok / time,s / 10,1 / 15,2 / 16,3 / rows 3 / sequence 4 born 5 points 1 from 10 to 10 / \
                 unsequence 3 born 4 points 1 from 15 to 15 / frozen 0 / working 0 2 / marks 1",
            ),
        ],
    ),
];

#[test]
fn runs_behind_one_another(rt: HostRuntime) {
    expect(&rt, rt.alloc(), &ONE_STORE);
}

/// A log that lists the file 1 with the one point 1, 5, in the version whose statistics have no sum.
const OLD_FILE: Store = Store {
    slot: b"\x01\x00\x00\x00\x0f\x01\x00\x0aroot.g.d.s\x02\x00\
\x01\x00\x00\x00\x1c\x02\x00\x00\x00\x00\x00\x00\x00\x01\x00\x01\x00\x00\x00\x00\x00\x00\x00\x00\x02\
\x00\x00\x00\x00\x00\x00\x00\x05\
\x01\x00\x00\x00\x01\x04\
\x01\x00\x00\x00\x11\x05\x00\x00\x00\x00\x00\x00\x00\x01\x00\x00\x00\x00\x00\x00\x00\x00\x00",
    file: Some(1),
    bytes: b"TsFile\x51\
\x47\x00\x08root.g.d\
\x43\x00\x01s\x02\x00\
\x50\x00\x00\x00\x0f\x00\x00\x00\x02\x01\x02\x01\x00\x00\x00\x00\x00\x00\x00\x05\
\x49\x00\x01\x00\x08root.g.d\x00\x01s\x02\x00\x00\x00\x00\x00\x00\x00\x00\x12\
\x00\x00\x00\x00\x00\x00\x00\x01\x00\x00\x00\x00\x00\x00\x00\x01\x00\x00\x00\x00\x00\x00\x00\x01\
\x00\x00\x00\x00\x00\x00\x00\x05\x00\x00\x00\x00\x00\x00\x00\x05\
\x00\x00\x00\x00\x00\x00\x00\x05\x00\x00\x00\x00\x00\x00\x00\x05\
\x00\x00\x00\x01\x00\x00\x00\x00\x00\x00\x00\x18\
\x00\x00\x00\x00\x00\x00\x00\x01\x00\x00\x00\x00\x00\x00\x00\x01\x00\x00\x00\x00\x00\x00\x00\x01\
\x00\x00\x00\x00\x00\x00\x00\x05\x00\x00\x00\x00\x00\x00\x00\x05\
\x00\x00\x00\x00\x00\x00\x00\x05\x00\x00\x00\x00\x00\x00\x00\x05\
\x52\x00\x00\x00\x01\x00\x08root.g.d\x00\x01s\x00\x00\x00\x00\x00\x00\x00\x2c\
\x00\x00\x00\x00\x00\x00\x00\xc2TsFile",
    ..NEW
};

/// Files of both versions, behind one another, in one run and over two, and as one file.
static BOTH_VERSIONS: [Course<'static>; 1] = [(
    OLD_FILE,
    &[
        Run::Replies(
            "select sum(s),count(s) from root.g.d; I 2 6; flush; select sum(s),count(s) from root.g.d",
            "sum(s),count(s) / 5,1 / ok / ok / sum(s),count(s) / 11,2",
        ),
        Run::Replies(
            "select sum(s) from root.g.d; compact inner sequence; select sum(s) from root.g.d",
            "sum(s) / 11 / ok / sum(s) / 11",
        ),
        Run::Replies(
            "S; select sum(s) from root.g.d; show files",
            "time,s / 1,5 / 2,6 / rows 2 / sum(s) / 11 / sequence 3 born 3 points 2 from 1 to 2 / frozen 0 / \
             working 0 0 / marks 0",
        ),
    ],
)];

#[test]
fn files_of_both_versions(rt: HostRuntime) {
    expect(&rt, rt.alloc(), &BOTH_VERSIONS);
}

const FLUSHED: &str = "C; I 1 5; flush; S; show files";

const FULL: &[Run] = &[Run::Replies(
    FLUSHED,
    "ok / ok / full / time,s / 1,5 / rows 1 / frozen 1 / working 0 0 / marks 0",
)];

/// Behind a file of the store, which no list has, a flush draws two numbers, of which none may pass 2^63 - 1. Where too
/// few are left, it freezes, and ends `full`.
static AT_THE_END: [Course<'static>; 3] = [
    (
        Store {
            file: Some(9_223_372_036_854_775_807),
            ..NEW
        },
        FULL,
    ),
    (
        Store {
            file: Some(9_223_372_036_854_775_806),
            ..NEW
        },
        FULL,
    ),
    (
        Store {
            file: Some(9_223_372_036_854_775_805),
            ..NEW
        },
        &[Run::Replies(
            FLUSHED,
            "ok / ok / ok / time,s / 1,5 / rows 1 / sequence 9223372036854775806 born 2 points 1 from 1 to 1 / \
             frozen 0 / working 0 0 / marks 0",
        )],
    ),
];

#[test]
fn numbers_at_their_end(rt: HostRuntime) {
    expect(&rt, rt.alloc(), &AT_THE_END);
}

const ONE_FILE: Run = Run::Replies("C; I 1 5; flush", "ok / ok / ok");

const DEVICE: Run = Run::Ends("S", 6, "device\n");

static NOT_CHECKED: [Run; 3] = [ONE_FILE, DEVICE, Run::Replies("S", "time,s / 1,5 / rows 1")];

/// An opening of a store with one file makes eight calls on its files, behind two of the run that made it. Whichever
/// fails, the store is not opened, and the next run finds all.
#[test]
fn listed_files_are_checked(rt: HostRuntime) {
    for call in 3..=10 {
        let course = (failing(NO_CALL, call), NOT_CHECKED.as_slice());
        assert_eq!(rt; wrong_run(rt.alloc(), &course), None, "call {call}");
    }
}

/// At whichever moment.
const END: u64 = u64::MAX;

/// A late point behind a flush; both files become one then.
const LATE_AND_COMPACTED: &str = "C; I 1 5; flush; I 1 6; flush; compact cross";

const LATE_SEEN: Run = Run::Replies("S", "time,s / 1,6 / rows 1");

/// A stop at any moment, also within a flush or a compaction, leaves a store that is opened, and in it what was
/// acknowledged, or that with the command that was being written.
static WITH_FILES: [Stops; 1] = [Stops {
    course: (
        NEW,
        &[
            Run::Replies(LATE_AND_COMPACTED, "ok / ok / ok / ok / ok / ok"),
            LATE_SEEN,
        ],
    ),
    first: 0,
    shown: &[
        ("path\n", 0, END),
        ("time,s\nrows 0\n", 0, END),
        ("time,s\n1,5\nrows 1\n", 0, END),
        ("time,s\n1,6\nrows 1\n", 0, END),
    ],
    back: 1,
}];

#[test]
fn stops_with_files(rt: HostRuntime) {
    expect_kept(&rt, rt.alloc(), &WITH_FILES);
}

static WITH_INNER_COMPACTIONS: [Stops; 2] = [
    // Late files become one, and that and the file before them.
    Stops {
        course: (
            NEW,
            &[
                Run::Replies(
                    "C; I 1 5; flush; I 1 6; flush; I 1 7; flush; compact inner unsequence; compact cross",
                    "ok / ok / ok / ok / ok / ok / ok / ok / ok",
                ),
                Run::Replies("S", "time,s / 1,7 / rows 1"),
            ],
        ),
        first: 0,
        shown: &[
            ("path\n", 0, END),
            ("time,s\nrows 0\n", 0, END),
            ("time,s\n1,5\nrows 1\n", 0, END),
            ("time,s\n1,6\nrows 1\n", 0, END),
            ("time,s\n1,7\nrows 1\n", 0, END),
        ],
        back: 1,
    },
    // Sequence files become one, without a point that was deleted; then that and a third one.
    Stops {
        course: (
            NEW,
            &[
                Run::Replies(
                    "C; I 1 5; flush; I 2 6; flush; delete from root.g.d.s where time<=1; \
                     compact inner sequence; I 3 7; flush; compact inner sequence",
                    "ok / ok / ok / ok / ok / ok / ok / ok / ok / ok",
                ),
                Run::Replies("S", "time,s / 2,6 / 3,7 / rows 2"),
            ],
        ),
        first: 0,
        shown: &[
            ("path\n", 0, END),
            ("time,s\nrows 0\n", 0, END),
            ("time,s\n1,5\nrows 1\n", 0, END),
            ("time,s\n1,5\n2,6\nrows 2\n", 0, END),
            ("time,s\n2,6\nrows 1\n", 0, END),
            ("time,s\n2,6\n3,7\nrows 2\n", 0, END),
        ],
        back: 1,
    },
];

#[test]
fn stops_with_inner_compactions(rt: HostRuntime) {
    expect_kept(&rt, rt.alloc(), &WITH_INNER_COMPACTIONS);
}

/// Flushes and compactions of both kinds, and their order.
const COMPACTING: &str = "C; I 1 5; flush; I 2 6; flush; delete from root.g.d.s where time<=1; \
                          compact inner sequence; I 1 7; flush; I 2 8; flush; compact inner unsequence; \
                          compact cross; S";

/// Whichever call of the journal fails, one command is answered `device`, also a compaction, and the next run sees what
/// this one saw last. An accepted command is four calls, a flush eight and a compaction four.
#[test]
fn each_call_of_the_journal_fails_in_turn(rt: HostRuntime) {
    expect_answered(&rt, rt.alloc(), COMPACTING, 68);
}

/// The runs where the first call on the files fails, which is that of the opening, and where a later one does.
static NOT_OPENED: [Run; 2] = [
    Run::Ends(LATE_AND_COMPACTED, 6, "device\n"),
    Run::Replies("S", "path"),
];

static OPENED: [Run; 2] = [Run::Ends(LATE_AND_COMPACTED, 0, ""), LATE_SEEN];

/// The first of the runs on a new store that leaves something else, where this call on the files fails.
fn wrong_run_at(alloc: Global, call: u64) -> Option<usize> {
    let runs: &[Run] = if call == 1 { &NOT_OPENED } else { &OPENED };
    wrong_run(alloc, &(failing(NO_CALL, call), runs))
}

/// Whichever call on the files fails, the store is not opened, or a flush, a compaction or a query is answered
/// `device`. The next run finds all that was acknowledged.
#[test]
fn each_call_on_files_fails_in_turn(rt: HostRuntime) {
    for call in 1..=16 {
        assert_eq!(rt; wrong_run_at(rt.alloc(), call), None, "call {call}");
    }
}

/// A query that cannot read its file, and a flush behind it.
static UNREAD: [Run; 2] = [
    Run::Replies(
        "C; I 1 5; flush; S; I 2 6; flush",
        "ok / ok / ok / device / ok / ok",
    ),
    Run::Replies("S", "time,s / 1,5 / 2,6 / rows 2"),
];

/// The fault was answered, so the run leaves a sound store all the same, and the next run finds all.
#[test]
fn a_fault_that_was_answered(rt: HostRuntime) {
    let course = (failing(NO_CALL, 3), UNREAD.as_slice());
    assert_eq!(rt; wrong_run(rt.alloc(), &course), None);
}
