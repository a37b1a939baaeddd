//! Stores that are opened again: what a run left, what a stop left at any moment, and damaged logs.
use super::courses::{Course, Stops, expect, expect_kept, moments_behind, rows_in};
use super::places::{NEW, Store, failing, new_place, place_of};
use super::runs::{
    Left, NO_CALL, Run, SELECT, SILENT, Script, is_done, is_right, left_by, put_order, script_of,
};
use super::text::Text;
use std::alloc::Global;
use std::process::Abort;
use tsdb_outside::Place;
use tsdb_run::{Part, Status};

/// Slot A behind the create of `root.g.d.s` and an insert of 5 at time 1.
const INSERTED: Store = Store {
    slot: &[
        1, 0, 0, 0, 15, 1, 0, 10, 114, 111, 111, 116, 46, 103, 46, 100, 46, 115, 2, 0, // at 0
        1, 0, 0, 0, 28, 2, 0, 0, 0, 0, 0, 0, 0, 1, 0, 1, 0, 0, 0, 0, 0, 0, 0, 0, 2, 0, 0, 0, 0, 0,
        0, 0, 5, // at 20
        0,
    ],
    ..NEW
};

/// The same, of which the last bytes are lost.
const TORN: Store = Store {
    slot: &[
        1, 0, 0, 0, 15, 1, 0, 10, 114, 111, 111, 116, 46, 103, 46, 100, 46, 115, 2, 0, // at 0
        1, 0, 0, 0, 28, 2, 0, 0, 0, 0, 0, 0, 0, 1, 0, 1, 0, 0, 0, 0, // at 20
    ],
    ..NEW
};

/// The same, whose second gate is closed.
const CLOSED: Store = Store {
    slot: &[
        1, 0, 0, 0, 15, 1, 0, 10, 114, 111, 111, 116, 46, 103, 46, 100, 46, 115, 2, 0, // at 0
        0, 0, 0, 0, 28, 2, 0, 0, 0, 0, 0, 0, 0, 1, 0, 1, 0, 0, 0, 0, // at 20
    ],
    ..NEW
};

/// A create and commands behind it, of which one comes late, one replaces a point and one is refused; and a select.
const COMMANDS: &str = "C; I 10 1; I 5 2; I 10 3; insert into root.g.d(timestamp,x) values(1,1); \
                        delete from root.g.d.s where time<=5; I 20 4; S";

const FIRST: Run = Run::Replies(
    COMMANDS,
    "ok / ok / ok / ok / path / ok / ok / time,s / 10,3 / 20,4 / rows 2",
);

/// A second run finds what the first one left.
static SECOND_RUNS: [Course<'static>; 2] = [
    (
        NEW,
        &[FIRST, Run::Replies("S", "time,s / 10,3 / 20,4 / rows 2")],
    ),
    (INSERTED, &[Run::Replies("S", "time,s / 1,5 / rows 1")]),
];

static FIRST_RUN: Course<'static> = (NEW, &[FIRST]);

#[test]
fn second_runs(rt: HostRuntime) {
    expect(&rt, rt.alloc(), &SECOND_RUNS);
    assert_eq!(rt; moments_behind(rt.alloc(), &FIRST_RUN), Some(1 + 1 + 4 * 6));
}

/// A stop at any moment leaves what was acknowledged, or that with the command that was being written. The opening
/// lists the files; then an accepted command makes two writes and two syncs, and no other makes any.
static AT_EACH_MOMENT: [Stops; 1] = [Stops {
    course: (NEW, &[FIRST]),
    first: 0,
    shown: &[
        ("path\n", 0, 5),
        ("time,s\nrows 0\n", 4, 9),
        ("time,s\n10,1\nrows 1\n", 8, 13),
        ("time,s\n5,2\n10,1\nrows 2\n", 12, 17),
        ("time,s\n5,2\n10,3\nrows 2\n", 16, 21),
        ("time,s\n10,3\nrows 1\n", 20, 25),
        ("time,s\n10,3\n20,4\nrows 2\n", 24, 29),
    ],
    back: 1,
}];

#[test]
fn stops_at_each_moment(rt: HostRuntime) {
    expect_kept(&rt, rt.alloc(), &AT_EACH_MOMENT);
}

/// How many commands were answered `device`.
fn devices_in(printed: &[u8]) -> usize {
    let mut count = 0usize;
    for at in 0..printed.len() {
        if printed[at..].starts_with(b"\ndevice\n") {
            count = count.saturating_add(1);
        }
    }
    count
}

/// Whether what the commands printed ends with what a later select returned, and their order.
fn ends_with(alloc: Global, printed: &[u8], commands: &str, again: &[u8]) -> bool {
    match rows_in(again) {
        Some(rows) => {
            let mut end = Text::new(alloc);
            end.put_bytes(rows);
            put_order(&mut end, commands);
            end.ends(printed)
        }
        None => false,
    }
}

/// Whether a run of the commands ended well with one `device`, and a later select shows what it showed last.
fn is_answered(alloc: Global, commands: &str, left: &Left, again: &Left) -> bool {
    is_done(left)
        && is_done(again)
        && devices_in(left.sink.bytes()) == 1
        && ends_with(alloc, left.sink.bytes(), commands, again.sink.bytes())
}

/// Whether that is so of a run on the place.
fn is_answered_on<P: Place>(alloc: Global, place: &mut P, commands: &str) -> bool {
    let left = left_by(alloc, place, script_of(alloc, commands));
    let again = left_by(alloc, place, script_of(alloc, "S"));
    match (&left, &again) {
        (Ok(left), Ok(again)) => is_answered(alloc, commands, left, again),
        _ => false,
    }
}

/// Whether that is so on a new store of whose journal this call fails.
fn is_answered_at(alloc: Global, commands: &str, call: u64) -> bool {
    match place_of(alloc, &failing(call, NO_CALL)) {
        Ok(mut place) => is_answered_on(alloc, &mut place, commands),
        Err(_) => false,
    }
}

/// Expects that at the failure of each of so many calls of the journal one of the commands is answered `device`, and
/// the next run sees what this one saw last.
pub fn expect_answered(rt: &impl Abort, alloc: Global, commands: &str, calls: u64) {
    for call in 1..=calls {
        assert!(rt; is_answered_at(alloc, commands, call), "call {call}");
    }
}

/// Whichever call of the journal fails, one command is answered `device`, and the next run finds what this one showed
/// last.
#[test]
fn each_call_fails_in_turn(rt: HostRuntime) {
    expect_answered(&rt, rt.alloc(), COMMANDS, 24);
}

/// The sync of the gate of a first insert fails: it is answered `device`, and stays in doubt until the second insert is
/// written, which begins behind call 9 and is acknowledged behind call 15.
static IN_DOUBT: [Stops; 1] = [Stops {
    course: (
        Store {
            journal_call: 8,
            ..NEW
        },
        &[Run::Replies(
            "C; I 1 5; S; I 2 6; S",
            "ok / device / time,s / rows 0 / ok / time,s / 2,6 / rows 1",
        )],
    ),
    first: 5,
    shown: &[
        ("time,s\nrows 0\n", 5, 15),
        ("time,s\n1,5\nrows 1\n", 5, 11),
        ("time,s\n2,6\nrows 1\n", 14, u64::MAX),
    ],
    back: 2,
}];

#[test]
fn command_in_doubt(rt: HostRuntime) {
    expect_kept(&rt, rt.alloc(), &IN_DOUBT);
}

/// A damaged log is reported with its place, and nothing is printed. A frame behind a closed gate is not read.
static NOT_OPENED: [Course<'static>; 2] = [
    (
        TORN,
        &[
            Run::Script(Script {
                lines: &[SELECT],
                status: Status::Damaged {
                    part: Part::Log,
                    at: 20,
                },
                ..SILENT
            }),
            Run::Ends("S", 7, "damaged log at 20\n"),
        ],
    ),
    (CLOSED, &[Run::Replies("S", "time,s / rows 0")]),
];

#[test]
fn stores_that_are_not_opened(rt: HostRuntime) {
    expect(&rt, rt.alloc(), &NOT_OPENED);
}

/// Whether a run on a new store that never fails leaves what it should.
fn is_right_on_new(alloc: Global, run: &Run) -> bool {
    match new_place(alloc) {
        Ok(mut place) => is_right(alloc, &mut place, run),
        Err(_) => false,
    }
}

/// What the laws begin with: a new store, which is sound.
#[test]
fn a_new_store(rt: HostRuntime) {
    assert!(rt; is_right_on_new(rt.alloc(), &FIRST));
}
