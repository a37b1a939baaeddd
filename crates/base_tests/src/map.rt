//! Worked examples of the plain map: what commands return one after another with ample memory, in one phase and in two,
//! and aggregates over no and many points.
ghost use Rattle.tsdb_model.specs.Commands.{IsWellFormed};

use std::alloc::Global;
use std::test::Fail;
use tests_support::{command_of, words_of};
use tsdb_map::{Plain, Prepared};
use tsdb_model::{Command, Reply};

/// How a command is carried out: in one phase, or in two of which the second one cancels or finishes its change.
#[derive(Clone, Copy)]
enum Phases {
    One,
    Cancel,
    Finish,
}

/// A line without `cancel` or `finish`, which say that its command is carried out in two phases.
fn phases_of(line: &str) -> (Phases, &str) {
    if let Some(command) = line.strip_prefix("cancel ") {
        (Phases::Cancel, command)
    } else if let Some(command) = line.strip_prefix("finish ") {
        (Phases::Finish, command)
    } else {
        (Phases::One, line)
    }
}

fn is_said(alloc: Global, reply: &Reply, wanted: &str) -> Result<bool, Fail> {
    let words = words_of(alloc, reply)?;
    Ok(words.as_str() == wanted)
}

/// Whether the command comes to this in words: its reply, or in two phases `a change`.
fn comes_to(
    alloc: Global,
    plain: &mut Plain,
    command: &Command,
    phases: Phases,
    wanted: &str,
) -> Result<bool, Fail>
    requires { IsWellFormed command.now }
{
    if let Phases::One = phases {
        let reply = plain.apply(command)?;
        return is_said(alloc, &reply, wanted);
    }
    match plain.prepare(command)? {
        Prepared::Reply(reply) => is_said(alloc, &reply, wanted),
        Prepared::Change(pending) => {
            match phases {
                Phases::Finish => plain.finish(command, pending),
                _ => plain.cancel(command, pending),
            }
            Ok(wanted == "a change")
        }
    }
}

fn is_right(alloc: Global, plain: &mut Plain, line: &str, wanted: &str) -> Result<bool, Fail> {
    let (phases, line) = phases_of(line);
    let command = command_of(alloc, line)?;
    comes_to(alloc, plain, &command, phases, wanted)
}

/// The first of the steps, a command and what it comes to in words, that comes to something else. The map has no series
/// before.
fn first_wrong(alloc: Global, steps: &[(&str, &str)]) -> Result<Option<usize>, Fail> {
    let mut plain = Plain::new(alloc);
    for (step, (line, wanted)) in steps.iter().enumerate() {
        if !is_right(alloc, &mut plain, line, wanted)? {
            return Ok(Some(step));
        }
    }
    Ok(None)
}

const CREATE_A: &str = "create timeseries root.d.a with datatype=INT32,encoding=PLAIN";

const CREATE_B: &str = "create timeseries root.d.b with datatype=TEXT,encoding=PLAIN";

const A: &str = "select a from root.d where time>=-9 and time<=9";

const B: &str = "select b from root.d where time>=-9 and time<=9";

const LAST_WRITES: &[(&str, &str)] = &[
    ("insert into root.d(time,a) values(1,1)", "NoPath"),
    (CREATE_A, "Done"),
    (CREATE_A, "Exists"),
    ("insert into root.d(time,a,b) values(1,7,true)", "NoPath"),
    (CREATE_B, "Done"),
    ("insert into root.d(time,a,b) values(1,7,true)", "WrongType"),
    (A, ""),
    ("insert into root.d(time,a,b) values(1,7,'x')", "Done"),
    (
        "insert into root.d(time,a) values(1,2147483648)",
        "WrongType",
    ),
    ("insert into root.d(time,a) values(1,8)", "Done"),
    ("insert into root.d(time,a) values(-1,-3)", "Done"),
    (
        "select a from root.d where time>=-1 and time<=1",
        "-1 [Some(I32(-3))];1 [Some(I32(8))];",
    ),
    ("select a from root.d where time>=1 and time<=0", ""),
    ("select b from root.d where time>=0 and time<=0", ""),
    ("select c from root.d where time>=0 and time<=0", "NoPath"),
    ("delete from root.d.a where time>=0 and time<=1", "Done"),
    ("delete from root.d.c where time>=0 and time<=1", "NoPath"),
    (A, "-1 [Some(I32(-3))];"),
    (B, "1 [Some(Text(\"x\"))];"),
    ("flush", "Done"),
    ("show files", "Done"),
];

#[test]
fn a_refused_row_puts_nothing_and_the_last_write_wins(rt: HostRuntime) -> Result<(), Fail> {
    assert_eq!(rt; first_wrong(rt.alloc(), LAST_WRITES)?, None);
    Ok(())
}

const CANCEL_A: &str = "cancel create timeseries root.d.a with datatype=INT32,encoding=PLAIN";

const FINISH_A: &str = "finish create timeseries root.d.a with datatype=INT32,encoding=PLAIN";

/// A creation, a row and a deletion that are cancelled and then finished, and commands that change nothing: in two
/// phases these are answered at once.
const CHANGES: &[(&str, &str)] = &[
    (CANCEL_A, "a change"),
    (A, "NoPath"),
    (FINISH_A, "a change"),
    ("cancel insert into root.d(time,a) values(1,7)", "a change"),
    (A, ""),
    ("finish insert into root.d(time,a) values(1,7)", "a change"),
    (
        "cancel delete from root.d.a where time>=0 and time<=1",
        "a change",
    ),
    (A, "1 [Some(I32(7))];"),
    (
        "finish delete from root.d.a where time>=0 and time<=1",
        "a change",
    ),
    (A, ""),
    (FINISH_A, "Exists"),
    ("finish flush", "Done"),
];

#[test]
fn a_change_is_cancelled_or_finished(rt: HostRuntime) -> Result<(), Fail> {
    assert_eq!(rt; first_wrong(rt.alloc(), CHANGES)?, None);
    Ok(())
}

/// The aggregates of numbers over no and three points, and one that is not in the range; and a least text.
const AGGREGATED: &[(&str, &str)] = &[
    (CREATE_A, "Done"),
    (
        VALUES,
        "[Some(Value(I64(0))), None, None, None, None, None, None, None]",
    ),
    ("insert into root.d(time,a) values(2,5)", "Done"),
    ("insert into root.d(time,a) values(-7,9)", "Done"),
    ("insert into root.d(time,a) values(3,4)", "Done"),
    ("insert into root.d(time,a) values(10,99)", "Done"),
    (
        VALUES,
        "[Some(Value(I64(3))), Some(Value(I32(9))), Some(Value(I32(4))), Some(Value(I32(4))), Some(Value(I32(9))), \
         Some(Value(I64(-7))), Some(Value(I64(3))), Some(Sum(18))]",
    ),
    (CREATE_B, "Done"),
    (
        "select min_value(b) from root.d where time>=0 and time<=9",
        "WrongType",
    ),
    ("select sum(b) from root.d", "WrongType"),
];

const VALUES: &str =
    "select count(a),first_value(a),last_value(a),min_value(a),max_value(a),min_time(a),max_time(a),sum(a) \
    from root.d where time>=-9 and time<=9";

#[test]
fn aggregates_over_no_and_many_points(rt: HostRuntime) -> Result<(), Fail> {
    assert_eq!(rt; first_wrong(rt.alloc(), AGGREGATED)?, None);
    Ok(())
}
