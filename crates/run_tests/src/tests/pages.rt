//! A worked example: 2,000 points of one series in one file, which has two pages then.
use super::places::{NEW, place_of};
use super::runs::{CREATE, INSERT, Run, is_right, prints};
use super::text::Text;
use std::alloc::Global;
use tsdb_outside::Place;

/// How many points there are: at each time from 1 on the value that is the time.
const POINTS: u64 = 2_000;

/// Behind them a flush and counts: of both pages whole, and of one whole and all but the last point of the other.
const COUNTED: &str = "1 flush
1 select count(s) from root.g.d where time>=1 and time<=2000
1 select count(s) from root.g.d where time>=1 and time<=1999
1 show files
";

/// What the first run prints behind the inserts, up to the order.
const COUNTS: &str = "ok
count(s)
2000
count(s)
1999
sequence 1 born 2001 points 2000 from 1 to 2000
frozen 0
working 0 0
marks 0
";

/// A second run: a point in memory takes the place of one in a file.
const LATE: Run = Run::Replies(
    "I 1 -7; select count(s) from root.g.d; select min_value(s) from root.g.d",
    "ok / count(s) / 2000 / min_value(s) / -7",
);

/// Puts the first run's script.
fn put_script(script: &mut Text) {
    script.put(&[CREATE]);
    for time in 1..=POINTS {
        script.put(&[INSERT]);
        script.put_number(time);
        script.put(&[","]);
        script.put_number(time);
        script.put(&[")\n"]);
    }
    script.put(&[COUNTED]);
}

/// Puts what it prints.
fn put_printed(printed: &mut Text) {
    printed.put(&["session 1\nok\n"]);
    for _ in 0..POINTS {
        printed.put(&["ok\n"]);
    }
    printed.put(&[COUNTS, "order 1 1 1 1 1"]);
    for _ in 0..POINTS {
        printed.put(&[" 1"]);
    }
    printed.put(&["\n"]);
}

/// Whether both runs, one behind the other on the place, print what they should.
fn print_both<P: Place>(alloc: Global, place: &mut P) -> (bool, bool) {
    let mut script = Text::new(alloc);
    put_script(&mut script);
    let mut printed = Text::new(alloc);
    put_printed(&mut printed);
    let first = prints(alloc, place, script, &printed);
    (first, is_right(alloc, place, &LATE))
}

fn print_both_anew(alloc: Global) -> (bool, bool) {
    match place_of(alloc, &NEW) {
        Ok(mut place) => print_both(alloc, &mut place),
        Err(_) => (false, false),
    }
}

#[test]
fn aggregates_of_a_file_of_two_pages(rt: HostRuntime) {
    assert_eq!(rt; print_both_anew(rt.alloc()), (true, true));
}
