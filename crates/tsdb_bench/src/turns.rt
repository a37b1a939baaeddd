//! The speed of a turn, by one pass, four and eight in threads, and what of the time is left to those who hold it
//! for 100 microseconds each. It depends on `tsdb_turn`.

ghost use Rattle.std.specs.Prelude.{◌<◌, [], All};
ghost use Rattle.tsdb_turn.specs.Passes.{IsOutside};

use crate::bench::{Bench, Unit};
use std::alloc::Global;
use std::sync::Wait;
use std::thread;
use std::thread::Threads;
use std::time::{Clock, Duration, Instant};
use tsdb_base::Memory;
use tsdb_turn::{Logged, Pass, Turn};

/// A count, which has no entries.
#[derive(Drop)]
struct Count {
    value: u64,
}

impl Logged for Count {
    type Entry = ();

    type Account = ();

    ghost entries_of = { λ c. [] };

    ghost number_of = { λ e. 0 };

    ghost account_of = { λ c n. tt };

    ghost reach_of = { λ c. 0 };

    ghost comes_from = { λ c start. Unit {0} };

    fn entries(&self) -> u64 {
        0
    }

    fn reach(&self) -> u64 {
        0
    }
}

/// Works for so long.
fn work<R: Clock>(rt: &R, long: Duration) {
    let Ok(start) = Instant::now(rt) else {
        return;
    };
    for _ in 0..u64::MAX {
        match start.elapsed(rt) {
            Ok(elapsed) if elapsed < long => (),
            _ => return,
        }
    }
}

/// Enters so many times, works for so long each time, and counts each.
fn take_turns<R: Wait + Clock>(
    rt: &R,
    turn: &Turn<Count>,
    pass: &mut Pass<Count>,
    times: u64,
    held: Duration,
)
    requires { IsOutside turn.now.id pass.old }
    ensures { IsOutside turn.now.id pass.new }
{
    for _ in 0..times {
        let mut count = turn.enter(rt, pass);
        count.value = count.value.wrapping_add(1);
        if !held.is_zero() {
            work(rt, held);
        }
        turn.leave(pass, count);
    }
}

/// A thread for each pass.
fn take_turns_in_threads<R: Threads + Wait + Clock + Sync>(
    rt: &R,
    turn: &Turn<Count>,
    passes: &mut [Pass<Count>],
    threads: usize,
    times: u64,
    held: Duration,
)
    requires some { 0 < threads }
    requires outside { All (IsOutside turn.now.id) passes.old }
    ensures { All (IsOutside turn.now.id) passes.new }
{
    thread::for_each_mut(
        rt,
        passes,
        threads,
        &|_, pass| take_turns(rt, turn, pass, times, held),
    );
}

/// So many passes, each in a thread, take so many turns each. Says how many turns there were.
fn run_turns<R: Threads + Wait + Clock + Sync>(
    alloc: Global,
    handle: &R,
    passes: u32,
    times: u64,
    held: Duration,
) -> Result<u64, Memory>
    requires { 0 < passes }
{
    let Ok((turn, mut all)) = Turn::new(alloc, Count { value: 0 }, passes) else {
        return Err(Memory);
    };
    take_turns_in_threads(
        handle,
        &turn,
        all.as_mut_slice(),
        passes as usize,
        times,
        held,
    );
    let count = turn.close(all);
    Ok(count.value)
}

/// The row of so many passes, each in a thread.
fn contend<R: Threads + Wait + Clock + Sync>(
    bench: &mut Bench,
    handle: &R,
    passes: u32,
    many: u64,
    what: &str,
)
    requires { 0 < passes }
{
    let times = bench.rounds(many);
    let done = times.saturating_mul(u64::from(passes));
    let alloc = bench.alloc();
    bench.start();
    bench.note(run_turns(alloc, handle, passes, times, Duration::ZERO));
    bench.row(what, "turn", done, Unit::Millions);
}

/// Four passes that hold the turn for 100 microseconds each. The row has the nanoseconds that it was held: a thousand
/// millions in a second where handing over costs nothing.
fn hold<R: Threads + Wait + Clock + Sync>(bench: &mut Bench, handle: &R) {
    let times = bench.rounds(2_500);
    let alloc = bench.alloc();
    bench.start();
    bench.note(run_turns(alloc, handle, 4, times, Duration::from_micros(100)));
    let what = "turns of 100 microseconds, 4 passes in threads";
    bench.row(
        what,
        "ns held",
        times.saturating_mul(400_000),
        Unit::Millions,
    );
}

/// The rows of the turn.
pub fn turns<R: Threads + Wait + Clock + Sync>(bench: &mut Bench, handle: &R) {
    contend(bench, handle, 1, 3_000_000, "turn of 1 pass");
    contend(bench, handle, 4, 250_000, "turn of 4 passes in threads");
    contend(bench, handle, 8, 125_000, "turn of 8 passes in threads");
    hold(bench, handle);
}
