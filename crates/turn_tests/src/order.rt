//! Turns are taken one by one and in threads, and past the end of the words.
ghost use Rattle.std.specs.Prelude.{◌≡◌, ◌<◌, ◌+◌, ◌*◌, ◌^◌, All};
ghost use Rattle.tsdb_turn.specs.Passes.{IsOutside};

use crate::ledger::{Entry, Ledger, has_all_in_order};
use std::alloc::{AllocError, Global};
use std::sync::Wait;
use std::thread::Threads;
use std::time::{Clock, Duration};
use std::{hint, thread};
use tsdb_turn::{Pass, Turn};

// The first ticket is so many before the words of a turn pass 2^64.
const BEFORE_THE_END: u32 = 500;

// Whether a pass pauses before it enters and while it is inside.
#[derive(Clone, Copy)]
pub enum Pauses {
    Never,
    AtRandom,
}

// Enters as often, and adds an entry each time.
fn take_turns<R: Wait + Clock>(
    rt: &R,
    turn: &Turn<Ledger>,
    pass: &mut Pass<Ledger>,
    times: u32,
    pauses: Pauses,
)
    requires { IsOutside turn.now.id pass.old }
    ensures { IsOutside turn.now.id pass.new }
{
    let by = pass.number();
    let mut random = u64::from(by) + 88_172_645_463_325_252;
    for place in 0..times {
        random = next_random(random);
        pause(rt, pauses, random);
        let mut ledger = turn.enter(rt, pass);
        pause(rt, pauses, random >> 32);
        ledger.add(Entry { by, place });
        turn.leave(pass, ledger);
    }
}

// Numbers that look random (xorshift), each from the one before.
fn next_random(random: u64) -> u64 {
    let mut next = random;
    next ^= next << 13;
    next ^= next >> 7;
    next ^= next << 17;
    next
}

// Pauses one time of eight for some hundred rounds, one of 64 about as long as a pass looks before it sleeps, and one
// of 1,024 longer.
fn pause<R: Clock>(rt: &R, pauses: Pauses, random: u64) {
    match pauses {
        Pauses::Never => (),
        Pauses::AtRandom if random % 1_024 == 5 => thread::sleep(rt, Duration::from_millis(2)),
        Pauses::AtRandom if random % 64 == 7 => {
            for _ in 0..(random >> 20) % 512 {
                thread::yield_now();
            }
        }
        Pauses::AtRandom if random % 8 == 0 => {
            for _ in 0..(random >> 20) % 512 {
                hint::spin_loop();
            }
            thread::yield_now();
        }
        Pauses::AtRandom => (),
    }
}

// A thread for each pass, each of which enters so many times.
fn take_turns_in_threads<R: Threads + Wait + Clock + Sync>(
    rt: &R,
    turn: &Turn<Ledger>,
    passes: &mut [Pass<Ledger>],
    times: u32,
    pauses: Pauses,
)
    requires { All (IsOutside turn.now.id) passes.old }
    ensures { All (IsOutside turn.now.id) passes.new }
{
    let threads = passes.len().max(1);
    thread::for_each_mut(
        rt,
        passes,
        threads,
        &|_, pass| take_turns(rt, turn, pass, times, pauses),
    );
}

// Enters as often, and leaves the value as it is.
fn pass_by<R: Wait>(rt: &R, turn: &Turn<Ledger>, pass: &mut Pass<Ledger>, times: u32)
    requires { IsOutside turn.now.id pass.old }
    ensures { IsOutside turn.now.id pass.new }
{
    for _ in 0..times {
        let ledger = turn.enter(rt, pass);
        turn.leave(pass, ledger);
    }
}

// The first pass alone enters so many times.
fn first_passes_by<R: Wait>(rt: &R, turn: &Turn<Ledger>, passes: &mut [Pass<Ledger>], times: u32)
    requires { All (IsOutside turn.now.id) passes.old }
    ensures { All (IsOutside turn.now.id) passes.new }
{
    if let Some(first) = passes.first_mut() {
        pass_by(rt, turn, first, times);
    }
}

// The first pass alone enters so many times, and then all enter in threads.
fn take_all_turns<R: Threads + Wait + Clock + Sync>(
    rt: &R,
    turn: &Turn<Ledger>,
    passes: &mut [Pass<Ledger>],
    tickets: u32,
    times: u32,
    pauses: Pauses,
)
    requires outside { All (IsOutside turn.now.id) passes.old }
    ensures { All (IsOutside turn.now.id) passes.new }
{
    first_passes_by(rt, turn, passes, tickets);
    take_turns_in_threads(rt, turn, passes, times, pauses);
}

// Whether all entries are there in order, where the threads begin after so many tickets.
pub fn ends_in_order<R: Threads + Wait + Clock + Sync>(
    rt: &R,
    alloc: Global,
    passes: u32,
    times: u32,
    tickets: u32,
    pauses: Pauses,
) -> Result<bool, AllocError>
    requires some { 0 < passes }
    requires few { passes * times < 2 ^ 32 }
{
    let ledger = Ledger::with_room(alloc, passes as usize * times as usize)?;
    let Ok((turn, mut all)) = Turn::new(alloc, ledger, passes) else {
        return Ok(false);
    };
    take_all_turns(rt, &turn, all.as_mut_slice(), tickets, times, pauses);
    let ledger = turn.close(all);
    Ok(has_all_in_order(ledger.entries.as_slice(), passes, times))
}

#[test]
fn two_passes_enter_once_and_the_value_comes_back(rt: HostRuntime) {
    assert!(rt; ends_in_order(&rt, rt.alloc(), 2, 1, 0, Pauses::Never) == Ok(true));
}

#[test]
fn threads_enter_ten_thousand_times(rt: HostRuntime) {
    assert!(rt; ends_in_order(&rt, rt.alloc(), 1, 10_000, 0, Pauses::Never) == Ok(true));
    assert!(rt; ends_in_order(&rt, rt.alloc(), 2, 10_000, 0, Pauses::Never) == Ok(true));
    assert!(rt; ends_in_order(&rt, rt.alloc(), 3, 10_000, 0, Pauses::Never) == Ok(true));
    assert!(rt; ends_in_order(&rt, rt.alloc(), 8, 10_000, 0, Pauses::Never) == Ok(true));
}

#[test]
fn tickets_pass_the_end_of_their_words(rt: HostRuntime) {
    let last = BEFORE_THE_END;
    assert!(rt; ends_in_order(&rt, rt.alloc(), 3, 1_000, last, Pauses::Never) == Ok(true));
    assert!(rt; ends_in_order(&rt, rt.alloc(), 3, 1_000, last - 1, Pauses::Never) == Ok(true));
    assert!(rt; ends_in_order(&rt, rt.alloc(), 3, 1_000, 0, Pauses::Never) == Ok(true));
}
