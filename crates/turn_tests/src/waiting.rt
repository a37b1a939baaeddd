//! A pass that waits uses no processor, and is woken when its turn comes: these tests end only where no wake is lost.
ghost use Rattle.std.specs.Prelude.{All};
ghost use Rattle.tsdb_turn.specs.Passes.{IsOutside};

use crate::ledger::Ledger;
use crate::order::{Pauses, ends_in_order};
use std::sync::Wait;
use std::sync::atomic::{AtomicU64, Ordering};
use std::thread::Threads;
use std::time::{Clock, Duration};
use std::{fs, thread};
use tsdb_turn::{Pass, Turn};

#[test]
fn two_threads_with_pauses_lose_no_wake(rt: HostRuntime) {
    assert!(rt; ends_in_order(&rt, rt.alloc(), 2, 50_000, 0, Pauses::AtRandom) == Ok(true));
}

#[test]
fn eight_threads_with_pauses_lose_no_wake(rt: HostRuntime) {
    assert!(rt; ends_in_order(&rt, rt.alloc(), 8, 12_500, 0, Pauses::AtRandom) == Ok(true));
}

// The nanoseconds that this thread ran so far, as the system counts them. 0: it does not say.
fn processor_time(rt: &HostRuntime) -> u64 {
    let Ok(text) = fs::read_to_string(rt, "/proc/thread-self/schedstat") else {
        return 0;
    };
    text.split(' ')
        .next()
        .and_then(|first| first.parse().ok())
        .unwrap_or(0)
}

// Holds the turn for a second from the moment on at which it says so in `step`.
fn hold<R: Wait + Clock>(rt: &R, turn: &Turn<Ledger>, pass: &mut Pass<Ledger>, step: &AtomicU64)
    requires { IsOutside turn.now.id pass.old }
    ensures { IsOutside turn.now.id pass.new }
{
    let ledger = turn.enter(rt, pass);
    step.store(1, Ordering::SeqCst);
    thread::sleep(rt, Duration::from_secs(1));
    turn.leave(pass, ledger);
}

// Enters while the other pass holds the turn, and says how many nanoseconds it ran meanwhile.
fn wait_for_it<R: Wait + Clock>(
    host: &HostRuntime,
    rt: &R,
    turn: &Turn<Ledger>,
    pass: &mut Pass<Ledger>,
    step: &AtomicU64,
) -> u64
    requires { IsOutside turn.now.id pass.old }
    ensures { IsOutside turn.now.id pass.new }
{
    for _ in rt.forever() {
        if step.load(Ordering::SeqCst) == 1 {
            break;
        }
        thread::sleep(rt, Duration::from_millis(1));
    }
    let before = processor_time(host);
    let ledger = turn.enter(rt, pass);
    let after = processor_time(host);
    turn.leave(pass, ledger);
    after.saturating_sub(before)
}

// What the second of two passes ran while the first held the turn for a second. The greatest number: memory ran out.
fn ran_while_it_waited<R: Threads + Wait + Clock + Sync>(host: &HostRuntime, rt: &R) -> u64 {
    let Ok(ledger) = Ledger::with_room(host.alloc(), 0) else {
        return u64::MAX;
    };
    let Ok((turn, mut all)) = Turn::new(host.alloc(), ledger, 2) else {
        return u64::MAX;
    };
    let step = AtomicU64::new(0);
    let ran = AtomicU64::new(0);
    meet(host, rt, &turn, all.as_mut_slice(), &step, &ran);
    turn.close(all);
    ran.load(Ordering::SeqCst)
}

// The first pass holds the turn, and the second waits for it.
fn meet<R: Threads + Wait + Clock + Sync>(
    host: &HostRuntime,
    rt: &R,
    turn: &Turn<Ledger>,
    passes: &mut [Pass<Ledger>],
    step: &AtomicU64,
    ran: &AtomicU64,
)
    requires { All (IsOutside turn.now.id) passes.old }
    ensures { All (IsOutside turn.now.id) passes.new }
{
    thread::for_each_mut(
        rt,
        passes,
        2,
        &|_, pass| take_part(host, rt, turn, pass, step, ran),
    );
}

fn take_part<R: Wait + Clock>(
    host: &HostRuntime,
    rt: &R,
    turn: &Turn<Ledger>,
    pass: &mut Pass<Ledger>,
    step: &AtomicU64,
    ran: &AtomicU64,
)
    requires { IsOutside turn.now.id pass.old }
    ensures { IsOutside turn.now.id pass.new }
{
    if pass.number() == 0 {
        hold(rt, turn, pass, step);
    } else {
        ran.store(wait_for_it(host, rt, turn, pass, step), Ordering::SeqCst);
    }
}

#[test]
fn a_pass_that_waits_a_second_runs_less_than_a_tenth_of_it(rt: HostRuntime) {
    let ran = ran_while_it_waited(&rt, &rt);
    assert!(rt; 0 < ran && ran < 100_000_000, "it ran {ran} nanoseconds");
}
