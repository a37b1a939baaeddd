//! The speed of puts into pairs, each with the room for its point made before it. It depends on `tsdb_memtable`.

use crate::bench::{Bench, Unit};
use crate::numbers::next;
use std::alloc::Global;
use tsdb_base::{Memory, Point, SeriesId, Time, Value};
use tsdb_memtable::{Pair, Watermarks};
use tsdb_path::Path;

/// The points of a pair.
const PAIR: u64 = 10_000;

/// Times in order, 10 apart. Where some are late, each fifth stands up to 1,000 places behind its own, at a time
/// that no other has there.
fn times(bench: &mut Bench, are_some_late: bool) -> Vec<Time> {
    let mut times = Vec::new(bench.alloc());
    let mut seed = 7u64;
    for place in 0..PAIR {
        seed = next(seed);
        let late = if are_some_late && place % 5 == 4 {
            1 + 2 * ((seed >> 32) % 500)
        } else {
            0
        };
        let time = place.saturating_sub(late) * 10 + late % 10;
        bench.push(&mut times, time.cast_signed());
    }
    times
}

/// Fills a pair, and says how many bytes it has.
fn fill(
    alloc: Global,
    watermarks: &Watermarks,
    device: &Path,
    times: &[Time],
) -> Result<u64, Memory> {
    let series = SeriesId(1);
    let mut pair = Pair::new(alloc);
    for time in times {
        let point = Point {
            time: *time,
            value: Value::I64(*time),
        };
        pair.reserve(series, 1)?;
        pair.put(watermarks, device, series, point);
    }
    Ok(pair.bytes())
}

/// The row of pairs of a device with points at such times.
fn put_row(bench: &mut Bench, device: &Path, what: &str, are_some_late: bool) {
    let alloc = bench.alloc();
    let times = times(bench, are_some_late);
    let watermarks = Watermarks::new(alloc);
    let pairs = bench.rounds(100);
    bench.start();
    for _ in 0..pairs {
        bench.note(fill(alloc, &watermarks, device, &times));
    }
    bench.row(what, "put", pairs.saturating_mul(PAIR), Unit::Millions);
}

/// The rows of the pairs.
pub fn memtable(bench: &mut Bench) {
    let alloc = bench.alloc();
    if let Some(device) = bench.ok(Path::read(alloc, b"root.g.d")) {
        let what = "pairs of 10,000 points in order of time";
        put_row(bench, &device, what, false);
        let what = "the same, 20 % late by up to 1,000 places";
        put_row(bench, &device, what, true);
    }
}
