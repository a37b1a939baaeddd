//! The speed of deletion marks. It depends on `tsdb_marks`.
ghost use Rattle.std.specs.Prelude.{◌<◌, length};

use crate::bench::{Bench, Unit};
use crate::names;
use crate::numbers::next;
use std::alloc::Global;
use tsdb_base::{Memory, Range, Stamp, Time};
use tsdb_marks::{Mark, Marks};
use tsdb_path::Path;

/// How many marks are added.
const MARKS: u64 = 1_000_000;

/// How many series have marks, where there are many.
const SERIES: u32 = 10_000;

/// How the ranges of marks lie.
#[derive(Clone, Copy)]
enum Ranges {
    /// Anywhere.
    Random,
    /// Each behind the one before.
    Rising,
}

/// A time of 24 bits.
fn time_of(seed: u64) -> Time {
    (seed >> 40).cast_signed()
}

/// The range of a mark, of up to 256 times.
fn range_of(ranges: Ranges, done: u64, seed: u64) -> Range {
    let from = match ranges {
        Ranges::Random => time_of(seed),
        Ranges::Rising => done.wrapping_mul(16).cast_signed(),
    };
    let to = from.saturating_add(((seed >> 8) % 256).cast_signed());
    Range { from, to }
}

/// The paths of so many series.
fn paths(bench: &mut Bench, count: u32) -> Vec<Path> {
    let alloc = bench.alloc();
    let mut paths = Vec::new(alloc);
    for number in 0..count {
        let path = names::path(bench, format!(in alloc; "root.g.d.s{number:04}"));
        bench.put(&mut paths, path);
    }
    paths
}

/// One of the paths.
fn path_of(paths: &[Path], seed: u64) -> &Path
    requires { 0 < length paths.now }
{
    &paths[(seed >> 20) as usize % paths.len()]
}

/// So many marks.
fn add(alloc: Global, paths: &[Path], ranges: Ranges, count: u64) -> Result<Marks, Memory>
    requires { 0 < length paths.now }
{
    let mut marks = Marks::new(alloc);
    let mut seed = 7u64;
    for done in 0..count {
        seed = next(seed);
        let Ok(path) = path_of(paths, seed).copy() else {
            return Err(Memory);
        };
        let range = range_of(ranges, done, seed);
        marks.reserve()?;
        marks.add(Mark {
            path,
            from: range.from,
            to: range.to,
            version: Stamp(done + 1),
        });
    }
    Ok(marks)
}

/// How many of so many points survive.
fn count_survivors(marks: &Marks, paths: &[Path], count: u64) -> u64
    requires { 0 < length paths.now }
{
    let mut survivors = 0u64;
    let mut seed = 11u64;
    for _ in 0..count {
        seed = next(seed);
        let survives = marks.survives(
            path_of(paths, seed),
            time_of(seed),
            Stamp((seed >> 16) % MARKS),
        );
        survivors = survivors.wrapping_add(u64::from(survives));
    }
    survivors
}

/// Adds marks of these series, asks for points, and takes those of one series.
fn measure(bench: &mut Bench, what: &str, paths: &[Path], ranges: Ranges) {
    if paths.is_empty() {
        return;
    }
    let alloc = bench.alloc();
    let count = bench.rounds(MARKS);
    bench.start();
    if let Some(marks) = bench.ok(add(alloc, paths, ranges, count)) {
        bench.row(what, "add", count, Unit::Millions);
        bench.start();
        bench.require(count_survivors(&marks, paths, count) <= count);
        bench.row(what, "survives", count, Unit::Millions);
        bench.start();
        if let Some(only) = bench.ok(marks.only(&paths[..1])) {
            bench.row(what, "only", only.marks().len() as u64, Unit::Millions);
        }
    }
}

/// The rows of the marks.
pub fn marks(bench: &mut Bench) {
    let one = paths(bench, 1);
    let what = "1,000,000 marks on one series";
    measure(bench, what, &one, Ranges::Random);
    let what = "1,000,000 rising marks on one series";
    measure(bench, what, &one, Ranges::Rising);
    let many = paths(bench, SERIES);
    let what = "1,000,000 marks on 10,000 series";
    measure(bench, what, &many, Ranges::Random);
}
