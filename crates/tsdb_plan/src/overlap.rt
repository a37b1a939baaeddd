//! The order of hulls, and whether two files overlap in time on some device. It depends on `entry`.
ghost use Rattle.std.specs.Prelude.{◌↔◌, ◌≤ℤ◌, All, Any, IsTrue};
ghost use Rattle.tsdb_plan.specs.Files.{AreHullsRising, HaveRisingHulls};
ghost use Rattle.tsdb_plan.specs.Steps.{Reaches};

use crate::entry::{FileEntry, Hull};
use std::cmp::Ordering;
use tsdb_base::Time;

/// Whether there is one hull for each device, in order of device bytes.
fn are_rising(hulls: &[Hull]) -> bool
    ensures { IsTrue result ↔ AreHullsRising hulls.now }
{
    for i in 1..hulls.len() {
        match hulls[i - 1].device.cmp(&hulls[i].device) {
            Ordering::Less => {}
            Ordering::Equal | Ordering::Greater => return false,
        }
    }
    true
}

/// Whether each file has one hull for each of its devices, in order of device bytes.
pub fn have_rising_hulls(files: &[FileEntry]) -> bool
    ensures { IsTrue result ↔ HaveRisingHulls files.now }
{
    files.iter().all(|file| are_rising(file.hulls.items()))
}

/// Whether the hull ends at or after the start of the other.
fn ends_from(hull: &Hull, other: &Hull) -> bool
    ensures { IsTrue result ↔ (other.now.from ≤ℤ hull.now.to) }
{
    other.from <= hull.to
}

/// Whether, on some device of both, `late` has a time at or above the least time of `early`. Both lists are in order
/// of device bytes and are walked side by side.
pub fn reaches(late: &[Hull], early: &[Hull]) -> bool
    requires late { AreHullsRising late.now }
    requires early { AreHullsRising early.now }
    ensures { IsTrue result ↔ Reaches late.now early.now }
{
    let mut xs = late;
    let mut ys = early;
    while let ([x, xs_rest @ ..], [y, ys_rest @ ..]) = (xs, ys) {
        match x.device.cmp(&y.device) {
            Ordering::Less => xs = xs_rest,
            Ordering::Greater => ys = ys_rest,
            Ordering::Equal => {
                if ends_from(x, y) {
                    return true;
                }
                xs = xs_rest;
                ys = ys_rest;
            }
        }
    }
    false
}

/// The earlier of two times.
fn earlier(time: Time, other: Time) -> Time
    ensures first { result ≤ℤ time }
    ensures second { result ≤ℤ other }
{
    time.min(other)
}

/// The later of two times.
fn later(time: Time, other: Time) -> Time
    ensures first { time ≤ℤ result }
    ensures second { other ≤ℤ result }
{
    time.max(other)
}

/// A time that none of the hulls begins before.
pub fn least_time(hulls: &[Hull]) -> Time
    ensures { All (λ hull. result ≤ℤ hull.from) hulls.now }
{
    let mut least = Time::MAX;
    for hull in hulls {
        least = earlier(least, hull.from);
    }
    least
}

/// A time that none of the hulls ends behind.
pub fn greatest_time(hulls: &[Hull]) -> Time
    ensures { All (λ hull. hull.to ≤ℤ result) hulls.now }
{
    let mut greatest = Time::MIN;
    for hull in hulls {
        greatest = later(greatest, hull.to);
    }
    greatest
}

/// As `reaches`, where no hull of `early` begins before the time `least`. A file that has no time from `least` on is
/// told by its times alone, without a look at its devices.
pub fn reaches_from(late: &[Hull], early: &[Hull], least: Time) -> bool
    requires late { AreHullsRising late.now }
    requires early { AreHullsRising early.now }
    requires least { All (λ hull. least ≤ℤ hull.from) early.now }
    ensures { IsTrue result ↔ Reaches late.now early.now }
{
    late.iter().any(|hull| hull.to >= least) && reaches(late, early)
}

/// As `reaches`, where no hull of `late` ends behind the time `greatest`.
pub fn reaches_up_to(late: &[Hull], early: &[Hull], greatest: Time) -> bool
    requires late { AreHullsRising late.now }
    requires early { AreHullsRising early.now }
    requires greatest { All (λ hull. hull.to ≤ℤ greatest) late.now }
    ensures { IsTrue result ↔ Reaches late.now early.now }
{
    early.iter().any(|hull| hull.from <= greatest) && reaches(late, early)
}
