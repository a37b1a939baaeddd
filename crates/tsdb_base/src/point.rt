//! Points, ranges of time, and what is kept of a list of points. Depends on `value`.
ghost use Rattle.std.specs.Prelude.{◌≡◌, IfOk};

use crate::fault::Memory;
use crate::value::Value;
use std::alloc::Global;

/// A moment, in whatever unit the devices use.
pub type Time = i64;

/// A value at a time.
#[derive(Debug, PartialEq, Eq, Drop)]
pub struct Point {
    pub time: Time,
    pub value: Value,
}

impl Point {
    /// The same point once more.
    pub fn copy(&self) -> Result<Point, Memory>
        ensures { IfOk result (λ copy. copy ≡ self.now) }
    {
        Ok(Point {
            time: self.time,
            value: self.value.copy()?,
        })
    }
}

/// The same points once more.
pub fn copy_points(alloc: Global, points: &[Point]) -> Result<Vec<Point>, Memory>
    ensures { IfOk result (λ copy. copy.items ≡ points.now) }
{
    let mut copy = Vec::with_capacity(alloc, points.len())?;
    for place in 0..points.len() {
        copy.push(points[place].copy()?)?;
    }
    Ok(copy)
}

/// The times from `from` to `to`, both included. It is empty where `from` is greater than `to`.
#[derive(Clone, Copy, Debug, PartialEq, Eq)]
pub struct Range {
    pub from: Time,
    pub to: Time,
}

/// What is kept of a list of points of one type in the order of their times. `least` and
/// `greatest` are there exactly for numbers. `sum` is there for numbers alone, and may be missing.
#[derive(Debug, PartialEq, Eq, Drop)]
pub struct Stats {
    pub count: u64,
    pub start: Time,
    pub end: Time,
    pub first: Value,
    pub last: Value,
    pub least: Option<Value>,
    pub greatest: Option<Value>,
    pub sum: Option<i128>,
}

impl Stats {
    /// The same statistics once more.
    pub fn copy(&self) -> Result<Stats, Memory>
        ensures { IfOk result (λ copy. copy ≡ self.now) }
    {
        Ok(Stats {
            count: self.count,
            start: self.start,
            end: self.end,
            first: self.first.copy()?,
            last: self.last.copy()?,
            least: copy_option(&self.least)?,
            greatest: copy_option(&self.greatest)?,
            sum: self.sum,
        })
    }
}

/// The same value once more, if there is one.
fn copy_option(value: &Option<Value>) -> Result<Option<Value>, Memory>
    ensures { IfOk result (λ copy. copy ≡ value.now) }
{
    match value {
        Some(value) => Ok(Some(value.copy()?)),
        None => Ok(None),
    }
}
