//! Columns of points, merged by time into rows.
ghost use Rattle.std.specs.Prelude as std;
ghost use Rattle.std.specs.Prelude.{◌≡◌, ◌↔◌, IfOk, IsTrue, map};
ghost use Rattle.tsdb_model.specs.Folds as folds;
ghost use Rattle.tsdb_model.specs.World.{PointMap};
ghost use Rattle.tsdb_pins.specs.Rows.{BeginsAt, IsFirstTime, IsTakenAt, IsTimeOfFirst, TakesLine, earlier_of};
ghost use Rattle.tsdb_pins.specs.Rows.{lists_of, vec_lists};

use std::alloc::Global;
use std::collections::VecDeque;
use tsdb_base::{List, Memory, Point, Time, Value};
use tsdb_model::Line;

/// The points of a column that are left.
type Column = VecDeque<Point>;

/// The time of a column's first point, if one is left.
fn first_of(column: &Column) -> Option<Time>
    ensures { IsTimeOfFirst column.now.items result }
{
    match column.front() {
        Some(point) => Some(point.time),
        None => None,
    }
}

/// The earlier of two times.
fn earlier(first: Option<Time>, other: Option<Time>) -> Option<Time>
    ensures { result ≡ earlier_of first other }
{
    let Some(time) = first else {
        return other;
    };
    match other {
        Some(before) if before < time => other,
        _ => first,
    }
}

/// The least time of the first points, if a point is left.
fn first_time(columns: &[Column]) -> Option<Time>
    ensures { IsFirstTime (lists_of columns.now) result }
{
    let mut first = None;
    for column in columns {
        first = earlier(first, first_of(column));
    }
    first
}

/// Whether the first point is at the time.
fn begins_at(column: &Column, time: Time) -> bool
    ensures { IsTrue result ↔ BeginsAt time column.now.items }
{
    match first_of(column) {
        Some(first) => first == time,
        None => false,
    }
}

/// Takes the first point where it is at the time, which is that of no later point.
fn take_at(column: &mut Column, time: Time) -> Option<Value>
    ensures { IsTakenAt time column.old.items result column.new.items }
{
    if !begins_at(column, time) {
        return None;
    }
    match column.pop_front() {
        Some(point) => Some(point.value),
        None => None,
    }
}

/// Takes what the columns have at a time as one line.
fn take_line(alloc: Global, columns: &mut Vec<Column>, time: Time) -> Result<Line, Memory>
    ensures { IfOk result (λ line. TakesLine time (lists_of columns.old.items) line (lists_of columns.new.items)) }
{
    let mut values = Vec::with_capacity(alloc, columns.len())?;
    for index in 0..columns.len() {
        values.push(take_at(&mut columns[index], time))?;
    }
    Ok(Line {
        time,
        values: List::of(values),
    })
}

/// The columns, to be taken from.
fn open(alloc: Global, columns: Vec<Vec<Point>>) -> Result<Vec<Column>, Memory>
    ensures { IfOk result (λ opened. lists_of opened.items ≡ vec_lists columns.items) }
{
    let mut opened = Vec::with_capacity(alloc, columns.len())?;
    for column in columns {
        opened.push(VecDeque::from(column))?;
    }
    Ok(opened)
}

/// The rows of columns, each of which has its points in order of time.
pub fn rows_of(alloc: Global, columns: Vec<Vec<Point>>) -> Result<Vec<Line>, Memory>
    ensures rows { IfOk result (λ lines. (points : std.List PointMap)
        → vec_lists columns.items ≡ map folds.in_order points → lines.items ≡ folds.rows points) }
{
    let mut left = open(alloc, columns)?;
    let mut lines = Vec::new(alloc);
    while let Some(time) = first_time(&left) {
        lines.push(take_line(alloc, &mut left, time)?)?;
    }
    Ok(lines)
}
