//! The rows of several series, merged by time. Depends on `series`.
ghost use Rattle.std.specs.Prelude.{◌≡◌, IfOk, map};
ghost use Rattle.tsdb_model.specs.Folds as folds;

use crate::series::Series;
use std::alloc::Global;
use std::collections::BTreeSet;
use tsdb_base::{List, Memory, Range, Time};
use tsdb_model::Line;

/// The rows of the columns: a line for each time in the range at which one has a value.
pub fn rows(alloc: Global, columns: &[&Series], range: &Range) -> Result<Vec<Line>, Memory>
    ensures { IfOk result (λ lines. lines.items
        ≡ folds.rows (map (λ column. folds.within range.now column.now.points) columns.now)) }
{
    let mut times = BTreeSet::new(alloc);
    for column in columns {
        column.add_times(range, &mut times)?;
    }
    let mut lines = Vec::with_capacity(alloc, times.len())?;
    for time in &times {
        lines.push(line_at(alloc, columns, range, *time)?)?;
    }
    Ok(lines)
}

/// What the columns have at a time, if it is in the range.
fn line_at(alloc: Global, columns: &[&Series], range: &Range, time: Time) -> Result<Line, Memory>
    ensures { IfOk result (λ line. line
        ≡ folds.line_at (map (λ column. folds.within range.now column.now.points) columns.now) time) }
{
    let mut values = Vec::with_capacity(alloc, columns.len())?;
    for column in columns {
        values.push(column.value_at(range, time)?)?;
    }
    Ok(Line {
        time,
        values: List::of(values),
    })
}
