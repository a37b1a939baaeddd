//! The statistics of points. Depends on `extreme` and `sum`.
ghost use Rattle.std.specs.Prelude.{◌≡◌, ◌≢◌, ◌+◌, ◌<◌, ◌^◌, List, ◌++◌, All, IfOk, IsOk, length};
ghost use Rattle.std.specs.Prelude.{is_some, option_and_then, option_map};
ghost use Rattle.tsdb_base.specs.declared.point.Point.{Point};
ghost use Rattle.tsdb_base.specs.Values.{type_of};
ghost use Rattle.tsdb_model.specs.Folds.{sum_of as sum_in};
ghost use Rattle.tsdb_stats.specs.Statistics.{AreStatsOf, IsJoinedSum};
ghost use Rattle.tsdb_stats.specs.Steps.{as_value, number_in};

use crate::extreme::{Number, greater_of, greatest_of, least_of, lesser_of};
use crate::sum::{join_sums, sum_of};
use tsdb_base::{DataType, Memory, Point, Stats, Value};

/// The number as a value, if there is one.
fn value_of(number: Option<Number>) -> Option<Value>
    ensures { result ≡ option_map as_value number }
{
    number.map(|number| number.value())
}

/// The statistics of points, of which there is one at least, in order of time. Where no value is a text, it takes no
/// memory.
pub fn stats_of(points: &[Point]) -> Result<Stats, Memory>
    requires { 0 < length points.now }
    ensures found { IfOk result (λ stats. AreStatsOf points.now stats) }
    ensures sum { IfOk result (λ stats. stats.sum ≡ sum_in points.now) }
    ensures fixed { All (λ point. type_of point.value ≢ DataType.Text) points.now → IsOk result }
{
    let first = &points[0];
    let last = &points[points.len() - 1];
    Ok(Stats {
        count: points.len() as u64,
        start: first.time,
        end: last.time,
        first: first.value.copy()?,
        last: last.value.copy()?,
        least: value_of(least_of(points)),
        greatest: value_of(greatest_of(points)),
        sum: sum_of(points),
    })
}

/// The least or the greatest of the two that a pair of statistics keeps, if there is one.
fn number(value: &Option<Value>) -> Option<Number>
    ensures { option_map as_value result ≡ option_and_then number_in value.now }
{
    value.as_ref().and_then(Number::of)
}

/// The statistics of two lists of points, one behind the other, from the statistics of each. Where no value is a
/// text, it takes no memory.
pub fn join(left: &Stats, right: &Stats) -> Result<Stats, Memory>
    requires { left.now.count + right.now.count < 2 ^ 64 }
    ensures found { IfOk result (λ stats. (before behind : List Point) →
        AreStatsOf before left.now → AreStatsOf behind right.now → AreStatsOf (before ++ behind) stats) }
    ensures sum { IfOk result (λ stats. IsJoinedSum left.now.sum right.now.sum stats.sum) }
    ensures fixed { type_of left.now.first ≢ DataType.Text → type_of right.now.last ≢ DataType.Text → IsOk result }
{
    let least = lesser_of(number(&left.least), number(&right.least));
    let greatest = greater_of(number(&left.greatest), number(&right.greatest));
    Ok(Stats {
        count: left.count + right.count,
        start: left.start,
        end: right.end,
        first: left.first.copy()?,
        last: right.last.copy()?,
        least: value_of(least),
        greatest: value_of(greatest),
        sum: join_sums(left.sum, right.sum),
    })
}

/// The statistics of both, as `join` gives them, with a sum exactly where the first have one. A count of 2^64 points is
/// out of memory; so is a sum that the second lack, or that 128 bits do not hold.
pub fn join_whole(left: &Stats, right: &Stats) -> Result<Stats, Memory>
    ensures found { IfOk result (λ stats. (before behind : List Point) →
        AreStatsOf before left.now → AreStatsOf behind right.now → AreStatsOf (before ++ behind) stats) }
    ensures sum { IfOk result (λ stats. is_some stats.sum ≡ is_some left.now.sum) }
{
    if left.count.checked_add(right.count).is_none() {
        return Err(Memory);
    }
    let stats = join(left, right)?;
    if stats.sum.is_some() != left.sum.is_some() {
        return Err(Memory);
    }
    Ok(stats)
}
