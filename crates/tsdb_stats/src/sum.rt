//! The sum of the values that are numbers.
ghost use Rattle.std.specs.Prelude.{◌≡◌, ◌^◌};
ghost use Rattle.tsdb_model.specs.Folds.{as_number, sum_of as sum_in};
ghost use Rattle.tsdb_stats.specs.Statistics.{IsJoinedSum};
ghost use Rattle.tsdb_stats.specs.Steps.{IsSumWithin, join_options, plus};

use tsdb_base::{Point, Value};

/// The number that a value is, if it is one.
fn number(value: &Value) -> Option<i128>
    ensures is { result ≡ as_number value.now }
    ensures within { IsSumWithin 1 result }
{
    match value {
        Value::I32(number) => Some(i128::from(*number)),
        Value::I64(number) => Some(i128::from(*number)),
        Value::Bool(_) | Value::Text(_) => None,
    }
}

/// A number added to the sum of those before it, each if there is one.
fn add(sum: Option<i128>, number: Option<i128>) -> Option<i128>
    requires sum { IsSumWithin (2 ^ 63) sum }
    requires number { IsSumWithin 1 number }
    ensures { result ≡ join_options plus sum number }
{
    match (sum, number) {
        (Some(sum), Some(number)) => Some(sum + number),
        (None, other) | (other, None) => other,
    }
}

/// The sum of the values that are numbers, if one is. Fewer than 2^64 values of 64 bits do not come to more than 128.
pub fn sum_of(points: &[Point]) -> Option<i128>
    ensures { result ≡ sum_in points.now }
{
    let mut sum = None;
    for point in points {
        sum = add(sum, number(&point.value));
    }
    sum
}

/// Both sums together, where both are there and 128 bits hold it.
pub fn join_sums(left: Option<i128>, right: Option<i128>) -> Option<i128>
    ensures { IsJoinedSum left right result }
{
    let (left, right) = (left?, right?);
    left.checked_add(right)
}
