//! What an aggregate takes from points in order of time. Depends on nothing else here.

ghost use Rattle.std.specs.Prelude.{◌≡◌, ◌<◌, ◌^◌, IfOk, length, option_map};
ghost use Rattle.std.specs.Option.{option_copied};
ghost use Rattle.std.specs.List.{reduce};
ghost use Rattle.tsdb_model.specs.Folds as folds;
ghost use Rattle.tsdb_base.specs.declared.answers.Figure.{Figure};
ghost use Rattle.tsdb_map.specs.Model.{add_number, better, points_of_entries};

use std::collections::btree_map;
use tsdb_base::{Figure, Memory, Time, Value};

/// The number that a value is, if it is one.
fn number_of(value: &Value) -> Option<i64>
    ensures { result ≡ folds.as_number value.now }
{
    match value {
        Value::I32(number) => Some(i64::from(*number)),
        Value::I64(number) => Some(*number),
        Value::Bool(_) | Value::Text(_) => None,
    }
}

/// Both are numbers, and the first is less.
fn is_less(a: &Value, b: &Value) -> bool
    ensures { result ≡ folds.is_less a.now b.now }
{
    match (number_of(a), number_of(b)) {
        (Some(a), Some(b)) => a < b,
        _ => false,
    }
}

/// How many points there are.
pub fn count_points(points: btree_map::Range<'_, Time, Value>) -> usize
    requires { length points < 2 ^ 63 }
    ensures { result ≡ length points.entry }
{
    let mut count = 0;
    for _ in points {
        count += 1;
    }
    count
}

/// The value of a point, if there is one.
pub fn value(point: Option<(&Time, &Value)>) -> Result<Option<Value>, Memory>
    ensures { IfOk result (λ value. value ≡ option_map (λ p. p.1.now) point.entry) }
{
    match point {
        None => Ok(None),
        Some((_, value)) => Ok(Some(value.copy()?)),
    }
}

/// The time of a point, if there is one.
pub fn time(point: Option<(&Time, &Value)>) -> Option<Value>
    ensures { result ≡ option_map (λ p. Value.I64 p.0.now) point.entry }
{
    match point {
        None => None,
        Some((time, _)) => Some(Value::I64(*time)),
    }
}

/// The least number among the values.
pub fn least_number(points: btree_map::Range<'_, Time, Value>) -> Result<Option<Value>, Memory>
    ensures { IfOk result (λ value. value ≡ reduce folds.lesser_value (folds.numbers (points_of_entries points.entry))) }
{
    let mut least: Option<&Value> = None;
    for (_, value) in points {
        least = lesser(least, value);
    }
    copy_option(least)
}

/// The greatest number among the values.
pub fn greatest_number(points: btree_map::Range<'_, Time, Value>) -> Result<Option<Value>, Memory>
    ensures { IfOk result (λ value. value ≡ reduce folds.greater (folds.numbers (points_of_entries points.entry))) }
{
    let mut greatest: Option<&Value> = None;
    for (_, value) in points {
        greatest = greater(greatest, value);
    }
    copy_option(greatest)
}

/// The sum of the values that are numbers. So few do not come to more than 128 bits hold, which would be out of memory.
pub fn sum(points: btree_map::Range<'_, Time, Value>) -> Result<Option<i128>, Memory>
    ensures { IfOk result (λ sum. sum ≡ folds.sum_of (points_of_entries points.entry)) }
{
    let mut sum = None;
    for (_, value) in points {
        sum = add(sum, number_of(value))?;
    }
    Ok(sum)
}

/// The sum and a number, each if there is one.
fn add(sum: Option<i128>, number: Option<i64>) -> Result<Option<i128>, Memory>
    ensures { IfOk result (λ both. both ≡ add_number sum number) }
{
    match (sum, number) {
        (sum, None) => Ok(sum),
        (None, Some(number)) => Ok(Some(i128::from(number))),
        (Some(sum), Some(number)) => match sum.checked_add(i128::from(number)) {
            Some(both) => Ok(Some(both)),
            None => Err(Memory),
        },
    }
}

/// What a sum is as a figure, if there is one.
pub fn sum_figure(sum: Option<i128>) -> Option<Figure>
    ensures { result ≡ option_map Figure.Sum sum }
{
    match sum {
        None => None,
        Some(sum) => Some(Figure::Sum(sum)),
    }
}

/// What a value is as a figure, if there is one.
pub fn value_figure(value: Option<Value>) -> Option<Figure>
    ensures { result ≡ option_map Figure.Value value }
{
    match value {
        None => None,
        Some(value) => Some(Figure::Value(value)),
    }
}

/// The lesser of two numbers, of which the first may not be there; another value is passed over.
fn lesser<'a>(least: Option<&'a Value>, value: &'a Value) -> Option<&'a Value>
    ensures { option_copied result
        ≡ better folds.lesser_value (folds.as_number value.now) (option_copied least.entry) value.now }
{
    if number_of(value).is_none() {
        return least;
    }
    match least {
        None => Some(value),
        Some(least) => Some(if is_less(value, least) { value } else { least }),
    }
}

/// The greater of two numbers, of which the first may not be there; another value is passed over.
fn greater<'a>(greatest: Option<&'a Value>, value: &'a Value) -> Option<&'a Value>
    ensures { option_copied result
        ≡ better folds.greater (folds.as_number value.now) (option_copied greatest.entry) value.now }
{
    if number_of(value).is_none() {
        return greatest;
    }
    match greatest {
        None => Some(value),
        Some(greatest) => Some(if is_less(greatest, value) {
            value
        } else {
            greatest
        }),
    }
}

/// The same value once more, if there is one.
pub fn copy_option(value: Option<&Value>) -> Result<Option<Value>, Memory>
    ensures { IfOk result (λ copy. copy ≡ option_copied value.entry) }
{
    match value {
        None => Ok(None),
        Some(value) => Ok(Some(value.copy()?)),
    }
}
