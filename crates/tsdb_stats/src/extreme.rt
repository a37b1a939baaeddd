//! The least and the greatest of the values that are numbers.
ghost use Rattle.std.specs.Prelude.{◌≡◌, option_map};
ghost use Rattle.std.specs.List.{reduce};
ghost use Rattle.tsdb_model.specs.Folds.{is_less, lesser_value, greater, numbers};
ghost use Rattle.tsdb_stats.specs.Steps.{as_value, join_options, number_in};

use tsdb_base::{Point, Value};

/// A value that is a number.
#[derive(Clone, Copy, Drop)]
pub enum Number {
    I32(i32),
    I64(i64),
}

impl Number {
    /// The number as a value.
    pub fn value(self) -> Value
        ensures { result ≡ as_value self }
    {
        match self {
            Number::I32(number) => Value::I32(number),
            Number::I64(number) => Value::I64(number),
        }
    }

    /// The number that a value is, if it is one.
    pub fn of(value: &Value) -> Option<Number>
        ensures { option_map as_value result ≡ number_in value.now }
    {
        match value {
            Value::I32(number) => Some(Number::I32(*number)),
            Value::I64(number) => Some(Number::I64(*number)),
            Value::Bool(_) | Value::Text(_) => None,
        }
    }

    /// Whether the number is less than the other.
    fn is_less(self, other: Number) -> bool
        ensures { result ≡ is_less (as_value self) (as_value other) }
    {
        match (self, other) {
            (Number::I64(a), Number::I64(b)) => a < b,
            (Number::I32(a), Number::I32(b)) => a < b,
            (Number::I32(a), Number::I64(b)) => i64::from(a) < b,
            (Number::I64(a), Number::I32(b)) => a < i64::from(b),
        }
    }
}

/// The lesser of two, where both are there, and else the one that is. Of equal ones it is the first.
pub fn lesser_of(a: Option<Number>, b: Option<Number>) -> Option<Number>
    ensures { option_map as_value result ≡ join_options lesser_value (option_map as_value a) (option_map as_value b) }
{
    match (a, b) {
        (Some(a), Some(b)) => Some(if b.is_less(a) { b } else { a }),
        (None, other) | (other, None) => other,
    }
}

/// The greater of two, where both are there, and else the one that is. Of equal ones it is the first.
pub fn greater_of(a: Option<Number>, b: Option<Number>) -> Option<Number>
    ensures { option_map as_value result ≡ join_options greater (option_map as_value a) (option_map as_value b) }
{
    match (a, b) {
        (Some(a), Some(b)) => Some(if a.is_less(b) { b } else { a }),
        (None, other) | (other, None) => other,
    }
}

/// The least of the values that are numbers.
pub fn least_of(points: &[Point]) -> Option<Number>
    ensures { option_map as_value result ≡ reduce lesser_value (numbers points.now) }
{
    let mut least = None;
    for point in points {
        least = lesser_of(least, Number::of(&point.value));
    }
    least
}

/// The greatest of the values that are numbers.
pub fn greatest_of(points: &[Point]) -> Option<Number>
    ensures { option_map as_value result ≡ reduce greater (numbers points.now) }
{
    let mut greatest = None;
    for point in points {
        greatest = greater_of(greatest, Number::of(&point.value));
    }
    greatest
}
