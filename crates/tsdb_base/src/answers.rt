//! What a select computes, and what a command answers where it returns no lines. Depends on `value`.
ghost use Rattle.std.specs.Prelude.{◌≡◌};
ghost use Rattle.tsdb_base.specs.Values as values;

use crate::value::Value;

/// What a select computes over the points of a series.
#[derive(Clone, Copy, Debug, PartialEq, Eq)]
pub enum Aggregate {
    Count,
    FirstValue,
    LastValue,
    MinValue,
    MaxValue,
    MinTime,
    MaxTime,
    Sum,
}

impl Aggregate {
    /// Whether only numbers have it.
    pub fn needs_numbers(self) -> bool
        ensures { result ≡ values.needs_numbers self }
    {
        matches!(
            self,
            Aggregate::MinValue | Aggregate::MaxValue | Aggregate::Sum
        )
    }
}

/// What an aggregate comes to. A sum of 64-bit values has 128 bits.
#[derive(Debug, PartialEq, Eq, Drop)]
pub enum Figure {
    Value(Value),
    Sum(i128),
}

/// What a command answers where it returns no lines.
#[derive(Clone, Copy, Debug, PartialEq, Eq)]
pub enum Answer {
    /// The command was executed.
    Done,
    /// A named series is not there.
    NoPath,
    /// A literal does not fit its series' type, or an aggregate does not.
    WrongType,
    /// The series is there already.
    Exists,
    /// The device that holds the store failed.
    Device,
    /// Out of memory.
    Memory,
    /// A number can rise no further; `counter` is where it stands.
    Full { counter: u64 },
}
