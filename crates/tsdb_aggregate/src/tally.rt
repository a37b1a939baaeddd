//! What an aggregate has come to: a count, and the one value or the sum that is asked for. It depends on `tsdb_base`.
ghost use Rattle.std.specs.Prelude.{◌≡◌, ◌∷◌, ◌++◌, [], List, IfOk, IsTrue, None, if◌then◌else◌, option_copied};
ghost use Rattle.tsdb_base.specs.declared.point.Point.{Point};
ghost use Rattle.tsdb_model.specs.Folds as folds;
ghost use Rattle.tsdb_stats.specs.Statistics.{AreStatsOf};
ghost use Rattle.tsdb_stats.specs.Steps.{join_options, number_in, plus};
ghost use Rattle.tsdb_base.specs.declared.answers.Aggregate.{Aggregate};
ghost use Rattle.tsdb_aggregate.specs.Pieces as pieces;
ghost use Rattle.tsdb_aggregate.specs.Steps.{IsChosen, IsSettledTally, IsTally, answer_of, kept_value};

use tsdb_base::{Aggregate, Figure, Memory, Point, Stats, Value};

/// A value that is lent by statistics, or that was taken from a point.
#[derive(Drop)]
pub enum Kept<'a> {
    Nothing,
    Lent(&'a Value),
    Own(Value),
}

/// What an aggregate has come to. Only what it asks for is kept, and the value of statistics is lent.
#[derive(Drop)]
pub struct Tally<'a> {
    count: u64,
    kept: Kept<'a>,
    sum: Option<i128>,
}

/// Whether statistics answer an aggregate. They may lack the sum.
pub fn has_asked(name: Aggregate, stats: &Stats) -> bool
    ensures { result ≡ pieces.has_asked name stats.now }
{
    match name {
        Aggregate::Sum => stats.sum.is_some(),
        _ => true,
    }
}

/// The number that a value is, if it is one.
fn number(value: &Value) -> Option<i64>
    ensures { result ≡ folds.as_number value.now }
{
    match value {
        Value::I32(number) => Some(i64::from(*number)),
        Value::I64(number) => Some(*number),
        Value::Bool(_) | Value::Text(_) => None,
    }
}

/// Whether both are numbers, and the first is less than the second.
fn is_less(a: &Value, b: &Value) -> bool
    ensures { result ≡ folds.is_less a.now b.now }
{
    match (number(a), number(b)) {
        (Some(a), Some(b)) => a < b,
        _ => false,
    }
}

impl Kept<'_> {
    /// The value, if there is one.
    fn value(&self) -> Option<&Value>
        ensures { option_copied result ≡ kept_value self.now }
    {
        match self {
            Kept::Nothing => None,
            Kept::Lent(value) => Some(*value),
            Kept::Own(value) => Some(value),
        }
    }

    /// Whether the value of later points takes this one's place.
    fn loses_to(&self, name: Aggregate, later: &Kept<'_>) -> bool
        ensures { IsChosen name (kept_value self.now) (kept_value later.now) result }
    {
        match (self.value(), later.value()) {
            (None, _) => true,
            (Some(_), None) => false,
            (Some(a), Some(b)) => match name {
                Aggregate::Count | Aggregate::FirstValue | Aggregate::MinTime => false,
                Aggregate::Sum => false,
                Aggregate::LastValue | Aggregate::MaxTime => true,
                Aggregate::MinValue => is_less(b, a),
                Aggregate::MaxValue => is_less(a, b),
            },
        }
    }
}

/// A value that is a number, and else nothing.
fn if_number<'a>(value: Value) -> Kept<'a>
    ensures { kept_value result ≡ number_in value }
{
    match number(&value) {
        Some(_) => Kept::Own(value),
        None => Kept::Nothing,
    }
}

/// The number that a value is, if it is one and a sum is asked for.
fn summand(name: Aggregate, value: &Value) -> Option<i128>
    ensures { name ≡ Aggregate.Sum → result ≡ folds.as_number value.now }
{
    if name != Aggregate::Sum {
        return None;
    }
    match number(value) {
        Some(number) => Some(i128::from(number)),
        None => None,
    }
}

/// The sum that statistics have, if it is asked for.
fn stats_sum(name: Aggregate, stats: &Stats) -> Option<i128>
    ensures { name ≡ Aggregate.Sum → result ≡ stats.now.sum }
{
    if name != Aggregate::Sum {
        return None;
    }
    stats.sum
}

/// Both sums together, each if there is one. What 128 bits do not hold is out of memory.
fn add(sum: Option<i128>, later: Option<i128>) -> Result<Option<i128>, Memory>
    ensures { IfOk result (λ both. both ≡ join_options plus sum later) }
{
    match (sum, later) {
        (Some(sum), Some(later)) => match sum.checked_add(later) {
            Some(both) => Ok(Some(both)),
            None => Err(Memory),
        },
        (None, other) | (other, None) => Ok(other),
    }
}

/// What statistics lend, if there is a value.
fn lend(value: &Option<Value>) -> Kept<'_>
    ensures { kept_value result ≡ value.now }
{
    match value {
        Some(value) => Kept::Lent(value),
        None => Kept::Nothing,
    }
}

impl<'a> Tally<'a> {
    /// The tally of no points.
    pub fn new() -> Tally<'a>
        ensures { (name : Aggregate) → IsTally name [] result }
    {
        Tally {
            count: 0,
            kept: Kept::Nothing,
            sum: None,
        }
    }

    /// The tally of one point.
    pub fn of_point(name: Aggregate, point: Point) -> Tally<'a>
        ensures { IsTally name (point ∷ []) result }
    {
        let sum = summand(name, &point.value);
        let kept = match name {
            Aggregate::Count | Aggregate::Sum => Kept::Nothing,
            Aggregate::FirstValue | Aggregate::LastValue => Kept::Own(point.value),
            Aggregate::MinValue | Aggregate::MaxValue => if_number(point.value),
            Aggregate::MinTime | Aggregate::MaxTime => Kept::Own(Value::I64(point.time)),
        };
        Tally {
            count: 1,
            kept,
            sum,
        }
    }

    /// The tally of points from their statistics, where these answer the aggregate.
    pub fn of_stats(name: Aggregate, stats: &'a Stats) -> Tally<'a>
        ensures { (points : List Point) → AreStatsOf points stats.now → IsTrue (pieces.has_asked name stats.now) →
            IsTally name points result }
    {
        let sum = stats_sum(name, stats);
        let kept = match name {
            Aggregate::Count => Kept::Nothing,
            Aggregate::FirstValue => Kept::Lent(&stats.first),
            Aggregate::LastValue => Kept::Lent(&stats.last),
            Aggregate::MinValue => lend(&stats.least),
            Aggregate::MaxValue => lend(&stats.greatest),
            Aggregate::MinTime => Kept::Own(Value::I64(stats.start)),
            Aggregate::MaxTime => Kept::Own(Value::I64(stats.end)),
            Aggregate::Sum => Kept::Nothing,
        };
        Tally {
            count: stats.count,
            kept,
            sum,
        }
    }

    /// Adds the tally of later points. A count of 2^64 or more is out of memory, and so is a sum beyond 128 bits.
    pub fn join(&mut self, name: Aggregate, later: Tally<'a>) -> Result<(), Memory>
        ensures { IfOk result (λ _. (xs ys : List Point) →
            IsTally name xs self.old → IsTally name ys later.entry → IsTally name (xs ++ ys) self.new) }
    {
        let Some(count) = self.count.checked_add(later.count) else {
            return Err(Memory);
        };
        self.sum = add(self.sum, later.sum)?;
        self.count = count;
        if self.kept.loses_to(name, &later.kept) {
            self.kept = later.kept;
        }
        Ok(())
    }

    /// Whether no later point changes it.
    pub fn is_settled(&self, name: Aggregate) -> bool
        ensures { IsTrue result → IsSettledTally name self.now }
    {
        match name {
            Aggregate::FirstValue | Aggregate::MinTime => self.kept.value().is_some(),
            _ => false,
        }
    }

    /// The aggregate. One value that was lent is copied. A count of 2^63 or more is out of memory.
    pub fn answer(self, name: Aggregate) -> Result<Option<Figure>, Memory>
        ensures { IfOk result (λ answer. answer ≡ answer_of name self.entry) }
    {
        if name == Aggregate::Count {
            return match i64::try_from(self.count) {
                Ok(count) => Ok(Some(Figure::Value(Value::I64(count)))),
                Err(_) => Err(Memory),
            };
        }
        if name == Aggregate::Sum {
            return match self.sum {
                Some(sum) => Ok(Some(Figure::Sum(sum))),
                None => Ok(None),
            };
        }
        match self.kept {
            Kept::Nothing => Ok(None),
            Kept::Lent(value) => Ok(Some(Figure::Value(value.copy()?))),
            Kept::Own(value) => Ok(Some(Figure::Value(value))),
        }
    }
}
