//! The range of times that the conditions of a `where` leave. Depends on `words`, `syntax` and `fault`.
ghost use Rattle.std.specs.Prelude.{◌≡◌, ◌≤ℤ◌, ◌↔◌, ℤ, FitsSigned, IfOk, IfErr, true};
ghost use Rattle.std.specs.Int.{w64};
ghost use Rattle.std.specs.List.{AllByRecursion};
ghost use Rattle.tsdb_model.specs.World.{is_in};
ghost use Rattle.tsdb_script.specs.Meaning.{Compares, HasBadWord, IsGood, IsRangeOf, condition_roles};
ghost use Rattle.tsdb_script.specs.Steps.{FaultsWith, HasRangeForm};

use crate::fault::LineFault;
use crate::syntax::{Comparison, Condition};
use crate::words::number;
use tsdb_base::{Range, Time};

/// All times.
const ALL: Range = Range {
    from: Time::MIN,
    to: Time::MAX,
};

/// No time.
const EMPTY: Range = Range {
    from: Time::MAX,
    to: Time::MIN,
};

/// The range from one time to another, which is empty where the first is the later one.
fn between(from: Time, to: Time) -> Range
    ensures times { (time : ℤ) → FitsSigned w64 time → (is_in result time ≡ true) ↔ ((from ≤ℤ time) × (time ≤ℤ to)) }
    ensures form { HasRangeForm result }
{
    if from <= to {
        Range { from, to }
    } else {
        EMPTY
    }
}

/// The times that compare so to a number.
fn bounds_of(comparison: Comparison, number: i64) -> Range
    ensures times { (time : ℤ) → FitsSigned w64 time → (is_in result time ≡ true) ↔ Compares comparison time number }
    ensures form { HasRangeForm result }
{
    match comparison {
        Comparison::Less if number == Time::MIN => EMPTY,
        Comparison::Less => between(Time::MIN, number - 1),
        Comparison::LessEqual => between(Time::MIN, number),
        Comparison::Greater if number == Time::MAX => EMPTY,
        Comparison::Greater => between(number + 1, Time::MAX),
        Comparison::GreaterEqual => between(number, Time::MAX),
        Comparison::Equal => between(number, number),
    }
}

/// The times that both ranges have.
fn intersection(a: Range, b: Range) -> Range
    ensures times { (time : ℤ) → FitsSigned w64 time →
        (is_in result time ≡ true) ↔ ((is_in a time ≡ true) × (is_in b time ≡ true)) }
    ensures form { HasRangeForm result }
{
    between(a.from.max(b.from), a.to.min(b.to))
}

/// The range of the times that meet all conditions.
pub fn range_of(conditions: &[Condition]) -> Result<Range, LineFault>
    ensures found { IfOk result (IsRangeOf conditions.now) }
    ensures good { IfOk result (λ _. AllByRecursion IsGood (condition_roles conditions.now)) }
    ensures bad { IfErr result (FaultsWith (HasBadWord (condition_roles conditions.now))) }
{
    let mut range = ALL;
    for condition in conditions {
        let number = number(&condition.number)?;
        range = intersection(range, bounds_of(condition.comparison, number));
    }
    Ok(range)
}
