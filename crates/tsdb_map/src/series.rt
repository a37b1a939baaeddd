//! A series: the type of its values, and its values by their times. Depends on `fold`.
ghost use Rattle.std.specs.Prelude.{◌≡◌, ◌<◌, ◌^◌, ◌||◌, ℤ, IfOk, OnOk, OnErr, IsOk, IsNone, IsSome, ◌⊎◌, is_some};
ghost use Rattle.std.specs.Prelude.{length, true, false};
ghost use Rattle.std.specs.Ordering.{int_cmp};
ghost use Rattle.std.specs.FinMap as map;
ghost use Rattle.std.specs.BTreeSet as set;
ghost use Rattle.tsdb_model.specs.World.{cut, new_series};
ghost use Rattle.tsdb_model.specs.Folds.{aggregate_of, in_order, value_of_points, within};
ghost use Rattle.tsdb_map.specs.Model.{set_at};

use crate::fold;
use std::alloc::Global;
use std::collections::{BTreeMap, BTreeSet, btree_map};
use std::marker::Model;
use tsdb_base::{Aggregate, DataType, Figure, Memory, Range, Time, Value};

/// The type of a series' values, and its values by their times.
#[derive(Drop)]
pub struct Series {
    data_type: DataType,
    points: BTreeMap<Time, Value>,
}

impl Model for Series {
    ghost use Rattle.tsdb_model.specs.World as world;
    ghost use Rattle.tsdb_map.specs.Model.{series_code, series_view};
    ghost use Rattle.std.specs.Ordering.{int_cmp};
    ghost use Rattle.std.specs.BTreeMap.{IsOrdered};
    ghost use Rattle.tsdb_base.specs.contracts.value.Value as value;
    ghost use Rattle.tsdb_base.specs.contracts.value.DataType as kind;

    ghost Value = { world.Series };

    ghost coded = { series_code kind.the_row.coded value.the_row.coded };

    ghost view = { λ series. series_view series.data_type series.points };

    ghost invariant = { λ series. IsOrdered int_cmp series.points };
}

impl Series {
    /// A series without points.
    pub fn new(alloc: Global, data_type: DataType) -> Series
        ensures { result ≡ new_series data_type }
    {
        Series {
            data_type,
            points: BTreeMap::new(alloc),
        }
    }

    /// The type of its values.
    pub fn data_type(&self) -> DataType
        ensures { result ≡ self.now.data_type }
    {
        self.data_type
    }

    /// Puts a value at a time, or takes away the one that is there, and returns that one. Only a new time takes memory.
    pub fn set(&mut self, time: Time, value: Option<Value>) -> Result<Option<Value>, Memory>
        ensures set { OnOk result (self.new ≡ set_at time value self.old) }
        ensures old { IfOk result (λ old. old ≡ map.get self.old.points time) }
        ensures memory { OnErr result (self.new ≡ self.old) }
        ensures fits { IsNone value ⊎ IsSome (map.get self.old.points time) → IsOk result }
    {
        match value {
            None => Ok(self.points.remove(&time)),
            Some(value) => Ok(self.points.insert(time, value)?),
        }
    }

    /// Removes the times in the range.
    pub fn cut(&mut self, range: &Range)
        ensures { self.new ≡ cut range.now self.old }
    {
        while self.cut_first(range) {}
    }

    /// Removes the first time in the range, and says whether there was one.
    fn cut_first(&mut self, range: &Range) -> bool
        ensures same { cut range.now self.new ≡ cut range.now self.old }
        ensures fewer { result ≡ true → map.len self.new.points < map.len self.old.points }
        ensures none { result ≡ false → self.new ≡ cut range.now self.old }
    {
        let Some((time, _)) = self.points_in(range).next() else {
            return false;
        };
        let time = *time;
        self.points.remove(&time);
        true
    }

    /// The value at a time, if there is one and the range has the time.
    pub fn value_at(&self, range: &Range, time: Time) -> Result<Option<Value>, Memory>
        ensures { IfOk result (λ value. value ≡ map.get (within range.now self.now.points) time) }
    {
        let Range { from, to } = *range;
        if time < from {
            return Ok(None);
        }
        if to < time {
            return Ok(None);
        }
        fold::copy_option(self.points.get(&time))
    }

    /// The points in the range, in order of time.
    fn points_in(&self, range: &Range) -> btree_map::Range<'_, Time, Value>
        ensures points { result ≡ map.entries (within range.now self.now.points) }
        ensures fits { length result < 2 ^ 63 }
    {
        let Range { from, to } = *range;
        if from <= to {
            self.points.range(from..=to)
        } else {
            self.points.range(from..from)
        }
    }

    /// Adds the times in the range that have a value.
    pub fn add_times(&self, range: &Range, times: &mut BTreeSet<Time>) -> Result<(), Memory>
        ensures { OnOk result ((q : ℤ) → set.contains int_cmp times.new q
            ≡ (is_some (map.get (within range.now self.now.points) q) || set.contains int_cmp times.old q)) }
    {
        for (time, _) in self.points_in(range) {
            times.insert(*time)?;
        }
        Ok(())
    }

    /// An aggregate of the points in the range.
    pub fn aggregate(&self, aggregate: Aggregate, range: &Range) -> Result<Option<Figure>, Memory>
        ensures { IfOk result (λ figure. figure ≡ aggregate_of aggregate (in_order (within range.now self.now.points))) }
    {
        match aggregate {
            Aggregate::Sum => {
                let points = self.points_in(range);
                let sum = fold::sum(points)?;
                Ok(fold::sum_figure(sum))
            }
            _ => {
                let value = self.one_value(aggregate, range)?;
                Ok(fold::value_figure(value))
            }
        }
    }

    /// An aggregate of the points in the range that is a value; a sum is none.
    fn one_value(&self, aggregate: Aggregate, range: &Range) -> Result<Option<Value>, Memory>
        ensures { IfOk result (λ value. value ≡ value_of_points aggregate (in_order (within range.now self.now.points))) }
    {
        let mut points = self.points_in(range);
        match aggregate {
            Aggregate::Count => Ok(Some(Value::I64(fold::count_points(points) as i64))),
            Aggregate::FirstValue => fold::value(points.next()),
            Aggregate::LastValue => fold::value(points.next_back()),
            Aggregate::MinTime => Ok(fold::time(points.next())),
            Aggregate::MaxTime => Ok(fold::time(points.next_back())),
            Aggregate::MinValue => fold::least_number(points),
            Aggregate::MaxValue => fold::greatest_number(points),
            Aggregate::Sum => Ok(None),
        }
    }
}
