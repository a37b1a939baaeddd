//! The points that are in memory, of both spaces, by series. It depends on `points`, `series` and `watermarks`.
ghost use Rattle.std.specs.Prelude.{◌≡◌, ◌≢◌, ℕ, ◌+◌, ◌<◌, true, [], map, IfOk, OnOk, OnErr};
ghost use Rattle.std.specs.List.{filter};
ghost use Rattle.tsdb_base.specs.declared.ids.Space.{Space as SpaceOf};
ghost use Rattle.tsdb_base.specs.Points.{IsRising};
ghost use Rattle.tsdb_memtable.specs.Points.{is_point_within};
ghost use Rattle.tsdb_memtable.specs.Watermarks.{watermark, space_by};
ghost use Rattle.tsdb_memtable.specs.Pairs.{byte_count, change_points, space_count, HasRisingSeries, without_range};
ghost use Rattle.tsdb_memtable.specs.Pairs.{UsesSpareRoom, points_of, put_in, spare_of, table};
ghost use Rattle.tsdb_memtable.specs.PairModel.{CanSwap, IsSwap, HasRoomFor};

use crate::points;
use crate::series::{SeriesPoints, Totals};
use crate::watermarks::{Watermarks, space_of};
use std::alloc::Global;
use std::collections::BTreeMap;
use std::marker::Model;
use tsdb_base::limits::MAX_POINT_BYTES;
use tsdb_base::{Memory, Point, Range, SeriesId, Space};
use tsdb_path::Path;

/// The points of each series in the sequence space and in the unsequence space, in order of time, with room for more.
/// A contract sees the series that have points or room, in order of their numbers, each with its points in both spaces
/// and for how many more there is room in either.
#[derive(Drop)]
pub struct Pair {
    alloc: Global,
    series: BTreeMap<u64, SeriesPoints>,
    totals: Totals,
}

impl Model for Pair {
    ghost use Rattle.tsdb_memtable.specs.Pairs.{Pair};

    ghost Value = { Pair };

    ghost use Rattle.tsdb_memtable.specs.PairModel.{IsPairKept};

    ghost view = { λ pair. pair.series.entries };

    ghost invariant = { IsPairKept };
}

/// Whether the bytes are counted without passing 64 bits, when all room and so many points more are used.
fn has_room(totals: &Totals, cells: u64) -> bool
    ensures { result ≡ true → HasRoomFor totals.now cells }
{
    let spare = u128::from(totals.spare) + u128::from(cells);
    u128::from(totals.bytes) + spare * u128::from(MAX_POINT_BYTES) <= u128::from(u64::MAX)
}

/// The totals, where those of one series have become others.
fn swap(totals: &Totals, before: &Totals, after: &Totals) -> Totals
    requires { CanSwap totals.now before.now after.now }
    ensures { IsSwap totals.now before.now after.now result }
{
    Totals {
        sequence: totals.sequence - before.sequence + after.sequence,
        unsequence: totals.unsequence - before.unsequence + after.unsequence,
        bytes: totals.bytes - before.bytes + after.bytes,
        spare: totals.spare - before.spare + after.spare,
    }
}

impl Pair {
    /// No point, and no room.
    pub fn new(alloc: Global) -> Pair
        ensures { result ≡ [] }
    {
        Pair {
            alloc,
            series: BTreeMap::new(alloc),
            totals: Totals {
                sequence: 0,
                unsequence: 0,
                bytes: 0,
                spare: 0,
            },
        }
    }

    /// How many points are in the space.
    pub fn points(&self, space: Space) -> u64
        ensures count { result ≡ space_count space self.now }
        ensures rising { HasRisingSeries self.now }
    {
        match space {
            Space::Sequence => self.totals.sequence,
            Space::Unsequence => self.totals.unsequence,
        }
    }

    /// How many bytes the points of both spaces count: each 8 for its time, and 1, 4, 8 or the text's length for its
    /// value.
    pub fn bytes(&self) -> u64
        ensures count { result ≡ byte_count self.now }
        ensures rising { HasRisingSeries self.now }
    {
        self.totals.bytes
    }

    /// It does nothing, and tells what always holds of a pair.
    pub fn sound(&self)
        ensures { HasRisingSeries self.now }
    {
        // (a type's invariant is at hand where a field is used)
        let _ = &self.series;
    }

    /// For how many more points of the series there is room, in either space.
    pub fn spare(&self, series: SeriesId) -> u64
        ensures { result ≡ spare_of series.0 self.now }
    {
        match self.series.get(&series.0) {
            Some(points) => points.totals().spare,
            None => 0,
        }
    }

    /// Makes room for so many more points of the series, in either space.
    pub fn reserve(&mut self, series: SeriesId, cells: u64) -> Result<(), Memory>
        ensures tables { (space : SpaceOf) → table space self.new ≡ table space self.old }
        ensures points { (space : SpaceOf) (other : ℕ)
            → points_of space other self.new ≡ points_of space other self.old }
        ensures ok { OnOk result (spare_of series.0 self.new ≡ spare_of series.0 self.old + cells) }
        ensures memory { OnErr result (spare_of series.0 self.new ≡ spare_of series.0 self.old) }
        ensures others { (other : ℕ) → series.0 ≢ other → spare_of other self.new ≡ spare_of other self.old }
    {
        if !has_room(&self.totals, cells) {
            return Err(Memory);
        }
        match self.series.get_mut(&series.0) {
            Some(points) => {
                let before = points.totals();
                points.reserve(cells)?;
                self.totals = swap(&self.totals, &before, &points.totals());
            }
            None => {
                let mut points = SeriesPoints::new(self.alloc);
                let before = points.totals();
                points.reserve(cells)?;
                let after = points.totals();
                self.series.insert(series.0, points)?;
                self.totals = swap(&self.totals, &before, &after);
            }
        }
        Ok(())
    }

    /// Makes room for one more point of the series, in either space, where there is none.
    pub fn provide(&mut self, series: SeriesId) -> Result<(), Memory>
        ensures points { (space : SpaceOf) (other : ℕ)
            → points_of space other self.new ≡ points_of space other self.old }
        ensures spare { UsesSpareRoom self.old self.new }
        ensures room { OnOk result (0 < spare_of series.0 self.new) }
    {
        if !has_room(&self.totals, 1) {
            return Err(Memory);
        }
        match self.series.get_mut(&series.0) {
            Some(points) => {
                let before = points.totals();
                let outcome = points.provide();
                self.totals = swap(&self.totals, &before, &points.totals());
                outcome
            }
            None => self.reserve(series, 1),
        }
    }

    /// Puts the point into the space that the watermark of the device names, in place of one at its time there, and
    /// returns the space. It takes no memory.
    pub fn put(
        &mut self,
        marks: &Watermarks,
        device: &Path,
        series: SeriesId,
        point: Point,
    ) -> Space
        requires { 0 < spare_of series.0 self.old }
        ensures space { result ≡ space_by (watermark marks.now device.now) point.time }
        ensures pair { self.new ≡ change_points series.0 (put_in result point) self.old }
    {
        let space = space_of(marks.get(device), point.time);
        self.put_at(space, series, point);
        space
    }

    /// Puts the point into this space, in place of one at its time there. The caller has looked up the watermark, once
    /// for all points of a row. It takes no memory.
    pub fn put_at(&mut self, space: Space, series: SeriesId, point: Point)
        requires { 0 < spare_of series.0 self.old }
        ensures { self.new ≡ change_points series.0 (put_in space point) self.old }
    {
        let Some(points) = self.series.get_mut(&series.0) else {
            unreachable!()
        };
        let before = points.totals();
        points.put(space, point);
        self.totals = swap(&self.totals, &before, &points.totals());
    }

    /// Removes the points of the series in the range, from both spaces. It takes no memory.
    pub fn erase(&mut self, series: SeriesId, range: &Range)
        ensures { self.new ≡ change_points series.0 (without_range range.now) self.old }
    {
        let Some(points) = self.series.get_mut(&series.0) else {
            return;
        };
        let before = points.totals();
        points.erase(range);
        self.totals = swap(&self.totals, &before, &points.totals());
    }

    /// All points of the series in the space, in order of time. It takes no memory.
    pub fn points_of(&self, space: Space, series: SeriesId) -> &[Point]
        ensures points { result.now ≡ points_of space series.0 self.now }
        ensures rising { IsRising result.now }
    {
        match self.series.get(&series.0) {
            Some(points) => points.all(space),
            None => &[],
        }
    }

    /// The points of the series in the space and the range, in order of time. It takes no memory.
    pub fn slice(&self, space: Space, series: SeriesId, range: &Range) -> &[Point]
        ensures points { result.now ≡ filter (is_point_within range.now) (points_of space series.0 self.now) }
        ensures rising { IsRising (points_of space series.0 self.now) }
    {
        points::slice(self.points_of(space, series), range)
    }

    /// The series that have a point in the space, in order of their numbers.
    pub fn series(&self, space: Space) -> Result<Vec<SeriesId>, Memory>
        ensures { IfOk result (λ all. map (λ id. id.0) all.items ≡ map (λ entry. entry.0) (table space self.now)) }
    {
        let mut all = Vec::new(self.alloc);
        for (series, points) in &self.series {
            if !points.is_empty(space) {
                all.push(SeriesId(*series))?;
            }
        }
        Ok(all)
    }
}
