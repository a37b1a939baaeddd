//! Which points of a series a stream keeps. It depends on `tsdb_base`, `tsdb_path`, `tsdb_marks` and `tsdb_state`.
ghost use Rattle.std.specs.Prelude.{◌≡◌, ◌++◌, OnOk};
ghost use Rattle.tsdb_model.specs.World.{is_in};
ghost use Rattle.tsdb_streams.specs.KeptPoints.{is_kept, kept, stats_range as times};

use tsdb_base::{Memory, Point, Range, Stamp, Stats, Time};
use tsdb_marks::Marks;
use tsdb_path::Path;

/// The points of a series in a range that no mark deletes.
#[derive(Clone, Copy, Drop)]
pub(crate) struct Kept<'a> {
    pub series: &'a Path,
    pub range: Range,
    pub marks: &'a Marks,
}

/// Whether the range has the time.
pub(crate) fn contains(range: &Range, time: Time) -> bool
    ensures { result ≡ is_in range.now time }
{
    range.from <= time && time <= range.to
}

/// The times from the start to the end of statistics.
pub(crate) fn times_of(stats: &Stats) -> Range
    ensures { result ≡ times stats.now }
{
    Range {
        from: stats.start,
        to: stats.end,
    }
}

impl Kept<'_> {
    /// Whether the point is kept of a source that was born so.
    pub(crate) fn keeps(&self, born: Stamp, point: &Point) -> bool
        ensures { result ≡ is_kept self.now.series.now self.now.range self.now.marks.now.marks born.0 point.now }
    {
        contains(&self.range, point.time) && self.marks.survives(self.series, point.time, born)
    }

    /// Leaves the points that are kept.
    pub(crate) fn retain(&self, born: Stamp, points: &mut Vec<Point>)
        ensures { points.new.items
            ≡ kept self.now.series.now self.now.range self.now.marks.now.marks born.0 points.old.items }
    {
        points.retain(|point| self.keeps(born, point));
    }

    /// Adds copies of the points that are kept.
    pub(crate) fn copy(
        &self,
        born: Stamp,
        points: &[Point],
        into: &mut Vec<Point>,
    ) -> Result<(), Memory>
        ensures { OnOk result (into.new.items ≡ into.old.items
            ++ kept self.now.series.now self.now.range self.now.marks.now.marks born.0 points.now) }
    {
        for point in points {
            if self.keeps(born, point) {
                into.push(Point {
                    time: point.time,
                    value: point.value.copy()?,
                })?;
            }
        }
        Ok(())
    }
}
