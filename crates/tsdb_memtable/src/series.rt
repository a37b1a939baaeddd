//! The points of one series in both spaces, with room for more. It depends on `points`.
ghost use Rattle.std.specs.Prelude.{◌≡◌, ◌==◌, ◌+◌, ◌*◌, ◌<◌, ◌≤◌, length, OnOk, OnErr};
ghost use Rattle.tsdb_base.specs.Limits.{max_point_bytes};
ghost use Rattle.tsdb_memtable.specs.Limits.{max_bytes};
ghost use Rattle.tsdb_base.specs.Points.{IsRising};
ghost use Rattle.tsdb_base.specs.declared.ids.Space.{Space as SpaceOf};
ghost use Rattle.tsdb_memtable.specs.Pairs.{IsProvided, blank, without_range, points_in, put_in, series_bytes};
ghost use Rattle.tsdb_memtable.specs.Model.{most_bytes, totals_of, with_room};

use crate::points;
use std::alloc::Global;
use std::marker::Model;
use tsdb_base::{Memory, Point, Range, Space};

/// How many points are in each space, how many bytes they count together, and for how many more there is room.
#[derive(Clone, Copy)]
pub(crate) struct Totals {
    pub(crate) sequence: u64,
    pub(crate) unsequence: u64,
    pub(crate) bytes: u64,
    pub(crate) spare: u64,
}

/// The points of a series in each space, in order of time, with room for more in both. A contract sees the points and
/// for how many more there is room.
#[derive(Drop)]
pub(crate) struct SeriesPoints {
    sequence: Vec<Point>,
    unsequence: Vec<Point>,
    bytes: u64,
    spare: usize,
}

impl Model for SeriesPoints {
    ghost use Rattle.tsdb_memtable.specs.Pairs.{SeriesPoints};

    ghost Value = { SeriesPoints };

    ghost use Rattle.tsdb_memtable.specs.Model.{points_view, ArePointsKept};

    ghost view = { points_view };

    ghost invariant = { ArePointsKept };
}

impl SeriesPoints {
    /// No point, and no room.
    pub(crate) fn new(alloc: Global) -> SeriesPoints
        ensures { result ≡ blank }
    {
        SeriesPoints {
            sequence: Vec::new(alloc),
            unsequence: Vec::new(alloc),
            bytes: 0,
            spare: 0,
        }
    }

    /// How much there is.
    pub(crate) fn totals(&self) -> Totals
        ensures { result ≡ totals_of self.now }
    {
        Totals {
            sequence: self.sequence.len() as u64,
            unsequence: self.unsequence.len() as u64,
            bytes: self.bytes,
            spare: self.spare as u64,
        }
    }

    /// Makes room for so many more points in each space.
    pub(crate) fn reserve(&mut self, cells: u64) -> Result<(), Memory>
        requires { most_bytes self.old + cells * max_point_bytes ≤ max_bytes }
        ensures ok { OnOk result (self.new ≡ with_room cells self.old) }
        ensures memory { OnErr result (self.new ≡ self.old) }
    {
        let spare = self.spare + cells as usize;
        self.sequence.reserve(spare)?;
        self.unsequence.reserve(spare)?;
        self.spare = spare;
        Ok(())
    }

    /// Makes room for one more point in each space, where there is none.
    pub(crate) fn provide(&mut self) -> Result<(), Memory>
        requires { most_bytes self.old + max_point_bytes ≤ max_bytes }
        ensures points { (space : SpaceOf) → points_in space self.new ≡ points_in space self.old }
        ensures spare { IsProvided self.old.spare self.new.spare }
        ensures room { OnOk result (0 < self.new.spare) }
        ensures most { most_bytes self.new ≤ most_bytes self.old + max_point_bytes }
    {
        if self.spare > 0 {
            return Ok(());
        }
        self.reserve(1)
    }

    /// Puts the point into the space, in place of one at its time. It takes no memory.
    pub(crate) fn put(&mut self, space: Space, point: Point)
        requires { 0 < self.old.spare }
        ensures value { self.new ≡ put_in space point self.old }
        ensures most { most_bytes self.new ≤ most_bytes self.old }
    {
        let bytes = points::point_bytes(&point);
        let replaced = match space {
            Space::Sequence => points::put(&mut self.sequence, point),
            Space::Unsequence => points::put(&mut self.unsequence, point),
        };
        self.spare -= 1;
        self.bytes = self.bytes + bytes - replaced;
    }

    /// Removes the points of both spaces in the range.
    pub(crate) fn erase(&mut self, range: &Range)
        ensures value { self.new ≡ without_range range.now self.old }
        ensures most { most_bytes self.new ≤ most_bytes self.old }
    {
        let sequence_bytes = points::erase(&mut self.sequence, range);
        self.bytes -= sequence_bytes + points::erase(&mut self.unsequence, range);
    }

    /// Whether no point is in the space.
    pub(crate) fn is_empty(&self, space: Space) -> bool
        ensures { result ≡ (length (points_in space self.now) == 0) }
    {
        match space {
            Space::Sequence => self.sequence.is_empty(),
            Space::Unsequence => self.unsequence.is_empty(),
        }
    }

    /// The points of the space.
    pub(crate) fn all(&self, space: Space) -> &[Point]
        ensures points { result.now ≡ points_in space self.now }
        ensures rising { IsRising result.now }
    {
        match space {
            Space::Sequence => self.sequence.as_slice(),
            Space::Unsequence => self.unsequence.as_slice(),
        }
    }
}
