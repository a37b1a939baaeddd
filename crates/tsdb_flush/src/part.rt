//! A file in the making, series by series, with what will be kept of it. Depends on `building`, `hulls` and `names`.
ghost use Rattle.std.specs.Prelude.{◌≡◌, ◌↔◌, ◌≤◌, ◌<◌, List as ListOf, [], ◌∷◌, ◌++◌};
ghost use Rattle.std.specs.Prelude.{IsTrue, true, length, IfOk, OnOk};
ghost use Rattle.std.specs.List.{AllByRecursion as Each};
ghost use Rattle.tsdb_base.specs.Values.{is_suitable, type_of};
ghost use Rattle.tsdb_base.specs.declared.point.Point.{Point as PointOf};
ghost use Rattle.tsdb_flush.specs.Making.{IsSeriesOpen, IsPartInMaking, MayAdd, MayPut};
ghost use Rattle.tsdb_flush.specs.MakingSteps.{AreFrom, ComeBefore, filled_with};
ghost use Rattle.tsdb_model.specs.declared.command.Schema.{Schema as SchemaOf};
ghost use Rattle.tsdb_flush.specs.BuiltFile.{IsFileEntryOf, IsFileOf, paths_of};
ghost use Rattle.tsdb_flush.specs.Parts.{Filled};
ghost use Rattle.tsdb_base.specs.Points.{IsRising};
ghost use Rattle.tsdb_path.specs.Nodes.{node_count};

use crate::building::{begin, finish, put_point, put_points};
use crate::hulls::{add_span, add_times};
use crate::names::device_of;
use std::alloc::Global;
use tsdb_base::{FileNumber, List, Memory, Point, Stamp, Time};
use tsdb_model::Schema;
use tsdb_path::Path;
use tsdb_plan::{FileEntry, Hull};
use tsfile_writer::Builder;

/// A file in the making: its bytes so far, and of its series so far how many points they have, the hulls of their
/// devices, and their paths.
#[derive(Drop)]
pub struct PartBuilder {
    builder: Builder,
    points: u64,
    hulls: Vec<Hull>,
    series: Vec<Path>,
}

/// A file that is whole, with what will be kept of it.
#[derive(Drop)]
pub struct Whole {
    pub bytes: Vec<u8>,
    pub entry: FileEntry,
    pub series: List<Path>,
}

impl PartBuilder {
    /// No series so far.
    pub fn new(alloc: Global) -> PartBuilder
        ensures { IsPartInMaking [] result }
    {
        PartBuilder {
            builder: Builder::new(alloc),
            points: 0,
            hulls: Vec::new(alloc),
            series: Vec::new(alloc),
        }
    }

    /// Adds a series with its points, which comes behind those before in the order of a tree.
    pub(crate) fn add(&mut self, schema: &Schema, points: &[Point]) -> Result<(), Memory>
        requires nodes { 2 ≤ node_count schema.now.path }
        requires suits { is_suitable schema.now.data_type schema.now.encoding ≡ true }
        requires some { 0 < length points.now }
        requires typed { Each (λ point. type_of point.value ≡ schema.now.data_type) points.now }
        requires rising { IsRising points.now }
        requires follows { MayAdd self.old schema.now }
        ensures ok { OnOk result ((part : ListOf Filled) → IsPartInMaking part self.old → ComeBefore part schema.now
            → IsPartInMaking (part ++ filled_with schema.now points.now ∷ []) self.new) }
    {
        let Some(total) = self.points.checked_add(points.len() as u64) else {
            return Err(Memory);
        };
        begin(&mut self.builder, schema)?;
        put_points(&mut self.builder, points)?;
        add_times(&mut self.hulls, device_of(&schema.path)?, points)?;
        self.series.push(schema.path.copy()?)?;
        self.points = total;
        Ok(())
    }

    /// Whether it has no series.
    pub fn is_empty(&self) -> bool
        ensures { (part : ListOf Filled) → IsPartInMaking part self.now → IsTrue result ↔ (part ≡ []) }
    {
        self.series.is_empty()
    }

    /// Begins a series, which comes behind those before in the order of a tree, to give it points one by one.
    pub fn begin(&mut self, schema: &Schema) -> Result<(), Memory>
        requires nodes { 2 ≤ node_count schema.now.path }
        requires suits { is_suitable schema.now.data_type schema.now.encoding ≡ true }
        requires follows { MayAdd self.old schema.now }
        ensures ok { OnOk result ((part : ListOf Filled) → IsPartInMaking part self.old → ComeBefore part schema.now
            → IsSeriesOpen part schema.now [] self.new) }
    {
        begin(&mut self.builder, schema)?;
        Ok(())
    }

    /// Gives the series that was begun a point of its type, later than its points before.
    pub fn put(&mut self, point: Point) -> Result<(), Memory>
        requires { MayPut point self.old }
        ensures ok { OnOk result ((part : ListOf Filled) (schema : SchemaOf) (points : ListOf PointOf) →
            IsSeriesOpen part schema points self.old → IsSeriesOpen part schema (points ++ point ∷ []) self.new) }
    {
        put_point(&mut self.builder, point)?;
        Ok(())
    }

    /// Ends the series that was begun, which was given so many points, from the one time to the other.
    pub fn end(&mut self, schema: &Schema, count: u64, from: Time, to: Time) -> Result<(), Memory>
        requires nodes { 2 ≤ node_count schema.now.path }
        requires open { (part : ListOf Filled) × (points : ListOf PointOf)
            × IsSeriesOpen part schema.now points self.old
            × (length points ≡ count) × AreFrom points from to }
        ensures ok { OnOk result ((part : ListOf Filled) (points : ListOf PointOf) →
            IsSeriesOpen part schema.now points self.old → (length points ≡ count) → AreFrom points from to
            → IsPartInMaking (part ++ filled_with schema.now points ∷ []) self.new) }
    {
        let Some(total) = self.points.checked_add(count) else {
            return Err(Memory);
        };
        add_span(&mut self.hulls, device_of(&schema.path)?, from, to)?;
        self.series.push(schema.path.copy()?)?;
        self.points = total;
        Ok(())
    }

    /// The file of a part that has a series.
    pub fn finish(self, number: FileNumber, born: Stamp) -> Result<Whole, Memory>
        requires { (part : ListOf Filled) × IsPartInMaking part self × (0 < length part) }
        ensures bytes { IfOk result (λ whole. (part : ListOf Filled) → IsPartInMaking part self
            → IsFileOf part whole.bytes.items) }
        ensures entry { IfOk result (λ whole. (part : ListOf Filled) → IsPartInMaking part self
            → IsFileEntryOf number.0 born.0 whole.bytes.items part whole.entry) }
        ensures series { IfOk result (λ whole. (part : ListOf Filled) → IsPartInMaking part self
            → whole.series ≡ paths_of part) }
    {
        let PartBuilder {
            builder,
            points,
            hulls,
            series,
        } = self;
        let bytes = finish(builder)?;
        let entry = FileEntry {
            number,
            born,
            size: bytes.len() as u64,
            points,
            hulls: List::of(hulls),
            claimed: false,
        };
        Ok(Whole {
            bytes,
            entry,
            series: List::of(series),
        })
    }
}
