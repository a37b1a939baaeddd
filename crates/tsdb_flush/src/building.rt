//! A builder that is given the series of a part. Depends on tsdb_base, tsdb_model and tsfile_writer.
ghost use Rattle.std.specs.Prelude.{◌≡◌, ◌≤◌, ◌<◌, List, [], ◌∷◌, ◌++◌, true, length, map, IfOk, OnOk};
ghost use Rattle.std.specs.List.{AllByRecursion as Each};
ghost use Rattle.tsdb_base.specs.Values.{is_suitable};
ghost use Rattle.tsdb_flush.specs.MakingSteps.{ComeBefore, HaveBegun, IsSoundSeries, filled_with};
ghost use Rattle.tsdb_flush.specs.BuiltFile.{IsFileOf};
ghost use Rattle.tsdb_flush.specs.Parts.{Filled, builder_series};
ghost use Rattle.tsdb_model.specs.declared.command.Schema.{Schema as SchemaOf};
ghost use Rattle.tsdb_base.specs.Points.{IsRising};
ghost use Rattle.tsfile_writer.specs.Pages.{IsInRange};
ghost use Rattle.tsdb_path.specs.Nodes.{node_count};
ghost use Rattle.tsfile_writer.specs.Building.{WasGiven};
ghost use Rattle.tsfile_writer.specs.BuilderInput.{MayTake, GivenSeries, with_last_point};

use tsdb_base::{Memory, Point};
use tsdb_model::Schema;
use tsfile_writer::{BuildFault, Builder};

/// Begins a series without points, which comes behind those before.
pub(crate) fn begin(builder: &mut Builder, schema: &Schema) -> Result<(), Memory>
    requires nodes { 2 ≤ node_count schema.now.path }
    requires suits { is_suitable schema.now.data_type schema.now.encoding ≡ true }
    requires follows { (part : List Filled) × WasGiven builder.old (map builder_series part)
        × ComeBefore part schema.now
        × Each IsSoundSeries part }
    ensures ok { OnOk result ((part : List Filled) → WasGiven builder.old (map builder_series part)
        → WasGiven builder.new (map builder_series (part ++ filled_with schema.now [] ∷ []))) }
{
    match builder.series(&schema.path, schema.data_type, schema.encoding) {
        Ok(()) => Ok(()),
        Err(BuildFault::Memory) => Err(Memory),
    }
}

/// Gives the last series a point of its type, later than the points before.
pub(crate) fn put_point(builder: &mut Builder, point: Point) -> Result<(), Memory>
    requires { (front : List GivenSeries) × (last : GivenSeries)
        × WasGiven builder.old (front ++ last ∷ []) × MayTake point last }
    ensures { OnOk result ((front : List GivenSeries) (last : GivenSeries) → WasGiven builder.old (front ++ last ∷ [])
        → WasGiven builder.new (front ++ with_last_point point last ∷ [])) }
{
    match builder.point(point) {
        Ok(()) => Ok(()),
        Err(BuildFault::Memory) => Err(Memory),
    }
}

/// The same point once more.
fn copy_point(point: &Point) -> Result<Point, Memory>
    ensures copy { IfOk result (λ copy. copy ≡ point.now) }
    ensures in_range { OnOk result (IsInRange point.now) }
{
    Ok(Point {
        time: point.time,
        value: point.value.copy()?,
    })
}

/// Gives the points to the last series, which has none yet.
pub(crate) fn put_points(builder: &mut Builder, points: &[Point]) -> Result<(), Memory>
    requires rising { IsRising points.now }
    requires begun { HaveBegun builder.old points.now }
    ensures ok { OnOk result ((part : List Filled) (schema : SchemaOf)
        → WasGiven builder.old (map builder_series (part ++ filled_with schema [] ∷ []))
        → WasGiven builder.new (map builder_series (part ++ filled_with schema points.now ∷ []))) }
    ensures in_range { OnOk result (Each IsInRange points.now) }
{
    for point in points {
        let point = copy_point(point)?;
        put_point(builder, point)?;
    }
    Ok(())
}

/// The bytes of the file, where a series has a point.
pub(crate) fn finish(builder: Builder) -> Result<Vec<u8>, Memory>
    requires { (part : List Filled) × WasGiven builder (map builder_series part) × Each IsSoundSeries part
        × (0 < length part) }
    ensures { IfOk result (λ bytes. (part : List Filled) → WasGiven builder (map builder_series part)
        → Each IsSoundSeries part → IsFileOf part bytes.items) }
{
    match builder.finish() {
        Ok(bytes) => Ok(bytes),
        Err(BuildFault::Memory) => Err(Memory),
    }
}
