//! The points of one series, into a file in the making. Depends on tsdb_streams and tsdb_flush.
ghost use Rattle.std.specs.Prelude.{◌≡◌, ◌↔◌, ◌≤◌, All, IfOk, IsTrue, List, None, Some, false, map, true};
ghost use Rattle.tsdb_base.specs.declared.point.Point.{Point as PointOf};
ghost use Rattle.tsdb_streams.specs.Files.{FilePages, HasReason};
ghost use Rattle.tsdb_streams.specs.IndexedFiles.{IsIndexed, source_of};
ghost use Rattle.tsdb_streams.specs.Lanes.{IsSourceOfStore};
ghost use Rattle.tsdb_streams.specs.Streams.{AreToldSources, AreTrueSources, IsStreamOfStore, IsToldStream};
ghost use Rattle.tsdb_streams.specs.Streams.{IsTrueStream, stream_left};
ghost use Rattle.tsdb_flush.specs.Making.{MayAdd};
ghost use Rattle.tsdb_inner.specs.Copies.{Copies, AreDamaged, AreToldPoints};
ghost use Rattle.tsdb_inner.specs.Steps.{HasBegun, HaveBrokenOrder, MayFollowPoint, PutsSeries};
ghost use Rattle.tsdb_model.specs.Commands.{IsSchema};
ghost use Rattle.tsdb_path.specs.Nodes.{node_count};

use std::alloc::Global;
use tsdb_base::{Point, Range, Time};
use tsdb_flush::PartBuilder;
use tsdb_marks::Marks;
use tsdb_model::Schema;
use tsdb_outside::{Port, StoreFault};
use tsdb_streams::{IndexedFile, Stream, open_indexed, pull};

/// All times.
const ALL_TIMES: Range = Range {
    from: Time::MIN,
    to: Time::MAX,
};

/// Whether the point is of the series' type and later than the time.
fn may_follow(to: Time, schema: &Schema, point: &Point) -> bool
    ensures { IsTrue result ↔ MayFollowPoint to schema.now point.now }
{
    to < point.time && point.value.data_type() == schema.data_type
}

/// Puts what a stream has left behind the first point of a series, and ends the series. False: a point is of another
/// type, or not later than the one before.
fn put_rest<P: Port>(
    stream: &mut Stream<'_, P::Right>,
    schema: &Schema,
    from: Time,
    part: &mut PartBuilder,
    port: &mut P,
) -> Result<bool, StoreFault>
    requires nodes { 2 ≤ node_count schema.now.path }
    requires of_store { IsStreamOfStore P.Right.file (P.store port.old) stream.old }
    requires works { stream.old.fault ≡ None }
    requires begun { HasBegun schema.now from part.old }
    ensures put { IfOk result (λ whole. whole ≡ true → (rest : List PointOf)
        × PutsSeries schema.now from rest part.old part.new
        × ((pages : FilePages) → IsTrueStream P.Right.file pages stream.old
        → AreToldPoints (stream_left P.Right.file pages stream.old) rest)) }
    ensures damaged { IfOk result (λ whole. whole ≡ false → (pages : FilePages)
        → IsTrueStream P.Right.file pages stream.old
        → HaveBrokenOrder schema.now from (stream_left P.Right.file pages stream.old)) }
    ensures reason { (pages : FilePages) → IsTrueStream P.Right.file pages stream.old
        → HasReason (IsToldStream P.Right.file pages stream.old) (P.faults port.old) (P.faults port.new) result }
    ensures later { P.faults port.old ≤ P.faults port.new }
    ensures same_store { P.store port.new ≡ P.store port.old }
{
    let mut to = from;
    for count in 1..u64::MAX {
        let Some(point) = pull(stream, port)? else {
            part.end(schema, count, from, to)?;
            return Ok(true);
        };
        if !may_follow(to, schema, &point) {
            return Ok(false);
        }
        to = point.time;
        part.put(point)?;
    }
    Err(StoreFault::Memory)
}

/// Adds a series with the points of these files that no mark deletes, of the last file at each time. False: a point is
/// of another type, or not later than the one before, which those of whole files never are.
pub(crate) fn copy_series<'a, P: Port>(
    alloc: Global,
    schema: &'a Schema,
    marks: &'a Marks,
    files: &[IndexedFile<'a, P::Right>],
    part: &mut PartBuilder,
    port: &mut P,
) -> Result<bool, StoreFault>
    requires schema { IsSchema schema.now }
    requires indexed { All (IsIndexed P.Right.file) files.now }
    requires of_store { All (IsSourceOfStore P.Right.file (P.store port.old)) (map source_of files.now) }
    requires follows { MayAdd part.old schema.now }
    ensures copied { IfOk result (λ whole. whole ≡ true
        → Copies P.Right.file schema.now marks.now.marks (map source_of files.now) part.old part.new) }
    ensures damaged { IfOk result (λ whole. whole ≡ false
        → AreDamaged P.Right.file schema.now marks.now.marks (map source_of files.now)) }
    ensures reason { (pages : FilePages) → AreTrueSources P.Right.file schema.now.path pages (map source_of files.now)
        → HasReason (AreToldSources P.Right.file pages (map source_of files.now))
        (P.faults port.old) (P.faults port.new) result }
    ensures later { P.faults port.old ≤ P.faults port.new }
    ensures same_store { P.store port.new ≡ P.store port.old }
{
    let mut stream = open_indexed(alloc, &schema.path, &ALL_TIMES, marks, files)?;
    let Some(first) = pull(&mut stream, port)? else {
        return Ok(true);
    };
    if first.value.data_type() != schema.data_type {
        return Ok(false);
    }
    let from = first.time;
    part.begin(schema)?;
    part.put(first)?;
    put_rest(&mut stream, schema, from, part, port)
}
