//! The points of one column. Depends on `lending` and tsdb_streams.
ghost use Rattle.std.specs.List.{AllByRecursion as Each, AllZip};
ghost use Rattle.std.specs.Prelude.{◌≡◌, ◌≤◌, All, IfOk, List, Some, map};
ghost use Rattle.tsdb_base.specs.declared.point.Point.{Point as PointModel};
ghost use Rattle.tsdb_streams.specs.Files.{FilePages, HasReason};
ghost use Rattle.tsdb_streams.specs.KeptPoints.{is_kept};
ghost use Rattle.tsdb_streams.specs.Lanes.{IsSourceOfStore, source_left};
ghost use Rattle.tsdb_streams.specs.Streams.{AreToldSources, AreTrueSources};
ghost use Rattle.tsdb_base.specs.Points.{IsRising};
ghost use Rattle.tsdb_merge.specs.Winners.{IsMergeOf};
ghost use Rattle.tsdb_path.specs.Nodes.{node_count};
ghost use Rattle.tsdb_pins.specs.Worlds.{kept_of};
ghost use Rattle.tsdb_pins.specs.Reading.{HasTold, IsOfStore, IsToldIn, IsTrueIn, SeriesPages};

use crate::lending::lend;
use std::alloc::Global;
use tsdb_base::{Point, Range};
use tsdb_marks::Marks;
use tsdb_outside::{Files, Port, StoreFault};
use tsdb_path::Path;
use tsdb_pin::{Column, Pin};
use tsdb_streams::{StreamSource, open_stream, pull};

/// The points of a series in a range that no mark deletes, from these sources.
fn read_points<'a, P: Port>(
    alloc: Global,
    series: &'a Path,
    range: &Range,
    marks: &'a Marks,
    sources: Vec<StreamSource<'a, P::Right>>,
    port: &mut P,
) -> Result<Vec<Point>, StoreFault>
    requires nodes { 2 ≤ node_count series.now }
    requires of_store { All (IsSourceOfStore P.Right.file (P.store port.old)) sources.items }
    ensures merged { (pages : FilePages) → AreTrueSources P.Right.file series.now pages sources.entry.items
        → IfOk result (λ points. (lists : List (List PointModel)) →
        map (source_left P.Right.file pages (is_kept series.now range.now marks.now.marks)) sources.entry.items
        ≡ map Some lists → All IsRising lists → IsMergeOf lists points.items) }
    ensures reason { (pages : FilePages) → AreTrueSources P.Right.file series.now pages sources.entry.items
        → HasReason (AreToldSources P.Right.file pages sources.entry.items)
        (P.faults port.old) (P.faults port.new) result }
    ensures later { P.faults port.old ≤ P.faults port.new }
    ensures same_store { P.store port.new ≡ P.store port.old }
{
    let mut stream = open_stream(alloc, series, range, marks, sources, port)?;
    let mut points = Vec::new(alloc);
    for _ in 0..u64::MAX {
        let Some(point) = pull(&mut stream, port)? else {
            return Ok(points);
        };
        points.push(point)?;
    }
    Err(StoreFault::Memory)
}

/// The points of a column in the range of the pin that no mark deletes, in order of time.
pub(crate) fn read_column<F: Files>(
    alloc: Global,
    pin: &Pin<F>,
    column: &Column<F>,
    port: &mut F::Port,
) -> Result<Vec<Point>, StoreFault>
    requires nodes { 2 ≤ node_count column.now.schema.path }
    requires of_store { Each (IsOfStore F.Right.file (F.Port.store port.old)) column.now.sources }
    ensures merged { (pages : SeriesPages)
        → Each (IsTrueIn F.Right.file pages column.now.schema.path) column.now.sources
        → IfOk result (λ points. (lists : List (List PointModel)) →
        AllZip (HasTold F.Right.file pages column.now.schema.path) column.now.sources lists → Each IsRising lists
        → IsMergeOf (kept_of column.now.schema.path pin.now.range pin.now.marks.marks column.now.sources lists)
        points.items) }
    ensures reason { (pages : SeriesPages)
        → Each (IsTrueIn F.Right.file pages column.now.schema.path) column.now.sources
        → HasReason (Each (IsToldIn F.Right.file pages column.now.schema.path) column.now.sources)
        (F.Port.faults port.old) (F.Port.faults port.new) result }
    ensures later { F.Port.faults port.old ≤ F.Port.faults port.new }
    ensures same_store { F.Port.store port.new ≡ F.Port.store port.old }
{
    let sources = lend(alloc, column.sources.items())?;
    read_points(
        alloc,
        &column.schema.path,
        &pin.range,
        &pin.marks,
        sources,
        port,
    )
}
