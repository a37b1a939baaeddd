//! The aggregate of one column. Depends on `lending`, tsdb_streams and tsdb_aggregate.
ghost use Rattle.std.specs.List.{AllByRecursion as Each};
ghost use Rattle.std.specs.Prelude.{◌≡◌, ◌+◌, ◌≤◌, All, IfOk, IsTrue, List, None, Some, drop, filter, map};
ghost use Rattle.tsdb_aggregate.specs.Pieces.{has_asked};
ghost use Rattle.tsdb_base.specs.declared.point.Point.{Point as PointModel};
ghost use Rattle.tsdb_streams.specs.Clean.{sources_read};
ghost use Rattle.tsdb_streams.specs.Files.{FilePages, HasReason};
ghost use Rattle.tsdb_streams.specs.KeptPoints.{is_kept};
ghost use Rattle.tsdb_streams.specs.Lanes.{IsSourceOfStore, source_all, source_left};
ghost use Rattle.tsdb_streams.specs.PartedMerge.{AreStatsInOrder, is_between};
ghost use Rattle.tsdb_streams.specs.Streams.{AreToldSources, AreTrueSources, IsStreamOfStore, IsToldStream};
ghost use Rattle.tsdb_streams.specs.Streams.{IsTrueStream, stream_due, stream_left};
ghost use Rattle.tsdb_model.specs.Folds.{aggregate_of};
ghost use Rattle.tsdb_base.specs.Points.{IsRising};
ghost use Rattle.tsdb_path.specs.Nodes.{node_count};
ghost use Rattle.tsdb_pins.specs.Clean.{TellsPages, column_read};
ghost use Rattle.tsdb_pins.specs.Reading.{IsFoldOf, IsOfStore, IsToldIn, IsTrueIn, IsValueRead, SeriesPages};
ghost use Rattle.tsdb_pins.specs.Weaving.{AreLater, IsNextPoint, Weaves, ends_before as ends};

use crate::lending::lend;
use std::alloc::Global;
use std::sync::ledger::Ledger;
use tsdb_aggregate::Tally;
use tsdb_base::{Aggregate, Figure, Memory, Point, Range, Stats, Steps};
use tsdb_marks::Marks;
use tsdb_outside::{Files, Port, StoreFault};
use tsdb_path::Path;
use tsdb_pin::{Column, Pin};
use tsdb_streams::{Stream, StreamSource, open_parted, pull};

/// Whether statistics end before a point, if there is one.
fn ends_before(stats: &Stats, point: &Option<Point>) -> bool
    ensures { result ≡ ends stats.now point.now }
{
    match point {
        Some(point) => stats.end < point.time,
        None => true,
    }
}

/// Adds the statistics, all of which answer the aggregate, from a place on that end before a point, or all where there
/// is no point. Answers the place of the next ones.
fn add_clean<'a>(
    name: Aggregate,
    clean: &'a [Stats],
    from: usize,
    point: &Option<Point>,
    tally: &mut Tally<'a>,
) -> Result<usize, Memory>
    requires { All (λ stats. IsTrue (has_asked name stats)) clean.now }
    ensures added { IfOk result (λ next. (all left : List PointModel) → IsNextPoint point.now left
        → Weaves name all (drop from clean.now) left tally.old → Weaves name all (drop next clean.now) left tally.new) }
    ensures later { IfOk result (λ next. AreLater point.now (drop next clean.now)) }
{
    for next in from..clean.len() {
        let stats = &clean[next];
        if !ends_before(stats, point) {
            return Ok(next);
        }
        tally.join(name, Tally::of_stats(name, stats))?;
    }
    Ok(from.max(clean.len()))
}

/// The aggregate of the points that a stream has left, and of those of clean pages, whose statistics are given in order
/// of time.
fn fold_stream<P: Port>(
    name: Aggregate,
    clean: &[Stats],
    stream: &mut Stream<'_, P::Right>,
    port: &mut P,
) -> Result<Option<Figure>, StoreFault>
    requires of_store { IsStreamOfStore P.Right.file (P.store port.old) stream.old }
    requires works { stream.old.fault ≡ None }
    requires asked { All (λ stats. IsTrue (has_asked name stats)) clean.now }
    ensures folded { (pages : FilePages) → IsTrueStream P.Right.file pages stream.old
        → IfOk result (λ answer. (all : List PointModel) → AreStatsInOrder clean.now all → IsRising all
        → stream_left P.Right.file pages stream.old ≡ Some (filter (is_between clean.now) all)
        → answer ≡ aggregate_of name all) }
    ensures due { stream_due stream.new ≡ stream_due stream.old }
    ensures reason { (pages : FilePages) → IsTrueStream P.Right.file pages stream.old
        → HasReason (IsToldStream P.Right.file pages stream.old) (P.faults port.old) (P.faults port.new) result }
    ensures later { P.faults port.old ≤ P.faults port.new }
    ensures same_store { P.store port.new ≡ P.store port.old }
{
    let mut tally = Tally::new();
    let mut next = 0;
    for _ in 0..u64::MAX {
        let point = pull(stream, port)?;
        next = add_clean(name, clean, next, &point, &mut tally)?;
        let Some(point) = point else {
            return Ok(tally.answer(name)?);
        };
        tally.join(name, Tally::of_point(name, point))?;
    }
    Err(StoreFault::Memory)
}

/// The aggregate of the points of a series in a range that no mark deletes, from these sources. Each page that is read
/// is a step.
fn fold_points<'a, P: Port, L: Ledger>(
    alloc: Global,
    name: Aggregate,
    series: &'a Path,
    range: &Range,
    marks: &'a Marks,
    sources: Vec<StreamSource<'a, P::Right>>,
    port: &mut P,
    pages: &mut Steps<L>,
) -> Result<Option<Figure>, StoreFault>
    requires nodes { 2 ≤ node_count series.now }
    requires of_store { All (IsSourceOfStore P.Right.file (P.store port.old)) sources.items }
    ensures folded { (told : FilePages) → AreTrueSources P.Right.file series.now told sources.entry.items
        → IfOk result (λ answer. (all lists : List (List PointModel)) →
        map (source_all P.Right.file told) sources.entry.items ≡ map Some all → All IsRising all →
        map (source_left P.Right.file told (is_kept series.now range.now marks.now.marks)) sources.entry.items
        ≡ map Some lists → IsFoldOf name lists answer) }
    ensures counted { pages.old ≤ pages.new }
    ensures most { (told : FilePages) (all : List (List PointModel))
        → AreTrueSources P.Right.file series.now told sources.entry.items
        → map (source_all P.Right.file told) sources.entry.items ≡ map Some all
        → pages.new ≤ pages.old
        + sources_read P.Right.file told name series.now range.now marks.now.marks sources.entry.items }
    ensures reason { (told : FilePages) → AreTrueSources P.Right.file series.now told sources.entry.items
        → HasReason (AreToldSources P.Right.file told sources.entry.items)
        (P.faults port.old) (P.faults port.new) result }
    ensures later { P.faults port.old ≤ P.faults port.new }
    ensures same_store { P.store port.new ≡ P.store port.old }
{
    let (clean, mut stream) = open_parted(alloc, name, series, range, marks, sources, port)?;
    let answer = fold_stream(name, &clean, &mut stream, port);
    pages.add(stream.pages_read());
    answer
}

/// The aggregate that a column asks for, of its points in the range of the pin that no mark deletes. Each page that is
/// read is a step.
pub(crate) fn read_value<F: Files, L: Ledger>(
    alloc: Global,
    pin: &Pin<F>,
    column: &Column<F>,
    port: &mut F::Port,
    pages: &mut Steps<L>,
) -> Result<Option<Figure>, StoreFault>
    requires nodes { 2 ≤ node_count column.now.schema.path }
    requires of_store { Each (IsOfStore F.Right.file (F.Port.store port.old)) column.now.sources }
    ensures read { (told : SeriesPages)
        → Each (IsTrueIn F.Right.file told column.now.schema.path) column.now.sources
        → IfOk result (IsValueRead F.Right.file told pin.now.range pin.now.marks.marks column.now) }
    ensures counted { pages.old ≤ pages.new }
    ensures most { (told : SeriesPages)
        → Each (IsTrueIn F.Right.file told column.now.schema.path) column.now.sources
        → Each (TellsPages F.Right.file told column.now.schema.path) column.now.sources
        → pages.new ≤ pages.old + column_read F.Right.file told pin.now.range pin.now.marks.marks column.now }
    ensures reason { (told : SeriesPages)
        → Each (IsTrueIn F.Right.file told column.now.schema.path) column.now.sources
        → HasReason (Each (IsToldIn F.Right.file told column.now.schema.path) column.now.sources)
        (F.Port.faults port.old) (F.Port.faults port.new) result }
    ensures later { F.Port.faults port.old ≤ F.Port.faults port.new }
    ensures same_store { F.Port.store port.new ≡ F.Port.store port.old }
{
    let Some(name) = column.aggregate else {
        return Ok(None);
    };
    let sources = lend(alloc, column.sources.items())?;
    fold_points(
        alloc,
        name,
        &column.schema.path,
        &pin.range,
        &pin.marks,
        sources,
        port,
        pages,
    )
}
