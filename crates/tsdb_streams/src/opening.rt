//! Opening a stream. Depends on `stream`, `file` and tsfile_reader.
ghost use Rattle.std.specs.List.{AllZip};
ghost use Rattle.std.specs.Prelude.{◌≡◌, ℕ, ◌≤◌, All, IfOk, IsTrue, List, None, Some, map};
ghost use Rattle.tsdb_aggregate.specs.Pieces.{has_asked};
ghost use Rattle.tsdb_base.specs.declared.point.Point.{Point as PointModel};
ghost use Rattle.tsdb_base.specs.Points.{IsRising};
ghost use Rattle.tsdb_merge.specs.Winners.{IsToldMergeOf};
ghost use Rattle.tsdb_path.specs.Nodes.{device_of, measurement_of, node_count};
ghost use Rattle.tsdb_streams.specs.Clean.{sources_read};
ghost use Rattle.tsdb_streams.specs.Files.{FilePages, HasReason, IsTold, IsTruth};
ghost use Rattle.tsdb_streams.specs.IndexedFiles.{IsFoundIn};
ghost use Rattle.tsdb_streams.specs.KeptPoints.{is_kept};
ghost use Rattle.tsdb_streams.specs.Lanes.{IsLaneOfStore, IsSourceOfStore, IsToldSource, IsTrueSource, OpensAs};
ghost use Rattle.tsdb_streams.specs.Lanes.{source_all};
ghost use Rattle.tsdb_streams.specs.Lanes.{source_left};
ghost use Rattle.tsdb_streams.specs.PartedMerge.{IsParted};
ghost use Rattle.tsdb_streams.specs.Streams.{AreToldSources, AreTrueSources, IsStreamOfStore, IsToldStream};
ghost use Rattle.tsdb_streams.specs.Streams.{IsTrueStream, stream_due, stream_held, stream_left};

use crate::cleaning::{pass_clean, passed_stats};
use crate::file::fault_of;
use crate::lane::{Lane, PageLane, PartLane};
use crate::ordering::are_in_order;
use crate::source::StreamSource;
use crate::stream::Stream;
use crate::survival::Kept;
use std::alloc::Global;
use tsdb_base::{Aggregate, Memory, Range, Stamp, Stats};
use tsdb_index::IndexEntry;
use tsdb_marks::Marks;
use tsdb_merge::LazyMerge;
use tsdb_outside::{Port, ReadRight, StoreFault};
use tsdb_path::{Name, Path};
use tsfile_reader::find_entry;

/// Begins with a file in which this was found of the series.
pub(crate) fn lane_of<'a, R: ReadRight>(
    alloc: Global,
    right: &'a R,
    born: Stamp,
    found: Option<IndexEntry>,
) -> Lane<'a, R>
    ensures { (names : List ℕ × List ℕ) → IsFoundIn (R.file right.now) names found
        → OpensAs R.file names (StreamSource.File right.entry born) result }
{
    match found {
        Some(entry) => Lane::Pages(PageLane {
            right,
            born,
            in_order: are_in_order(entry.pages.items()),
            entry,
            passed: Vec::new(alloc),
            whole: false,
            next: 0,
        }),
        None => Lane::Part(PartLane { born, rest: &[] }),
    }
}

/// Looks the series up in a file.
fn open_file<'a, P: Port>(
    alloc: Global,
    device: &Path,
    measurement: &Name,
    right: &'a P::Right,
    born: Stamp,
    port: &mut P,
) -> Result<Lane<'a, P::Right>, StoreFault>
    requires of_store { (P.Right.file right.now).store ≡ P.store port.old }
    ensures opens { IfOk result
        (OpensAs P.Right.file (device.now, measurement.now) (StreamSource.File right.entry born)) }
    ensures of_store { IfOk result (IsLaneOfStore P.Right.file (P.store port.new)) }
    ensures reason { (pages : FilePages) → IsTruth (device.now, measurement.now) pages (P.Right.file right.now)
        → HasReason (IsTold pages (P.Right.file right.now)) (P.faults port.old) (P.faults port.new) result }
    ensures later { P.faults port.old ≤ P.faults port.new }
    ensures same_store { P.store port.new ≡ P.store port.old }
{
    match find_entry(alloc, port, right, device, measurement) {
        Ok(found) => Ok(lane_of(alloc, right, born, found)),
        Err(fault) => Err(fault_of(port, right, fault)),
    }
}

/// Begins with a source.
fn open_source<'a, P: Port>(
    alloc: Global,
    device: &Path,
    measurement: &Name,
    source: StreamSource<'a, P::Right>,
    port: &mut P,
) -> Result<Lane<'a, P::Right>, StoreFault>
    requires of_store { IsSourceOfStore P.Right.file (P.store port.old) source }
    ensures opens { IfOk result (OpensAs P.Right.file (device.now, measurement.now) source.entry) }
    ensures of_store { IfOk result (IsLaneOfStore P.Right.file (P.store port.new)) }
    ensures reason { (pages : FilePages)
        → IsTrueSource P.Right.file (device.now, measurement.now) pages source.entry
        → HasReason (IsToldSource P.Right.file pages source.entry) (P.faults port.old) (P.faults port.new) result }
    ensures later { P.faults port.old ≤ P.faults port.new }
    ensures same_store { P.store port.new ≡ P.store port.old }
{
    match source {
        StreamSource::File { right, born } => open_file(
            alloc,
            device,
            measurement,
            right,
            born,
            port,
        ),
        StreamSource::Part { points, born } => Ok(Lane::Part(PartLane { born, rest: points })),
    }
}

/// Begins with each of the sources, in their order.
fn open_sources<'a, P: Port>(
    alloc: Global,
    device: &Path,
    measurement: &Name,
    sources: Vec<StreamSource<'a, P::Right>>,
    port: &mut P,
) -> Result<Vec<Lane<'a, P::Right>>, StoreFault>
    requires of_store { All (IsSourceOfStore P.Right.file (P.store port.old)) sources.items }
    ensures opens { IfOk result (λ lanes.
        AllZip (OpensAs P.Right.file (device.now, measurement.now)) sources.entry.items lanes.items) }
    ensures of_store { IfOk result (λ lanes. All (IsLaneOfStore P.Right.file (P.store port.new)) lanes.items) }
    ensures reason { (pages : FilePages)
        → All (IsTrueSource P.Right.file (device.now, measurement.now) pages) sources.entry.items
        → HasReason (AreToldSources P.Right.file pages sources.entry.items)
        (P.faults port.old) (P.faults port.new) result }
    ensures later { P.faults port.old ≤ P.faults port.new }
    ensures same_store { P.store port.new ≡ P.store port.old }
{
    let mut lanes = Vec::new(alloc);
    for source in sources {
        lanes.push(open_source(alloc, device, measurement, source, port)?)?;
    }
    Ok(lanes)
}

/// The device and the measurement of a series.
pub(crate) fn names_of(series: &Path) -> Result<(Path, Name), Memory>
    requires nodes { 2 ≤ node_count series.now }
    ensures { IfOk result (λ names. names ≡ (device_of series.now, measurement_of series.now)) }
{
    Ok((series.device()?, series.measurement_name()?))
}

/// Opens the stream of a series over these sources, from the lowest priority to the highest. It reads the index of
/// each file, and no page.
pub fn open_stream<'a, P: Port>(
    alloc: Global,
    series: &'a Path,
    range: &Range,
    marks: &'a Marks,
    sources: Vec<StreamSource<'a, P::Right>>,
    port: &mut P,
) -> Result<Stream<'a, P::Right>, StoreFault>
    requires nodes { 2 ≤ node_count series.now }
    requires of_store { All (IsSourceOfStore P.Right.file (P.store port.old)) sources.items }
    ensures merged { (pages : FilePages) → AreTrueSources P.Right.file series.now pages sources.entry.items
        → IfOk result (λ stream. (lists : List (List PointModel)) →
        map (source_left P.Right.file pages (is_kept series.now range.now marks.now.marks)) sources.entry.items
        ≡ map Some lists → All IsRising lists → IsToldMergeOf lists (stream_left P.Right.file pages stream)) }
    ensures of_store { IfOk result (IsStreamOfStore P.Right.file (P.store port.new)) }
    ensures truth { (pages : FilePages) → AreTrueSources P.Right.file series.now pages sources.entry.items
        → IfOk result (IsTrueStream P.Right.file pages) }
    ensures told { (pages : FilePages) → AreToldSources P.Right.file pages sources.entry.items
        → IfOk result (IsToldStream P.Right.file pages) }
    ensures held { IfOk result (λ stream. stream_held stream ≡ 0) }
    ensures works { IfOk result (λ stream. stream.fault ≡ None) }
    ensures reason { (pages : FilePages) → AreTrueSources P.Right.file series.now pages sources.entry.items
        → HasReason (AreToldSources P.Right.file pages sources.entry.items)
        (P.faults port.old) (P.faults port.new) result }
    ensures later { P.faults port.old ≤ P.faults port.new }
    ensures same_store { P.store port.new ≡ P.store port.old }
{
    let (device, measurement) = names_of(series)?;
    let lanes = open_sources(alloc, &device, &measurement, sources, port)?;
    let merge = LazyMerge::new(alloc, lanes.len())?;
    Ok(Stream {
        root: merge.into_root(),
        lanes,
        kept: Kept {
            series,
            range: *range,
            marks,
        },
        fault: None,
        alloc,
    })
}

/// Opens the stream of a series over these sources without the pages that are clean for the aggregate, and answers the
/// statistics of these, in order of time. It reads the index of each file, and no page.
pub fn open_parted<'a, P: Port>(
    alloc: Global,
    name: Aggregate,
    series: &'a Path,
    range: &Range,
    marks: &'a Marks,
    sources: Vec<StreamSource<'a, P::Right>>,
    port: &mut P,
) -> Result<(Vec<Stats>, Stream<'a, P::Right>), StoreFault>
    requires nodes { 2 ≤ node_count series.now }
    requires of_store { All (IsSourceOfStore P.Right.file (P.store port.old)) sources.items }
    ensures parted { (pages : FilePages) → AreTrueSources P.Right.file series.now pages sources.entry.items
        → IfOk result (λ opened. (lists kept : List (List PointModel)) →
        map (source_all P.Right.file pages) sources.entry.items ≡ map Some lists → All IsRising lists →
        map (source_left P.Right.file pages (is_kept series.now range.now marks.now.marks)) sources.entry.items
        ≡ map Some kept → IsParted kept opened.0.items (stream_left P.Right.file pages opened.1)) }
    ensures asked { IfOk result (λ opened. All (λ stats. IsTrue (has_asked name stats)) opened.0.items) }
    ensures due { (pages : FilePages) → AreTrueSources P.Right.file series.now pages sources.entry.items
        → IfOk result (λ opened. (lists : List (List PointModel)) →
        map (source_all P.Right.file pages) sources.entry.items ≡ map Some lists → stream_due opened.1
        ≡ sources_read P.Right.file pages name series.now range.now marks.now.marks sources.entry.items) }
    ensures of_store { IfOk result (λ opened. IsStreamOfStore P.Right.file (P.store port.new) opened.1) }
    ensures truth { (pages : FilePages) → AreTrueSources P.Right.file series.now pages sources.entry.items
        → IfOk result (λ opened. IsTrueStream P.Right.file pages opened.1) }
    ensures told { (pages : FilePages) → AreToldSources P.Right.file pages sources.entry.items
        → IfOk result (λ opened. IsToldStream P.Right.file pages opened.1) }
    ensures works { IfOk result (λ opened. opened.1.fault ≡ None) }
    ensures reason { (pages : FilePages) → AreTrueSources P.Right.file series.now pages sources.entry.items
        → HasReason (AreToldSources P.Right.file pages sources.entry.items)
        (P.faults port.old) (P.faults port.new) result }
    ensures later { P.faults port.old ≤ P.faults port.new }
    ensures same_store { P.store port.new ≡ P.store port.old }
{
    let (device, measurement) = names_of(series)?;
    let mut lanes = open_sources(alloc, &device, &measurement, sources, port)?;
    let kept = Kept {
        series,
        range: *range,
        marks,
    };
    pass_clean(alloc, name, &kept, &mut lanes)?;
    let clean = passed_stats(alloc, &lanes)?;
    let merge = LazyMerge::new(alloc, lanes.len())?;
    let stream = Stream {
        root: merge.into_root(),
        lanes,
        kept,
        fault: None,
        alloc,
    };
    Ok((clean, stream))
}
