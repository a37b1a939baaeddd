//! Streams over files whose indexes were read: a series is looked up in what was read of each. Depends on `opening`,
//! `file`, tsdb_index and tsfile_reader.
ghost use Rattle.std.specs.List.{AllZip};
ghost use Rattle.std.specs.Prelude.{◌≡◌, ◌≤◌, All, IfOk, List, MatchOption, None, Some, map};
ghost use Rattle.tsdb_base.specs.declared.point.Point.{Point as PointModel};
ghost use Rattle.tsdb_base.specs.Points.{IsRising};
ghost use Rattle.tsdb_streams.specs.Files.{FilePages, HasReason};
ghost use Rattle.tsdb_streams.specs.IndexedFiles.{IsIndexed, IsWholeFile, source_of};
ghost use Rattle.tsdb_streams.specs.KeptPoints.{is_kept};
ghost use Rattle.tsdb_streams.specs.Lanes.{IsSourceOfStore, OpensAs, source_left};
ghost use Rattle.tsdb_streams.specs.Streams.{AreToldSources, AreTrueSources, IsStreamOfStore, IsToldStream};
ghost use Rattle.tsdb_streams.specs.Streams.{IsTrueStream, stream_held, stream_left};
ghost use Rattle.tsdb_index.specs.Entries.{AreInOrder, names_of};
ghost use Rattle.tsdb_path.specs.Order.{AreNamesBefore};
ghost use Rattle.tsdb_index.specs.Finding.{IsEntryFor};
ghost use Rattle.tsdb_merge.specs.Winners.{IsToldMergeOf};
ghost use Rattle.tsdb_outside.specs.Files.{Store};
ghost use Rattle.tsdb_path.specs.Nodes.{node_count};

use crate::file::fault_of;
use crate::lane::Lane;
use crate::opening::{lane_of, names_of as names_in};
use crate::source::IndexedFile;
use crate::stream::Stream;
use crate::survival::Kept;
use std::alloc::Global;
use tsdb_base::{List as ListOf, Memory, Range, Stamp};
use tsdb_index::{FileMeta, IndexEntry, PageEntry};
use tsdb_marks::Marks;
use tsdb_merge::LazyMerge;
use tsdb_outside::{Port, ReadRight, StoreFault};
use tsdb_path::{Name, Path, compare_names};
use tsfile_reader::read_meta;

/// Reads the index of a file, and no page. Streams of all of its series can be opened over what was read.
pub fn open_index<'a, P: Port>(
    alloc: Global,
    right: &'a P::Right,
    born: Stamp,
    port: &mut P,
) -> Result<IndexedFile<'a, P::Right>, StoreFault>
    requires of_store { (P.Right.file right.now).store ≡ P.store port.old }
    ensures file { IfOk result (λ file. (file.right ≡ right.entry) × (file.born ≡ born)) }
    ensures indexed { IfOk result (IsIndexed P.Right.file) }
    ensures reason { HasReason (IsWholeFile (P.Right.file right.now)) (P.faults port.old) (P.faults port.new) result }
    ensures later { P.faults port.old ≤ P.faults port.new }
    ensures same_store { P.store port.new ≡ P.store port.old }
{
    match read_meta(alloc, port, right) {
        Ok(
            FileMeta {
                size: _,
                version: _,
                index,
            },
        ) => Ok(IndexedFile { right, born, index }),
        Err(fault) => Err(fault_of(port, right, fault)),
    }
}

/// The entry of these names among entries in order, if one has them.
fn entry_in<'a>(
    entries: &'a [IndexEntry],
    device: &Path,
    measurement: &Name,
) -> Option<&'a IndexEntry>
    ensures { AreInOrder AreNamesBefore (map names_of entries.now) → MatchOption result
        (IsEntryFor (device.now, measurement.now) entries.now None)
        (λ entry. IsEntryFor (device.now, measurement.now) entries.now (Some entry.now)) }
{
    let found = entries.binary_search_by(|entry| {
        compare_names(&entry.device, &entry.measurement, device, measurement)
    });
    match found {
        Ok(at) => Some(&entries[at]),
        Err(_) => None,
    }
}

/// What an index says of pages, once more.
fn copy_pages(alloc: Global, pages: &[PageEntry]) -> Result<Vec<PageEntry>, Memory>
    ensures { IfOk result (λ copy. copy.items ≡ pages.now) }
{
    let mut copy = Vec::with_capacity(alloc, pages.len())?;
    for page in pages {
        copy.push(PageEntry {
            place: page.place,
            stats: page.stats.copy()?,
        })?;
    }
    Ok(copy)
}

/// The same entry once more: a stream has its own.
fn copy_entry(alloc: Global, entry: &IndexEntry) -> Result<IndexEntry, Memory>
    ensures { IfOk result (λ copy. copy ≡ entry.now) }
{
    let pages = copy_pages(alloc, entry.pages.items())?;
    Ok(IndexEntry {
        device: entry.device.copy()?,
        measurement: entry.measurement.copy()?,
        data_type: entry.data_type,
        encoding: entry.encoding,
        place: entry.place,
        stats: entry.stats.copy()?,
        pages: ListOf::of(pages),
    })
}

/// A copy of the entry of these names among entries in order, if one has them.
fn look_up(
    alloc: Global,
    entries: &[IndexEntry],
    device: &Path,
    measurement: &Name,
) -> Result<Option<IndexEntry>, Memory>
    ensures { AreInOrder AreNamesBefore (map names_of entries.now)
        → IfOk result (IsEntryFor (device.now, measurement.now) entries.now) }
{
    match entry_in(entries, device, measurement) {
        Some(entry) => Ok(Some(copy_entry(alloc, entry)?)),
        None => Ok(None),
    }
}

/// Looks the series up in what was read of a file.
fn open_entry<'a, R: ReadRight>(
    alloc: Global,
    device: &Path,
    measurement: &Name,
    file: &IndexedFile<'a, R>,
) -> Result<Lane<'a, R>, Memory>
    requires indexed { IsIndexed R.file file.now }
    ensures { IfOk result (OpensAs R.file (device.now, measurement.now) (source_of file.now)) }
{
    let found = look_up(alloc, file.index.entries.items(), device, measurement)?;
    Ok(lane_of(alloc, file.right, file.born, found))
}

/// Looks the series up in what was read of each of the files.
fn open_entries<'a, R: ReadRight>(
    alloc: Global,
    device: &Path,
    measurement: &Name,
    files: &[IndexedFile<'a, R>],
) -> Result<Vec<Lane<'a, R>>, Memory>
    requires indexed { All (IsIndexed R.file) files.now }
    ensures { IfOk result (λ lanes.
        AllZip (OpensAs R.file (device.now, measurement.now)) (map source_of files.now) lanes.items) }
{
    let mut lanes = Vec::with_capacity(alloc, files.len())?;
    for file in files {
        lanes.push(open_entry(alloc, device, measurement, file)?)?;
    }
    Ok(lanes)
}

/// Opens the stream of a series over files whose indexes were read, from the lowest priority to the highest. It takes no
/// port: nothing is read.
pub fn open_indexed<'a, R: ReadRight>(
    alloc: Global,
    series: &'a Path,
    range: &Range,
    marks: &'a Marks,
    files: &[IndexedFile<'a, R>],
) -> Result<Stream<'a, R>, Memory>
    requires nodes { 2 ≤ node_count series.now }
    requires indexed { All (IsIndexed R.file) files.now }
    ensures merged { (pages : FilePages) → AreTrueSources R.file series.now pages (map source_of files.now)
        → IfOk result (λ stream. (lists : List (List PointModel)) →
        map (source_left R.file pages (is_kept series.now range.now marks.now.marks)) (map source_of files.now)
        ≡ map Some lists → All IsRising lists → IsToldMergeOf lists (stream_left R.file pages stream)) }
    ensures of_store { (store : Store) → All (IsSourceOfStore R.file store) (map source_of files.now)
        → IfOk result (IsStreamOfStore R.file store) }
    ensures truth { (pages : FilePages) → AreTrueSources R.file series.now pages (map source_of files.now)
        → IfOk result (IsTrueStream R.file pages) }
    ensures told { (pages : FilePages) → AreToldSources R.file pages (map source_of files.now)
        → IfOk result (IsToldStream R.file pages) }
    ensures held { IfOk result (λ stream. stream_held stream ≡ 0) }
    ensures works { IfOk result (λ stream. stream.fault ≡ None) }
{
    let (device, measurement) = names_in(series)?;
    let lanes = open_entries(alloc, &device, &measurement, files)?;
    let merge = LazyMerge::new(alloc, lanes.len())?;
    Ok(Stream {
        root: merge.into_root(),
        lanes,
        kept: Kept {
            series,
            range: *range,
            marks,
        },
        fault: None,
        alloc,
    })
}
