//! Groups, chunks and pages from the left, and what an index says of them. Depends on `page`, `fault`, tsdb_stats and
//! tsdb_index.
ghost use Rattle.std.specs.Prelude.{◌≡◌, ℕ, ◌<◌, ◌+◌, [], ◌∷◌, ◌++◌, List, None, true, length, IfOk, OnOk};
ghost use Rattle.std.specs.Prelude.{if◌then◌else◌};
ghost use Rattle.std.specs.List.{flat_map};
ghost use Rattle.tsdb_base.specs.declared.value.DataType.{DataType as Kind};
ghost use Rattle.tsdb_base.specs.declared.value.Encoding.{Encoding as Form};
ghost use Rattle.tsdb_base.specs.Values.{is_suitable};
ghost use Rattle.tsdb_fields.specs.Reading.{ReadsParts};
ghost use Rattle.tsdb_index.specs.Versions.{has_sums as sums};
ghost use Rattle.tsdb_stats.specs.Folds.{sum_of};
ghost use Rattle.tsdb_stats.specs.Statistics.{AreStatsOf};
ghost use Rattle.tsdb_pages.specs.declared.tree.Page.{Page};
ghost use Rattle.tsdb_pages.specs.declared.tree.Tree.{Tree};
ghost use Rattle.tsdb_pages.specs.File.{head_length, page_bytes, page_field};
ghost use Rattle.tsdb_path.specs.Nodes.{IsPath};
ghost use Rattle.tsdb_pages.specs.Trees.{IsBefore};
ghost use Rattle.tsfile_reader.specs.Blame.{HasGroups, IsFirstBadPart};
ghost use Rattle.tsfile_reader.specs.Page.{AreGood};
ghost use Rattle.tsfile_reader.specs.Parts.{FilePart, part_field};
ghost use Rattle.tsfile_reader.specs.Steps.{AreLaterPoints, ArePagesRead, IsChunkHead, IsLaterHead, chunk_part};
ghost use Rattle.tsfile_reader.specs.Steps.{ReadsChunk, ReadsChunks, ReadsOrStops, ReadsPages, StopsBehind};

use crate::fault::ReadFault;
use crate::page::{
    ChunkHead, begins_with_mark, read_chunk_head, read_group_head, read_marked_page,
};
use std::alloc::Global;
use tsdb_base::limits::MAX_PAGES;
use tsdb_base::{DataType, Encoding, List, Memory, Point, Stats};
use tsdb_fields::{FieldFault, Rest};
use tsdb_index::marks::{CHUNK, PAGE};
use tsdb_index::{IndexEntry, PageEntry, has_sums};
use tsdb_path::{Name, Path};
use tsdb_stats::{join_whole, stats_of};

/// What an index says of pages that stand one behind another, and the statistics of all their points.
#[derive(Drop)]
struct Pages {
    entries: Vec<PageEntry>,
    stats: Stats,
}

/// The statistics of points, as a file of the version has them.
fn stats_in(version: u8, points: &[Point]) -> Result<Stats, Memory>
    requires { 0 < length points.now }
    ensures found { IfOk result (AreStatsOf points.now) }
    ensures sum { IfOk result (λ stats. stats.sum ≡ (if sums version then sum_of points.now else None)) }
{
    let mut stats = stats_of(points)?;
    if !has_sums(version) {
        stats.sum = None;
    }
    Ok(stats)
}

/// One page, which stands at this place.
fn first_page(alloc: Global, version: u8, place: u64, points: &[Point]) -> Result<Pages, Memory>
    requires { 0 < length points.now }
    ensures { IfOk result (λ found. (data_type : Kind) (encoding : Form) (page : Page) → page.points ≡ points.now
        → AreGood data_type points.now → ArePagesRead version data_type encoding place (page ∷ []) found) }
{
    let stats = stats_in(version, points)?;
    let entry = PageEntry {
        place,
        stats: stats.copy()?,
    };
    Ok(Pages {
        entries: vec![in alloc; entry]?,
        stats,
    })
}

/// Adds a page that stands at this place.
fn add_page(version: u8, place: u64, points: &[Point], pages: &mut Pages) -> Result<(), Memory>
    requires some { 0 < length points.now }
    ensures { OnOk result ((data_type : Kind) (encoding : Form) (from : ℕ) (before : List Page) (page : Page)
        → page.points ≡ points.now → ArePagesRead version data_type encoding from before pages.old
        → AreLaterPoints data_type pages.old points.now → place ≡ from + length (flat_map (page_field encoding) before)
        → ArePagesRead version data_type encoding from (before ++ page ∷ []) pages.new) }
{
    let stats = stats_in(version, points)?;
    pages.stats = join_whole(&pages.stats, &stats)?;
    pages.entries.push(PageEntry { place, stats })?;
    Ok(())
}

/// Reads a page that stands behind others of its chunk.
fn read_next_page<'a>(
    alloc: Global,
    data_type: DataType,
    encoding: Encoding,
    pages: &Pages,
    rest: Rest<'a>,
) -> Result<(Vec<Point>, Rest<'a>), FieldFault>
    requires suits { is_suitable data_type encoding ≡ true }
    ensures parts { ReadsParts (page_bytes encoding)
        (AreLaterPoints data_type pages.now) rest.entry (λ points. points.items) result }
{
    let bad = FieldFault::Bad { at: rest.at };
    let (points, behind) = read_marked_page(alloc, data_type, encoding, rest)?;
    if pages.entries.len() >= MAX_PAGES || points[0].time <= pages.stats.end {
        return Err(bad);
    }
    Ok((points, behind))
}

/// Reads the pages of a chunk in a file of the version.
fn read_pages<'a>(
    alloc: Global,
    version: u8,
    data_type: DataType,
    encoding: Encoding,
    rest: Rest<'a>,
) -> Result<(Pages, Rest<'a>), ReadFault>
    requires suits { is_suitable data_type encoding ≡ true }
    ensures { ReadsOrStops (λ r. ReadsPages version data_type encoding rest.entry r.1 r.0)
        (λ at. (measurement : List ℕ) → StopsBehind (FilePart.Chunk measurement data_type encoding) rest.entry at) result }
{
    let (points, behind) = match read_marked_page(alloc, data_type, encoding, rest) {
        Ok(read) => read,
        Err(fault) => return Err(ReadFault::of_part(fault, rest.at)),
    };
    let mut pages = first_page(alloc, version, rest.at, &points)?;
    let mut left = behind;
    'pages: while begins_with_mark(PAGE, left) {
        match read_next_page(alloc, data_type, encoding, &pages, left) {
            Ok((points, behind)) => {
                add_page(version, left.at, &points, &mut pages)?;
                left = behind;
            }
            Err(fault) => return Err(ReadFault::of_part(fault, left.at)),
        }
    }
    Ok((pages, left))
}

/// Reads the pages of the chunk with this head, which stands at this place.
fn read_chunk<'a>(
    alloc: Global,
    version: u8,
    device: &Path,
    head: ChunkHead,
    place: u64,
    rest: Rest<'a>,
) -> Result<(IndexEntry, Rest<'a>), ReadFault>
    requires head { IsChunkHead head }
    requires behind { rest.at ≡ place + length (part_field (chunk_part head)) }
    ensures { ReadsOrStops (λ r. ReadsChunk version device.now head place rest.entry r.1 r.0)
        (StopsBehind (chunk_part head) rest.entry) result }
{
    let (pages, behind) = read_pages(alloc, version, head.data_type, head.encoding, rest)?;
    let entry = IndexEntry {
        device: device.copy()?,
        measurement: head.measurement,
        data_type: head.data_type,
        encoding: head.encoding,
        place,
        stats: pages.stats,
        pages: List::of(pages.entries),
    };
    Ok((entry, behind))
}

/// Reads the head of a chunk that stands behind others of its group.
fn read_next_head<'a>(
    alloc: Global,
    last: &Name,
    rest: Rest<'a>,
) -> Result<(ChunkHead, Rest<'a>), FieldFault>
    ensures parts { ReadsParts (λ head. part_field (chunk_part head)) (IsLaterHead last.now) rest.entry
        (λ head. head) result }
{
    let (head, behind) = read_chunk_head(alloc, rest)?;
    if *last >= head.measurement {
        return Err(FieldFault::Bad { at: rest.at });
    }
    Ok((head, behind))
}

/// Reads the chunks of a group.
fn read_chunks<'a>(
    alloc: Global,
    version: u8,
    device: &Path,
    rest: Rest<'a>,
) -> Result<(Vec<IndexEntry>, Rest<'a>), ReadFault>
    ensures { ReadsOrStops (λ r. ReadsChunks version device.now rest.entry r.1 r.0.items)
        (StopsBehind (FilePart.Group device.now) rest.entry) result }
{
    let (head, behind) = match read_chunk_head(alloc, rest) {
        Ok(read) => read,
        Err(fault) => return Err(ReadFault::of_part(fault, rest.at)),
    };
    let (entry, behind) = read_chunk(alloc, version, device, head, rest.at, behind)?;
    let mut entries = vec![in alloc; entry]?;
    let mut left = behind;
    'chunks: while begins_with_mark(CHUNK, left) {
        let last = &entries[entries.len() - 1].measurement;
        let (head, behind) = match read_next_head(alloc, last, left) {
            Ok(read) => read,
            Err(fault) => return Err(ReadFault::of_part(fault, left.at)),
        };
        let (entry, behind) = read_chunk(alloc, version, device, head, left.at, behind)?;
        entries.push(entry)?;
        left = behind;
    }
    Ok((entries, left))
}

/// Reads the head of a group that stands behind others.
fn read_next_group<'a>(
    alloc: Global,
    last: &Path,
    rest: Rest<'a>,
) -> Result<(Path, Rest<'a>), FieldFault>
    ensures parts { ReadsParts (λ device. part_field (FilePart.Group device))
        (λ device. IsPath device × IsBefore last.now device) rest.entry (λ device. device) result }
{
    let (device, behind) = read_group_head(alloc, rest)?;
    if *last >= device {
        return Err(FieldFault::Bad { at: rest.at });
    }
    Ok((device, behind))
}

/// What an index of the version says of the groups that all of these bytes are.
pub fn read_groups<'a>(
    alloc: Global,
    version: u8,
    rest: Rest<'a>,
) -> Result<Vec<IndexEntry>, ReadFault>
    requires { rest.at ≡ head_length }
    ensures { ReadsOrStops (λ entries. (tree : Tree) × HasGroups version rest.entry.bytes.now tree entries.items)
        (IsFirstBadPart head_length rest.entry.bytes.now) result }
{
    let (mut last, behind) = match read_group_head(alloc, rest) {
        Ok(read) => read,
        Err(fault) => return Err(ReadFault::of_part(fault, rest.at)),
    };
    let (mut entries, mut left) = read_chunks(alloc, version, &last, behind)?;
    'groups: while !left.bytes.is_empty() {
        let (device, behind) = match read_next_group(alloc, &last, left) {
            Ok(read) => read,
            Err(fault) => return Err(ReadFault::of_part(fault, left.at)),
        };
        let (mut more, behind) = read_chunks(alloc, version, &device, behind)?;
        entries.append(&mut more)?;
        last = device;
        left = behind;
    }
    Ok(entries)
}
