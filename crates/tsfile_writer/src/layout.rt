//! The parts of a file, each put behind what is there, and what the index says of them. Depends on tsdb_fields,
//! tsdb_stats, tsdb_pages and tsdb_index.
ghost use Rattle.std.specs.Prelude.{◌≡◌, ◌+◌, ◌<◌, ◌≤◌, ◌++◌, [], ◌∷◌, List, ℕ, length, take, true, vec_len, IfOk};
ghost use Rattle.std.specs.Prelude.{OnOk, OnErr};
ghost use Rattle.tsdb_base.specs.Fields.{number64};
ghost use Rattle.tsdb_base.specs.Values.{is_suitable};
ghost use Rattle.tsdb_index.specs.Spelling.{IsIndexSpelling};
ghost use Rattle.tsdb_pages.specs.File.{chunk_start, group_start, magic, page_bytes};
ghost use Rattle.tsdb_pages.specs.Pages.{ArePoints};
ghost use Rattle.tsfile_writer.specs.Steps.{HasOpenSums, IsChunkBegun, IsLonger, SameChunk};

use std::alloc::Global;
use tsdb_base::limits::MAX_PAGES;
use tsdb_base::{DataType, Encoding, List, Memory, PlainValue, Point, Stats};
use tsdb_bits::all_or_none;
use tsdb_fields::{write_name, write_path};
use tsdb_index::marks::{CHUNK, GROUP, MAGIC, PAGE};
use tsdb_index::{Index, IndexEntry, PageEntry, write_leaves_and_root};
use tsdb_pages::write_page;
use tsdb_path::{Name, Path};
use tsdb_stats::{join_whole, stats_of};

/// What the index says so far of a chunk that may get more pages.
#[derive(Drop)]
pub(crate) struct OpenChunk {
    /// The place of the chunk's first byte in the file.
    pub(crate) place: u64,
    /// Those of all pages so far.
    pub(crate) stats: Stats,
    pub(crate) pages: Vec<PageEntry>,
}

/// Appends what stands before a group's chunks. After `Memory` some of its bytes may stand there.
pub(crate) fn append_group_start(device: &Path, into: &mut Vec<u8>) -> Result<(), Memory>
    ensures ok { OnOk result (into.new.items ≡ into.old.items ++ group_start device.now) }
    ensures kept { take (vec_len into.old) into.new.items ≡ into.old.items }
{
    into.push(GROUP)?;
    write_path(device, into)
}

/// Appends what stands before a chunk's pages. After `Memory` some of its bytes may stand there.
fn append_chunk_start(
    measurement: &Name,
    data_type: DataType,
    encoding: Encoding,
    into: &mut Vec<u8>,
) -> Result<(), Memory>
    ensures ok { OnOk result (into.new.items ≡ into.old.items ++ chunk_start measurement.now data_type encoding) }
    ensures kept { take (vec_len into.old) into.new.items ≡ into.old.items }
{
    into.push(CHUNK)?;
    write_name(measurement, into)?;
    data_type.put(into)?;
    encoding.put(into)
}

/// Appends a page. After `Memory` some of its bytes may stand there.
fn append_page(
    alloc: Global,
    points: &[Point],
    data_type: DataType,
    encoding: Encoding,
    into: &mut Vec<u8>,
) -> Result<(), Memory>
    requires suits { is_suitable data_type encoding ≡ true }
    requires points { ArePoints data_type points.now }
    ensures ok { OnOk result (into.new.items ≡ into.old.items ++ page_bytes encoding points.now) }
    ensures kept { take (vec_len into.old) into.new.items ≡ into.old.items }
{
    let body = write_page(alloc, points, data_type, encoding)?;
    let Ok(length) = u32::try_from(body.len()) else {
        return Err(Memory);
    };
    into.push(PAGE)?;
    length.put(into)?;
    into.extend_from_slice(&body)?;
    Ok(())
}

/// Appends a page. After `Memory` the bytes are as they were.
fn put_page(
    alloc: Global,
    points: &[Point],
    data_type: DataType,
    encoding: Encoding,
    into: &mut Vec<u8>,
) -> Result<(), Memory>
    requires suits { is_suitable data_type encoding ≡ true }
    requires points { ArePoints data_type points.now }
    ensures ok { OnOk result (into.new.items ≡ into.old.items ++ page_bytes encoding points.now) }
    ensures memory { OnErr result (into.new.items ≡ into.old.items) }
{
    let start = into.len();
    let appended = append_page(alloc, points, data_type, encoding, into);
    all_or_none(appended, start, into)
}

/// Appends a chunk with its first page. After `Memory` some of its bytes may stand there.
pub(crate) fn append_chunk(
    alloc: Global,
    measurement: &Name,
    data_type: DataType,
    encoding: Encoding,
    points: &[Point],
    into: &mut Vec<u8>,
) -> Result<OpenChunk, Memory>
    requires suits { is_suitable data_type encoding ≡ true }
    requires points { ArePoints data_type points.now }
    ensures bytes { OnOk result (into.new.items ≡
        into.old.items ++ (chunk_start measurement.now data_type encoding ++ page_bytes encoding points.now)) }
    ensures chunk { IfOk result (IsChunkBegun (length into.old.items)
        (length (chunk_start measurement.now data_type encoding)) points.now) }
    ensures sums { IfOk result (HasOpenSums data_type) }
    ensures kept { take (vec_len into.old) into.new.items ≡ into.old.items }
{
    let place = into.len() as u64;
    let stats = stats_of(points)?;
    append_chunk_start(measurement, data_type, encoding, into)?;
    let first = PageEntry {
        place: into.len() as u64,
        stats: stats.copy()?,
    };
    append_page(alloc, points, data_type, encoding, into)?;
    let pages = vec![in alloc; first]?;
    Ok(OpenChunk {
        place,
        stats,
        pages,
    })
}

impl OpenChunk {
    /// Puts a page behind the others, at the end of the bytes. After `Memory` all is as before.
    pub(crate) fn put_page(
        &mut self,
        alloc: Global,
        points: &[Point],
        data_type: DataType,
        encoding: Encoding,
        into: &mut Vec<u8>,
    ) -> Result<(), Memory>
        requires suits { is_suitable data_type encoding ≡ true }
        requires points { ArePoints data_type points.now }
        ensures bytes { OnOk result (into.new.items ≡ into.old.items ++ page_bytes encoding points.now) }
        ensures chunk { OnOk result (IsLonger (length into.old.items) points.now self.old self.new) }
        ensures sums { OnOk result (HasOpenSums data_type self.old → HasOpenSums data_type self.new) }
        ensures memory { OnErr result (into.new.items ≡ into.old.items) }
        ensures same_chunk { OnErr result (SameChunk self.old self.new) }
    {
        if self.pages.len() >= MAX_PAGES {
            return Err(Memory);
        }
        let place = into.len() as u64;
        self.pages.reserve(1)?;
        let stats = stats_of(points)?;
        let all = join_whole(&self.stats, &stats)?;
        put_page(alloc, points, data_type, encoding, into)?;
        let Ok(()) = self.pages.push(PageEntry { place, stats }) else {
            unreachable!()
        };
        self.stats = all;
        Ok(())
    }

    /// What the index says of the chunk.
    pub(crate) fn into_entry(
        self,
        device: Path,
        measurement: Name,
        data_type: DataType,
        encoding: Encoding,
    ) -> IndexEntry
        ensures device { result.device ≡ device }
        ensures measurement { result.measurement ≡ measurement }
        ensures data_type { result.data_type ≡ data_type }
        ensures encoding { result.encoding ≡ encoding }
        ensures place { result.place ≡ self.place }
        ensures stats { result.stats ≡ self.stats }
        ensures pages { result.pages ≡ self.pages.items }
    {
        IndexEntry {
            device,
            measurement,
            data_type,
            encoding,
            place: self.place,
            stats: self.stats,
            pages: List::of(self.pages),
        }
    }
}

/// Appends the index and the tail.
pub(crate) fn append_end(
    alloc: Global,
    entries: Vec<IndexEntry>,
    mut bytes: Vec<u8>,
) -> Result<Vec<u8>, Memory>
    requires { 0 < length entries.items }
    ensures { IfOk result (λ file. (index : List ℕ) × (root : ℕ)
        × IsIndexSpelling (length bytes.items) root entries.items index
        × (file.items ≡ bytes.items ++ index ++ number64 root ++ magic)) }
{
    let index = Index {
        entries: List::of(entries),
    };
    let (leaves_and_root, root) = write_leaves_and_root(alloc, &index, bytes.len() as u64)?;
    bytes.extend_from_slice(&leaves_and_root)?;
    root.put(&mut bytes)?;
    bytes.extend_from_slice(&MAGIC)?;
    Ok(bytes)
}
