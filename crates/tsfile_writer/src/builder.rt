//! Building a file series by series and point by point, with pages filled in turn. Depends on `layout` and
//! `fault`.
//!
//! What stands in the file are the chunks of the series before the last, and of the last series the pages that are
//! full and that another point follows. Its other points wait in a page of their own. A call first makes what takes
//! memory, so that a call that fails leaves the builder as it was.

ghost use Rattle.std.specs.Prelude.{◌≡◌, ◌<◌, ◌≤◌, ◌⊎◌, List, [], ◌∷◌, ◌++◌, length, take, true, vec_len, IfOk, OnOk};
ghost use Rattle.std.specs.Prelude.{OnErr};
ghost use Rattle.tsdb_base.specs.Values.{is_suitable};
ghost use Rattle.tsdb_pages.specs.declared.tree.Tree.{Tree};
ghost use Rattle.tsdb_index.specs.declared.marks.TheConstants.{VERSION};
ghost use Rattle.tsdb_pages.specs.File.{IsFile, version_in};
ghost use Rattle.tsdb_pages.specs.Pages.{ArePoints};
ghost use Rattle.tsdb_pages.specs.Trees.{IsMade};
ghost use Rattle.tsdb_path.specs.Nodes.{IsPath, device_of as device_in, measurement_of as measurement_in, node_count};
ghost use Rattle.tsfile_writer.specs.Building.{AreClosed, BeginsGroup, IsBuilding, IsStarted, PutsIn, SameIfAny};
ghost use Rattle.tsfile_writer.specs.Building.{SameSeries, WasGiven};
ghost use Rattle.tsfile_writer.specs.BuilderInput.{IsTreeOf, MayBeFollowedBy, MayTake, GivenSeries, given_series};
ghost use Rattle.tsfile_writer.specs.BuilderInput.{with_last_point};

use crate::fault::BuildFault;
use crate::layout::{OpenChunk, append_chunk, append_end, append_group_start};
use std::alloc::Global;
use tsdb_base::limits::{MAX_ENTRIES, MAX_VALUES};
use tsdb_base::{DataType, Encoding, Memory, Point};
use tsdb_index::IndexEntry;
use tsdb_index::marks::HEAD;
use tsdb_path::Path;

/// The most points of a page.
const MAX_POINTS: usize = MAX_VALUES;

/// The most chunks of a file.
const MAX_CHUNKS: usize = MAX_ENTRIES;

/// The series that gets the next point.
#[derive(Drop)]
struct OpenSeries {
    path: Path,
    data_type: DataType,
    encoding: Encoding,
    /// Its chunk, where a page of it stands in the file.
    chunk: Option<OpenChunk>,
    /// The points that do not stand in the file yet, of one page at most.
    points: Vec<Point>,
}

/// A file in the making, from series in the order of a tree and their points in order of time.
#[derive(Drop)]
pub struct Builder {
    alloc: Global,
    bytes: Vec<u8>,
    entries: Vec<IndexEntry>,
    series: Option<OpenSeries>,
}

/// Whether a chunk of this device begins a group: the last chunk, if there is one, is of another device.
fn begins_group(entries: &[IndexEntry], device: &Path) -> bool
    ensures { BeginsGroup entries.now device.now result }
{
    match entries.last() {
        Some(entry) => !entry.device.covers(device),
        None => true,
    }
}

impl OpenSeries {
    /// A series without points.
    fn new(
        alloc: Global,
        path: &Path,
        data_type: DataType,
        encoding: Encoding,
    ) -> Result<OpenSeries, Memory>
        ensures path { IfOk result (λ series. series.path ≡ path.now) }
        ensures data_type { IfOk result (λ series. series.data_type ≡ data_type) }
        ensures encoding { IfOk result (λ series. series.encoding ≡ encoding) }
        ensures chunk { IfOk result (λ series. series.chunk ≡ None) }
        ensures points { IfOk result (λ series. series.points.items ≡ []) }
        ensures good { OnOk result (IsPath path.now) }
    {
        path.sound();
        Ok(OpenSeries {
            path: path.copy()?,
            data_type,
            encoding,
            chunk: None,
            points: Vec::new(alloc),
        })
    }

    /// Appends the chunk with its first page, and what stands before a group's chunks where it begins one. After
    /// `Memory` some of the bytes may stand there.
    fn append_start(
        &self,
        alloc: Global,
        entries: &[IndexEntry],
        into: &mut Vec<u8>,
    ) -> Result<OpenChunk, Memory>
        requires nodes { 2 ≤ node_count self.now.path }
        requires suits { is_suitable self.now.data_type self.now.encoding ≡ true }
        requires points { ArePoints self.now.data_type self.now.points.items }
        ensures ok { IfOk result (IsStarted self.now.path self.now.data_type self.now.encoding
            self.now.points.items entries.now into.old.items into.new.items) }
        ensures kept { take (vec_len into.old) into.new.items ≡ into.old.items }
    {
        let device = self.path.device()?;
        let measurement = self.path.measurement_name()?;
        if begins_group(entries, &device) {
            append_group_start(&device, into)?;
        }
        append_chunk(
            alloc,
            &measurement,
            self.data_type,
            self.encoding,
            &self.points,
            into,
        )
    }

    /// The chunk with its first page, which is put at the end of the bytes. After `Memory` the bytes are as they were.
    fn start(
        &self,
        alloc: Global,
        entries: &[IndexEntry],
        into: &mut Vec<u8>,
    ) -> Result<OpenChunk, Memory>
        requires nodes { 2 ≤ node_count self.now.path }
        requires suits { is_suitable self.now.data_type self.now.encoding ≡ true }
        requires points { ArePoints self.now.data_type self.now.points.items }
        ensures ok { IfOk result (IsStarted self.now.path self.now.data_type self.now.encoding
            self.now.points.items entries.now into.old.items into.new.items) }
        ensures memory { OnErr result (into.new.items ≡ into.old.items) }
    {
        let start = into.len();
        let outcome = self.append_start(alloc, entries, into);
        if outcome.is_err() {
            into.truncate(start);
        }
        outcome
    }

    /// Puts the points that wait as a page at the end of the bytes. After `Memory` all is as before.
    fn put_page(
        &mut self,
        alloc: Global,
        entries: &[IndexEntry],
        into: &mut Vec<u8>,
    ) -> Result<(), Memory>
        requires nodes { 2 ≤ node_count self.old.path }
        requires suits { is_suitable self.old.data_type self.old.encoding ≡ true }
        requires points { ArePoints self.old.data_type self.old.points.items }
        ensures same { SameSeries self.old self.new }
        ensures ok { OnOk result (PutsIn self.old.path self.old.data_type self.old.encoding self.old.points.items
            entries.now into.old.items into.new.items self.old.chunk self.new.chunk) }
        ensures memory { OnErr result (into.new.items ≡ into.old.items) }
        ensures same_chunk { OnErr result (SameIfAny self.old.chunk self.new.chunk) }
    {
        match &mut self.chunk {
            Some(chunk) => chunk.put_page(alloc, &self.points, self.data_type, self.encoding, into),
            None => {
                let chunk = self.start(alloc, entries, into)?;
                self.chunk = Some(chunk);
                Ok(())
            }
        }
    }

    /// Gives the series a point. After `Memory` all is as before, but that a full page may stand in the file.
    fn add_point(
        &mut self,
        alloc: Global,
        point: Point,
        entries: &[IndexEntry],
        into: &mut Vec<u8>,
    ) -> Result<(), Memory>
        requires { (front : List GivenSeries) × (last : GivenSeries)
            × IsBuilding (front ++ last ∷ []) into.old.items entries.now self.old × MayTake point last }
        ensures ok { OnOk result ((front : List GivenSeries) (last : GivenSeries) →
            IsBuilding (front ++ last ∷ []) into.old.items entries.now self.old →
            IsBuilding (front ++ with_last_point point last ∷ []) into.new.items entries.now self.new) }
        ensures memory { OnErr result ((given : List GivenSeries) →
            IsBuilding given into.old.items entries.now self.old →
            IsBuilding given into.new.items entries.now self.new) }
    {
        if self.points.len() == MAX_POINTS {
            self.put_page(alloc, entries, into)?;
            self.points.clear();
        }
        self.points.push(point)?;
        Ok(())
    }

    /// Puts the last page and the entry of the chunk. After `Memory` all is as before.
    fn close(
        &mut self,
        alloc: Global,
        entries: &mut Vec<IndexEntry>,
        into: &mut Vec<u8>,
    ) -> Result<(), Memory>
        requires { (front : List GivenSeries) × (last : GivenSeries)
            × IsBuilding (front ++ last ∷ []) into.old.items entries.old.items self.old × (0 < length last.points) }
        ensures ok { OnOk result ((given : List GivenSeries) →
            IsBuilding given into.old.items entries.old.items self.old →
            AreClosed given (device_in self.old.path) (measurement_in self.old.path) into.new.items entries.new.items) }
        ensures memory { OnErr result ((given : List GivenSeries) →
            IsBuilding given into.old.items entries.old.items self.old →
            IsBuilding given into.new.items entries.new.items self.new) }
    {
        if entries.len() >= MAX_CHUNKS {
            return Err(Memory);
        }
        let device = self.path.device()?;
        let measurement = self.path.measurement_name()?;
        entries.reserve(1)?;
        self.put_page(alloc, entries, into)?;
        let Some(chunk) = self.chunk.take() else {
            unreachable!()
        };
        let entry = chunk.into_entry(device, measurement, self.data_type, self.encoding);
        let Ok(()) = entries.push(entry) else {
            unreachable!()
        };
        Ok(())
    }
}

impl Builder {
    /// No series yet. It takes no memory.
    pub fn new(alloc: Global) -> Builder
        ensures { WasGiven result [] }
    {
        Builder {
            alloc,
            bytes: Vec::new(alloc),
            entries: Vec::new(alloc),
            series: None,
        }
    }

    /// Begins a series, of a device and a measurement behind the last series' in the order of a tree, where that series
    /// has a point.
    pub fn series(
        &mut self,
        schema_path: &Path,
        data_type: DataType,
        encoding: Encoding,
    ) -> Result<(), BuildFault>
        requires nodes { 2 ≤ node_count schema_path.now }
        requires suits { is_suitable data_type encoding ≡ true }
        requires follows { WasGiven self.old [] ⊎ ((front : List GivenSeries) × (last : GivenSeries)
            × WasGiven self.old (front ++ last ∷ [])
            × MayBeFollowedBy (device_in schema_path.now) (measurement_in schema_path.now) last) }
        ensures ok { OnOk result ((given : List GivenSeries) → WasGiven self.old given →
            WasGiven self.new (given ++ given_series schema_path.now data_type encoding ∷ [])) }
        ensures memory { OnErr result ((given : List GivenSeries) → WasGiven self.old given → WasGiven self.new given) }
    {
        let next = OpenSeries::new(self.alloc, schema_path, data_type, encoding)?;
        match &mut self.series {
            Some(last) => last.close(self.alloc, &mut self.entries, &mut self.bytes)?,
            None => self.bytes.extend_from_slice(&HEAD)?,
        }
        self.series = Some(next);
        Ok(())
    }

    /// Gives the last series a point of its type, later than the points before.
    pub fn point(&mut self, point: Point) -> Result<(), BuildFault>
        requires { (front : List GivenSeries) × (last : GivenSeries)
            × WasGiven self.old (front ++ last ∷ []) × MayTake point last }
        ensures ok { OnOk result ((front : List GivenSeries) (last : GivenSeries)
            → WasGiven self.old (front ++ last ∷ []) →
            WasGiven self.new (front ++ with_last_point point last ∷ [])) }
        ensures memory { OnErr result ((given : List GivenSeries) → WasGiven self.old given → WasGiven self.new given) }
    {
        let Some(last) = &mut self.series else {
            unreachable!()
        };
        last.add_point(self.alloc, point, &self.entries, &mut self.bytes)?;
        Ok(())
    }

    /// The bytes of the file, where the last series has a point. Its tree is one that a reader reads back. Its version
    /// is the one whose statistics have sums.
    pub fn finish(mut self) -> Result<Vec<u8>, BuildFault>
        requires { (front : List GivenSeries) × (last : GivenSeries)
            × WasGiven self (front ++ last ∷ []) × (0 < length last.points) }
        ensures file { IfOk result (λ bytes. (given : List GivenSeries) → WasGiven self given →
            (tree : Tree) × IsTreeOf given tree × IsFile tree bytes.items × IsMade tree) }
        ensures version { IfOk result (λ bytes. version_in bytes.items ≡ VERSION) }
    {
        let Some(last) = &mut self.series else {
            unreachable!()
        };
        last.close(self.alloc, &mut self.entries, &mut self.bytes)?;
        let bytes = append_end(self.alloc, self.entries, self.bytes)?;
        Ok(bytes)
    }
}
