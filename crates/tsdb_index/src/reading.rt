//! Reading an index: the root first, and then the leaf at each of its pointers. Depends on `index`, `pointer`, `order`,
//! `version` and `fault`.
ghost use Rattle.std.specs.Prelude.{◌≡◌, ℕ, ◌+◌, ◌<◌, ◌≤◌, ◌^◌, ◌∷◌, List, length, IfOk, IfErr, MatchOption};
ghost use Rattle.tsdb_index.specs.declared.marks.TheConstants.{LEAF, ROOT};
ghost use Rattle.tsdb_base.specs.Fields.{number16, number32};
ghost use Rattle.tsdb_fields.specs.Reading.{LacksPart, Reads};
ghost use Rattle.tsdb_fields.specs.Statistics.{stats_field, IsStatsOf};
ghost use Rattle.tsdb_index.specs.Entries.{IsEntry, IsPageOf};
ghost use Rattle.tsdb_index.specs.Faults.{IsIndexFault, IsIndexRead, ReadsWhole};
ghost use Rattle.tsdb_index.specs.Parts.{IsLeaf, IsPointer, IsRoot, leaf_end, pointer_bytes};
ghost use Rattle.tsdb_index.specs.Spelling.{page_entry_field, entry_field};
ghost use Rattle.tsdb_index.specs.Steps.{AreSpread, IsCountedList, ReadsLeaves};
ghost use Rattle.tsdb_index.specs.Versions.{has_sums as sums};

use crate::fault::IndexFault;
use crate::index::{Index, IndexEntry, PageEntry};
use crate::marks::{LEAF, ROOT};
use crate::order::{are_leaf, are_root};
use crate::pointer::Pointer;
use crate::version::has_sums;
use std::alloc::Global;
use tsdb_base::{DataType, List, Stats, suits};
use tsdb_fields::{
    FieldFault, FieldReader, Rest, read_field, read_fields, read_name, read_path, read_stats,
};

/// Reads statistics of values of this type, as the index of a version has them.
fn read_stats_in<'a>(
    alloc: Global,
    version: u8,
    data_type: DataType,
    rest: Rest<'a>,
) -> Result<(Stats, Rest<'a>), FieldFault>
    ensures exact { Reads stats_field (IsStatsOf (sums version) data_type) rest.entry (λ stats. stats) result }
{
    read_stats(alloc, data_type, has_sums(version), rest)
}

/// Reads what the index of a version says of a page, in a chunk of this type.
#[derive(Clone, Copy)]
struct PageReader {
    version: u8,
    data_type: DataType,
}

impl FieldReader for PageReader {
    type Field = PageEntry;

    ghost spelling = { page_entry_field };

    ghost is_field = { λ reader. IsPageOf reader.version reader.data_type };

    ghost is_bad = { λ reader. LacksPart page_entry_field (IsPageOf reader.version reader.data_type) };

    fn read<'a>(&self, alloc: Global, rest: Rest<'a>) -> Result<(PageEntry, Rest<'a>), FieldFault> {
        let (place, behind) = read_field(alloc, rest)?;
        let (stats, behind) = read_stats_in(alloc, self.version, self.data_type, behind)?;
        Ok((PageEntry { place, stats }, behind))
    }
}

/// Reads what the index of a version says of a chunk.
#[derive(Clone, Copy)]
struct EntryReader {
    version: u8,
}

impl FieldReader for EntryReader {
    type Field = IndexEntry;

    ghost spelling = { entry_field };

    ghost is_field = { λ reader. IsEntry reader.version };

    ghost is_bad = { λ reader. LacksPart entry_field (IsEntry reader.version) };

    fn read<'a>(
        &self,
        alloc: Global,
        rest: Rest<'a>,
    ) -> Result<(IndexEntry, Rest<'a>), FieldFault> {
        let (device, behind) = read_path(alloc, rest)?;
        let (measurement, behind) = read_name(alloc, behind)?;
        let ((data_type, (encoding, place)), behind) = read_field(alloc, behind)?;
        if !suits(data_type, encoding) {
            return Err(FieldFault::Bad { at: rest.at });
        }
        let (stats, behind) = read_stats_in(alloc, self.version, data_type, behind)?;
        let (count, behind) = read_field::<u32>(alloc, behind)?;
        let reader = PageReader {
            version: self.version,
            data_type,
        };
        let (pages, behind) = read_fields(&reader, alloc, count as u64, behind)?;
        let entry = IndexEntry {
            device,
            measurement,
            data_type,
            encoding,
            place,
            stats,
            pages: List::of(pages),
        };
        Ok((entry, behind))
    }
}

#[derive(Clone, Copy)]
struct PointerReader;

impl FieldReader for PointerReader {
    type Field = Pointer;

    ghost spelling = { pointer_bytes };

    ghost is_field = { λ _. IsPointer };

    ghost is_bad = { λ _. LacksPart pointer_bytes IsPointer };

    fn read<'a>(&self, alloc: Global, rest: Rest<'a>) -> Result<(Pointer, Rest<'a>), FieldFault> {
        let (device, behind) = read_path(alloc, rest)?;
        let (measurement, behind) = read_name(alloc, behind)?;
        let (place, behind) = read_field(alloc, behind)?;
        let pointer = Pointer {
            device,
            measurement,
            place,
        };
        Ok((pointer, behind))
    }
}

/// What stands behind the mark of a part, if the bytes begin with the mark. Places inside a part are not asked for, so
/// they are counted from 0.
fn fields_behind(mark: u8, bytes: &[u8]) -> Option<Rest<'_>>
    ensures { MatchOption result ((fields : List ℕ) → bytes.now ≡ mark ∷ fields → ⊥)
        (λ rest. bytes.now ≡ mark ∷ rest.bytes.now) }
{
    let [first, fields @ ..] = bytes else {
        return None;
    };
    if *first == mark {
        Some(Rest {
            at: 0,
            bytes: fields,
        })
    } else {
        None
    }
}

/// The entries of the leaf that all of these bytes are, of any number. A fault has no place of its own.
fn entries_in(alloc: Global, bytes: &[u8], version: u8) -> Result<Vec<IndexEntry>, FieldFault>
    ensures { ReadsWhole (IsCountedList LEAF number16 (2 ^ 16) entry_field (IsEntry version) bytes.now)
        (λ entries. entries.items) result }
{
    let bad = FieldFault::Bad { at: 0 };
    let Some(rest) = fields_behind(LEAF, bytes) else {
        return Err(bad);
    };
    let (count, rest) = read_field::<u16>(alloc, rest)?;
    let reader = EntryReader { version };
    let (entries, rest) = read_fields(&reader, alloc, count as u64, rest)?;
    if !rest.bytes.is_empty() {
        return Err(bad);
    }
    Ok(entries)
}

/// The pointers of the root that all of these bytes are, of any number and order. A fault has no place of its own.
pub fn pointers_in(alloc: Global, bytes: &[u8]) -> Result<Vec<Pointer>, FieldFault>
    ensures { ReadsWhole (IsCountedList ROOT number32 (2 ^ 32) pointer_bytes IsPointer bytes.now)
        (λ pointers. pointers.items) result }
{
    let bad = FieldFault::Bad { at: 0 };
    let Some(rest) = fields_behind(ROOT, bytes) else {
        return Err(bad);
    };
    let (count, rest) = read_field::<u32>(alloc, rest)?;
    let (pointers, rest) = read_fields(&PointerReader, alloc, count as u64, rest)?;
    if !rest.bytes.is_empty() {
        return Err(bad);
    }
    Ok(pointers)
}

/// The pointers of the root that all of these bytes are, where the first leaf stands at `place` and the leaves end at
/// `root`.
fn read_root(alloc: Global, bytes: &[u8], place: u64, root: u64) -> Result<Vec<Pointer>, FieldFault>
    ensures { ReadsWhole (IsRoot place root bytes.now) (λ pointers. pointers.items) result }
{
    let pointers = pointers_in(alloc, bytes)?;
    if !are_root(&pointers, place, root) {
        return Err(FieldFault::Bad { at: 0 });
    }
    Ok(pointers)
}

/// The entries of the leaf that all of these bytes are, as the pointer at it and the pointers behind it say.
pub fn read_leaf(
    alloc: Global,
    bytes: &[u8],
    version: u8,
    pointer: &Pointer,
    behind: &[Pointer],
) -> Result<Vec<IndexEntry>, FieldFault>
    ensures { ReadsWhole (IsLeaf version pointer.now behind.now bytes.now) (λ entries. entries.items) result }
{
    let entries = entries_in(alloc, bytes, version)?;
    if !are_leaf(&entries, pointer, behind) {
        return Err(FieldFault::Bad { at: 0 });
    }
    Ok(entries)
}

/// Where a leaf ends: at the next leaf, or at the root.
pub fn end_of(behind: &[Pointer], root: u64) -> u64
    ensures { result ≡ leaf_end root behind.now }
{
    match behind {
        [] => root,
        [next, ..] => next.place,
    }
}

/// The entries of the leaves that all of these bytes are, which end at `root`.
pub fn read_leaves(
    alloc: Global,
    bytes: &[u8],
    version: u8,
    pointers: &[Pointer],
    root: u64,
) -> Result<Vec<IndexEntry>, IndexFault>
    requires { AreSpread root pointers.now (length bytes.now) }
    ensures { ReadsLeaves version root pointers.now bytes.now (λ entries. entries.items) result }
{
    let mut entries = Vec::new(alloc);
    let mut rest = pointers;
    let mut left = bytes;
    'leaves: while let [pointer, behind @ ..] = rest {
        let end = end_of(behind, root);
        let (leaf, others) = left.split_at((end - pointer.place) as usize);
        match read_leaf(alloc, leaf, version, pointer, behind) {
            Ok(mut more) => entries.append(&mut more)?,
            Err(fault) => return Err(IndexFault::of_part(fault, pointer.place)),
        }
        rest = behind;
        left = others;
    }
    Ok(entries)
}

/// Reads the index of a version that is all of these bytes. The first of them stands at `place`, the first of the root
/// at `root`.
pub fn read_index(
    alloc: Global,
    bytes: &[u8],
    place: u64,
    root: u64,
    version: u8,
) -> Result<Index, IndexFault>
    requires room { place + length bytes.now < 2 ^ 64 }
    requires from { place ≤ root }
    requires to { root ≤ place + length bytes.now }
    ensures found { IfOk result (λ index. IsIndexRead version place root bytes.now index.entries) }
    ensures bad { IfErr result (IsIndexFault version place root bytes.now) }
{
    let (leaves, root_bytes) = bytes.split_at((root - place) as usize);
    let pointers = match read_root(alloc, root_bytes, place, root) {
        Ok(pointers) => pointers,
        Err(fault) => return Err(IndexFault::of_part(fault, root)),
    };
    let entries = read_leaves(alloc, leaves, version, &pointers, root)?;
    Ok(Index {
        entries: List::of(entries),
    })
}
