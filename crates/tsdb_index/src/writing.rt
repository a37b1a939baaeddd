//! Writing an index. Depends on `index`.
ghost use Rattle.std.specs.Prelude.{◌≡◌, ℕ, ◌<◌, ◌≤◌, ◌++◌, length, IfOk, OnOk};
ghost use Rattle.std.specs.List.{flat_map};
ghost use Rattle.tsdb_base.specs.Limits.{max_leaf_entries};
ghost use Rattle.tsdb_index.specs.Spelling.{page_entry_field, entry_field, leaf_field, pointer_field, IsIndexSpelling};
ghost use Rattle.tsdb_index.specs.Steps.{IsLeafAppended, AreWritten};

use crate::index::{Index, IndexEntry, PageEntry};
use crate::marks::{LEAF, ROOT};
use std::alloc::Global;
use tsdb_base::limits::MAX_LEAF_ENTRIES;
use tsdb_base::{Memory, PlainValue};
use tsdb_fields::{write_name, write_path, write_stats};

fn write_page(page: &PageEntry, into: &mut Vec<u8>) -> Result<(), Memory>
    ensures ok { OnOk result (into.new.items ≡ into.old.items ++ page_entry_field page.now) }
{
    page.place.put(into)?;
    write_stats(&page.stats, into)
}

fn write_pages(pages: &[PageEntry], into: &mut Vec<u8>) -> Result<(), Memory>
    ensures ok { OnOk result (into.new.items ≡ into.old.items ++ flat_map page_entry_field pages.now) }
{
    for page in pages {
        write_page(page, into)?;
    }
    Ok(())
}

fn write_entry(entry: &IndexEntry, into: &mut Vec<u8>) -> Result<(), Memory>
    ensures ok { OnOk result (into.new.items ≡ into.old.items ++ entry_field entry.now) }
{
    let Ok(pages) = u32::try_from(entry.pages.items().len()) else {
        return Err(Memory);
    };
    write_path(&entry.device, into)?;
    write_name(&entry.measurement, into)?;
    entry.data_type.put(into)?;
    entry.encoding.put(into)?;
    entry.place.put(into)?;
    write_stats(&entry.stats, into)?;
    pages.put(into)?;
    write_pages(entry.pages.items(), into)
}

fn write_entries(entries: &[IndexEntry], into: &mut Vec<u8>) -> Result<(), Memory>
    ensures ok { OnOk result (into.new.items ≡ into.old.items ++ flat_map entry_field entries.now) }
{
    for entry in entries {
        write_entry(entry, into)?;
    }
    Ok(())
}

fn write_leaf(leaf: &[IndexEntry], into: &mut Vec<u8>) -> Result<(), Memory>
    requires { length leaf.now ≤ max_leaf_entries }
    ensures ok { OnOk result (into.new.items ≡ into.old.items ++ leaf_field leaf.now) }
{
    into.push(LEAF)?;
    (leaf.len() as u16).put(into)?;
    write_entries(leaf, into)
}

fn write_pointer(first: &IndexEntry, place: u64, into: &mut Vec<u8>) -> Result<(), Memory>
    ensures ok { OnOk result (into.new.items ≡ into.old.items ++ pointer_field first.now place) }
{
    write_path(&first.device, into)?;
    write_name(&first.measurement, into)?;
    place.put(into)
}

/// Leaves one behind another, and the pointers at them.
#[derive(Drop)]
struct Leaves {
    bytes: Vec<u8>,
    pointers: Vec<u8>,
    count: u32,
}

/// Appends a leaf, where the first one stands at this place, and the pointer at it.
fn append_leaf(leaf: &[IndexEntry], place: u64, into: &mut Leaves) -> Result<(), Memory>
    requires some { 0 < length leaf.now }
    requires few { length leaf.now ≤ max_leaf_entries }
    ensures ok { OnOk result (IsLeafAppended leaf.now place into.old into.new) }
{
    let at = place.checked_add(into.bytes.len() as u64).ok_or(Memory)?;
    into.count = into.count.checked_add(1).ok_or(Memory)?;
    write_pointer(&leaf[0], at, &mut into.pointers)?;
    write_leaf(leaf, &mut into.bytes)
}

/// The leaves of these entries, where the first one stands at this place.
fn write_leaves(alloc: Global, entries: &[IndexEntry], place: u64) -> Result<Leaves, Memory>
    requires { 0 < length entries.now }
    ensures { IfOk result (AreWritten place entries.now) }
{
    let mut leaves = Leaves {
        bytes: Vec::new(alloc),
        pointers: Vec::new(alloc),
        count: 0,
    };
    let mut rest = entries;
    'leaves: while !rest.is_empty() {
        let (leaf, behind) = rest.split_at(rest.len().min(MAX_LEAF_ENTRIES));
        append_leaf(leaf, place, &mut leaves)?;
        rest = behind;
    }
    Ok(leaves)
}

/// The bytes of an index whose first leaf stands at this place, and the place of its root. `Memory` is also answered
/// where a place or a count would not fit its bytes.
pub fn write_leaves_and_root(
    alloc: Global,
    index: &Index,
    place: u64,
) -> Result<(Vec<u8>, u64), Memory>
    requires { 0 < length index.now.entries }
    ensures { IfOk result (λ r. IsIndexSpelling place r.1 index.now.entries r.0.items) }
{
    let Leaves {
        mut bytes,
        pointers,
        count,
    } = write_leaves(alloc, index.entries.items(), place)?;
    let root = place.checked_add(bytes.len() as u64).ok_or(Memory)?;
    bytes.push(ROOT)?;
    count.put(&mut bytes)?;
    bytes.extend_from_slice(&pointers)?;
    Ok((bytes, root))
}

/// The bytes of an index whose first leaf stands at this place. `Memory` is also answered where a place or a count
/// would not fit its bytes.
pub fn write_index(alloc: Global, index: &Index, place: u64) -> Result<Vec<u8>, Memory>
    requires { 0 < length index.now.entries }
    ensures { IfOk result (λ bytes. (root : ℕ) × IsIndexSpelling place root index.now.entries bytes.items) }
{
    let (bytes, _root) = write_leaves_and_root(alloc, index, place)?;
    Ok(bytes)
}
