//! Writing the file of a tree. Depends on `layout`.
ghost use Rattle.std.specs.Prelude.{◌≡◌, List, [], ◌∷◌, ◌++◌, true, IfOk, OnOk};
ghost use Rattle.tsdb_pages.specs.declared.tree.Chunk.{Chunk as ChunkOf};
ghost use Rattle.tsdb_pages.specs.declared.tree.Group.{Group as GroupOf};
ghost use Rattle.tsdb_index.specs.declared.marks.TheConstants.{VERSION};
ghost use Rattle.tsdb_pages.specs.File.{IsFileIn};
ghost use Rattle.tsdb_pages.specs.Trees.{IsChunk, IsGroup, IsTree};
ghost use Rattle.tsfile_writer.specs.Steps.{AreChunks, AreGroupsWritten};

use crate::layout::{append_chunk, append_end, append_group_start};
use std::alloc::Global;
use tsdb_base::Memory;
use tsdb_index::IndexEntry;
use tsdb_index::marks::HEAD;
use tsdb_pages::{Chunk, Group, Tree};
use tsdb_path::Path;

/// Appends a chunk, and its entry.
fn write_chunk(
    alloc: Global,
    device: &Path,
    chunk: &Chunk,
    entries: &mut Vec<IndexEntry>,
    into: &mut Vec<u8>,
) -> Result<(), Memory>
    requires { IsChunk chunk.now }
    ensures ok { OnOk result ((groups : List GroupOf) (chunks : List ChunkOf) →
        AreChunks groups device.now chunks into.old.items entries.old.items →
        AreChunks groups device.now (chunks ++ chunk.now ∷ []) into.new.items entries.new.items) }
{
    let Chunk {
        measurement,
        data_type,
        encoding,
        pages,
    } = chunk;
    let pages = pages.items();
    let mut open = append_chunk(
        alloc,
        measurement,
        *data_type,
        *encoding,
        pages[0].points.items(),
        into,
    )?;
    for page in &pages[1..] {
        open.put_page(alloc, page.points.items(), *data_type, *encoding, into)?;
    }
    let entry = open.into_entry(device.copy()?, measurement.copy()?, *data_type, *encoding);
    entries.push(entry)?;
    Ok(())
}

/// Appends a group, and the entries of its chunks.
fn write_group(
    alloc: Global,
    group: &Group,
    entries: &mut Vec<IndexEntry>,
    into: &mut Vec<u8>,
) -> Result<(), Memory>
    requires { IsGroup group.now }
    ensures ok { OnOk result ((groups : List GroupOf) → AreGroupsWritten groups into.old.items entries.old.items →
        AreGroupsWritten (groups ++ group.now ∷ []) into.new.items entries.new.items) }
{
    append_group_start(&group.device, into)?;
    for chunk in group.chunks.items() {
        write_chunk(alloc, &group.device, chunk, entries, into)?;
    }
    Ok(())
}

/// The bytes of the file of a tree, in the version whose statistics have sums.
pub fn write_tree(alloc: Global, tree: &Tree) -> Result<Vec<u8>, Memory>
    requires { IsTree tree.now }
    ensures file { IfOk result (λ bytes. IsFileIn VERSION tree.now bytes.items) }
{
    let mut entries = Vec::new(alloc);
    let mut bytes = Vec::from_slice(alloc, &HEAD)?;
    for group in tree.groups.items() {
        write_group(alloc, group, &mut entries, &mut bytes)?;
    }
    append_end(alloc, entries, bytes)
}
