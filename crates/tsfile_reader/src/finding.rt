//! Reading the entry of one series, without the leaves that cannot have it. Depends on `ends`, `fault`, `port`,
//! tsdb_index and tsdb_path.
ghost use Rattle.std.specs.Prelude.{◌≡◌, ◌<◌, ◌≤◌, ◌^◌, List, All, length, map, IfOk, IfSome};
ghost use Rattle.tsdb_index.specs.declared.index.IndexEntry.{IndexEntry as Entry};
ghost use Rattle.tsdb_index.specs.Entries.{AreInOrder, IsEntry, names_of};
ghost use Rattle.tsdb_path.specs.Order.{AreNamesBefore};
ghost use Rattle.tsdb_index.specs.Parts.{IsLeaf, leaf_end};
ghost use Rattle.tsdb_pages.specs.declared.tree.Tree.{Tree as TreeIn};
ghost use Rattle.tsdb_pages.specs.File.{IsFile, version_in};
ghost use Rattle.tsdb_pages.specs.Trees.{IsMade, IsTree};
ghost use Rattle.tsfile_reader.specs.Answers.{Answers, HasReadCause, IsNotDamaged};
ghost use Rattle.tsfile_reader.specs.LookUp.{IsBadLookUp, IsEntryInTree, IsFormedEntry, IsLookedUp, leaf_bytes};

use crate::fault::ReadFault;
use crate::port::{read_front, read_part};
use std::alloc::Global;
use tsdb_index::{IndexEntry, Pointer, end_of, entry_for, leaf_for, read_leaf};
use tsdb_outside::Port;
use tsdb_path::{Name, Path};

/// Reads the entries of the leaf at a pointer of a file of the version, with the pointers behind it.
fn read_one_leaf<P: Port>(
    alloc: Global,
    port: &mut P,
    right: &P::Right,
    version: u8,
    pointer: &Pointer,
    behind: &[Pointer],
    root: u64,
) -> Result<Vec<IndexEntry>, ReadFault>
    requires from { pointer.now.place ≤ leaf_end root behind.now }
    requires to { leaf_end root behind.now ≤ root }
    requires inside { IfSome (P.Right.file right.now).bytes (λ bytes. root ≤ length bytes) }
    requires store { (P.Right.file right.now).store ≡ P.store port.old }
    ensures answers { Answers
        (λ bytes entries. IsLeaf version pointer.now behind.now (leaf_bytes root pointer.now behind.now bytes)
        entries.items)
        (λ bytes at. (at ≡ pointer.now.place) × ((entries : List Entry)
        → IsLeaf version pointer.now behind.now (leaf_bytes root pointer.now behind.now bytes) entries → ⊥))
        (P.Right.file right.now).bytes result }
    ensures order { IfOk result (λ entries. AreInOrder AreNamesBefore (map names_of entries.items)) }
    ensures formed { IfOk result (λ entries. All (IsEntry version) entries.items) }
    ensures same_store { P.store port.new ≡ P.store port.old }
    ensures cause { HasReadCause (P.faults port.old) (P.faults port.new) result }
{
    let end = end_of(behind, root);
    let bytes = read_part(alloc, port, right, pointer.place, end - pointer.place)?;
    match read_leaf(alloc, &bytes, version, pointer, behind) {
        Ok(entries) => Ok(entries),
        Err(fault) => Err(ReadFault::of_part(fault, pointer.place)),
    }
}

/// Looks the names up in the root and then in one leaf.
fn look_up<P: Port>(
    alloc: Global,
    port: &mut P,
    right: &P::Right,
    device: &Path,
    measurement: &Name,
) -> Result<Option<IndexEntry>, ReadFault>
    requires store { (P.Right.file right.now).store ≡ P.store port.old }
    ensures answers { Answers (λ bytes. IsLookedUp bytes (device.now, measurement.now))
        (λ bytes. IsBadLookUp bytes (device.now, measurement.now)) (P.Right.file right.now).bytes result }
    ensures limit { Answers (λ bytes found. length bytes < 2 ^ 63) (λ bytes at. length bytes < 2 ^ 63)
        (P.Right.file right.now).bytes result }
    ensures formed { IfOk result (λ found. IfSome found IsFormedEntry) }
    ensures named { IfOk result (λ found. IfSome found (λ entry. names_of entry ≡ (device.now, measurement.now))) }
    ensures same_store { P.store port.new ≡ P.store port.old }
    ensures cause { HasReadCause (P.faults port.old) (P.faults port.new) result }
{
    let front = read_front(alloc, port, right)?;
    let Some((pointer, behind)) = leaf_for(&front.root.pointers, device, measurement) else {
        return Ok(None);
    };
    let (version, root) = (front.ends.version, front.ends.root);
    let entries = read_one_leaf(alloc, port, right, version, pointer, behind, root)?;
    Ok(entry_for(entries, device, measurement))
}

/// Reads what the index says of one series, or `None` where the index does not have it. It reads the tail, the head, the
/// root and of the leaves the one that may have the series. It is `Damaged` at the first of these that is not as
/// defined.
pub fn find_entry<P: Port>(
    alloc: Global,
    port: &mut P,
    right: &P::Right,
    device: &Path,
    measurement: &Name,
) -> Result<Option<IndexEntry>, ReadFault>
    requires store { (P.Right.file right.now).store ≡ P.store port.old }
    ensures answers { Answers (λ bytes. IsLookedUp bytes (device.now, measurement.now))
        (λ bytes. IsBadLookUp bytes (device.now, measurement.now)) (P.Right.file right.now).bytes result }
    ensures tree { IfSome (P.Right.file right.now).bytes (λ bytes. (tree : TreeIn) → IsTree tree → IsMade tree
        → IsFile tree bytes
        → IsNotDamaged result × IfOk result (IsEntryInTree (version_in bytes) tree (device.now, measurement.now))) }
    ensures formed { IfOk result (λ found. IfSome found IsFormedEntry) }
    ensures named { IfOk result (λ found. IfSome found (λ entry. names_of entry ≡ (device.now, measurement.now))) }
    ensures same_store { P.store port.new ≡ P.store port.old }
    ensures cause { HasReadCause (P.faults port.old) (P.faults port.new) result }
{
    look_up(alloc, port, right, device, measurement)
}
