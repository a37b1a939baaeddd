//! The order of entries and of pointers, by their names. Depends on `index` and `pointer`.
ghost use Rattle.std.specs.Prelude.{◌<◌, ◌-◌, ◌↔◌, ◌++◌, All, IsTrue, drop, length, map};
ghost use Rattle.tsdb_index.specs.Entries.{AreInOrder, names_of};
ghost use Rattle.tsdb_fields.specs.Order.{AreNamesBefore};
ghost use Rattle.tsdb_index.specs.Parts.{BeginAt, BeginWith, IsLeafSize, IsPointerBefore, next_names};

use crate::index::IndexEntry;
use crate::pointer::Pointer;
use std::cmp::Ordering;
use tsdb_base::limits::MAX_LEAF_ENTRIES;
use tsdb_fields::{Name, Path};

/// Whether the first names come before the second.
fn is_before(device: &Path, measurement: &Name, next_device: &Path, next: &Name) -> bool
    ensures { IsTrue result ↔ AreNamesBefore (device.now, measurement.now) (next_device.now, next.now) }
{
    match device.cmp(next_device) {
        Ordering::Less => true,
        Ordering::Equal => measurement.cmp(next).is_lt(),
        Ordering::Greater => false,
    }
}

/// Whether the names of entries rise.
fn entries_rise(entries: &[IndexEntry]) -> bool
    ensures { IsTrue result ↔ AreInOrder AreNamesBefore (map names_of entries.now) }
{
    for i in 1..entries.len() {
        let (last, next) = (&entries[i - 1], &entries[i]);
        if !is_before(
            &last.device,
            &last.measurement,
            &next.device,
            &next.measurement,
        ) {
            return false;
        }
    }
    true
}

/// Whether the names and the places of pointers rise.
fn pointers_rise(pointers: &[Pointer]) -> bool
    ensures { IsTrue result ↔ AreInOrder IsPointerBefore pointers.now }
{
    for i in 1..pointers.len() {
        if !is_pointer_before(&pointers[i - 1], &pointers[i]) {
            return false;
        }
    }
    true
}

fn is_pointer_before(last: &Pointer, next: &Pointer) -> bool
    ensures { IsTrue result ↔ IsPointerBefore last.now next.now }
{
    last.place < next.place
        && is_before(
            &last.device,
            &last.measurement,
            &next.device,
            &next.measurement,
        )
}

/// Whether the first entry has the pointer's names.
fn begin_with(entries: &[IndexEntry], pointer: &Pointer) -> bool
    ensures { IsTrue result ↔ BeginWith pointer.now entries.now }
{
    match entries {
        [] => false,
        [first, ..] => {
            first.device == pointer.device && first.measurement == pointer.measurement
        }
    }
}

/// Whether the last of these entries comes before the next leaf, if there is one.
fn end_before(entries: &[IndexEntry], behind: &[Pointer]) -> bool
    requires { 0 < length entries.now }
    ensures { IsTrue result ↔
        AreInOrder AreNamesBefore (map names_of (drop (length entries.now - 1) entries.now) ++ next_names behind.now) }
{
    match behind {
        [] => true,
        [next, ..] => {
            let last = &entries[entries.len() - 1];
            is_before(
                &last.device,
                &last.measurement,
                &next.device,
                &next.measurement,
            )
        }
    }
}

/// Whether the names of entries of a leaf rise, up to the next leaf's if there is one.
fn rise_to(entries: &[IndexEntry], behind: &[Pointer]) -> bool
    requires { 0 < length entries.now }
    ensures { IsTrue result ↔ AreInOrder AreNamesBefore (map names_of entries.now ++ next_names behind.now) }
{
    entries_rise(entries) && end_before(entries, behind)
}

/// Whether a leaf has so many entries before these other leaves.
fn is_leaf_size(behind: &[Pointer], count: usize) -> bool
    ensures { IsTrue result ↔ IsLeafSize behind.now count }
{
    if behind.is_empty() {
        0 < count && count <= MAX_LEAF_ENTRIES
    } else {
        count == MAX_LEAF_ENTRIES
    }
}

/// Whether these may be the entries of a leaf, as the pointer at it and the pointers behind it say.
pub fn are_leaf(entries: &[IndexEntry], pointer: &Pointer, behind: &[Pointer]) -> bool
    ensures { IsTrue result ↔ IsLeafSize behind.now (length entries.now) × BeginWith pointer.now entries.now
        × AreInOrder AreNamesBefore (map names_of entries.now ++ next_names behind.now) }
{
    if !begin_with(entries, pointer) {
        return false;
    }
    is_leaf_size(behind, entries.len()) && rise_to(entries, behind)
}

/// Whether all leaves stand before the root.
fn are_inside(pointers: &[Pointer], root: u64) -> bool
    ensures { IsTrue result ↔ All (λ pointer. pointer.place < root) pointers.now }
{
    pointers.iter().all(|pointer| pointer.place < root)
}

/// Whether the first pointer points at this place.
fn begin_at(pointers: &[Pointer], place: u64) -> bool
    ensures { IsTrue result ↔ BeginAt place pointers.now }
{
    match pointers {
        [] => false,
        [first, ..] => first.place == place,
    }
}

/// Whether these may be the pointers of a root at `root`, where the first leaf stands at `place`.
pub fn are_root(pointers: &[Pointer], place: u64, root: u64) -> bool
    ensures { IsTrue result ↔ BeginAt place pointers.now × AreInOrder IsPointerBefore pointers.now
        × All (λ pointer. pointer.place < root) pointers.now }
{
    begin_at(pointers, place) && pointers_rise(pointers) && are_inside(pointers, root)
}
