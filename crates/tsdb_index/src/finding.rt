//! Finding one series by binary search: its leaf among the pointers of a root, and its entry in the leaf. Depends on
//! `index` and `pointer`.
ghost use Rattle.std.specs.Prelude.{map, MatchOption};
ghost use Rattle.tsdb_index.specs.Entries.{AreInOrder, names_of};
ghost use Rattle.tsdb_fields.specs.Order.{AreNamesBefore};
ghost use Rattle.tsdb_index.specs.Finding.{AreBehind, IsEntryFor, IsLeafFor};
ghost use Rattle.tsdb_index.specs.Parts.{IsPointerBefore};
ghost use Rattle.tsdb_index.specs.Steps.{IsLastFor};

use crate::index::IndexEntry;
use crate::pointer::Pointer;
use tsdb_fields::{Name, Path, compare_names};

/// The place of the last pointer whose names do not come behind these.
fn last_for(pointers: &[Pointer], device: &Path, measurement: &Name) -> Option<usize>
    requires { AreInOrder IsPointerBefore pointers.now }
    ensures { MatchOption result (AreBehind (device.now, measurement.now) pointers.now)
        (IsLastFor (device.now, measurement.now) pointers.now) }
{
    let found = pointers.binary_search_by(|pointer| {
        compare_names(&pointer.device, &pointer.measurement, device, measurement)
    });
    match found {
        Ok(at) => Some(at),
        Err(behind) => behind.checked_sub(1),
    }
}

/// The pointer at the leaf that has the entry of these names if any leaf has it, and the pointers behind it. There is
/// none where all leaves begin behind the names.
pub fn leaf_for<'a>(
    pointers: &'a [Pointer],
    device: &Path,
    measurement: &Name,
) -> Option<(&'a Pointer, &'a [Pointer])>
    requires { AreInOrder IsPointerBefore pointers.now }
    ensures { MatchOption result (AreBehind (device.now, measurement.now) pointers.now)
        (λ leaf. IsLeafFor (device.now, measurement.now) pointers.now leaf.0.now leaf.1.now) }
{
    let at = last_for(pointers, device, measurement)?;
    let (_before, from) = pointers.split_at(at);
    match from {
        [] => None,
        [pointer, behind @ ..] => Some((pointer, behind)),
    }
}

/// The entry of these names among entries in order, if one has them.
pub fn entry_for(
    mut entries: Vec<IndexEntry>,
    device: &Path,
    measurement: &Name,
) -> Option<IndexEntry>
    requires { AreInOrder AreNamesBefore (map names_of entries.items) }
    ensures { IsEntryFor (device.now, measurement.now) entries.items result }
{
    let found = entries.binary_search_by(|entry| {
        compare_names(&entry.device, &entry.measurement, device, measurement)
    });
    match found {
        Ok(at) => Some(entries.swap_remove(at)),
        Err(_) => None,
    }
}
