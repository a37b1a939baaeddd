//! What the tail, the head and the root of a file say. Depends on `ends`, tsdb_fields and tsdb_index.
ghost use Rattle.std.specs.Prelude.{◌≡◌, ℕ, ◌+◌, ◌<◌, ◌≤◌, ◌^◌, ◌++◌, List, length, MatchOption};
ghost use Rattle.tsdb_base.specs.Fields.{number64};
ghost use Rattle.tsdb_index.specs.declared.pointer.Pointer.{Pointer as PointerIn};
ghost use Rattle.tsdb_index.specs.Faults.{ReadsWhole};
ghost use Rattle.tsdb_index.specs.Parts.{BeginAt, IsRoot};
ghost use Rattle.tsdb_index.specs.Versions.{IsVersion};
ghost use Rattle.tsdb_pages.specs.File.{head, head_length, magic};
ghost use Rattle.tsfile_reader.specs.Outline.{IsTail};

use crate::ends::Root;
use std::alloc::Global;
use tsdb_fields::{FieldFault, Rest, read_field};
use tsdb_index::marks::{HEAD, MAGIC, OLD_HEAD, OLD_VERSION, VERSION};
use tsdb_index::{Pointer, are_root, pointers_in};

/// How many bytes the head has.
pub const HEAD_BYTES: u64 = 7;

/// How many bytes the tail has.
pub const TAIL_BYTES: u64 = 14;

/// The version of which these are the head, if they are one.
pub fn version_of(bytes: &[u8]) -> Option<u8>
    ensures { MatchOption result ((version : ℕ) → IsVersion version → bytes.now ≡ head version → ⊥)
        (λ version. IsVersion version × (bytes.now ≡ head version)) }
{
    if bytes == HEAD.as_slice() {
        return Some(VERSION);
    }
    if bytes == OLD_HEAD.as_slice() {
        return Some(OLD_VERSION);
    }
    None
}

/// The place of the root in the tail that all of these bytes are, in a file of so many bytes. A fault has no place of
/// its own.
pub fn root_in_tail(alloc: Global, tail: &[u8], size: u64) -> Result<u64, FieldFault>
    ensures { ReadsWhole (IsTail size tail.now) (λ root. root) result }
{
    let bad = FieldFault::Bad { at: 0 };
    let (root, rest) = read_field::<u64>(alloc, Rest { at: 0, bytes: tail })?;
    if rest.bytes != MAGIC.as_slice() || root < HEAD_BYTES || size <= root {
        return Err(bad);
    }
    Ok(root)
}

/// The place of the first leaf that these pointers give, if it is behind the head and before the root.
fn first_place(pointers: &[Pointer], root: u64) -> Option<u64>
    ensures { MatchOption result
        ((place : ℕ) → BeginAt place pointers.now → head_length ≤ place → place < root → ⊥)
        (λ place. BeginAt place pointers.now × (head_length ≤ place) × (place < root)) }
{
    match pointers {
        [first, ..] if HEAD_BYTES <= first.place && first.place < root => Some(first.place),
        _ => None,
    }
}

/// The root that all of these bytes are, which stands at this place. A fault has no place of its own.
pub fn root_in(alloc: Global, bytes: &[u8], at: u64) -> Result<Root, FieldFault>
    ensures { ReadsWhole
        (λ (root : ℕ × List PointerIn). (head_length ≤ root.0) × IsRoot root.0 at bytes.now root.1)
        (λ root. (root.place, root.pointers.items)) result }
{
    let bad = FieldFault::Bad { at: 0 };
    let pointers = pointers_in(alloc, bytes)?;
    let Some(place) = first_place(&pointers, at) else {
        return Err(bad);
    };
    if !are_root(&pointers, place, at) {
        return Err(bad);
    }
    Ok(Root { pointers, place })
}
