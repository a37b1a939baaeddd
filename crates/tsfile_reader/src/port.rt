//! The tail, the head, the root and the leaves of a file, read through a port. Depends on `ends`, `outline`, `fault`,
//! tsdb_outside and tsdb_index.
ghost use Rattle.std.specs.Prelude.{◌≡◌, ℕ, ◌+◌, ◌-◌, ◌<◌, ◌≤◌, ◌^◌, length, take, drop, IfOk, IfSome};
ghost use Rattle.std.specs.Option.{ForSome};
ghost use Rattle.tsfile_reader.specs.Answers.{Answers, HasReadCause, IfDamaged, IsNotDamaged};
ghost use Rattle.tsfile_reader.specs.Outline.{IsBadFront, IsBadOutline};
ghost use Rattle.tsfile_reader.specs.Steps.{HasFileEnds, HasSomeRoot, IsFrontIn, IsOutlineIn};

use crate::ends::{Ends, Front, Outline};
use crate::fault::ReadFault;
use crate::outline::{HEAD_BYTES, TAIL_BYTES, root_in, root_in_tail, version_of};
use std::alloc::Global;
use tsdb_base::List;
use tsdb_index::Index;
use tsdb_outside::Port;

/// Reads so many bytes of the file from this place on.
pub fn read_part<P: Port>(
    alloc: Global,
    port: &mut P,
    right: &P::Right,
    at: u64,
    count: u64,
) -> Result<Vec<u8>, ReadFault>
    requires inside { ForSome (P.Right.file right.now).bytes (λ bytes. at + count ≤ length bytes) }
    requires store { (P.Right.file right.now).store ≡ P.store port.old }
    ensures bytes { IfOk result (λ part. IfSome (P.Right.file right.now).bytes
        (λ bytes. part.items ≡ take count (drop at bytes))) }
    ensures size { IfOk result (λ part. length part.items ≡ count) }
    ensures no_damage { IsNotDamaged result }
    ensures same_store { P.store port.new ≡ P.store port.old }
    ensures cause { HasReadCause (P.faults port.old) (P.faults port.new) result }
{
    let mut part = vec![in alloc; 0u8; count as usize]?;
    port.read(right, at, &mut part)?;
    Ok(part)
}

/// Reads the tail and the head.
fn read_ends<P: Port>(alloc: Global, port: &mut P, right: &P::Right) -> Result<Ends, ReadFault>
    requires store { (P.Right.file right.now).store ≡ P.store port.old }
    ensures answers { Answers HasFileEnds IsBadFront (P.Right.file right.now).bytes result }
    ensures limit { IfDamaged result (λ at. IfSome (P.Right.file right.now).bytes (λ bytes. length bytes < 2 ^ 63)) }
    ensures same_store { P.store port.new ≡ P.store port.old }
    ensures cause { HasReadCause (P.faults port.old) (P.faults port.new) result }
{
    let size = port.size(right)?;
    if size < HEAD_BYTES + TAIL_BYTES {
        return Err(ReadFault::Damaged { at: 0 });
    }
    let tail = read_part(alloc, port, right, size - TAIL_BYTES, TAIL_BYTES)?;
    let root = match root_in_tail(alloc, &tail, size) {
        Ok(root) => root,
        Err(fault) => return Err(ReadFault::of_part(fault, size - TAIL_BYTES)),
    };
    let head = read_part(alloc, port, right, 0, HEAD_BYTES)?;
    let Some(version) = version_of(&head) else {
        return Err(ReadFault::Damaged { at: 0 });
    };
    Ok(Ends {
        size,
        root,
        version,
    })
}

/// Reads the root of a file with these ends.
fn read_root<P: Port>(
    alloc: Global,
    port: &mut P,
    right: &P::Right,
    ends: Ends,
) -> Result<Front, ReadFault>
    requires ends { IfSome (P.Right.file right.now).bytes (λ bytes. HasFileEnds bytes ends) }
    requires store { (P.Right.file right.now).store ≡ P.store port.old }
    ensures answers { Answers IsFrontIn IsBadFront (P.Right.file right.now).bytes result }
    ensures root { IfOk result HasSomeRoot }
    ensures place { IfOk result (λ front. front.root.place < front.ends.root) }
    ensures limit { IfDamaged result (λ at. IfSome (P.Right.file right.now).bytes (λ bytes. length bytes < 2 ^ 63)) }
    ensures same_store { P.store port.new ≡ P.store port.old }
    ensures cause { HasReadCause (P.faults port.old) (P.faults port.new) result }
{
    let size = (ends.size - TAIL_BYTES).saturating_sub(ends.root);
    let bytes = read_part(alloc, port, right, ends.root, size)?;
    match root_in(alloc, &bytes, ends.root) {
        Ok(root) => Ok(Front { ends, root }),
        Err(fault) => Err(ReadFault::of_part(fault, ends.root)),
    }
}

/// Reads what the tail, the head and the root say.
pub fn read_front<P: Port>(
    alloc: Global,
    port: &mut P,
    right: &P::Right,
) -> Result<Front, ReadFault>
    requires store { (P.Right.file right.now).store ≡ P.store port.old }
    ensures answers { Answers IsFrontIn IsBadFront (P.Right.file right.now).bytes result }
    ensures root { IfOk result HasSomeRoot }
    ensures place { IfOk result (λ front. front.root.place < front.ends.root) }
    ensures limit { IfDamaged result (λ at. IfSome (P.Right.file right.now).bytes (λ bytes. length bytes < 2 ^ 63)) }
    ensures same_store { P.store port.new ≡ P.store port.old }
    ensures cause { HasReadCause (P.faults port.old) (P.faults port.new) result }
{
    let ends = read_ends(alloc, port, right)?;
    read_root(alloc, port, right, ends)
}

/// Reads the leaves of a file with these ends and this root.
fn read_leaves<P: Port>(
    alloc: Global,
    port: &mut P,
    right: &P::Right,
    front: &Front,
) -> Result<Index, ReadFault>
    requires front { IfSome (P.Right.file right.now).bytes (λ bytes. IsFrontIn bytes front.now) }
    requires root { HasSomeRoot front.now }
    requires place { front.now.root.place < front.now.ends.root }
    requires store { (P.Right.file right.now).store ≡ P.store port.old }
    ensures answers { Answers
        (λ bytes. IsOutlineIn bytes front.now.ends front.now.root.place front.now.root.pointers.items)
        IsBadOutline (P.Right.file right.now).bytes result }
    ensures limit { IfDamaged result (λ at. IfSome (P.Right.file right.now).bytes (λ bytes. length bytes < 2 ^ 63)) }
    ensures same_store { P.store port.new ≡ P.store port.old }
    ensures cause { HasReadCause (P.faults port.old) (P.faults port.new) result }
{
    let (place, root) = (front.root.place, front.ends.root);
    let bytes = read_part(alloc, port, right, place, root - place)?;
    let version = front.ends.version;
    match tsdb_index::read_leaves(alloc, &bytes, version, &front.root.pointers, root) {
        Ok(entries) => Ok(Index {
            entries: List::of(entries),
        }),
        Err(fault) => Err(ReadFault::of_index(fault)),
    }
}

/// Reads what the tail, the head, the root and the leaves say.
pub fn read_outline<P: Port>(
    alloc: Global,
    port: &mut P,
    right: &P::Right,
) -> Result<Outline, ReadFault>
    requires store { (P.Right.file right.now).store ≡ P.store port.old }
    ensures answers { Answers
        (λ bytes outline. IsOutlineIn bytes outline.ends outline.place outline.pointers.items outline.index)
        IsBadOutline (P.Right.file right.now).bytes result }
    ensures limit { IfDamaged result (λ at. IfSome (P.Right.file right.now).bytes (λ bytes. length bytes < 2 ^ 63)) }
    ensures same_store { P.store port.new ≡ P.store port.old }
    ensures cause { HasReadCause (P.faults port.old) (P.faults port.new) result }
{
    let front = read_front(alloc, port, right)?;
    let index = read_leaves(alloc, port, right, &front)?;
    Ok(Outline {
        ends: front.ends,
        place: front.root.place,
        pointers: front.root.pointers,
        index,
    })
}
