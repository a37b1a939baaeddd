//! Reading the records of a slot. Depends on `record`, `fault`, `tsdb_base` and `tsdb_outside`.
ghost use Rattle.std.specs.Prelude.{◌≡◌, ℕ, ◌+◌, ◌≤◌, List, None, length, take, drop, IfOk, IfErr, IfSome, IsErrOf};
ghost use Rattle.std.specs.Option.{ForSome};
ghost use Rattle.tsdb_outside.specs.Disk.{in_slot, Keeps};
ghost use Rattle.tsdb_frames.specs.Causes.{HasScanCause};
ghost use Rattle.tsdb_frames.specs.Firsts.{IsFirst};
ghost use Rattle.tsdb_frames.specs.Slots.{BeginsWithPayload, IsTorn};
ghost use Rattle.tsdb_frames.specs.Steps.{BeginsAs};

use crate::{Frame, ScanFault};
use std::alloc::Global;
use tsdb_base::List;
use tsdb_outside::{Journal, Slot};

// How bytes begin.
#[derive(Drop)]
pub(crate) enum Start {
    // With a closed gate.
    Shut,
    // With a whole record behind an open gate, and the next gate.
    Whole(Frame),
    // With an open gate that has no such record.
    Broken,
}

// The bytes of a length.
const LENGTH_BYTES: usize = 4;

// The bytes of a piece of a slot.
pub(crate) const PIECE_BYTES: u64 = 65_536;

// The record that stands behind an open gate, and the next gate with all behind it. None where there is no such record
// or no next gate.
fn split_record(bytes: &[u8]) -> Option<(&[u8], &[u8])>
    ensures found { IfSome result (λ r. BeginsWithPayload bytes.now r.0.now r.1.now) }
    ensures none { result ≡ None → (payload after : List ℕ) → ¬ BeginsWithPayload bytes.now payload after }
{
    if bytes.len() < LENGTH_BYTES {
        return None;
    }
    let (field, rest) = bytes.split_at(LENGTH_BYTES);
    let size = u32::from_be_bytes([field[0], field[1], field[2], field[3]]) as usize;
    if size == 0 || size >= rest.len() {
        return None;
    }
    Some(rest.split_at(size))
}

// How these bytes begin.
pub(crate) fn start_of(alloc: Global, bytes: &[u8]) -> Result<Start, ScanFault>
    requires { 1 ≤ length bytes.now }
    ensures begins { IfOk result (λ start. BeginsAs start bytes.now) }
    ensures memory { IfErr result (λ fault. fault ≡ ScanFault.Memory) }
{
    let [1, behind @ ..] = bytes else {
        return Ok(Start::Shut);
    };
    let Some((payload, _after)) = split_record(behind) else {
        return Ok(Start::Broken);
    };
    Ok(Start::Whole(Frame {
        at: 0,
        payload: List::of(payload.to_vec(alloc)?),
    }))
}

// So many bytes of a slot from a place on.
pub(crate) fn read_piece<J: Journal>(
    alloc: Global,
    journal: &mut J,
    slot: Slot,
    at: u64,
    size: u64,
) -> Result<Vec<u8>, ScanFault>
    requires { ForSome (J.state journal.old).seen (λ image. at + size ≤ length (in_slot slot image)) }
    ensures size { IfOk result (λ piece. length piece.items ≡ size) }
    ensures bytes { IfOk result (λ piece. IfSome (J.state journal.old).seen
        (λ image. piece.items ≡ take size (drop at (in_slot slot image)))) }
    ensures not_torn { (place : ℕ) → ¬ IsErrOf result (ScanFault.Torn place) }
    ensures keeps { Keeps (J.state journal.old) (J.state journal.new) }
    ensures cause { HasScanCause (J.faults journal.old) (J.faults journal.new) result }
{
    let mut piece = vec![in alloc; 0; size as usize]?;
    journal.read_at(slot, at, &mut piece)?;
    Ok(piece)
}

// How a slot begins, as its first bytes tell, of which there are so many.
fn read_start<J: Journal>(
    alloc: Global,
    journal: &mut J,
    slot: Slot,
    size: u64,
) -> Result<Start, ScanFault>
    requires there { ForSome (J.state journal.old).seen (λ image. size ≤ length (in_slot slot image)) }
    requires some { 1 ≤ size }
    ensures begins { IfOk result (λ start. IfSome (J.state journal.old).seen
        (λ image. BeginsAs start (take size (in_slot slot image)))) }
    ensures not_torn { (place : ℕ) → ¬ IsErrOf result (ScanFault.Torn place) }
    ensures keeps { Keeps (J.state journal.old) (J.state journal.new) }
    ensures cause { HasScanCause (J.faults journal.old) (J.faults journal.new) result }
{
    let piece = read_piece(alloc, journal, slot, 0, size)?;
    start_of(alloc, &piece)
}

// The first record of a slot. It is read in pieces from its first byte on, each twice as long, up to the one that has the
// record and a gate.
pub(crate) fn read_first_record<J: Journal>(
    alloc: Global,
    journal: &mut J,
    slot: Slot,
) -> Result<Option<Frame>, ScanFault>
    ensures first { IfOk result (λ first. IfSome (J.state journal.old).seen
        (λ image. IsFirst first (in_slot slot image))) }
    ensures torn { (at : ℕ) → IsErrOf result (ScanFault.Torn at)
        → (at ≡ 0) × IfSome (J.state journal.old).seen (λ image. IsTorn 0 (in_slot slot image)) }
    ensures keeps { Keeps (J.state journal.old) (J.state journal.new) }
    ensures cause { HasScanCause (J.faults journal.old) (J.faults journal.new) result }
{
    let length = journal.length(slot)?;
    if length == 0 {
        return Err(ScanFault::Torn { at: 0 });
    }
    let mut size = PIECE_BYTES.min(length);
    loop {
        match read_start(alloc, journal, slot, size)? {
            Start::Shut => return Ok(None),
            Start::Whole(frame) => return Ok(Some(frame)),
            Start::Broken => {}
        }
        if size >= length {
            return Err(ScanFault::Torn { at: 0 });
        }
        size = (size * 2).min(length);
    }
}
