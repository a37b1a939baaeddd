//! The steps that touch a slot: a write that is synced, and the two of them by which a record is added. Depends on
//! `tsdb_outside`.
ghost use Rattle.std.specs.Prelude.{◌≡◌, ℕ, ◌+◌, ◌<◌, ◌≤◌, List, [], ◌∷◌, ◌++◌, None, Some, length, IsErrOf, IsSome, OnOk};
ghost use Rattle.std.specs.Option.{ForSome};
ghost use Rattle.tsdb_outside.specs.Causes.{HasCause};
ghost use Rattle.tsdb_outside.specs.Disk.{Image, in_slot, TornIn, WhereTold};
ghost use Rattle.tsdb_outside.specs.Limits.{FitsSlot};
ghost use Rattle.tsdb_outside.specs.Moments.{LeavesFirstThen, LeavesOnly, other};
ghost use Rattle.tsdb_frames.specs.Log.{HasRecordsOrOneMore, IsFrame, IsLogOn, payload_of};
ghost use Rattle.tsdb_frames.specs.Slots.{HasRecords};
ghost use Rattle.tsdb_frames.specs.Steps.{IsTornFrom, IsWrittenFrom, LeavesSlot};
ghost use Rattle.tsdb_frames.specs.declared.writing.Unopened.TheVariants as unopened;

use tsdb_outside::{Failed, Journal, Slot};

// How a gate was left that could not be opened.
#[derive(Clone, Copy)]
pub(crate) enum Unopened {
    // It is closed in whatever a stop leaves.
    Closed,
    // It is in doubt.
    Doubted,
}

// Writes these bytes and syncs the slot. Until it succeeds, and after it failed, they may be torn.
pub(crate) fn write_and_sync<J: Journal>(
    journal: &mut J,
    slot: Slot,
    at: u64,
    bytes: &[u8],
) -> Result<(), Failed>
    requires { ForSome (J.state journal.old).seen (λ image. at ≤ length (in_slot slot image)) }
    ensures written { OnOk result (IsSome (J.state journal.old).seen → (image : Image)
        → (J.state journal.new).may_leave image → IsWrittenFrom slot at bytes.now (J.state journal.old) image) }
    ensures long { OnOk result (ForSome (J.state journal.new).seen
        (λ image. at + length bytes.now ≤ length (in_slot slot image))) }
    ensures left { (image : Image) → (J.state journal.new).may_leave image
        → IsTornFrom slot at (length bytes.now) (J.state journal.old) image }
    ensures torn { WhereTold (TornIn slot at (length bytes.now)) (J.state journal.old).seen (J.state journal.new).seen }
    ensures moments { LeavesOnly (J.state journal.old) (J.state journal.new)
        (IsTornFrom slot at (length bytes.now) (J.state journal.old)) }
    ensures limit { OnOk result (FitsSlot (at + length bytes.now)) }
    ensures cause { HasCause (J.faults journal.old) (J.faults journal.new) result }
{
    journal.write_at(slot, at, bytes)?;
    journal.sync(slot)
}

// Adds a record behind a closed gate: its frame is written and synced, and then the gate is opened and synced.
pub(crate) fn write_record<J: Journal>(
    journal: &mut J,
    slot: Slot,
    gate: u64,
    framed: &[u8],
) -> Result<(), Unopened>
    requires frame { IsFrame framed.now }
    requires gate { ForSome (J.state journal.old).seen (λ image. gate < length (in_slot slot image)) }
    requires limit { FitsSlot gate }
    ensures added { OnOk result ((acknowledged : List (List ℕ)) → IsLogOn (J.state journal.old) slot gate acknowledged None
        → IsLogOn (J.state journal.new) slot (gate + length framed.now) (acknowledged ++ payload_of framed.now ∷ []) None) }
    ensures closed { IsErrOf result unopened.Closed → (acknowledged : List (List ℕ))
        → IsLogOn (J.state journal.old) slot gate acknowledged None
        → IsLogOn (J.state journal.new) slot gate acknowledged None }
    ensures doubted { IsErrOf result unopened.Doubted → (acknowledged : List (List ℕ))
        → IsLogOn (J.state journal.old) slot gate acknowledged None
        → IsLogOn (J.state journal.new) slot gate acknowledged (Some (payload_of framed.now)) }
    ensures moments { (acknowledged : List (List ℕ)) → IsLogOn (J.state journal.old) slot gate acknowledged None
        → LeavesFirstThen (J.state journal.old) (J.state journal.new)
        (λ image. HasRecords acknowledged (in_slot slot image))
        (λ image. HasRecordsOrOneMore acknowledged (Some (payload_of framed.now)) (in_slot slot image)) }
    ensures elsewhere { LeavesSlot (other slot) (J.state journal.old) (J.state journal.new) }
    ensures long { OnOk result (ForSome (J.state journal.new).seen
        (λ image. gate + 1 + length framed.now ≤ length (in_slot slot image))) }
    ensures no_shorter { (end : ℕ) → ForSome (J.state journal.old).seen (λ image. end ≤ length (in_slot slot image))
        → ForSome (J.state journal.new).seen (λ image. end ≤ length (in_slot slot image)) }
    ensures limit { OnOk result (FitsSlot (gate + 1 + length framed.now)) }
    ensures cause { HasCause (J.faults journal.old) (J.faults journal.new) result }
{
    let Ok(()) = write_and_sync(journal, slot, gate + 1, framed) else {
        return Err(Unopened::Closed);
    };
    let Ok(()) = write_and_sync(journal, slot, gate, &[1]) else {
        return Err(Unopened::Doubted);
    };
    Ok(())
}
