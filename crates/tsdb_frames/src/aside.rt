//! What is known of byte 0 of the slot that a log is not in. Depends on `tsdb_outside` for `Slot`.
ghost use Rattle.std.specs.Prelude.{◌≡◌, ◌≤◌, ℕ, true, false, List, [], ◌∷◌, length, take, IfOk, IfSome, IsSome};
ghost use Rattle.std.specs.declared.option.Option.{Option};
ghost use Rattle.std.specs.Option.{ForSome};
ghost use Rattle.tsdb_outside.specs.Causes.{HasCause};
ghost use Rattle.tsdb_outside.specs.Disk.{in_slot, Keeps};
ghost use Rattle.tsdb_outside.specs.Limits.{FitsSlot};
ghost use Rattle.tsdb_outside.specs.Moments.{other};
ghost use Rattle.tsdb_frames.specs.Asides.{IsAsideOn, LeftInSlot};
ghost use Rattle.tsdb_frames.specs.Slots.{HasRecords};
ghost use Rattle.tsdb_frames.specs.declared.aside.Aside.TheVariants as variant;

use tsdb_outside::{Failed, Journal, Slot};

// What is known of byte 0 of the slot aside.
#[derive(Clone, Copy)]
pub(crate) enum Aside {
    // It is open or closed in whatever a stop leaves, as a read tells: it is as the log was taken up, or as its slot was
    // left by a log that turned over.
    Settled,
    // It is closed in whatever a stop leaves.
    Closed,
    // A closing of it failed, so that a stop may leave it open.
    Unsettled,
    // An opening of it failed, so that a stop may leave it open: it is in doubt.
    Doubted,
}

// The slot that this one is not.
pub(crate) fn other_slot(slot: Slot) -> Slot
    ensures { result ≡ other slot }
{
    match slot {
        Slot::A => Slot::B,
        Slot::B => Slot::A,
    }
}

// Whether byte 0 of a slot is there, and closed in whatever a stop leaves; and how many bytes the slot has.
pub(crate) fn is_closed<J: Journal>(
    journal: &mut J,
    slot: Slot,
    aside: Aside,
) -> Result<(bool, u64), Failed>
    ensures closed { IfOk result (λ r. r.0 ≡ true → IsSome (J.state journal.old).seen
        → (records : Option (List (List ℕ))) → IsAsideOn (J.state journal.old) slot aside records
        → LeftInSlot (J.state journal.new) slot (HasRecords [])) }
    ensures there { IfOk result (λ r. r.0 ≡ true → 1 ≤ r.1) }
    ensures length { IfOk result (λ r. ForSome (J.state journal.new).seen
        (λ image. r.1 ≤ length (in_slot slot image))) }
    ensures limit { IfOk result (λ r. FitsSlot r.1) }
    ensures not_closed { IfOk result (λ r. r.0 ≡ false → IsSome (J.state journal.old).seen
        → (records : Option (List (List ℕ))) → IsAsideOn (J.state journal.old) slot aside records
        → IsAsideOn (J.state journal.new) slot variant.Unsettled records) }
    ensures keeps { Keeps (J.state journal.old) (J.state journal.new) }
    ensures cause { HasCause (J.faults journal.old) (J.faults journal.new) result }
{
    let length = journal.length(slot)?;
    if length == 0 {
        return Ok((false, length));
    }
    match aside {
        Aside::Settled => Ok((read_first(journal, slot)? != 1, length)),
        Aside::Closed => Ok((true, length)),
        Aside::Unsettled | Aside::Doubted => Ok((false, length)),
    }
}

// Byte 0 of a slot that has one.
fn read_first<J: Journal>(journal: &mut J, slot: Slot) -> Result<u8, Failed>
    requires { ForSome (J.state journal.old).seen (λ image. 1 ≤ length (in_slot slot image)) }
    ensures first { IfOk result (λ byte. IfSome (J.state journal.old).seen
        (λ image. take 1 (in_slot slot image) ≡ byte ∷ [])) }
    ensures keeps { Keeps (J.state journal.old) (J.state journal.new) }
    ensures cause { HasCause (J.faults journal.old) (J.faults journal.new) result }
{
    let mut first = [0];
    journal.read_at(slot, 0, &mut first)?;
    Ok(first[0])
}
