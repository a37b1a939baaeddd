//! Two slots in memory, with a record of each write and sync that was asked for. Depends on `tsdb_outside`.
ghost use Rattle.std.specs.Prelude.{◌≡◌, ◌≤◌, ◌<◌, ◌^◌, [], length, take, IfOk, OnOk, OnErr, vec_len};
ghost use Rattle.tsdb_outside.specs.Disk.{in_slot, with_slot, overwrite};
ghost use Rattle.mem_outside.specs.Record.{SlotState, after_write, after_sync, after_kind, after_call, seen_after};
ghost use Rattle.mem_outside.specs.Record.{invert, apply_pending, slot_after_stop};
ghost use Rattle.mem_outside.specs.Replay.{IsDiskReplay};
ghost use Rattle.mem_outside.specs.Slots.{pair_image};
ghost use Rattle.std.specs.List.{prefix_len};

use std::alloc::{AllocError, Global};
use tsdb_outside::Slot;

/// What a stop does to each range that was written and not synced since, and which files it leaves besides those that
/// are durable.
#[derive(Clone, Copy, Debug, PartialEq, Eq)]
pub enum StopKind {
    /// It has what was written, and there is no other file.
    Written,
    /// It has what was there before. Files that were removed, and those whose `put` failed, are there too.
    Unwritten,
    /// It has each byte of what was written with all bits turned over. Of a file whose `put` failed or is under way the
    /// first half is there.
    Scrambled,
}

/// The place of a counted call in the row, and whether it is to succeed.
#[derive(Clone, Copy)]
pub struct Outcome {
    pub at: u64,
    pub succeeded: bool,
}

// What a counted call asked for.
#[derive(Drop)]
pub enum Kind {
    Write { at: usize, bytes: Vec<u8> },
    Sync,
}

// A counted call with its place in the row, and whether it succeeded.
#[derive(Drop)]
pub struct Call {
    pub at: u64,
    pub slot: Slot,
    pub succeeded: bool,
    pub kind: Kind,
}

impl Call {
    // Replays a call of this slot; one of the other changes nothing.
    fn replay_in(
        &self,
        slot: Slot,
        alloc: Global,
        stop: StopKind,
        seen: &mut Vec<u8>,
        left: &mut Vec<u8>,
    ) -> Result<(), AllocError>
        ensures { OnOk result ((s : SlotState) → IsDiskReplay stop s seen.old.items left.old.items
            → IsDiskReplay stop (after_call slot s self.now) seen.new.items left.new.items) }
    {
        match (slot, self.slot) {
            (Slot::A, Slot::A) | (Slot::B, Slot::B) => {
                self.kind.replay(alloc, self.succeeded, stop, seen, left)
            }
            _ => Ok(()),
        }
    }
}

// The bytes of both slots.
#[derive(Drop)]
pub struct SlotPair {
    pub a: Vec<u8>,
    pub b: Vec<u8>,
}

// Writes over what is there, and past the end; or leaves it as it was.
fn write_over(into: &mut Vec<u8>, at: usize, bytes: &[u8]) -> Result<(), AllocError>
    requires { at ≤ vec_len into.old }
    ensures ok { OnOk result (into.new.items ≡ overwrite at bytes.now into.old.items) }
    ensures err { OnErr result (into.new.items ≡ into.old.items) }
{
    let inside = bytes.len().min(into.len() - at);
    into.extend_from_slice(&bytes[inside..])?;
    into[at..at + inside].copy_from_slice(&bytes[..inside]);
    Ok(())
}

// Each byte with all of its bits turned over.
fn inverse(alloc: Global, bytes: &[u8]) -> Result<Vec<u8>, AllocError>
    ensures { IfOk result (λ bits. bits.items ≡ invert bytes.now) }
{
    bytes.iter().map(|byte| u8::MAX - *byte).collect(alloc)
}

// Makes a pending write as a stop of this kind leaves it.
fn replay_write(
    alloc: Global,
    kind: StopKind,
    at: usize,
    bytes: &[u8],
    left: &mut Vec<u8>,
) -> Result<(), AllocError>
    ensures { OnOk result (left.new.items ≡ apply_pending kind (at, bytes.now) left.old.items) }
{
    let at = at.min(left.len());
    match kind {
        StopKind::Written => write_over(left, at, bytes),
        StopKind::Unwritten => Ok(()),
        StopKind::Scrambled => write_over(left, at, &inverse(alloc, bytes)?),
    }
}

impl Kind {
    // Does to what a read gives and to what a stop leaves what this call did.
    fn replay(
        &self,
        alloc: Global,
        succeeded: bool,
        stop: StopKind,
        seen: &mut Vec<u8>,
        left: &mut Vec<u8>,
    ) -> Result<(), AllocError>
        ensures { OnOk result ((s : SlotState) → IsDiskReplay stop s seen.old.items left.old.items
            → IsDiskReplay stop (after_kind self.now succeeded s) seen.new.items left.new.items) }
    {
        match self {
            Kind::Write { at, bytes } => {
                let at = (*at).min(seen.len());
                replay_write(alloc, stop, at, bytes, left)?;
                if succeeded {
                    write_over(seen, at, bytes)?;
                }
                Ok(())
            }
            Kind::Sync => {
                if succeeded {
                    *left = seen.to_vec(alloc)?;
                }
                Ok(())
            }
        }
    }
}

impl SlotPair {
    fn write(&mut self, slot: Slot, at: usize, bytes: &[u8]) -> Result<(), AllocError>
        requires { at ≤ length (in_slot slot (pair_image self.old)) }
        ensures ok { OnOk result (pair_image self.new ≡
            with_slot slot (overwrite at bytes.now (in_slot slot (pair_image self.old))) (pair_image self.old)) }
        ensures err { OnErr result (pair_image self.new ≡ pair_image self.old) }
    {
        match slot {
            Slot::A => write_over(&mut self.a, at, bytes),
            Slot::B => write_over(&mut self.b, at, bytes),
        }
    }

    pub fn slot(&self, slot: Slot) -> &[u8]
        ensures { result.now ≡ in_slot slot (pair_image self.now) }
    {
        match slot {
            Slot::A => &self.a,
            Slot::B => &self.b,
        }
    }

    pub fn copy(&self, alloc: Global) -> Result<SlotPair, AllocError>
        ensures { IfOk result (λ copy. pair_image copy ≡ pair_image self.now) }
    {
        Ok(SlotPair {
            a: self.a.to_vec(alloc)?,
            b: self.b.to_vec(alloc)?,
        })
    }
}

/// Two slots, and a record of each counted call since they were made.
#[derive(Drop)]
pub struct RecordedDisk {
    alloc: Global,
    first: SlotPair,
    current: SlotPair,
    calls: Vec<Call>,
    // What reads give is what the record makes of the first bytes.
    ghost tied: { pair_image current ≡ seen_after (pair_image first) calls.items },
}

impl RecordedDisk {
    ghost use Rattle.mem_outside.specs.RecordedDisk.{is_call_until, last_of_calls, disk_seen, disk_first, disk_calls};
    ghost use Rattle.mem_outside.specs.RecordedDisk.{RecordsCall, SameRecord};

    /// Two slots with these bytes, all of them durable.
    pub fn new(alloc: Global, first: SlotPair) -> Result<RecordedDisk, AllocError>
        ensures first { IfOk result (λ disk. disk_first disk ≡ pair_image first) }
        ensures calls { IfOk result (λ disk. disk_calls disk ≡ []) }
    {
        let current = first.copy(alloc)?;
        Ok(RecordedDisk {
            alloc,
            first,
            current,
            calls: Vec::new(alloc),
        })
    }

    pub fn slot(&self, slot: Slot) -> &[u8]
        ensures { result.now ≡ in_slot slot (disk_seen self.now) }
    {
        self.current.slot(slot)
    }

    /// How many calls were counted.
    pub fn count(&self) -> usize
        ensures calls { result ≡ length (disk_calls self.now) }
        ensures limit { result < 2 ^ 63 }
    {
        self.calls.as_slice().len()
    }

    /// How many calls there are before the first whose place in the row is behind this one.
    pub fn count_until(&self, moment: u64) -> usize
        ensures count { result ≡ prefix_len (is_call_until moment) (disk_calls self.now) }
        ensures bound { result ≤ length (disk_calls self.now) }
    {
        self.calls
            .iter()
            .take_while(|call| call.at <= moment)
            .count()
    }

    /// The greatest place in the row of its calls, or 0.
    pub fn last(&self) -> u64
        ensures { result ≡ last_of_calls (disk_calls self.now) }
    {
        self.calls.iter().fold(0, |last, call| last.max(call.at))
    }

    /// What a stop of this kind leaves of the slot behind the first `moment` calls.
    pub fn after_stop(
        &self,
        slot: Slot,
        moment: usize,
        stop: StopKind,
    ) -> Result<Vec<u8>, AllocError>
        requires { moment ≤ length (disk_calls self.now) }
        ensures { IfOk result (λ left. left.items ≡
            slot_after_stop stop slot (in_slot slot (disk_first self.now)) (take moment (disk_calls self.now))) }
    {
        let mut seen = self.first.slot(slot).to_vec(self.alloc)?;
        let mut left = self.first.slot(slot).to_vec(self.alloc)?;
        for call in &self.calls[..moment] {
            call.replay_in(slot, self.alloc, stop, &mut seen, &mut left)?;
        }
        Ok(left)
    }

    /// Records a write, and makes it where it is to succeed. Without room nothing changes.
    pub fn write(
        &mut self,
        slot: Slot,
        at: usize,
        bytes: &[u8],
        outcome: Outcome,
    ) -> Result<(), AllocError>
        requires { at ≤ length (in_slot slot (disk_seen self.old)) }
        ensures ok { OnOk result (RecordsCall slot (after_write at bytes.now outcome.succeeded) self.old self.new) }
        ensures err { OnErr result (SameRecord self.old self.new) }
    {
        let kind = Kind::Write {
            at,
            bytes: bytes.to_vec(self.alloc)?,
        };
        self.calls.push(Call {
            at: outcome.at,
            slot,
            succeeded: outcome.succeeded,
            kind,
        })?;
        if outcome.succeeded && self.current.write(slot, at, bytes).is_err() {
            self.calls.pop();
            return Err(AllocError);
        }
        Ok(())
    }

    /// Records a sync. Without room nothing changes.
    pub fn sync(&mut self, slot: Slot, outcome: Outcome) -> Result<(), AllocError>
        ensures ok { OnOk result (RecordsCall slot (after_sync outcome.succeeded) self.old self.new) }
        ensures err { OnErr result (SameRecord self.old self.new) }
    {
        self.calls.push(Call {
            at: outcome.at,
            slot,
            succeeded: outcome.succeeded,
            kind: Kind::Sync,
        })?;
        Ok(())
    }
}
