//! The journal in memory. Depends on `calls`, `record` and `row`.
ghost use Rattle.std.specs.Prelude.{◌≡◌, ◌↔◌, ◌+◌, ◌^◌, ◌<◌, ◌≤◌, [], length, take, drop, IfOk, IfSome, IsErr, IsOk};
ghost use Rattle.std.specs.Prelude.{IsTrue, OnErr, OnOk};
ghost use Rattle.std.specs.Option.{ForSome};
ghost use Rattle.tsdb_outside.specs.Causes.{HasCause};
ghost use Rattle.tsdb_outside.specs.Limits.{FitsSlot};
ghost use Rattle.mem_outside.specs.Laws.{state_is_lawful};
ghost use Rattle.mem_outside.specs.RecordedDisk.{is_call_until, last_of_calls};
ghost use Rattle.std.specs.List.{prefix_len};

use crate::calls::Calls;
use crate::record::{Outcome, RecordedDisk, SlotPair, StopKind};
use crate::row::CallRow;
use std::alloc::{AllocError, Global};
use std::sync::Arc;
use tsdb_base::limits::END_OF_SLOT;
use tsdb_outside::{Counted, Disk, Failed, Journal, Slot};

// A slot has at most this many bytes.
const MAX_LENGTH: u64 = END_OF_SLOT - 1;

fn is_within_limit(at: u64, length: usize) -> bool
    ensures { IsTrue result ↔ FitsSlot (at + length) }
{
    at <= MAX_LENGTH && length as u64 <= MAX_LENGTH - at
}

/// Two slots in memory that keep a record of each write and sync, so that it is known what a stop may have left at
/// each moment. Some of those calls fail, by number; so does one for which there is no room.
#[derive(Drop)]
pub struct MemJournal {
    disk: RecordedDisk,
    numbers: Calls,
    row: Arc<CallRow>,
}

impl MemJournal {
    ghost use Rattle.mem_outside.specs.Slots.{pair_image};
    ghost use Rattle.mem_outside.specs.Record.{image_after_stop};
    ghost use Rattle.mem_outside.specs.Journal.{journal_first, journal_calls, journal_numbers, journal_faults};
    ghost use Rattle.mem_outside.specs.Journal.{with_no_faults};

    // Two slots with these bytes, all of them durable.
    pub(crate) fn new(
        alloc: Global,
        slots: SlotPair,
        fails: Vec<u64>,
        row: Arc<CallRow>,
    ) -> Result<MemJournal, AllocError>
        ensures first { IfOk result (λ journal. journal_first journal ≡ pair_image slots) }
        ensures calls { IfOk result (λ journal. journal_calls journal ≡ []) }
        ensures numbers { IfOk result (λ journal. journal_numbers journal
            ≡ record { fails = fails; made = 0; faults = 0 }) }
    {
        Ok(MemJournal {
            disk: RecordedDisk::new(alloc, slots)?,
            numbers: Calls::new(fails),
            row,
        })
    }

    // How many of its calls stand in the row at this place or before it, up to the first behind it.
    pub(crate) fn count_until(&self, moment: u64) -> usize
        ensures count { result ≡ prefix_len (is_call_until moment) (journal_calls self.now) }
        ensures bound { result ≤ length (journal_calls self.now) }
    {
        self.disk.count_until(moment)
    }

    // The greatest place in the row on its record, or 0.
    pub(crate) fn last(&self) -> u64
        ensures { result ≡ last_of_calls (journal_calls self.now) }
    {
        self.disk.last()
    }

    // How often it has failed.
    pub(crate) fn faults(&self) -> u64
        ensures { result ≡ journal_faults self.now }
    {
        self.numbers.faults()
    }

    // Counts its faults from 0 again.
    pub(crate) fn reset_faults(&mut self)
        ensures { self.new ≡ with_no_faults self.old }
    {
        self.numbers.reset_faults();
    }

    // What a stop of this kind leaves behind the first `moment` calls.
    pub(crate) fn after_stop(&self, moment: usize, stop: StopKind) -> Result<SlotPair, AllocError>
        requires { moment ≤ length (journal_calls self.now) }
        ensures { IfOk result (λ slots. pair_image slots ≡
            image_after_stop stop (journal_first self.now) (take moment (journal_calls self.now))) }
    {
        Ok(SlotPair {
            a: self.disk.after_stop(Slot::A, moment, stop)?,
            b: self.disk.after_stop(Slot::B, moment, stop)?,
        })
    }
}

impl Counted for MemJournal {
    ghost use Rattle.mem_outside.specs.Journal.{journal_faults};

    ghost faults = { journal_faults };
}

impl Disk for MemJournal {
    ghost use Rattle.mem_outside.specs.Journal.{journal_first, journal_calls, journal_state};

    ghost state = { journal_state };

    ghost lawful = { λ j. state_is_lawful (journal_first j) (journal_calls j) };
}

impl Journal for MemJournal {
    ghost use Rattle.tsdb_outside.specs.Disk.{in_slot, Overwrites, WhereTold, Durable, Keeps, MayWrite};
    ghost use Rattle.mem_outside.specs.Calls.{NextFails};
    ghost use Rattle.mem_outside.specs.Record.{after_write, after_sync};
    ghost use Rattle.mem_outside.specs.Journal.{journal_state, journal_numbers, journal_faults, Succeeds};
    ghost use Rattle.mem_outside.specs.Journal.{FailsByNumber, FailsWithoutRoom};

    fn length(&mut self, slot: Slot) -> Result<u64, Failed>
        ensures length { IfOk result (λ n. ForSome (journal_state self.old).seen
            (λ image. n ≡ length (in_slot slot image))) }
        ensures limit { IfOk result FitsSlot }
        ensures keeps { Keeps (journal_state self.old) (journal_state self.new) }
        ensures cause { HasCause (journal_faults self.old) (journal_faults self.new) result }

        // It never fails, and is no counted call.
        ensures ok { IsOk result }
        ensures same { self.new ≡ self.old }
    {
        Ok(self.disk.slot(slot).len() as u64)
    }

    fn read_at(&mut self, slot: Slot, at: u64, into: &mut [u8]) -> Result<(), Failed>
        requires { ForSome (journal_state self.old).seen (λ image. at + length into.old ≤ length (in_slot slot image)) }
        ensures bytes { OnOk result (IfSome (journal_state self.old).seen
            (λ image. into.new ≡ take (length into.new) (drop at (in_slot slot image)))) }
        ensures keeps { Keeps (journal_state self.old) (journal_state self.new) }
        ensures cause { HasCause (journal_faults self.old) (journal_faults self.new) result }

        // It never fails, and is no counted call.
        ensures ok { IsOk result }
        ensures same { self.new ≡ self.old }
    {
        let at = at as usize;
        into.copy_from_slice(&self.disk.slot(slot)[at..at + into.len()]);
        Ok(())
    }

    fn write_at(&mut self, slot: Slot, at: u64, bytes: &[u8]) -> Result<(), Failed>
        requires { ForSome (journal_state self.old).seen (λ image. at ≤ length (in_slot slot image)) }
        ensures bytes { OnOk result (WhereTold (Overwrites slot at bytes.now)
            (journal_state self.old).seen (journal_state self.new).seen) }
        ensures limit { OnOk result (FitsSlot (at + length bytes.now)) }
        ensures writes { MayWrite slot at (length bytes.now) (journal_state self.old) (journal_state self.new) }
        ensures cause { HasCause (journal_faults self.old) (journal_faults self.new) result }

        // It fails at the calls with these numbers, and otherwise only without room.
        ensures ok { OnOk result (Succeeds slot (after_write at bytes.now) self.old self.new) }
        ensures fails { NextFails (journal_numbers self.old)
            → IsErr result × FailsByNumber slot (after_write at bytes.now) self.old self.new }
        ensures no_room { ¬ NextFails (journal_numbers self.old) → OnErr result (FailsWithoutRoom self.old self.new) }
    {
        let outcome = self.numbers.make();
        let place = Outcome {
            at: self.row.draw(),
            succeeded: outcome.is_ok(),
        };
        if !is_within_limit(at, bytes.len()) {
            return Err(self.numbers.fail());
        }
        match self.disk.write(slot, at as usize, bytes, place) {
            Ok(()) => outcome,
            Err(AllocError) => Err(self.numbers.fail()),
        }
    }

    fn sync(&mut self, slot: Slot) -> Result<(), Failed>
        ensures durable { OnOk result (IfSome (journal_state self.old).seen
            (λ image. Durable slot (in_slot slot image) (journal_state self.new).may_leave)) }
        ensures keeps { Keeps (journal_state self.old) (journal_state self.new) }
        ensures cause { HasCause (journal_faults self.old) (journal_faults self.new) result }

        // It fails at the calls with these numbers, and otherwise only without room.
        ensures ok { OnOk result (Succeeds slot after_sync self.old self.new) }
        ensures fails { NextFails (journal_numbers self.old)
            → IsErr result × FailsByNumber slot after_sync self.old self.new }
        ensures no_room { ¬ NextFails (journal_numbers self.old) → OnErr result (FailsWithoutRoom self.old self.new) }
    {
        let outcome = self.numbers.make();
        let place = Outcome {
            at: self.row.draw(),
            succeeded: outcome.is_ok(),
        };
        match self.disk.sync(slot, place) {
            Ok(()) => outcome,
            Err(AllocError) => Err(self.numbers.fail()),
        }
    }
}
