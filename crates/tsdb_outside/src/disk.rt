//! The disk under the journal, and the place where a store lies. A disk has two slots of bytes under one clock, and
//! keeps these rules, whoever implements it:
//!
//! - A slot is written at any place up to its end, and has at most 2^63 - 1 bytes.
//! - Until the slot is synced, a stop may leave any bytes where it was written, and any part of what is past its old
//!   end. The bytes outside these ranges stay, and so does the other slot.
//! - A write that fails leaves its range pending, as one that succeeds does.
//! - After a sync that succeeds, a stop leaves in this slot what a read gives. A sync that fails makes nothing durable.
//! - Reads and syncs change nothing that reads give.
//! - A moment is a time at which a stop may come. Its number never falls, and what a stop may have left since an
//!   earlier moment is kept.
//! - What reads give is always one of the things that a stop may leave.
//! - A disk that does not tell its content may leave anything.
//!
//! Depends on `faults` and `files`.
ghost use Rattle.std.specs.Prelude.{◌≡◌, ℕ, List, ◌+◌, ◌-◌, ◌^◌, ◌<◌, ◌≤◌, min, length, take, drop, IfOk, OnOk, OnErr};
ghost use Rattle.std.specs.Prelude.{IfSome, Some};
ghost use Rattle.std.specs.declared.option.Option.{Option};
ghost use Rattle.std.specs.Option.{ForSome};
ghost use Rattle.tsdb_outside.specs.Causes.{HasCause, HasStoreCause, RisesOnlyByFailed};
ghost use Rattle.tsdb_outside.specs.Limits.{FitsSlot};

use crate::{Counted, Failed, Files, StoreFault};

/// One of the two files of bytes that a journal has.
#[derive(Clone, Copy, Debug, PartialEq, Eq)]
pub enum Slot {
    A,
    B,
}

/// The meaning of a disk with two slots.
pub trait Disk: Counted {
    ghost use Rattle.tsdb_outside.specs.Disk.{DiskState, IsLawful};

    /// What reads give, what a stop may leave, and what it may have left at earlier moments.
    ghost state: { Self → DiskState };

    /// The laws of its state.
    ghost lawful: { (disk : Self) → IsLawful (state disk) };
}

/// The slots of a store, read and written at any place.
pub trait Journal: Disk + Send {
    ghost use Rattle.tsdb_outside.specs.Disk.{in_slot, Overwrites, WhereTold, Durable, Keeps, MayWrite};

    /// How many bytes the slot has.
    fn length(&mut self, slot: Slot) -> Result<u64, Failed>
        ensures length { IfOk result (λ n. ForSome (Self.state self.old).seen
            (λ image. n ≡ length (in_slot slot image))) }
        ensures limit { IfOk result FitsSlot }
        ensures keeps { Keeps (Self.state self.old) (Self.state self.new) }
        ensures cause { HasCause (Self.faults self.old) (Self.faults self.new) result };

    /// Fills `into` with the bytes of the slot from `at` on. After `Failed` it may hold any bytes.
    fn read_at(&mut self, slot: Slot, at: u64, into: &mut [u8]) -> Result<(), Failed>
        requires { ForSome (Self.state self.old).seen (λ image. at + length into.old ≤ length (in_slot slot image)) }
        ensures bytes { OnOk result (IfSome (Self.state self.old).seen
            (λ image. into.new ≡ take (length into.new) (drop at (in_slot slot image)))) }
        ensures keeps { Keeps (Self.state self.old) (Self.state self.new) }
        ensures cause { HasCause (Self.faults self.old) (Self.faults self.new) result };

    /// Writes over what is there, and past the end. A slot that would grow past its limit fails.
    fn write_at(&mut self, slot: Slot, at: u64, bytes: &[u8]) -> Result<(), Failed>
        requires { ForSome (Self.state self.old).seen (λ image. at ≤ length (in_slot slot image)) }
        ensures bytes { OnOk result (WhereTold (Overwrites slot at bytes.now)
            (Self.state self.old).seen (Self.state self.new).seen) }
        ensures limit { OnOk result (FitsSlot (at + length bytes.now)) }
        ensures writes { MayWrite slot at (length bytes.now) (Self.state self.old) (Self.state self.new) }
        ensures cause { HasCause (Self.faults self.old) (Self.faults self.new) result };

    /// Makes the slot durable: after it a stop leaves in this slot what a read gives.
    fn sync(&mut self, slot: Slot) -> Result<(), Failed>
        ensures durable { OnOk result (IfSome (Self.state self.old).seen
            (λ image. Durable slot (in_slot slot image) (Self.state self.new).may_leave)) }
        ensures keeps { Keeps (Self.state self.old) (Self.state self.new) }
        ensures cause { HasCause (Self.faults self.old) (Self.faults self.new) result };
}

/// Where a store lies. It tells its content while its parts are in it.
pub trait Place: Disk {
    ghost use Rattle.tsdb_outside.specs.Disk.{Keeps};
    ghost use Rattle.tsdb_outside.specs.Files.{StoredFile};

    type Journal: Journal;

    type Files: Files;

    /// The files of its store, or none where it does not tell.
    ghost stored: { Self → Option (List StoredFile) };

    /// The directory whose store was taken up last, or none before the first.
    ghost asked: { Self → Option (List ℕ) };

    /// Hands out the journal and the files of the store in the directory, which mean what the place meant. They have no
    /// fault so far, and no `Sealed` is out. Where the directory has no store it makes one, whose slots have one synced
    /// byte 0 each. After an error the place means what it meant before. Its count of faults rises only where it
    /// returns `Failed`.
    fn take_up(&mut self, dir: &[u8]) -> Result<(Self::Journal, Self::Files), StoreFault>
        ensures keeps { IfOk result (λ parts. Keeps (Self.state self.old) (Self.Journal.state parts.0)) }
        ensures at_rest { IfOk result (λ parts. Self.Files.at_rest parts.1 ≡ Self.stored self.old) }
        ensures no_faults { IfOk result (λ parts. Self.Journal.faults parts.0 ≡ 0 × Self.Files.faults parts.1 ≡ 0) }
        ensures directory { IfOk result (λ parts. (Self.Files.store parts.1).directory ≡ dir.now) }
        ensures asked { OnOk result (Self.asked self.new ≡ Some dir.now) }
        ensures err { OnErr result (Keeps (Self.state self.old) (Self.state self.new)
            × Self.stored self.new ≡ Self.stored self.old) }
        ensures still_asked { OnErr result (Self.asked self.new ≡ Self.asked self.old) }
        ensures no_fault { RisesOnlyByFailed (Self.faults self.old) (Self.faults self.new) result }
        ensures cause { HasStoreCause (Self.faults self.old) (Self.faults self.new) result };

    /// Takes both parts back. The place then means what they meant, and its count rises by at least theirs together.
    fn put_down(&mut self, journal: Self::Journal, files: Self::Files)
        ensures keeps { Keeps (Self.Journal.state journal) (Self.state self.new) }
        ensures stored { Self.stored self.new ≡ Self.Files.at_rest files }
        ensures asked { Self.asked self.new ≡ Self.asked self.old }
        ensures later { Self.faults self.old ≤ Self.faults self.new }
        ensures faults { min (Self.faults self.old + Self.Journal.faults journal + Self.Files.faults files) (2 ^ 64 - 1)
            ≤ Self.faults self.new };
}
