//! The journal of a real store: each slot over its file. It counts every failure, keeps a slot within its limit, and
//! gives a slot up whose sync has failed: the system may forget bytes that it could not write, so a later sync that
//! succeeds would prove nothing. Depends on `slot_file`.
ghost use Rattle.std.specs.Prelude.{◌≡◌, ◌↔◌, ◌+◌, ◌-◌, ◌^◌, ◌≤◌, min, length, false, is_err, IfOk, IsErr, IsTrue};
ghost use Rattle.std.specs.Prelude.{OnErr, OnOk};
ghost use Rattle.tsdb_base.specs.Causes.{Rose};
ghost use Rattle.tsdb_outside.specs.Causes.{HasCause};
ghost use Rattle.tsdb_outside.specs.Limits.{FitsSlot};
ghost use Rattle.fs_outside.specs.FileState.{FileFails, HasLength, HasBytes, KeepsFile, OverwritesFile, MayWriteFile};
ghost use Rattle.fs_outside.specs.FileState.{IsFileDurable};

use crate::locked_directory::LockedDirectory;
use crate::slot_file::SlotFile;
use std::fs::File;
use std::sync::Arc;
use tsdb_base::limits::END_OF_SLOT;
use tsdb_outside::{Counted, Disk, Failed, Journal, Slot};

/// A slot, or a stored file, has at most this many bytes.
pub(crate) const MAX_LENGTH: u64 = END_OF_SLOT - 1;

fn is_within_limit(at: u64, length: usize) -> bool
    ensures { IsTrue result ↔ FitsSlot (at + length) }
{
    at <= MAX_LENGTH && length as u64 <= MAX_LENGTH - at
}

// A slot over its file.
#[derive(Drop)]
pub struct FileSlot<F> {
    file: F,
    sync_failed: bool,
    faults: u64,
}

impl<F> FileSlot<F> {
    fn new(file: F) -> Self
        ensures { result ≡ record { file = file; sync_failed = false; faults = 0 } }
    {
        FileSlot {
            file,
            sync_failed: false,
            faults: 0,
        }
    }

    // Counts a fault.
    fn fail(&mut self) -> Failed
        ensures fault { self.new ≡ record self.old { faults = min (self.old.faults + 1) (2 ^ 64 - 1) } }
        ensures later { self.old.faults ≤ self.new.faults }
        ensures rose { Rose self.old.faults self.new.faults }
    {
        self.faults = self.faults.saturating_add(1);
        Failed
    }
}

impl<F: SlotFile> FileSlot<F> {
    ghost use Rattle.fs_outside.specs.Journal.{LengthFails, WriteFails, SyncFails};

    fn length(&mut self) -> Result<u64, Failed>
        ensures length { IfOk result (λ n. HasLength n (F.state self.old.file)) }
        ensures limit { IfOk result FitsSlot }
        ensures keeps { KeepsFile (F.state self.old.file) (F.state self.new.file) }
        ensures reason { OnErr result (LengthFails (F.state self.old.file) (F.state self.new.file)) }
        ensures same { self.new.sync_failed ≡ self.old.sync_failed }
        ensures cause { HasCause self.old.faults self.new.faults result }
    {
        match self.file.length() {
            Ok(length) if length <= MAX_LENGTH => Ok(length),
            _ => Err(self.fail()),
        }
    }

    fn read_at(&mut self, at: u64, into: &mut [u8]) -> Result<(), Failed>
        ensures bytes { OnOk result (HasBytes at into.new (F.state self.old.file)) }
        ensures keeps { KeepsFile (F.state self.old.file) (F.state self.new.file) }
        ensures reason { OnErr result (FileFails (F.state self.old.file) (F.state self.new.file)) }
        ensures same { self.new.sync_failed ≡ self.old.sync_failed }
        ensures cause { HasCause self.old.faults self.new.faults result }
    {
        if self.file.read_at(at, into).is_err() {
            return Err(self.fail());
        }
        Ok(())
    }

    fn write_at(&mut self, at: u64, bytes: &[u8]) -> Result<(), Failed>
        ensures bytes { OnOk result (OverwritesFile at bytes.now (F.state self.old.file) (F.state self.new.file)) }
        ensures limit { OnOk result (FitsSlot (at + length bytes.now)) }
        ensures writes { MayWriteFile at (length bytes.now) (F.state self.old.file) (F.state self.new.file) }
        ensures reason { OnErr result (WriteFails self.old.sync_failed (at + length bytes.now)
            (F.state self.old.file) (F.state self.new.file)) }
        ensures refused { IsTrue self.old.sync_failed → IsErr result }
        ensures same { self.new.sync_failed ≡ self.old.sync_failed }
        ensures cause { HasCause self.old.faults self.new.faults result }
    {
        if self.sync_failed || !is_within_limit(at, bytes.len()) {
            return Err(self.fail());
        }
        if self.file.write_at(at, bytes).is_err() {
            return Err(self.fail());
        }
        Ok(())
    }

    fn sync(&mut self) -> Result<(), Failed>
        ensures durable { OnOk result (IsFileDurable (F.state self.old.file) (F.state self.new.file)) }
        ensures keeps { KeepsFile (F.state self.old.file) (F.state self.new.file) }
        ensures reason { OnErr result (SyncFails self.old.sync_failed (F.state self.old.file) (F.state self.new.file)) }
        ensures refused { IsTrue self.old.sync_failed → IsErr result }
        ensures failed { self.new.sync_failed ≡ is_err result }
        ensures cause { HasCause self.old.faults self.new.faults result }
    {
        if self.sync_failed || self.file.sync().is_err() {
            self.sync_failed = true;
            return Err(self.fail());
        }
        Ok(())
    }
}

/// The two slots of a store, each over its file. It tells nothing of what a stop may leave, since two files have no
/// clock in common; its clauses say what each call does to its slot's file, where that file tells. The guard, as the
/// lock of a directory, is held as long as the journal is out.
#[derive(Drop)]
pub struct FsJournal<F = File, G = Arc<LockedDirectory>> {
    a: FileSlot<F>,
    b: FileSlot<F>,
    guard: G,
}

impl<F, G> FsJournal<F, G> {
    ghost use Rattle.tsdb_outside.specs.declared.disk.Slot.TheVariants.{A, B};
    ghost use Rattle.fs_outside.specs.Journal.{file_of_slot, journal_faults, sync_failed};

    /// The journal over these files, before the first fault. It holds the guard.
    pub fn new(a: F, b: F, guard: G) -> Self
        ensures files { file_of_slot A result ≡ a × file_of_slot B result ≡ b }
        ensures synced { sync_failed A result ≡ false × sync_failed B result ≡ false }
        ensures faults { journal_faults result ≡ 0 }
    {
        FsJournal {
            a: FileSlot::new(a),
            b: FileSlot::new(b),
            guard,
        }
    }

    // How often it has failed.
    pub(crate) fn faults(&self) -> u64
        ensures { result ≡ journal_faults self.now }
    {
        self.a.faults.saturating_add(self.b.faults)
    }
}

impl<F, G> Counted for FsJournal<F, G> {
    ghost use Rattle.fs_outside.specs.Journal.{journal_faults};

    ghost faults = { journal_faults };
}

impl<F, G> Disk for FsJournal<F, G> {
    ghost use Rattle.tsdb_outside.specs.Disk.{silent_state};
    ghost use Rattle.tsdb_outside.specs.Laws.{silent_is_lawful};

    ghost state = { λ _. silent_state };

    ghost lawful = { λ _. silent_is_lawful };
}

impl<F: SlotFile + Send, G: Send> Journal for FsJournal<F, G> {
    ghost use Rattle.tsdb_outside.specs.Disk.{Keeps, MayWrite, silent_state};
    ghost use Rattle.fs_outside.specs.Journal.{file_state, sync_failed, journal_faults, SameElsewhere, LengthFails};
    ghost use Rattle.fs_outside.specs.Journal.{WriteFails, SyncFails};

    fn length(&mut self, slot: Slot) -> Result<u64, Failed>
        ensures length { IfOk result (λ n. HasLength n (file_state F.state slot self.old)) }
        ensures limit { IfOk result FitsSlot }
        ensures keeps { Keeps silent_state silent_state }
        ensures cause { HasCause (journal_faults self.old) (journal_faults self.new) result }

        // What the slot's file tells.
        ensures file { KeepsFile (file_state F.state slot self.old) (file_state F.state slot self.new) }
        ensures elsewhere { SameElsewhere slot self.old self.new }
        ensures reason { OnErr result (LengthFails
            (file_state F.state slot self.old) (file_state F.state slot self.new)) }
        ensures same { sync_failed slot self.new ≡ sync_failed slot self.old }
    {
        match slot {
            Slot::A => self.a.length(),
            Slot::B => self.b.length(),
        }
    }

    fn read_at(&mut self, slot: Slot, at: u64, into: &mut [u8]) -> Result<(), Failed>
        ensures bytes { OnOk result (HasBytes at into.new (file_state F.state slot self.old)) }
        ensures keeps { Keeps silent_state silent_state }
        ensures cause { HasCause (journal_faults self.old) (journal_faults self.new) result }

        // What the slot's file tells.
        ensures file { KeepsFile (file_state F.state slot self.old) (file_state F.state slot self.new) }
        ensures elsewhere { SameElsewhere slot self.old self.new }
        ensures reason { OnErr result (FileFails
            (file_state F.state slot self.old) (file_state F.state slot self.new)) }
        ensures same { sync_failed slot self.new ≡ sync_failed slot self.old }
    {
        match slot {
            Slot::A => self.a.read_at(at, into),
            Slot::B => self.b.read_at(at, into),
        }
    }

    fn write_at(&mut self, slot: Slot, at: u64, bytes: &[u8]) -> Result<(), Failed>
        ensures bytes { OnOk result (OverwritesFile at bytes.now
            (file_state F.state slot self.old) (file_state F.state slot self.new)) }
        ensures limit { OnOk result (FitsSlot (at + length bytes.now)) }
        ensures writes { MayWrite slot at (length bytes.now) silent_state silent_state }
        ensures cause { HasCause (journal_faults self.old) (journal_faults self.new) result }

        // What the slot's file tells.
        ensures file { MayWriteFile at (length bytes.now)
            (file_state F.state slot self.old) (file_state F.state slot self.new) }
        ensures elsewhere { SameElsewhere slot self.old self.new }
        ensures reason { OnErr result (WriteFails (sync_failed slot self.old) (at + length bytes.now)
            (file_state F.state slot self.old) (file_state F.state slot self.new)) }

        // After a sync of the slot has failed, every write and sync fails.
        ensures refused { IsTrue (sync_failed slot self.old) → IsErr result }
        ensures same { sync_failed slot self.new ≡ sync_failed slot self.old }
    {
        match slot {
            Slot::A => self.a.write_at(at, bytes),
            Slot::B => self.b.write_at(at, bytes),
        }
    }

    fn sync(&mut self, slot: Slot) -> Result<(), Failed>
        ensures durable { OnOk result (IsFileDurable
            (file_state F.state slot self.old) (file_state F.state slot self.new)) }
        ensures keeps { Keeps silent_state silent_state }
        ensures cause { HasCause (journal_faults self.old) (journal_faults self.new) result }

        // What the slot's file tells.
        ensures file { KeepsFile (file_state F.state slot self.old) (file_state F.state slot self.new) }
        ensures elsewhere { SameElsewhere slot self.old self.new }
        ensures reason { OnErr result (SyncFails (sync_failed slot self.old)
            (file_state F.state slot self.old) (file_state F.state slot self.new)) }

        // After a sync of the slot has failed, every write and sync fails.
        ensures refused { IsTrue (sync_failed slot self.old) → IsErr result }
        ensures failed { sync_failed slot self.new ≡ is_err result }
    {
        match slot {
            Slot::A => self.a.sync(),
            Slot::B => self.b.sync(),
        }
    }
}
