//! The directory of a store, by the calls that its making and its opening need of it. A directory may tell which slots
//! it has, and what a stop may leave of it now or may have left so far. A rename is whole or not at all; the names are
//! durable after a sync of the directory, the bytes of a slot after a sync of its file. The making and the opening are
//! proved over directories that tell. A directory of the system tells nothing.
ghost use Rattle.std.specs.Prelude.{◌≡◌, ◌≢◌, ◌↔◌, ◌⊎◌, ◌≤◌, [], None, false, IfOk, IfSome, IsTrue, OnErr, OnOk};
ghost use Rattle.tsdb_base.specs.Causes.{Rose};
ghost use Rattle.tsdb_outside.specs.Causes.{HasCause};
ghost use Rattle.tsdb_outside.specs.declared.disk.Slot.{Slot};
ghost use Rattle.fs_outside.specs.Directory.{Becomes};
ghost use Rattle.fs_outside.specs.SlotDirectory.{DirectoryState, IsLawfulDirectory, silent_directory, slot_in};
ghost use Rattle.fs_outside.specs.SlotDirectory.{IsOneZero, KeepsDirectory, StaysDurable, MayRename, AreNamesDurable};
ghost use Rattle.fs_outside.specs.SlotDirectory.{with_unfinished, with_synced_unfinished, with_own_name, with_renamed};
ghost use Rattle.fs_outside.specs.SlotDirectory.{with_locked_slots, with_synced_slot};

use crate::file_name::path_in;
use crate::locked_directory::LockedDirectory;
use std::alloc::AllocError;
use std::fs::{self, File, OpenOptions};
use std::io::{self, ErrorKind, Write};
use std::os::unix::fs::{FileExt, MetadataExt, OpenOptionsExt};
use std::rt::Files;
use tsdb_outside::Slot;

/// The open file of a slot.
pub trait OpenSlot: Drop {
    /// Which slot it is.
    ghost slot: { Self → Slot };
}

/// The calls on a directory that the making and the opening of a store make.
pub trait SlotDirectory {
    type File: OpenSlot;

    /// What it means.
    ghost state: { Self → DirectoryState };

    /// The laws of its state.
    ghost lawful: { (directory : Self) → IsLawfulDirectory (state directory) };

    /// Whether the name of a slot is there, wherever it leads.
    fn has_slot(&mut self, slot: Slot) -> io::Result<bool>
        ensures there { IfOk result (λ there. IfSome (state self.old).seen (λ view.
            (IsTrue there → slot_in slot view.image ≢ None) × (¬ IsTrue there → slot_in slot view.image ≡ None))) }
        ensures keeps { KeepsDirectory (state self.old) (state self.new) }
        ensures cause { HasCause (state self.old).faults (state self.new).faults result };

    /// Whether a slot that is there is one byte 0.
    fn is_one_zero(&mut self, slot: Slot) -> io::Result<bool>
        ensures zero { IfOk result (λ zero. IfSome (state self.old).seen (λ view.
            IsTrue zero ↔ IsOneZero slot view.image)) }
        ensures keeps { KeepsDirectory (state self.old) (state self.new) }
        ensures cause { HasCause (state self.old).faults (state self.new).faults result };

    /// Whether there is a file of a store.
    fn has_files(&mut self) -> io::Result<bool>
        ensures files { IfOk result (λ has. IfSome (state self.old).seen (λ view. has ≡ view.image.has_files)) }
        ensures keeps { KeepsDirectory (state self.old) (state self.new) }
        ensures cause { HasCause (state self.old).faults (state self.new).faults result };

    /// Makes the name of the directory itself durable. That of one that was there before, in a parent that may not be
    /// read, is taken to be so.
    fn sync_parent(&mut self) -> io::Result<()>
        ensures ok { OnOk result (Becomes with_own_name (state self.old).seen (state self.new).seen) }
        ensures stays { StaysDurable (state self.old) (state self.new) }
        ensures cause { HasCause (state self.old).faults (state self.new).faults result };

    /// Creates the file of a slot under another name, empty. One that is there is removed, and never written to.
    fn create_unfinished(&mut self, slot: Slot) -> io::Result<()>
        ensures ok { OnOk result (Becomes (with_unfinished [] false) (state self.old).seen (state self.new).seen) }
        ensures stays { StaysDurable (state self.old) (state self.new) }
        ensures cause { HasCause (state self.old).faults (state self.new).faults result };

    /// Writes the whole file that was created last.
    fn write_unfinished(&mut self, bytes: &[u8]) -> io::Result<()>
        ensures ok { OnOk result (Becomes (with_unfinished bytes.now false)
            (state self.old).seen (state self.new).seen) }
        ensures stays { StaysDurable (state self.old) (state self.new) }
        ensures cause { HasCause (state self.old).faults (state self.new).faults result };

    /// Makes the bytes of the file that was created last durable.
    fn sync_unfinished(&mut self) -> io::Result<()>
        ensures ok { OnOk result (Becomes with_synced_unfinished (state self.old).seen (state self.new).seen) }
        ensures stays { StaysDurable (state self.old) (state self.new) }
        ensures cause { HasCause (state self.old).faults (state self.new).faults result };

    /// Gives the file that was created for a slot the slot's name.
    fn rename(&mut self, slot: Slot) -> io::Result<()>
        ensures ok { OnOk result (Becomes (with_renamed slot) (state self.old).seen (state self.new).seen) }
        ensures moves { IfSome (state self.old).seen (λ view. MayRename slot view (state self.old) (state self.new)) }
        ensures cause { HasCause (state self.old).faults (state self.new).faults result };

    /// Makes the names of the slots durable, and those of all files.
    fn sync_names(&mut self) -> io::Result<()>
        ensures durable { OnOk result (AreNamesDurable (state self.new)) }
        ensures keeps { KeepsDirectory (state self.old) (state self.new) }
        ensures cause { HasCause (state self.old).faults (state self.new).faults result };

    /// Opens a slot that is there.
    fn open(&mut self, slot: Slot) -> io::Result<Self::File>
        ensures slot { IfOk result (λ file. Self.File.slot file ≡ slot) }
        ensures there { OnOk result (IfSome (state self.old).seen (λ view. slot_in slot view.image ≢ None)) }
        ensures keeps { KeepsDirectory (state self.old) (state self.new) }
        ensures reason { OnErr result (Rose (state self.old).faults (state self.new).faults
            ⊎ IfSome (state self.old).seen (λ view. slot_in slot view.image ≡ None)) }
        ensures later { (state self.old).faults ≤ (state self.new).faults };

    /// Takes the lock of the first slot, and looks whether the second is another file.
    fn lock_slots(&mut self, a: &Self::File, b: &Self::File) -> io::Result<()>
        ensures ok { OnOk result (Becomes (with_locked_slots (Self.File.slot a.now) (Self.File.slot b.now))
            (state self.old).seen (state self.new).seen) }
        ensures stays { StaysDurable (state self.old) (state self.new) }
        ensures cause { HasCause (state self.old).faults (state self.new).faults result };

    /// Makes the bytes of a slot durable.
    fn sync_slot(&mut self, file: &Self::File) -> io::Result<()>
        ensures ok { OnOk result (Becomes (with_synced_slot (Self.File.slot file.now))
            (state self.old).seen (state self.new).seen) }
        ensures stays { StaysDurable (state self.old) (state self.new) }
        ensures cause { HasCause (state self.old).faults (state self.new).faults result };
}

/// The open file of a slot of the system.
#[derive(Drop)]
pub struct SlotOnDisk {
    pub file: File,
    slot: Slot,
}

impl OpenSlot for SlotOnDisk {
    ghost slot = { λ file. file.slot };
}

/// A directory of the system.
#[derive(Drop)]
pub struct SlotsOnDisk<'a, R> {
    rt: &'a R,
    dir: &'a str,
    pub directory: LockedDirectory,
    unfinished: Option<File>,
}

impl<'a, R: Files<File = File> + AllocGlobal> SlotsOnDisk<'a, R> {
    pub fn new(rt: &'a R, dir: &'a str, directory: LockedDirectory) -> Self {
        SlotsOnDisk {
            rt,
            dir,
            directory,
            unfinished: None,
        }
    }

    // The path of a name in the directory.
    fn path(&self, name: &str) -> Result<String, AllocError> {
        path_in(self.rt.alloc(), self.directory.path(), name)
    }

    fn open_file(&self, name: &str) -> io::Result<File> {
        let path = self.path(name)?;
        OpenOptions::new()
            .read(true)
            .write(true)
            .open(self.rt, path.as_str())
    }
}

fn name_of_slot(slot: Slot) -> &'static str {
    match slot {
        Slot::A => "slot0",
        Slot::B => "slot1",
    }
}

fn unfinished_name(slot: Slot) -> &'static str {
    match slot {
        Slot::A => "slot0.new",
        Slot::B => "slot1.new",
    }
}

/// Creates a file that only its owner may read and write. One that is there is left alone, and the call fails.
pub(crate) fn create_private<R: Files<File = File>>(rt: &R, path: &str) -> io::Result<File> {
    OpenOptions::new()
        .read(true)
        .write(true)
        .create_new(true)
        .mode(0o600)
        .open(rt, path)
}

// Whether two open files are one.
fn is_same_file(one: &File, other: &File) -> io::Result<bool> {
    let (one, other) = (one.metadata()?, other.metadata()?);
    Ok(one.dev() == other.dev() && one.ino() == other.ino())
}

// The file that is being made, if there is one.
fn unfinished_file(unfinished: &mut Option<File>) -> io::Result<&mut File> {
    match unfinished {
        Some(file) => Ok(file),
        None => Err(io::Error::from(ErrorKind::NotFound)),
    }
}

impl<R: Files<File = File> + AllocGlobal + Clone + Drop> SlotDirectory for SlotsOnDisk<'_, R> {
    ghost use Rattle.fs_outside.specs.SlotDirectory.{silent_directory_is_lawful};

    type File = SlotOnDisk;

    ghost state = { λ _. silent_directory };

    ghost lawful = { λ _. silent_directory_is_lawful };

    // A link that leads nowhere is there too: its log is not lost, but out of reach.
    fn has_slot(&mut self, slot: Slot) -> io::Result<bool> {
        let path = self.path(name_of_slot(slot))?;
        match fs::symlink_metadata(self.rt, path.as_str()) {
            Ok(_) => Ok(true),
            Err(error) if error.kind() == ErrorKind::NotFound => Ok(false),
            Err(error) => Err(error),
        }
    }

    fn is_one_zero(&mut self, slot: Slot) -> io::Result<bool> {
        let file = self.open_file(name_of_slot(slot))?;
        let mut first = [1];
        if file.metadata()?.len() != 1 {
            return Ok(false);
        }
        file.read_exact_at(&mut first, 0)?;
        Ok(first == [0])
    }

    // A name that is not UTF-8 is none of a file.
    fn has_files(&mut self) -> io::Result<bool> {
        for entry in fs::read_dir(self.rt, self.directory.path())? {
            match entry {
                Ok(entry) if entry.file_name().ends_with(".tsfile") => return Ok(true),
                Ok(_) => {}
                Err(error) if error.kind() == ErrorKind::InvalidFilename => {}
                Err(error) => return Err(error),
            }
        }
        Ok(false)
    }

    // Where the parent of a new directory may not be read, the directory is removed: a stop might lose it with its store.
    fn sync_parent(&mut self) -> io::Result<()> {
        match File::open(self.rt, self.path("..")?.as_str()) {
            Ok(parent) => parent.sync_all(),
            Err(error) if self.directory.is_new() => {
                let _ = fs::remove_dir(self.rt, self.dir);
                Err(error)
            }
            Err(error) if error.kind() == ErrorKind::PermissionDenied => Ok(()),
            Err(error) => Err(error),
        }
    }

    // What is there is removed first, so that no link is followed.
    fn create_unfinished(&mut self, slot: Slot) -> io::Result<()> {
        let path = self.path(unfinished_name(slot))?;
        match fs::remove_file(self.rt, path.as_str()) {
            Err(error) if error.kind() != ErrorKind::NotFound => return Err(error),
            _ => {}
        }
        self.unfinished = Some(create_private(self.rt, path.as_str())?);
        Ok(())
    }

    fn write_unfinished(&mut self, bytes: &[u8]) -> io::Result<()> {
        unfinished_file(&mut self.unfinished)?.write_all(bytes)
    }

    fn sync_unfinished(&mut self) -> io::Result<()> {
        unfinished_file(&mut self.unfinished)?.sync_all()
    }

    fn rename(&mut self, slot: Slot) -> io::Result<()> {
        let from = self.path(unfinished_name(slot))?;
        let to = self.path(name_of_slot(slot))?;
        fs::rename(self.rt, from.as_str(), to.as_str())
    }

    fn sync_names(&mut self) -> io::Result<()> {
        self.directory.sync_first()
    }

    fn open(&mut self, slot: Slot) -> io::Result<SlotOnDisk> {
        let file = self.open_file(name_of_slot(slot))?;
        Ok(SlotOnDisk { file, slot })
    }

    // A slot that another directory has too, by a hard link or a symbolic one, is locked there.
    fn lock_slots(&mut self, a: &SlotOnDisk, b: &SlotOnDisk) -> io::Result<()> {
        if is_same_file(&a.file, &b.file)? {
            return Err(io::Error::from(ErrorKind::InvalidInput));
        }
        Ok(a.file.try_lock()?)
    }

    fn sync_slot(&mut self, file: &SlotOnDisk) -> io::Result<()> {
        file.file.sync_all()
    }
}
