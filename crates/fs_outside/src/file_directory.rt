//! The directory of a store, by the calls that its files need of it. A directory may tell which files it has, and of
//! each whether a stop leaves its bytes and its name: the bytes are durable after a sync of the file, the name after a
//! sync of the directory. A call that fails makes nothing durable, and leaves the files with other numbers. After a
//! sync of the names has failed no file is created any more: the system may have forgotten what it could not write.
//! The files and ports are proved over directories that tell. A directory of the system tells nothing. Depends on
//! `locked_directory` and `file_name`.
ghost use Rattle.std.specs.Prelude.{◌≡◌, ◌↔◌, ◌⊎◌, ℕ, ◌^◌, ◌-◌, Bool, List, [], map, Contains, None, IfOk, IfSome};
ghost use Rattle.std.specs.Prelude.{IsErr, IsTrue, MatchOption, OnErr, OnOk, is_err};
ghost use Rattle.std.specs.declared.option.Option.{Option};
ghost use Rattle.tsdb_outside.specs.Causes.{HasCause};
ghost use Rattle.tsdb_outside.specs.Files.{IsFileNumber};
ghost use Rattle.fs_outside.specs.Directory.{DirectoryFile, IsFreeIn, IsTakenIn, SameBut, Becomes, add_new, change_one};
ghost use Rattle.fs_outside.specs.Directory.{with_bytes, with_synced_bytes, with_synced_name, without};
ghost use Rattle.fs_outside.specs.Directory.{directory_numbers};
ghost use Rattle.fs_outside.specs.Directory.{HasBytesOf, HasLengthOf};

use crate::file_name::{name_of_number, number_of_name, path_in};
use crate::locked_directory::LockedDirectory;
use crate::slot_directory::create_private;
use std::alloc::{AllocError, Global};
use std::fs::{self, File};
use std::io::{self, ErrorKind};
use std::os::unix::fs::FileExt;
use std::rt::Files;
use std::sync::Arc;

/// An open file of a store.
pub trait NumberedFile: Drop {
    /// Its number.
    ghost number: { Self → ℕ };

    fn number(&self) -> u64
        ensures { result ≡ number self.now };
}

/// The calls on a directory that files and ports make. Each port has a handle of its own.
pub trait FileDirectory: Drop {
    type File: NumberedFile;

    /// The files that are there, or none where it does not tell.
    ghost told: { Self → Option (List DirectoryFile) };

    /// The numbers whose names lead to what is no file of the store, as a folder or a link.
    ghost others: { Self → List ℕ };

    /// Whether a sync of the names has failed.
    ghost sync_failed: { Self → Bool };

    /// How often it has failed.
    ghost faults: { Self → ℕ };

    /// A further handle.
    fn another(&self) -> Result<Self, AllocError>
    where
        Self: Sized;

    /// Creates an empty file. One that is there is left alone, and the call fails.
    fn create_new(&mut self, number: u64) -> io::Result<Self::File>
        ensures number { IfOk result (λ file. Self.File.number file ≡ number) }
        ensures free { OnOk result (IsFreeIn number (told self.old)) }
        ensures ok { OnOk result (Becomes (add_new number) (told self.old) (told self.new)) }
        ensures err { OnErr result (told self.new ≡ told self.old) }
        ensures refused { IsTrue (sync_failed self.old) → IsErr result }
        ensures same { sync_failed self.new ≡ sync_failed self.old }
        ensures cause { HasCause (faults self.old) (faults self.new) result };

    /// Writes a whole file that is empty.
    fn write_all(&mut self, file: &Self::File, bytes: &[u8]) -> io::Result<()>
        ensures ok { OnOk result (Becomes (change_one (Self.File.number file.now) (with_bytes bytes.now))
            (told self.old) (told self.new)) }
        ensures err { OnErr result (SameBut (Self.File.number file.now) (told self.old) (told self.new)) }
        ensures same { sync_failed self.new ≡ sync_failed self.old }
        ensures cause { HasCause (faults self.old) (faults self.new) result };

    /// Makes the bytes of a file durable.
    fn sync_file(&mut self, file: &Self::File) -> io::Result<()>
        ensures ok { OnOk result (Becomes (change_one (Self.File.number file.now) with_synced_bytes)
            (told self.old) (told self.new)) }
        ensures err { OnErr result (told self.new ≡ told self.old) }
        ensures same { sync_failed self.new ≡ sync_failed self.old }
        ensures cause { HasCause (faults self.old) (faults self.new) result };

    /// Makes the names of all files durable.
    fn sync_names(&mut self) -> io::Result<()>
        ensures ok { OnOk result (Becomes (map with_synced_name) (told self.old) (told self.new)) }
        ensures err { OnErr result (told self.new ≡ told self.old) }
        ensures failed { sync_failed self.new ≡ is_err result }
        ensures refused { IsTrue (sync_failed self.old) → IsErr result }
        ensures cause { HasCause (faults self.old) (faults self.new) result };

    /// Whether a file with this number is there.
    fn is_there(&mut self, number: u64) -> io::Result<bool>
        ensures there { IfOk result (λ there.
            (IsTrue there → IsTakenIn number (told self.old)) × (¬ IsTrue there → IsFreeIn number (told self.old))) }
        ensures same { told self.new ≡ told self.old × sync_failed self.new ≡ sync_failed self.old }
        ensures cause { HasCause (faults self.old) (faults self.new) result };

    /// Opens a file, or returns `None` where there is none.
    fn open(&mut self, number: u64) -> io::Result<Option<Self::File>>
        ensures none { IfOk result (λ found. MatchOption found (IsFreeIn number (told self.old))
            (λ file. Self.File.number file ≡ number)) }
        ensures same { told self.new ≡ told self.old × sync_failed self.new ≡ sync_failed self.old }
        ensures cause { HasCause (faults self.old) (faults self.new) result };

    /// Fills `into` with the bytes of a file from `at` on.
    fn read_at(&mut self, file: &Self::File, at: u64, into: &mut [u8]) -> io::Result<()>
        ensures bytes { OnOk result (HasBytesOf (Self.File.number file.now) at into.new (told self.old)) }
        ensures same { told self.new ≡ told self.old × sync_failed self.new ≡ sync_failed self.old }
        ensures cause { HasCause (faults self.old) (faults self.new) result };

    /// How many bytes a file has.
    fn size(&mut self, file: &Self::File) -> io::Result<u64>
        ensures size { IfOk result (λ n. HasLengthOf (Self.File.number file.now) n (told self.old)) }
        ensures same { told self.new ≡ told self.old × sync_failed self.new ≡ sync_failed self.old }
        ensures cause { HasCause (faults self.old) (faults self.new) result };

    /// Removes a file.
    fn remove(&mut self, number: u64) -> io::Result<()>
        ensures ok { OnOk result (Becomes (without number) (told self.old) (told self.new)) }
        ensures err { OnErr result (SameBut number (told self.old) (told self.new)) }
        ensures same { sync_failed self.new ≡ sync_failed self.old }
        ensures cause { HasCause (faults self.old) (faults self.new) result };

    /// The numbers of the files, and those that others have, in any order.
    fn numbers(&mut self) -> io::Result<Vec<u64>>
        ensures exact { IfOk result (λ list. IfSome (told self.old) (λ files. (n : ℕ) → IsFileNumber n
            → (Contains list.items n ↔ (Contains (directory_numbers files) n ⊎ Contains (others self.old) n)))) }
        ensures same { told self.new ≡ told self.old × sync_failed self.new ≡ sync_failed self.old }
        ensures cause { HasCause (faults self.old) (faults self.new) result };
}

/// An open file of the system.
#[derive(Drop)]
pub struct FileOnDisk {
    file: File,
    number: u64,
}

impl NumberedFile for FileOnDisk {
    ghost number = { λ file. file.number };

    fn number(&self) -> u64 {
        self.number
    }
}

/// A directory of the system, which holds the lock of the store. Its files are reached through the open directory, so
/// that one which is renamed goes on to be used. What is no regular file is no file of the store, but it has the number
/// of its name, which no new file can have. A handle opens the directory for itself before it creates its first file,
/// so that the system reports to it each name from then on that it could not write.
#[derive(Drop)]
pub struct StoreDirectory<R> {
    rt: R,
    directory: Arc<LockedDirectory>,
    own: Option<File>,
    sync_failed: bool,
}

impl<R: Files<File = File> + AllocGlobal + Clone + Drop> StoreDirectory<R> {
    pub(crate) fn new(rt: R, directory: Arc<LockedDirectory>) -> Self {
        StoreDirectory {
            rt,
            directory,
            own: None,
            sync_failed: false,
        }
    }

    fn path(&self, number: u64) -> Result<String, AllocError> {
        let name = name_of_number(self.rt.alloc(), number)?;
        path_in(self.rt.alloc(), self.directory.path(), name.as_str())
    }
}

// Whether a regular file lies at this path. A link is none, wherever it leads.
fn is_regular<R: Files<File = File>>(rt: &R, path: &str) -> io::Result<bool> {
    match fs::symlink_metadata(rt, path) {
        Ok(metadata) => Ok(metadata.is_file()),
        Err(error) if error.kind() == ErrorKind::NotFound => Ok(false),
        Err(error) => Err(error),
    }
}

impl<R: Files<File = File> + AllocGlobal + Clone + Drop> FileDirectory for StoreDirectory<R> {
    type File = FileOnDisk;

    ghost told = { λ _. None };

    ghost others = { λ _. [] };

    ghost sync_failed = { λ directory. directory.sync_failed };

    ghost faults = { λ _. 2 ^ 64 - 1 };

    fn another(&self) -> Result<Self, AllocError> {
        Ok(StoreDirectory {
            rt: self.rt.clone()?,
            directory: Arc::try_clone(&self.directory)?,
            own: None,
            sync_failed: self.sync_failed,
        })
    }

    fn create_new(&mut self, number: u64) -> io::Result<FileOnDisk> {
        if self.sync_failed || self.directory.has_failed() {
            return Err(io::Error::from(ErrorKind::Other));
        }
        if self.own.is_none() {
            self.own = Some(File::open(&self.rt, self.directory.path())?);
        }
        let path = self.path(number)?;
        let file = create_private(&self.rt, path.as_str())?;
        Ok(FileOnDisk { file, number })
    }

    fn write_all(&mut self, file: &FileOnDisk, bytes: &[u8]) -> io::Result<()> {
        file.file.write_all_at(bytes, 0)
    }

    fn sync_file(&mut self, file: &FileOnDisk) -> io::Result<()> {
        file.file.sync_all()
    }

    fn sync_names(&mut self) -> io::Result<()> {
        if self.sync_failed {
            return Err(io::Error::from(ErrorKind::Other));
        }
        let answer = match &self.own {
            Some(own) => self.directory.sync(own),
            None => Err(io::Error::from(ErrorKind::NotFound)),
        };
        self.sync_failed = answer.is_err();
        answer
    }

    fn is_there(&mut self, number: u64) -> io::Result<bool> {
        is_regular(&self.rt, self.path(number)?.as_str())
    }

    fn open(&mut self, number: u64) -> io::Result<Option<FileOnDisk>> {
        let path = self.path(number)?;
        if !is_regular(&self.rt, path.as_str())? {
            return Ok(None);
        }
        let file = File::open(&self.rt, path.as_str())?;
        Ok(Some(FileOnDisk { file, number }))
    }

    fn read_at(&mut self, file: &FileOnDisk, at: u64, into: &mut [u8]) -> io::Result<()> {
        file.file.read_exact_at(into, at)
    }

    fn size(&mut self, file: &FileOnDisk) -> io::Result<u64> {
        Ok(file.file.metadata()?.len())
    }

    fn remove(&mut self, number: u64) -> io::Result<()> {
        fs::remove_file(&self.rt, self.path(number)?.as_str())
    }

    fn numbers(&mut self) -> io::Result<Vec<u64>> {
        let alloc = self.rt.alloc();
        let mut numbers = Vec::new(alloc);
        for entry in fs::read_dir(&self.rt, self.directory.path())? {
            match entry {
                Ok(entry) => {
                    let number = number_of_name(alloc, entry.file_name())?;
                    if let Some(number) = number {
                        numbers.push(number)?;
                    }
                }
                Err(error) if error.kind() == ErrorKind::InvalidFilename => {}
                Err(error) => return Err(error),
            }
        }
        Ok(numbers)
    }
}
