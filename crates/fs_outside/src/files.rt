//! The files of a real store, and their ports, over the calls of a directory. They tell no bytes as `Files` and `Port`;
//! their clauses say what each call does to a directory that tells. A token holds the name of its file, and a port has
//! a few files open, so a store of many files needs few descriptors. Depends on `file_directory` and `open_files`.
ghost use Rattle.std.specs.Prelude.{◌≡◌, ◌↔◌, ◌⊎◌, ℕ, ◌+◌, ◌-◌, ◌^◌, ◌≤◌, min, map, All, Contains, None, IfOk};
ghost use Rattle.std.specs.Prelude.{IfSome, IsErr, IsErrOf, IsTrue, MatchOption, OnErr, OnOk};
ghost use Rattle.std.specs.Arc.{arc_value};
ghost use Rattle.std.specs.String.{string_bytes};
ghost use Rattle.std.specs.List.Sorted.{IsStrictlyIncreasing};
ghost use Rattle.tsdb_base.specs.Causes.{Rose};
ghost use Rattle.tsdb_outside.specs.Causes.{HasCause, HasStoreCause};
ghost use Rattle.tsdb_outside.specs.Files.{IsFileNumber, Names, plain_numbers};
ghost use Rattle.tsdb_outside.specs.Limits.{FitsSlot};
ghost use Rattle.tsdb_outside.specs.declared.faults.StoreFault.TheVariants as fault;
ghost use Rattle.fs_outside.specs.Directory.{IsFreeIn, IsTakenIn, IsTakenAway, StaysTaken, SameBut, Becomes};
ghost use Rattle.fs_outside.specs.Directory.{put_durable, without, directory_numbers, HasBytesOf, HasLengthOf, Fills};
ghost use Rattle.fs_outside.specs.Directory.{ReadFails};
ghost use Rattle.fs_outside.specs.Directory.{SizeFails, store_in};
ghost use Rattle.fs_outside.specs.Files.{port_directory, port_faults, port_open, port_store, files_directory};
ghost use Rattle.fs_outside.specs.Files.{files_faults, files_store, sealed_file, sealed_rights, right_file};
ghost use Rattle.fs_outside.specs.OpenFiles.{without_number};

use crate::file_directory::{FileDirectory, NumberedFile};
use crate::journal::MAX_LENGTH;
use crate::open_files::OpenFiles;
use std::alloc::Global;
use std::io::{self, ErrorKind};
use std::sync::Arc;
use tsdb_base::{FileNumber, Memory};
use tsdb_outside::{
    Counted, Failed, Files, Port, ReadRight, SealedFile, StoreFault, is_file_number,
    list_of_numbers,
};

/// Names a file of a real store: the path of the store's directory, and the file's number.
pub struct FsSealed {
    path: Arc<String>,
    number: u64,
    rights: u64,
}

impl SealedFile for FsSealed {
    ghost use Rattle.std.proofs.Common.{refl};

    ghost file = { sealed_file };

    ghost rights = { sealed_rights };

    ghost tells = { λ _. refl };
}

/// Lets its holder read a file of a real store.
pub struct FsRight {
    path: Arc<String>,
    number: u64,
}

impl ReadRight for FsRight {
    ghost use Rattle.std.proofs.Common.{refl};

    ghost file = { right_file };

    ghost tells = { λ _. refl };
}

/// Where one session or worker writes and reads the files of a real store.
#[derive(Drop)]
pub struct FsPort<D, F> {
    path: Arc<String>,
    directory: D,
    open: OpenFiles<F>,
    faults: u64,
}

impl<D, F> FsPort<D, F> {
    // Counts a fault.
    fn fail(&mut self) -> Failed
        ensures directory { port_directory self.new ≡ port_directory self.old }
        ensures open { port_open self.new ≡ port_open self.old }
        ensures store { port_store self.new ≡ port_store self.old }
        ensures later { port_faults self.old ≤ port_faults self.new }
        ensures rose { Rose (port_faults self.old) (port_faults self.new) }
    {
        self.faults = self.faults.saturating_add(1);
        Failed
    }

    // What an error of the system is: no memory, or a fault, which is counted.
    fn fault(&mut self, error: io::Error) -> StoreFault
        ensures directory { port_directory self.new ≡ port_directory self.old }
        ensures store { port_store self.new ≡ port_store self.old }
        ensures later { port_faults self.old ≤ port_faults self.new }
        ensures cause { result ≡ fault.Failed → Rose (port_faults self.old) (port_faults self.new) }
    {
        if error.kind() == ErrorKind::OutOfMemory {
            return StoreFault::Memory;
        }
        self.faults = self.faults.saturating_add(1);
        StoreFault::Failed
    }
}

impl<D: FileDirectory<File = F>, F: NumberedFile> FsPort<D, F> {
    // Writes a file that was just created, and makes its bytes and then its name durable.
    fn fill(&mut self, file: &F, bytes: &[u8]) -> io::Result<()>
        ensures durable { OnOk result (Fills (F.number file.now) bytes.now
            (D.told (port_directory self.old)) (D.told (port_directory self.new))) }
        ensures others { OnErr result (SameBut (F.number file.now)
            (D.told (port_directory self.old)) (D.told (port_directory self.new))) }
        ensures store { port_store self.new ≡ port_store self.old }
        ensures faults { port_faults self.new ≡ port_faults self.old }
        ensures reason { HasCause (D.faults (port_directory self.old)) (D.faults (port_directory self.new)) result }
    {
        self.directory.write_all(file, bytes)?;
        self.directory.sync_file(file)?;
        self.directory.sync_names()
    }

    // Stores a file. Where that fails behind its creation it is taken away again.
    fn store(&mut self, number: u64, bytes: &[u8]) -> io::Result<()>
        ensures number { OnOk result (IsFileNumber number) }
        ensures durable { OnOk result (Becomes (put_durable number bytes.now)
            (D.told (port_directory self.old)) (D.told (port_directory self.new))) }
        ensures free { OnOk result (IsFreeIn number (D.told (port_directory self.old))) }
        ensures others { OnErr result (SameBut number
            (D.told (port_directory self.old)) (D.told (port_directory self.new))) }
        ensures there { OnErr result (StaysTaken number
            (D.told (port_directory self.old)) (D.told (port_directory self.new))) }
        ensures away { OnErr result (IsTakenAway number
            (D.told (port_directory self.old)) (D.told (port_directory self.new))
            (D.faults (port_directory self.old)) (D.faults (port_directory self.new))) }
        ensures refused { IsTrue (D.sync_failed (port_directory self.old)) → IsErr result }
        ensures store { port_store self.new ≡ port_store self.old }
        ensures faults { port_faults self.new ≡ port_faults self.old }
        ensures reason { OnErr result (IsFileNumber number
            → Rose (D.faults (port_directory self.old)) (D.faults (port_directory self.new))) }
    {
        if !is_file_number(number) {
            return Err(io::Error::from(ErrorKind::InvalidInput));
        }
        let file = self.directory.create_new(number)?;
        match self.fill(&file, bytes) {
            Ok(()) => Ok(()),
            Err(error) => {
                let _ = self.directory.remove(number);
                Err(error)
            }
        }
    }

    // The file with this number, open.
    fn open(&mut self, number: u64) -> io::Result<F>
        ensures number { IfOk result (λ file. F.number file ≡ number) }
        ensures same { D.told (port_directory self.new) ≡ D.told (port_directory self.old) }
        ensures store { port_store self.new ≡ port_store self.old }
        ensures faults { port_faults self.new ≡ port_faults self.old }
        ensures later { D.faults (port_directory self.old) ≤ D.faults (port_directory self.new) }
        ensures reason { OnErr result (ReadFails number (D.told (port_directory self.old))
            (D.faults (port_directory self.old)) (D.faults (port_directory self.new))) }
    {
        if let Some(file) = self.open.take(number) {
            return Ok(file);
        }
        match self.directory.open(number)? {
            Some(file) => Ok(file),
            None => Err(io::Error::from(ErrorKind::NotFound)),
        }
    }

    // Fills `into` with bytes of the file, which stays open for a while.
    fn read_open(&mut self, number: u64, at: u64, into: &mut [u8]) -> io::Result<()>
        ensures bytes { OnOk result (HasBytesOf number at into.new (D.told (port_directory self.old))) }
        ensures same { D.told (port_directory self.new) ≡ D.told (port_directory self.old) }
        ensures store { port_store self.new ≡ port_store self.old }
        ensures faults { port_faults self.new ≡ port_faults self.old }
        ensures reason { OnErr result (ReadFails number (D.told (port_directory self.old))
            (D.faults (port_directory self.old)) (D.faults (port_directory self.new))) }
    {
        let file = self.open(number)?;
        let answer = self.directory.read_at(&file, at, into);
        self.open.put(file);
        answer
    }

    // How many bytes the file has, which stays open for a while.
    fn size_open(&mut self, number: u64) -> io::Result<u64>
        ensures size { IfOk result (λ n. HasLengthOf number n (D.told (port_directory self.old))) }
        ensures same { D.told (port_directory self.new) ≡ D.told (port_directory self.old) }
        ensures store { port_store self.new ≡ port_store self.old }
        ensures faults { port_faults self.new ≡ port_faults self.old }
        ensures reason { OnErr result (ReadFails number (D.told (port_directory self.old))
            (D.faults (port_directory self.old)) (D.faults (port_directory self.new))) }
    {
        let file = self.open(number)?;
        let answer = self.directory.size(&file);
        self.open.put(file);
        answer
    }
}

impl<D, F> Counted for FsPort<D, F> {
    ghost faults = { port_faults };
}

impl<D: FileDirectory<File = F> + Send, F: NumberedFile + Send> Port for FsPort<D, F> {
    type Sealed = FsSealed;

    type Right = FsRight;

    ghost store = { port_store };

    /// A file that is there is left alone, and the call fails. A file that could not be stored whole is taken away
    /// again, where that is possible. After a sync of the directory has failed every call fails.
    fn put(&mut self, number: FileNumber, bytes: &[u8]) -> Result<FsSealed, StoreFault>
        ensures file { IfOk result (λ sealed. Names number.0 bytes.now (sealed_file sealed)) }
        ensures store { IfOk result (λ sealed. (sealed_file sealed).store ≡ port_store self.old) }
        ensures no_rights { IfOk result (λ sealed. sealed_rights sealed ≡ 0) }
        ensures same_store { port_store self.new ≡ port_store self.old }
        ensures cause { HasStoreCause (port_faults self.old) (port_faults self.new) result }

        // What the directory tells.
        ensures number { OnOk result (IsFileNumber number.0) }
        ensures durable { OnOk result (Becomes (put_durable number.0 bytes.now)
            (D.told (port_directory self.old)) (D.told (port_directory self.new))) }
        ensures free { OnOk result (IsFreeIn number.0 (D.told (port_directory self.old))) }
        ensures others { OnErr result (SameBut number.0
            (D.told (port_directory self.old)) (D.told (port_directory self.new))) }
        ensures there { OnErr result (StaysTaken number.0
            (D.told (port_directory self.old)) (D.told (port_directory self.new))) }
        ensures away { OnErr result (IsTakenAway number.0
            (D.told (port_directory self.old)) (D.told (port_directory self.new))
            (D.faults (port_directory self.old)) (D.faults (port_directory self.new))) }
        ensures refused { IsTrue (D.sync_failed (port_directory self.old)) → IsErr result }
        ensures reason { IsErrOf result fault.Failed → IsFileNumber number.0
            → Rose (D.faults (port_directory self.old)) (D.faults (port_directory self.new)) }
    {
        let path = Arc::try_clone(&self.path)?;
        match self.store(number.0, bytes) {
            Ok(()) => Ok(FsSealed {
                path,
                number: number.0,
                rights: 0,
            }),
            Err(error) => Err(self.fault(error)),
        }
    }

    fn read(&mut self, right: &FsRight, at: u64, into: &mut [u8]) -> Result<(), Failed>
        ensures bytes { OnOk result (HasBytesOf (right_file right.now).number at into.new
            (D.told (port_directory self.old))) }
        ensures same { D.told (port_directory self.new) ≡ D.told (port_directory self.old) }
        ensures same_store { port_store self.new ≡ port_store self.old }
        ensures reason { OnErr result (ReadFails (right_file right.now).number (D.told (port_directory self.old))
            (D.faults (port_directory self.old)) (D.faults (port_directory self.new))) }
        ensures cause { HasCause (port_faults self.old) (port_faults self.new) result }
    {
        if self.read_open(right.number, at, into).is_err() {
            return Err(self.fail());
        }
        Ok(())
    }

    fn size(&mut self, right: &FsRight) -> Result<u64, Failed>
        ensures length { IfOk result (λ n. HasLengthOf (right_file right.now).number n
            (D.told (port_directory self.old))) }
        ensures limit { IfOk result FitsSlot }
        ensures same { D.told (port_directory self.new) ≡ D.told (port_directory self.old) }
        ensures same_store { port_store self.new ≡ port_store self.old }
        ensures reason { OnErr result (SizeFails (right_file right.now).number (D.told (port_directory self.old))
            (D.faults (port_directory self.old)) (D.faults (port_directory self.new))) }
        ensures cause { HasCause (port_faults self.old) (port_faults self.new) result }
    {
        match self.size_open(right.number) {
            Ok(length) if length <= MAX_LENGTH => Ok(length),
            _ => Err(self.fail()),
        }
    }

    fn remove(&mut self, sealed: FsSealed) -> Result<(), Failed>
        requires rights { sealed_rights sealed ≡ 0 }
        requires store { (sealed_file sealed).store ≡ port_store self.old }
        ensures same_store { port_store self.new ≡ port_store self.old }
        ensures no_fault { OnOk result (port_faults self.new ≡ port_faults self.old) }
        ensures cause { HasCause (port_faults self.old) (port_faults self.new) result }

        // The port holds no file with this number open, so that its room is given back.
        ensures closed { port_open self.new
            ≡ without_number F.number (sealed_file sealed).number (port_open self.old) }

        // What the directory tells.
        ensures removed { OnOk result (Becomes (without (sealed_file sealed).number)
            (D.told (port_directory self.old)) (D.told (port_directory self.new))) }
        ensures others { OnErr result (SameBut (sealed_file sealed).number
            (D.told (port_directory self.old)) (D.told (port_directory self.new))) }
        ensures reason { OnErr result (Rose (D.faults (port_directory self.old)) (D.faults (port_directory self.new))) }
    {
        let FsSealed {
            path: _,
            number,
            rights: _,
        } = sealed;
        self.open.close(number);
        if self.directory.remove(number).is_err() {
            return Err(self.fail());
        }
        Ok(())
    }

    fn share(sealed: &mut FsSealed) -> Result<FsRight, Memory> {
        let Some(rights) = sealed.rights.checked_add(1) else {
            return Err(Memory);
        };
        let path = Arc::try_clone(&sealed.path)?;
        sealed.rights = rights;
        Ok(FsRight {
            path,
            number: sealed.number,
        })
    }

    fn give_back(sealed: &mut FsSealed, right: FsRight) {
        let FsRight { path: _, number: _ } = right;
        sealed.rights = sealed.rights.saturating_sub(1);
    }

    fn spoiled(&mut self, _right: &FsRight, _at: u64) {
        self.faults = self.faults.saturating_add(1);
    }
}

/// The files of a real store.
#[derive(Drop)]
pub struct FsFiles<D> {
    alloc: Global,
    path: Arc<String>,
    directory: D,
    faults: u64,
}

impl<D> FsFiles<D> {
    /// The files of the store in the directory at this path, before the first fault.
    pub fn new(alloc: Global, path: Arc<String>, directory: D) -> Self
        ensures directory { files_directory result ≡ directory }
        ensures store { files_store result ≡ store_in (string_bytes (arc_value path)) }
        ensures faults { files_faults result ≡ 0 }
    {
        FsFiles {
            alloc,
            path,
            directory,
            faults: 0,
        }
    }

    // How often they have failed.
    pub(crate) fn faults(&self) -> u64
        ensures { result ≡ files_faults self.now }
    {
        self.faults
    }

    // What an error of the system is: no memory, or a fault, which is counted.
    fn fault(&mut self, error: io::Error) -> StoreFault
        ensures directory { files_directory self.new ≡ files_directory self.old }
        ensures store { files_store self.new ≡ files_store self.old }
        ensures later { files_faults self.old ≤ files_faults self.new }
        ensures cause { result ≡ fault.Failed → Rose (files_faults self.old) (files_faults self.new) }
    {
        if error.kind() == ErrorKind::OutOfMemory {
            return StoreFault::Memory;
        }
        self.faults = self.faults.saturating_add(1);
        StoreFault::Failed
    }
}

impl<D> Counted for FsFiles<D> {
    ghost faults = { files_faults };
}

impl<D: FileDirectory<File = F> + Send, F: NumberedFile + Send> Files for FsFiles<D> {
    type Sealed = FsSealed;

    type Right = FsRight;

    type Port = FsPort<D, F>;

    ghost use Rattle.std.proofs.Common.{refl};

    ghost store = { files_store };

    ghost at_rest = { λ _. None };

    ghost tells = { λ _. refl };

    /// Other names in the directory are left alone, and so is what is no regular file; but its number is listed, since
    /// no new file can have it.
    fn list(&mut self) -> Result<Vec<FileNumber>, StoreFault>
        ensures numbers { IfOk result (λ list. All IsFileNumber (plain_numbers list.items)) }
        ensures rising { IfOk result (λ list. IsStrictlyIncreasing (plain_numbers list.items)) }
        ensures same_store { files_store self.new ≡ files_store self.old }
        ensures cause { HasStoreCause (files_faults self.old) (files_faults self.new) result }

        // What the directory tells.
        ensures exact { IfOk result (λ list. IfSome (D.told (files_directory self.old))
            (λ files. (n : ℕ) → IsFileNumber n → (Contains (plain_numbers list.items) n
            ↔ (Contains (directory_numbers files) n ⊎ Contains (D.others (files_directory self.old)) n)))) }
        ensures same { D.told (files_directory self.new) ≡ D.told (files_directory self.old) }
        ensures reason { IsErrOf result fault.Failed
            → Rose (D.faults (files_directory self.old)) (D.faults (files_directory self.new)) }
    {
        match self.directory.numbers() {
            Ok(numbers) => Ok(list_of_numbers(self.alloc, numbers)?),
            Err(error) => Err(self.fault(error)),
        }
    }

    /// A number that no file may have names none, whatever the directory has under it.
    fn fetch(&mut self, number: FileNumber) -> Result<Option<FsSealed>, StoreFault>
        ensures number { IfOk result (λ found. IfSome found (λ sealed.
            (sealed_file sealed).number ≡ number.0 × sealed_rights sealed ≡ 0)) }
        ensures store { IfOk result (λ found. IfSome found (λ sealed.
            (sealed_file sealed).store ≡ files_store self.old)) }
        ensures same_store { files_store self.new ≡ files_store self.old }
        ensures cause { HasStoreCause (files_faults self.old) (files_faults self.new) result }

        // What the directory tells.
        ensures found { IfOk result (λ found. MatchOption found
            (IsFileNumber number.0 → IsFreeIn number.0 (D.told (files_directory self.old)))
            (λ sealed. IsFileNumber number.0 × IsTakenIn number.0 (D.told (files_directory self.old)))) }
        ensures same { D.told (files_directory self.new) ≡ D.told (files_directory self.old) }
        ensures reason { IsErrOf result fault.Failed
            → Rose (D.faults (files_directory self.old)) (D.faults (files_directory self.new)) }
    {
        if !is_file_number(number.0) {
            return Ok(None);
        }
        let path = Arc::try_clone(&self.path)?;
        match self.directory.is_there(number.0) {
            Ok(true) => Ok(Some(FsSealed {
                path,
                number: number.0,
                rights: 0,
            })),
            Ok(false) => Ok(None),
            Err(error) => Err(self.fault(error)),
        }
    }

    fn port(&mut self) -> Result<FsPort<D, F>, Memory> {
        Ok(FsPort {
            path: Arc::try_clone(&self.path)?,
            directory: self.directory.another()?,
            open: OpenFiles::new(self.alloc)?,
            faults: 0,
        })
    }

    fn end_port(&mut self, port: FsPort<D, F>) {
        self.faults = self.faults.saturating_add(port.faults);
    }

    fn keep(&mut self, sealed: FsSealed) {
        let FsSealed {
            path: _,
            number: _,
            rights: _,
        } = sealed;
    }
}
