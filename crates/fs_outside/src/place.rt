//! A place in the file system. Depends on `opening`, `journal` and `files`.
ghost use Rattle.std.specs.Prelude.{◌≡◌, IfOk, None};
ghost use Rattle.std.specs.Arc.{arc_value};
ghost use Rattle.std.specs.String.{string_bytes};
ghost use Rattle.fs_outside.specs.Directory.{store_in};
ghost use Rattle.fs_outside.specs.Files.{files_faults, files_store};
ghost use Rattle.fs_outside.specs.Journal.{journal_faults};

use crate::file_directory::StoreDirectory;
use crate::files::FsFiles;
use crate::journal::FsJournal;
use crate::locked_directory::LockedDirectory;
use crate::opening::open_store;
use std::fs::File;
use std::io::{self, ErrorKind};
use std::rt::Files;
use std::sync::Arc;
use tsdb_outside::{Counted, Disk, Failed, Journal, Place, StoreFault};

/// A place in the file system. The slots of a store are the files `slot0` and `slot1` of its directory, and its stored
/// files those with the names of files; other names there are left alone. It tells nothing, since nobody knows what a
/// real disk holds.
#[derive(Drop)]
pub struct FsPlace<R> {
    rt: R,
    asked: Option<Arc<String>>,
    faults: u64,
}

// What a place hands out.
type Parts<R> = (
    FsJournal<File, Arc<LockedDirectory>>,
    FsFiles<StoreDirectory<R>>,
);

impl<R> FsPlace<R> {
    ghost use Rattle.fs_outside.specs.Place.{place_faults};

    pub fn new(rt: R) -> Self
        ensures { place_faults result ≡ 0 }
    {
        FsPlace {
            rt,
            asked: None,
            faults: 0,
        }
    }
}

impl<R> Counted for FsPlace<R> {
    ghost use Rattle.fs_outside.specs.Place.{place_faults};

    ghost faults = { place_faults };
}

impl<R> Disk for FsPlace<R> {
    ghost use Rattle.tsdb_outside.specs.Disk.{silent_state};
    ghost use Rattle.tsdb_outside.specs.Laws.{silent_is_lawful};

    ghost state = { λ _. silent_state };

    ghost lawful = { λ _. silent_is_lawful };
}

impl<R: Files<File = File> + AllocGlobal + Clone + Drop + Send> Place for FsPlace<R> {
    type Journal = FsJournal<File, Arc<LockedDirectory>>;

    type Files = FsFiles<StoreDirectory<R>>;

    ghost use Rattle.fs_outside.specs.Place.{place_asked};

    ghost stored = { λ _. None };

    ghost asked = { place_asked };

    /// Both parts hold the lock of the directory.
    fn take_up(&mut self, dir: &[u8]) -> Result<Parts<R>, StoreFault> {
        match open_parts(&self.rt, dir) {
            Ok((path, parts)) => {
                self.asked = Some(path);
                Ok(parts)
            }
            Err(error) if error.kind() == ErrorKind::OutOfMemory => Err(StoreFault::Memory),
            Err(_) => {
                self.faults = self.faults.saturating_add(1);
                Err(StoreFault::Failed)
            }
        }
    }

    fn put_down(
        &mut self,
        journal: FsJournal<File, Arc<LockedDirectory>>,
        files: FsFiles<StoreDirectory<R>>,
    ) {
        self.faults = self
            .faults
            .saturating_add(journal.faults())
            .saturating_add(files.faults());
    }
}

// Opens the store of the directory, and makes its parts. The path of the directory is there too.
fn open_parts<R: Files<File = File> + AllocGlobal + Clone + Drop>(
    rt: &R,
    dir: &[u8],
) -> io::Result<(Arc<String>, Parts<R>)>
    ensures path { IfOk result (λ opened. string_bytes (arc_value opened.0) ≡ dir.now) }
    ensures store { IfOk result (λ opened. files_store opened.1.1 ≡ store_in dir.now) }
    ensures faults { IfOk result (λ opened. journal_faults opened.1.0 ≡ 0 × files_faults opened.1.1 ≡ 0) }
{
    let Ok(dir) = str::from_utf8(dir) else {
        return Err(io::Error::from(ErrorKind::InvalidInput));
    };
    if dir.is_empty() {
        return Err(io::Error::from(ErrorKind::InvalidInput));
    }
    let alloc = rt.alloc();
    let path = Arc::new(alloc, String::from_str(alloc, dir)?)?;
    let store = open_store(rt, dir)?;
    let directory = Arc::new(alloc, store.directory)?;
    let guard = Arc::try_clone(&directory)?;
    let calls = StoreDirectory::new(rt.clone()?, directory);
    let files = FsFiles::new(alloc, Arc::try_clone(&path)?, calls);
    Ok((path, (FsJournal::new(store.a, store.b, guard), files)))
}
