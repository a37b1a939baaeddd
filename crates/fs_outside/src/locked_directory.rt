//! The directory of a store with its lock, the path by which its files are reached, and whether a sync of it has failed.
use std::alloc::Global;
use std::fs::{self, DirBuilder, File};
use std::io::{self, ErrorKind};
use std::os::fd::AsRawFd;
use std::os::unix::fs::{DirBuilderExt, MetadataExt};
use std::rt::Files;
use std::sync::atomic::{AtomicBool, Ordering};

/// A directory with the lock of the store in it. All who hold it share whether a sync of it has failed: the system may
/// then have forgotten a name that it could not write.
#[derive(Drop)]
pub struct LockedDirectory {
    lock: File,
    path: String,
    is_new: bool,
    sync_failed: AtomicBool,
}

impl LockedDirectory {
    /// A path that leads to this directory as long as it is open, whatever its name leads to by then. So a store whose
    /// directory is renamed goes on in it, and no other store is touched.
    pub fn path(&self) -> &str {
        self.path.as_str()
    }

    /// Whether it was made for this store.
    pub fn is_new(&self) -> bool {
        self.is_new
    }

    /// Whether a sync has failed.
    pub fn has_failed(&self) -> bool {
        self.sync_failed.load(Ordering::SeqCst)
    }

    /// Makes the names in it durable, through the open file that holds the lock.
    pub fn sync_first(&self) -> io::Result<()> {
        self.lock.sync_all()
    }

    /// Makes the names in it durable, through an open file of it. After one such sync has failed, every later one
    /// fails. The system reports a name that it could not write once to each open file, so each port has one of its own.
    pub fn sync(&self, own: &File) -> io::Result<()> {
        let answer = own.sync_all();
        if answer.is_err() {
            self.sync_failed.store(true, Ordering::SeqCst);
        }
        if self.has_failed() {
            return Err(io::Error::from(ErrorKind::Other));
        }
        answer
    }
}

// Makes the directory, private to its owner, where there is none. Tells whether it did.
fn make_directory<R: Files<File = File>>(rt: &R, dir: &str) -> io::Result<bool> {
    match DirBuilder::new().mode(0o700).create(rt, dir) {
        Ok(()) => Ok(true),
        Err(error) if error.kind() == ErrorKind::AlreadyExists => Ok(false),
        Err(error) => Err(error),
    }
}

// The path of an open directory, by which the system hands out that directory and no other.
fn path_of<R: Files<File = File>>(rt: &R, alloc: Global, directory: &File) -> io::Result<String> {
    let path = format!(in alloc; "/proc/self/fd/{}", directory.as_raw_fd())?;
    let (found, open) = (fs::metadata(rt, path.as_str())?, directory.metadata()?);
    if found.dev() != open.dev() || found.ino() != open.ino() {
        return Err(io::Error::from(ErrorKind::NotFound));
    }
    Ok(path)
}

// Opens a directory and takes its lock. What is none, as a FIFO, is refused and not waited for.
fn open_locked<R: Files<File = File>>(rt: &R, alloc: Global, dir: &str) -> io::Result<File> {
    let inside = format!(in alloc; "{dir}/.")?;
    let directory = File::open(rt, inside.as_str())?;
    directory.try_lock()?;
    Ok(directory)
}

/// Opens the directory, which is made where there is none, and takes its lock.
pub fn lock_directory<R: Files<File = File> + AllocGlobal>(
    rt: &R,
    dir: &str,
) -> io::Result<LockedDirectory> {
    let is_new = make_directory(rt, dir)?;
    let lock = open_locked(rt, rt.alloc(), dir)?;
    let path = path_of(rt, rt.alloc(), &lock)?;
    Ok(LockedDirectory {
        lock,
        path,
        is_new,
        sync_failed: AtomicBool::new(false),
    })
}
