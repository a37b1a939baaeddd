//! The files of a real store over a directory in memory, some of whose calls fail. It has two handles and tells
//! nothing.
ghost use Rattle.std.specs.Prelude.{[], None, ◌-◌, ◌^◌, IsTrue, IsErr};

use crate::steps::{FileStep, files_answer};
use fs_outside::{FileDirectory, FsFiles, NumberedFile};
use std::alloc::{AllocError, Global};
use std::io::{self, ErrorKind};
use std::sync::Arc;
use std::sync::atomic::{AtomicBool, AtomicU64, Ordering};
use tsdb_base::FileNumber;
use tsdb_outside::StoreFault;

// What all handles of a directory share: for each number below 4 whether its file is there, of which it keeps no bytes;
// how many calls were made, and which of them fail, by number from 1; and whether a sync of the names has failed.
#[derive(Drop)]
struct Shared {
    there: [AtomicBool; 4],
    calls: AtomicU64,
    failing: [u64; 2],
    sync_failed: AtomicBool,
}

impl Shared {
    // Makes a counted call, which may be refused.
    fn call(&self, refused: bool) -> io::Result<()>
        ensures { IsTrue refused → IsErr result }
    {
        let number = self.calls.fetch_add(1, Ordering::SeqCst).saturating_add(1);
        if refused || self.failing.contains(&number) {
            Err(io::Error::from(ErrorKind::Other))
        } else {
            Ok(())
        }
    }

    fn has(&self, number: u64) -> bool {
        match self.there.get(number as usize) {
            Some(there) => there.load(Ordering::SeqCst),
            None => false,
        }
    }

    fn set(&self, number: u64, there: bool) {
        if let Some(file) = self.there.get(number as usize) {
            file.store(there, Ordering::SeqCst);
        }
    }
}

#[derive(Drop)]
struct OpenFile(u64);

impl NumberedFile for OpenFile {
    ghost number = { λ file. file.0 };

    fn number(&self) -> u64 {
        self.0
    }
}

// One handle of the directory.
#[derive(Drop)]
struct FailingDirectory {
    alloc: Global,
    shared: Arc<Shared>,
    sync_failed: bool,
}

impl FileDirectory for FailingDirectory {
    type File = OpenFile;

    ghost told = { λ _. None };

    ghost others = { λ _. [] };

    ghost sync_failed = { λ directory. directory.sync_failed };

    ghost faults = { λ _. 2 ^ 64 - 1 };

    fn another(&self) -> Result<Self, AllocError> {
        Ok(FailingDirectory {
            alloc: self.alloc,
            shared: Arc::try_clone(&self.shared)?,
            sync_failed: self.sync_failed,
        })
    }

    fn create_new(&mut self, number: u64) -> io::Result<OpenFile> {
        let refused = self.sync_failed
            || self.shared.sync_failed.load(Ordering::SeqCst)
            || self.shared.has(number);
        self.shared.call(refused)?;
        self.shared.set(number, true);
        Ok(OpenFile(number))
    }

    fn write_all(&mut self, _file: &OpenFile, _bytes: &[u8]) -> io::Result<()> {
        self.shared.call(false)
    }

    fn sync_file(&mut self, _file: &OpenFile) -> io::Result<()> {
        self.shared.call(false)
    }

    fn sync_names(&mut self) -> io::Result<()> {
        let answer = self.shared.call(self.sync_failed);
        self.sync_failed = answer.is_err();
        if self.sync_failed {
            self.shared.sync_failed.store(true, Ordering::SeqCst);
        }
        answer
    }

    fn is_there(&mut self, number: u64) -> io::Result<bool> {
        self.shared.call(false)?;
        Ok(self.shared.has(number))
    }

    fn open(&mut self, number: u64) -> io::Result<Option<OpenFile>> {
        self.shared.call(false)?;
        Ok(if self.shared.has(number) {
            Some(OpenFile(number))
        } else {
            None
        })
    }

    fn read_at(&mut self, _file: &OpenFile, _at: u64, _into: &mut [u8]) -> io::Result<()> {
        self.shared.call(false)
    }

    fn size(&mut self, _file: &OpenFile) -> io::Result<u64> {
        self.shared.call(false)?;
        Ok(0)
    }

    fn remove(&mut self, number: u64) -> io::Result<()> {
        let answer = self.shared.call(false);
        if answer.is_ok() {
            self.shared.set(number, false);
        }
        answer
    }

    fn numbers(&mut self) -> io::Result<Vec<u64>> {
        let mut numbers = vec![in self.alloc; 1, 2, 3]?;
        numbers.retain(|number| self.shared.has(*number));
        Ok(numbers)
    }
}

// Files over a directory with the file 1, of whose calls these fail.
fn files_of(alloc: Global, failing: [u64; 2]) -> Result<FsFiles<FailingDirectory>, AllocError> {
    let shared = Shared {
        there: [
            AtomicBool::new(false),
            AtomicBool::new(true),
            AtomicBool::new(false),
            AtomicBool::new(false),
        ],
        calls: AtomicU64::new(0),
        failing,
        sync_failed: AtomicBool::new(false),
    };
    let shared = Arc::new(alloc, shared)?;
    let directory = FailingDirectory {
        alloc,
        shared,
        sync_failed: false,
    };
    // A directory in memory has no path.
    let path = Arc::new(alloc, String::new(alloc))?;
    Ok(FsFiles::new(alloc, path, directory))
}

// Two calls that fail, and steps then. A put makes four calls, and a fifth where it takes its file away.
type Row = ([u64; 2], &'static [FileStep]);

const FIRST_PUT: FileStep = FileStep::Put(2, b"ab", Ok(()));

const FIRST_FAILED: FileStep = FileStep::Put(2, b"ab", Err(StoreFault::Failed));

const SECOND_PUT: FileStep = FileStep::Put(3, b"ab", Ok(()));

const SECOND_FAILED: FileStep = FileStep::Put(3, b"ab", Err(StoreFault::Failed));

const ONE: FileStep = FileStep::List(&[FileNumber(1)]);

const ONE_TWO: FileStep = FileStep::List(&[FileNumber(1), FileNumber(2)]);

const ONE_THREE: FileStep = FileStep::List(&[FileNumber(1), FileNumber(3)]);

const ALL: FileStep = FileStep::List(&[FileNumber(1), FileNumber(2), FileNumber(3)]);

static ROWS: [Row; 7] = [
    ([0, 0], &[FIRST_PUT, SECOND_PUT, ALL]),
    // A file that could not be created, written or synced is gone, and the next one is put.
    ([1, 0], &[FIRST_FAILED, SECOND_PUT, ONE_THREE]),
    ([2, 0], &[FIRST_FAILED, SECOND_PUT, ONE_THREE]),
    ([3, 0], &[FIRST_FAILED, SECOND_PUT, ONE_THREE]),
    // One that could not be taken away stays.
    ([3, 4], &[FIRST_FAILED, SECOND_PUT, ALL]),
    // After a sync of the names has failed, no port puts a file.
    ([4, 0], &[FIRST_FAILED, SECOND_FAILED, ONE]),
    ([4, 5], &[FIRST_FAILED, SECOND_FAILED, ONE_TWO]),
];

// The file 1 is put, which is there, and then looked for, where the look fails and where it does not.
static THERE: [Row; 1] = [(
    [2, 0],
    &[
        FileStep::Put(1, b"ab", Err(StoreFault::Failed)),
        FileStep::Read(1, 0, Err(StoreFault::Failed)),
        FileStep::Read(1, 0, Ok(Some(([0; 4], 0)))),
    ],
)];

const UNREAD: FileStep = FileStep::Read(1, 0, Err(StoreFault::Failed));

const REMOVED: FileStep = FileStep::Remove(1, Ok(true));

const NONE: FileStep = FileStep::List(&[]);

static UNREAD_OR_STUCK: [Row; 5] = [
    // The file 1 could not be looked for, opened, measured or read. It is removed all the same.
    ([1, 0], &[UNREAD, REMOVED, NONE]),
    ([2, 0], &[UNREAD, REMOVED, NONE]),
    ([3, 0], &[UNREAD, REMOVED, NONE]),
    ([4, 0], &[UNREAD, REMOVED, NONE]),
    // It could not be removed.
    ([2, 0], &[FileStep::Remove(1, Err(StoreFault::Failed)), ONE]),
];

fn holds(alloc: Global, row: &Row) -> bool {
    match files_of(alloc, row.0) {
        Ok(mut files) => files_answer(&mut files, row.1),
        Err(_) => false,
    }
}

// The first row that does not hold.
fn first_wrong(alloc: Global, rows: &[Row]) -> Option<usize> {
    for (index, row) in rows.iter().enumerate() {
        if !holds(alloc, row) {
            return Some(index);
        }
    }
    None
}

#[test]
fn failed_put_takes_its_file_away(rt: HostRuntime) {
    assert_eq!(rt; first_wrong(rt.alloc(), &ROWS), None);
}

#[test]
fn file_that_is_there_stays_and_is_not_taken_for_missing(rt: HostRuntime) {
    assert_eq!(rt; first_wrong(rt.alloc(), &THERE), None);
}

#[test]
fn each_call_on_a_file_fails_in_turn(rt: HostRuntime) {
    assert_eq!(rt; first_wrong(rt.alloc(), &UNREAD_OR_STUCK), None);
}
