//! Stores that are opened while a read of the log fails. Depends on `stores`.
ghost use Rattle.std.specs.Prelude.{◌≡◌, ◌≤◌};
ghost use Rattle.mem_outside.specs.Journal.{journal_calls, journal_first, journal_state};
ghost use Rattle.mem_outside.specs.Laws.{state_is_lawful};
ghost use Rattle.tsdb_base.specs.Causes.{Rose};

use crate::stores::{Outcome, WITH_STRAY, count_files, open_and_close, place_of};
use mem_outside::{MemFiles, MemJournal, MemPlace};
use std::alloc::Global;
use std::test::Fail;
use tsdb_outside::{Counted, Disk, Failed, Journal, Place, Slot};

/// A journal in memory of which one read fails: a length that is asked, or bytes that are read.
#[derive(Drop)]
struct FailingReads {
    journal: MemJournal,
    reads: u64,
    fails: u64,
    faults: u64,
}

impl FailingReads {
    /// The journal, of which the read with this number fails, counted from 1.
    fn new(journal: MemJournal, fails: u64) -> FailingReads {
        FailingReads {
            journal,
            reads: 0,
            fails,
            faults: 0,
        }
    }

    /// Whether the next read fails.
    fn next_fails(&mut self) -> bool
        ensures journal { self.new.journal ≡ self.old.journal }
        ensures faults { self.new.faults ≡ self.old.faults }
    {
        self.reads = self.reads.saturating_add(1);
        self.reads == self.fails
    }

    /// Counts a fault.
    fn fail(&mut self) -> Failed
        ensures journal { self.new.journal ≡ self.old.journal }
        ensures later { self.old.faults ≤ self.new.faults }
        ensures rose { Rose self.old.faults self.new.faults }
    {
        self.faults = self.faults.saturating_add(1);
        Failed
    }
}

impl Counted for FailingReads {
    ghost faults = { λ reads. reads.faults };
}

impl Disk for FailingReads {
    ghost state = { λ reads. journal_state reads.journal };

    ghost lawful = { λ reads. state_is_lawful (journal_first reads.journal) (journal_calls reads.journal) };
}

impl Journal for FailingReads {
    fn length(&mut self, slot: Slot) -> Result<u64, Failed> {
        if self.next_fails() {
            return Err(self.fail());
        }
        match self.journal.length(slot) {
            Ok(length) => Ok(length),
            Err(Failed) => Err(self.fail()),
        }
    }

    fn read_at(&mut self, slot: Slot, at: u64, into: &mut [u8]) -> Result<(), Failed> {
        if self.next_fails() {
            return Err(self.fail());
        }
        match self.journal.read_at(slot, at, into) {
            Ok(()) => Ok(()),
            Err(Failed) => Err(self.fail()),
        }
    }

    fn write_at(&mut self, slot: Slot, at: u64, bytes: &[u8]) -> Result<(), Failed> {
        match self.journal.write_at(slot, at, bytes) {
            Ok(()) => Ok(()),
            Err(Failed) => Err(self.fail()),
        }
    }

    fn sync(&mut self, slot: Slot) -> Result<(), Failed> {
        match self.journal.sync(slot) {
            Ok(()) => Ok(()),
            Err(Failed) => Err(self.fail()),
        }
    }
}

/// A freeze and a flush to file 1.
const FLUSHED: [u8; 28] = [
    1, 0, 0, 0, 1, 4, 1, 0, 0, 0, 17, 5, 0, 0, 0, 0, 0, 0, 0, 1, 0, 0, 0, 0, 0, 0, 0, 0,
];

/// An insert of 9 at time 2.
const INSERT: [u8; 33] = [
    1, 0, 0, 0, 28, 2, 0, 0, 0, 0, 0, 0, 0, 2, 0, 1, 0, 0, 0, 0, 0, 0, 0, 0, 2, 0, 0, 0, 0, 0, 0,
    0, 9,
];

/// How many inserts stand behind the flush: the log is read in three pieces.
const INSERTS: u64 = 4_000;

/// What comes of the store when all its reads succeed, with one file left.
const WHOLE: (Outcome, Option<usize>) = (Outcome::Opened(2 + INSERTS, 0, 1, 0), Some(1));

/// How the log of the store ends.
fn ending(alloc: Global) -> Result<Vec<u8>, Fail> {
    let mut ending = FLUSHED.to_vec(alloc)?;
    for _ in 0..INSERTS {
        ending.extend_from_slice(&INSERT)?;
    }
    ending.push(0)?;
    Ok(ending)
}

/// What came of an opening, how many files the store had then, and how many faults the journal had counted.
#[derive(Clone, Copy, Debug, PartialEq, Eq)]
struct Opened {
    outcome: (Outcome, Option<usize>),
    faults: u64,
}

/// Opens the store of a journal and its files, and closes it.
fn open(alloc: Global, journal: FailingReads, files: &mut MemFiles) -> (FailingReads, Opened) {
    let (journal, outcome) = open_and_close(alloc, journal, files);
    let left = count_files(files);
    let faults = journal.faults;
    let opened = Opened {
        outcome: (outcome, left),
        faults,
    };
    (journal, opened)
}

/// What comes of the store of a place while this read fails, and of an opening with the journal that came back.
fn open_twice(alloc: Global, place: &mut MemPlace, read: u64) -> Result<(Opened, Opened), Fail> {
    let (journal, files) = place.take_up(b"d")?;
    let mut files = files;
    let (journal, first) = open(alloc, FailingReads::new(journal, read), &mut files);
    let (journal, second) = open(alloc, journal, &mut files);
    place.put_down(journal.journal, files);
    Ok((first, second))
}

/// The first of the reads from 1 to this one whose failure is not answered once, or changes anything.
fn first_unanswered(alloc: Global, last: u64) -> Result<Option<u64>, Fail> {
    let ending = ending(alloc)?;
    let failed = Opened {
        outcome: (Outcome::Failed, Some(2)),
        faults: 1,
    };
    let whole = Opened {
        outcome: WHOLE,
        faults: 1,
    };
    for read in 1..=last {
        let mut place = place_of(alloc, &ending, &WITH_STRAY, &[])?;
        if open_twice(alloc, &mut place, read)? != (failed, whole) {
            return Ok(Some(read));
        }
    }
    Ok(None)
}

// Each piece of the log is two reads: the length of the slot, and the bytes. No file is looked at before the log is
// read, so the one that no list has is still there.
#[test]
fn each_failing_read_of_the_log_is_answered_and_nothing_is_lost(
    rt: HostRuntime,
) -> Result<(), Fail> {
    assert_eq!(rt; first_unanswered(rt.alloc(), 7)?, Some(7));
    Ok(())
}
