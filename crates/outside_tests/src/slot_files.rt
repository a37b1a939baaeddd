//! The journal over files: two in memory, of which one cannot be synced, and one of the system whose syncs fail.
ghost use Rattle.fs_outside.specs.FileState.{silent_file};

use crate::directories::opened;
use crate::folders::{Item, are_made};
use crate::steps::{SlotStep, slots_answer};
use fs_outside::{FsJournal, SlotFile};
use std::alloc::Global;
use std::io::{self, ErrorKind};
use tsdb_outside::{Failed, Slot, StoreFault};

// A file in memory that tells nothing. Its syncs fail where it is told so.
#[derive(Drop)]
struct FileInMemory {
    bytes: Vec<u8>,
    fails_sync: bool,
}

fn failure() -> io::Error {
    io::Error::from(ErrorKind::Other)
}

// Writes over what is there and past the end, and says whether it did.
fn write_over(into: &mut Vec<u8>, at: usize, bytes: &[u8]) -> bool {
    if at > into.len() {
        return false;
    }
    let inside = bytes.len().min(into.len() - at);
    if into.extend_from_slice(&bytes[inside..]).is_err() {
        return false;
    }
    into[at..at + inside].copy_from_slice(&bytes[..inside]);
    true
}

impl SlotFile for FileInMemory {
    ghost state = { λ _. silent_file };

    fn length(&mut self) -> io::Result<u64> {
        Ok(self.bytes.as_slice().len() as u64)
    }

    fn read_at(&mut self, at: u64, into: &mut [u8]) -> io::Result<()> {
        let at = at as usize;
        if at > self.bytes.len() || into.len() > self.bytes.len() - at {
            return Err(failure());
        }
        into.copy_from_slice(&self.bytes[at..at + into.len()]);
        Ok(())
    }

    fn write_at(&mut self, at: u64, bytes: &[u8]) -> io::Result<()> {
        if write_over(&mut self.bytes, at as usize, bytes) {
            Ok(())
        } else {
            Err(failure())
        }
    }

    fn sync(&mut self) -> io::Result<()> {
        if self.fails_sync {
            Err(failure())
        } else {
            Ok(())
        }
    }

    ghost seen_may_stay = { λ _ _ _. tt };
}

fn new_file(alloc: Global, fails_sync: bool) -> FileInMemory {
    FileInMemory {
        bytes: Vec::new(alloc),
        fails_sync,
    }
}

// The first slot is given up once its sync has failed. Its reads and the other slot go on.
static GIVEN_UP: [SlotStep; 11] = [
    SlotStep::Write(Slot::A, 0, &[0], Ok(())),
    SlotStep::Write(Slot::B, 0, &[3, 2, 1], Ok(())),
    SlotStep::Sync(Slot::B, Ok(())),
    SlotStep::Write(Slot::A, 1, &[5], Ok(())),
    SlotStep::Sync(Slot::A, Err(Failed)),
    SlotStep::Write(Slot::A, 0, &[7], Err(Failed)),
    SlotStep::Sync(Slot::A, Err(Failed)),
    SlotStep::Read(Slot::A, ([0, 5, 0, 0], 2)),
    SlotStep::Write(Slot::B, 0, &[3, 2, 1], Ok(())),
    SlotStep::Sync(Slot::B, Ok(())),
    SlotStep::Read(Slot::B, ([3, 2, 1, 0], 3)),
];

// How often the journal has failed shows in clauses alone.
#[test]
fn slot_whose_sync_failed_is_given_up(rt: HostRuntime) {
    let a = new_file(rt.alloc(), true);
    let b = new_file(rt.alloc(), false);
    assert!(rt; slots_answer(&mut FsJournal::new(a, b, ()), &GIVEN_UP));
}

// A store whose first slot is a device that takes and gives bytes, and that the system cannot sync.
static DEVICE: [Item; 3] = [
    Item::Folder("device"),
    Item::File("device/slot1", "\0"),
    Item::Link("device/slot0", "/dev/zero"),
];

#[test]
fn opening_syncs_the_slots(rt: HostRuntime) {
    assert!(rt; are_made(&rt, &DEVICE) && opened(&rt, b"device") == Err(StoreFault::Failed));
}
