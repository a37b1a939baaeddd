//! Calls on a store in memory, of which one may fail, and what a stop leaves of it. Depends on `steps`.
use crate::copying::FileBytes;
use crate::steps::{SlotBytes, fetch_and_remove, has_file, put_and_keep, read_slot, write};
use mem_outside::StopKind;
use tsdb_outside::{Failed, Files, Journal, Place, Slot};

/// A counted call.
#[derive(Clone, Copy)]
pub enum Call {
    Write(Slot, u64, [u8; 2]),
    Sync(Slot),
    /// A put of three bytes.
    Put(u64),
    /// The fetch that the removal behind it begins with.
    Fetch,
    /// The fetch of a removal that ends with it, as it fails or finds no file.
    FetchAlone(u64),
    Remove(u64),
}

/// A stop of this kind behind so many calls, and what it leaves: the bytes of both slots, and of the files 1, 2 and 7
/// whether each is whole (`w`), half (`h`) or missing (`-`).
pub type Left = (
    StopKind,
    u64,
    &'static [u8],
    &'static [u8],
    &'static [u8; 3],
);

/// What the slots have before the first call. There is the file 7 then.
pub const FIRST: [&[u8]; 2] = [&[1, 2], &[9]];

const WHOLE: Option<FileBytes> = Some((*b"abc\0", 3));

const HALF: Option<FileBytes> = Some((*b"a\0\0\0", 1));

fn succeeds<J: Journal, F: Files>(journal: &mut J, files: &mut F, call: Call) -> bool {
    match call {
        Call::Write(slot, at, bytes) => write(journal, slot, at, &bytes).is_ok(),
        Call::Sync(slot) => journal.sync(slot).is_ok(),
        Call::Put(number) => put_and_keep(files, number, b"abc").is_ok(),
        Call::Fetch => true,
        Call::FetchAlone(number) | Call::Remove(number) => fetch_and_remove(files, number).is_ok(),
    }
}

// Makes the calls. Whether the one with this index fails, and no other.
fn one_fails<J: Journal, F: Files>(
    journal: &mut J,
    files: &mut F,
    calls: &[Call],
    failed: Option<usize>,
) -> bool {
    let mut fails = true;
    for (index, call) in calls.iter().enumerate() {
        let succeeded = succeeds(journal, files, *call);
        fails = fails && succeeded == (failed != Some(index));
    }
    fails
}

/// The same in a place.
pub fn one_fails_in<P: Place>(place: &mut P, calls: &[Call], failed: Option<usize>) -> bool {
    match place.take_up(b"d") {
        Ok((mut journal, mut files)) => {
            let fails = one_fails(&mut journal, &mut files, calls, failed);
            place.put_down(journal, files);
            fails
        }
        Err(_) => false,
    }
}

// Whether a slot has these bytes, which are at most four.
fn slot_has(found: Result<SlotBytes, Failed>, bytes: &[u8]) -> bool {
    let Ok(found) = found else {
        return false;
    };
    found.1 == bytes.len() as u64 && found.0.get(..bytes.len()) == Some(bytes)
}

fn file_of(letter: u8) -> Option<FileBytes> {
    match letter {
        b'w' => WHOLE,
        b'h' => HALF,
        _ => None,
    }
}

/// Whether there is of each slot and of each file what the stop leaves.
pub fn has_left<J: Journal, F: Files>(journal: &mut J, files: &mut F, left: &Left) -> bool {
    slot_has(read_slot(journal, Slot::A), left.2)
        && slot_has(read_slot(journal, Slot::B), left.3)
        && has_file(files, 1, file_of(left.4[0]))
        && has_file(files, 2, file_of(left.4[1]))
        && has_file(files, 7, file_of(left.4[2]))
}
