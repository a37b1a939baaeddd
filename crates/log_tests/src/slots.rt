//! What slots have, places in memory with such slots, and what is read of them: tables, and what compares with them.
use mem_outside::{Fails, MemPlace};
use std::alloc::{AllocError, Global};
use tsdb_base::Memory;
use tsdb_frames::{Frame, Frames, ScanFault, ScanRefused};
use tsdb_outside::{Place, Slot};

// The bytes of a slot.
#[derive(Clone, Copy)]
pub(crate) enum Content {
    Bytes(&'static [u8]),
    // A record of this many bytes, each of them 3, and what stands behind it, from the next gate on.
    Record(u32, &'static [u8]),
}

pub(crate) const EMPTY: Content = Content::Bytes(&[]);

fn one_record(alloc: Global, size: u32, behind: &[u8]) -> Result<Vec<u8>, AllocError> {
    let [a, b, c, d] = size.to_be_bytes();
    let mut bytes = Vec::from_slice(alloc, &[1, a, b, c, d])?;
    bytes.resize(size as usize + 5, 3)?;
    bytes.extend_from_slice(behind)?;
    Ok(bytes)
}

fn bytes_of(alloc: Global, slot: &Content) -> Result<Vec<u8>, AllocError> {
    match slot {
        Content::Bytes(bytes) => Vec::from_slice(alloc, bytes),
        Content::Record(size, behind) => one_record(alloc, *size, behind),
    }
}

// A place with these slots, whose calls with these numbers fail.
pub(crate) fn place_of(
    alloc: Global,
    a: &Content,
    b: &Content,
    fails: &[u64],
) -> Result<MemPlace, Memory> {
    let fails = Fails {
        journal: fails.to_vec(alloc)?,
        files: Vec::new(alloc),
    };
    let a = bytes_of(alloc, a)?;
    let b = bytes_of(alloc, b)?;
    MemPlace::new(alloc, [a, b], Vec::new(alloc), fails)
}

// The records of a slot of a place, which has its journal back after it. It is also `Failed` where the place does not
// hand it out.
pub(crate) fn scan_in<P: Place>(
    alloc: Global,
    place: &mut P,
    slot: Slot,
) -> Result<Vec<Frame>, ScanFault> {
    let Ok((journal, files)) = place.take_up(b"d") else {
        return Err(ScanFault::Failed);
    };
    match Frames::scan(alloc, journal, slot) {
        Ok((log, frames)) => {
            place.put_down(log.end(), files);
            Ok(frames)
        }
        Err(ScanRefused { journal, fault }) => {
            place.put_down(journal, files);
            Err(fault)
        }
    }
}

// The number of records of a slot, or why there are none.
type Count = Result<usize, ScanFault>;

fn count_in<P: Place>(alloc: Global, place: &mut P, slot: Slot) -> Count {
    match scan_in(alloc, place, slot) {
        Ok(frames) => Ok(frames.len()),
        Err(fault) => Err(fault),
    }
}

// The number of bytes of the first record of a slot, or why there is none.
type First = Result<Option<usize>, ScanFault>;

fn first_in<P: Place>(alloc: Global, place: &mut P, slot: Slot) -> First {
    let Ok((mut journal, files)) = place.take_up(b"d") else {
        return Err(ScanFault::Failed);
    };
    let first = Frames::first(alloc, &mut journal, slot);
    place.put_down(journal, files);
    match first {
        Ok(Some(record)) => Ok(Some(record.payload.items().len())),
        Ok(None) => Ok(None),
        Err(fault) => Err(fault),
    }
}

// What is read of a slot.
#[derive(Clone, Copy)]
pub(crate) enum Seen {
    // It is torn at its first gate.
    Torn,
    // It has no record.
    Closed,
    // Its first record has this many bytes. There are this many records, or it is torn at this place behind some.
    Records(usize, usize),
    TornAt(usize, u64),
}

fn outcomes_of(seen: &Seen) -> (First, Count) {
    let torn = ScanFault::Torn { at: 0 };
    match *seen {
        Seen::Torn => (Err(torn), Err(torn)),
        Seen::Closed => (Ok(None), Ok(0)),
        Seen::Records(first, count) => (Ok(Some(first)), Ok(count)),
        Seen::TornAt(first, at) => (Ok(Some(first)), Err(ScanFault::Torn { at })),
    }
}

// A slot that is cut, so that from the first to the second of these numbers of its bytes are left, or of those behind
// its `Record`; and what is read of it then.
pub(crate) type Reading = (Content, (usize, usize), Seen);

// It is not cut.
pub(crate) const WHOLE: (usize, usize) = (usize::MAX, usize::MAX);

fn cut(slot: &Content, length: usize) -> Content {
    match *slot {
        Content::Bytes(bytes) => Content::Bytes(&bytes[..length.min(bytes.len())]),
        Content::Record(size, behind) => {
            Content::Record(size, &behind[..length.min(behind.len())])
        }
    }
}

// Whether this is read of a slot, beside an empty one.
fn is_read(alloc: Global, slot: &Content, seen: &Seen) -> bool {
    match place_of(alloc, &EMPTY, slot, &[]) {
        Ok(mut place) => {
            let first = first_in(alloc, &mut place, Slot::B);
            let count = count_in(alloc, &mut place, Slot::B);
            (first, count) == outcomes_of(seen)
        }
        Err(_) => false,
    }
}

// The first slot of which something else is read, and to how many bytes it is cut then.
pub(crate) fn first_misread(alloc: Global, slots: &[Reading]) -> Option<(usize, usize)> {
    for (index, (slot, (shortest, longest), seen)) in slots.iter().enumerate() {
        for length in *shortest..=*longest {
            if !is_read(alloc, &cut(slot, length), seen) {
                return Some((index, length));
            }
        }
    }
    None
}
