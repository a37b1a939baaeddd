//! Logs whose first record claims 4,294,967,295 bytes, as a slot of that length has them.
ghost use Rattle.tsdb_outside.specs.Disk.{silent_state};
ghost use Rattle.tsdb_outside.specs.Laws.{silent_is_lawful};

use std::alloc::Global;
use std::test::Fail;
use tsdb_base::limits::END_OF_SLOT;
use tsdb_outside::{Counted, Disk, Failed, Journal, Slot};
use tsdb_recover::{OpenFault, Part, read_log};

/// A journal that tells nothing. Its slot A has an open gate, the length FFFFFFFF, so many bytes, and else zeros. Each
/// write fails.
#[derive(Drop)]
struct Claiming {
    first: &'static [u8],
    read: u64,
    faults: u64,
}

impl Claiming {
    /// No byte is read yet.
    fn new(first: &'static [u8]) -> Claiming {
        Claiming {
            first,
            read: 0,
            faults: 0,
        }
    }
}

/// The bytes of an open gate and of the greatest length.
const CLAIM: [u8; 5] = [1, 255, 255, 255, 255];

/// The gate, the length, so many bytes, and the next gate.
const LENGTH: u64 = 4_294_967_301;

/// The most bytes that are read: a piece, and one twice as long.
const MOST: u64 = 196_608;

impl Counted for Claiming {
    ghost faults = { λ claiming. claiming.faults };
}

impl Disk for Claiming {
    ghost state = { λ _. silent_state };

    ghost lawful = { λ _. silent_is_lawful };
}

impl Journal for Claiming {
    fn length(&mut self, _slot: Slot) -> Result<u64, Failed> {
        Ok(LENGTH.min(END_OF_SLOT - 1))
    }

    fn read_at(&mut self, _slot: Slot, at: u64, into: &mut [u8]) -> Result<(), Failed> {
        self.read = self.read.saturating_add(into.len() as u64);
        for (index, byte) in into.iter_mut().enumerate() {
            let place = at.saturating_add(index as u64) as usize;
            *byte = match CLAIM.get(place) {
                Some(claimed) => *claimed,
                None => self
                    .first
                    .get(place.saturating_sub(CLAIM.len()))
                    .copied()
                    .unwrap_or(0),
            };
        }
        Ok(())
    }

    fn write_at(&mut self, _slot: Slot, _at: u64, _bytes: &[u8]) -> Result<(), Failed> {
        self.faults = self.faults.saturating_add(1);
        Err(Failed)
    }

    fn sync(&mut self, _slot: Slot) -> Result<(), Failed> {
        Ok(())
    }
}

/// The first bytes of records, behind which zeros stand.
const FIRSTS: [&[u8]; 10] = [
    // of no kind
    &[8],
    &[0],
    // a path without bytes
    &[1],
    // a row without cells, and one of two cells of which the first has no type
    &[2],
    &[2, 0, 0, 0, 0, 0, 0, 0, 1, 0, 2, 0, 0, 0, 0, 0, 0, 0, 0, 9],
    // a path without bytes, a freeze, a flush, a replacement without inputs, and a snapshot of nothing
    &[3],
    &[4],
    &[5],
    &[6],
    &[7],
];

/// Whether the log that begins so is damaged at its first gate, and few of its bytes are read.
fn is_damaged_at_once(alloc: Global, first: &'static [u8]) -> bool {
    match read_log(alloc, Claiming::new(first)) {
        Ok(_) => false,
        Err(refused) => {
            let damaged = OpenFault::Damaged {
                part: Part::Log,
                at: 0,
            };
            refused.fault == damaged && refused.journal.read <= MOST
        }
    }
}

/// The first of the records that is not damaged at once.
fn first_wrong(alloc: Global) -> Option<usize> {
    for (case, first) in FIRSTS.iter().enumerate() {
        if !is_damaged_at_once(alloc, *first) {
            return Some(case);
        }
    }
    None
}

#[test]
fn record_that_claims_too_much_is_damaged_by_its_first_bytes(rt: HostRuntime) -> Result<(), Fail> {
    assert_eq!(rt; first_wrong(rt.alloc()), None);
    Ok(())
}
