//! Places in memory with a new log. Depends on nothing here.
use mem_outside::{Fails, MemPlace};
use std::alloc::Global;
use std::test::Fail;

/// A place with a new log, the journal and the files of which fail at these calls.
pub fn place_that_fails(alloc: Global, journal: &[u64], files: &[u64]) -> Result<MemPlace, Fail> {
    let fails = Fails {
        journal: journal.to_vec(alloc)?,
        files: files.to_vec(alloc)?,
    };
    let slots = [vec![in alloc; 0u8]?, vec![in alloc; 0u8]?];
    Ok(MemPlace::new(alloc, slots, Vec::new(alloc), fails)?)
}

/// A place with a new log, the journal of which fails at these calls.
pub fn place_of(alloc: Global, fails: &[u64]) -> Result<MemPlace, Fail> {
    place_that_fails(alloc, fails, &[])
}
