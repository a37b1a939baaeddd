//! Stores in memory, as tables have them. Depends on `runs`.
ghost use Rattle.std.specs.Prelude.{IfOk};
ghost use Rattle.mem_outside.specs.Place.{place_state, place_stored};
ghost use Rattle.mem_outside.specs.Steady.{inner_place};
ghost use Rattle.tsdb_run.specs.Store.{IsSoundPlace, contents, new_state};

use super::runs::NO_CALL;
use mem_outside::{Fails, MemPlace, SteadyPlace};
use std::alloc::Global;
use tsdb_base::{FileNumber, Memory};
use tsdb_run::a_new_place_is_sound;

/// A store before the first run on it.
#[derive(Clone, Copy)]
pub struct Store {
    /// Slot A. Slot B has no record.
    pub slot: &'static [u8],
    /// The number of a file, and its bytes.
    pub file: Option<u64>,
    pub bytes: &'static [u8],
    /// The call of its journal and that of its files which fail.
    pub journal_call: u64,
    pub files_call: u64,
}

/// A new store.
pub const NEW: Store = Store {
    slot: &[0],
    file: None,
    bytes: &[],
    journal_call: NO_CALL,
    files_call: NO_CALL,
};

/// A new store of whose journal, and of whose files, these calls fail.
pub fn failing(journal_call: u64, files_call: u64) -> Store {
    Store {
        slot: &[0],
        file: None,
        bytes: &[],
        journal_call,
        files_call,
    }
}

fn files_of(alloc: Global, store: &Store) -> Result<Vec<(FileNumber, Vec<u8>)>, Memory> {
    let mut files = Vec::new(alloc);
    if let Some(number) = store.file {
        files.push((FileNumber(number), Vec::from_slice(alloc, store.bytes)?))?;
    }
    Ok(files)
}

pub fn place_of(alloc: Global, store: &Store) -> Result<MemPlace, Memory> {
    let fails = Fails {
        journal: vec![in alloc; store.journal_call]?,
        files: vec![in alloc; store.files_call]?,
    };
    let files = files_of(alloc, store)?;
    let slots = [Vec::from_slice(alloc, store.slot)?, vec![in alloc; 0]?];
    MemPlace::new(alloc, slots, files, fails)
}

/// A new store that never fails. It is sound, so all that is said of runs on sound stores is said of runs on it.
pub fn new_place(alloc: Global) -> Result<SteadyPlace, Memory>
    ensures sound { IfOk result (λ place. IsSoundPlace (contents (place_state (inner_place place))
        (place_stored (inner_place place))) new_state) }
{
    let first = vec![in alloc; 0]?;
    let second = vec![in alloc; 0]?;
    let place = SteadyPlace::new(alloc, [first, second], Vec::new(alloc))?;
    a_new_place_is_sound(&place);
    Ok(place)
}
