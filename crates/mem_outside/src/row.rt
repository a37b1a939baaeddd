//! The row of the counted calls of one place, which its journal, its files and all ports share. Each call draws its
//! place in the row from one word, and each call on files its number from another one, so no lock is needed. Of what is
//! drawn no more is proved than that it counts from 1, since another thread may draw at any time. Depends on
//! `tsdb_outside`.
ghost use Rattle.std.specs.Prelude.{◌≡◌, ◌↔◌, ◌≤◌, Contains, IsErr};

use std::sync::atomic::{AtomicU64, Ordering};
use tsdb_outside::Failed;

/// How many counted calls were made, how many of them on files, and which of these fail, by number from 1.
#[derive(Drop)]
pub struct CallRow {
    made: AtomicU64,
    on_files: AtomicU64,
    failing: Vec<u64>,
}

/// What a call on files drew: its place in the row, and its number, each from 1. It is 0 and 0 before the first call.
#[derive(Clone, Copy, Drop)]
pub struct Drawn {
    pub place: u64,
    pub number: u64,
}

impl CallRow {
    ghost use Rattle.mem_outside.specs.Row.{failing_numbers, IsCountedFromOne};

    pub fn new(failing: Vec<u64>) -> CallRow
        ensures { failing_numbers result ≡ failing.items }
    {
        CallRow {
            made: AtomicU64::new(0),
            on_files: AtomicU64::new(0),
            failing,
        }
    }

    /// The place of the next counted call, from 1.
    pub fn draw(&self) -> u64
        ensures { 1 ≤ result }
    {
        self.made.fetch_add(1, Ordering::SeqCst).saturating_add(1)
    }

    /// The place and the number of the next call on files.
    pub fn draw_on_files(&self) -> Drawn
        ensures drawn { IsCountedFromOne result }
    {
        let place = self.draw();
        let number = self.on_files.fetch_add(1, Ordering::SeqCst);
        Drawn {
            place,
            number: number.saturating_add(1),
        }
    }

    /// Whether this call on files is one that fails.
    pub fn answer(&self, drawn: Drawn) -> Result<(), Failed>
        ensures { IsErr result ↔ Contains (failing_numbers self.now) drawn.number }
    {
        if self.failing.contains(&drawn.number) {
            return Err(Failed);
        }
        Ok(())
    }
}
