//! The value under a turn that the tests take in turns: a list of who added what.
ghost use Rattle.std.specs.Prelude.{◌≡◌, ℕ, ◌≤◌, List, [], ◌++◌, All, IfOk};
ghost use Rattle.std.specs.Vec.{vec_capacity};

use std::alloc::{AllocError, Global};
use tsdb_turn::Logged;

/// Which pass added it, and how many it had added before.
#[derive(Clone, Copy)]
pub struct Entry {
    pub by: u32,
    pub place: u32,
}

/// Entries, with room for all that are to come, and how often one was added.
#[derive(Drop)]
pub struct Ledger {
    pub entries: Vec<Entry>,
    pub turns: u64,
}

impl Logged for Ledger {
    type Entry = Entry;

    type Account = ();

    ghost entries_of = { λ l. l.entries.items };

    ghost number_of = { λ e. e.by };

    ghost account_of = { λ l n. tt };

    ghost reach_of = { λ l. l.turns };

    ghost comes_from = { λ l start. vec_capacity l.entries ≡ vec_capacity start.entries };

    fn entries(&self) -> u64 {
        self.entries.len() as u64
    }

    fn reach(&self) -> u64 {
        self.turns
    }
}

impl Ledger {
    pub fn with_room(alloc: Global, room: usize) -> Result<Ledger, AllocError>
        ensures { IfOk result (λ l. l.entries.items ≡ []) }
    {
        Ok(Ledger {
            entries: Vec::with_capacity(alloc, room)?,
            turns: 0,
        })
    }

    /// Adds an entry where there is room.
    pub fn add(&mut self, entry: Entry)
        ensures room { vec_capacity self.new.entries ≡ vec_capacity self.old.entries }
        ensures list { (more : List Entry) × (self.new.entries.items ≡ self.old.entries.items ++ more)
            × All (λ e. e.by ≡ entry.by) more }
        ensures turns { self.old.turns ≤ self.new.turns }
    {
        if self.entries.len() < self.entries.capacity() {
            self.entries.push_reserved(entry);
        }
        self.turns = self.turns.saturating_add(1);
    }
}

// Whether a pass added so many entries, in its order.
fn has_in_order(entries: &[Entry], by: u32, times: u32) -> bool {
    let mut next = 0u32;
    for entry in entries {
        if entry.by == by {
            if entry.place != next {
                return false;
            }
            next = next.wrapping_add(1);
        }
    }
    next == times
}

/// Whether each of so many passes added so many entries, in its order, and there is no other one.
pub fn has_all_in_order(entries: &[Entry], passes: u32, times: u32) -> bool {
    for by in 0..passes {
        if !has_in_order(entries, by, times) {
            return false;
        }
    }
    entries.iter().all(|entry| entry.by < passes)
}
