//! The places in memory. Depends on `journal` and `files`.
ghost use Rattle.std.specs.Prelude.{◌≡◌, ◌↔◌, ◌+◌, ◌-◌, ◌^◌, ◌<◌, ◌≤◌, ◌++◌, [], min, map, None, Some, IfOk, IfSome};
ghost use Rattle.std.specs.Prelude.{IsErrOf, IsOk, IsSome, OnErr, OnOk};
ghost use Rattle.tsdb_outside.specs.declared.faults.StoreFault.TheVariants as fault;
ghost use Rattle.tsdb_outside.specs.Causes.{HasStoreCause, RisesOnlyByFailed};
ghost use Rattle.mem_outside.specs.PlaceLaws.{place_is_lawful};

use crate::entry::{StoredEntry, new_entries};
use crate::files::MemFiles;
use crate::journal::MemJournal;
use crate::record::{SlotPair, StopKind};
use crate::row::CallRow;
use std::alloc::Global;
use std::collections::LinkedList;
use std::sync::Arc;
use tsdb_base::{FileNumber, Memory};
use tsdb_outside::{Counted, Disk, Failed, Place, Slot, StoreFault};

/// The numbers, from 1, of the calls that fail.
#[derive(Drop)]
pub struct Fails {
    /// Among the writes and syncs of the journal.
    pub journal: Vec<u64>,
    /// Among the calls `list`, `fetch`, `put`, `read`, `size` and `remove` of the files and all ports.
    pub files: Vec<u64>,
}

// What a place hands out.
#[derive(Drop)]
pub struct Parts {
    journal: MemJournal,
    files: MemFiles,
}

/// A place in memory for a store some of whose calls fail.
#[derive(Drop)]
pub struct MemPlace {
    alloc: Global,
    parts: Option<Parts>,
    asked: Option<Arc<Vec<u8>>>,
    faults: u64,
}

impl MemPlace {
    ghost use Rattle.mem_outside.specs.Entry.{entry_files, handed_in};
    ghost use Rattle.mem_outside.specs.Slots.{pair_image};
    ghost use Rattle.mem_outside.specs.Journal.{journal_numbers};
    ghost use Rattle.mem_outside.specs.Place.{place_journal, place_files, failing_of, place_faults, place_state};
    ghost use Rattle.mem_outside.specs.Place.{place_stored, place_asked, moments_of, LeftAt, stop_image, stop_files};
    ghost use Rattle.mem_outside.specs.Place.{IsDurable};
    ghost use Rattle.mem_outside.specs.Place.{slots_image};

    /// A place with these slots, all of their bytes durable, and these files, whose numbers differ and are those that a
    /// file may have.
    pub fn new(
        alloc: Global,
        slots: [Vec<u8>; 2],
        files: Vec<(FileNumber, Vec<u8>)>,
        fails: Fails,
    ) -> Result<MemPlace, Memory>
        ensures seen { IfOk result (λ place. (place_state place).seen ≡ Some (slots_image slots)) }
        ensures durable { IfOk result (λ place. IsDurable (slots_image slots) (place_state place)) }
        ensures moment { IfOk result (λ place. (place_state place).moment ≡ 0) }
        ensures stored { IfOk result (λ place. place_stored place ≡ Some (map handed_in files.items)) }
        ensures numbers { IfOk result (λ place. IfSome (place_journal place)
            (λ journal. journal_numbers journal ≡ record { fails = fails.journal; made = 0; faults = 0 })) }
        ensures failing { IfOk result (λ place. failing_of (place_files place) ≡ fails.files.items) }
        ensures in_it { IfOk result (λ place. IsSome (place_journal place)) }
        ensures asked { IfOk result (λ place. place_asked place ≡ None) }
        ensures no_faults { IfOk result (λ place. place_faults place ≡ 0) }
    {
        let [a, b] = slots;
        let at_rest = new_entries(alloc, files)?;
        MemPlace::from_parts(alloc, SlotPair { a, b }, at_rest, fails)
    }

    // A place with these slots and these files at rest.
    fn from_parts(
        alloc: Global,
        slots: SlotPair,
        at_rest: LinkedList<StoredEntry>,
        fails: Fails,
    ) -> Result<MemPlace, Memory>
        ensures seen { IfOk result (λ place. (place_state place).seen ≡ Some (pair_image slots)) }
        ensures durable { IfOk result (λ place. IsDurable (pair_image slots) (place_state place)) }
        ensures moment { IfOk result (λ place. (place_state place).moment ≡ 0) }
        ensures stored { IfOk result (λ place. place_stored place ≡ Some (entry_files at_rest)) }
        ensures numbers { IfOk result (λ place. IfSome (place_journal place)
            (λ journal. journal_numbers journal ≡ record { fails = fails.journal; made = 0; faults = 0 })) }
        ensures failing { IfOk result (λ place. failing_of (place_files place) ≡ fails.files.items) }
        ensures in_it { IfOk result (λ place. IsSome (place_journal place)) }
        ensures asked { IfOk result (λ place. place_asked place ≡ None) }
        ensures no_faults { IfOk result (λ place. place_faults place ≡ 0) }
    {
        let row = Arc::new(alloc, CallRow::new(fails.files))?;
        let journal = MemJournal::new(alloc, slots, fails.journal, Arc::try_clone(&row)?)?;
        let directory = Arc::new(alloc, Vec::new(alloc))?;
        let files = MemFiles::new(alloc, directory, row, at_rest);
        Ok(MemPlace {
            alloc,
            parts: Some(Parts { journal, files }),
            asked: None,
            faults: 0,
        })
    }

    /// How many moments it can be stopped at: one before the first counted call, and one behind each call of the row up
    /// to the last that changed something. None while its parts are out.
    pub fn moments(&self) -> u64
        ensures count { result ≡ moments_of (place_journal self.now) (place_files self.now) }
        ensures in_it { 0 < result → IsSome (place_journal self.now) }
    {
        match &self.parts {
            Some(parts) => {
                let last = parts.journal.last().max(parts.files.last());
                last.saturating_add(1)
            }
            None => 0,
        }
    }

    /// A place with what a stop of this kind leaves behind the first `moment` counted calls of the row: an image of the
    /// slots, and each file that was handed in or put and not yet handed to `remove`. An `Unwritten` stop also leaves each
    /// file that was handed to `remove` and each whose `put` failed. A `Scrambled` one also leaves the first half of each
    /// file whose `put` failed or is the next call. None of its calls fails.
    pub fn after_stop(&self, moment: u64, kind: StopKind) -> Result<MemPlace, Memory>
        requires { IsSome (place_journal self.now) }
        ensures seen { IfOk result (λ place. (place_state place).seen
            ≡ stop_image kind (place_journal self.now) moment) }
        ensures allowed { IfOk result (λ place. IfSome (place_state place).seen (LeftAt (place_journal self.now) moment)) }
        ensures stored { IfOk result (λ place. place_stored place ≡ stop_files kind moment (place_files self.now)) }
        ensures durable { IfOk result (λ place. IfSome (place_state place).seen
            (λ image. IsDurable image (place_state place))) }
        ensures moment { IfOk result (λ place. (place_state place).moment ≡ 0) }
        ensures numbers { IfOk result (λ place. IfSome (place_journal place)
            (λ journal. (journal_numbers journal).fails.items ≡ [])) }
        ensures never { IfOk result (λ place. failing_of (place_files place) ≡ []) }
        ensures in_it { IfOk result (λ place. IsSome (place_journal place)) }
        ensures asked { IfOk result (λ place. place_asked place ≡ None) }
        ensures no_faults { IfOk result (λ place. place_faults place ≡ 0) }
    {
        match &self.parts {
            Some(parts) => {
                let count = parts.journal.count_until(moment);
                let slots = parts.journal.after_stop(count, kind)?;
                let at_rest = parts.files.after_stop(moment, kind)?;
                let fails = Fails {
                    journal: Vec::new(self.alloc),
                    files: Vec::new(self.alloc),
                };
                MemPlace::from_parts(self.alloc, slots, at_rest, fails)
            }
            None => unreachable!(),
        }
    }
}

impl Counted for MemPlace {
    ghost use Rattle.mem_outside.specs.Place.{place_faults};

    ghost faults = { place_faults };
}

impl Disk for MemPlace {
    ghost use Rattle.mem_outside.specs.Place.{place_journal, place_state};

    ghost state = { place_state };

    ghost lawful = { λ place. place_is_lawful (place_journal place) };
}

impl Place for MemPlace {
    ghost use Rattle.tsdb_outside.specs.Disk.{Keeps};
    ghost use Rattle.mem_outside.specs.Files.{files_faults, files_at_rest, files_gone, files_row, stored_files};
    ghost use Rattle.mem_outside.specs.Journal.{journal_state, journal_faults, with_no_faults};
    ghost use Rattle.mem_outside.specs.Files.{files_store};
    ghost use Rattle.mem_outside.specs.Place.{place_journal, place_files, place_asked, place_faults, place_state};
    ghost use Rattle.mem_outside.specs.Place.{place_stored, SameFiles};

    type Journal = MemJournal;

    type Files = MemFiles;

    ghost stored = { place_stored };

    ghost asked = { place_asked };

    /// It has one store, whatever the directory. While its parts are out a further one is refused with a fault.
    fn take_up(&mut self, dir: &[u8]) -> Result<(MemJournal, MemFiles), StoreFault>
        ensures keeps { IfOk result (λ parts. Keeps (place_state self.old) (journal_state parts.0)) }
        ensures at_rest { IfOk result (λ parts. stored_files parts.1 ≡ place_stored self.old) }
        ensures no_faults { IfOk result (λ parts. journal_faults parts.0 ≡ 0 × files_faults parts.1 ≡ 0) }
        ensures directory { IfOk result (λ parts. (files_store parts.1).directory ≡ dir.now) }
        ensures asked { OnOk result (place_asked self.new ≡ Some dir.now) }
        ensures err { OnErr result (Keeps (place_state self.old) (place_state self.new)
            × place_stored self.new ≡ place_stored self.old) }
        ensures still_asked { OnErr result (place_asked self.new ≡ place_asked self.old) }
        ensures no_fault { RisesOnlyByFailed (place_faults self.old) (place_faults self.new) result }
        ensures cause { HasStoreCause (place_faults self.old) (place_faults self.new) result }

        // It hands its parts out where they are in it, unless memory runs out, and fails where they are not.
        ensures ok { IsOk result → IsSome (place_journal self.old) }
        ensures refused { IsErrOf result fault.Failed ↔ place_journal self.old ≡ None }
        ensures journal { IfOk result (λ parts. IfSome (place_journal self.old) (λ j. parts.0 ≡ with_no_faults j)) }
        ensures files { IfOk result (λ parts. IfSome (place_files self.old) (λ f. SameFiles f parts.1)) }
        ensures out { OnOk result (place_journal self.new ≡ None × place_files self.new ≡ None) }
        ensures same { OnErr result (place_journal self.new ≡ place_journal self.old
            × place_files self.new ≡ place_files self.old) }
        ensures unfailing { IsSome (place_journal self.old) → place_faults self.new ≡ place_faults self.old }
    {
        if self.parts.is_none() {
            self.faults = self.faults.saturating_add(1);
            return Err(StoreFault::Failed);
        }
        let directory = Arc::new(self.alloc, dir.to_vec(self.alloc)?)?;
        let asked = Arc::try_clone(&directory)?;
        match self.parts.take() {
            Some(parts) => {
                let Parts {
                    mut journal,
                    mut files,
                } = parts;
                journal.reset_faults();
                files.open(directory);
                self.asked = Some(asked);
                Ok((journal, files))
            }
            None => unreachable!(),
        }
    }

    fn put_down(&mut self, journal: MemJournal, files: MemFiles)
        ensures keeps { Keeps (journal_state journal) (place_state self.new) }
        ensures stored { place_stored self.new ≡ stored_files files }
        ensures asked { place_asked self.new ≡ place_asked self.old }
        ensures later { place_faults self.old ≤ place_faults self.new }
        ensures faults { min (place_faults self.old + journal_faults journal + files_faults files) (2 ^ 64 - 1)
            ≤ place_faults self.new }

        // It has these parts again, and no further fault.
        ensures journal { place_journal self.new ≡ Some journal }
        ensures files { place_files self.new ≡ Some files }
        ensures no_more { place_faults self.new
            ≡ min (place_faults self.old + journal_faults journal + files_faults files) (2 ^ 64 - 1) }
    {
        self.faults = self
            .faults
            .saturating_add(journal.faults())
            .saturating_add(files.faults());
        self.parts = Some(Parts { journal, files });
    }
}
