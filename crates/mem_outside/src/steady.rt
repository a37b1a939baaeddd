//! Files and places in memory that never fail. Depends on `files` and `place`.
ghost use Rattle.std.specs.Prelude.{◌≡◌, ◌↔◌, ℕ, ◌+◌, ◌-◌, ◌^◌, ◌<◌, ◌≤◌, ◌++◌, [], min, length, map, None, Some, IfOk};
ghost use Rattle.std.specs.Prelude.{IfSome, IsErrOf, IsOk, IsSome, OnErr, OnOk};
ghost use Rattle.std.specs.declared.option.Option.{Option};
ghost use Rattle.mem_outside.specs.Files.{port_faults, port_row, port_store, files_faults, files_row, files_store};
ghost use Rattle.mem_outside.specs.Files.{stored_files};
ghost use Rattle.mem_outside.specs.Place.{place_files, failing_of};
ghost use Rattle.mem_outside.specs.PlaceLaws.{place_is_lawful};
ghost use Rattle.mem_outside.specs.Row.{never_fails};

use crate::entry::{MemRight, MemSealed};
use crate::files::{MemFiles, MemPort};
use crate::journal::MemJournal;
use crate::place::{Fails, MemPlace};
use std::alloc::Global;
use tsdb_base::{FileNumber, Memory};
use tsdb_outside::{Counted, Disk, Failed, Files, Place, Port, Steady, StoreFault};

/// A port in memory that never fails.
#[derive(Drop)]
pub struct SteadyPort {
    port: MemPort,
    // No call of its row fails, and it has no fault.
    ghost never: { never_fails (port_row port) },
    ghost no_fault: { port_faults port ≡ 0 },
}

impl Counted for SteadyPort {
    ghost faults = { λ steady. port_faults steady.port };
}

impl Steady for SteadyPort {
    ghost never_fails = { λ steady. steady.no_fault };
}

impl Port for SteadyPort {
    type Sealed = MemSealed;

    type Right = MemRight;

    ghost store = { λ steady. port_store steady.port };

    fn put(&mut self, number: FileNumber, bytes: &[u8]) -> Result<MemSealed, StoreFault> {
        self.port.put(number, bytes)
    }

    fn read(&mut self, right: &MemRight, at: u64, into: &mut [u8]) -> Result<(), Failed> {
        self.port.read(right, at, into)
    }

    fn size(&mut self, right: &MemRight) -> Result<u64, Failed> {
        self.port.size(right)
    }

    fn remove(&mut self, sealed: MemSealed) -> Result<(), Failed> {
        self.port.remove(sealed)
    }

    fn share(sealed: &mut MemSealed) -> Result<MemRight, Memory> {
        sealed.share()
    }

    fn give_back(sealed: &mut MemSealed, right: MemRight) {
        sealed.give_back(right);
    }

    /// Files in memory tell their bytes, so it does nothing.
    fn spoiled(&mut self, _right: &MemRight, _at: u64) {}
}

/// Files in memory that never fail.
#[derive(Drop)]
pub struct SteadyFiles {
    files: MemFiles,
    // No call of their row fails, and they have no fault.
    ghost never: { never_fails (files_row files) },
    ghost no_fault: { files_faults files ≡ 0 },
}

impl Counted for SteadyFiles {
    ghost faults = { λ steady. files_faults steady.files };
}

impl Steady for SteadyFiles {
    ghost never_fails = { λ steady. steady.no_fault };
}

impl Files for SteadyFiles {
    type Sealed = MemSealed;

    type Right = MemRight;

    type Port = SteadyPort;

    ghost use Rattle.std.proofs.Common.{refl};

    ghost store = { λ steady. files_store steady.files };

    ghost at_rest = { λ steady. stored_files steady.files };

    ghost tells = { λ _. refl };

    fn list(&mut self) -> Result<Vec<FileNumber>, StoreFault> {
        self.files.list()
    }

    fn fetch(&mut self, number: FileNumber) -> Result<Option<MemSealed>, StoreFault> {
        self.files.fetch(number)
    }

    fn port(&mut self) -> Result<SteadyPort, Memory> {
        Ok(SteadyPort {
            port: self.files.port()?,
        })
    }

    fn end_port(&mut self, port: SteadyPort) {
        self.files.end_port(port.port);
    }

    fn keep(&mut self, sealed: MemSealed) {
        self.files.keep(sealed);
    }
}

/// A place in memory for a store whose journal fails only without room, and whose files never fail.
#[derive(Drop)]
pub struct SteadyPlace {
    place: MemPlace,
    // No call of its files fails.
    ghost never: { failing_of (place_files place) ≡ [] },
}

impl SteadyPlace {
    ghost use Rattle.mem_outside.specs.Entry.{handed_in};
    ghost use Rattle.mem_outside.specs.Journal.{journal_numbers};
    ghost use Rattle.mem_outside.specs.Place.{place_journal, place_asked, place_faults, place_state, place_stored};
    ghost use Rattle.mem_outside.specs.Place.{slots_image, IsDurable};
    ghost use Rattle.mem_outside.specs.Steady.{inner_place};

    /// A place with these slots, all of their bytes durable, and these files, whose numbers differ and are those that a
    /// file may have.
    pub fn new(
        alloc: Global,
        slots: [Vec<u8>; 2],
        files: Vec<(FileNumber, Vec<u8>)>,
    ) -> Result<SteadyPlace, Memory>
        ensures seen { IfOk result (λ place. (place_state (inner_place place)).seen ≡ Some (slots_image slots)) }
        ensures durable { IfOk result (λ place. IsDurable (slots_image slots) (place_state (inner_place place))) }
        ensures moment { IfOk result (λ place. (place_state (inner_place place)).moment ≡ 0) }
        ensures stored { IfOk result (λ place. place_stored (inner_place place) ≡ Some (map handed_in files.items)) }
        ensures numbers { IfOk result (λ place. IfSome (place_journal (inner_place place))
            (λ journal. (journal_numbers journal).fails.items ≡ [])) }
        ensures in_it { IfOk result (λ place. IsSome (place_journal (inner_place place))) }
        ensures asked { IfOk result (λ place. place_asked (inner_place place) ≡ None) }
        ensures no_faults { IfOk result (λ place. place_faults (inner_place place) ≡ 0) }
    {
        let fails = Fails {
            journal: Vec::new(alloc),
            files: Vec::new(alloc),
        };
        Ok(SteadyPlace {
            place: MemPlace::new(alloc, slots, files, fails)?,
        })
    }
}

impl Counted for SteadyPlace {
    ghost use Rattle.mem_outside.specs.Place.{place_faults};
    ghost use Rattle.mem_outside.specs.Steady.{inner_place};

    ghost faults = { λ place. place_faults (inner_place place) };
}

impl Disk for SteadyPlace {
    ghost use Rattle.mem_outside.specs.Place.{place_journal, place_state};
    ghost use Rattle.mem_outside.specs.Steady.{inner_place};

    ghost state = { λ place. place_state (inner_place place) };

    ghost lawful = { λ place. place_is_lawful (place_journal (inner_place place)) };
}

impl Place for SteadyPlace {
    ghost use Rattle.tsdb_outside.specs.Causes.{HasStoreCause, RisesOnlyByFailed};
    ghost use Rattle.tsdb_outside.specs.Disk.{Keeps};
    ghost use Rattle.tsdb_outside.specs.declared.faults.StoreFault.TheVariants as fault;
    ghost use Rattle.mem_outside.specs.Journal.{journal_faults, journal_state};
    ghost use Rattle.mem_outside.specs.Place.{place_journal, place_asked, place_faults, place_state, place_stored};
    ghost use Rattle.mem_outside.specs.Steady.{inner_files, inner_place};

    type Journal = MemJournal;

    type Files = SteadyFiles;

    ghost stored = { λ place. place_stored (inner_place place) };

    ghost asked = { λ place. place_asked (inner_place place) };

    fn take_up(&mut self, dir: &[u8]) -> Result<(MemJournal, SteadyFiles), StoreFault>
        ensures keeps { IfOk result (λ parts. Keeps (place_state (inner_place self.old)) (journal_state parts.0)) }
        ensures at_rest { IfOk result (λ parts. stored_files (inner_files parts.1)
            ≡ place_stored (inner_place self.old)) }
        ensures no_faults { IfOk result (λ parts. journal_faults parts.0 ≡ 0
            × files_faults (inner_files parts.1) ≡ 0) }
        ensures directory { IfOk result (λ parts. (files_store (inner_files parts.1)).directory ≡ dir.now) }
        ensures asked { OnOk result (place_asked (inner_place self.new) ≡ Some dir.now) }
        ensures err { OnErr result (Keeps (place_state (inner_place self.old)) (place_state (inner_place self.new))
            × place_stored (inner_place self.new) ≡ place_stored (inner_place self.old)) }
        ensures still_asked { OnErr result (place_asked (inner_place self.new) ≡ place_asked (inner_place self.old)) }
        ensures no_fault { RisesOnlyByFailed (place_faults (inner_place self.old))
            (place_faults (inner_place self.new)) result }
        ensures cause { HasStoreCause (place_faults (inner_place self.old)) (place_faults (inner_place self.new)) result }

        // Where its parts are in it, it hands them out unless memory runs out, and its count stays.
        ensures ok { IsSome (place_journal (inner_place self.old)) → ¬ IsErrOf result fault.Failed }
        ensures unfailing { IsSome (place_journal (inner_place self.old))
            → place_faults (inner_place self.new) ≡ place_faults (inner_place self.old) }
    {
        let (journal, files) = self.place.take_up(dir)?;
        Ok((journal, SteadyFiles { files }))
    }

    fn put_down(&mut self, journal: MemJournal, files: SteadyFiles)
        ensures keeps { Keeps (journal_state journal) (place_state (inner_place self.new)) }
        ensures stored { place_stored (inner_place self.new) ≡ stored_files (inner_files files) }
        ensures asked { place_asked (inner_place self.new) ≡ place_asked (inner_place self.old) }
        ensures later { place_faults (inner_place self.old) ≤ place_faults (inner_place self.new) }
        ensures faults { min (place_faults (inner_place self.old) + journal_faults journal
            + files_faults (inner_files files)) (2 ^ 64 - 1) ≤ place_faults (inner_place self.new) }

        // It has its parts again, and its count rises by the faults of the journal alone.
        ensures in_it { IsSome (place_journal (inner_place self.new)) }
        ensures no_more { place_faults (inner_place self.new)
            ≡ min (place_faults (inner_place self.old) + journal_faults journal) (2 ^ 64 - 1) }
    {
        self.place.put_down(journal, files.files);
    }
}
