//! The core, and what is read of it. Depends on `options`, tsdb_memory and tsdb_fileset.
ghost use Rattle.std.specs.Prelude.{◌≡◌, [], false, length};
ghost use Rattle.std.specs.Option.{option_map};
ghost use Rattle.tsdb_core.specs.Limits.{IsPairLimit};
ghost use Rattle.tsdb_fileset.specs.StateOfFiles.{AreFilesOf, TellTheirBytes};
ghost use Rattle.tsdb_fileset.specs.Files.{AreKept, entries_in};
ghost use Rattle.tsdb_fileset.specs.Places.{AreOfStore};
ghost use Rattle.tsdb_memory.specs.LogState.{Outside};
ghost use Rattle.tsdb_memtable.specs.Pairs.{space_count};
ghost use Rattle.tsdb_state.specs.NewStore.{opened};
ghost use Rattle.tsdb_state.specs.State.{StoreState};

use crate::options::{Options, PairLimit};
use std::alloc::Global;
use tsdb_base::{FileNumber, Space, Stamp};
use tsdb_fileset::{KeptFiles, Outgoing};
use tsdb_memory::{LoggedMemory, MemoryStore};
use tsdb_outside::{Files, Journal};
use tsdb_plan::FileEntry;

/// What is in memory behind its log, and the files that are kept beside it.
pub struct Core<J: Journal, F: Files> {
    pub(crate) alloc: Global,
    pub(crate) logged: LoggedMemory<J>,
    pub(crate) files: KeptFiles<F>,
    pub(crate) limit: PairLimit,
    pub(crate) next_file: u64,
    /// The number of the next file when a flush was last committed, or 0.
    pub(crate) flushed_below: u64,
    /// A job with a sequence output is out.
    pub(crate) sequence_claimed: bool,
}

impl<J: Journal, F: Files> Core<J, F> {
    ghost use Rattle.tsdb_core.specs.Core.{IsAboveNumbers, IsSeen, KeepsJobs, files_of, limit_of, logged_of};
    ghost use Rattle.tsdb_core.specs.Core.{flushed_below, is_sequence_claimed, newest_born, next_of, store_of};
    ghost use Rattle.tsdb_core.specs.Core.{working_of};
    ghost use Rattle.tsdb_memory.specs.LogState.{IsSoundLogged, memory_of};

    /// The core of these, where the next file gets this number.
    pub fn new(
        alloc: Global,
        logged: LoggedMemory<J>,
        files: KeptFiles<F>,
        options: Options,
        next_file: FileNumber,
    ) -> Core<J, F>
        requires { IsPairLimit options.pair_points }
        ensures logged { logged_of result ≡ logged }
        ensures files { files_of result ≡ files }
        ensures limit { limit_of result ≡ options.pair_points }
        ensures next { next_of result ≡ next_file.0 }
        ensures flushed { flushed_below result ≡ 0 }
        ensures claims { is_sequence_claimed result ≡ false }
        ensures quiet { IsAboveNumbers next_file.0 files → KeepsJobs result [] [] }
        // It shows the engine that was opened over a replay, where these are of it.
        ensures opened { (outside : Outside) (store : StoreState) → IsAboveNumbers next_file.0 files
            → IsSoundLogged logged outside (opened next_file.0 store)
            → AreFilesOf files outside.known (opened next_file.0 store) → TellTheirBytes files outside.kept
            → IsSeen result outside (opened next_file.0 store) }
    {
        Core {
            alloc,
            logged,
            files,
            limit: PairLimit::of(options),
            next_file: next_file.0,
            flushed_below: 0,
            sequence_claimed: false,
        }
    }

    /// What is in memory.
    pub fn memory(&self) -> &MemoryStore
        ensures { result.now ≡ memory_of (logged_of self.now) }
    {
        self.logged.memory()
    }

    /// How many pairs are frozen.
    pub fn frozen(&self) -> u64
        ensures { result ≡ length (memory_of (logged_of self.now)).frozen }
    {
        self.logged.memory().frozen().len() as u64
    }

    /// How many points the working pair has in the space.
    pub fn working(&self, space: Space) -> u64
        ensures { result ≡ space_count space (working_of self.now) }
    {
        self.logged.memory().working().points(space)
    }

    /// The stamp at the last freeze of a pair that is still frozen.
    pub fn newest_frozen(&self) -> Option<Stamp>
        ensures { option_map (λ stamp. stamp.0) result ≡ newest_born (memory_of (logged_of self.now)).frozen }
    {
        match self.logged.memory().frozen().last() {
            Some(pair) => Some(pair.born()),
            None => None,
        }
    }

    /// The number that the next file gets.
    pub fn next_file(&self) -> u64
        ensures { result ≡ next_of self.now }
    {
        self.next_file
    }

    /// What is kept of the files of a list, in its order.
    pub fn entries(&self, space: Space) -> &[FileEntry]
        ensures { result.now ≡ entries_in space (files_of self.now) }
    {
        self.files.entries(space)
    }

    /// The files on their way out, in the order in which they came.
    pub fn outgoing(&self) -> &[Outgoing]
        ensures files { result.now ≡ (files_of self.now).outgoing }
        ensures kept { AreKept (files_of self.now) }
    {
        self.files.outgoing()
    }

    /// It does nothing, and tells what always holds of the kept files.
    pub fn sound(&self)
        ensures kept { AreKept (files_of self.now) }
        ensures of_store { AreOfStore (store_of self.now) (files_of self.now).places }
    {
        self.files.sound();
    }
}
