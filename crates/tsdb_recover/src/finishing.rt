//! What becomes of the files that were taken up: a core, or each token goes back to its store. Depends on `adopting`,
//! tsdb_memory and tsdb_core.
ghost use Rattle.std.specs.Prelude.{◌≡◌, ◌<◌, ◌↔◌, ◌++◌, [], List, All, IfSome, IsTrue, IsSome, None, map};
ghost use Rattle.std.specs.List.{AllByRecursion as Each};
ghost use Rattle.tsdb_recover.specs.Adopting.{AreDescribed, wanted_file};
ghost use Rattle.tsdb_recover.specs.FileEntries.{known_of};
ghost use Rattle.tsdb_recover.specs.OpenedStore.{IsUnclaimed};
ghost use Rattle.tsdb_core.specs.Core.{IsSeen, KeepsJobs, files_of as core_files, limit_of, logged_of, next_of};
ghost use Rattle.tsdb_core.specs.Limits.{IsPairLimit};
ghost use Rattle.tsdb_frames.specs.Frames.{IsLog};
ghost use Rattle.tsdb_fileset.specs.StateOfFiles.{TellTheirBytes};
ghost use Rattle.tsdb_state.specs.StoredEngine.{IsKeptWhole};
ghost use Rattle.tsdb_fileset.specs.Closing.{ArePutBack, AreNumbersRising, names_at};
ghost use Rattle.tsdb_fileset.specs.Files.{AreKept, kept_file};
ghost use Rattle.tsdb_fileset.specs.Places.{AreUnread};
ghost use Rattle.tsdb_base.specs.Lists.{Among};
ghost use Rattle.tsdb_log.specs.Spelling.{IsRecord, spelling};
ghost use Rattle.tsdb_log.specs.declared.record.LogRecord.{LogRecord};
ghost use Rattle.tsdb_memory.specs.LogState.{log_of, memory_of};
ghost use Rattle.tsdb_memory.specs.StateOfMemory.{IsMemoryOf};
ghost use Rattle.tsdb_redo.specs.Opening.{IsOpeningOf, next_number};
ghost use Rattle.tsdb_outside.specs.Disk.{WhereTold};
ghost use Rattle.tsdb_outside.specs.Files.{StoredFile};
ghost use Rattle.tsdb_state.specs.Replays.{Replays};
ghost use Rattle.tsdb_state.specs.Stores.{Recorded, store_steps};
ghost use Rattle.tsdb_base.specs.Limits.{end_of_numbers};
ghost use Rattle.tsdb_state.specs.NewStore.{opened};
ghost use Rattle.tsdb_state.specs.Records.{numbers_of};
ghost use Rattle.tsdb_state.specs.State.{ToldContents};
ghost use Rattle.tsdb_state.specs.StoreOrder.{StoreInOrder};

use crate::adopting::Adopting;
use tsdb_base::FileNumber;
use tsdb_core::{Core, Options};
use tsdb_frames::Frames;
use tsdb_memory::LoggedMemory;
use tsdb_outside::{Files, Journal};

impl<F: Files> Adopting<F> {
    ghost use Rattle.tsdb_recover.specs.Adopting.{HasAdoptedAll, IsAdoptingOf, adopting_files, opening_of};

    /// Whether the file of the number is kept. Once all listed files are, whether it is listed.
    pub fn is_kept(&self, number: FileNumber) -> bool
        ensures kept { IsTrue result ↔ IsSome (kept_file number.0 (adopting_files self.now)) }
        ensures listed { (recorded : Recorded) → IsAdoptingOf self.now recorded
            → wanted_file (adopting_files self.now) recorded.store ≡ None
            → IsTrue result ↔ Among number.0 (numbers_of (recorded.store.sequence ++ recorded.store.unsequence)) }
    {
        self.files.sound();
        self.files.series(number).is_some()
    }

    /// The core of the replay over its log, with all listed files. `stored` is the greatest number in the store: the
    /// number of the next file is one more than that, and than each number that a record has named.
    pub fn finish<J: Journal>(
        self,
        frames: Frames<J>,
        stored: Option<FileNumber>,
        options: Options,
    ) -> Core<J, F>
        requires all { HasAdoptedAll self }
        requires stored { IfSome stored (λ number. number.0 < end_of_numbers) }
        requires limit { IsPairLimit options.pair_points }
        ensures log { log_of (logged_of result) ≡ frames }
        ensures memory { (recorded : Recorded) → IsOpeningOf (opening_of self) recorded
            → IsMemoryOf (memory_of (logged_of result)) recorded.store }
        ensures files { core_files result ≡ adopting_files self }
        ensures next { (recorded : Recorded) → IsOpeningOf (opening_of self) recorded
            → next_of result ≡ next_number stored recorded.named }
        ensures limit { limit_of result ≡ options.pair_points }
        ensures quiet { KeepsJobs result [] [] }
        ensures unclaimed { IsUnclaimed result }
        ensures none_leaving { (core_files result).outgoing ≡ [] }
        ensures kept { AreKept (adopting_files self) }
        ensures seen { (items : List LogRecord) (recorded : Recorded) (kept : List StoredFile) (told : ToldContents)
            → IsLog frames (map spelling items) None → All IsRecord items
            → Replays store_steps store_steps.new_store items recorded → IsAdoptingOf self recorded
            → StoreInOrder told recorded.store
            → Each (IsKeptWhole kept told) (recorded.store.sequence ++ recorded.store.unsequence)
            → AreDescribed told (adopting_files self) → TellTheirBytes (adopting_files self) kept
            → IsSeen result (record { items = items; kept = kept; told = told; known = known_of (adopting_files self) })
            (opened (next_of result) recorded.store) }
    {
        self.files.sound();
        let next_file = self.opening.next_file(stored);
        let Adopting {
            alloc,
            opening,
            files,
        } = self;
        let logged = LoggedMemory::new(alloc, frames, opening.into_memory());
        Core::new(alloc, logged, files, options, next_file)
    }

    /// Gives each token back to its store; no other file comes to be at rest. It tells what always holds of the kept
    /// files.
    pub fn end(self, files: &mut F)
        requires no_rights { AreUnread (adopting_files self).places }
        requires store { F.store files.old ≡ (adopting_files self).store }
        ensures at_rest { WhereTold (ArePutBack (names_at (adopting_files self).places)) (F.at_rest files.old)
            (F.at_rest files.new) }
        ensures rising { AreNumbersRising (adopting_files self).places }
        ensures kept { AreKept (adopting_files self) }
        ensures same_store { F.store files.new ≡ F.store files.old }
        ensures faults { F.faults files.new ≡ F.faults files.old }
    {
        let Adopting {
            alloc: _,
            opening: _,
            files: kept,
        } = self;
        kept.close(files);
    }
}
