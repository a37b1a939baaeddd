//! Taking up the files of a replayed log. Depends on `file_entry`, tsdb_redo and tsdb_fileset.
ghost use Rattle.std.specs.Prelude.{◌≡◌, None, IfErr, IfOk, IfSome, OnErr, OnOk};
ghost use Rattle.std.specs.Option.{option_map};
ghost use Rattle.tsdb_recover.specs.Adopting.{AreDescribed, IsAdopted, IsKeptOf, IsReadOf, TakesUp, next_in};
ghost use Rattle.tsdb_recover.specs.Adopting.{wanted_file};
ghost use Rattle.tsdb_recover.specs.Steps.{HasPlaceFor, KeepsFileLists, state_file};
ghost use Rattle.tsdb_fileset.specs.StateOfFiles.{TellTheirBytes};
ghost use Rattle.tsdb_state.specs.StoredEngine.{kept_bytes};
ghost use Rattle.tsdb_fileset.specs.Files.{AreKept, IsOpen, kept_file, none_kept};
ghost use Rattle.tsdb_fileset.specs.Room.{HasRoom};
ghost use Rattle.tsdb_log.specs.declared.record.LogRecord.{LogRecord};
ghost use Rattle.tsdb_redo.specs.Lists.{file_of};
ghost use Rattle.tsdb_redo.specs.Opening.{IsOpeningOf};
ghost use Rattle.tsdb_outside.specs.Files.{StoredFile};
ghost use Rattle.tsdb_state.specs.Replays.{Replays};
ghost use Rattle.tsdb_state.specs.Stores.{Recorded, store_steps};
ghost use Rattle.tsdb_state.specs.State.{ToldContents};
ghost use Rattle.tsdb_state.specs.StoreOrder.{StoreInOrder};
ghost use Rattle.tsdb_memory.specs.Model.{IsSoundMemory};
ghost use Rattle.tsdb_memory.specs.StateOfMemory.{IsMemoryOf};
ghost use Rattle.tsdb_memory.specs.Store.{MemoryState as InMemory};
ghost use Rattle.std.specs.Prelude.{List as ListOf};

use crate::file_entry::{Described, describe};
use std::alloc::Global;
use tsdb_base::{FileNumber, Memory, Space};
use tsdb_fileset::KeptFiles;
use tsdb_flush::Built;
use tsdb_index::FileMeta;
use tsdb_outside::Files;
use tsdb_redo::{ListedFile, Opening};

/// The replay of a log, and the files that are kept so far: the first of each list.
pub struct Adopting<F: Files> {
    pub(crate) alloc: Global,
    pub(crate) opening: Opening,
    pub(crate) files: KeptFiles<F>,
}

/// Memory ran out before the file was taken up, whose token this is.
pub struct AdoptRefused<F: Files> {
    pub sealed: F::Sealed,
}

impl<F: Files> Adopting<F> {
    ghost use Rattle.tsdb_recover.specs.Adopting.{IsAdoptingOf, MayAdopt, adopting_files, opening_of};

    /// No file of the store of these files so far.
    pub fn new(alloc: Global, opening: Opening, files: &F) -> Adopting<F>
        ensures begins { (items : ListOf LogRecord) (recorded : Recorded) → IsOpeningOf opening recorded
            → Replays store_steps store_steps.new_store items recorded → IsAdoptingOf result recorded }
        ensures opening { opening_of result ≡ opening }
        ensures files { adopting_files result ≡ none_kept (F.store files.now) }
    {
        Adopting {
            alloc,
            opening,
            files: KeptFiles::new(alloc, files),
        }
    }

    /// The number of the file that is taken up next: the first listed file that is not kept yet, sequence files first.
    pub fn wanted(&self) -> Option<FileNumber>
        ensures first { (recorded : Recorded) → IsOpeningOf (opening_of self.now) recorded
            → option_map (λ number. number.0) result
            ≡ option_map (λ wanted. wanted.1.number) (wanted_file (adopting_files self.now) recorded.store) }
        ensures free { (recorded : Recorded) → IsAdoptingOf self.now recorded
            → IfSome result (λ number. kept_file number.0 (adopting_files self.now) ≡ None) }
    {
        match self.next() {
            Some((_space, file)) => Some(file.number),
            None => None,
        }
    }

    /// The file that is taken up next, with its list.
    fn next(&self) -> Option<(Space, ListedFile)>
        ensures file { (recorded : Recorded) → IsOpeningOf (opening_of self.now) recorded
            → option_map state_file result ≡ wanted_file (adopting_files self.now) recorded.store }
        ensures kept { AreKept (adopting_files self.now) }
    {
        if let Some(file) = self.next_of(Space::Sequence) {
            return Some((Space::Sequence, file));
        }
        match self.next_of(Space::Unsequence) {
            Some(file) => Some((Space::Unsequence, file)),
            None => None,
        }
    }

    /// The first file of a list that is not kept yet.
    fn next_of(&self, space: Space) -> Option<ListedFile>
        ensures file { (recorded : Recorded) → IsOpeningOf (opening_of self.now) recorded
            → option_map file_of result ≡ next_in space (adopting_files self.now) recorded.store }
        ensures kept { AreKept (adopting_files self.now) }
    {
        let kept = self.files.entries(space).len();
        self.opening.files(space).get(kept).copied()
    }

    /// It does nothing, and tells what always holds of what is in memory.
    fn tell_memory(&self)
        ensures { (recorded : Recorded) → IsOpeningOf (opening_of self.now) recorded
            → (memory : InMemory) × IsSoundMemory memory × IsMemoryOf memory recorded.store }
    {
        self.opening.memory().sound();
    }

    /// Takes up the wanted file, whose token this is and of which this was read. Its number, its born and its place are
    /// those of the log, all else is that of the file. Where memory runs out, the token comes back.
    pub fn adopt(&mut self, sealed: F::Sealed, meta: &FileMeta) -> Result<(), AdoptRefused<F>>
        requires wanted { MayAdopt (F.Sealed.file sealed).number self.old }
        requires no_rights { F.Sealed.rights sealed ≡ 0 }
        requires store { (F.Sealed.file sealed).store ≡ (adopting_files self.old).store }
        ensures opening { opening_of self.new ≡ opening_of self.old }
        ensures adopting { (recorded : Recorded) → IsAdoptingOf self.old recorded → IsAdoptingOf self.new recorded }
        ensures adopted { OnOk result ((recorded : Recorded) → IsAdoptingOf self.old recorded
            → IsAdopted (F.Sealed.file sealed) meta.now recorded.store (adopting_files self.old)
            (adopting_files self.new)) }
        ensures described { OnOk result ((recorded : Recorded) (told : ToldContents) → IsAdoptingOf self.old recorded
            → StoreInOrder told recorded.store → IsReadOf meta.now (told (F.Sealed.file sealed).number)
            → AreDescribed told (adopting_files self.old) → AreDescribed told (adopting_files self.new)) }
        ensures told { OnOk result ((kept : ListOf StoredFile) → TellTheirBytes (adopting_files self.old) kept
            → (F.Sealed.file sealed).bytes ≡ kept_bytes kept (F.Sealed.file sealed).number
            → TellTheirBytes (adopting_files self.new) kept) }
        ensures store { (adopting_files self.new).store ≡ (adopting_files self.old).store }
        ensures token { IfErr result (λ refused. refused.sealed ≡ sealed) }
        ensures same { OnErr result (KeepsFileLists (adopting_files self.old) (adopting_files self.new)) }
    {
        self.tell_memory();
        let Some((space, file)) = self.next() else {
            unreachable!()
        };
        match self.prepare(space, file, meta) {
            Ok(described) => {
                self.enlist(space, sealed, described);
                Ok(())
            }
            Err(Memory) => Err(AdoptRefused { sealed }),
        }
    }

    /// What is kept of the file, once all memory is taken that it needs.
    fn prepare(
        &mut self,
        space: Space,
        file: ListedFile,
        meta: &FileMeta,
    ) -> Result<Described, Memory>
        ensures rest { self.new ≡ record self.old { files = adopting_files self.new } }
        ensures files { KeepsFileLists (adopting_files self.old) (adopting_files self.new) }
        ensures place { OnOk result (HasPlaceFor space file.number.0 (adopting_files self.old)
            (adopting_files self.new)) }
        ensures described { IfOk result (λ it. IsKeptOf meta.now (file_of file) it.entry it.series) }
    {
        let described = describe(self.alloc, meta, file.number, file.born)?;
        match space {
            Space::Sequence => self.files.prepare_flush(Some(file.number), None)?,
            Space::Unsequence => self.files.prepare_flush(None, Some(file.number))?,
        }
        Ok(described)
    }

    /// The file goes to the end of its list. It takes no memory.
    fn enlist(&mut self, space: Space, sealed: F::Sealed, described: Described)
        requires place { IsOpen described.entry.number.0 (adopting_files self.old) }
        requires room { HasRoom space (adopting_files self.old).spare }
        requires no_rights { F.Sealed.rights sealed ≡ 0 }
        requires store { (F.Sealed.file sealed).store ≡ (adopting_files self.old).store }
        ensures rest { self.new ≡ record self.old { files = adopting_files self.new } }
        ensures taken { TakesUp space described.entry
            (record { name = F.Sealed.file sealed; series = described.series; rights = 0 })
            (adopting_files self.old) (adopting_files self.new) }
    {
        let Described { entry, series } = described;
        self.files.enlist(
            space,
            Built {
                sealed,
                entry,
                series,
            },
        );
    }
}
