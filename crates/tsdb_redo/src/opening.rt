//! A log that is replayed, record after record. Depends on `changes`, `rows` and `file_records`, which have the records
//! of each kind, and on `lists` and `numbers`.
ghost use Rattle.std.specs.Prelude.{◌≡◌, ◌<◌, ◌≤◌, ◌∷◌, [], IfSome, IsErrOf, OnErr, OnOk};
ghost use Rattle.tsdb_log.specs.declared.record.LogRecord.{LogRecord as Record};
ghost use Rattle.tsdb_memory.specs.StateOfMemory.{IsMemoryOf};
ghost use Rattle.tsdb_redo.specs.Lists.{listed_files};
ghost use Rattle.tsdb_redo.specs.Opening.{IsOpeningOf, greatest, list_of, next_number, with_stored};
ghost use Rattle.tsdb_redo.specs.Redone.{IsReplayed, IsWithoutReplay, ShowsTheSame};
ghost use Rattle.tsdb_state.specs.Stores.{Recorded, store_steps};
ghost use Rattle.tsdb_base.specs.Limits.{end_of_numbers};

use crate::fault::RedoFault;
use crate::lists::{FileLists, ListedFile};
use crate::numbers::NamedNumbers;
use crate::replacing::Replacing;
use std::alloc::Global;
use tsdb_base::{FileNumber, Space};
use tsdb_log::LogRecord;
use tsdb_memory::MemoryStore;
use tsdb_model::Schema;

/// What the records of a log give: what is in memory, the two lists of files, and the numbers of files that were named.
#[derive(Drop)]
pub struct Opening {
    pub(crate) alloc: Global,
    pub(crate) memory: MemoryStore,
    pub(crate) files: FileLists,
    pub(crate) named: NamedNumbers,
}

impl Opening {
    /// What a log without records gives: a new store.
    pub fn new(alloc: Global) -> Opening
        ensures { IsOpeningOf result store_steps.new_store }
    {
        Opening {
            alloc,
            memory: MemoryStore::new(alloc),
            files: FileLists::new(alloc),
            named: NamedNumbers::new(alloc),
        }
    }

    /// Replays the next record of the log, by the effect that it has in a running engine. `NoReplay` comes exactly
    /// where it has none, and changes nothing.
    pub fn redo(&mut self, item: LogRecord) -> Result<(), RedoFault>
        ensures replayed { OnOk result (IsReplayed self.old self.new item) }
        ensures no_replay { IsErrOf result RedoFault.NoReplay → IsWithoutReplay self.old item }
        ensures unchanged { IsErrOf result RedoFault.NoReplay → self.new ≡ self.old }
        ensures same { OnErr result (ShowsTheSame self.old self.new) }
    {
        match item {
            LogRecord::Create {
                path,
                data_type,
                encoding,
            } => self.redo_create(Schema {
                path,
                data_type,
                encoding,
            }),
            LogRecord::Insert { time, cells } => self.redo_insert(time, cells),
            LogRecord::Delete { path, range } => self.redo_delete(path, &range),
            LogRecord::Freeze => self.redo_freeze(),
            LogRecord::Flushed {
                sequence,
                unsequence,
            } => self.redo_flushed(sequence, unsequence),
            LogRecord::Replaced {
                born,
                space,
                place,
                output,
                sequence,
                unsequence,
            } => self.redo_replaced(&Replacing {
                born,
                space,
                place,
                output,
                sequence,
                unsequence,
            }),
            LogRecord::Snapshot(_) => Err(RedoFault::NoReplay),
        }
    }

    /// What is in memory.
    pub fn memory(&self) -> &MemoryStore
        ensures { (recorded : Recorded) → IsOpeningOf self.now recorded → IsMemoryOf result.now recorded.store }
    {
        &self.memory
    }

    /// What is in memory, for the engine that goes on with it.
    pub fn into_memory(self) -> MemoryStore
        ensures { (recorded : Recorded) → IsOpeningOf self recorded → IsMemoryOf result recorded.store }
    {
        let Opening {
            alloc: _,
            memory,
            files: _,
            named: _,
        } = self;
        memory
    }

    /// The files of a list, in its order.
    pub fn files(&self, space: Space) -> &[ListedFile]
        ensures { (recorded : Recorded) → IsOpeningOf self.now recorded
            → listed_files result.now ≡ list_of space recorded.store }
    {
        match space {
            Space::Sequence => self.files.sequence.as_slice(),
            Space::Unsequence => self.files.unsequence.as_slice(),
        }
    }

    /// The number that the next file gets: one more than the greatest that a record has named, and than `stored`, the
    /// greatest number in the store.
    pub fn next_file(&self, stored: Option<FileNumber>) -> FileNumber
        requires { IfSome stored (λ number. number.0 < end_of_numbers) }
        ensures number { (recorded : Recorded) → IsOpeningOf self.now recorded
            → result.0 ≡ next_number stored recorded.named }
        ensures end { result.0 ≤ end_of_numbers }
    {
        FileNumber(greater(self.named.greatest(), stored) + 1)
    }
}

/// The greater of a number that was named and the greatest in the store.
fn greater(named: u64, stored: Option<FileNumber>) -> u64
    requires named { named < end_of_numbers }
    requires stored { IfSome stored (λ number. number.0 < end_of_numbers) }
    ensures number { result ≡ greatest (with_stored stored (named ∷ [])) }
    ensures end { result < end_of_numbers }
{
    match stored {
        Some(stored) => stored.0.max(named),
        None => named,
    }
}
