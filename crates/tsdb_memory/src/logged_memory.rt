//! The log with what is in memory. Depends on `framing`, `store` and tsdb_frames.
ghost use Rattle.std.specs.Prelude.{◌≡◌, ◌≤◌, [], ◌∷◌, List, false, map, IfOk, None, Some};
ghost use Rattle.tsdb_base.specs.declared.ids.FileNumber.{FileNumber};
ghost use Rattle.tsdb_base.specs.Lists.{if_some};
ghost use Rattle.tsdb_log.specs.declared.record.LogRecord.{LogRecord};
ghost use Rattle.tsdb_memory.specs.LogState.{two_numbers};
ghost use Rattle.tsdb_state.specs.Records.{names, new_numbers};
ghost use Rattle.tsdb_memory.specs.Answers.{answer_by};
ghost use Rattle.tsdb_log.specs.Spelling.{FitsFrame, HasFewParts};

use crate::framing::frame_record;
use crate::store::MemoryStore;
use std::alloc::Global;
use tsdb_base::{Answer, FileNumber};
use tsdb_frames::Frames;
use tsdb_log::LogRecord;
use tsdb_outside::{Journal, StoreFault};

/// A log, and what is in memory of its records.
#[derive(Drop)]
pub struct LoggedMemory<J: Journal> {
    pub(crate) frames: Frames<J>,
    pub(crate) memory: MemoryStore,
    // The bytes of one record, with room that the next one uses.
    pub(crate) framed: Vec<u8>,
    // The files that the record named which was appended last: it may be in doubt.
    pub(crate) doubted: (Option<FileNumber>, Option<FileNumber>),
}

impl<J: Journal> LoggedMemory<J> {
    ghost use Rattle.tsdb_memory.specs.Closing.{IsClosed};
    ghost use Rattle.tsdb_frames.specs.Frames.{is_in_doubt};
    ghost use Rattle.tsdb_memory.specs.Appends.{HasEnded};
    ghost use Rattle.tsdb_memory.specs.LogState.{HasLog, log_of, memory_of, framed_room};

    /// The log with what is in memory of it.
    pub fn new(alloc: Global, frames: Frames<J>, memory: MemoryStore) -> LoggedMemory<J>
        ensures log { log_of result ≡ frames }
        ensures memory { memory_of result ≡ memory }
    {
        LoggedMemory {
            frames,
            memory,
            framed: Vec::new(alloc),
            doubted: (None, None),
        }
    }

    /// What is in memory.
    pub fn memory(&self) -> &MemoryStore
        ensures { result.now ≡ memory_of self.now }
    {
        &self.memory
    }

    /// The files that a record in doubt names: they are on their way out, and may be listed after a stop. There are
    /// none where no gate is in doubt.
    pub fn files_in_doubt(&self) -> (Option<FileNumber>, Option<FileNumber>)
        ensures named { (items : List LogRecord) (item : LogRecord) → HasLog self.now items (Some item)
            → two_numbers result ≡ names item }
        ensures none { is_in_doubt (log_of self.now) ≡ false → two_numbers result ≡ [] }
    {
        if self.frames.doubt() {
            self.doubted
        } else {
            (None, None)
        }
    }

    /// Closes a gate in doubt, and gives the journal back.
    pub fn close(self) -> J
        ensures { IsClosed self (J.state result) (J.faults result) }
    {
        let mut frames = self.frames;
        // Where it fails, the gate stays in doubt.
        let _ = frames.settle();
        frames.end()
    }

    /// Appends a record, after a gate in doubt is closed, and hands it back. Where there is room for its bytes, it takes
    /// no memory.
    pub(crate) fn log_record(&mut self, item: LogRecord) -> Result<LogRecord, StoreFault>
        requires few { HasFewParts item }
        requires fits { FitsFrame item }
        ensures memory { memory_of self.new ≡ memory_of self.old }
        ensures end { HasEnded self.old self.new item result }
        ensures item { IfOk result (λ back. back ≡ item) }
        ensures capacity { framed_room self.old ≤ framed_room self.new }
    {
        self.append(&item)?;
        Ok(item)
    }

    /// The same for a record that is lent.
    pub(crate) fn append(&mut self, item: &LogRecord) -> Result<(), StoreFault>
        requires few { HasFewParts item.now }
        requires fits { FitsFrame item.now }
        ensures memory { memory_of self.new ≡ memory_of self.old }
        ensures end { HasEnded self.old self.new item.now result }
        ensures capacity { framed_room self.old ≤ framed_room self.new }
    {
        frame_record(item, &mut self.framed)?;
        self.frames.settle()?;
        self.doubted = named_files(item);
        self.frames.append(&self.framed)?;
        Ok(())
    }
}

/// The file of a number, none where it is 0.
fn some_file(number: FileNumber) -> Option<FileNumber>
    ensures { map (λ (file : FileNumber). file.0) (if_some result) ≡ new_numbers (number.0 ∷ []) }
{
    if number.0 == 0 { None } else { Some(number) }
}

/// The files that a record names and that were not listed before it.
fn named_files(item: &LogRecord) -> (Option<FileNumber>, Option<FileNumber>)
    ensures { two_numbers result ≡ names item.now }
{
    match item {
        LogRecord::Flushed {
            sequence,
            unsequence,
        } => (some_file(*sequence), some_file(*unsequence)),
        LogRecord::Replaced { output, .. } => (some_file(*output), None),
        _ => (None, None),
    }
}

/// What a change answers, by how its record was appended.
pub(crate) fn answer_of(outcome: Result<(), StoreFault>) -> Answer
    ensures { result ≡ answer_by outcome }
{
    match outcome {
        Ok(()) => Answer::Done,
        Err(StoreFault::Failed) => Answer::Device,
        Err(StoreFault::Memory) => Answer::Memory,
    }
}
