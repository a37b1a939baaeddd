//! The replay of the records of files: a flush that was written, and files that were replaced. Depends on `opening`,
//! `lists`, `numbers` and `replacing`.
ghost use Rattle.std.specs.Prelude.{◌≡◌, ◌↔◌, ◌∷◌, ◌≢◌, [], IfSome, IsTrue, None};
ghost use Rattle.tsdb_log.specs.declared.record.LogRecord.{LogRecord};
ghost use Rattle.tsdb_redo.specs.Redone.{IsRedone};
ghost use Rattle.tsdb_redo.specs.FileRecords.{HasNoFlush, CanRedoFlush, IsReplacing, replaced_record};

use crate::fault::RedoFault;
use crate::opening::Opening;
use crate::replacing::Replacing;
use tsdb_base::{FileNumber, Space, Stamp};

/// The number that stands for no file.
const NO_FILE: FileNumber = FileNumber(0);

impl Opening {
    /// The oldest frozen pair was written to these files.
    pub(crate) fn redo_flushed(
        &mut self,
        sequence: FileNumber,
        unsequence: FileNumber,
    ) -> Result<(), RedoFault>
        ensures { IsRedone self.old self.new (LogRecord.Flushed sequence unsequence) result }
    {
        let Some(born) = self.flushed_born(sequence, unsequence) else {
            return Err(RedoFault::NoReplay);
        };
        self.files.reserve()?;
        self.named.name(sequence, unsequence)?;
        self.files.add_flushed(sequence, unsequence, born);
        self.memory.finish_flushed(self.files.least);
        Ok(())
    }

    /// The born of the oldest frozen pair, if these can be the numbers of its files: there is one for exactly each part
    /// with points, and it is new.
    fn flushed_born(&self, sequence: FileNumber, unsequence: FileNumber) -> Option<Stamp>
        ensures some { IfSome result (CanRedoFlush self.now sequence.0 unsequence.0) }
        ensures none { result ≡ None → HasNoFlush self.now sequence.0 unsequence.0 }
    {
        let oldest = self.memory.frozen().first()?;
        if (sequence != NO_FILE) != self.memory.oldest_has(Space::Sequence) {
            return None;
        }
        if (unsequence != NO_FILE) != self.memory.oldest_has(Space::Unsequence) {
            return None;
        }
        if !self.named.can_name(sequence, unsequence) {
            return None;
        }
        Some(oldest.born())
    }

    /// Files were replaced by one file, or by none.
    pub(crate) fn redo_replaced(&mut self, item: &Replacing) -> Result<(), RedoFault>
        ensures { IsRedone self.old self.new (replaced_record item.now) result }
    {
        if !self.can_replace(item) {
            return Err(RedoFault::NoReplay);
        }
        self.files.reserve()?;
        self.named.name(item.output, NO_FILE)?;
        self.files.replace(item);
        self.memory.finish_replaced(self.files.least);
        Ok(())
    }

    /// Whether the inputs stand as the record says, the output's born is from theirs to the stamp, and its number is
    /// new.
    fn can_replace(&self, item: &Replacing) -> bool
        ensures { IsTrue result ↔ IsReplacing self.now item.now }
    {
        if item.born.0 > self.memory.stamp() {
            return false;
        }
        if !self.named.can_name(item.output, NO_FILE) {
            return false;
        }
        self.files.can_replace(item)
    }
}
