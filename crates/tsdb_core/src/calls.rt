//! The calls of a core that change it. Depends on `engine`.
ghost use Rattle.std.specs.Prelude.{◌≡◌, ◌⊎◌, ◌↔◌, ◌<◌, IsTrue, OnOk, length};
ghost use Rattle.tsdb_fileset.specs.Closing.{ArePutBack, AreNumbersRising, names_at};
ghost use Rattle.tsdb_fileset.specs.Places.{AreUnread};
ghost use Rattle.tsdb_log.specs.declared.record.LogRecord.{LogRecord};
ghost use Rattle.tsdb_memory.specs.Answers.{IsCreateAnswer, IsDeleteAnswer, IsFreezeAnswer};
ghost use Rattle.tsdb_memory.specs.Changes.{HasCreated, HasFrozen, MemoryAfter};
ghost use Rattle.tsdb_model.specs.Commands.{IsSchema};
ghost use Rattle.tsdb_model.specs.declared.command.Command.{Command};
ghost use Rattle.tsdb_outside.specs.Causes.{HasCause};
ghost use Rattle.tsdb_outside.specs.Disk.{WhereTold};
ghost use Rattle.tsdb_memory.specs.Fits.{HasNoPairPoint};
ghost use Rattle.tsdb_base.specs.Limits.{max_frozen};

use crate::engine::Core;
use tsdb_base::{Answer, Range, Space};
use tsdb_model::Schema;
use tsdb_outside::{Failed, Files, Journal};
use tsdb_path::Path;

impl<J: Journal, F: Files> Core<J, F> {
    ghost use Rattle.tsdb_core.specs.Commands.{DeletesPoints, IsCoreCommand, KeepsFiles};
    ghost use Rattle.tsdb_core.specs.Core.{HasStateCounts, files_of, logged_of, store_of, working_of};
    ghost use Rattle.tsdb_core.specs.Rows.{CanFreezeNow};
    ghost use Rattle.tsdb_core.specs.Sweeps.{IsSwept};
    ghost use Rattle.tsdb_core.specs.Worlds.{CoreFollowsMap, CoreKeepsWorld};
    ghost use Rattle.tsdb_fileset.specs.Files.{AreKept};
    ghost use Rattle.tsdb_memory.specs.Closing.{IsClosed};
    ghost use Rattle.tsdb_memory.specs.Commands.{NeedsNothing, create_record};
    ghost use Rattle.tsdb_memory.specs.LogState.{memory_of};

    /// Creates a series, which is numbered behind the others.
    pub fn create(&mut self, schema: &Schema) -> Answer
        requires { IsSchema schema.now }
        ensures answer { IsCreateAnswer (memory_of (logged_of self.old)) schema.now.path result }
        ensures command { IsCoreCommand self.old self.new (create_record schema.now) NeedsNothing result }
        ensures memory { MemoryAfter (HasCreated schema.now) (memory_of (logged_of self.old))
            (memory_of (logged_of self.new)) result }
        ensures map { CoreFollowsMap self.old self.new (Command.Create schema.now) result }
    {
        self.logged.create(schema)
    }

    /// Deletes the points of a series in a range.
    pub fn delete(&mut self, series: &Path, range: &Range) -> Answer
        ensures answer { IsDeleteAnswer (memory_of (logged_of self.old)) series.now result }
        ensures command { IsCoreCommand self.old self.new (LogRecord.Delete series.now range.now) NeedsNothing result }
        ensures memory { DeletesPoints series.now range.now self.old self.new result }
        ensures map { CoreFollowsMap self.old self.new (Command.Delete series.now range.now) result }
    {
        let listed = self.files.least_born();
        self.logged.delete(series, range, listed)
    }

    /// Freezes the working pair, where it has a point. At most one pair may be frozen before then.
    pub fn freeze(&mut self) -> Answer
        requires { HasNoPairPoint (working_of self.old)
            ⊎ (length (memory_of (logged_of self.old)).frozen < max_frozen) }
        ensures answer { IsFreezeAnswer result }
        ensures idle { HasNoPairPoint (working_of self.old) → (result ≡ Answer.Done) × (self.new ≡ self.old) }
        ensures command { ¬ HasNoPairPoint (working_of self.old)
            → IsCoreCommand self.old self.new LogRecord.Freeze NeedsNothing result }
        ensures memory { ¬ HasNoPairPoint (working_of self.old) → MemoryAfter HasFrozen (memory_of (logged_of self.old))
            (memory_of (logged_of self.new)) result }
        ensures emptied { result ≡ Answer.Done → HasNoPairPoint (working_of self.new) }
        ensures can { ¬ HasNoPairPoint (working_of self.old) → CanFreezeNow self.old }
        ensures world { CoreKeepsWorld self.old self.new }
        ensures kept { KeepsFiles self.old self.new }
    {
        if self.is_idle() {
            return Answer::Done;
        }
        self.logged.freeze()
    }

    /// Whether the working pair has no point.
    fn is_idle(&self) -> bool
        ensures idle { IsTrue result ↔ HasNoPairPoint (working_of self.now) }
        ensures counts { HasStateCounts self.now }
    {
        self.tell_counts();
        let working = self.logged.memory().working();
        working.points(Space::Sequence) == 0 && working.points(Space::Unsequence) == 0
    }

    /// It does nothing, and tells that the working pair of each state counts what the one in memory does.
    pub(crate) fn tell_counts(&self)
        ensures { HasStateCounts self.now }
    {
        let memory = self.logged.memory();
        memory.sound();
        memory.working().sound();
    }

    /// Removes from the store each file on its way out of which no right is out, and that no record in doubt names, in
    /// their order, and returns how many. After `Ok` no removal has failed. After `Failed` the file that could not be
    /// removed is spent too, and those behind it were not tried.
    pub fn sweep(&mut self, port: &mut F::Port) -> Result<u64, Failed>
        requires store { F.Port.store port.old ≡ store_of self.old }
        ensures swept { IsSwept self.old self.new result }
        ensures world { CoreKeepsWorld self.old self.new }
        ensures same_store { F.Port.store port.new ≡ F.Port.store port.old }
        ensures no_fault { OnOk result (F.Port.faults port.new ≡ F.Port.faults port.old) }
        ensures cause { HasCause (F.Port.faults port.old) (F.Port.faults port.new) result }
    {
        let (first, second) = self.logged.files_in_doubt();
        self.files.sweep(port, [first, second])
    }

    /// Closes a gate in doubt, then gives each token back to its store, and the journal to the caller.
    pub fn close(self, files: &mut F) -> J
        requires no_rights { AreUnread (files_of self).places }
        requires store { F.store files.old ≡ store_of self }
        ensures log { IsClosed (logged_of self) (J.state result) (J.faults result) }
        ensures at_rest { WhereTold (ArePutBack (names_at (files_of self).places)) (F.at_rest files.old)
            (F.at_rest files.new) }
        ensures rising { AreNumbersRising (files_of self).places }
        ensures kept { AreKept (files_of self) }
        ensures counts { HasStateCounts self }
        ensures same_store { F.store files.new ≡ F.store files.old }
        ensures faults { F.faults files.new ≡ F.faults files.old }
    {
        self.tell_counts();
        let Core {
            alloc: _,
            logged,
            files: kept,
            limit: _,
            next_file: _,
            flushed_below: _,
            sequence_claimed: _,
        } = self;
        let journal = logged.close();
        kept.close(files);
        journal
    }
}
