//! The flushes of a core: one is taken, and then committed or given up. Depends on `engine`, `commit` and `ending`.
ghost use Rattle.std.specs.Prelude.{◌≡◌, ◌<◌, ◌≤◌, ◌+◌, ◌↔◌, ℕ, List, IfOk, IsTrue, OnErr, length, map};
ghost use Rattle.std.specs.List.{AllByRecursion as Each};
ghost use Rattle.std.specs.declared.option.Option.TheVariants.{None};
ghost use Rattle.std.specs.declared.result.Result.TheVariants.{Ok};
ghost use Rattle.tsdb_core.specs.Ending.{IsLeastWith, number_for, numbers_if};
ghost use Rattle.tsdb_core.specs.Flushes.{IsDrawnFrom, IsDue};
ghost use Rattle.tsdb_base.specs.Lists.{if_some};
ghost use Rattle.tsdb_memory.specs.Least.{IsLeastOf};
ghost use Rattle.tsdb_memory.specs.Model.{frozen_in};
ghost use Rattle.tsdb_base.specs.Limits.{end_of_numbers};

use crate::commit::{Commit, CoreFault};
use crate::ending::end_part;
use crate::engine::Core;
use tsdb_base::limits::END_OF_NUMBERS;
use tsdb_base::{FileNumber, Memory, Space, Stamp};
use tsdb_fileset::{FlushJob, Flushed, take};
use tsdb_memory::{FrozenPair, lesser};
use tsdb_outside::{Failed, Files, Journal};

impl<J: Journal, F: Files> Core<J, F> {
    ghost use Rattle.tsdb_tasks.specs.Files.{AreDone, AreDoneSoFar, new_files};
    ghost use Rattle.tsdb_core.specs.Core.{files_of, flushed_below, logged_of, next_of, store_of};
    ghost use Rattle.tsdb_core.specs.Flushes.{HasEndedFlush, IsAbandoned, IsCommit, IsCommitAnswer, IsLoggedAs};
    ghost use Rattle.tsdb_core.specs.Flushes.{IsNotTaken, IsOldestPair, IsOut, IsTakeAnswer, IsFlushTaken};
    ghost use Rattle.tsdb_core.specs.Flushes.{HasOldestBorn, IsFlushTakenOrNot};
    ghost use Rattle.tsdb_core.specs.Flushes.{TakesMemory, below_after};
    ghost use Rattle.tsdb_core.specs.Worlds.{CoreKeepsWorld};
    ghost use Rattle.tsdb_memory.specs.LogState.{memory_of};

    /// The job of the oldest frozen pair, where it was frozen at this stamp or before it. The pair stays frozen. All
    /// memory that the job's end needs is taken.
    pub fn take_flush(&mut self, upto: Stamp) -> Result<Option<FlushJob>, CoreFault>
        ensures answer { IsTakeAnswer upto.0 (next_of self.old) (memory_of (logged_of self.old)) result }
        ensures none { result ≡ Ok None → Each (λ pair. upto.0 < pair.born) (memory_of (logged_of self.old)).frozen }
        ensures memory { TakesMemory self.old self.new }
        ensures taken { IsFlushTakenOrNot self.old self.new result }
        ensures world { CoreKeepsWorld self.old self.new }
    {
        // (it tells that borns of frozen pairs do not fall)
        self.logged.memory().sound();
        if !has_due(self.logged.memory().frozen(), upto) {
            return Ok(None);
        }
        if self.next_file > END_OF_NUMBERS - 2 {
            return Err(CoreFault::Full {
                counter: self.next_file,
            });
        }
        match self.take_oldest() {
            Ok(job) => Ok(Some(job)),
            Err(Memory) => Err(CoreFault::Memory),
        }
    }

    /// The job of the oldest frozen pair.
    fn take_oldest(&mut self) -> Result<FlushJob, Memory>
        requires frozen { 0 < length (memory_of (logged_of self.old)).frozen }
        requires left { next_of self.old + 2 ≤ end_of_numbers }
        ensures memory { TakesMemory self.old self.new }
        ensures taken { IfOk result (IsFlushTaken self.old self.new) }
        ensures not { OnErr result (IsNotTaken self.old self.new) }
        ensures world { CoreKeepsWorld self.old self.new }
    {
        self.logged.reserve_flushed()?;
        let job = take(self.logged.memory(), self.next_file)?;
        self.files.prepare_flush(job.sequence, job.unsequence)?;
        self.next_file += count_drawn(&job);
        Ok(job)
    }

    /// Lists the files of a job that is out, one for each number that was drawn for it, and its pair is frozen no
    /// longer. Where it was already, or the log could not be written, they are on their way out. It takes no memory.
    pub fn commit_flush(&mut self, job: FlushJob, files: Flushed<F>) -> Commit
        requires out { IsOut self.old job }
        requires done { AreDone F.Sealed.file F.Sealed.rights (store_of self.old) job files }
        ensures { IsCommit self.old self.new job (new_files F.Sealed.file files) result }
    {
        let commit = self.log_flush(&job);
        self.end_flush(&job, files, commit);
        commit
    }

    /// Gives a job that is out up: those of its files that are there are on their way out, and the rest stays. It takes
    /// no memory.
    pub fn abandon_flush(&mut self, job: FlushJob, files: Flushed<F>)
        requires out { IsOut self.old job }
        requires done { AreDoneSoFar F.Sealed.file F.Sealed.rights (store_of self.old) job files }
        ensures { IsAbandoned self.old self.new job (new_files F.Sealed.file files) }
    {
        self.end_flush(&job, files, Commit::Gone);
    }

    /// Appends the record of the flush, and its pair leaves memory. Where the oldest pair is another one, nothing is
    /// done.
    fn log_flush(&mut self, job: &FlushJob) -> Commit
        requires { IsOut self.old job.now }
        ensures answer { IsCommitAnswer self.old job.now result }
        ensures logged { IsLoggedAs self.old self.new job.now result }
        ensures rest { self.new ≡ record self.old { logged = logged_of self.new } }
    {
        if !self.is_oldest(job) {
            return Commit::Gone;
        }
        let listed = least_with(self.files.least_born(), job);
        let sequence = number(job.sequence);
        match self
            .logged
            .append_flushed(sequence, number(job.unsequence), listed)
        {
            Ok(()) => Commit::Done,
            Err(Failed) => Commit::Device,
        }
    }

    /// Whether the oldest frozen pair is that of the job. Two pairs may have one born, in a store that is not in order.
    fn is_oldest(&self, job: &FlushJob) -> bool
        ensures { IsTrue result ↔ IsOldestPair self.now job.now }
    {
        self.has_oldest_born(job) && is_drawn_from(job, self.flushed_below)
    }

    /// Whether the oldest frozen pair has the born of the job.
    fn has_oldest_born(&self, job: &FlushJob) -> bool
        ensures { IsTrue result ↔ HasOldestBorn job.now (memory_of (logged_of self.now)) }
    {
        match self.logged.memory().frozen().first() {
            Some(oldest) => oldest.born().0 == job.born.0,
            None => false,
        }
    }

    /// Ends a job that is out: each of its files is listed or on its way out, as the commit says.
    fn end_flush(&mut self, job: &FlushJob, files: Flushed<F>, commit: Commit)
        requires out { IsOut self.old job.now }
        requires done { AreDoneSoFar F.Sealed.file F.Sealed.rights (store_of self.old) job.now files }
        ensures ends { HasEndedFlush self.old self.new job.now (new_files F.Sealed.file files) commit }
        ensures rest { self.new
            ≡ record self.old { files = files_of self.new; flushed_below = flushed_below self.new } }
    {
        self.flushed_below = self.below_after(commit);
        let Flushed {
            sequence,
            unsequence,
        } = files;
        end_part::<F>(
            &mut self.files,
            Space::Sequence,
            job.sequence,
            sequence,
            commit,
        );
        end_part::<F>(
            &mut self.files,
            Space::Unsequence,
            job.unsequence,
            unsequence,
            commit,
        );
    }

    /// The number below which flushes are of pairs that are gone, after a commit.
    fn below_after(&self, commit: Commit) -> u64
        ensures { result ≡ below_after commit (next_of self.now) (flushed_below self.now) }
    {
        match commit {
            Commit::Done => self.next_file,
            Commit::Gone | Commit::Device => self.flushed_below,
        }
    }
}

/// Whether the oldest of the pairs was frozen at the stamp or before it. All others were frozen later.
fn has_due(frozen: &[FrozenPair], upto: Stamp) -> bool
    ensures { IsTrue result ↔ IsDue upto.0 (map frozen_in frozen.now) }
{
    match frozen.first() {
        Some(oldest) => is_reached(oldest.born(), upto),
        None => false,
    }
}

/// Whether the stamp is at most the other.
fn is_reached(born: Stamp, upto: Stamp) -> bool
    ensures { IsTrue result ↔ (born.0 ≤ upto.0) }
{
    born.0 <= upto.0
}

/// Whether no number of the job is below this one.
fn is_drawn_from(job: &FlushJob, below: u64) -> bool
    ensures { IsTrue result ↔ IsDrawnFrom below job.now }
{
    is_from(job.sequence, below) && is_from(job.unsequence, below)
}

/// Whether the number, where there is one, is not below the other.
fn is_from(number: Option<FileNumber>, below: u64) -> bool
    ensures { IsTrue result ↔ Each (λ n. below ≤ n) (numbers_if number) }
{
    match number {
        Some(number) => below <= number.0,
        None => true,
    }
}

/// How many numbers were drawn for the job.
fn count_drawn(job: &FlushJob) -> u64
    ensures { result ≡ length (if_some job.now.sequence) + length (if_some job.now.unsequence) }
{
    u64::from(job.sequence.is_some()) + u64::from(job.unsequence.is_some())
}

/// The number in a record, 0 for none.
fn number(number: Option<FileNumber>) -> FileNumber
    ensures { result ≡ number_for number }
{
    number.unwrap_or(FileNumber(0))
}

/// The least born of the listed files and of those of the job.
fn least_with(least: Option<Stamp>, job: &FlushJob) -> Option<Stamp>
    ensures { (borns : List ℕ) → IsLeastOf least borns → IsLeastWith result job.now borns }
{
    if count_drawn(job) == 0 {
        return least;
    }
    Some(lesser(least, job.born))
}
