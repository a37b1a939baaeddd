//! The ends of the compactions of a core: a job is committed with its output, or given up. Depends on `engine`,
//! tsdb_tasks and tsdb_memory.
ghost use Rattle.std.specs.Option.{option_map};
ghost use Rattle.std.specs.Prelude.{◌≡◌, ◌+◌, IfSome, false, length, true};
ghost use Rattle.tsdb_tasks.specs.Files.{file_built};
ghost use Rattle.tsdb_tasks.specs.Ending.{IsOutIn, IsOutputNumbered};
ghost use Rattle.tsdb_tasks.specs.Finishing.{AreRunsOf};
ghost use Rattle.tsdb_tasks.specs.States.{sent_files};
ghost use Rattle.tsdb_tasks.specs.CompactionsOutputs.{IsOutputOf};
ghost use Rattle.tsdb_tasks.specs.Jobs.{is_cross};
ghost use Rattle.tsdb_core.specs.Replacements.{EndsFiles, output_place, record_inputs, without_claim};
ghost use Rattle.tsdb_state.specs.Steps.{output_number};

use crate::engine::Core;
use tsdb_base::{FileNumber, List, Space, Stamp};
use tsdb_fileset::Built;
use tsdb_log::LogRecord;
use tsdb_outside::{Failed, Files, Journal};
use tsdb_tasks::{InputRuns, Job, finish, give_up, runs_of};

impl<J: Journal, F: Files> Core<J, F> {
    ghost use Rattle.tsdb_core.specs.Compactions.{IsJobOut};
    ghost use Rattle.tsdb_core.specs.Core.{files_of, is_sequence_claimed, logged_of, store_of};
    ghost use Rattle.tsdb_core.specs.Replacements.{AppendsEnd, IsJobAbandoned, IsJobCommit};

    /// Ends an inner compaction that is out: its output stands in the place of its inputs, and these are on their way
    /// out. Where the log could not be written the job is given up. It takes no memory.
    pub fn commit_inner(&mut self, job: Job<F>, output: Option<Built<F>>) -> Result<(), Failed>
        requires kind { is_cross job ≡ false }
        requires out { IsJobOut F.Right.file self.old job }
        requires output { IsOutputOf F.Right.file F.Sealed.file F.Sealed.rights job output }
        requires store { IfSome output (λ built. (F.Sealed.file built.sealed).store ≡ store_of self.old) }
        ensures { IsJobCommit F.Right.file self.old self.new job (option_map (file_built F.Sealed.file) output) result }
    {
        self.commit_job(job, output)
    }

    /// Ends a cross compaction that is out, as `commit_inner` does.
    pub fn commit_cross(&mut self, job: Job<F>, output: Option<Built<F>>) -> Result<(), Failed>
        requires kind { is_cross job ≡ true }
        requires out { IsJobOut F.Right.file self.old job }
        requires output { IsOutputOf F.Right.file F.Sealed.file F.Sealed.rights job output }
        requires store { IfSome output (λ built. (F.Sealed.file built.sealed).store ≡ store_of self.old) }
        ensures { IsJobCommit F.Right.file self.old self.new job (option_map (file_built F.Sealed.file) output) result }
    {
        self.commit_job(job, output)
    }

    /// Gives a compaction that is out up: nothing of it is claimed any more, and its output is on its way out, if there
    /// is one. It takes no memory.
    pub fn abandon(&mut self, job: Job<F>, output: Option<Built<F>>)
        requires out { IsJobOut F.Right.file self.old job }
        requires output { IfSome output (IsOutputNumbered F.Sealed.rights job) }
        requires store { IfSome output (λ built. (F.Sealed.file built.sealed).store ≡ store_of self.old) }
        ensures { IsJobAbandoned self.old self.new job (option_map (file_built F.Sealed.file) output) }
    {
        self.files.sound();
        self.free_sequence(job.space);
        give_up(&mut self.files, job, output);
    }

    /// Ends a compaction that is out with its record, or gives it up where the log could not be written.
    fn commit_job(&mut self, job: Job<F>, output: Option<Built<F>>) -> Result<(), Failed>
        requires out { IsJobOut F.Right.file self.old job }
        requires output { IsOutputOf F.Right.file F.Sealed.file F.Sealed.rights job output }
        requires store { IfSome output (λ built. (F.Sealed.file built.sealed).store ≡ store_of self.old) }
        ensures { IsJobCommit F.Right.file self.old self.new job (option_map (file_built F.Sealed.file) output) result }
    {
        self.files.sound();
        let runs = runs_of(&self.files, &job);
        let (job, outcome) = self.log_end(job, runs, &output);
        self.free_sequence(job.space);
        self.end_files(job, runs, output, &outcome);
        outcome
    }

    /// Appends the record of the end of a job whose inputs stand in these runs, and hands the job back.
    fn log_end(
        &mut self,
        mut job: Job<F>,
        runs: InputRuns,
        output: &Option<Built<F>>,
    ) -> (Job<F>, Result<(), Failed>)
        requires out { IsJobOut F.Right.file self.old job }
        requires runs { AreRunsOf job runs (files_of self.old) }
        ensures job { result.0 ≡ job }
        ensures logged { AppendsEnd self.old self.new job runs (option_map (file_built F.Sealed.file) output.now)
            result.1 }
        ensures rest { self.new ≡ record self.old { logged = logged_of self.new } }
    {
        let born = born_of(output);
        let listed = self
            .files
            .least_after_replacing(job.space, runs.sequence, runs.unsequence, born);
        let item = LogRecord::Replaced {
            born: job.born,
            space: job.space,
            place: place_of(job.space, runs),
            output: number_of(output),
            sequence: job.sequence,
            unsequence: job.unsequence,
        };
        let outcome = self.logged.append_replaced(&item, listed);
        let Some((sequence, unsequence)) = inputs_in(item) else {
            unreachable!()
        };
        job.sequence = sequence;
        job.unsequence = unsequence;
        (job, outcome)
    }

    /// Ends a job among the files, as its record says.
    fn end_files(
        &mut self,
        job: Job<F>,
        runs: InputRuns,
        output: Option<Built<F>>,
        outcome: &Result<(), Failed>,
    )
        requires out { IsOutIn F.Right.file (files_of self.old) job }
        requires all { length job.sequence + length job.unsequence ≡ length job.inputs }
        requires runs { AreRunsOf job runs (files_of self.old) }
        requires output { IfSome output (IsOutputNumbered F.Sealed.rights job) }
        requires store { IfSome output (λ built. (F.Sealed.file built.sealed).store ≡ store_of self.old) }
        ensures files { EndsFiles job runs (option_map (file_built F.Sealed.file) output) (files_of self.old)
            (files_of self.new) outcome.now }
        ensures rest { self.new ≡ record self.old { files = files_of self.new } }
    {
        match outcome {
            Ok(()) => finish(&mut self.files, job, runs, output),
            Err(_failed) => give_up(&mut self.files, job, output),
        }
    }

    /// A job of this space has ended: it has the sequence list claimed no more.
    fn free_sequence(&mut self, space: Space)
        ensures { self.new ≡ record self.old {
          sequence_claimed = without_claim space (is_sequence_claimed self.old);
        } }
    {
        match space {
            Space::Sequence => self.sequence_claimed = false,
            Space::Unsequence => (),
        }
    }
}

/// The numbers of the inputs of each list in the record, where it replaces files.
fn inputs_in(item: LogRecord) -> Option<(List<FileNumber>, List<FileNumber>)>
    ensures { result ≡ record_inputs item }
{
    match item {
        LogRecord::Replaced {
            sequence,
            unsequence,
            ..
        } => Some((sequence, unsequence)),
        _other => None,
    }
}

/// The number of the output in a record, 0 for none.
fn number_of<F: Files>(output: &Option<Built<F>>) -> FileNumber
    ensures { result ≡ record { 0 = output_number (sent_files (option_map (file_built F.Sealed.file) output.now)) } }
{
    match output {
        Some(built) => built.entry.number,
        None => FileNumber(0),
    }
}

/// The born of the output, if there is one.
fn born_of<F: Files>(output: &Option<Built<F>>) -> Option<Stamp>
    ensures { result ≡ option_map (λ built. built.entry.born) output.now }
{
    match output {
        Some(built) => Some(built.entry.born),
        None => None,
    }
}

/// The place of the output of a job whose inputs stand in these runs.
fn place_of(space: Space, runs: InputRuns) -> u64
    ensures { result ≡ output_place space runs }
{
    match space {
        Space::Sequence => runs.sequence.first as u64,
        Space::Unsequence => runs.unsequence.first as u64,
    }
}
