//! The compactions of a core that begin. Depends on `engine` and `commit`, and on `tsdb_base` for the limit of
//! numbers.
ghost use Rattle.std.specs.Prelude.{◌≡◌, ◌+◌, ◌≤◌, ◌↔◌, IfNone, IfOk, IfSome, IsTrue, OnErr, false, true};
ghost use Rattle.std.specs.declared.result.Result.TheVariants.{Err};
ghost use Rattle.tsdb_base.specs.declared.ids.Space.TheVariants.{Sequence, Unsequence};
ghost use Rattle.tsdb_tasks.specs.declared.finishing.InputRuns.{InputRuns as RunsOf};
ghost use Rattle.tsdb_tasks.specs.Jobs.{is_cross};
ghost use Rattle.tsdb_core.specs.Beginnings.{IsBeginAnswer, claimed_by};
ghost use Rattle.tsdb_core.specs.declared.commit.CoreFault.TheVariants.{Memory as NoMemory};
ghost use Rattle.tsdb_fileset.specs.Replacing.{run_length};
ghost use Rattle.tsdb_base.specs.Limits.{end_of_numbers};

use crate::commit::CoreFault;
use crate::engine::Core;
use tsdb_base::limits::END_OF_NUMBERS;
use tsdb_base::{FileNumber, Memory, Space, Stamp};
use tsdb_outside::{Files, Journal};
use tsdb_plan::{Run, cross, have_rising_hulls, inner};
use tsdb_tasks::{InputRuns, Job, JobSeries, TakenInputs, job_series, take_job_inputs};

/// No file of a list.
const NO_FILES: Run = Run { first: 0, end: 0 };

/// The most inputs of a job from one list that a record names.
const MAX_RECORD_INPUTS: usize = 100_000_000;

impl<J: Journal, F: Files> Core<J, F> {
    ghost use Rattle.tsdb_core.specs.Beginnings.{ArePlanned, HaveHulls, IsBegun, IsBegunOrNot, IsCrossRuns};
    ghost use Rattle.tsdb_core.specs.Beginnings.{IsInnerRuns, IsNotBegun, may_cross};
    ghost use Rattle.tsdb_core.specs.Core.{IsSeen, files_of, next_of};
    ghost use Rattle.tsdb_core.specs.Worlds.{CoreKeepsWorld};
    ghost use Rattle.tsdb_fileset.specs.Files.{AreKept};
    ghost use Rattle.tsdb_memory.specs.LogState.{Outside};
    ghost use Rattle.tsdb_state.specs.State.{EngineState};

    /// The job of the first files of the list of the space that one job may rewrite: the inner plan of the list. There
    /// is none of the sequence list while a job has claimed it. All memory that the job's end needs is taken.
    pub fn begin_inner(&mut self, space: Space) -> Result<Option<Job<F>>, CoreFault>
        ensures answer { IsBeginAnswer (IsInnerRuns space self.old) (next_of self.old) result }
        ensures begun { IsBegunOrNot F.Right.file space (IsInnerRuns space self.old) self.old self.new result }
        ensures kind { IfOk result (λ begun. IfSome begun (λ job. is_cross job ≡ false)) }
        ensures world { CoreKeepsWorld self.old self.new }
    {
        match self.inner_runs(space) {
            Some(runs) => self.begin(space, runs),
            None => Ok(None),
        }
    }

    /// The job of the first late files with the sequence files that they meet: the cross plan of the lists. There is
    /// none while a job has claimed the sequence list. All memory that the job's end needs is taken.
    ///
    /// Hulls are compared where no job has claimed the sequence list and there is a late file. Where those of a listed
    /// file are not in order it answers `Memory`. In each state that the core shows they are.
    pub fn begin_cross(&mut self) -> Result<Option<Job<F>>, CoreFault>
        ensures answer { HaveHulls self.old → IsBeginAnswer (IsCrossRuns self.old) (next_of self.old) result }
        ensures begun { IsBegunOrNot F.Right.file Sequence (IsCrossRuns self.old) self.old self.new result }
        ensures kind { IfOk result (λ begun. IfSome begun (λ job. is_cross job ≡ true)) }
        ensures disorder { ¬ HaveHulls self.old → result ≡ Err NoMemory }
        ensures order { (outside : Outside) (engine : EngineState) → IsSeen self.old outside engine
            → HaveHulls self.old }
        ensures world { CoreKeepsWorld self.old self.new }
    {
        if !self.has_hulls() {
            return Err(CoreFault::Memory);
        }
        match self.cross_runs() {
            Some(runs) => self.begin(Space::Sequence, runs),
            None => Ok(None),
        }
    }

    /// The files of the inner plan of the list of the space.
    fn inner_runs(&self, space: Space) -> Option<InputRuns>
        ensures found { IfSome result (IsInnerRuns space self.now) }
        ensures none { IfNone result ((runs : RunsOf) → ¬ IsInnerRuns space self.now runs) }
        ensures kept { IfSome result (λ runs. AreKept (files_of self.now)) }
    {
        match space {
            Space::Sequence => self.inner_sequence(),
            Space::Unsequence => self.inner_unsequence(),
        }
    }

    /// The files of the inner plan of the sequence list, where no job has claimed it.
    fn inner_sequence(&self) -> Option<InputRuns>
        ensures found { IfSome result (IsInnerRuns Sequence self.now) }
        ensures none { IfNone result ((runs : RunsOf) → ¬ IsInnerRuns Sequence self.now runs) }
        ensures kept { IfSome result (λ runs. AreKept (files_of self.now)) }
    {
        if self.sequence_claimed {
            return None;
        }
        match inner(self.files.entries(Space::Sequence)) {
            Some(sequence) => Some(InputRuns {
                sequence,
                unsequence: NO_FILES,
            }),
            None => None,
        }
    }

    /// The files of the inner plan of the unsequence list.
    fn inner_unsequence(&self) -> Option<InputRuns>
        ensures found { IfSome result (IsInnerRuns Unsequence self.now) }
        ensures none { IfNone result ((runs : RunsOf) → ¬ IsInnerRuns Unsequence self.now runs) }
        ensures kept { IfSome result (λ runs. AreKept (files_of self.now)) }
    {
        match inner(self.files.entries(Space::Unsequence)) {
            Some(unsequence) => Some(InputRuns {
                sequence: NO_FILES,
                unsequence,
            }),
            None => None,
        }
    }

    /// Whether a cross plan can be: there is a late file, and no job has claimed the sequence list.
    fn may_cross(&self) -> bool
        ensures may { result ≡ may_cross self.now }
        ensures kept { AreKept (files_of self.now) }
    {
        !self.files.entries(Space::Unsequence).is_empty() && !self.sequence_claimed
    }

    /// Whether what is kept of each listed file has its hulls in order, where a cross plan can be.
    fn has_hulls(&self) -> bool
        ensures order { IsTrue result ↔ HaveHulls self.now }
        ensures kept { AreKept (files_of self.now) }
    {
        !self.may_cross()
            || have_rising_hulls(self.files.entries(Space::Sequence))
                && have_rising_hulls(self.files.entries(Space::Unsequence))
    }

    /// The files of the cross plan, where no job has claimed the sequence list.
    fn cross_runs(&self) -> Option<InputRuns>
        requires { HaveHulls self.now }
        ensures found { IfSome result (IsCrossRuns self.now) }
        ensures none { IfNone result ((runs : RunsOf) → ¬ IsCrossRuns self.now runs) }
    {
        if !self.may_cross() {
            return None;
        }
        match cross(
            self.files.entries(Space::Sequence),
            self.files.entries(Space::Unsequence),
        ) {
            Some(run) => Some(InputRuns {
                sequence: Run {
                    first: run.first,
                    end: run.end,
                },
                unsequence: Run {
                    first: 0,
                    end: run.prefix,
                },
            }),
            None => None,
        }
    }

    /// The job of the files of a plan, where a number is left for its output.
    fn begin(&mut self, space: Space, runs: InputRuns) -> Result<Option<Job<F>>, CoreFault>
        requires plan { ArePlanned space self.old runs }
        requires kept { AreKept (files_of self.old) }
        ensures answer { IsBeginAnswer (λ these. these ≡ runs) (next_of self.old) result }
        ensures begun { IsBegunOrNot F.Right.file space (λ these. these ≡ runs) self.old self.new result }
    {
        if self.next_file > END_OF_NUMBERS - 2 {
            return Err(CoreFault::Full {
                counter: self.next_file,
            });
        }
        match self.take_inputs(space, runs) {
            Ok(job) => Ok(Some(job)),
            Err(Memory) => Err(CoreFault::Memory),
        }
    }

    /// Takes the files of a plan as the inputs of a job.
    fn take_inputs(&mut self, space: Space, runs: InputRuns) -> Result<Job<F>, Memory>
        requires plan { ArePlanned space self.old runs }
        requires kept { AreKept (files_of self.old) }
        requires left { next_of self.old + 2 ≤ end_of_numbers }
        ensures begun { IfOk result (IsBegun F.Right.file space runs self.old self.new) }
        ensures not { OnErr result (IsNotBegun self.old self.new) }
    {
        self.logged.reserve_replaced(input_count(runs)?)?;
        let series = job_series(self.alloc, &self.files, self.logged.memory(), runs)?;
        let born = Stamp(self.logged.memory().stamp());
        let output = FileNumber(self.next_file);
        let TakenInputs {
            inputs,
            sequence,
            unsequence,
        } = take_job_inputs(self.alloc, &mut self.files, space, output, runs)?;
        let JobSeries { marks, schemas } = series;
        self.next_file += 1;
        self.sequence_claimed = claims_sequence(space, self.sequence_claimed);
        Ok(Job {
            space,
            born,
            place: runs.sequence.first as u64,
            inputs,
            sequence,
            unsequence,
            marks,
            schemas,
            output,
        })
    }
}

/// How many files the runs have. Without memory alone a record cannot name them.
fn input_count(runs: InputRuns) -> Result<usize, Memory>
    requires sequence { runs.sequence.first ≤ runs.sequence.end }
    requires unsequence { runs.unsequence.first ≤ runs.unsequence.end }
    ensures count { IfOk result (λ count. count ≡ run_length runs.sequence + run_length runs.unsequence) }
    ensures few_sequence { IfOk result (λ count. run_length runs.sequence ≤ 100000000) }
    ensures few_late { IfOk result (λ count. run_length runs.unsequence ≤ 100000000) }
{
    let sequence = runs.sequence.end - runs.sequence.first;
    let unsequence = runs.unsequence.end - runs.unsequence.first;
    if sequence > MAX_RECORD_INPUTS || unsequence > MAX_RECORD_INPUTS {
        return Err(Memory);
    }
    Ok(sequence + unsequence)
}

/// Whether the sequence list is claimed once a job with an output of the space has begun.
fn claims_sequence(space: Space, claimed: bool) -> bool
    ensures { result ≡ claimed_by space claimed }
{
    match space {
        Space::Sequence => true,
        Space::Unsequence => claimed,
    }
}
