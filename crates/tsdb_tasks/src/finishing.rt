//! The end of a job with its record. Depends on `inputs` and `runs`.
ghost use Rattle.std.specs.Option.{option_map};
ghost use Rattle.std.specs.Prelude.{◌≡◌, ◌+◌, [], IfSome, length};
ghost use Rattle.tsdb_tasks.specs.Files.{file_built};
ghost use Rattle.tsdb_tasks.specs.Ending.{IsOutIn, IsOutputNumbered};
ghost use Rattle.tsdb_tasks.specs.Finishing.{AreRunsOf, Finishes, IsRunOf, StandInSequence};
ghost use Rattle.tsdb_fileset.specs.Files.{entry_numbers};
ghost use Rattle.tsdb_base.specs.declared.ids.Space.TheVariants.{Sequence, Unsequence};
ghost use Rattle.tsdb_base.specs.Lists.{IsRun};
ghost use Rattle.tsdb_outside.specs.Files.{plain_numbers};

use crate::inputs::give_back_inputs;
use crate::runs::run_of;
use tsdb_base::{FileNumber, Space};
use tsdb_compactions::{Built, Job};
use tsdb_fileset::KeptFiles;
use tsdb_outside::Files;
use tsdb_plan::{FileEntry, Run};

/// Where the inputs of a job stand in the two lists.
#[derive(Clone, Copy, Debug, PartialEq, Eq)]
pub struct InputRuns {
    pub sequence: Run,
    pub unsequence: Run,
}

/// Where the sequence inputs of a job stand. A job of late files has none.
fn sequence_run(space: Space, place: u64, numbers: &[FileNumber], _entries: &[FileEntry]) -> Run
    requires { StandInSequence space place numbers.now _entries.now }
    ensures run { IsRunOf result numbers.now _entries.now }
    ensures place { space ≡ Sequence → result.first ≡ place }
{
    match space {
        Space::Sequence => Run {
            first: place as usize,
            end: place as usize + numbers.len(),
        },
        Space::Unsequence => Run { first: 0, end: 0 },
    }
}

/// Where the late inputs of a job stand.
fn late_run<F: Files>(files: &KeptFiles<F>, numbers: &[FileNumber]) -> Run
    requires { IsRun (plain_numbers numbers.now) (entry_numbers files.now.unsequence) }
    ensures run { IsRunOf result numbers.now files.now.unsequence }
    ensures empty { numbers.now ≡ [] → result.first ≡ 0 }
{
    run_of(files.entries(Space::Unsequence), numbers)
}

/// Where the inputs of a job that is out stand: of a sequence output at the place that the job has.
pub fn runs_of<F: Files>(files: &KeptFiles<F>, job: &Job<F>) -> InputRuns
    requires sequence { StandInSequence job.now.space job.now.place job.now.sequence files.now.sequence }
    requires unsequence { IsRun (plain_numbers job.now.unsequence) (entry_numbers files.now.unsequence) }
    ensures { AreRunsOf job.now result files.now }
{
    let sequence = sequence_run(
        job.space,
        job.place,
        job.sequence.items(),
        files.entries(Space::Sequence),
    );
    let unsequence = late_run(files, job.unsequence.items());
    InputRuns {
        sequence,
        unsequence,
    }
}

/// Ends a job that is out: its inputs are on their way out, its output, if there is one, stands in the place of those
/// of its space, and its rights are given back. It takes no memory.
pub fn finish<F: Files>(
    files: &mut KeptFiles<F>,
    job: Job<F>,
    runs: InputRuns,
    output: Option<Built<F>>,
)
    requires out { IsOutIn F.Right.file files.old job }
    requires runs { AreRunsOf job runs files.old }
    requires all { length job.sequence + length job.unsequence ≡ length job.inputs }
    requires output { IfSome output (IsOutputNumbered F.Sealed.rights job) }
    requires store { IfSome output (λ built. (F.Sealed.file built.sealed).store ≡ files.old.store) }
    ensures { Finishes files.old files.new job runs (option_map (file_built F.Sealed.file) output) }
{
    let Job {
        space,
        born: _,
        place: _,
        inputs,
        sequence: _,
        unsequence: _,
        marks: _,
        schemas: _,
        output: number,
    } = job;
    give_back_inputs(files, inputs.into_vec());
    files.replace(space, runs.sequence, runs.unsequence, number, output);
}
