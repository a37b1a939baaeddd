//! The begin of a job among the files. Depends on `inputs` and `finishing`.
ghost use Rattle.std.specs.Prelude.{◌≡◌, [], IfOk, OnErr, OnOk, map};
ghost use Rattle.tsdb_tasks.specs.Beginning.{AreBegun, AreInputsTaken, HoldsSome, AreFilesUntouched};
ghost use Rattle.tsdb_fileset.specs.Replacing.{IsWithin};

use crate::finishing::InputRuns;
use crate::inputs::{give_back_inputs, take_inputs};
use std::alloc::Global;
use tsdb_base::{FileNumber, List, Memory, Space};
use tsdb_compactions::Input;
use tsdb_fileset::KeptFiles;
use tsdb_outside::Files;
use tsdb_plan::FileEntry;

/// The numbers of the files.
fn numbers_of(alloc: Global, entries: &[FileEntry]) -> Result<List<FileNumber>, Memory>
    ensures { IfOk result (λ numbers. numbers ≡ map (λ entry. entry.number) entries.now) }
{
    let mut numbers = Vec::with_capacity(alloc, entries.len())?;
    for entry in entries {
        numbers.push(entry.number)?;
    }
    Ok(List::of(numbers))
}

/// Adds the files of the runs as inputs, each with a right to read it, and takes all memory that the end of their job
/// needs. Without memory some inputs are added, and there is no more room than before.
fn take_all<F: Files>(
    files: &mut KeptFiles<F>,
    space: Space,
    output: FileNumber,
    runs: InputRuns,
    inputs: &mut Vec<Input<F>>,
) -> Result<(), Memory>
    requires sequence { IsWithin runs.sequence files.old.sequence }
    requires unsequence { IsWithin runs.unsequence files.old.unsequence }
    requires none { inputs.old.items ≡ [] }
    ensures ok { OnOk result (AreInputsTaken F.Right.file space output.0 runs files.old files.new inputs.new.items) }
    ensures memory { OnErr result (HoldsSome F.Right.file files.old files.new inputs.new.items) }
{
    take_inputs(files, Space::Sequence, runs.sequence, inputs)?;
    take_inputs(files, Space::Unsequence, runs.unsequence, inputs)?;
    files.prepare_compaction(space, output, inputs.len())
}

/// The inputs of a job, with the numbers of those of each list.
pub struct TakenInputs<F: Files> {
    pub inputs: List<Input<F>>,
    pub sequence: List<FileNumber>,
    pub unsequence: List<FileNumber>,
}

/// Takes the files of the runs as the inputs of a job with an output of this space and number, and claims the late
/// ones. All memory that the end of the job needs is taken. Without memory no right is out and no file is claimed.
pub fn take_job_inputs<F: Files>(
    alloc: Global,
    files: &mut KeptFiles<F>,
    space: Space,
    output: FileNumber,
    runs: InputRuns,
) -> Result<TakenInputs<F>, Memory>
    requires sequence { IsWithin runs.sequence files.old.sequence }
    requires unsequence { IsWithin runs.unsequence files.old.unsequence }
    ensures ok { IfOk result (AreBegun F.Right.file space output.0 runs files.old files.new) }
    ensures memory { OnErr result (AreFilesUntouched files.old files.new) }
{
    let sequence = files.entries(Space::Sequence);
    let sequence = numbers_of(alloc, &sequence[runs.sequence.first..runs.sequence.end])?;
    let unsequence = files.entries(Space::Unsequence);
    let unsequence = numbers_of(
        alloc,
        &unsequence[runs.unsequence.first..runs.unsequence.end],
    )?;
    let mut inputs = Vec::new(alloc);
    match take_all(files, space, output, runs, &mut inputs) {
        Ok(()) => {
            files.claim(runs.unsequence, true);
            Ok(TakenInputs {
                inputs: List::of(inputs),
                sequence,
                unsequence,
            })
        }
        Err(Memory) => {
            give_back_inputs(files, inputs);
            Err(Memory)
        }
    }
}
