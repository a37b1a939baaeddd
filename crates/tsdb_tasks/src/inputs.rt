//! Rights to read the inputs of a job. Depends on nothing here.
ghost use Rattle.std.specs.Prelude.{◌≡◌, ◌<◌, ◌∷◌, ◌++◌, [], IsSome, OnErr, OnOk, slice_range, vec_capacity, vec_len};
ghost use Rattle.tsdb_tasks.specs.Inputs.{AreHeld, IsHeld, IsOneTaken, TakesEntries, TakesSomeInputs, input_numbers};
ghost use Rattle.tsdb_fileset.specs.Files.{entries_in, kept_file};
ghost use Rattle.tsdb_fileset.specs.Replacing.{IsWithin};
ghost use Rattle.tsdb_pin.specs.Changes.{GivesRights, ChangesNoFile};

use tsdb_base::{FileNumber, Memory, Space, Stamp};
use tsdb_compactions::Input;
use tsdb_fileset::KeptFiles;
use tsdb_outside::Files;
use tsdb_plan::Run;

/// Puts the input behind the others. There is room for it.
fn push<F: Files>(inputs: &mut Vec<Input<F>>, input: Input<F>)
    requires { vec_len inputs.old < vec_capacity inputs.old }
    ensures { inputs.new.items ≡ inputs.old.items ++ input ∷ [] }
{
    match inputs.push(input) {
        Ok(()) => (),
        Err(_full) => unreachable!(),
    }
}

/// Adds a kept file as an input, with a right to read it. Without memory nothing changes.
fn take_input<F: Files>(
    files: &mut KeptFiles<F>,
    number: FileNumber,
    born: Stamp,
    inputs: &mut Vec<Input<F>>,
) -> Result<(), Memory>
    requires kept { IsSome (kept_file number.0 files.old) }
    ensures ok { OnOk result (IsOneTaken F.Right.file number born files.old files.new inputs.old.items
        inputs.new.items) }
    ensures memory { OnErr result (ChangesNoFile files.old files.new × (inputs.new.items ≡ inputs.old.items)) }
{
    inputs.reserve(1)?;
    match files.share(number)? {
        Some(right) => push(
            inputs,
            Input {
                number,
                born,
                right,
            },
        ),
        None => unreachable!(),
    }
    Ok(())
}

/// Adds the files of a run of the list as inputs, each with a right to read it. Without memory some of them are added.
pub fn take_inputs<F: Files>(
    files: &mut KeptFiles<F>,
    space: Space,
    run: Run,
    inputs: &mut Vec<Input<F>>,
) -> Result<(), Memory>
    requires within { IsWithin run (entries_in space files.old) }
    ensures ok { OnOk result (TakesEntries F.Right.file (slice_range (entries_in space files.old) run.first run.end)
        files.old files.new inputs.old.items inputs.new.items) }
    ensures memory { OnErr result (TakesSomeInputs F.Right.file files.old files.new inputs.old.items inputs.new.items) }
{
    for place in run.first..run.end {
        let entry = &files.entries(space)[place];
        let (number, born) = (entry.number, entry.born);
        take_input(files, number, born, inputs)?;
    }
    Ok(())
}

/// Gives the right of an input back.
fn give_back_input<F: Files>(files: &mut KeptFiles<F>, input: Input<F>)
    requires { IsHeld F.Right.file files.old input }
    ensures { GivesRights (input.number.0 ∷ []) files.old files.new }
{
    let Input {
        number,
        born: _,
        right,
    } = input;
    files.give_back(number, right);
}

/// Gives the rights of inputs back.
pub fn give_back_inputs<F: Files>(files: &mut KeptFiles<F>, mut inputs: Vec<Input<F>>)
    requires { AreHeld F.Right.file files.old inputs.items }
    ensures { GivesRights (input_numbers inputs.items) files.old files.new }
{
    for _ in 0..inputs.len() {
        match inputs.pop() {
            Some(input) => give_back_input(files, input),
            None => unreachable!(),
        }
    }
    inputs.destroy_empty();
}
