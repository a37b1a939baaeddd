//! The end of a job without its record. Depends on `inputs` and `runs`.
ghost use Rattle.std.specs.Option.{option_map};
ghost use Rattle.std.specs.Prelude.{◌≡◌, IfSome};
ghost use Rattle.tsdb_tasks.specs.Files.{file_built};
ghost use Rattle.tsdb_tasks.specs.Ending.{FreesLate, GivesUp, IsOutIn, IsOutputNumbered, OutputEnds};
ghost use Rattle.tsdb_fileset.specs.Files.{IsOpen, entry_numbers};
ghost use Rattle.tsdb_fileset.specs.Room.{HasRoom};
ghost use Rattle.tsdb_base.specs.Lists.{IsRun};
ghost use Rattle.tsdb_outside.specs.Files.{plain_numbers};

use crate::inputs::give_back_inputs;
use crate::runs::run_of;
use tsdb_base::{FileNumber, Space};
use tsdb_compactions::{Built, Job};
use tsdb_fileset::KeptFiles;
use tsdb_outside::Files;

/// Frees the late files with these numbers, which stand side by side.
fn free_late<F: Files>(files: &mut KeptFiles<F>, numbers: &[FileNumber])
    requires { IsRun (plain_numbers numbers.now) (entry_numbers files.old.unsequence) }
    ensures { FreesLate numbers.now files.old files.new }
{
    let run = run_of(files.entries(Space::Unsequence), numbers);
    files.claim(run, false);
}

/// Sends the output of a job out, if there is one, and else gives its place up.
fn end_output<F: Files>(
    files: &mut KeptFiles<F>,
    space: Space,
    number: FileNumber,
    output: Option<Built<F>>,
)
    requires place { IsOpen number.0 files.old }
    requires room { HasRoom space files.old.spare }
    requires numbered { IfSome output (λ built. built.entry.number.0 ≡ number.0) }
    requires unread { IfSome output (λ built. F.Sealed.rights built.sealed ≡ 0) }
    requires store { IfSome output (λ built. (F.Sealed.file built.sealed).store ≡ files.old.store) }
    ensures { OutputEnds space number.0 (option_map (file_built F.Sealed.file) output) files.old files.new }
{
    match output {
        Some(built) => files.send_out(space, built),
        None => files.give_up(space, number),
    }
}

/// Gives a job that is out up: its late inputs are free again, its rights are given back, and its output, if there is
/// one, is on its way out. It takes no memory.
pub fn give_up<F: Files>(files: &mut KeptFiles<F>, job: Job<F>, output: Option<Built<F>>)
    requires out { IsOutIn F.Right.file files.old job }
    requires output { IfSome output (IsOutputNumbered F.Sealed.rights job) }
    requires store { IfSome output (λ built. (F.Sealed.file built.sealed).store ≡ files.old.store) }
    ensures { GivesUp files.old files.new job (option_map (file_built F.Sealed.file) output) }
{
    let Job {
        space,
        born: _,
        place: _,
        inputs,
        sequence: _,
        unsequence,
        marks: _,
        schemas: _,
        output: number,
    } = job;
    let count = inputs.items().len();
    free_late(files, unsequence.items());
    give_back_inputs(files, inputs.into_vec());
    end_output(files, space, number, output);
    files.free_outgoing(count - 1);
}
