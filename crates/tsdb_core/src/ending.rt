//! How one part of a flush ends among the kept files. Depends on tsdb_flush and tsdb_fileset.
ghost use Rattle.std.specs.Prelude.{◌≡◌, IfSome, None};
ghost use Rattle.std.specs.Option.{option_map};
ghost use Rattle.tsdb_tasks.specs.Files.{file_built};
ghost use Rattle.tsdb_core.specs.declared.commit.Commit.{Commit as HowEnded};
ghost use Rattle.tsdb_core.specs.Ending.{IsNumberedOutput, PartEnds};
ghost use Rattle.tsdb_fileset.specs.Files.{IsOpen};
ghost use Rattle.tsdb_fileset.specs.Room.{HasRoom};

use crate::commit::Commit;
use tsdb_base::{FileNumber, Space};
use tsdb_fileset::{Built, KeptFiles};
use tsdb_outside::Files;

/// Ends one part of a flush: its file is listed, or on its way out; a number without a file is given up.
pub(crate) fn end_part<F: Files>(
    files: &mut KeptFiles<F>,
    space: Space,
    number: Option<FileNumber>,
    file: Option<Built<F>>,
    commit: Commit,
)
    requires place { IfSome number (λ drawn. IsOpen drawn.0 files.old) }
    requires room { IfSome number (λ drawn. HasRoom space files.old.spare) }
    requires numbered { IfSome file (IsNumberedOutput F.Sealed.rights number) }
    requires store { IfSome file (λ built. (F.Sealed.file built.sealed).store ≡ files.old.store) }
    ensures { PartEnds commit space number (option_map (file_built F.Sealed.file) file) files.old files.new }
{
    let Some(built) = file else {
        give_up::<F>(files, space, number);
        return;
    };
    match commit {
        Commit::Done => files.enlist(space, built),
        Commit::Gone | Commit::Device => files.send_out(space, built),
    }
}

/// Gives up a number without a file.
fn give_up<F: Files>(files: &mut KeptFiles<F>, space: Space, number: Option<FileNumber>)
    requires place { IfSome number (λ drawn. IsOpen drawn.0 files.old) }
    requires room { IfSome number (λ drawn. HasRoom space files.old.spare) }
    ensures { (commit : HowEnded) → PartEnds commit space number None files.old files.new }
{
    if let Some(number) = number {
        files.give_up(space, number);
    }
}
