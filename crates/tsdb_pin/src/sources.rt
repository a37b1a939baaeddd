//! Rights to read the files of a list that have a series. Depends on `pin`.
ghost use Rattle.std.specs.Prelude.{◌≡◌, ◌<◌, ◌∷◌, ◌++◌, [], OnErr, OnOk, vec_capacity, vec_len};
ghost use Rattle.tsdb_fileset.specs.Files.{entries_in};
ghost use Rattle.tsdb_pin.specs.Changes.{ChangesNoFile, TakesAll, TakesSomeSources};
ghost use Rattle.tsdb_pin.specs.Sources.{AreOfFiles, IsFileWithRight};

use crate::pin::PinnedSource;
use tsdb_base::{FileNumber, Memory, Space, Stamp};
use tsdb_fileset::KeptFiles;
use tsdb_outside::Files;
use tsdb_path::Path;

/// Puts the item behind the others. There is room for it.
pub(crate) fn push<T>(list: &mut Vec<T>, item: T)
    requires { vec_len list.old < vec_capacity list.old }
    ensures { list.new.items ≡ list.old.items ++ item ∷ [] }
{
    match list.push(item) {
        Ok(()) => (),
        Err(_full) => unreachable!(),
    }
}

/// Adds the file of the number as a source, with a right to read it. Without memory nothing changes.
fn take_file<F: Files>(
    files: &mut KeptFiles<F>,
    number: FileNumber,
    born: Stamp,
    sources: &mut Vec<PinnedSource<F>>,
) -> Result<(), Memory>
    ensures ok { OnOk result (TakesAll F.Right.file (IsFileWithRight F.Right.file files.old number born)
        files.old files.new sources.old.items sources.new.items) }
    ensures memory { OnErr result (ChangesNoFile files.old files.new × (sources.new.items ≡ sources.old.items)) }
{
    sources.reserve(1)?;
    if let Some(right) = files.share(number)? {
        push(
            sources,
            PinnedSource::File {
                number,
                born,
                right,
            },
        );
    }
    Ok(())
}

/// Adds the files of the list that have the series as sources, each with a right to read it.
pub(crate) fn take_files<F: Files>(
    files: &mut KeptFiles<F>,
    space: Space,
    path: &Path,
    sources: &mut Vec<PinnedSource<F>>,
) -> Result<(), Memory>
    ensures ok { OnOk result (TakesAll F.Right.file
        (AreOfFiles F.Right.file files.old path.now (entries_in space files.old))
        files.old files.new sources.old.items sources.new.items) }
    ensures memory { OnErr result (TakesSomeSources F.Right.file files.old files.new sources.old.items sources.new.items) }
{
    for place in 0..files.entries(space).len() {
        let entry = &files.entries(space)[place];
        let (number, born) = (entry.number, entry.born);
        if files.has_series(number, path) {
            take_file(files, number, born, sources)?;
        }
    }
    Ok(())
}
