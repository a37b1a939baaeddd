//! What is kept of a file. Depends on `summary`.
ghost use Rattle.std.specs.Prelude.{◌≡◌, ℕ, List as ListOf, IfOk, false};
ghost use Rattle.tsdb_recover.specs.DescribedSteps.{IsSummary};
ghost use Rattle.tsdb_recover.specs.DescribedTrees.{HaveShortPaths, tree_part};
ghost use Rattle.tsdb_flush.specs.BuiltFile.{IsFileEntryOf, paths_of};
ghost use Rattle.tsdb_pages.specs.File.{AreEntriesIn};
ghost use Rattle.tsdb_pages.specs.Trees.{IsMade, IsTree};
ghost use Rattle.tsdb_pages.specs.declared.tree.Tree.{Tree};
ghost use Rattle.tsfile_reader.specs.Blame.{IsMetaOfTree};

use crate::summary::Summary;
use std::alloc::Global;
use tsdb_base::{FileNumber, List, Memory, Stamp};
use tsdb_index::{FileMeta, IndexEntry};
use tsdb_path::Path;
use tsdb_plan::FileEntry;

/// What is kept of a file: its entry, and the paths of its series in the order of a tree.
#[derive(Drop)]
pub struct Described {
    pub entry: FileEntry,
    pub series: List<Path>,
}

/// What is kept of the file of which this was read, which has this number and was born at this stamp. A series whose
/// path would be too long is left out: no store has it.
pub fn describe(
    alloc: Global,
    meta: &FileMeta,
    number: FileNumber,
    born: Stamp,
) -> Result<Described, Memory>
    ensures number { IfOk result (λ file. file.entry.number ≡ number) }
    ensures born { IfOk result (λ file. file.entry.born ≡ born) }
    ensures free { IfOk result (λ file. file.entry.claimed ≡ false) }
    ensures entry { IfOk result (λ file. (bytes : ListOf ℕ) (whole : IsMetaOfTree bytes meta.now)
        → IsFileEntryOf number.0 born.0 bytes (tree_part whole.tree) file.entry) }
    ensures series { IfOk result (λ file. (bytes : ListOf ℕ) (whole : IsMetaOfTree bytes meta.now)
        → HaveShortPaths whole.tree → file.series ≡ paths_of (tree_part whole.tree)) }
{
    let Summary {
        points,
        hulls,
        series,
    } = sum_up(alloc, meta.index.entries.items())?;
    let entry = FileEntry {
        number,
        born,
        size: meta.size,
        points,
        hulls: List::of(hulls),
        claimed: false,
    };
    Ok(Described {
        entry,
        series: List::of(series),
    })
}

/// The summary of the entries of a file.
fn sum_up(alloc: Global, entries: &[IndexEntry]) -> Result<Summary, Memory>
    ensures { IfOk result (λ summary. (tree : Tree) → IsTree tree → IsMade tree → AreEntriesIn tree entries.now
        → IsSummary (tree_part tree) summary) }
{
    let mut summary = Summary::new(alloc);
    for entry in entries {
        summary.add(entry)?;
    }
    Ok(summary)
}
